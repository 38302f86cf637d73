ghost use Rattle.std.specs.Prelude.{◌≡◌, ◌↔◌, IsTrue};
ghost use Rattle.hub_tree.specs.Nodes.{AreSame, replica_of};

use crate::node::Node;
use hub_path::Name;
use std::collections::BTreeMap;

/// Returns whether these nodes are the same as the others, with all that they hold.
#[cycle(same)]
pub fn are_same(children: &BTreeMap<Name, Node>, others: &BTreeMap<Name, Node>) -> bool
    ensures { IsTrue result ↔ (replica_of children.now.entries ≡ replica_of others.now.entries) }
{
    let mut rest = others.iter();
    for (name, node) in children.iter() {
        let Some((other_name, other)) = rest.next() else {
            return false;
        };
        if name != other_name {
            return false;
        }
        if !is_same(node, other) {
            return false;
        }
    }
    rest.next().is_none()
}

/// Returns whether a node is the same as another, with all that it holds.
#[cycle(same)]
fn is_same(node: &Node, other: &Node) -> bool
    ensures { IsTrue result ↔ AreSame node.now other.now }
{
    match node {
        Node::File(blob) => match other {
            Node::File(other) => blob.bytes() == other.bytes(),
            Node::Directory(_) => false,
        },
        Node::Directory(children) => match other {
            Node::Directory(others) => are_same(children, others),
            Node::File(_) => false,
        },
    }
}
