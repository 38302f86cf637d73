ghost use Rattle.std.specs.Prelude.{◌≡◌, ◌<◌, min, ◌++◌, drop, length, IfOk, OnOk};
ghost use Rattle.std.specs.Arc.{arc_value};
ghost use Rattle.std.specs.Option.{option_copied};
ghost use Rattle.std.specs.FinMap as fin;
ghost use Rattle.std.specs.BTreeMap.{insert_entry, keys, IsOrdered};
ghost use Rattle.hub_path.specs.Path.{name_cmp};
ghost use Rattle.hub_tree.specs.Nodes.{replica_of, children_entries, entries_under, size_of, contents_of};
ghost use Rattle.hub_tree.specs.Tree.{set_fault};
ghost use Rattle.hub_tree.specs.forms.Puts.{IsNodeAt, IsPut, IsPutBelow, is_left_among, paths_in, paths_of};

use crate::blob::Blob;
use crate::child::{fault_of_child, put_child};
use crate::contents::Contents;
use crate::fault::SetFault;
use hub_path::{Name, RelPath};
use hub_text::Items;
use std::alloc::{AllocError, Global};
use std::collections::BTreeMap;
use std::sync::Arc;

/// What a directory holds at a name.
#[derive(Drop)]
pub enum Node {
    /// A file.
    File(Blob),
    /// A directory, with what it holds. A directory and its copies share it, until one of them is written.
    Directory(Arc<BTreeMap<Name, Node>>),
}

/// Finds the node at the names of the path from `depth` on.
pub fn node_at<'a>(
    children: &'a BTreeMap<Name, Node>,
    path: &RelPath,
    depth: usize,
) -> Option<&'a Node>
    requires { depth < length path.now }
    ensures { IsNodeAt children.now (drop depth path.now) (option_copied result) }
{
    let len = path.len();
    let node = children.get(path.name(depth))?;
    if depth + 1 == len {
        return Some(node);
    }
    match node {
        Node::File(_) => None,
        Node::Directory(inner) => node_at(inner, path, depth + 1),
    }
}

/// Copies the names, in ascending order.
pub fn names_of(alloc: Global, children: &BTreeMap<Name, Node>) -> Result<Items<Name>, AllocError>
    ensures names { IfOk result (λ ns. ns ≡ keys children.now) }
    ensures ordered { IsOrdered name_cmp children.now }
{
    let mut names = Vec::with_capacity(alloc, children.len())?;
    for name in children.keys() {
        names.push(name.copy()?)?;
    }
    Ok(Items::from_vec(names))
}

/// Pushes the paths of these and of all that they hold, each after a prefix, in ascending order.
#[cycle(paths)]
pub fn push_paths(
    prefix: &RelPath,
    children: &BTreeMap<Name, Node>,
    paths: &mut Vec<RelPath>,
) -> Result<(), AllocError>
    ensures { OnOk result
        (paths.new.items ≡ paths.old.items ++ paths_in prefix.now children.now) }
{
    for (name, node) in children.iter() {
        let path = prefix.child(name.copy()?)?;
        push_below(path, node, paths)?;
    }
    Ok(())
}

/// Pushes the path of a node, and then the paths of all that it holds.
#[cycle(paths)]
fn push_below(path: RelPath, node: &Node, paths: &mut Vec<RelPath>) -> Result<(), AllocError>
    ensures { OnOk result (paths.new.items ≡ paths.old.items ++ paths_of path node.now) }
{
    match node {
        Node::File(_) => {
            paths.push(path)?;
            Ok(())
        }
        Node::Directory(children) => {
            let prefix = path.copy()?;
            paths.push(path)?;
            push_paths(&prefix, children, paths)
        }
    }
}

/// Copies these nodes. What a directory holds is shared.
fn copies_of(
    alloc: Global,
    children: &BTreeMap<Name, Node>,
) -> Result<BTreeMap<Name, Node>, AllocError>
    ensures { IfOk result
        (λ m. children_entries m.entries ≡ children_entries children.now.entries) }
{
    let mut copies = BTreeMap::new(alloc);
    for (name, node) in children.iter() {
        let copy = copy_of(node)?;
        put(&mut copies, name.copy()?, copy)?;
    }
    Ok(copies)
}

/// Puts a node at a name.
fn put(children: &mut BTreeMap<Name, Node>, name: Name, node: Node) -> Result<(), AllocError>
    ensures { OnOk result
        (children.new.entries ≡ insert_entry name_cmp children.old.entries name node) }
{
    let _old = children.insert(name, node)?;
    Ok(())
}

/// Copies a node. What a directory holds is shared.
fn copy_of(node: &Node) -> Result<Node, AllocError>
    ensures { IfOk result (λ x. entries_under x ≡ entries_under node.now) }
{
    match node {
        Node::File(blob) => Ok(Node::File(blob.copy()?)),
        Node::Directory(children) => Ok(Node::Directory(Arc::try_clone(children)?)),
    }
}

/// Counts these nodes and all that they hold, up to `u64::MAX`.
#[cycle(count)]
pub fn count_of(children: &BTreeMap<Name, Node>) -> u64
    ensures { result ≡ min (fin.len (replica_of children.now.entries)) u64.MAX }
{
    let mut count: u64 = 0;
    for node in children.values() {
        count = count.saturating_add(count_at(node));
    }
    count
}

/// Counts a node and all that it holds, up to `u64::MAX`.
#[cycle(count)]
fn count_at(node: &Node) -> u64
    ensures { result ≡ min (size_of node.now) u64.MAX }
{
    match node {
        Node::File(_) => 1,
        Node::Directory(children) => count_of(children).saturating_add(1),
    }
}

/// Why contents can't be set at the names of the path from `depth` on, below these.
fn fault_at(
    children: &BTreeMap<Name, Node>,
    path: &RelPath,
    depth: usize,
    contents: &Contents,
) -> Option<SetFault>
    requires { depth < length path.now }
    ensures { result
        ≡ set_fault (replica_of children.now.entries) (drop depth path.now) contents.now }
{
    let len = path.len();
    let name = path.name(depth);
    if depth + 1 == len {
        return fault_of_child(children, name, contents);
    }
    match children.get(name) {
        Some(Node::Directory(inner)) => fault_at(inner, path, depth + 1, contents),
        Some(Node::File(_)) => Some(SetFault::NoParent),
        None => Some(SetFault::NoParent),
    }
}

/// Puts contents at the names of the path from `depth` on, below these. If they have other owners, they are copied first.
/// If only new contents are put, those that are there are left as they are, and it returns `true`.
#[cycle(set)]
pub fn put_shared(
    alloc: Global,
    shared: &mut Arc<BTreeMap<Name, Node>>,
    path: &RelPath,
    depth: usize,
    contents: Contents,
    only_new: bool,
) -> Result<bool, SetFault>
    requires { depth < length path.now }
    ensures { IsPut only_new (arc_value shared.old) (arc_value shared.new) (drop depth path.now)
        contents result }
{
    if let Some(children) = Arc::get_mut(shared) {
        return put_at(alloc, children, path, depth, contents, only_new);
    }
    if leaves(shared, path, depth, only_new) {
        return Ok(true);
    }
    let fault = fault_at(shared, path, depth, &contents);
    if let Some(fault) = fault {
        return Err(fault);
    }
    let mut children = copies_of(alloc, shared)?;
    let left = put_at(alloc, &mut children, path, depth, contents, only_new)?;
    *shared = Arc::new(alloc, children)?;
    Ok(left)
}

/// Puts contents at the names of the path from `depth` on, below these. See [`put_shared`].
#[cycle(set)]
pub fn put_at(
    alloc: Global,
    children: &mut BTreeMap<Name, Node>,
    path: &RelPath,
    depth: usize,
    contents: Contents,
    only_new: bool,
) -> Result<bool, SetFault>
    requires { depth < length path.now }
    ensures { IsPut only_new children.old children.new (drop depth path.now) contents result }
{
    let len = path.len();
    let name = path.name(depth);
    if depth + 1 == len {
        return put_child(alloc, children, name, contents, only_new);
    }
    match children.get_mut(name) {
        Some(node) => put_below(alloc, node, path, depth + 1, contents, only_new),
        None => Err(SetFault::NoParent),
    }
}

/// Puts contents at the names of the path from `depth` on, below a node. See [`put_shared`].
#[cycle(set)]
fn put_below(
    alloc: Global,
    node: &mut Node,
    path: &RelPath,
    depth: usize,
    contents: Contents,
    only_new: bool,
) -> Result<bool, SetFault>
    requires { depth < length path.now }
    ensures put { IsPutBelow only_new node.old node.new (drop depth path.now) contents result }
    ensures kind { contents_of node.new ≡ contents_of node.old }
{
    match node {
        Node::Directory(children) => put_shared(alloc, children, path, depth, contents, only_new),
        Node::File(_) => Err(SetFault::NoParent),
    }
}

/// Returns whether only new contents are put, and there are some at the names of the path from `depth` on, below these.
fn leaves(children: &BTreeMap<Name, Node>, path: &RelPath, depth: usize, only_new: bool) -> bool
    requires { depth < length path.now }
    ensures { result ≡ is_left_among only_new children.now (drop depth path.now) }
{
    only_new && node_at(children, path, depth).is_some()
}
