ghost use Rattle.std.specs.Prelude.{◌≡◌, [], ◌∷◌, true, false, None, is_some, IsTrue};
ghost use Rattle.std.specs.BTreeMap.{get};
ghost use Rattle.hub_path.specs.Path.{name_cmp};
ghost use Rattle.hub_tree.specs.Nodes.{replica_of, occupied, contents_or_absent};
ghost use Rattle.hub_tree.specs.Tree.{set_fault, is_directory};
ghost use Rattle.hub_tree.specs.forms.Puts.{IsPut, SetsChild, is_left_among};

use crate::blob::Blob;
use crate::contents::Contents;
use crate::fault::SetFault;
use crate::node::Node;
use hub_path::Name;
use std::alloc::Global;
use std::collections::BTreeMap;
use std::sync::Arc;

/// Why contents can't be set at a name.
pub fn fault_of_child(
    children: &BTreeMap<Name, Node>,
    name: &Name,
    contents: &Contents,
) -> Option<SetFault>
    ensures { result
        ≡ set_fault (replica_of children.now.entries) (name.now ∷ []) contents.now }
{
    match contents {
        Contents::Directory => None,
        Contents::File(_) => {
            if is_occupied(children, name) {
                return Some(SetFault::NotEmpty);
            }
            None
        }
        Contents::Absent => {
            if is_occupied(children, name) {
                return Some(SetFault::NotEmpty);
            }
            match children.get(name) {
                Some(_) => None,
                None => Some(SetFault::NothingThere),
            }
        }
    }
}

/// Puts contents at a name. If only new contents are put, those that are there are left as they are, and it returns `true`.
pub fn put_child(
    alloc: Global,
    children: &mut BTreeMap<Name, Node>,
    name: &Name,
    contents: Contents,
    only_new: bool,
) -> Result<bool, SetFault>
    ensures { IsPut only_new children.old children.new (name.now ∷ []) contents result }
{
    if is_past(children, name) {
        add_child(alloc, children, name, contents)?;
        return Ok(false);
    }
    put_among(alloc, children, name, contents, only_new)
}

/// Returns whether a name comes after those of all children, so that no child has it.
fn is_past(children: &BTreeMap<Name, Node>, name: &Name) -> bool
    ensures absent { IsTrue result → is_some (get name_cmp children.now name.now) ≡ false }
    ensures left { IsTrue result → is_left_among true children.now (name.now ∷ []) ≡ false }
{
    match children.last_key_value() {
        Some((last, _)) => *last < *name,
        None => true,
    }
}

/// Puts contents at a name that may be among those of the children. See [`put_child`].
fn put_among(
    alloc: Global,
    children: &mut BTreeMap<Name, Node>,
    name: &Name,
    contents: Contents,
    only_new: bool,
) -> Result<bool, SetFault>
    ensures { IsPut only_new children.old children.new (name.now ∷ []) contents result }
{
    if !only_new {
        set_child(alloc, children, name, contents)?;
        return Ok(false);
    }
    if has_child(children, name) {
        return Ok(true);
    }
    add_child(alloc, children, name, contents)?;
    Ok(false)
}

/// Returns whether there are contents at a name.
fn has_child(children: &BTreeMap<Name, Node>, name: &Name) -> bool
    ensures found { result ≡ is_some (get name_cmp children.now name.now) }
    ensures left { result ≡ is_left_among true children.now (name.now ∷ []) }
{
    children.contains_key(name)
}

/// Sets contents at a name that has none.
fn add_child(
    alloc: Global,
    children: &mut BTreeMap<Name, Node>,
    name: &Name,
    contents: Contents,
) -> Result<(), SetFault>
    requires { is_some (get name_cmp children.old name.now) ≡ false }
    ensures { SetsChild contents name.now children.old children.new result }
{
    match contents {
        Contents::File(blob) => insert_file(children, name, blob),
        Contents::Directory => insert_directory(alloc, children, name),
        Contents::Absent => Err(SetFault::NothingThere),
    }
}

/// Sets contents at a name.
fn set_child(
    alloc: Global,
    children: &mut BTreeMap<Name, Node>,
    name: &Name,
    contents: Contents,
) -> Result<(), SetFault>
    ensures { SetsChild contents name.now children.old children.new result }
{
    match contents {
        Contents::File(blob) => set_file(children, name, blob),
        Contents::Directory => set_directory(alloc, children, name),
        Contents::Absent => remove(children, name),
    }
}

/// Puts a file at a name.
fn set_file(children: &mut BTreeMap<Name, Node>, name: &Name, blob: Blob) -> Result<(), SetFault>
    ensures { SetsChild (Contents.File blob) name.now children.old children.new result }
{
    if is_occupied(children, name) {
        return Err(SetFault::NotEmpty);
    }
    insert_file(children, name, blob)
}

/// Puts a file at a name where there is no directory that holds something.
fn insert_file(children: &mut BTreeMap<Name, Node>, name: &Name, blob: Blob) -> Result<(), SetFault>
    requires { occupied (get name_cmp children.old name.now) ≡ false }
    ensures { SetsChild (Contents.File blob) name.now children.old children.new result }
{
    let _old = children.insert(name.copy()?, Node::File(blob))?;
    Ok(())
}

/// Puts a directory at a name, or leaves the one that is there.
fn set_directory(
    alloc: Global,
    children: &mut BTreeMap<Name, Node>,
    name: &Name,
) -> Result<(), SetFault>
    ensures { SetsChild Contents.Directory name.now children.old children.new result }
{
    if holds_directory(children, name) {
        return Ok(());
    }
    insert_directory(alloc, children, name)
}

/// Puts a directory at a name where there is none.
fn insert_directory(
    alloc: Global,
    children: &mut BTreeMap<Name, Node>,
    name: &Name,
) -> Result<(), SetFault>
    requires { is_directory (contents_or_absent (get name_cmp children.old name.now)) ≡ false }
    ensures { SetsChild Contents.Directory name.now children.old children.new result }
{
    let inner = Arc::new(alloc, BTreeMap::new(alloc))?;
    let _old = children.insert(name.copy()?, Node::Directory(inner))?;
    Ok(())
}

/// Removes the node at a name.
fn remove(children: &mut BTreeMap<Name, Node>, name: &Name) -> Result<(), SetFault>
    ensures { SetsChild Contents.Absent name.now children.old children.new result }
{
    if is_occupied(children, name) {
        return Err(SetFault::NotEmpty);
    }
    match children.remove(name) {
        Some(_old) => Ok(()),
        None => Err(SetFault::NothingThere),
    }
}

/// Returns whether the node at the name is a directory that holds something.
fn is_occupied(children: &BTreeMap<Name, Node>, name: &Name) -> bool
    ensures { result ≡ occupied (get name_cmp children.now name.now) }
{
    match children.get(name) {
        Some(Node::Directory(inner)) => !inner.is_empty(),
        Some(Node::File(_)) => false,
        None => false,
    }
}

/// Returns whether the node at the name is a directory.
fn holds_directory(children: &BTreeMap<Name, Node>, name: &Name) -> bool
    ensures { result ≡ is_directory (contents_or_absent (get name_cmp children.now name.now)) }
{
    match children.get(name) {
        Some(Node::Directory(_)) => true,
        Some(Node::File(_)) => false,
        None => false,
    }
}
