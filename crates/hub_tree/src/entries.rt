ghost use Rattle.std.specs.Prelude.{◌≡◌, ◌++◌, ◌∷◌, [], T, IfOk, OnOk};
ghost use Rattle.std.specs.FinMap as fin;
ghost use Rattle.std.specs.FinMap.Entries.{is_sorted};
ghost use Rattle.hub_path.specs.Path.{name_cmp};
ghost use Rattle.hub_tree.specs.Levels.{all_ascend, left_in, IsEntered};
ghost use Rattle.hub_tree.specs.Nodes.{contents_of, replica_of};
ghost use Rattle.hub_tree.specs.Stored.{TakesEntry, stored_contents};

use crate::blob::Blob;
use crate::node::Node;
use crate::place::{Folder, Place};
use hub_path::Name;
use std::alloc::{AllocError, Global};
use std::collections::BTreeMap;
use std::collections::btree_map::Iter;
use std::marker::Model;

/// What a replica has at a path, borrowed from it.
#[derive(Clone, Copy)]
pub enum Stored<'a> {
    /// A file with these bytes.
    File(&'a Blob),
    /// A directory.
    Directory,
}

/// Goes through the files and directories of a replica, in the order of their paths: a directory comes before what it
/// holds. The contents are borrowed, and no path is made: a [`Place`] has the text of one.
///
/// A step that runs out of memory ends the iterator. Contracts see the entries that are left.
///
/// It is a stack of directories: each is above the one that it is in, and has the children that are left.
#[derive(Drop)]
pub struct Entries<'a> {
    levels: Vec<Level<'a>>,
}

/// A directory, and its children that are left.
#[derive(Drop)]
struct Level<'a> {
    path: Folder,
    children: Iter<'a, Name, Node>,
}

impl<'a> Model for Entries<'a> {
    ghost use Rattle.std.specs.Prelude.{List, T};
    ghost use Rattle.std.specs.Coded.{coded×, coded_ℕ, coded_list};
    ghost use Rattle.hub_path.specs.Path.{Path};
    ghost use Rattle.hub_tree.specs.declared.contents.Contents.{Contents};
    ghost use Rattle.hub_tree.specs.laws.Coded.{coded_contents};

    ghost Value = { List (Path × Contents) };

    ghost coded = { coded_list (coded× (coded_list (coded_list coded_ℕ)) coded_contents) };

    ghost use Rattle.hub_tree.specs.Levels.{all_ascend, left_in};

    ghost view = { λ a. left_in a.levels.items };

    ghost invariant = { λ a. T (all_ascend a.levels.items) };
}

impl<'a> Entries<'a> {
    /// All that these children are and hold.
    pub(crate) fn new(
        alloc: Global,
        children: &'a BTreeMap<Name, Node>,
    ) -> Result<Entries<'a>, AllocError>
        ensures { IfOk result (λ e. e ≡ fin.entries (replica_of children.now.entries)) }
    {
        let mut levels = Vec::new(alloc);
        levels.push(Level {
            path: Folder::top(alloc),
            children: children.iter(),
        })?;
        Ok(Entries { levels })
    }
}

impl<'a> Iterator for Entries<'a> {
    type Item = Result<(Place<'a>, Stored<'a>), AllocError>;

    ghost use Rattle.std.specs.Prelude.{length};
    ghost use Rattle.std.specs.Iterator.{at_most};
    ghost use Rattle.hub_tree.specs.Stored.{TakesEntry};

    ghost next_gives = { TakesEntry };

    ghost remaining = { λ s. at_most (length s) };

    fn next(&mut self) -> Option<Result<(Place<'a>, Stored<'a>), AllocError>> {
        next_entry(&mut self.levels)
    }
}

/// Takes the next entry.
fn next_entry<'a>(
    levels: &mut Vec<Level<'a>>,
) -> Option<Result<(Place<'a>, Stored<'a>), AllocError>>
    requires { T (all_ascend levels.old.items) }
    ensures step { TakesEntry (left_in levels.old.items) result (left_in levels.new.items) }
    ensures ascend { T (all_ascend levels.new.items) }
{
    while let Some(level) = levels.pop() {
        let mut level = level;
        let Some((name, node)) = level.children.next() else {
            continue;
        };
        match enter(levels, level, name, node) {
            Ok(entry) => return Some(Ok(entry)),
            Err(error) => {
                levels.clear();
                return Some(Err(error));
            }
        }
    }
    None
}

/// Puts a directory back, and a child of it that is a directory above it. Returns the entry of the child.
fn enter<'a>(
    levels: &mut Vec<Level<'a>>,
    level: Level<'a>,
    name: &'a Name,
    node: &'a Node,
) -> Result<(Place<'a>, Stored<'a>), AllocError>
    requires levels { T (all_ascend levels.old.items) }
    requires level { T (is_sorted name_cmp level.children) }
    ensures path { IfOk result (λ e. e.0 ≡ level.entry.path ++ name.now ∷ []) }
    ensures contents { IfOk result (λ e. stored_contents e.1 ≡ contents_of node.now) }
    ensures left { OnOk result
        (IsEntered level.entry name.now node.now levels.old.items levels.new.items) }
    ensures ascend { OnOk result (T (all_ascend levels.new.items)) }
{
    let path = level.path.place(name)?;
    levels.push(level)?;
    match node {
        Node::File(blob) => Ok((path, Stored::File(blob))),
        Node::Directory(children) => {
            let inner = Level {
                path: path.folder()?,
                children: children.iter(),
            };
            levels.push(inner)?;
            Ok((path, Stored::Directory))
        }
    }
}
