ghost use Rattle.std.specs.Prelude.{◌≡◌, ◌<◌, ◌↔◌, length, IsTrue, IfOk, IsOk, OnOk, OnErr};
ghost use Rattle.std.specs.FinMap as fin;
ghost use Rattle.std.specs.BTreeMap.{keys, IsOrdered};
ghost use Rattle.hub_path.specs.Path.{path_cmp};
ghost use Rattle.hub_tree.specs.Tree as tree;

use crate::archive::builder::map_of;
use crate::contents::Mark;
use hub_path::RelPath;
use hub_text::{Items, is_equal};
use std::alloc::{AllocError, Global};
use std::collections::BTreeMap;
use std::collections::btree_map::Iter;
use std::marker::Model;

pub(crate) mod builder;

/// What a pair of replicas last agreed on: marks at finitely many paths.
///
/// It is an ordered map from paths to marks.
#[derive(Drop)]
pub struct Archive {
    alloc: Global,
    marks: BTreeMap<RelPath, Mark>,
}

impl Model for Archive {
    ghost use Rattle.std.specs.FinMap as fin;
    ghost use Rattle.std.specs.Coded.{coded_ℕ, coded_list};
    ghost use Rattle.hub_path.specs.Path.{path_cmp};
    ghost use Rattle.hub_tree.specs.declared.contents.Mark.{Mark};
    ghost use Rattle.hub_tree.specs.laws.Coded.{coded_mark};

    ghost Value = { fin.FinMap path_cmp Mark };

    ghost coded = { fin.code (coded_list (coded_list coded_ℕ)) coded_mark };

    ghost use Rattle.hub_tree.specs.Tree.{IsArchive, HasPaths, HasDigests};

    ghost view = { λ a. fin.from_entries a.marks.entries };

    ghost invariant = { λ a.
        IsArchive (fin.from_entries a.marks.entries)
        × HasPaths (fin.from_entries a.marks.entries)
        × HasDigests (fin.from_entries a.marks.entries) };
}

impl Archive {
    /// An archive without marks.
    pub fn new(alloc: Global) -> Archive
        ensures { result ≡ fin.empty }
    {
        Archive {
            alloc,
            marks: BTreeMap::new(alloc),
        }
    }

    /// Copies the archive.
    pub fn copy(&self) -> Result<Archive, AllocError>
        ensures { IfOk result (λ a. a ≡ self.now) }
    {
        Ok(Archive {
            alloc: self.alloc,
            marks: copy_of_marks(self.alloc, &self.marks)?,
        })
    }

    /// Returns whether both archives have the same mark at each path.
    pub fn same(&self, other: &Archive) -> bool
        ensures { IsTrue result ↔ (self.now ≡ other.now) }
    {
        have_same_marks(&self.marks, &other.marks)
    }

    /// Goes through the marks in the order of their paths.
    pub fn iter(&self) -> Iter<'_, RelPath, Mark>
        ensures { result ≡ fin.entries self.now }
    {
        self.marks.iter()
    }

    /// The paths that have marks, in ascending order.
    pub fn paths(&self) -> Result<Items<RelPath>, AllocError>
        ensures { IfOk result (λ ps. ps ≡ fin.keys self.now) }
    {
        Ok(Items::from_vec(copies_of_paths(self.alloc, &self.marks)?))
    }

    /// The mark at the path, or `Absent` if there is none.
    pub fn mark_at(&self, path: &RelPath) -> Mark
        ensures mark { result ≡ tree.old_mark_at self.now path.now }
        ensures archive { tree.IsArchive self.now }
        ensures paths { tree.HasPaths self.now }
        ensures digests { tree.HasDigests self.now }
    {
        match self.marks.get(path) {
            Some(mark) => *mark,
            None => Mark::Absent,
        }
    }

    /// Sets the mark at the path, which is not the whole replica. `Absent` removes the entry.
    ///
    /// Out of memory leaves the archive unchanged. To set `Absent` allocates nothing.
    pub fn set(&mut self, path: &RelPath, mark: Mark) -> Result<(), AllocError>
        requires { 0 < length path.now }
        ensures ok { OnOk result (self.new ≡ tree.with_mark self.old path.now mark) }
        ensures err { OnErr result (self.new ≡ self.old) }
        ensures absent { mark ≡ Mark.Absent → IsOk result }
    {
        match self.replace(path, mark) {
            Ok(_old) => Ok(()),
            Err(error) => Err(error),
        }
    }

    /// Sets the mark at the path as [`Archive::set`] does, and returns the mark that was there, or `Absent` if there was
    /// none. The path is searched for once.
    ///
    /// Out of memory leaves the archive unchanged. To set `Absent` allocates nothing.
    pub fn replace(&mut self, path: &RelPath, mark: Mark) -> Result<Mark, AllocError>
        requires { 0 < length path.now }
        ensures archive { tree.IsArchive self.old }
        ensures old { IfOk result (λ m. m ≡ tree.old_mark_at self.old path.now) }
        ensures ok { OnOk result (self.new ≡ tree.with_mark self.old path.now mark) }
        ensures err { OnErr result (self.new ≡ self.old) }
        ensures absent { mark ≡ Mark.Absent → IsOk result }
    {
        let _names = path.len();
        mark.has_digest();
        match kept(mark) {
            None => {
                let old = self.marks.remove(path);
                Ok(old.unwrap_or(Mark::Absent))
            }
            Some(mark) => {
                let old = self.marks.insert(path.copy()?, mark)?;
                Ok(old.unwrap_or(Mark::Absent))
            }
        }
    }
}

/// What an archive stores of a mark: nothing for `Absent`.
fn kept(mark: Mark) -> Option<Mark>
    ensures { result ≡ tree.kept_mark mark }
{
    match mark {
        Mark::File(_) => Some(mark),
        Mark::Directory => Some(mark),
        Mark::Absent => None,
    }
}

/// Copies the paths that have marks.
fn copies_of_paths(
    alloc: Global,
    marks: &BTreeMap<RelPath, Mark>,
) -> Result<Vec<RelPath>, AllocError>
    ensures paths { IfOk result (λ ps. ps.items ≡ keys marks.now) }
    ensures ordered { IsOrdered path_cmp marks.now }
{
    let mut paths = Vec::new(alloc);
    for path in marks.keys() {
        paths.push(path.copy()?)?;
    }
    Ok(paths)
}

/// Copies the marks. Since they are in order, none of them is searched for.
fn copy_of_marks(
    alloc: Global,
    marks: &BTreeMap<RelPath, Mark>,
) -> Result<BTreeMap<RelPath, Mark>, AllocError>
    ensures { IfOk result (λ m. m.entries ≡ marks.now.entries) }
{
    let mut copies = Vec::with_capacity(alloc, marks.len())?;
    for (path, mark) in marks.iter() {
        copies.push((path.copy()?, *mark))?;
    }
    map_of(alloc, copies)
}

/// Returns whether both have the same marks at the same paths.
fn have_same_marks(marks: &BTreeMap<RelPath, Mark>, others: &BTreeMap<RelPath, Mark>) -> bool
    ensures same { IsTrue result ↔ (marks.now.entries ≡ others.now.entries) }
    ensures ordered { IsOrdered path_cmp marks.now }
    ensures others { IsOrdered path_cmp others.now }
{
    let mut rest = others.iter();
    for (path, mark) in marks.iter() {
        let Some((other_path, other)) = rest.next() else {
            return false;
        };
        if path != other_path {
            return false;
        }
        if !is_equal(mark, other) {
            return false;
        }
    }
    rest.next().is_none()
}
