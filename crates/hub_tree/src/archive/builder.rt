ghost use Rattle.std.specs.Prelude.{◌≡◌, ◌<◌, ◌++◌, [], length, IfOk, OnOk, OnErr};
ghost use Rattle.std.specs.BTreeMap.{IsFromIterResult};
ghost use Rattle.std.specs.FinMap as fin;
ghost use Rattle.hub_path.specs.Path.{path_cmp};
ghost use Rattle.hub_tree.specs.Marked as marked;

use super::{Archive, kept};
use crate::contents::Mark;
use hub_path::RelPath;
use std::alloc::{AllocError, Global};
use std::collections::BTreeMap;
use std::marker::Model;

/// The marks of an archive that is made at once: a list of paths, each with its mark.
///
/// To make an archive takes one comparison or two for each mark, if the marks come in the order of their paths.
#[derive(Drop)]
pub struct ArchiveBuilder {
    alloc: Global,
    marks: Vec<(RelPath, Mark)>,
}

impl Model for ArchiveBuilder {
    ghost use Rattle.std.specs.Prelude.{List};
    ghost use Rattle.std.specs.FinMap as fin;
    ghost use Rattle.hub_path.specs.Path.{Path};
    ghost use Rattle.hub_tree.specs.declared.contents.Mark.{Mark};

    ghost Value = { List (Path × Mark) };

    ghost use Rattle.hub_tree.specs.Marked.{with_entries};
    ghost use Rattle.hub_tree.specs.Tree.{IsArchive, HasPaths, HasDigests};

    ghost view = { λ b. b.marks.items };

    ghost invariant = { λ b.
        IsArchive (with_entries fin.empty b.marks.items)
        × HasPaths (with_entries fin.empty b.marks.items)
        × HasDigests (with_entries fin.empty b.marks.items) };
}

impl ArchiveBuilder {
    /// A list without marks.
    pub fn new(alloc: Global) -> ArchiveBuilder
        ensures { result ≡ [] }
    {
        ArchiveBuilder {
            alloc,
            marks: Vec::new(alloc),
        }
    }

    /// Appends the mark of a path, which is not the whole replica. Of `Absent` nothing is kept.
    ///
    /// Out of memory leaves the list unchanged.
    pub fn push(&mut self, path: &RelPath, mark: Mark) -> Result<(), AllocError>
        requires { 0 < length path.now }
        ensures ok { OnOk result (self.new ≡ self.old ++ marked.marked_entries path.now mark) }
        ensures err { OnErr result (self.new ≡ self.old) }
    {
        let _names = path.len();
        mark.has_digest();
        if let Some(mark) = kept(mark) {
            self.marks.push((path.copy()?, mark))?;
        }
        Ok(())
    }

    /// Makes the archive of these marks. If a path has several, the last one counts.
    pub fn build(self) -> Result<Archive, AllocError>
        ensures { IfOk result (λ a. a ≡ marked.with_entries fin.empty self) }
    {
        let ArchiveBuilder { alloc, marks } = self;
        Ok(Archive {
            alloc,
            marks: map_of(alloc, marks)?,
        })
    }
}

/// The map of these marks. If a path has several, the last one counts.
pub(crate) fn map_of(
    alloc: Global,
    marks: Vec<(RelPath, Mark)>,
) -> Result<BTreeMap<RelPath, Mark>, AllocError>
    ensures { IfOk result (IsFromIterResult path_cmp marks.items) }
{
    marks.into_iter().collect(alloc)
}
