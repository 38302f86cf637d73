//! Marks that are read one after the other.
ghost use Rattle.std.specs.Prelude.{◌≡◌, ◌<◌, None, Some, length, IfOk, OnOk};
ghost use Rattle.std.specs.FinMap as fin;
ghost use Rattle.hub_tree.specs.Tree.{kept_mark, old_mark_at, with_mark};

use hub_path::RelPath;
use hub_tree::{Archive, ArchiveBuilder, Mark};
use std::alloc::{AllocError, Global};
use std::marker::Model;
use std::mem::replace;

/// The marks of an archive that is read. Contracts see the archive.
///
/// As long as each path comes after the one before, the marks are a list, and none is searched for.
#[derive(Drop)]
pub struct Marks {
    alloc: Global,
    listed: ArchiveBuilder,
    last: RelPath,
    made: Option<Archive>,
}

impl Model for Marks {
    ghost use Rattle.std.specs.FinMap as fin;
    ghost use Rattle.std.specs.Coded.{coded_ℕ, coded_list};
    ghost use Rattle.hub_path.specs.Path.{path_cmp};
    ghost use Rattle.hub_tree.specs.declared.contents.Mark.{Mark};
    ghost use Rattle.hub_tree.specs.laws.Coded.{coded_mark};

    ghost Value = { fin.FinMap path_cmp Mark };

    ghost coded = { fin.code (coded_list (coded_list coded_ℕ)) coded_mark };

    ghost use Rattle.hub_state.specs.Marks.{EndsWith, marks_in};

    ghost view = { λ a. marks_in a.listed a.made };

    ghost invariant = { λ a. EndsWith a.last a.listed };
}

impl Marks {
    /// No marks. It doesn't allocate.
    pub fn new(alloc: Global) -> Marks
        ensures { result ≡ fin.empty }
    {
        Marks {
            alloc,
            listed: ArchiveBuilder::new(alloc),
            last: RelPath::top(alloc),
            made: None,
        }
    }

    /// Sets the mark at a path, and returns the mark that was there, or `Absent` if there was none. After it is out of memory
    /// nothing is known of the marks.
    pub fn replace(&mut self, path: &RelPath, mark: Mark) -> Result<Mark, AllocError>
        requires path { 0 < length path.now }
        requires some { kept_mark mark ≡ Some mark }
        ensures old { IfOk result (λ m. m ≡ old_mark_at self.old path.now) }
        ensures none { IfOk result (λ m. m ≡ Mark.Absent → fin.get self.old path.now ≡ None) }
        ensures ok { OnOk result (self.new ≡ with_mark self.old path.now mark) }
    {
        if let Some(made) = &mut self.made {
            return made.replace(path, mark);
        }
        if self.last < *path {
            let last = path.copy()?;
            self.listed.push(path, mark)?;
            self.last = last;
            return Ok(Mark::Absent);
        }
        let listed = replace(&mut self.listed, ArchiveBuilder::new(self.alloc));
        let mut made = listed.build()?;
        let old = made.replace(path, mark)?;
        self.made = Some(made);
        Ok(old)
    }

    /// Makes the archive of the marks.
    pub fn archive(self) -> Result<Archive, AllocError>
        ensures { IfOk result (λ a. a ≡ self) }
    {
        let Marks {
            alloc: _,
            listed,
            last: _,
            made,
        } = self;
        match made {
            Some(made) => Ok(made),
            None => listed.build(),
        }
    }
}
