ghost use Rattle.std.specs.Prelude.{◌≡◌};
ghost use Rattle.std.specs.FinMap as fin;

use hub_tree::Archive;
use std::alloc::Global;
use std::marker::Model;

/// An archive without marks, to be borrowed in place of one that isn't there. Contracts see nothing of it.
#[derive(Drop)]
pub(crate) struct Unmarked {
    archive: Archive,
}

impl Model for Unmarked {
    ghost use Rattle.std.specs.Prelude.{◌≡◌, ⊤};
    ghost use Rattle.std.specs.FinMap as fin;

    ghost Value = { ⊤ };

    ghost view = { λ _. tt };

    ghost invariant = { λ a. a.archive ≡ fin.empty };
}

impl Unmarked {
    /// Makes an archive without marks. It doesn't allocate.
    pub(crate) fn new(alloc: Global) -> Unmarked {
        Unmarked {
            archive: Archive::new(alloc),
        }
    }

    /// Borrows the archive.
    pub(crate) fn archive(&self) -> &Archive
        ensures { result.now ≡ fin.empty }
    {
        &self.archive
    }
}
