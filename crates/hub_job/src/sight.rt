//! What a replica tells of a path.
ghost use Rattle.std.specs.Prelude.{◌≡◌, IfOk};
ghost use Rattle.hub_job.specs.Seen.{sight_of_file};

use hub_path::Name;
use hub_text::{Exact, Items};
use hub_tree::{Blob, Mark};
use std::alloc::{AllocError, Global};
use std::marker::Model;
use std::sync::Arc;

/// What a replica tells of a path: its mark, names below it, and whether there are others. Contracts see hub_reconcile's
/// `Sight`.
///
/// A sight and its copies share one place in memory. The sight of a file is in the place of the file's bytes, and takes none
/// of its own.
#[derive(Debug, Drop)]
pub struct Sight {
    told: Told,
}

/// Where it is taken from.
#[derive(Debug, Drop)]
pub(crate) enum Told {
    /// With a file. There are no names and no others.
    File(Blob),
    /// In a listing.
    Listed(Arc<Listing>),
}

/// A mark, names, and whether there are others.
#[derive(Debug, Drop)]
pub(crate) struct Listing {
    /// The mark.
    pub(crate) mark: Mark,
    /// The names.
    pub(crate) names: Items<Name>,
    /// Whether there are others.
    pub(crate) others: bool,
}

impl Model for Sight {
    ghost use Rattle.hub_job.specs.Seen.{sight_of};
    ghost use Rattle.hub_reconcile.specs.Sight.{Sight};

    ghost Value = { Sight };

    ghost view = { λ a. sight_of a.told };
}

impl Sight {
    /// Makes the sight of a mark, of names in their order, and of others.
    pub fn new(
        alloc: Global,
        mark: Mark,
        names: Items<Name>,
        others: bool,
    ) -> Result<Sight, AllocError>
        ensures { IfOk result (λ s. s ≡ record { mark = mark; names = names; others = others }) }
    {
        let listing = Arc::new(
            alloc,
            Listing {
                mark,
                names,
                others,
            },
        )?;
        Ok(Sight {
            told: Told::Listed(listing),
        })
    }

    /// Makes the sight of a file, without names and without others. It allocates nothing.
    pub fn of_file(file: Blob) -> Sight
        ensures { result ≡ sight_of_file file }
    {
        Sight {
            told: Told::File(file),
        }
    }

    /// Returns the mark of the path.
    pub fn mark(&self) -> Mark
        ensures { result ≡ self.now.mark }
    {
        match &self.told {
            Told::File(file) => Mark::File(file.digest()),
            Told::Listed(listing) => listing.mark,
        }
    }

    /// Borrows the names.
    pub fn names(&self) -> &[Name]
        ensures { result.now ≡ self.now.names }
    {
        match &self.told {
            Told::File(_) => &[],
            Told::Listed(listing) => listing.names.as_slice(),
        }
    }

    /// Returns whether there are others.
    pub fn others(&self) -> bool
        ensures { result ≡ self.now.others }
    {
        match &self.told {
            Told::File(_) => false,
            Told::Listed(listing) => listing.others,
        }
    }

    /// Copies the sight, in constant time. It allocates nothing, and fails only where it has more copies than can be counted.
    pub fn copy(&self) -> Result<Sight, AllocError>
        ensures { IfOk result (λ s. s ≡ self.now) }
    {
        let told = match &self.told {
            Told::File(file) => Told::File(file.copy()?),
            Told::Listed(listing) => Told::Listed(Arc::try_clone(listing)?),
        };
        Ok(Sight { told })
    }
}

/// Sights are equal if their marks, their names and what they say of others are.
impl PartialEq for Sight {
    ghost use Rattle.std.specs.Prelude.{◌&&◌, nat_eq};
    ghost use Rattle.std.specs.Bool.{beq};
    ghost use Rattle.std.specs.Cmp.{decided, partial_equiv_from_equiv};
    ghost use Rattle.std.specs.Cmp.Lexicographic.{pointwise};
    ghost use Rattle.hub_job.specs.laws.Seen.{sight_exact};
    ghost use Rattle.hub_tree.specs.contracts.contents.MarkExact.TheImpl.Laws as mark;

    ghost eq = { λ s t. ⟦<Mark as PartialEq>⟧.eq s.mark t.mark
        && pointwise (pointwise nat_eq) s.names t.names && beq s.others t.others };

    ghost laws = { partial_equiv_from_equiv (decided _ (sight_exact mark.exact-law)) };

    fn eq(&self, other: &Sight) -> bool {
        self.mark() == other.mark()
            && self.names() == other.names()
            && self.others() == other.others()
    }
}

impl Eq for Sight {
    ghost use Rattle.std.specs.Cmp.{decided};
    ghost use Rattle.hub_job.specs.laws.Seen.{sight_exact};
    ghost use Rattle.hub_tree.specs.contracts.contents.MarkExact.TheImpl.Laws as mark;

    ghost laws = { decided _ (sight_exact mark.exact-law) };
}

impl Exact for Sight {
    ghost use Rattle.hub_job.specs.laws.Seen.{sight_exact};
    ghost use Rattle.hub_tree.specs.contracts.contents.MarkExact.TheImpl.Laws as mark;

    ghost exact = { sight_exact mark.exact-law };
}
