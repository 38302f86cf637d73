use hub_text::Exact;
use std::alloc::{AllocError, AllocFailed};
use thiserror::Error;

/// Why contents can't be set at a path: the first of these that applies, in this order.
#[derive(Clone, Copy, Debug, PartialEq, Eq, Error)]
pub enum SetFault {
    /// The path is the whole replica.
    #[error("RootPath")]
    RootPath,
    /// The parent of the path is not a directory.
    #[error("NoParent")]
    NoParent,
    /// A directory that holds something would be removed or become a file.
    #[error("NotEmpty")]
    NotEmpty,
    /// There is nothing to remove.
    #[error("NothingThere")]
    NothingThere,
    /// Out of memory.
    #[error("OutOfMemory")]
    OutOfMemory,
}

impl From<AllocError> for SetFault {
    ghost use Rattle.hub_tree.specs.declared.fault.SetFault.TheVariants.{OutOfMemory};
    ghost use Rattle.std.specs.Prelude.{◌≡◌};

    ghost from_gives = { λ _ e. e ≡ OutOfMemory };

    fn from(_: AllocError) -> Self {
        SetFault::OutOfMemory
    }
}

impl<T: Drop> From<AllocFailed<T>> for SetFault {
    ghost use Rattle.hub_tree.specs.declared.fault.SetFault.TheVariants.{OutOfMemory};
    ghost use Rattle.std.specs.Prelude.{◌≡◌};

    ghost from_gives = { λ _ e. e ≡ OutOfMemory };

    fn from(_: AllocFailed<T>) -> Self {
        SetFault::OutOfMemory
    }
}

impl Exact for SetFault {
    ghost use Rattle.hub_text.specs.laws.Exact.{tags_exact};
    ghost use Rattle.hub_tree.specs.contracts.fault.SetFault.{enum};

    ghost exact = { tags_exact enum tt };
}
