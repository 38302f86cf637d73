//! Why a set isn't cut into rounds.
use std::alloc::{AllocError, AllocFailed};
use thiserror::Error;

/// Why a set isn't cut into rounds. It is shown as the fault's name, as in `NotVerified`.
#[derive(Clone, Copy, Debug, PartialEq, Eq, Error)]
pub enum RoundsFault {
    /// The check didn't verify a round, which is counted from 0 on. Tests show none.
    #[error("NotVerified")]
    NotVerified {
        /// The round's number.
        round: usize,
    },
    /// An allocation failed.
    #[error("OutOfMemory")]
    OutOfMemory,
}

impl From<AllocError> for RoundsFault {
    ghost use Rattle.hub_rounds.specs.declared.fault.RoundsFault.TheVariants.{OutOfMemory};
    ghost use Rattle.std.specs.Prelude.{◌≡◌};

    ghost from_gives = { λ _ e. e ≡ OutOfMemory };

    fn from(_: AllocError) -> Self {
        RoundsFault::OutOfMemory
    }
}

impl<T: Drop> From<AllocFailed<T>> for RoundsFault {
    ghost use Rattle.hub_rounds.specs.declared.fault.RoundsFault.TheVariants.{OutOfMemory};
    ghost use Rattle.std.specs.Prelude.{◌≡◌};

    ghost from_gives = { λ _ e. e ≡ OutOfMemory };

    fn from(_: AllocFailed<T>) -> Self {
        RoundsFault::OutOfMemory
    }
}
