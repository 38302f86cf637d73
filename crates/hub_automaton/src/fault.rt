use std::alloc::{AllocError, AllocFailed};
use thiserror::Error;

/// Why an alphabet or a set of specifications can't be made. It is shown as the fault's name, as in `TooManySpots`.
#[derive(Clone, Copy, Debug, PartialEq, Eq, Error)]
pub enum AutomatonFault {
    /// More than `MENTIONED_CHARACTERS` characters are mentioned.
    #[error("TooManyCharacters")]
    TooManyCharacters,
    /// The choices of the specifications have more than `SPOTS` spots together.
    #[error("TooManySpots")]
    TooManySpots,
    /// An allocation failed.
    #[error("OutOfMemory")]
    OutOfMemory,
}

impl From<AllocError> for AutomatonFault {
    ghost use Rattle.hub_automaton.specs.declared.fault.AutomatonFault.TheVariants.{OutOfMemory};
    ghost use Rattle.std.specs.Prelude.{◌≡◌};

    ghost from_gives = { λ _ e. e ≡ OutOfMemory };

    fn from(_: AllocError) -> Self {
        AutomatonFault::OutOfMemory
    }
}

impl<T: Drop> From<AllocFailed<T>> for AutomatonFault {
    ghost use Rattle.hub_automaton.specs.declared.fault.AutomatonFault.TheVariants.{OutOfMemory};
    ghost use Rattle.std.specs.Prelude.{◌≡◌};

    ghost from_gives = { λ _ e. e ≡ OutOfMemory };

    fn from(_: AllocFailed<T>) -> Self {
        AutomatonFault::OutOfMemory
    }
}
