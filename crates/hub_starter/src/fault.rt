//! Why a set has no waves.
use hub_rounds::Obstacle;
use std::alloc::AllocError;
use thiserror::Error;

/// Why a set has no waves. It is shown as the fault's name, as in `MayBreak`.
#[derive(Clone, Copy, Debug, PartialEq, Eq, Error)]
pub enum WavesFault {
    /// A profile may break a rule of the set, or whether it may has too many stages to be searched.
    #[error("MayBreak")]
    MayBreak {
        /// The number of the profile.
        profile: usize,
        /// Which rule.
        reason: Obstacle,
    },
    /// Out of memory.
    #[error("OutOfMemory")]
    OutOfMemory,
}

impl From<AllocError> for WavesFault {
    ghost use Rattle.hub_starter.specs.declared.fault.WavesFault.TheVariants.{OutOfMemory};
    ghost use Rattle.std.specs.Prelude.{◌≡◌};

    ghost from_gives = { λ _ e. e ≡ OutOfMemory };

    fn from(_: AllocError) -> Self {
        WavesFault::OutOfMemory
    }
}
