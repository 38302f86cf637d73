//! Why a set in which names fold can't have its rules.
use std::alloc::AllocError;
use thiserror::Error;

/// Why a set in which names fold can't have its rules (this project's choice).
#[derive(Clone, Copy, Debug, PartialEq, Eq, Error)]
pub enum FoldFault {
    /// It isn't known what the pattern of the rule with this number, from 0 on, folds to, or the rule wouldn't hold for each spelling of
    /// a path: it has an unknown character, a `?`, or a set with other than ASCII characters.
    #[error("UnknownRule {0}")]
    UnknownRule(usize),
    /// All rules are known, but no line can say one of the folded ones: its pattern has more than `PATTERN_CHARACTERS`, or ends with a
    /// blank.
    #[error("UnwrittenRules")]
    UnwrittenRules,
    /// Memory is out.
    #[error("OutOfMemory")]
    OutOfMemory,
}

impl From<AllocError> for FoldFault {
    ghost use Rattle.hub_folded.specs.declared.fault.FoldFault.TheVariants.{OutOfMemory};
    ghost use Rattle.std.specs.Prelude.{◌≡◌};

    ghost from_gives = { λ _ e. e ≡ OutOfMemory };

    fn from(_: AllocError) -> Self {
        FoldFault::OutOfMemory
    }
}
