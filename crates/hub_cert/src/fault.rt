//! Why a set isn't made, isn't safe, or isn't verified.
ghost use Rattle.std.specs.Prelude.{◌≡◌};

use crate::goal::{Goal, Place};
use hub_automaton::AutomatonFault;
use hub_path::{Name, RelPath, Root};
use std::alloc::{AllocError, AllocFailed};
use thiserror::Error;

/// Why a set isn't made, isn't safe, or isn't shown to be safe by some certificates. Stages and certificates are numbered from
/// 0 on, lines from 1 on. It is shown as the fault's name, as in `NestedRoots`.
#[derive(Debug, Drop, Error)]
pub enum CheckFault {
    /// More than `PROFILES` profiles.
    #[error("TooManyProfiles")]
    TooManyProfiles,
    /// Two profiles have this name.
    #[error("SameName")]
    SameName {
        /// The first name that an earlier profile has.
        name: Name,
    },
    /// One of these different roots lies within the other.
    #[error("NestedRoots")]
    NestedRoots {
        /// The earlier root.
        first: Root,
        /// The later root.
        second: Root,
    },
    /// The writer writes `held`, and the other profile reaches `path`, which is `held` or lies below it.
    #[error("Overlap")]
    Overlap {
        /// The number of the profile that writes.
        writer: usize,
        /// The number of the profile that reaches.
        other: usize,
        /// Where both meet.
        place: Place,
        /// The shortest prefix of `path` that the writer writes, or reaches if the place is an archive.
        held: RelPath,
        /// The path that the other profile reaches.
        path: RelPath,
    },
    /// The profile may do at the path what the rule forbids.
    #[error("Breach")]
    Breach {
        /// The profile's number.
        profile: usize,
        /// The rule's number.
        rule: usize,
        /// The path.
        path: RelPath,
    },
    /// The goal has too many stages to be searched.
    #[error("TooLarge")]
    TooLarge {
        /// The goal.
        goal: Goal,
    },
    /// The goal has no certificate.
    #[error("Missing")]
    Missing {
        /// The goal.
        goal: Goal,
    },
    /// No text of the goal's certificate has the stage of the empty text.
    #[error("NoStart")]
    NoStart {
        /// The goal.
        goal: Goal,
    },
    /// The stage of that number goes by that class to one that the goal's certificate doesn't have.
    #[error("NotClosed")]
    NotClosed {
        /// The goal.
        goal: Goal,
        /// The stage's number.
        stage: usize,
        /// The class's number.
        class: usize,
    },
    /// The goal accepts the text of that number in its certificate.
    #[error("Accepting")]
    Accepting {
        /// The goal.
        goal: Goal,
        /// The text's number.
        stage: usize,
    },
    /// The certificate's goal isn't one of the set, or an earlier certificate has it.
    #[error("Stray")]
    Stray {
        /// The certificate's number.
        certificate: usize,
    },
    /// That line of a text of certificates is faulty.
    #[error("BadText")]
    BadText {
        /// The line's number.
        line: usize,
    },
    /// Too many characters are mentioned, or a profile or a rule has too many spots.
    #[error("{0}")]
    AlphabetFault(AutomatonFault),
    /// An allocation failed.
    #[error("OutOfMemory")]
    OutOfMemory,
}

impl From<AllocError> for CheckFault {
    ghost use Rattle.hub_cert.specs.declared.fault.CheckFault.TheVariants.{OutOfMemory};
    ghost use Rattle.std.specs.Prelude.{◌≡◌};

    ghost from_gives = { λ _ e. e ≡ OutOfMemory };

    fn from(_: AllocError) -> Self {
        CheckFault::OutOfMemory
    }
}

impl<T: Drop> From<AllocFailed<T>> for CheckFault {
    ghost use Rattle.hub_cert.specs.declared.fault.CheckFault.TheVariants.{OutOfMemory};
    ghost use Rattle.std.specs.Prelude.{◌≡◌};

    ghost from_gives = { λ _ e. e ≡ OutOfMemory };

    fn from(_: AllocFailed<T>) -> Self {
        CheckFault::OutOfMemory
    }
}
