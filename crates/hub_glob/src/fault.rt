use std::alloc::{AllocError, AllocFailed};
use thiserror::Error;

/// Why a text is not a path specification.
#[derive(Clone, Copy, Debug, PartialEq, Eq, Error)]
pub enum GlobFault {
    /// The first word is none of `Name`, `Path`, `BelowPath` and `Regex`.
    #[error("NoKind")]
    NoKind,
    /// The first word is `Regex`, which hubsync does not support.
    #[error("RegexLeftOut")]
    RegexLeftOut,
    /// No pattern follows the kind.
    #[error("EmptyPattern")]
    EmptyPattern,
    /// A `[` has no `]`.
    #[error("OpenBracket")]
    OpenBracket,
    /// A `{` has no `}`.
    #[error("OpenBrace")]
    OpenBrace,
    /// A `{` is inside a brace.
    #[error("NestedBraces")]
    NestedBraces,
    /// A set has no members, a range has an end that is not ASCII, or its low end is above its high end.
    #[error("BadRange")]
    BadRange,
    /// A set begins with `^` or `!`.
    #[error("NegatedSet")]
    NegatedSet,
    /// A `\` is followed by a character that it doesn't make literal, or by nothing.
    #[error("BadEscape")]
    BadEscape,
    /// A `Name` pattern has a `/` outside brackets.
    #[error("SlashInName")]
    SlashInName,
    /// A set holds `/`.
    #[error("SlashInSet")]
    SlashInSet,
    /// A `Path` or `BelowPath` pattern begins with `/`.
    #[error("LeadingSlash")]
    LeadingSlash,
    /// The pattern has more than `PATTERN_CHARACTERS` characters.
    #[error("TooLong")]
    TooLong,
    /// The pattern stands for more than `PATTERN_CHOICES` choices.
    #[error("TooManyChoices")]
    TooManyChoices,
    /// Out of memory.
    #[error("OutOfMemory")]
    OutOfMemory,
}

impl From<AllocError> for GlobFault {
    ghost use Rattle.hub_glob.specs.declared.fault.GlobFault.TheVariants.{OutOfMemory};
    ghost use Rattle.std.specs.Prelude.{◌≡◌};

    ghost from_gives = { λ _ e. e ≡ OutOfMemory };

    fn from(_: AllocError) -> Self {
        GlobFault::OutOfMemory
    }
}

impl<T: Drop> From<AllocFailed<T>> for GlobFault {
    ghost use Rattle.hub_glob.specs.declared.fault.GlobFault.TheVariants.{OutOfMemory};
    ghost use Rattle.std.specs.Prelude.{◌≡◌};

    ghost from_gives = { λ _ e. e ≡ OutOfMemory };

    fn from(_: AllocFailed<T>) -> Self {
        GlobFault::OutOfMemory
    }
}
