use std::alloc::{AllocError, AllocFailed};
use thiserror::Error;

/// Why a text is not a name, a path or a root. It is shown as the fault's name, as in `DotName`.
///
/// A reader returns the first fault in its own order, or `OutOfMemory`.
#[derive(Clone, Copy, Debug, PartialEq, Eq, Error)]
pub enum PathFault {
    /// The text of a path or a root has no characters.
    #[error("Empty")]
    Empty,
    /// A name has no characters.
    #[error("EmptyName")]
    EmptyName,
    /// A name is `.` or `..`.
    #[error("DotName")]
    DotName,
    /// A name has a NUL, CR, LF or, in `Name::read`, a `/`.
    #[error("BadCharacter")]
    BadCharacter,
    /// A name takes more than `NAME_BYTES` bytes of UTF-8.
    #[error("NameTooLong")]
    NameTooLong,
    /// A path or a root has more than `PATH_NAMES` names.
    #[error("TooDeep")]
    TooDeep,
    /// A path begins with `/`.
    #[error("LeadingSlash")]
    LeadingSlash,
    /// A root doesn't begin with `/` and isn't remote.
    #[error("NotAbsolute")]
    NotAbsolute,
    /// A root is remote: it begins with `//`, or with one or more ASCII letters and `://`.
    #[error("RemoteRoot")]
    RemoteRoot,
    /// Out of memory. It may come in place of any value or other fault, and nothing was changed.
    #[error("OutOfMemory")]
    OutOfMemory,
}

impl From<AllocError> for PathFault {
    ghost use Rattle.hub_path.specs.declared.fault.PathFault.TheVariants.{OutOfMemory};
    ghost use Rattle.std.specs.Prelude.{◌≡◌};

    ghost from_gives = { λ _ e. e ≡ OutOfMemory };

    fn from(_: AllocError) -> Self {
        PathFault::OutOfMemory
    }
}

impl<T: Drop> From<AllocFailed<T>> for PathFault {
    ghost use Rattle.hub_path.specs.declared.fault.PathFault.TheVariants.{OutOfMemory};
    ghost use Rattle.std.specs.Prelude.{◌≡◌};

    ghost from_gives = { λ _ e. e ≡ OutOfMemory };

    fn from(_: AllocFailed<T>) -> Self {
        PathFault::OutOfMemory
    }
}
