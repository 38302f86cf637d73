//! Why the lines of a profile can't be told.

use hub_text::Items;
use std::alloc::{AllocError, AllocFailed};

/// What is wrong with a line that includes a file.
#[derive(Clone, Copy, Debug, PartialEq, Eq)]
pub enum Why {
    /// It hasn't exactly one name, or the name isn't UTF-8.
    BadLine,
    /// There is no such file.
    NoFile,
    /// The file is open: it includes itself, maybe by others.
    Cycle,
    /// `MOST_OPEN` files are open.
    TooDeep,
    /// The profile has `MOST_LINES` lines before this one, with what it includes.
    TooLong,
}

/// A line that can't be followed.
#[derive(Debug, Drop)]
pub struct LineFault {
    /// The name of its file.
    pub file: Items<u8>,
    /// Its number in the file, from 1 on.
    pub number: usize,
    /// Its bytes, without the LF.
    pub text: Items<u8>,
    /// What is wrong with it.
    pub why: Why,
}

/// Why the lines of a profile can't be told.
#[derive(Debug, Drop)]
pub enum LinesFault {
    /// This line can't be followed.
    Line(LineFault),
    /// There is no file of the profile's name.
    NoProfile,
    /// Nobody has looked for the file of this name: put it into the folder, and ask again.
    Unread(Items<u8>),
    /// Out of memory.
    OutOfMemory,
}

impl From<AllocError> for LinesFault {
    ghost use Rattle.hub_include.specs.declared.fault.LinesFault.TheVariants.{OutOfMemory};
    ghost use Rattle.std.specs.Prelude.{◌≡◌};

    ghost from_gives = { λ _ e. e ≡ OutOfMemory };

    fn from(_: AllocError) -> Self {
        LinesFault::OutOfMemory
    }
}

impl<T: Drop> From<AllocFailed<T>> for LinesFault {
    ghost use Rattle.hub_include.specs.declared.fault.LinesFault.TheVariants.{OutOfMemory};
    ghost use Rattle.std.specs.Prelude.{◌≡◌};

    ghost from_gives = { λ _ e. e ≡ OutOfMemory };

    fn from(_: AllocFailed<T>) -> Self {
        LinesFault::OutOfMemory
    }
}
