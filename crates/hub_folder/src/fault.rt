//! Why profiles can't be told.

use crate::reader::ReadFault;
use hub_include::LineFault;
use std::alloc::{AllocError, AllocFailed};

/// Why profiles can't be told.
#[derive(Debug, Drop)]
pub enum Untaken {
    /// This is wrong with the file of this path.
    File(String, ReadFault),
    /// The file of this path was there, and is gone.
    Gone(String),
    /// This is wrong with the folder of this path.
    Folder(String, ReadFault),
    /// This line can't be followed. The path is that of its file's folder, as it stands before the file's name.
    Line(String, LineFault),
    /// For the profile of this path more than `MOST_FILES` files were looked for.
    TooManyFiles(String),
    /// With the text of the profile of this path the texts have more than `INCLUDED_BYTES` bytes.
    TooLong(String),
    /// Out of memory.
    OutOfMemory,
}

impl From<AllocError> for Untaken {
    ghost use Rattle.hub_folder.specs.declared.fault.Untaken.TheVariants.{OutOfMemory};
    ghost use Rattle.std.specs.Prelude.{◌≡◌};

    ghost from_gives = { λ _ e. e ≡ OutOfMemory };

    fn from(_: AllocError) -> Self {
        Untaken::OutOfMemory
    }
}

impl<T: Drop> From<AllocFailed<T>> for Untaken {
    ghost use Rattle.hub_folder.specs.declared.fault.Untaken.TheVariants.{OutOfMemory};
    ghost use Rattle.std.specs.Prelude.{◌≡◌};

    ghost from_gives = { λ _ e. e ≡ OutOfMemory };

    fn from(_: AllocFailed<T>) -> Self {
        Untaken::OutOfMemory
    }
}
