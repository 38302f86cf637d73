use std::alloc::AllocError;
use thiserror::Error;

/// What is wrong with a state text, or why it can't be read or written.
#[derive(Clone, Copy, Debug, PartialEq, Eq, Error)]
pub enum Fault {
    /// The first line is not one of the headers `hubsync state 1` and `hubsync state 2`.
    #[error("BadHeader")]
    BadHeader,
    /// The line has none of the forms, or a form that is not allowed there.
    #[error("BadLine")]
    BadLine,
    /// The path or root of the line is refused.
    #[error("BadPath")]
    BadPath,
    /// The bytes or the digest of the line are not hexadecimal digits, or not as many as a digest has.
    #[error("BadHex")]
    BadHex,
    /// The parent of a replica's entry is not a directory of the lines above.
    #[error("NoParent")]
    NoParent,
    /// The lines above have the replica, the pair of roots, the path or the blob already.
    #[error("Repeated")]
    Repeated,
    /// There are more than `ENTRIES` entries or `BLOBS` blobs, or a file or a blob has more than `FILE_BYTES` bytes.
    #[error("TooLarge")]
    TooLarge,
    /// The text does not end with `end`, or its last line does not end with LF.
    #[error("Truncated")]
    Truncated,
    /// A read failed.
    #[error("ReadFailed")]
    ReadFailed,
    /// A write failed.
    #[error("WriteFailed")]
    WriteFailed,
    /// The input did not end within the allowed number of reads.
    #[error("TurnsSpent")]
    TurnsSpent,
    /// Out of memory.
    #[error("OutOfMemory")]
    OutOfMemory,
    /// The lines above have no blob with the digest that a file names.
    #[error("UnknownBlob")]
    UnknownBlob,
    /// The bytes of a blob don't have its digest.
    #[error("WrongDigest")]
    WrongDigest,
}

/// A fault and its line, counted from 1. The line is 0 for `ReadFailed`, `WriteFailed`, `TurnsSpent` and `OutOfMemory`.
#[derive(Clone, Copy, Debug, PartialEq, Eq, Error)]
#[error("line {line}: {fault}")]
pub struct StateFault {
    /// The line.
    pub line: usize,
    /// What is wrong.
    pub fault: Fault,
}

impl From<AllocError> for Fault {
    ghost use Rattle.hub_state.specs.declared.fault.Fault.TheVariants.{OutOfMemory};
    ghost use Rattle.std.specs.Prelude.{◌≡◌};

    ghost from_gives = { λ _ e. e ≡ OutOfMemory };

    fn from(_: AllocError) -> Self {
        Fault::OutOfMemory
    }
}

impl From<AllocError> for StateFault {
    ghost use Rattle.hub_state.specs.declared.fault.Fault.TheVariants.{OutOfMemory};
    ghost use Rattle.std.specs.Prelude.{◌≡◌};

    ghost from_gives = { λ _ e. e ≡ record { line = 0; fault = OutOfMemory } };

    fn from(_: AllocError) -> Self {
        StateFault {
            line: 0,
            fault: Fault::OutOfMemory,
        }
    }
}
