ghost use Rattle.std.specs.Prelude.{◌≡◌, ◌↔◌, IfOk, IsTrue, OnErr};
ghost use Rattle.hub_job.specs.Machine.{Fits, is_shared};

use crate::op::Op;
use crate::sight::Sight;
use hub_tree::Blob;
use std::alloc::AllocError;
use thiserror::Error;

/// Why an operation is refused: the first of these that applies. A `Fetch` knows `NoFile` alone, and a `Set` the others. It is
/// shown as the fault's name, as in `NoParent`.
#[derive(Clone, Copy, Debug, PartialEq, Eq, Error)]
pub enum OpFault {
    /// The path is the whole replica.
    #[error("RootPath")]
    RootPath,
    /// The parent of the path is not a directory.
    #[error("NoParent")]
    NoParent,
    /// A directory that holds something would be removed or become a file.
    #[error("NotEmpty")]
    NotEmpty,
    /// There is nothing to remove.
    #[error("NothingThere")]
    NothingThere,
    /// There is no file.
    #[error("NoFile")]
    NoFile,
}

/// What a replica answers to an operation.
#[derive(Debug, Drop, PartialEq, Eq)]
pub enum Answer {
    /// To a `Look`: the mark of the path, the names of the children that the profile reaches, ascending, and whether there is a
    /// child that it doesn't reach. That is reported only where the profile writes the path.
    Seen(Sight),
    /// To a `Fetch`: the file. Contracts see its bytes.
    Bytes(Blob),
    /// To a `Set`: it was made.
    Done,
    /// To a `Fetch` or a `Set`: nothing was changed.
    Refused(OpFault),
}

impl Answer {
    /// Copies the answer. It allocates nothing, and fails only where a sight or a file has more copies than can be counted.
    pub fn copy(&self) -> Result<Answer, AllocError>
        ensures ok { IfOk result (λ a. a ≡ self.now) }
        ensures err { OnErr result (IsTrue (is_shared self.now)) }
    {
        match self {
            Answer::Seen(sight) => Ok(Answer::Seen(sight.copy()?)),
            Answer::Bytes(file) => Ok(Answer::Bytes(file.copy()?)),
            Answer::Done => Ok(Answer::Done),
            Answer::Refused(fault) => Ok(Answer::Refused(*fault)),
        }
    }

    /// Returns whether the answer is of a kind that fits the operation: `Seen` fits a `Look`, `Bytes` and `Refused` a
    /// `Fetch`, `Done` and `Refused` a `Set`.
    pub fn fits(&self, op: &Op) -> bool
        ensures { IsTrue result ↔ Fits op.now self.now }
    {
        match op {
            Op::Look(_) => matches!(self, Answer::Seen(_)),
            Op::Fetch(_) => matches!(self, Answer::Bytes(_) | Answer::Refused(_)),
            Op::Set(_, _) => matches!(self, Answer::Done | Answer::Refused(_)),
        }
    }
}
