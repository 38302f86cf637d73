ghost use Rattle.std.specs.Prelude.{◌≡◌, [], unwrap_or, IfOk};
ghost use Rattle.std.specs.Option.{option_map};
ghost use Rattle.hub_job.specs.Job as spec;

use crate::answer::Answer;
use crate::log::Logged;
use crate::op::Op;
use hub_path::{RelPath, Side};
use hub_tree::{Blob, Contents, Mark};
use std::alloc::{AllocError, Global};

/// A step of a plan: a `Fetch`, or a `Set` to contents with a mark.
#[derive(Debug, Drop)]
pub(crate) struct Step {
    /// The side of the replica that is asked.
    pub(crate) side: Side,
    /// The path.
    pub(crate) path: RelPath,
    /// Whether it is a `Fetch`.
    pub(crate) fetches: bool,
    /// The mark that the change gives the path.
    pub(crate) mark: Mark,
}

impl Step {
    /// Returns the operation. A `Set` to a file takes the bytes of the last `Fetch` in the log.
    pub(crate) fn op(&self, alloc: Global, log: &[Logged]) -> Result<Op, AllocError>
        ensures { IfOk result (λ op. op ≡ spec.op_of (spec.fetched_last [] log.now) self.now) }
    {
        let path = self.path.copy()?;
        if self.fetches {
            return Ok(Op::Fetch(path));
        }
        Ok(Op::Set(path, contents_for(alloc, self.mark, log)?))
    }
}

/// Returns contents with a mark: a file has the bytes of the last `Fetch`.
fn contents_for(alloc: Global, mark: Mark, log: &[Logged]) -> Result<Contents, AllocError>
    ensures { IfOk result
        (λ c. c ≡ spec.contents_with (spec.fetched_last [] log.now) mark) }
{
    match mark {
        Mark::File(_) => Ok(Contents::File(fetched_file(alloc, log)?)),
        Mark::Directory => Ok(Contents::Directory),
        Mark::Absent => Ok(Contents::Absent),
    }
}

/// Copies the file of the last `Fetch`, or an empty one.
fn fetched_file(alloc: Global, log: &[Logged]) -> Result<Blob, AllocError>
    ensures { IfOk result (λ b. b ≡ spec.fetched_last [] log.now) }
{
    match last_file(log) {
        Some(file) => file.copy(),
        None => Blob::new(Vec::new(alloc)),
    }
}

/// Borrows the file of the last `Fetch`. It looks from the end of the log on.
fn last_file(log: &[Logged]) -> Option<&Blob>
    ensures { unwrap_or (option_map (λ b. b.now) result) [] ≡ spec.fetched_last [] log.now }
{
    for i in 0..log.len() {
        if let Answer::Bytes(file) = &log[log.len() - 1 - i].step.answer {
            return Some(file);
        }
    }
    None
}
