use crate::log::Entry;
use hub_path::Root;
use hub_text::Items;
use std::alloc::AllocError;
use thiserror::Error;

/// Why jobs aren't run. It is shown as the fault's name, as in `NoWorkers`.
#[derive(Debug, Drop, Error)]
pub enum RunFault {
    /// There are no workers.
    #[error("NoWorkers")]
    NoWorkers,
    /// There are more workers than `WORKERS`.
    #[error("TooManyWorkers")]
    TooManyWorkers,
    /// The state lacks a replica.
    #[error("MissingReplica")]
    MissingReplica {
        /// Its root.
        root: Root,
    },
    /// A root's book isn't the set's and the state's, or its entries of a job aren't those of the job's log.
    #[error("Mismatch")]
    Mismatch {
        /// The root.
        root: Root,
        /// The job; none where the book is missing, there twice or a foreign one.
        job: Option<usize>,
        /// The job's entries in the history.
        history: Items<Entry>,
        /// The job's entries in its log, at this root.
        log: Items<Entry>,
    },
    /// A schedule names no job.
    #[error("BadTurn")]
    BadTurn {
        /// The place in the schedule.
        turn: usize,
    },
    /// A thread can't be started.
    #[error("ThreadRefused")]
    ThreadRefused,
    /// A job is there twice, missing or foreign.
    #[error("Stranger")]
    Stranger {
        /// Its number.
        job: usize,
    },
    /// Out of memory.
    #[error("OutOfMemory")]
    OutOfMemory,
}

impl From<AllocError> for RunFault {
    ghost use Rattle.hub_job.specs.declared.run_fault.RunFault.TheVariants.{OutOfMemory};
    ghost use Rattle.std.specs.Prelude.{◌≡◌};

    ghost from_gives = { λ _ e. e ≡ OutOfMemory };

    fn from(_: AllocError) -> Self {
        RunFault::OutOfMemory
    }
}
