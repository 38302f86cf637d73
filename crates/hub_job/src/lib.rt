//! A synchronization as a sequence of single operations.
//!
//! - [`Job`]: what a profile's job asks next, turn by turn, and how it ended.
//! - [`perform`]: makes an operation ([`Op`]) on a replica, and returns its [`Answer`].
//! - [`Logged`]: an operation of a job, with its answer and the side that answered.
//! - [`laws`]: what the crates above may conclude.
//!
//! The contracts use the words of `specs/Machine` (the answers of a replica), `specs/Job` (what a job does next),
//! `specs/JobValue` (a job as contracts see it), `specs/Ends` (how it ends) and `specs/Run` (runs of one job).
//!
//! Only functions that return a `Result` and [`Job::turn`] allocate. No crate above calls `Answer::fits`: it is for other
//! programs.
//!
//! ```rust
//! let mut job = Job::new(alloc, number, profile, archive)?;
//! let answers = answers_of(alloc, &mut job, profile, state, steps)?;
//! end_text(alloc, job, answers.as_str())
//! ```
//!
//! From `test_jobs/src/jobs.rt`.
//!
//! # What is proved
//!
//! - `perform` returns the defined answer and leaves the defined replica. Out of memory changes nothing.
//! - A `Job` keeps `Runs` of its log. `turn` returns what comes next. `take` and `stop` can't be out of memory: `turn` has made
//!   room. If `turn` is out of memory, the job is stopped from then on. `end` returns the defined end, items and archive.
//! - A job fetches only what it reaches and sets only what it writes, whatever the answers are (law
//!   `a_job_asks_only_what_it_may`).
//! - Two profiles that don't clash at a root don't change each other's answers there (`others_change_no_answer`). So however
//!   their turns interleave, each gets the log that it gets alone (`each_log_is_the_one_alone`).
//! - A job alone, with k kept values and n entries in its two replicas, is finished after 4k + 3n turns, and leaves one
//!   synchronization (`a_job_alone_synchronizes`; among others, on the paths that it reaches: `each_job_synchronizes`).
//!
//! # What is not
//!
//! That a job gets turns, or that memory lasts.
#![tactic(auto)]

mod answer;
mod asked;
mod exact;
mod job;
mod job_end;
mod known;
pub mod laws;
mod log;
mod looks;
mod machine;
mod op;
mod outcome;
mod phase;
mod planned;
mod run_fault;
mod sight;
mod step;
mod steps;
mod waiting;

pub use answer::{Answer, OpFault};
pub use asked::Asked;
pub use job::Job;
pub use job_end::{End, JobEnd};
pub use log::{Entry, Logged};
pub use machine::perform;
pub use op::{Next, Op};
pub use outcome::Outcome;
pub use run_fault::RunFault;
pub use sight::Sight;
