//! Runs of the jobs of any set on a state, as if its profiles ran one after another, in their order.
//!
//! - [`waves_of`] puts the jobs of a set into [`Waves`]: of two jobs that clash the later one is in no earlier wave, and if both
//!   have the same two roots, it is in a later one. A set in which a profile may break a rule has none.
//! - [`run_in_order`] runs wave after wave. In a wave each job starts as soon as all earlier jobs of the wave have ended that it
//!   may clash with.
//!
//! ```rust
//! let outcome = run_in_order(rt, alloc, waves, state, usize::from(workers), &jobs)?;
//! ```
//!
//! From `hub_serve/src/in_order.rt`.
//!
//! A job works by the archive that its two roots have when its wave begins. So the next wave begins when all jobs of the one
//! before it have ended. If no two jobs that clash have the same two roots, there is one wave, and a job waits only for those
//! that it may clash with. In a safe set no two jobs clash: all run at the same time, as by `hub_runner::run`.
//!
//! If the profiles 0 and 1 clash, and 1 and 2 do, and no others, job 1 waits for job 0, and job 2 for job 1. If 1 and 2 have the
//! same two roots, there are two waves: 0 and 1; 2.
//!
//! The contracts use the words of `specs/InOrder` (what the jobs leave one after another), `specs/Opened` (states and outcomes as
//! worlds of hub_serial), `specs/Waves` (which job is in which wave, and which pairs clash) and `specs/Waved` (what waves leave).
//!
//! Only functions that return a `Result` allocate.
//!
//! # What is proved
//!
//! - `run_in_order` returns only outcomes that are serial (`IsSerial`): job by job, in the order of the profiles, on what the ones
//!   before it left. What a job leaves is what some turns of it leave while no other job has any, and nothing is refused to it. A
//!   finished job has synchronized its two replicas and their archive (`synced_contents`, `synced_mark`, `items` of hub_reconcile);
//!   a stopped one has left each archive as it was. All other replicas and archives are as they were. That holds whatever the
//!   threads did.
//! - Each job is finished or stopped. A stopped job holds up nobody: the jobs that wait for it start then, and synchronize what it
//!   left.
//! - `NoWorkers`, `TooManyWorkers` and `MissingReplica` are true and come first.
//! - `waves_of` returns waves only if no profile breaks a rule. Jobs without a line of `clashes_of` between them don't clash
//!   (`jobs_without_a_line_do_not_clash`).
//!
//! # What is not
//!
//! What the threads do, and that a run returns. That a job starts as soon as it may, and that as few waves as possible are made,
//! is plain from `run_part` and `waves_of`, but not stated. `test_starter` shows of one run that a job starts, once the one that
//! it clashes with has ended, while another one still runs. Jobs that clash and have the same two roots are in different waves,
//! and a wave waits for all jobs of the wave before.
#![tactic(auto)]

mod fault;
pub mod laws;
mod running;
mod waves;

pub use fault::WavesFault;
pub use running::run_in_order;
pub use waves::{Waves, waves_of};
