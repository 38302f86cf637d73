//! Runs of the jobs of a set, by a schedule of turns.
//!
//! [`simulate`] runs them. Its contract is the promise of a safe set: in whatever order the jobs take turns, each of them does
//! what it does alone. The laws of [`promise`] and [`together`] say so of every history of the replicas. No crate above calls
//! [`simulate`], [`simulate_jobs`] and [`cycles_for`]: they are for tests and other programs.
//!
//! ```rust
//! let left = simulate_jobs(alloc, set.profiles(), state, schedule.as_slice());
//! ```
//!
//! From `test_jobs/src/schedules.rt`.
//!
//! # What is proved
//!
//! - `safe_sets_keep_their_promise`: an outcome of a safe set that histories lead to is as promised (clause `promise`), and to each
//!   job it is as if it had been alone (`alone`), however the operations interleave (docs/GUARANTEES.md has what that says). Its parts are laws, too: `agreeing_histories_are_as_alone`,
//!   `each_set_is_its_own`, `what_nobody_writes_stays`, `jobs_leave_each_other_alone`, `each_set_is_allowed`,
//!   `finished_jobs_synchronize`, `enough_turns_finish`.
//! - The world after a schedule, and its outcome, have such histories (`a_run_settles`, `schedules_settle`). So `simulate`
//!   returns an outcome that is as promised. 4k + 3n turns always finish a job, for k kept values and n entries in its two
//!   replicas.
//! - `cycles_for` gives each job at least as many turns. `simulate_jobs` takes any profiles, so it promises nothing of what jobs
//!   do to each other.
//!
//! # What is not
//!
//! That `cycles_for` gives one turn to each job in each cycle. That a job is served at all: `hub_runner` has threads.
#![tactic(auto)]

mod cycles;
mod ended;
mod ends;
pub mod promise;
mod refusals;
mod safe;
mod schedule;
mod slot;
mod slots;
pub mod together;
mod turn;

pub use cycles::cycles_for;
pub use ended::outcome_of_jobs;
pub use refusals::find_missing;
pub use safe::simulate;
pub use schedule::simulate_jobs;
pub use slot::WorkingTree;
