//! Jobs of a set that run at the same time, and what they leave.
//!
//! - [`settle`]: compares books and jobs with each other, with the set and with the state, and puts together what they
//!   leave.
//! - [`run`]: steps the jobs of a safe set at the same time, by a number of workers, and settles what they leave.
//! - [`run_part`]: does the same with some jobs of any set. Of a [`JobPair`] the later job starts when the earlier one has ended.
//!
//! The contracts use the words of `specs/Settling`, of `specs/Order` (pairs of jobs in order), of hub_history's `specs/Book` and of
//! hub_job's `specs/History`.
//!
//! Only functions that return a `Result` allocate.
//!
//! ```rust
//! let left = run(
//!     self.rt,
//!     self.alloc,
//!     self.verified,
//!     self.state,
//!     self.workers,
//!     gate,
//! );
//! ```
//!
//! From `test_runner/src/runs.rt`.
//!
//! # What is proved
//!
//! - `settle` takes books and jobs from anywhere. It returns an outcome only if they are consistent (`compared`); then the
//!   histories lead to the outcome (`settled`), it is as promised (`promise`), and to each job as if it had been alone (`alone`).
//!   Each of its faults is true and the first one: a missing replica; the lowest job number that is missing, double or made for
//!   something else (`Stranger`); the first root, and job, whose entries differ (`Mismatch`).
//! - `run` returns only outcomes that are as promised, in which each job is finished or stopped, for 1 to 16 workers and a state
//!   with all replicas. `NoWorkers`, `TooManyWorkers` and `MissingReplica` are true and come first.
//! - `run_part` returns only outcomes that histories settle in which each pair of jobs stands in order (`settled`): no entry of the
//!   later job comes before one of the earlier job. That is compared after the run, whatever the threads did. The jobs outside the
//!   part have had no turn.
//!
//! # What is not
//!
//! What the threads do, and that `run` and `run_part` return. `test_runner` shows of some runs that jobs meet at their steps, that
//! as many make a step as there are workers, that a job has at most eight turns in a row, and that all numbers of workers leave one
//! state. `test_starter` shows that a job starts while others run that it needn't wait for.
#![tactic(auto)]

mod append;
mod books;
mod borrowed;
mod by_number;
mod comparison;
mod desks;
mod entries;
mod inconsistent;
mod mismatch;
mod order;
mod pairs;
mod part;
mod pool;
mod queue;
mod runs;
mod settling;
mod worker;

pub use pairs::JobPair;
pub use part::run_part;
pub use runs::{WORKERS, run};
pub use settling::settle;
