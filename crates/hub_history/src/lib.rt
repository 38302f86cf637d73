//! Replicas that threads share, with the history of all that was done on each.
//!
//! - [`Book`]: the replica of a root, and all operations on it since the opening, with their answers. Its type keeps that
//!   the history is legal, and leads from the opening to the replica.
//! - [`Desk`]: a book behind a lock, at which threads [`Desk::step`] one operation at a time.
//! - [`Seat`]: the right to step at a desk. It counts the steps made with it.
//! - [`Gate`]: what a caller does around each step, and when a job has ended.
//!
//! ```rust
//! let answer = desk.step(rt, seat, job, op, gate);
//! push_told(alloc, text, &answer)
//! ```
//!
//! From `test_runner/src/desks.rt`.
//!
//! No clause can name what lies under a lock. So the contract of [`Desk::step`] says of the answer that some book gives it to
//! this operation of this job, and not which book; what a step does to the book is the contract of [`Book::apply`] and of
//! `step_in`, which `step` calls while it holds the lock.
//!
//! The contracts use the words of `specs/Book` (a book as contracts see it), `specs/Desk`, and hub_job's
//! `specs/History` (legal histories, and what they leave).
//!
//! Only functions that return a `Result` allocate.
//!
//! # What is proved
//!
//! - `Book::apply` returns the replica's answer and appends one entry. Out of memory leaves the book as it was.
//! - `Desk::step` counts a step on its seat exactly if it returns an answer. Nothing but `Desk::new` makes a seat.
//! - `Desk::close` returns a book only if as many seats came as the desk has, and the history has grown by one entry for each of
//!   their steps.
//!
//! # What is not
//!
//! That `step` and `close` work on the desk's own book, once, is only tested; `settle` of `hub_runner` would find a difference.
#![tactic(auto)]

mod book;
mod desk;
mod gate;
mod seat;

pub use book::Book;
pub use desk::{Desk, StepFault, Stranger};
pub use gate::Gate;
pub use seat::Seat;
