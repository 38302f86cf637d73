//! What the programs `test_jobs` and `test_runner` share: what the lines above a question give, and how answers show what
//! replicas answer and what jobs leave.
//!
//! - [`Case`] is what the lines give: profiles and a state. [`verified_of`] checks their set.
//! - [`answer_text`] and [`kind_of`] show what a replica answers; [`job_text`], [`left_text`], [`outcome_text`] and
//!   [`state_text`] what jobs leave.
//!
//! The tables are data, so no proof depends on them.
//!
//! # What is proved
//!
//! That no call fails but by an error.
//!
//! # What is not
//!
//! What is read and shown: the gate runs both programs.
#![tactic(auto)]

mod case;
mod left;
mod replies;

pub use case::{Case, verified_of};
pub use left::{job_text, left_text, outcome_text, state_text};
pub use replies::{answer_text, kind_of};
