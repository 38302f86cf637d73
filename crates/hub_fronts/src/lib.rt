//! Specifications that match nothing at or below some kept values, as the characters tell with which they begin.
//!
//! - [`may_meet_one`] says whether a specification may match a path at or below one of the kept values. `Path docs/*.tmp` begins
//!   with `docs/`, so it meets `docs` and `docs/x`, but not `music`. A name alone may be anywhere.
//! - [`laws`]: what doesn't meet the kept values of a profile matches nothing that the profile reaches, whatever it ignores.
//!
//! A pattern's literal characters end at the first `?`, `*`, `[..]` or brace. Nothing here allocates.
//!
//! The contracts use the words of `specs/Fronts`.
//!
//! # What is proved
//!
//! - `may_meet_one` returns what its definition says, and the law `fronts_apart_match_nothing`.
#![tactic(auto)]

mod fronts;
pub mod laws;

pub use fronts::may_meet_one;
