//! Sets of profiles and rules, what has to be ruled out for them to be safe, and certificates that rule it out.
//!
//! - [`ProfileSet`]: profiles and rules that may be checked together.
//! - [`Goal`]: one thing that a safe set rules out: that a profile writes over what another one reaches, or that a profile
//!   does what a rule forbids. `ProfileSet::goals` lists the goals of a set.
//! - [`Certificate`]: a goal and a list of texts, its [`StageTexts`]. It rules the goal out if the list is inductive.
//! - [`verify`]: checks certificates, and returns the set as a [`Verified`], whose type says that the set is safe.
//! - [`Verifier`]: checks the texts of one goal after another, so that a set can be verified with one goal's texts at a time.
//! - [`Nearness`]: which two profiles of a set have kept values over one another. It says whether kept values alone rule out a
//!   goal, and [`safe_by_values`] returns a set as a [`Verified`] if they rule out each of its goals.
//! - [`read_certificates`] and [`write_certificates`]: the text of certificates, which docs/CERTIFICATES.md describes.
//! - [`Product`]: the automaton of a goal, whose state is a [`GoalStage`]. [`walker_of`], [`rule_set_of`] and [`forbidden_to`]
//!   make its parts.
//! - [`make_each`]: makes a list from the numbers of its places.
//! - [`laws`]: what the crates above may conclude.
//!
//! The contracts use the words of `specs/Set`, `specs/Goals`, `specs/Aim` (what a goal asks, and its stages),
//! `specs/Inductive`, `specs/Apart` (what kept values alone rule out), `specs/Verdict` (what `verify` answers) and `specs/Reading`.
//!
//! Only functions that return a `Result` allocate. No crate above calls [`Product`]: it is for other programs.
//!
//! ```rust
//! /// Makes the set of these fields.
//! pub(crate) fn set_of(alloc: Global, fields: &str) -> Result<Box<ProfileSet>> {
//!     let (profiles, rules) = members_of(alloc, fields)?;
//!     boxed(alloc, ProfileSet::new(alloc, profiles, rules))
//! }
//! ```
//!
//! From `test_checker/src/sets.rt`.
//!
//! # What is proved
//!
//! - `verify` returns a `Verified` only if the certificates rule out every goal of the set (clause `certificates`; by their stages
//!   `inductive`). Then the set is safe (`safe`). For such certificates it reports nothing but `OutOfMemory` (`complete`). Each other fault is true and the
//!   first one (`refused`). A `Verifier` does the same goal by goal.
//! - A list that rules out a goal shows that the goal accepts no text (law `ruled_out_goals_accept_nothing`), and with one for each
//!   goal a set is safe if no different roots are nested (`certified_sets_are_safe`). An inductive list rules out
//!   (`inductive_lists_rule_out`), and a goal that accepts no text has one (`silent_goals_have_inductive_lists`).
//! - `ProfileSet::new` returns the set of exactly these members, or the first fault in the order of its `///`. `goals` lists each
//!   goal once.
//! - If two texts have equal stages, they still do after a character is appended to both, and the goal accepts both or neither
//!   (law `goal_stages_go_on_alike`).
//! - `read_certificates` returns what the bytes spell, or the first faulty line. What `write_certificates` writes reads back, if
//!   no goal has a number of more than four digits (law `reading_undoes_writing`).
//!
//! # What is not
//!
//! That certificates are found: `hub_search` does that. Nothing here depends on who made them.
#![tactic(auto)]

mod certificate;
mod fault;
mod goal;
pub mod laws;
mod matched;
mod product;
mod set;
mod verifier;

pub use certificate::reading::read_certificates;
pub use certificate::writing::write_certificates;
pub use certificate::{Certificate, StageText};
pub use fault::CheckFault;
pub use goal::{Goal, Place};
pub use matched::make_each;
pub use product::stage::GoalStage;
pub use product::{Product, rule_set_of, slash_class, walker_of};
pub use set::apart::safe_by_values;
pub use set::forbidden::{Forbidden, forbidden_to};
pub use set::nearness::Nearness;
pub use set::refusals::roots_of;
pub use set::{PROFILES, ProfileSet};
pub use verifier::Verifier;
pub use verifier::stage_texts::StageTexts;
pub use verifier::verified::{Verified, verify};
