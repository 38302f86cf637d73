//! What clashes in a set of profiles, and rounds: groups of profiles that may run at the same time.
//!
//! - [`clashes_of`] searches for each goal of a set, and returns [`Clashes`]: a line for each goal that isn't ruled out.
//! - [`rounds_of`] cuts the set into [`Rounds`]. The profiles of a round are a safe set, which `hub_search::check` has verified.
//!   A profile that breaks a rule by itself is in no round. [`rounds_by_lines`] does the same for profiles that are no set,
//!   by the lines that `hub_apart` finds.
//! - [`rounds_of_lines`] makes rounds of numbers, by lines alone: [`NumberedRounds`]. Nothing is checked, and how many
//!   profiles a round has isn't limited.
//!
//! ```rust
//! let clashes = clashes_of(alloc, &set)?;
//! made_text(alloc, &rounds_of(alloc, Box::into_inner(set), &clashes))
//! ```
//!
//! From `test_checker/src/rounds.rt`.
//!
//! Three profiles keep the folders `a`, `a/b` and `c` of one hub. The first two clash, so there are two rounds: the first and
//! the third profile, and then the second one. At least two are needed.
//!
//! The rounds come from a colouring of the profiles in which two that clash have different colours: first those with the most
//! clashes, each with the least colour that is free (Welsh and Powell), and then a few passes that colour again, class by
//! class (Culberson, "iterated greedy": no pass needs more colours). How many rounds are needed is bounded from below by
//! profiles of which each two clash.
//!
//! Of at most 24 profiles the largest such clique is searched for (Carraghan and Pardalos). If it is smaller than the number of
//! colours, fewer colours are searched for (Brélaz's DSATUR, by branch and bound). Both searches find the best, unless they
//! take more steps than they may.
//!
//! For more profiles of a set there is no search. More numbers are searched part by part, in [`rounds_of_lines`]: two numbers are
//! in the same part if they clash, or if others between them do, one with the next. As many colours will do as the part needs
//! that needs the most. So each part of at most 24 numbers is searched as above, but only where that may change how many colours
//! or rivals there are. The searches in all parts together may take 20 times the steps of those in one. Where they would take
//! more, and in larger parts, numbers keep the colours from the passes.
//!
//! The clashes of each profile are kept as a sorted list, and so are the lines about it. So time and memory grow with the
//! profiles and the lines, and with all pairs of profiles only where most of them clash.
//!
//! A colouring is a guess. What is stated of rounds rests on `check`, and on the lines; of rounds of numbers, on the lines alone.
//! Each profile that is left out, and each two profiles of the lower bound, have a line that is looked at. A profile of which a
//! line says that it clashes in the round of its colour gets a round of its own.
//!
//! The contracts use the words of `specs/Lines` (what a line says of which profiles), `specs/Named` (the lines about each of
//! them), `specs/Rounds` (where profiles stand), `specs/Numbered` (where their numbers stand), and hub_search's `specs/Faults`
//! (the lines of a set).
//!
//! Only functions that return a `Result` allocate.
//!
//! # What is proved
//!
//! - `clashes_of` returns the lines of the set: each goal is ruled out or has one, a set with an overlap or a breach isn't safe,
//!   and a set without lines is safe.
//! - `rounds_of` and `rounds_by_lines` return `AreRounds`: each profile with a line about it alone is left out, and such a line
//!   says why; each other one stands in exactly one round; no two profiles of a round have a line; no round is empty; the profiles
//!   of a round and the rules are a safe set; each two rivals have a line, and no other profile of a round has lines with all of
//!   them.
//! - `rounds_of_lines` returns `AreRoundsOfLines`: each number stands in exactly one round, or is left out with the reason of a
//!   line about it alone; no line is about two numbers of a round, or about one of them alone; no round is empty, and none has a
//!   number twice; each two rivals have a line, and no other number of a round has lines with all of them.
//! - `NotVerified` comes only with a round that the check refuses, and not where memory is out.
//!
//! # What is not
//!
//! That `NotVerified` doesn't come, and that up to 24 profiles get the least number of rounds and the most rivals, is tested. So
//! is that numbers do, if each part has up to 24. How many more rounds than are needed others get is neither.
#![tactic(auto)]

mod by_parts;
mod clashes;
mod clique;
mod colouring;
mod fault;
mod graph;
mod greedy;
mod guess;
mod largest;
mod named;
mod noted;
mod numbered;
mod painting;
mod parts;
mod placing;
mod rounds;
mod standing;
mod subject;

pub use clashes::{Clashes, clashes_of};
pub use fault::RoundsFault;
pub use numbered::{LeftOut, NumberedRounds, rounds_of_lines};
pub use placing::{Obstacle, Placed, Placing};
pub use rounds::{Rounds, rounds_by_lines, rounds_of};
pub use subject::{Subject, subject_of};
