//! Path specifications: which paths a line like `ignore = Name *.tmp` means.
//!
//! - [`PathSpec`] is a kind and a pattern. It is read from a text (`PathSpec::read`), written as a text (`text`), and
//!   asked whether it matches a path (`matches`) or a prefix of a path (`matches_front`).
//! - [`Part`] and [`Piece`] are what a pattern is made of, and `choices` lists the patterns without braces that it
//!   stands for. `Piece::takes` says whether a piece takes a character ([`NextCharacter`]).
//! - [`GlobFault`] says why a text is not a specification.
//! - [`laws`]: a pattern matches what one of its choices matches, and a specification is read from its own text.
//!
//! Only functions that return a `Result` allocate.
//!
//! `Name *.{tmp, bak}` matches `x.tmp`, `d/x.tmp` and `x. bak`, and neither `x.bak` nor `.x.tmp`.
//!
//! The contracts are in the words of `specs/Glob` (what is matched), `specs/Taking` (what one piece takes),
//! `specs/Reading` (what is read), `specs/Readable` (what holds of each specification that is read) and `specs/Writing`.
//! `specs/laws/OneStep` and `specs/laws/Choice` have lemmas for the proofs of the crates above.
//!
//! ```rust
//! yes_or_no(alloc, spec.matches(&path_of(alloc, path)?))
//! ```
//!
//! From `test_checker/src/patterns.rt`.
//!
//! # What is proved
//!
//! - `PathSpec::read` returns what the text spells, or the first fault in the order of its `///`. `text` writes a specification
//!   that reads back, if its pattern has at most 200 characters (law `reading_undoes_writing`).
//! - `matches` and `matches_front` are the definition's, and allocate nothing.
//! - A text matches a pattern exactly when it matches one of its `choices` (law `choices_are_enough`).
//!
//! # What is not
//!
//! That Unison matches the same paths: docs/UNISON.md has the differences.
#![tactic(auto)]

mod choosing;
mod fault;
pub mod laws;
mod path_spec;
mod piece;
mod reading;
mod sweep;
mod writing;

pub use fault::GlobFault;
pub use path_spec::{Kind, PathSpec};
pub use piece::{NextCharacter, PATTERN_CHARACTERS, PATTERN_CHOICES, Part, Piece};
pub use writing::text_of;
