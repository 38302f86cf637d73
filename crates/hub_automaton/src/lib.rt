//! Classes of characters, and an automaton over them that follows many patterns at once.
//!
//! The automaton is bit-parallel: its states are sets of positions in the patterns, 64 in a word (Shift-And; Baeza-Yates
//! and Gonnet, Navarro and Raffinot). Only functions that return a `Result` allocate. No crate above calls
//! `SpecSet::spot_count` and `SpecSet::matched_in`: they are for other programs.
//!
//! - [`Alphabet`] holds the characters that paths and specifications mention. Each is a [`Class`] of its own, and all
//!   other characters allowed in paths are one class.
//! - [`SpecSet`] reads a text class by class for some specifications. Its state is [`Spots`]: for each choice, after how
//!   many pieces it matches the text so far. So it knows after each character whether one of them matches the text.
//! - [`Ends`] is a range of the specifications of a set as a mask, so that [`Spots::meets`] finds in one pass over words
//!   whether one of them matches.
//! - [`ClassSet`] is a set of classes. [`SpecSet::distinguishing_classes`] finds by the active positions of a state which classes may
//!   lead elsewhere than class 0.
//! - [`SpecSetBuilder`] collects the specifications of a set, and paths that stand for themselves and all paths below.
//!
//! The contracts use the words of `specs/Alphabet` (classes) and `specs/Spots` (the state after a text). `specs/forms/Stepping`
//! defines a step position by position, `specs/Masks` and `specs/Words` for 64 positions at once, and `specs/forms/Rows` for many
//! words at once. `specs/Alike` says which characters may be treated alike, `specs/Varied` at which positions a class differs
//! from class 0, `specs/Distinguishing` what a class that isn't one leads to, and `specs/Ends` the masks of last positions.
//!
//! ```rust
//! for number in 0..alphabet.count() {
//!     let sample = alphabet.sample(Class::new(number));
//!     samples.push(sample)?;
//!     classes.push_str(class_text(alloc, alphabet.class_of(sample))?.as_str())?;
//! }
//! ```
//!
//! From `test_reach/src/alphabets.rt`.
//!
//! # What is proved
//!
//! - What is added to an [`Alphabet`] mentions exactly its characters, or changes nothing. A sample is of its class and may stand
//!   in a path, and all characters of paths have a class.
//! - After `start` and any number of `advance`, a state is the defined one: a step handles 64 positions at once, and is proved
//!   equal to handling them one by one. For the text of a path it says exactly whether a specification matches.
//! - Characters of a class that `distinguishing_classes` does not list lead where those of class 0 do.
//! - If two texts lead to the same state, they still do after any text is appended to both (law `what_is_kept_goes_on_alike`).
//!
//! # What is not
//!
//! That `distinguishing_classes` lists only classes that lead elsewhere than class 0; others would cost time alone.
#![tactic(auto)]

mod alike;
mod alphabet;
mod alternatives;
mod builder;
mod class;
mod class_set;
mod ends;
mod fault;
pub mod laws;
mod masks;
mod mentions;
mod rows;
mod spec_set;
mod step;
mod takers;
mod varied;
mod words;

pub use alphabet::{Alphabet, MENTIONED_CHARACTERS};
pub use alternatives::{Alternatives, SPOTS};
pub use builder::SpecSetBuilder;
pub use class::Class;
pub use class_set::ClassSet;
pub use ends::Ends;
pub use fault::AutomatonFault;
pub use spec_set::{SpecSet, Spots};
