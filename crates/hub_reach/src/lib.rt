//! Which paths a profile reaches, and what it may change there.
//!
//! - [`reaches`] decides whether a profile reaches a path; [`may`] and [`writes`] say what it may change at a root, [`may_at`]
//!   and [`writes_at`] what it may change at a path of one.
//! - [`Walker`] decides reach, and what may be changed at a path, text by text: its state is a [`Stage`], and it reads the
//!   [`Class`](hub_automaton::Class)es of an alphabet's characters. [`mention`] adds a profile's characters to such an
//!   alphabet, and [`mention_each`] those of paths, specifications, profiles or rules.
//! - [`Table`] numbers the stages of a walker as they are found, and remembers the steps between them. [`SpecTable`] does
//!   the same for the states of some specifications.
//! - [`are_near`] says whether kept values lie over one another.
//! - [`laws`]: what the crates above may conclude of stages and of reach.
//!
//! Only functions that return a `Result` allocate. No crate above calls `Stage::row_len`: it is for measurements. The contracts
//! use the words of `specs/Reach`, `specs/Bars`, `specs/Stage`, `specs/Shape`, `specs/SpecRanges`, `specs/Table` and
//! `specs/Numbering`.
//!
//! ```rust
//! let walker = Walker::new(alloc, profile, alphabet)?;
//! Ok(Box::new(alloc, Table::new(alloc, walker))?)
//! ```
//!
//! From `test_reach/src/numbers.rt`.
//!
//! # What is proved
//!
//! - `reaches`, `may`, `may_at`, `writes` and `writes_at` are the definitions', and allocate nothing. A `Walker` says the same of
//!   the path of the text that was walked. A second definition of reach, name by name from the top, agrees (law
//!   `walks_are_reach`).
//! - If two texts lead to the same stage, they still do after any text is appended to both (law `stages_go_on_alike`). All texts
//!   with which no path begins have one stage (laws `broken_texts_stay_broken`, `stages_tell_broken_texts`).
//! - A `Table` gives two texts one number exactly when they lead to one stage. Numbers keep their meaning, also after an error.
//! - `Walker::new` reports `TooManySpots` exactly when paths and patterns have more than 4,096 positions.
//!
//! # What is not
//!
//! That Unison synchronizes what a profile reaches, and nothing else.
#![tactic(auto)]

mod apart;
mod known;
pub mod laws;
mod mentioning;
mod mentions;
mod placed_bar;
mod ranges;
mod reach;
mod row;
mod shape;
mod spec_table;
mod stage;
mod table;
mod verbs;
mod walker;
mod walker_ends;

pub use apart::are_near;
pub use mentioning::{Mentioning, mention_each};
pub use mentions::mention;
pub use reach::reaches;
pub use shape::Shape;
pub use spec_table::SpecTable;
pub use stage::Stage;
pub use table::Table;
pub use verbs::{may, may_at, writes, writes_at};
pub use walker::Walker;
