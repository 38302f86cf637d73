//! Notes on a yes that may mislead: what a set may not have been meant to say, and lines that Unison reads otherwise than hubsync.
//!
//! [`notes`] gives the lines for the first lines of an input, and [`wider_notes`] those on lines that the reading for Unison makes
//! wider.
//!
//! ```rust
//! let mut text = notes(source, is_for_unison)?;
//! ```
//!
//! From `hub_remarks/src/answer.rt`.
//!
//! - `set`: no profile, a rule for no root, two profiles of one pair, a name with a blank at an end. `idle`: a rule for paths that
//!   no profile reaches; `start`: how such paths begin.
//! - `unison`: the kinds of lines that Unison reads otherwise, the most dangerous first. `dotted`: patterns that match a dot at the
//!   start of a name. `bar`: bars on paths. `ruled`: lines that let Unison break a rule. `line`: what one line shows by itself.
//! - `query`: what lines of profiles and rules say. `hub_remarks` asks that, too. `setting`: what they set, each read once.
//! - `sign`: patterns as signs, whether one takes all that another one does, and how they are written. `missing`: patterns that a
//!   profile lacks.
//! - `said`: the lines, of which there are at most five.
//!
//! What Unison does was observed with version 2.52.1; `docs/UNISON.md` has the rules. The text is free, and is only tested
//! (`examples/remarks.txt`). What is proved is that each function is safe and ends.
//!
//! Only functions that return a `Result` allocate.
#![tactic(auto)]

mod bar;
mod dotted;
mod idle;
mod line;
mod missing;
mod query;
mod ruled;
mod said;
mod set;
mod setting;
mod sign;
mod start;
mod unison;

pub use query::{has_no_path, is_rule, is_same_root, line_above};
pub use set::notes;
pub use unison::wider_notes;
