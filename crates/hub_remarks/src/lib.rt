//! Remarks on hubsync's answers: the line of the input that an answer is about, and what to do.
//!
//! [`remark`] says, for the first bytes of an input and what was answered to it, what belongs on standard error. [`remark_on_lines`] says
//! it of lines in whose place others are answered about.
//!
//! ```rust
//! let remarks = remark(rt.alloc(), words, files, input, told, answers)?;
//! ```
//!
//! From `hubsync/src/served.rt`.
//!
//! The answer comes as a value (`Told` and `Totals` of `hub_report`): what it names (a profile, a section, a line, a root, a rule) is looked up in the
//! lines of the input (`hub_source`). So this crate takes part in no answer, and it reads none that was printed. It reads no profile but
//! for the lines that an answer for Unison leaves out or refuses (`hub_preferences`), or that are too long for it (`hub_unison`).
//!
//! - Faults: `bundle` of the headings, `setting`, `unknown`, `value`, `remote` and `pattern` of profiles and rules, `text` of states and
//!   certificates. The table that roots on other machines need: `hosts`.
//! - Refusals and the lines that make them so: `refusal`. What `reach`, `run` and the command line were asked: `asked`; the
//!   line that ignores a path: `ignored`. Words that ask for nothing: `words`.
//! - A yes that may mislead: the crate `hub_notes`, and `folded`. An answer for Unison: `unison`, `limit`. Lines that make a set safe:
//!   `mend`, and what they take away: `proposed`.
//! - What hubsync is asked about an overlap or a breach ([`what_to_ask`]), and its [`Answers`]: `clash`. The numbers of a long answer:
//!   `totals`.
//!
//! The text is free, and is only tested (`examples/remarks.txt`). What is proved is that each function is safe and ends.
//!
//! Only functions that return a `Result` allocate.
#![tactic(auto)]

mod answer;
mod asked;
mod bundle;
mod clash;
mod elsewhere;
mod folded;
mod hosts;
mod ignored;
mod input;
mod limit;
mod mend;
mod nested;
mod pattern;
mod proposed;
mod refusal;
mod remedy;
mod remote;
mod setting;
mod text;
mod totals;
mod unison;
mod unknown;
mod value;
mod words;

pub use answer::{Remarks, remark};
pub use clash::{Answers, Questions, Reply, what_to_ask};
pub use input::FirstBytes;
pub use unison::remark_on_lines;
