//! Profiles, which say what two roots synchronize, and rules, which say what nobody may do: both read from text.
//!
//! [`read_profile`] reads the bytes of a profile's text. It returns a [`Profile`], whose type keeps that its roots are
//! apart and that no kept value is over another; or a [`ProfileFault`], the first [`Fault`] with its line.
//! [`read_rules`] reads [`Rules`] likewise.
//!
//! ```rust
//! let name = Name::read(alloc, given.name.as_str())?;
//! Ok(read_profile(alloc, name, given.text.as_bytes())?)
//! ```
//!
//! From `test_cases/src/case.rt`.
//!
//! Both texts are read line by line, each line over what the lines before it say (specs/LineByLine). A preference is
//! one row of `keys` and one case of `with_value` (specs/Reading). A name of a rules text is one row of `rule_keys` and
//! one case of `with_rule_value` (specs/Rules). Contracts see a profile as the record `Parts` (specs/Parts). They say
//! that what is read is `profile_in` or `rules_in` of the bytes.
//!
//! Only functions that return a `Result` allocate.
//!
//! # What is proved
//!
//! - The readers return what the bytes spell (`profile_in`, `rules_in`), or the first fault in the order of their `///`. Each
//!   line is read: one that is not understood is a fault.
//! - Each `Profile` has two different roots that aren't nested, and no kept value above another one (law
//!   `readings_are_profiles`). The type keeps this, so no contract above repeats it. The getters return what was read.
//!
//! # What is not
//!
//! That Unison reads a line in the same way. The text of a fault's own `Display`: the program prints the names of `hub_report`.
#![tactic(auto)]

mod arrow;
mod bars;
mod draft;
mod fault;
mod foreign;
mod kept;
mod key;
pub mod laws;
mod line;
mod line_by_line;
mod partial;
mod partial_line;
mod profile;
mod protection;
mod reading;
mod rule;
mod rule_key;
mod rules;
mod rules_draft;
mod verb;

pub use arrow::parts_at_arrow;
pub use bars::Bars;
pub use draft::{PARTIAL_LINES, PATH_LINES, PATTERN_LINES};
pub use fault::{Fault, Preference, ProfileFault};
pub use line::{is_setting, line_text, name_and_value, trimmed};
pub use partial::Partial;
pub use profile::Profile;
pub use reading::read_profile;
pub use rule::Rule;
pub use rules::{RULES, Rules, read_rules};
pub use verb::Verb;
