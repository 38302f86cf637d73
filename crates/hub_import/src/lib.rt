//! Bundles that are written for a set, so that a plain reading of them gives its profiles and rules.
//!
//! [`write_bundle`] returns the text of a bundle that says these profiles and rules, or why there is none ([`BundleUnwritten`]).
//!
//! ```rust
//! match write_bundle(
//!     alloc,
//!     contents.profiles.as_slice(),
//!     contents.rules.as_slice(),
//! ) {
//!     Ok(text) => Report::Imported(text),
//! ```
//!
//! From `hub_serve/src/import.rt`.
//!
//! The lines of a profile and of rules are made of their values (`lines`, `value`). The text is read again by the functions that
//! read each input (`hub_bundle`), and it is returned only if it says the same (`same`, `rules`).
//!
//! The contracts use the words of `specs/Text` (the text), of `specs/Imported` (what it is to say) and of `hub_bundle`.
//!
//! Only functions that return a `Result` allocate.
//!
//! # What is proved
//!
//! - What is returned is `bundle_text` of the profiles and rules, and spells them, and neither a state nor certificates. So
//!   nobody who reads it has to trust what wrote it.
//! - `NotReadBack` comes only if that text doesn't spell them.
//!
//! # What is not
//!
//! That it comes only if more lines or longer patterns are needed than a profile or rules may have: that is tested.
#![tactic(auto)]

mod lines;
mod rules;
mod same;
mod value;
mod write;

pub use rules::are_same_rules;
pub use write::{BundleUnwritten, write_bundle};
