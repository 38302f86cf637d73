//! Bundles: inputs with profiles, rules, a state and certificates, and what they say.
//!
//! - [`read_input`] reads all bytes of an input, in bounded reads.
//! - [`read_bundle`] cuts bytes into [`Section`]s, each below its [`Heading`], or returns the first [`BundleLineFault`].
//! - [`read_sections`] reads the sections, and returns their [`BundleContents`] or the first [`SectionFault`].
//! - [`bundle_of`] makes a bundle of files, each a [`Part`]: the heading of its section, and below it its lines. [`part_fault`] says
//!   why a file can't be a section ([`PartFault`]), and [`is_heading`] which lines are headings.
//!
//! ```rust
//! let sections = match read_bundle(alloc, bytes.as_slice()) {
//!     Ok(sections) => sections,
//!     Err(fault) => return Err(bad_bundle(fault)),
//! };
//! match read_sections(alloc, sections.as_slice()) {
//!     Ok(contents) => Ok(contents),
//! ```
//!
//! From `hub_serve/src/answer.rt`.
//!
//! The contracts use the words of `specs/Input`, of `specs/Bundle` (which bytes are a bundle, what its sections are, and
//! which fault comes first), of `specs/Sections` (what sections say) and of `specs/Files` (the bundle of files).
//!
//! Only functions that return a `Result` allocate.
//!
//! # What is proved
//!
//! - `read_bundle` and `read_sections` return what is defined, or the first fault. All sections are read, whatever is asked. An
//!   empty input is a bundle without profiles.
//! - `read_input` returns all bytes of a reader, and only if a read met the end. It reports `ReadFailed` exactly when a read
//!   failed, and `TurnsSpent` only after 1,000,000 reads of which none met the end.
//! - `bundle_of` returns exactly the defined bytes if each file can be a section, and else the fault of the first that can't, or
//!   that memory is out.
//!
//! # What is not
//!
//! What a section says is the business of its own crate. Whether a file has the bytes of its part.
#![tactic(auto)]

mod bundle;
mod files;
mod input;
mod name;
mod part;
mod sections;

pub use bundle::{BundleFault, BundleLineFault, Heading, Section, read_bundle};
pub use files::{FilesFault, bundle_of};
pub use input::{InputFault, READ_BYTES, READ_TURNS, read_input};
pub use part::{Kind, Part, PartFault, is_heading, part_fault};
pub use sections::{BundleContents, ReadError, SectionFault, read_sections};
