//! Names, paths and roots: the words in which all of hubsync speaks of files.
//!
//! - [`RelPath`] is a path inside a replica: a list of [`Name`]s.
//! - [`Root`] is an absolute path on this machine, where a replica is.
//! - [`PathFault`] is the reason why a text is not one of them.
//! - [`Side`] is one of the two replicas of a profile.
//!
//! Each value is read from its text by `read`, within limits on lengths, or made of it by `from_text`, without limits.
//! Only the readers know the limits: no method of a value fails for length. For example `RelPath::read(alloc, "a//b")`
//! returns the fault `EmptyName`.
//!
//! Contracts see a name as the list of its characters, and a path or a root as the list of its names. `specs/Path` says
//! what names, paths, prefixes and their order are, `specs/Reading` which texts are names, paths and roots, and `specs/Sides`
//! which side is the other one.
//! `specs/laws/General`, `specs/laws/Text` and `specs/laws/ReadBack` prove what follows, for the proofs of the crates above.
//!
//! Only functions that return a `Result` allocate.
//!
//! ```rust
//! if text.is_empty() {
//!     return Ok(RelPath::top(alloc));
//! }
//! Ok(RelPath::read(alloc, text)?)
//! ```
//!
//! From `test_checker/src/paths.rt`.
//!
//! # What is proved
//!
//! - `Name::read`, `RelPath::read` and `Root::read` return the value that the text spells, or the first fault in the order of
//!   their `///`. Only they have limits: 255 bytes a name, 64 names a path.
//! - A value has the text that it was read from, and each value within the limits is read from its own text (laws
//!   `texts_come_back`, `names_come_back`, `texts_within_the_limits_are_read`).
//! - The methods are the list operations that they are named for, and what they return is valid.
//!
//! # What is not
//!
//! Whether a path exists: two roots may be one folder by a link.
#![tactic(auto)]

mod fault;
pub mod laws;
mod name;
mod rel_path;
mod root;
mod side;
mod text;

pub use fault::PathFault;
pub use name::{NAME_BYTES, Name};
pub use rel_path::{PATH_NAMES, RelPath};
pub use root::Root;
pub use side::Side;
pub use text::without_last_slash;
