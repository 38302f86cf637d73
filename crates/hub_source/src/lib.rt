//! The lines of an input, each with its place, and how a remark shows them.
//!
//! - [`Source`]: the first lines of an input. A [`SourceLine`] knows its section, its number there and in the input, and the file
//!   that it came from with its number there, if there is one ([`SourceFile`]). A profile may have a root otherwise than its section
//!   ([`WrittenRoot`]).
//! - [`RemoteRoot`]: a root on another machine; [`HostTable`]: the table of hosts that such roots need. [`Proposal`]: a line that is
//!   proposed for a profile.
//! - [`say`], [`say_line`] and [`say_placed`] add a line to a remark. [`nearest`] is the known word that was meant.
//!
//! ```rust
//! let source = Source::read(alloc, input.bytes, input.is_whole, files)?;
//! ```
//!
//! From `hub_remarks/src/answer.rt`.
//!
//! What an answer names is looked up in the text of the input, so this crate uses none of those that read profiles, states and
//! certificates. What is proved is that each function is safe and ends, and of some what they give: the text of a line and what is odd
//! about its bytes (`specs/LineText`), where it is (`specs/Places`), whether a path covers another one (`specs/Covering`), the line
//! that [`say`] adds, and that [`nearest`] gives one of the known words (`specs/Saying`).
//!
//! Only functions that return a `Result` allocate.
#![tactic(auto)]

mod file;
mod near;
mod proposal;
mod remote;
mod said;
mod source;

pub use file::{LineOrigin, SourceFile, WrittenRoot};
pub use near::nearest;
pub use proposal::Proposal;
pub use remote::{HostTable, PathStart, RemoteRoot, is_letter};
pub use said::{
    Said, covers, name_of, odd_encoding, say, say_line, say_placed, shown, shown_whole,
};
pub use source::{LinePlace, Source, SourceLine, trimmed};
