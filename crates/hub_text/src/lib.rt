//! Lists, texts, lines and watched devices: what all of hubsync's crates stand on.
//!
//! - [`Items`]: a list, with equality, order, hash and clone.
//! - [`Exact`]: types whose `==` tells values apart exactly, with [`is_equal`] and [`are_equal`].
//! - [`Lines`] and [`TextLines`]: the lines of bytes and of a text, each a [`Line`] that says whether an LF ended it;
//!   [`without_last_cr`] drops a CR at the end of one.
//! - [`Watched`]: a reader or a writer that remembers whether a call of it has failed, how many reads were made, and whether
//!   one met the end.
//! - [`BLANKS`], [`first_word`] and [`skip_blanks`]: where a text is cut between words.
//! - [`compare`], [`is_empty`], [`begins_with`] and [`without_last`]: questions about a text, answered by its
//!   characters.
//!
//! Contracts see a text as the list of its characters, which are numbers (Unicode scalar values). The definitions are in
//! `specs/Blanks`, `specs/Lines` and `specs/Exact`. The other files of `specs/` prove general facts for the proofs of the crates
//! above: `TestLaws` of tests, `ListLaws` of lists, `Fails` of faults, `LineLaws` and `Takes` of lines, `TextCuts`, `TextParts`,
//! `TextChars`, `Texts`, `Ascii` and `AsciiWords` of bytes and the characters that they encode, `Reads` of bounded reads of known
//! bytes, and `TextOrder` that the order of UTF-8 bytes is the order of characters.
//!
//! Only functions that return a `Result` allocate.
//!
//! ```rust
//! Ok(format!(in alloc; "{:?}", first_word(text))?)
//! ```
//!
//! From `test_checker/src/texts.rt`.
//!
//! # What is proved
//!
//! - The lists, lines and questions about a text are what they are named for. `==` of an [`Exact`] type is true exactly when a
//!   contract sees the same value on both sides: each crate proves this law of its own types.
//! - [`Watched`] passes each call on. `failed` is set exactly when a call has failed: it returned an error, or a write took
//!   nothing of a piece that isn't empty. `at_end` is set exactly when a read gave nothing for a buffer that isn't empty. Each
//!   read without an error counts. `write_all` writes all bytes, or those before the first call that failed.
//!
//! # What is not
//!
//! What a device outside does with its bytes.
#![tactic(auto)]

mod blank;
mod exact;
mod items;
mod line;
mod text;
mod watched;

pub use blank::{BLANKS, first_word, skip_blanks};
pub use exact::{Exact, are_equal, is_equal};
pub use items::Items;
pub use line::{Line, Lines, TextLines, without_last_cr};
pub use text::{begins_with, compare, is_empty, without_last};
pub use watched::Watched;
