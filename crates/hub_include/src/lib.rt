//! The lines of a Unison profile, with those of the files that it includes.
//!
//! - [`Folder`]: what is known of files by their names below one folder: nothing, that there is no such file, or its bytes. So
//!   each file is read once for all profiles.
//! - [`lines_of`]: the lines of a profile, each a [`FileLine`] with its file, its number there and its bytes, or the first
//!   [`LinesFault`]. The line that includes a file stays, and the lines of the file follow it. Its fault `Unread` names a file
//!   that has to be read.
//! - [`asked_by`] and [`name_in`] read a line that includes a file ([`Asked`]).
//! - [`text_of`]: the text for a bundle, with one line for each line. [`bytes_with`] counts its bytes before it is made.
//!
//! At most [`MOST_OPEN`] files are open at once, and a profile has at most [`MOST_LINES`] lines. The contracts use the words of
//! `specs/Words` (which lines include a file), `specs/Targets` (which file), `specs/Includes` and `specs/Bundle`.
//!
//! # What is proved
//!
//! `lines_of` returns exactly the lines that `specs/Includes` gives, or exactly that fault. `text_of` returns exactly the text of
//! `specs/Bundle`, and `bytes_with` the number of its bytes. `Folder::put` changes what is known of one name alone.
//!
//! # What is not
//!
//! Whether a file has the bytes that were put in: the caller reads it. The rules were observed with Unison 2.52.1. A cycle is a
//! fault here; Unison's stack overflows. Of several faults the first is reported; Unison reports the last one first.
#![tactic(auto)]

mod bundle;
mod fault;
mod folder;
mod lines;
mod target;
mod word;

pub use bundle::{bytes_with, text_of};
pub use fault::{LineFault, LinesFault, Why};
pub use folder::{File, Folder, Found};
pub use lines::{FileLine, MOST_LINES, MOST_OPEN, lines_of};
pub use word::{Asked, asked_by, name_in};
