//! The words on the command line, and what they ask for.
//!
//! - [`read_words`] reads the words with `clap`, and returns what they ask for or `clap`'s [`Error`].
//! - [`Query`]: what words ask for, a [`Question`] about the set of a bundle's profiles and rules, or whether a profile
//!   reaches a path. Each says how the profiles are to be read ([`Reading`]).
//! - [`read_options`] reads which [`Files`] the words name, and whether they have `--strict` ([`Options`]).
//!
//! ```rust
//! match read_words(alloc, words) {
//!     Ok(asked) => answer(rt, alloc, asked, input, output, progress),
//!     Err(error) => refuse(rt, &error, output),
//! }
//! ```
//!
//! From `hub_serve/src/program.rt`.
//!
//! The contracts use the words of `specs/Words`, which defines the command in `clap`'s terms, and with that what each list of
//! words asks for. No other crate uses `clap`: what a caller needs of it is exported here.
//!
//! Only functions that return a `Result` allocate.
//!
//! # What is proved
//!
//! `read_words` returns what the words ask for, and `read_options` which files they name and whether they have `--strict`. Each
//! returns an error only if the words ask for nothing, or if it is out of memory.
//!
//! # What is not
//!
//! The texts of help, of the version and of mistakes, which are `clap`'s. A number of workers is not judged here.
#![tactic(auto)]

mod app;
mod files;
mod help;
mod words;

pub use clap::Error;
pub use clap::error::ErrorKind;
pub use files::{Files, Options, read_options};
pub use words::{DEFAULT_WORKERS, Query, Question, Reading, read_words};
