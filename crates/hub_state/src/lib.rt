//! States: the replicas of roots and the archives of pairs of roots, and their text.
//!
//! - [`State`] has a replica for each of some roots, and an archive for each of some unordered pairs of roots.
//! - [`read_state`] reads a state from an input, and [`read_bytes`] from bytes. Each returns the state or the first
//!   [`StateFault`] of the text.
//! - [`write_state`] writes the text of a state. What is written of a state within the limits reads back as the same
//!   state.
//!
//! A text has one of two versions. In version 1 each file has its bytes. In version 2 the bytes are in blobs, each of which
//! stands once, and files name blobs by their digests. Both are read. Version 2 is written, unless two files of one digest
//! have different bytes.
//!
//! Contracts see a state as two finite maps, in the words of `specs/State`. `specs/Reading` says which bytes are a state
//! text, what they say, and which fault comes first. `specs/Writing` says what the text of a state is.
//!
//! A text is read as a fold over its lines. What the lines above say is a draft: the sections that have ended, in a state;
//! the section that hasn't, beside it; and how many entries there were. So an entry is put where it belongs without a
//! look-up of its section. Blobs stand in a map by their digests, and a file shares the bytes of its blob, which are hashed
//! once. A path shares the names of its folder with the path before. `specs/Taking` says what a line adds to a draft, and
//! `proofs/Drafts` that it adds the same to the lists of entries of `specs/Reading`.
//!
//! Only functions that return a `Result` allocate. No crate above calls [`read_state`]: it is for other programs.
//!
//! ```rust
//! write_state(alloc, &mut Watched::new(&mut bytes), state)?;
//! ```
//!
//! From `test_cases/src/left.rt`.
//!
//! # What is proved
//!
//! - The look-ups allocate nothing. `put_replica` and `put_archive` change one entry; out of memory leaves the state as it was.
//! - `read_bytes` is the reading of the bytes: the state, or exactly the first fault. `read_state` is that of a reader's bytes.
//!   It reports `ReadFailed` exactly when a read failed, and `TurnsSpent` only after 1,000,000 reads of which none met the end;
//!   all else but out of memory comes only if a read met the end.
//! - `write_state` that returns `Ok` has written exactly the text of the state. It reports `WriteFailed` exactly when a write
//!   failed.
//! - What is written of a state within the limits reads back as the same state (law `what_is_written_reads_back`).
//! - What is said of a device's bytes is stated for devices whose bytes a contract can name.
//!
//! # What is not
//!
//! That a state is that of your folders.
#![tactic(auto)]

mod blobs;
mod digits;
mod draft;
mod entry;
mod fault;
mod form;
pub mod laws;
mod line;
mod marks;
mod near;
mod reader;
mod state;
mod unmarked;
mod writer;

pub use fault::{Fault, StateFault};
pub use form::{Form, Section, Version};
pub use reader::{READ_TURNS, read_bytes, read_state};
pub use state::State;
pub use writer::write_state;

/// How many entries a state text may have, those of replicas and of archives together.
pub const ENTRIES: usize = 100_000;

/// How many blobs a state text may have.
pub const BLOBS: usize = 100_000;

/// How many bytes a file or a blob may have that is read from a state text.
pub const FILE_BYTES: usize = 1_048_576;
