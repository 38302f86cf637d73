//! Replicas and archives, held in memory.
//!
//! A `Tree` is a replica: it has files and directories at finitely many paths. An `Archive` records the marks that both
//! replicas of a pair last agreed on. Contracts see both as finite maps from paths, in the words of `specs/Tree`.
//!
//! [`Tree::entries`] goes through a replica in the order of its paths, and [`Archive::iter`] through an archive. An
//! [`ArchiveBuilder`] makes an archive at once.
//!
//! A copy of a `Blob` or of a `Tree` shares its memory, until one of them is written: then the directories on the path of the
//! write are copied, and no others.
//!
//! Only functions that return a `Result` allocate, and `Blob::new` takes over the memory of its bytes. No crate above calls
//! `Tree::bytes_at` and `Tree::names_at`: they are for other programs.
//!
//! ```rust
//! /// Makes the second replica a copy of the first.
//! fn copy(&mut self) -> Result<(), AllocError> {
//!     self.other = self.tree.copy()?;
//!     Ok(())
//! }
//! ```
//!
//! From `test_jobs/src/trees.rt`.
//!
//! # What is proved
//!
//! - `Tree::set` and `Archive::set` change exactly the one path; or `set` reports the first fault of the rule, or `OutOfMemory`,
//!   and changes nothing. `Tree::put_new` does so only where nothing is.
//! - The questions are look-ups in the map, `entries` goes through it in the order of paths, and a `copy` is equal.
//!   `Blob::digest` is the SHA-256 of the bytes. Trees and archives with the same entries are equal (`trees_are_their_contents`,
//!   `archives_are_their_marks`).
//! - What lies below a path can be removed in descending order, and what comes can be set in ascending order. None of these
//!   changes is refused, and all else stays (laws `sets_down`, `sets_up`, `an_item_goes`, `an_item_comes`, `sets_keep_the_rest`).
//!
//! # What is not
//!
//! That copies share memory, and that two files with one digest have the same bytes; nothing assumes it.
#![tactic(auto)]

mod archive;
mod blob;
mod child;
mod contents;
mod entries;
mod fault;
pub mod laws;
mod node;
mod place;
mod same;
mod tree;

pub use archive::Archive;
pub use archive::builder::ArchiveBuilder;
pub use blob::Blob;
pub use contents::{Contents, Mark};
pub use entries::{Entries, Stored};
pub use fault::SetFault;
pub use place::Place;
pub use tree::Tree;
