//! Unison profiles, read from the files of a folder.
//!
//! - [`FileReader`]: who reads files by their paths, and lists the names of a folder's files.
//! - [`profiles_named`]: the profiles that operands name: that of a file, with the lines of the files that it includes, or those of
//!   a folder. Each is a [`FolderProfile`]: its path, its text for a bundle, and where its lines come from ([`Origins`]). Files of a
//!   folder that have no root, or that another profile includes, are none.
//! - [`machine_of`]: the machine whose profiles an operand `NAME=OPERAND` has, and [`second_machine`]: a second operand of a machine.
//!
//! ```rust
//! let taken = match profiles_named(alloc, reader, files.profiles.as_slice()) {
//! ```
//!
//! From `hubsync/src/files.rt`.
//!
//! Included files are looked for in the folder of the profile's file, as Unison looks for them in `~/.unison`. The contracts use
//! the words of `specs/Reading` (what reads give), `specs/Taken` (the text of a profile by its file), `specs/Folders` (which files
//! of a folder are profiles), `specs/Machines`, `specs/Operands` and `specs/Noted` (which files are left out).
//!
//! Only functions that return a `Result` allocate.
//!
//! # What is proved
//!
//! - The text of a profile is that of the lines that `hub_include` defines over the bytes that the reader tells.
//! - The profiles of a folder are that for its files, but for exactly those without a root line and those that another one includes.
//!   `profiles_named` gives all profiles of all operands, in their order, each with the machine that its operand names.
//! - Each profile of a folder tells exactly the files that it leaves out: those that set a root and that it includes. The rootless
//!   files are exactly those that set no root and say something else, and that no other one includes.
//! - A fault is true of what the reader tells: this file can't be read, this folder can't be listed, or this line can't be followed.
//!   A file is told as gone only if it was listed and is missing. A line that can't be followed, and a text that is too long, is that
//!   of the first profile of the folder with such a fault. For `TooManyFiles` more than [`MOST_FILES`] different files were looked for.
//!
//! # What is not
//!
//! What the system's files have, and where a remark says that a line comes from. No contract says which files are
//! looked for, beside how many they are.
#![tactic(auto)]

mod fault;
mod folder;
mod machine;
mod operands;
mod origins;
mod profile;
mod reader;
mod root;
mod shelf;
mod told;
mod wanted;

pub use fault::Untaken;
pub use folder::{FolderProfile, TakenProfiles};
pub use machine::{machine_of, second_machine};
pub use operands::{NamedProfile, NamedProfiles, profiles_named};
pub use origins::Origins;
pub use reader::{FileReader, ReadFault, Unread};
pub use shelf::{INCLUDED_BYTES, MOST_FILES};
