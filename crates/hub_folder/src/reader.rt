//! Who reads files.
ghost use Rattle.std.specs.Prelude.{ℕ, List, Option, map, string_bytes, IfErr, IfOk};
ghost use Rattle.hub_folder.specs.Reading.{FileRead, Folders, HasBytes, HasFolder, HasNames, IsUnread, IsUnlisted, Listing};

use hub_path::Root;
use std::alloc::{AllocError, Global};
use std::io;

/// What is wrong with a file that can't be read, or with a folder that can't be listed.
#[derive(Debug, Drop)]
pub enum ReadFault {
    /// There is none. The system's error says so.
    Missing(Option<io::Error>),
    /// It can't be opened, or a read failed. The system's error says why.
    ReadFailed(Option<io::Error>),
    /// After so many reads as are made there was no end.
    TurnsSpent,
}

/// Why a file wasn't read, or a folder wasn't listed.
#[derive(Debug, Drop)]
pub enum Unread {
    /// This is wrong with it.
    File(ReadFault),
    /// Out of memory.
    OutOfMemory,
}

/// Reads files by their paths, lists folders, and says where files are.
pub trait FileReader {
    /// What a read of the file of this path gives, where a contract can tell it.
    ghost reads: { Self → List ℕ → Option FileRead };

    /// What the folder of this path lists, where a contract can tell it.
    ghost lists: { Self → List ℕ → Option Listing };

    /// The folder of the file of this path, where a contract can tell it.
    ghost folders: { Self → Folders };

    /// Reads all bytes of a file.
    fn read_file(&self, alloc: Global, file: &str) -> Result<Vec<u8>, Unread>
        ensures bytes { IfOk result (λ v. HasBytes (reads self.now) file.now v.items) }
        ensures unread { IfErr result (IsUnread (reads self.now) file.now) };

    /// The names of the files in a folder, in the order of their bytes.
    fn list_folder(&self, alloc: Global, folder: &str) -> Result<Vec<String>, Unread>
        ensures names { IfOk result
            (λ v. HasNames (lists self.now) folder.now (map string_bytes v.items)) }
        ensures unlisted { IfErr result (IsUnlisted (lists self.now) folder.now) };

    /// The folder that a file is in, from the top of the file system, if that can be told.
    fn folder_of(&self, alloc: Global, file: &str) -> Result<Option<Root>, AllocError>
        ensures { IfOk result (HasFolder (folders self.now) file.now) };
}
