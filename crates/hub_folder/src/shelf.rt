//! What is known of a folder's files, by reads.
ghost use Rattle.std.specs.Prelude.{◌≡◌, ◌++◌, ℕ, List, Some, string_bytes, IfErr, IfOk, IfSome, OnOk};
ghost use Rattle.hub_folder.specs.Taken.{Agrees, IsThere, IsUntaken, KeepsKnown, ShowsTooMany, read_as};
ghost use Rattle.hub_include.specs.Files.{ChangesOnlyAt, known_of};

use crate::fault::Untaken;
use crate::reader::{FileReader, ReadFault, Unread};
use crate::wanted::{Waiting, Wanted};
use hub_include::{Folder, LinesFault, lines_of};
use hub_text::Items;
use std::alloc::{AllocError, Global};

/// How many files are looked for at most for one profile: among a folder's profiles its own one counts. (This project's choice.)
pub const MOST_FILES: usize = 1_000;

/// How many bytes the texts of profiles have at most together, with what they include, among them all files of profiles of the folder
/// that is read. (This project's choice.)
pub const INCLUDED_BYTES: usize = 16_777_216;

/// A folder whose files a reader tells. Its path ends with `/` or is empty.
#[derive(Drop)]
pub(crate) struct Place<'a, F> {
    pub(crate) alloc: Global,
    pub(crate) reader: &'a F,
    pub(crate) path: &'a str,
    /// The bytes of the texts that were taken before.
    pub(crate) taken: usize,
}

impl<'a, F: FileReader> Place<'a, F> {
    /// Reads what a profile takes in, as far as it isn't known: each file once, in the order in which lines ask for them. What was read
    /// for other profiles of the folder is known with all that it asks for.
    pub(crate) fn fill(&self, folder: &mut Folder, name: &str) -> Result<(), Untaken>
        requires { Agrees (F.reads self.now.reader.now) self.now.path.now (known_of folder.old) }
        ensures ok { OnOk result (Agrees (F.reads self.now.reader.now) self.now.path.now (known_of folder.new)) }
        ensures keeps { OnOk result (KeepsKnown (known_of folder.old) (known_of folder.new)) }
        ensures err { IfErr result
            (IsUntaken (F.reads self.now.reader.now) self.now.path.now name.now) }
    {
        let mut waiting = Waiting::new(self.alloc);
        waiting.begin(folder, name)?;
        for _ in 0..=MOST_FILES {
            let Some(wanted) = waiting.next_unread(folder)? else {
                return Ok(());
            };
            match self.read(wanted.name.as_str()) {
                Ok(bytes) => self.note(folder, &wanted, bytes)?,
                Err(fault) => return self.unless_wrong(folder, name, fault),
            }
            waiting.add(folder, &wanted)?;
        }
        Err(self.too_many(name))
    }

    /// Reads a file, if it is there. If it can't be read, no profile of the folder that asks for it can be told.
    fn read(&self, name: &str) -> Result<Option<Items<u8>>, Untaken>
        ensures ok { IfOk result (λ b. IfSome (F.reads self.now.reader.now (self.now.path.now ++ name.now))
            (λ r. r ≡ read_as b)) }
        ensures err { (own : List ℕ) → IfErr result
            (IsUntaken (F.reads self.now.reader.now) self.now.path.now own) }
    {
        let path = self.path_of(name)?;
        match self.reader.read_file(self.alloc, path.as_str()) {
            Ok(bytes) => Ok(Some(Items::from_vec(bytes))),
            Err(Unread::File(ReadFault::Missing(_))) => Ok(None),
            Err(Unread::File(wrong)) => Err(Untaken::File(path, wrong)),
            Err(Unread::OutOfMemory) => Err(Untaken::OutOfMemory),
        }
    }

    /// Notes what a file was read as.
    fn note(
        &self,
        folder: &mut Folder,
        wanted: &Wanted,
        bytes: Option<Items<u8>>,
    ) -> Result<(), AllocError>
        requires known { Agrees (F.reads self.now.reader.now) self.now.path.now (known_of folder.old) }
        requires read { IfSome (F.reads self.now.reader.now
            (self.now.path.now ++ string_bytes wanted.now.name)) (λ r. r ≡ read_as bytes) }
        ensures agrees { OnOk result
            (Agrees (F.reads self.now.reader.now) self.now.path.now (known_of folder.new)) }
        ensures noted { OnOk result
            (known_of folder.new (string_bytes wanted.now.name) ≡ Some bytes) }
        ensures others { OnOk result
            (ChangesOnlyAt folder.old folder.new (string_bytes wanted.now.name)) }
    {
        let name = String::from_str(self.alloc, wanted.name.as_str())?;
        folder.put(name, bytes)
    }

    /// A file can't be read: that is what is wrong, unless a line before the one that asks for it can't be followed.
    fn unless_wrong(&self, folder: &Folder, name: &str, fault: Untaken) -> Result<(), Untaken>
        ensures { IfErr result (λ e. e ≡ fault) }
    {
        match lines_of(self.alloc, folder, name) {
            Err(LinesFault::Line(_)) => Ok(()),
            _ => Err(fault),
        }
    }

    /// Reads the file of a profile.
    pub(crate) fn learn_own(&self, folder: &mut Folder, name: &str) -> Result<(), Untaken>
        requires { Agrees (F.reads self.now.reader.now) self.now.path.now (known_of folder.old) }
        ensures ok { OnOk result (Agrees (F.reads self.now.reader.now) self.now.path.now (known_of folder.new)) }
        ensures there { OnOk result (IsThere (known_of folder.new) name.now) }
        ensures err { IfErr result
            (IsUntaken (F.reads self.now.reader.now) self.now.path.now name.now) }
    {
        let path = self.path_of(name)?;
        match self.reader.read_file(self.alloc, path.as_str()) {
            Ok(bytes) => {
                let name = String::from_str(self.alloc, name)?;
                folder.put(name, Some(Items::from_vec(bytes)))?;
                Ok(())
            }
            Err(Unread::File(fault)) => Err(Untaken::File(path, fault)),
            Err(Unread::OutOfMemory) => Err(Untaken::OutOfMemory),
        }
    }

    /// Too many files were looked for.
    fn too_many(&self, name: &str) -> Untaken
        ensures { ShowsTooMany (F.reads self.now.reader.now) self.now.path.now name.now result }
    {
        match self.path_of(name) {
            Ok(path) => Untaken::TooManyFiles(path),
            Err(_) => Untaken::OutOfMemory,
        }
    }

    /// The path of the file of this name.
    pub(crate) fn path_of(&self, name: &str) -> Result<String, AllocError>
        ensures { IfOk result (λ p. string_bytes p ≡ self.now.path.now ++ name.now) }
    {
        let mut path = String::from_str(self.alloc, self.path)?;
        path.push_str(name)?;
        Ok(path)
    }
}
