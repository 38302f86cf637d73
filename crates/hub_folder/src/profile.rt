//! The profile in a file.
ghost use Rattle.std.specs.Prelude.{◌≡◌, ◌≤◌, ◌+◌, ◌++◌, [], length, string_bytes, IfErr, IfOk};
ghost use Rattle.hub_folder.specs.Taken.{Agrees, IsCut, IsProfile, IsText, IsThere, IsUntakenAlone, IsUntakenFile, ShowsUntold};
ghost use Rattle.hub_folder.specs.declared.shelf.TheConstants.{INCLUDED_BYTES};
ghost use Rattle.hub_include.specs.Files.{known_of};

use crate::fault::Untaken;
use crate::folder::{FolderProfile, profile_of};
use crate::reader::FileReader;
use crate::shelf::Place;
use hub_include::{Folder, LinesFault};
use std::alloc::{AllocError, Global};

/// A file's path: that of its folder, with the last `/`, and its name there.
#[derive(Drop)]
pub(crate) struct Cut<'a> {
    pub(crate) place: String,
    pub(crate) name: &'a str,
}

/// Cuts a path behind its last `/`.
fn parts_of(alloc: Global, path: &str) -> Result<Cut<'_>, AllocError>
    ensures { IfOk result (λ c. IsCut path.now (string_bytes c.place) c.name.now) }
{
    match path.rsplit_once('/') {
        Some((folder, name)) => {
            let mut place = String::from_str(alloc, folder)?;
            place.push('/')?;
            Ok(Cut { place, name })
        }
        None => Ok(Cut {
            place: String::new(alloc),
            name: path,
        }),
    }
}

/// The profile in the file of this path, with the lines of the files that it includes. So many bytes of texts were taken before.
pub(crate) fn profile_in<F: FileReader>(
    alloc: Global,
    reader: &F,
    path: &str,
    taken: usize,
) -> Result<FolderProfile, Untaken>
    requires { taken ≤ INCLUDED_BYTES }
    ensures path { IfOk result (λ p. string_bytes p.path ≡ path.now) }
    ensures text { IfOk result (λ p. IsProfile (F.reads reader.now) path.now p.text.items) }
    ensures left_out { IfOk result (λ p. p.left_out.items ≡ []) }
    ensures fits { IfOk result (λ p. taken + length p.text.items ≤ INCLUDED_BYTES) }
    ensures err { IfErr result (IsUntakenFile (F.reads reader.now) taken path.now) }
{
    let Cut { place, name } = parts_of(alloc, path)?;
    let place = Place {
        alloc,
        reader,
        path: place.as_str(),
        taken,
    };
    let mut folder = Folder::new(alloc);
    place.learn_own(&mut folder, name)?;
    place.fill(&mut folder, name)?;
    place.profile(&folder, name)
}

impl<'a, F: FileReader> Place<'a, F> {
    /// The profile of this name.
    fn profile(&self, folder: &Folder, name: &str) -> Result<FolderProfile, Untaken>
        requires known { Agrees (F.reads self.now.reader.now) self.now.path.now (known_of folder.now) }
        requires there { IsThere (known_of folder.now) name.now }
        requires taken { self.now.taken ≤ INCLUDED_BYTES }
        ensures path { IfOk result (λ p. string_bytes p.path ≡ self.now.path.now ++ name.now) }
        ensures text { IfOk result
            (λ p. IsText (F.reads self.now.reader.now) self.now.path.now name.now p.text.items) }
        ensures left_out { IfOk result (λ p. p.left_out.items ≡ []) }
        ensures fits { IfOk result (λ p. self.now.taken + length p.text.items ≤ INCLUDED_BYTES) }
        ensures err { IfErr result (IsUntakenAlone (F.reads self.now.reader.now) self.now.path.now
            self.now.taken name.now) }
    {
        let told = self.tell(folder, name)?;
        self.bytes_with(self.taken, &told)?;
        Ok(profile_of(self.alloc, self.path, &told, Vec::new(self.alloc))?)
    }

    /// Why the lines of a file can't be told.
    pub(crate) fn untaken(&self, name: &str, fault: LinesFault) -> Untaken
        ensures { ShowsUntold self.now.path.now name.now fault result }
    {
        match fault {
            LinesFault::Line(fault) => match self.path_of("") {
                Ok(place) => Untaken::Line(place, fault),
                Err(_) => Untaken::OutOfMemory,
            },
            LinesFault::NoProfile => match self.path_of(name) {
                Ok(path) => Untaken::Gone(path),
                Err(_) => Untaken::OutOfMemory,
            },
            // Nothing is unread: each file that a line asks for was looked for.
            LinesFault::Unread(_) | LinesFault::OutOfMemory => Untaken::OutOfMemory,
        }
    }
}
