//! The profiles of a folder.
ghost use Rattle.std.specs.Prelude.{◌≡◌, ◌≤◌, ◌+◌, ◌++◌, ℕ, Ok, map, string_bytes, IfErr, IfOk, OnOk};
ghost use Rattle.hub_folder.specs.Told.{HoldNotedFolder, HoldProfiles};
ghost use Rattle.hub_folder.specs.Folders.{HasProfileFiles};
ghost use Rattle.hub_folder.specs.Folders as folders;
ghost use Rattle.hub_folder.specs.Folders.{IsUntakenFolder};
ghost use Rattle.hub_folder.specs.Taken.{Agrees, IsUntakenOf, IsUntold};
ghost use Rattle.hub_folder.specs.Told as told_as;
ghost use Rattle.hub_folder.specs.Told.{AreTold, all_bytes_told, file_told, lines_told, path_and_text, paths_left_out, profile_bytes};
ghost use Rattle.hub_folder.specs.declared.shelf.TheConstants.{INCLUDED_BYTES};
ghost use Rattle.hub_include.specs.Files.{known_of};
ghost use Rattle.hub_include.specs.Includes as includes;

use crate::fault::Untaken;
use crate::origins::Origins;
use crate::reader::{FileReader, Unread};
use crate::shelf::{INCLUDED_BYTES, Place};
use crate::told::{Told, is_profile, is_rootless, leaves_out};
use hub_include::{Folder, lines_of, text_of};
use std::alloc::{AllocError, Global};

/// A profile of a folder.
#[derive(Debug, Drop)]
pub struct FolderProfile {
    /// The path of its file.
    pub path: String,
    /// Its text, as a section of a bundle has it.
    pub text: Vec<u8>,
    /// Where the lines of the text come from.
    pub origins: Origins,
    /// The paths of the files that have a root and are no profiles of their folder since this one includes them.
    pub left_out: Vec<String>,
}

/// Profiles that were taken.
#[derive(Debug, Drop)]
pub struct TakenProfiles {
    /// The profiles.
    pub profiles: Vec<FolderProfile>,
    /// The paths of the files of folders that have the ending of a profile, and are none since they set no root, though they say
    /// something else and no other one includes them.
    pub rootless: Vec<String>,
}

/// The profiles of the folder of this path, in the order of their names: its files with the ending `.prf`, but those that have no
/// root, and those that another one includes. (This is this project's choice: Unison takes any name.)
///
/// The lines of each such file must be known, also of one that is no profile. So many bytes of texts were taken before.
pub(crate) fn profiles_in<F: FileReader>(
    alloc: Global,
    reader: &F,
    folder: &str,
    taken: usize,
) -> Result<TakenProfiles, Untaken>
    requires { taken ≤ INCLUDED_BYTES }
    ensures ok { IfOk result (λ v. HoldProfiles (F.reads reader.now) (F.lists reader.now)
        folder.now v.profiles.items) }
    ensures noted { IfOk result
        (HoldNotedFolder (F.reads reader.now) (F.lists reader.now) folder.now) }
    ensures fits { IfOk result (λ v. taken + profile_bytes v.profiles.items ≤ INCLUDED_BYTES) }
    ensures err { IfErr result
        (IsUntakenFolder (F.reads reader.now) (F.lists reader.now) taken folder.now) }
{
    let names = profile_names(alloc, reader, folder)?;
    let path = place_of(alloc, folder)?;
    let place = Place {
        alloc,
        reader,
        path: path.as_str(),
        taken,
    };
    let mut shelf = Folder::new(alloc);
    place.fill_all(&mut shelf, names.as_slice())?;
    let told = place.tell_all(&shelf, names.as_slice())?;
    Ok(TakenProfiles {
        profiles: profiles_of(alloc, path.as_str(), told.as_slice())?,
        rootless: rootless_of(alloc, path.as_str(), told.as_slice())?,
    })
}

/// A folder's path with a `/` at its end.
fn place_of(alloc: Global, folder: &str) -> Result<String, AllocError>
    ensures { IfOk result (λ p. string_bytes p ≡ folders.place_of folder.now) }
{
    let mut path = String::from_str(alloc, folder)?;
    if !folder.as_bytes().ends_with(b"/") {
        path.push_str("/")?;
    }
    Ok(path)
}

/// The names of the files in a folder that have the ending of a profile.
fn profile_names<F: FileReader>(
    alloc: Global,
    reader: &F,
    folder: &str,
) -> Result<Vec<String>, Untaken>
    ensures ok { IfOk result (λ v. HasProfileFiles (F.lists reader.now) folder.now
        (map string_bytes v.items)) }
    ensures err { (taken : ℕ) → IfErr result
        (IsUntakenFolder (F.reads reader.now) (F.lists reader.now) taken folder.now) }
{
    let path = String::from_str(alloc, folder)?;
    match reader.list_folder(alloc, folder) {
        Ok(names) => Ok(with_ending(alloc, names)?),
        Err(Unread::File(fault)) => Err(Untaken::Folder(path, fault)),
        Err(Unread::OutOfMemory) => Err(Untaken::OutOfMemory),
    }
}

/// Those of these names that have the ending of a profile's file.
fn with_ending(alloc: Global, names: Vec<String>) -> Result<Vec<String>, AllocError>
    ensures { IfOk result (λ v. map string_bytes v.items ≡ folders.profile_files (map string_bytes names.items)) }
{
    let mut taken = Vec::new(alloc);
    for name in names {
        if name.as_bytes().ends_with(b".prf") {
            taken.push(name)?;
        }
    }
    Ok(taken)
}

impl<'a, F: FileReader> Place<'a, F> {
    /// Reads what all of these files take in.
    fn fill_all(&self, shelf: &mut Folder, names: &[String]) -> Result<(), Untaken>
        requires { Agrees (F.reads self.now.reader.now) self.now.path.now (known_of shelf.old) }
        ensures ok { OnOk result (Agrees (F.reads self.now.reader.now) self.now.path.now (known_of shelf.new)) }
        ensures err { IfErr result (IsUntakenOf (F.reads self.now.reader.now) self.now.path.now
            self.now.taken (map string_bytes names.now)) }
    {
        for name in names {
            self.fill(shelf, name.as_str())?;
        }
        Ok(())
    }

    /// The lines of all of these files.
    fn tell_all<'n>(&self, shelf: &'n Folder, names: &'n [String]) -> Result<Vec<Told<'n>>, Untaken>
        requires known { Agrees (F.reads self.now.reader.now) self.now.path.now (known_of shelf.now) }
        requires taken { self.now.taken ≤ INCLUDED_BYTES }
        ensures ok { IfOk result (λ v. AreTold (known_of shelf.now) (map string_bytes names.now) v.items) }
        ensures fits { IfOk result (λ v. self.now.taken + all_bytes_told v.items ≤ INCLUDED_BYTES) }
        ensures err { IfErr result (IsUntakenOf (F.reads self.now.reader.now) self.now.path.now
            self.now.taken (map string_bytes names.now)) }
    {
        let mut told = Vec::new(self.alloc);
        let mut bytes = self.taken;
        for name in names {
            let one = self.tell(shelf, name.as_str())?;
            bytes = self.bytes_with(bytes, &one)?;
            told.push(one)?;
        }
        Ok(told)
    }

    /// The lines of a file.
    pub(crate) fn tell<'n>(&self, shelf: &'n Folder, name: &'n str) -> Result<Told<'n>, Untaken>
        ensures ok { IfOk result (λ t. file_told t ≡ name.now) }
        ensures lines { IfOk result (λ t. includes.lines_of (known_of shelf.now) name.now ≡ Ok (lines_told t)) }
        ensures err { IfErr result (IsUntold self.now.path.now (known_of shelf.now) name.now) }
    {
        match lines_of(self.alloc, shelf, name) {
            Ok(lines) => Ok(Told { name, lines }),
            Err(fault) => Err(self.untaken(name, fault)),
        }
    }
}

/// Those of these files that are profiles.
fn profiles_of(
    alloc: Global,
    path: &str,
    told: &[Told<'_>],
) -> Result<Vec<FolderProfile>, AllocError>
    ensures are { IfOk result (λ v. map path_and_text v.items
        ≡ told_as.profiles_told path.now told.now told.now) }
    ensures left_out { IfOk result (λ v. map paths_left_out v.items
        ≡ told_as.left_outs_told path.now told.now told.now) }
{
    let mut profiles = Vec::new(alloc);
    for one in told {
        if is_profile(one, told) {
            let left_out = left_out_by(alloc, path, one, told)?;
            profiles.push(profile_of(alloc, path, one, left_out)?)?;
        }
    }
    Ok(profiles)
}

/// The paths of those of these files that are none since they set no root.
fn rootless_of(alloc: Global, path: &str, told: &[Told<'_>]) -> Result<Vec<String>, AllocError>
    ensures { IfOk result (λ v. map string_bytes v.items
        ≡ told_as.rootless_told path.now told.now told.now) }
{
    let mut rootless = Vec::new(alloc);
    for one in told {
        if is_rootless(one, told) {
            rootless.push(path_of(alloc, path, one.name)?)?;
        }
    }
    Ok(rootless)
}

/// The profile of a file.
pub(crate) fn profile_of(
    alloc: Global,
    path: &str,
    told: &Told<'_>,
    left_out: Vec<String>,
) -> Result<FolderProfile, AllocError>
    ensures is { IfOk result (λ p. path_and_text p ≡ told_as.profile_told path.now told.now) }
    ensures left_out { IfOk result (λ p. p.left_out.items ≡ left_out.items) }
{
    let file = path_of(alloc, path, told.name)?;
    let text = text_of(alloc, told.lines.as_slice())?;
    let origins = Origins::of(alloc, path, told.lines.as_slice())?;
    Ok(FolderProfile {
        path: file,
        text,
        origins,
        left_out,
    })
}

/// The paths of those of these files that have a root, and that this one includes.
fn left_out_by(
    alloc: Global,
    path: &str,
    one: &Told<'_>,
    told: &[Told<'_>],
) -> Result<Vec<String>, AllocError>
    ensures { IfOk result (λ v. map string_bytes v.items
        ≡ told_as.left_out_told path.now told.now one.now) }
{
    let mut left_out = Vec::new(alloc);
    for other in told {
        if leaves_out(one, other) {
            left_out.push(path_of(alloc, path, other.name)?)?;
        }
    }
    Ok(left_out)
}

/// The path of the file of this name.
fn path_of(alloc: Global, path: &str, name: &str) -> Result<String, AllocError>
    ensures { IfOk result (λ p. string_bytes p ≡ path.now ++ name.now) }
{
    let mut file = String::from_str(alloc, path)?;
    file.push_str(name)?;
    Ok(file)
}
