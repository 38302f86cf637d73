//! Files, read by their names.
ghost use Rattle.std.specs.Prelude.{◌≡◌, Option, None, Some, IfOk, IfSome, IsErrOf};
ghost use Rattle.hub_folder.specs.declared.reader.ReadFault.TheVariants.{TurnsSpent};
ghost use Rattle.hubsync.specs.Reading as spec;
ghost use Rattle.hubsync.specs.Reading.{IsTooLong};

use crate::captured::{Captured, Prefix};
use hub_bundle::{InputFault, READ_TURNS, read_input};
use hub_folder::{FileReader, ReadFault, Unread};
use hub_path::{PathFault, Root};
use hub_text::Watched;
use std::alloc::{AllocError, Global};
use std::cell::RefCell;
use std::fs::{File, Files, read_dir};
use std::io;
use std::io::Read;

/// The files of the system. What they have and where they are, no contract can tell.
#[derive(Drop)]
pub struct SystemFiles<'a, T> {
    rt: &'a T,
    here: Option<String>,
}

impl<'a, T> SystemFiles<'a, T> {
    /// The files of the system. A relative path is one below `here`; if that isn't known, the folder of such a file can't be told.
    pub fn new(rt: &'a T, here: Option<String>) -> SystemFiles<'a, T> {
        SystemFiles { rt, here }
    }
}

impl<'a, T: Files + Alloc + Clone + Drop> FileReader for SystemFiles<'a, T> {
    ghost reads = { λ _ _. None };

    ghost lists = { λ _ _. None };

    ghost folders = { λ _ _. None };

    /// Reads a file as `read_input` reads an input.
    fn read_file(&self, alloc: Global, file: &str) -> Result<Vec<u8>, Unread> {
        match File::open(self.rt, file) {
            Ok(file) => read_to_end(alloc, file),
            Err(error) => Err(unread_by(Some(error))),
        }
    }

    /// The names in a folder, in the order of their bytes. One that isn't UTF-8 can't be told.
    fn list_folder(&self, alloc: Global, folder: &str) -> Result<Vec<String>, Unread> {
        match names_in(self.rt, alloc, folder) {
            Ok(names) => Ok(names),
            Err(error) => Err(unread_by(Some(error))),
        }
    }

    /// The folder that a file is in, by its path alone: a `..` takes away the name before it, and no link is followed.
    fn folder_of(&self, alloc: Global, file: &str) -> Result<Option<Root>, AllocError> {
        let here = self.here.as_ref().map(|path| path.as_str());
        match names_of_folder(alloc, here, file)? {
            Some(names) => root_with(alloc, names.as_slice()),
            None => Ok(None),
        }
    }
}

/// The names of the folder of a file from the top of the file system, if that can be told.
fn names_of_folder<'a>(
    alloc: Global,
    here: Option<&'a str>,
    file: &'a str,
) -> Result<Option<Vec<&'a str>>, AllocError> {
    let mut names = Vec::new(alloc);
    if !file.starts_with("/") {
        let Some(here) = here else {
            return Ok(None);
        };
        push_names(&mut names, here)?;
    }
    if let Some((folder, _)) = file.rsplit_once('/') {
        push_names(&mut names, folder)?;
    }
    Ok(Some(names))
}

/// Adds the names of a path. A `..` takes away the last one.
fn push_names<'a>(names: &mut Vec<&'a str>, path: &'a str) -> Result<(), AllocError> {
    for name in path.split('/') {
        if name == ".." {
            let _ = names.pop();
        } else if !name.is_empty() && name != "." {
            names.push(name)?;
        }
    }
    Ok(())
}

/// The root of these names, if they are names of a path.
fn root_with(alloc: Global, names: &[&str]) -> Result<Option<Root>, AllocError> {
    let mut text = String::new(alloc);
    for name in names {
        text.push('/')?;
        text.push_str(*name)?;
    }
    if names.is_empty() {
        text.push('/')?;
    }
    match Root::read(alloc, text.as_str()) {
        Ok(root) => Ok(Some(root)),
        Err(PathFault::OutOfMemory) => Err(AllocError),
        Err(_) => Ok(None),
    }
}

/// The names in a folder, sorted.
fn names_in<T: Files + Alloc + Clone + Drop>(
    rt: &T,
    alloc: Global,
    folder: &str,
) -> io::Result<Vec<String>> {
    let mut names = Vec::new(alloc);
    for entry in read_dir(rt, folder)? {
        let entry = entry?;
        names.push(String::from_str(alloc, entry.file_name())?)?;
    }
    names.sort()?;
    Ok(names)
}

/// Reads all bytes that a device has.
fn read_to_end<R: Read + Drop>(alloc: Global, device: R) -> Result<Vec<u8>, Unread>
    ensures whole { IfOk result (λ v. IfSome (R.remaining device) (λ bytes. v.items ≡ bytes)) }
    ensures turns_spent { IsErrOf result (Unread.File TurnsSpent)
        → IfSome (R.remaining device) IsTooLong }
{
    let prefix = RefCell::new(Prefix::new(alloc, 0));
    let mut input = Watched::new(Captured::new(device, &prefix));
    match read_input(alloc, &mut input) {
        Ok(bytes) => Ok(bytes),
        Err(InputFault::ReadFailed) => Err(unread_by(error_of(&prefix))),
        Err(InputFault::TurnsSpent) => Err(Unread::File(ReadFault::TurnsSpent)),
        Err(InputFault::OutOfMemory) => Err(Unread::OutOfMemory),
    }
}

/// The last error of a device.
fn error_of(prefix: &RefCell<Prefix>) -> Option<io::Error> {
    match prefix.try_borrow() {
        Ok(prefix) => prefix.error(),
        Err(_) => None,
    }
}

/// Why a file wasn't read, by the system's error.
fn unread_by(error: Option<io::Error>) -> Unread
    ensures { result ≡ spec.unread_of error }
{
    match error {
        Some(error) => unread_of_kind(error.kind(), error),
        None => Unread::File(ReadFault::ReadFailed(None)),
    }
}

/// Why a file wasn't read, by the system's error of that kind.
fn unread_of_kind(kind: io::ErrorKind, error: io::Error) -> Unread
    ensures { result ≡ spec.unread_of_kind kind (Some error) }
{
    match kind {
        io::ErrorKind::OutOfMemory => Unread::OutOfMemory,
        io::ErrorKind::NotFound => Unread::File(ReadFault::Missing(Some(error))),
        _ => Unread::File(ReadFault::ReadFailed(Some(error))),
    }
}
