//! Paths that are read one after the other.
ghost use Rattle.std.specs.Prelude.{◌≡◌, ◌++◌, ◌∷◌, [], None, Ok, Err, IfOk, IfErr, IfSome, IsTrue};
ghost use Rattle.hub_state.specs.Reading.{FailsReading};
ghost use Rattle.hub_path.specs.Path.{is_path};
ghost use Rattle.hub_path.specs.Reading.{names_fault};
ghost use Rattle.hub_state.specs.forms.Near.{IsReadFrom};
ghost use Rattle.hub_state.specs.Reading.{path_field};

use crate::fault::Fault;
use crate::line::path_in;
use hub_path::{Name, PATH_NAMES, PathFault, RelPath};
use std::alloc::{AllocError, Global};
use std::marker::Model;
use std::mem::replace;

/// Reads paths, which share names with the path before: those in the folder of that path, and those in that path itself.
///
/// What is read doesn't depend on what was read before. So contracts see nothing here.
#[derive(Drop)]
pub struct Near {
    alloc: Global,
    folder: RelPath,
    last: RelPath,
}

impl Model for Near {
    ghost use Rattle.std.specs.Prelude.{◌≡◌, None};
    ghost use Rattle.hub_path.specs.Reading.{names_fault};

    ghost Value = { Unit {0} };

    ghost view = { λ a. tt };

    ghost invariant = { λ a.
        (names_fault 0 a.folder ≡ None) × (names_fault 0 a.last ≡ None) };
}

impl Near {
    /// No path was read.
    pub fn new(alloc: Global) -> Near {
        Near {
            alloc,
            folder: RelPath::top(alloc),
            last: RelPath::top(alloc),
        }
    }

    /// The path in a field.
    pub fn read(&mut self, field: &str) -> Result<RelPath, Fault>
        ensures ok { IfOk result (λ p. path_field field.now ≡ Ok p) }
        ensures valid { IfOk result (λ p. IsTrue (is_path p)) }
        ensures err { IfErr result (FailsReading (path_field field.now)) }
    {
        if let Some(path) = read_below(self.alloc, &self.last, field)? {
            let folder = replace(&mut self.last, path.copy()?);
            self.folder = folder;
            return Ok(path);
        }
        if let Some(path) = read_below(self.alloc, &self.folder, field)? {
            self.last = path.copy()?;
            return Ok(path);
        }
        self.read_apart(field)
    }

    /// The path in a field, which shares nothing.
    fn read_apart(&mut self, field: &str) -> Result<RelPath, Fault>
        ensures ok { IfOk result (λ p. path_field field.now ≡ Ok p) }
        ensures valid { IfOk result (λ p. IsTrue (is_path p)) }
        ensures err { IfErr result (FailsReading (path_field field.now)) }
    {
        let path = path_in(self.alloc, field)?;
        let folder = folder_of(self.alloc, &path)?;
        self.last = path.copy()?;
        self.folder = folder;
        Ok(path)
    }
}

/// The folder of a path.
fn folder_of(alloc: Global, path: &RelPath) -> Result<RelPath, AllocError>
    requires { names_fault 0 path.now ≡ None }
    ensures { IfOk result (λ p. names_fault 0 p ≡ None) }
{
    match path.parent()? {
        Some(folder) => Ok(folder),
        None => Ok(RelPath::top(alloc)),
    }
}

/// The path in a field, if it is that of a folder with one more name. It shares the names of the folder.
fn read_below(alloc: Global, folder: &RelPath, field: &str) -> Result<Option<RelPath>, Fault>
    requires { names_fault 0 folder.now ≡ None }
    ensures ok { IfOk result (λ o. IfSome o (IsReadFrom field.now)) }
    ensures err { IfErr result (λ e. e ≡ Fault.OutOfMemory) }
{
    if folder.len() >= PATH_NAMES {
        return Ok(None);
    }
    let Some(name) = below(folder, field) else {
        return Ok(None);
    };
    match Name::read(alloc, name) {
        Ok(name) => Ok(child_with(folder, name, field)?),
        Err(PathFault::OutOfMemory) => Err(Fault::OutOfMemory),
        Err(_) => Ok(None),
    }
}

/// What follows the text of a folder and a slash.
fn below<'a>(folder: &RelPath, text: &'a str) -> Option<&'a str> {
    text.strip_prefix(folder.as_str())?.strip_prefix('/')
}

/// The path of a folder with one more name, if this is its text.
fn child_with(folder: &RelPath, name: Name, text: &str) -> Result<Option<RelPath>, AllocError>
    requires { names_fault 0 (folder.now ++ name ∷ []) ≡ None }
    ensures { IfOk result (λ o. IfSome o (IsReadFrom text.now)) }
{
    let path = folder.child(name)?;
    if path.as_str() == text {
        return Ok(Some(path));
    }
    Ok(None)
}
