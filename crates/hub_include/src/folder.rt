//! What is known of the files of a folder.
ghost use Rattle.std.specs.Prelude.{◌≡◌, ℕ, List, OnOk, None, Some, string_bytes};
ghost use Rattle.hub_include.specs.Files as files;

use hub_text::Items;
use std::alloc::{AllocError, Global};
use std::collections::BTreeMap;

/// A file: its name below the folder, and its bytes.
#[derive(Clone, Copy, Debug, PartialEq, Eq)]
pub struct File<N, B> {
    /// Its name, as `common` or `sub/common.prf`.
    pub name: N,
    /// Its bytes.
    pub bytes: B,
}

/// What is found by a name.
#[derive(Clone, Copy, Debug, PartialEq, Eq)]
pub enum Found<F> {
    /// This file.
    There(F),
    /// There is no file of this name.
    Absent,
    /// It isn't known whether there is one: nobody has looked.
    Unread,
}

/// What is known of the files of a folder, by their names.
///
/// Each file is put in once, so all profiles of a folder are read over the same bytes.
#[derive(Drop)]
pub struct Folder {
    files: BTreeMap<String, Option<Items<u8>>>,
}

impl Folder {
    /// Knows nothing.
    pub fn new(alloc: Global) -> Folder
        ensures { (name : List ℕ) → files.known_of result name ≡ None }
    {
        Folder {
            files: BTreeMap::new(alloc),
        }
    }

    /// Notes the bytes of a file, or that there is none of this name.
    pub fn put(&mut self, name: String, bytes: Option<Items<u8>>) -> Result<(), AllocError>
        ensures put { OnOk result (files.known_of self.new (string_bytes name) ≡ Some bytes) }
        ensures others { OnOk result (files.ChangesOnlyAt self.old self.new (string_bytes name)) }
    {
        match self.files.insert(name, bytes) {
            Ok(_) => Ok(()),
            Err(_) => Err(AllocError),
        }
    }

    /// What is found by a name.
    pub fn find(&self, name: &str) -> Found<File<&str, &[u8]>>
        ensures { files.of_found result ≡ files.find (files.known_of self.now) name.now }
    {
        match self.files.get_key_value(name) {
            None => Found::Unread,
            Some((name, bytes)) => found_as(name.as_str(), bytes),
        }
    }
}

/// What is found by a name that somebody looked for.
fn found_as<'a>(name: &'a str, bytes: &'a Option<Items<u8>>) -> Found<File<&'a str, &'a [u8]>>
    ensures { files.of_found result ≡ files.found_as name.now (Some bytes.now) }
{
    match bytes {
        Some(bytes) => Found::There(File {
            name,
            bytes: bytes.as_slice(),
        }),
        None => Found::Absent,
    }
}
