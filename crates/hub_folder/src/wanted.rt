//! The files that lines ask for, in their order.
//!
//! Of these names it is stated only that nobody has looked for them. What a profile takes in is stated by `hub_include::lines_of`.
ghost use Rattle.std.specs.Prelude.{IfOk, IfSome};
ghost use Rattle.hub_folder.specs.Wanted.{IsUnknown};

use hub_include::{Asked, Folder, Found, asked_by, name_in};
use hub_text::{Lines, without_last_cr};
use std::alloc::{AllocError, Global};

/// A file that a line asks for.
#[derive(Drop)]
pub(crate) struct Wanted {
    /// Its name.
    pub(crate) name: String,
    /// Whether the name with `.prf` is looked for, if there is none of this name.
    pub(crate) has_ending: bool,
}

/// Files that are to be looked for. The last one is the next.
#[derive(Drop)]
pub(crate) struct Waiting {
    alloc: Global,
    files: Vec<Wanted>,
}

impl Waiting {
    /// None.
    pub(crate) fn new(alloc: Global) -> Waiting {
        Waiting {
            alloc,
            files: Vec::new(alloc),
        }
    }

    /// Adds the file of a profile, or what it asks for if it is known.
    pub(crate) fn begin(&mut self, folder: &Folder, name: &str) -> Result<(), AllocError> {
        let own = Wanted {
            name: String::from_str(self.alloc, name)?,
            has_ending: false,
        };
        match folder.find(name) {
            Found::There(file) => self.add_asked(file.bytes),
            Found::Absent | Found::Unread => {
                self.files.push(own)?;
                Ok(())
            }
        }
    }

    /// Adds what this file asks for, so that its first line comes next; or the name with `.prf`, if there is no such file and that is to
    /// be looked for.
    pub(crate) fn add(&mut self, folder: &Folder, wanted: &Wanted) -> Result<(), AllocError> {
        match folder.find(wanted.name.as_str()) {
            Found::There(file) => self.add_asked(file.bytes),
            Found::Absent if wanted.has_ending => self.add_longer(wanted.name.as_str()),
            Found::Absent | Found::Unread => Ok(()),
        }
    }

    /// Adds what these lines ask for.
    fn add_asked(&mut self, bytes: &[u8]) -> Result<(), AllocError> {
        let asked = asked_in(self.alloc, bytes)?;
        for wanted in asked.into_iter().rev() {
            self.files.push(wanted)?;
        }
        Ok(())
    }

    /// Adds the name with `.prf`.
    fn add_longer(&mut self, name: &str) -> Result<(), AllocError> {
        let name = with_ending(self.alloc, name)?;
        self.files.push(Wanted {
            name,
            has_ending: false,
        })?;
        Ok(())
    }

    /// Takes the next file for which nobody has looked yet. Those before it are dropped.
    pub(crate) fn next_unread(&mut self, folder: &Folder) -> Result<Option<Wanted>, AllocError>
        ensures { IfOk result (λ w. IfSome w (IsUnknown folder.now)) }
    {
        while let Some(wanted) = self.files.pop() {
            if let Some(unread) = unread_of(self.alloc, folder, wanted)? {
                return Ok(Some(unread));
            }
        }
        Ok(None)
    }
}

/// The file that has to be looked for, if there is one: this one, or that of the name with `.prf`.
fn unread_of(alloc: Global, folder: &Folder, wanted: Wanted) -> Result<Option<Wanted>, AllocError>
    ensures { IfOk result (λ w. IfSome w (IsUnknown folder.now)) }
{
    match folder.find(wanted.name.as_str()) {
        Found::Unread => Ok(Some(wanted)),
        Found::Absent if wanted.has_ending => unread_longer(alloc, folder, wanted.name.as_str()),
        Found::Absent | Found::There(_) => Ok(None),
    }
}

/// The name with `.prf`, if nobody has looked for it.
fn unread_longer(alloc: Global, folder: &Folder, name: &str) -> Result<Option<Wanted>, AllocError>
    ensures { IfOk result (λ w. IfSome w (IsUnknown folder.now)) }
{
    let name = with_ending(alloc, name)?;
    match folder.find(name.as_str()) {
        Found::Unread => Ok(Some(Wanted {
            name,
            has_ending: false,
        })),
        Found::Absent | Found::There(_) => Ok(None),
    }
}

/// A name with `.prf`.
fn with_ending(alloc: Global, name: &str) -> Result<String, AllocError> {
    let mut longer = String::from_str(alloc, name)?;
    longer.push_str(".prf")?;
    Ok(longer)
}

/// What the lines of a file ask for, in their order.
fn asked_in(alloc: Global, bytes: &[u8]) -> Result<Vec<Wanted>, AllocError> {
    let mut asked = Vec::new(alloc);
    for line in Lines::new(bytes.strip_prefix(b"\xef\xbb\xbf").unwrap_or(bytes)) {
        if let Some(by) = asked_by(without_last_cr(line.text)) {
            push_wanted(alloc, &mut asked, by)?;
        }
    }
    Ok(asked)
}

/// Adds the file that a line asks for, if it names one.
fn push_wanted(alloc: Global, asked: &mut Vec<Wanted>, by: Asked<&[u8]>) -> Result<(), AllocError> {
    if let Some(name) = name_in(alloc, by.names)? {
        asked.push(Wanted {
            name,
            has_ending: by.has_ending,
        })?;
    }
    Ok(())
}
