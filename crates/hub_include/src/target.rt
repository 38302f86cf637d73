//! What a line takes in.
ghost use Rattle.std.specs.Prelude.{◌≡◌, IfOk, Some, string_bytes};
ghost use Rattle.hub_include.specs.Asking.{of_bytes};
ghost use Rattle.hub_include.specs.Files.{known_of};
ghost use Rattle.hub_include.specs.Targets as targets;
ghost use Rattle.hub_include.specs.Targets.{of_target};
ghost use Rattle.hub_include.specs.declared.target.Target.TheVariants as target;

use crate::fault::Why;
use crate::folder::{File, Folder, Found};
use crate::word::{Asked, asked_by, name_in};
use hub_text::{Items, without_last_cr};
use std::alloc::{AllocError, Global};

/// What a line takes in.
#[derive(Debug, Drop)]
pub enum Target<F> {
    /// Nothing: it includes no file, or one that may be missing.
    Nothing,
    /// This file.
    Taken(F),
    /// It can't be followed.
    Wrong(Why),
    /// Nobody has looked for the file of this name.
    Unread(Items<u8>),
}

/// A file of a folder.
pub(crate) type HeldFile<'a> = File<&'a str, &'a [u8]>;

/// What a line takes in. All names are below the folder of the profile, also in a file of a sub-folder.
///
/// `include NAME` takes the file NAME, or NAME.prf if there is no NAME. `source NAME` takes NAME alone. With a `?` after the word the file
/// may be missing. Observed with Unison 2.52.1.
pub(crate) fn target_of<'a>(
    alloc: Global,
    folder: &'a Folder,
    line: &[u8],
) -> Result<Target<HeldFile<'a>>, AllocError>
    ensures { IfOk result (λ t. of_target t ≡ targets.target_of (known_of folder.now) line.now) }
{
    let Some(asked) = asked_by(without_last_cr(line)) else {
        return Ok(Target::Nothing);
    };
    match name_in(alloc, asked.names)? {
        Some(name) => taken_by_name(alloc, folder, asked, name),
        None => Ok(Target::Wrong(Why::BadLine)),
    }
}

/// What is taken by a name.
fn taken_by_name<'a>(
    alloc: Global,
    folder: &'a Folder,
    asked: Asked<&[u8]>,
    name: String,
) -> Result<Target<HeldFile<'a>>, AllocError>
    ensures { IfOk result (λ t. of_target t
        ≡ targets.taken_for folder.now asked.entry (string_bytes name)) }
{
    match folder.find(name.as_str()) {
        Found::There(file) => Ok(Target::Taken(file)),
        Found::Unread => Ok(unread(name)),
        Found::Absent if asked.has_ending => taken_with_ending(alloc, folder, asked, name.as_str()),
        Found::Absent => Ok(absent(asked)),
    }
}

/// What is taken by a name with `.prf`.
fn taken_with_ending<'a>(
    alloc: Global,
    folder: &'a Folder,
    asked: Asked<&[u8]>,
    name: &str,
) -> Result<Target<HeldFile<'a>>, AllocError>
    ensures { IfOk result (λ t. of_target t
        ≡ targets.taken_longer_for folder.now asked.entry name.now) }
{
    let mut longer = String::from_str(alloc, name)?;
    longer.push_str(".prf")?;
    match folder.find(longer.as_str()) {
        Found::There(file) => Ok(Target::Taken(file)),
        Found::Unread => Ok(unread(longer)),
        Found::Absent => Ok(absent(asked)),
    }
}

/// Nobody has looked for this name.
fn unread<'a>(name: String) -> Target<HeldFile<'a>>
    ensures { of_target result ≡ target.Unread (string_bytes name) }
{
    Target::Unread(Items::from_vec(name.into_bytes()))
}

/// There is no file.
fn absent<'a>(asked: Asked<&[u8]>) -> Target<HeldFile<'a>>
    ensures { of_target result ≡ targets.absent (of_bytes asked.entry) }
{
    if asked.may_be_missing {
        Target::Nothing
    } else {
        Target::Wrong(Why::NoFile)
    }
}
