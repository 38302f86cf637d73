//! The folders of the profiles that were read.
ghost use Rattle.std.specs.Prelude.{◌≡◌, IfOk, OnOk};
ghost use Rattle.std.specs.List.{Contains, list_any};
ghost use Rattle.hub_path.specs.Path.{path_eq};
ghost use Rattle.hubsync.specs.Bundled.{disk_of};
ghost use Rattle.hubsync.specs.Named.{AddsFolder, AreAmong, HoldFolders, OfReading, is_of_profile};

use crate::files::Held;
use hub_bundle::Kind;
use hub_folder::FileReader;
use hub_path::Root;
use std::alloc::{AllocError, Global};

/// The folders of the profiles that were read for Unison, as far as they can be told, each once. Unison has its archives there.
pub fn folders_of<F: FileReader>(
    alloc: Global,
    reader: &F,
    is_for_unison: bool,
    held: &[Held<'_>],
) -> Result<Vec<Root>, AllocError>
    ensures { OfReading is_for_unison (λ sources. IfOk result (λ v. HoldFolders
        (disk_of F.reads F.lists F.folders reader.now) sources held.now v.items)) }
{
    let mut folders = Vec::new(alloc);
    if !is_for_unison {
        return Ok(folders);
    }
    for one in held {
        push_folder(alloc, reader, one, &mut folders)?;
    }
    Ok(folders)
}

/// Adds the folder of a profile's file, if that can be told and isn't there.
fn push_folder<F: FileReader>(
    alloc: Global,
    reader: &F,
    one: &Held<'_>,
    folders: &mut Vec<Root>,
) -> Result<(), AllocError>
    ensures added { OnOk result (AddsFolder (F.folders reader.now) one.now folders.new.items) }
    ensures kept { OnOk result (AreAmong folders.old.items folders.new.items) }
{
    if !is_profile(one) {
        return Ok(());
    }
    match reader.folder_of(alloc, one.file.as_str())? {
        Some(folder) => push_new(folders, folder),
        None => Ok(()),
    }
}

/// Returns whether a file is that of a profile.
fn is_profile(one: &Held<'_>) -> bool
    ensures { result ≡ is_of_profile one.now.kind }
{
    matches!(one.kind, Kind::Profile)
}

/// Adds a folder, if it isn't there.
fn push_new(folders: &mut Vec<Root>, folder: Root) -> Result<(), AllocError>
    ensures added { OnOk result (Contains folders.new.items folder) }
    ensures kept { OnOk result (AreAmong folders.old.items folders.new.items) }
{
    if has(folders.as_slice(), &folder) {
        return Ok(());
    }
    folders.push(folder)?;
    Ok(())
}

/// Returns whether a folder is there.
fn has(folders: &[Root], folder: &Root) -> bool
    ensures { result ≡ list_any (λ f. path_eq f folder.now) folders.now }
{
    folders.iter().any(|other| other == folder)
}
