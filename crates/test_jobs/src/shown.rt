//! How answers show values. A mark is shown as `d`, `-` or the digest of the file.

use anyhow::Result;
use hub_job::{Next, Op};
use hub_path::{RelPath, Side};
use hub_reconcile::{Fate, Item};
use hub_tree::{Archive, Mark};
use std::alloc::Global;
use test_cases::kind_of;
use test_kit::list_of;

/// How a mark is shown.
pub(crate) fn mark_text(alloc: Global, mark: Mark) -> Result<String> {
    match mark {
        Mark::File(digest) => Ok(hex::encode(alloc, digest.as_slice())?),
        Mark::Directory => Ok(String::from_str(alloc, "d")?),
        Mark::Absent => Ok(String::from_str(alloc, "-")?),
    }
}

/// What a job does next.
pub(crate) fn next_text(alloc: Global, next: &Next) -> Result<String> {
    match next {
        Next::Ask(side, op) => asked_text(alloc, *side, op),
        Next::Finished => Ok(String::from_str(alloc, "finished")?),
        Next::Stopped => Ok(String::from_str(alloc, "stopped")?),
    }
}

fn asked_text(alloc: Global, side: Side, op: &Op) -> Result<String> {
    match op {
        Op::Look(path) => place_text(alloc, side, "look", path),
        Op::Fetch(path) => place_text(alloc, side, "fetch", path),
        Op::Set(path, contents) => place_text(alloc, side, kind_of(contents.mark()), path),
    }
}

fn place_text(alloc: Global, side: Side, word: &str, path: &RelPath) -> Result<String> {
    let path = path_text(alloc, path)?;
    Ok(format!(in alloc; "{side:?} {word} {path}")?)
}

/// A path, as questions give it.
fn path_text(alloc: Global, path: &RelPath) -> Result<String> {
    if path.len() == 0 {
        return Ok(String::from_str(alloc, ".")?);
    }
    Ok(path.text()?)
}

/// The items of a job.
pub(crate) fn items_text(alloc: Global, items: &[Item]) -> Result<String> {
    list_of(alloc, items, |item| item_text(alloc, item))
}

fn item_text(alloc: Global, item: &Item) -> Result<String> {
    let path = path_text(alloc, &item.path)?;
    match item.fate {
        Fate::To(side) => Ok(format!(in alloc; "to {side:?} {path}")?),
        Fate::Skip(reason) => Ok(format!(in alloc; "skip {reason:?} {path}")?),
    }
}

/// The paths of the next archive, if there is one.
pub(crate) fn archive_text(alloc: Global, archive: &Option<Archive>) -> Result<String> {
    match archive {
        Some(archive) => paths_text(alloc, archive.paths()?.as_slice()),
        None => Ok(String::from_str(alloc, "no archive")?),
    }
}

/// How paths are shown.
pub(crate) fn paths_text(alloc: Global, paths: &[RelPath]) -> Result<String> {
    list_of(alloc, paths, |path| path_text(alloc, path))
}
