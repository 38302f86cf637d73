//! Steps of a replica and a second one, both empty at first:
//!
//! - `set PATH CONTENTS` sets contents, or answers why it can't.
//! - `mark PATH`, `bytes PATH` (in hexadecimal) and `names PATH`: what is there.
//! - `count`, `paths` and `entries`: all that is there. An entry of a file has the number of its bytes.
//! - `copy` makes the second replica a copy of the first, `swap` swaps both, and `same` asks whether they are the same.

use crate::shown::{mark_text, paths_text};
use anyhow::{Result, bail};
use hub_path::Name;
use hub_tree::{Blob, Place, Stored, Tree};
use std::alloc::{AllocError, Global};
use std::mem;
use std::str::from_utf8;
use test_kit::{
    Subject, answers_to_steps, bytes_of, contents_of, list_text, outcome_text, path_of, yes_or_no,
};

/// The digest of a file's bytes, that of its copy, and the bytes.
pub(crate) fn blob_answer(alloc: Global, field: &str) -> Result<String> {
    let blob = Blob::new(bytes_of(alloc, field)?)?;
    blob_text(alloc, &blob)
}

fn blob_text(alloc: Global, blob: &Blob) -> Result<String> {
    let digest = digest_text(alloc, blob)?;
    let copied = digest_text(alloc, &blob.copy()?)?;
    let bytes = hex::encode(alloc, blob.bytes())?;
    Ok(format!(in alloc; "{digest}, copy {copied}, bytes [{bytes}]")?)
}

fn digest_text(alloc: Global, blob: &Blob) -> Result<String> {
    Ok(hex::encode(alloc, blob.digest().as_slice())?)
}

/// The answers to the steps of two replicas.
pub(crate) fn answers(alloc: Global, steps: &str) -> Result<String> {
    let mut trees = Trees::new(alloc);
    answers_to_steps(alloc, &mut trees, steps)
}

/// A replica, and a second one.
#[derive(Drop)]
struct Trees {
    tree: Tree,
    other: Tree,
}

impl Trees {
    /// Two empty replicas.
    fn new(alloc: Global) -> Trees {
        Trees {
            tree: Tree::new(alloc),
            other: Tree::new(alloc),
        }
    }

    /// Makes the second replica a copy of the first.
    fn copy(&mut self) -> Result<(), AllocError> {
        self.other = self.tree.copy()?;
        Ok(())
    }

    /// Swaps both replicas.
    fn swap(&mut self, alloc: Global) -> Result<String> {
        mem::swap(&mut self.tree, &mut self.other);
        Ok(String::from_str(alloc, "ok")?)
    }
}

impl Subject for Trees {
    fn step(&mut self, alloc: Global, words: &[&str]) -> Result<String> {
        match *words {
            ["set", path, contents] => set(alloc, &mut self.tree, path, contents),
            ["copy"] => outcome_text(alloc, self.copy()),
            ["swap"] => self.swap(alloc),
            ["same"] => yes_or_no(alloc, self.tree.same(&self.other)),
            [word, path] => at_path(alloc, &self.tree, word, path),
            [word] => of_all(alloc, &self.tree, word),
            _ => bail!("no step of a replica"),
        }
    }
}

/// Sets contents.
fn set(alloc: Global, tree: &mut Tree, path: &str, contents: &str) -> Result<String> {
    let path = path_of(alloc, path)?;
    let contents = contents_of(alloc, contents)?;
    outcome_text(alloc, tree.set(&path, contents))
}

/// What is asked at a path.
fn at_path(alloc: Global, tree: &Tree, word: &str, path: &str) -> Result<String> {
    let path = path_of(alloc, path)?;
    match word {
        "mark" => mark_text(alloc, tree.mark_at(&path)),
        "bytes" => bytes_text(alloc, tree.bytes_at(&path)),
        "names" => names_text(alloc, tree.names_at(&path)?.as_slice()),
        _ => bail!("no step of a replica: {word}"),
    }
}

/// What is asked of a whole replica.
fn of_all(alloc: Global, tree: &Tree, word: &str) -> Result<String> {
    match word {
        "count" => Ok(format!(in alloc; "{}", tree.count())?),
        "paths" => paths_text(alloc, tree.paths()?.as_slice()),
        "entries" => entries_text(alloc, tree),
        _ => bail!("no step of a replica: {word}"),
    }
}

/// How the bytes of a file are shown.
fn bytes_text(alloc: Global, bytes: Option<&[u8]>) -> Result<String> {
    match bytes {
        Some(bytes) => Ok(hex::encode(alloc, bytes)?),
        None => Ok(String::from_str(alloc, "none")?),
    }
}

/// How names are shown.
fn names_text(alloc: Global, names: &[Name]) -> Result<String> {
    let mut parts = Vec::new(alloc);
    for name in names {
        parts.push(String::from_str(alloc, name.text())?)?;
    }
    list_text(alloc, parts.as_slice())
}

/// How the entries of a replica are shown.
fn entries_text(alloc: Global, tree: &Tree) -> Result<String> {
    let mut parts = Vec::new(alloc);
    for entry in tree.entries()? {
        let (place, stored) = entry?;
        parts.push(entry_text(alloc, &place, stored)?)?;
    }
    list_text(alloc, parts.as_slice())
}

/// How an entry is shown.
fn entry_text(alloc: Global, place: &Place<'_>, stored: Stored<'_>) -> Result<String> {
    let mut bytes = Vec::new(alloc);
    place.push_to(&mut bytes)?;
    let path = from_utf8(bytes.as_slice())?;
    match stored {
        Stored::File(blob) => Ok(format!(in alloc; "{path} {}", blob.bytes().len())?),
        Stored::Directory => Ok(format!(in alloc; "{path} d")?),
    }
}
