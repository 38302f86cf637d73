//! Steps of an archive and a second one, both empty at first:
//!
//! - `set PATH CONTENTS` sets the mark of these contents.
//! - `mark PATH`, `paths` and `marks`: what is there. `marks` has the number of marks, too.
//! - `copy` makes the second archive a copy of the first, `swap` swaps both, and `same` asks whether they are the same.

use crate::shown::{mark_text, paths_text};
use anyhow::{Result, bail, ensure};
use hub_path::RelPath;
use hub_tree::{Archive, Mark};
use std::alloc::Global;
use std::mem;
use test_kit::{
    Subject, answers_to_steps, contents_of, list_text, outcome_text, path_of, yes_or_no,
};

/// The answers to the steps of two archives.
pub(crate) fn answers(alloc: Global, steps: &str) -> Result<String> {
    let mut archives = Archives::new(alloc);
    answers_to_steps(alloc, &mut archives, steps)
}

/// An archive, and a second one.
#[derive(Drop)]
struct Archives {
    archive: Archive,
    other: Archive,
}

impl Archives {
    /// Two empty archives.
    fn new(alloc: Global) -> Archives {
        Archives {
            archive: Archive::new(alloc),
            other: Archive::new(alloc),
        }
    }

    /// Makes the second archive a copy of the first.
    fn copy(&mut self, alloc: Global) -> Result<String> {
        self.other = self.archive.copy()?;
        Ok(String::from_str(alloc, "ok")?)
    }

    /// Swaps both archives.
    fn swap(&mut self, alloc: Global) -> Result<String> {
        mem::swap(&mut self.archive, &mut self.other);
        Ok(String::from_str(alloc, "ok")?)
    }
}

impl Subject for Archives {
    fn step(&mut self, alloc: Global, words: &[&str]) -> Result<String> {
        match *words {
            ["set", path, contents] => set(alloc, &mut self.archive, path, contents),
            ["copy"] => self.copy(alloc),
            ["swap"] => self.swap(alloc),
            ["same"] => yes_or_no(alloc, self.archive.same(&self.other)),
            ["mark", path] => mark_at(alloc, &self.archive, path),
            ["paths"] => paths_text(alloc, self.archive.paths()?.as_slice()),
            ["marks"] => marks_text(alloc, &self.archive),
            _ => bail!("no step of an archive"),
        }
    }
}

/// Sets the mark of contents at a path, which isn't the top.
fn set(alloc: Global, archive: &mut Archive, path: &str, contents: &str) -> Result<String> {
    let path = path_of(alloc, path)?;
    let mark = contents_of(alloc, contents)?.mark();
    ensure!(path.len() > 0, "no path of an archive");
    outcome_text(alloc, archive.set(&path, mark))
}

/// The mark at a path.
fn mark_at(alloc: Global, archive: &Archive, path: &str) -> Result<String> {
    mark_text(alloc, archive.mark_at(&path_of(alloc, path)?))
}

/// How the marks of an archive are shown.
fn marks_text(alloc: Global, archive: &Archive) -> Result<String> {
    let mut parts = Vec::new(alloc);
    for (path, mark) in archive.iter() {
        parts.push(entry_text(alloc, path, *mark)?)?;
    }
    let list = list_text(alloc, parts.as_slice())?;
    Ok(format!(in alloc; "{}: {list}", archive.iter().len())?)
}

fn entry_text(alloc: Global, path: &RelPath, mark: Mark) -> Result<String> {
    let mark = mark_text(alloc, mark)?;
    Ok(format!(in alloc; "{} {mark}", path.text()?)?)
}
