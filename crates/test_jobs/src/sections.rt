//! Steps of a state:
//!
//! - `put ROOT` puts an empty replica, `put ROOT ROOT` an empty archive, and `put ROOT ROOT PATH` one with a directory.
//! - `has ROOT` and `has ROOT ROOT`: whether the state has such a replica, or such an archive.
//! - `copy` goes on with a copy of the state.
//! - `text`: the text of the state.

use crate::states::written;
use anyhow::{Result, bail};
use hub_path::{RelPath, Root};
use hub_state::State;
use hub_tree::{Archive, Mark, Tree};
use std::alloc::{AllocError, Global};
use test_kit::{Subject, answers_to_steps, in_one_line, outcome_text, path_of, yes_or_no};

/// A state that takes steps.
#[derive(Drop)]
struct Sections {
    state: State,
}

/// The answers to the steps of a state.
pub(crate) fn answers(alloc: Global, steps: &str) -> Result<String> {
    let state = State::new(alloc);
    answers_to_steps(alloc, &mut Sections { state }, steps)
}

impl Subject for Sections {
    fn step(&mut self, alloc: Global, words: &[&str]) -> Result<String> {
        let state = &mut self.state;
        match *words {
            ["put", root] => put_replica(alloc, state, root),
            ["put", first, second] => put_archive(alloc, state, first, second, "."),
            ["put", first, second, path] => put_archive(alloc, state, first, second, path),
            ["has", root] => has_replica(alloc, state, root),
            ["has", first, second] => has_archive(alloc, state, first, second),
            ["copy"] => outcome_text(alloc, become_copy(state)),
            ["text"] => in_one_line(alloc, written(alloc, state)?.as_str()),
            _ => bail!("no step of a state"),
        }
    }
}

/// Puts an empty replica.
fn put_replica(alloc: Global, state: &mut State, root: &str) -> Result<String> {
    let root = Root::read(alloc, root)?;
    outcome_text(alloc, state.put_replica(&root, Tree::new(alloc)))
}

/// Makes a state a copy of itself.
fn become_copy(state: &mut State) -> Result<(), AllocError> {
    *state = state.copy()?;
    Ok(())
}

/// Puts an archive in the place of that of two roots, which are different.
fn put_archive(
    alloc: Global,
    state: &mut State,
    first: &str,
    second: &str,
    path: &str,
) -> Result<String> {
    let first = Root::read(alloc, first)?;
    let second = Root::read(alloc, second)?;
    put_between(alloc, state, &first, &second, path)
}

/// Puts an archive that has a directory at the path, or is empty if the path is that of the whole replica.
#[tactic(auto, using(hub_state::specs::laws::RootTexts::other_roots))]
fn put_between(
    alloc: Global,
    state: &mut State,
    first: &Root,
    second: &Root,
    path: &str,
) -> Result<String> {
    let path = path_of(alloc, path)?;
    let archive = with_directory(alloc, &path)?;
    if first == second {
        bail!("one root");
    }
    outcome_text(alloc, state.put_archive(first, second, archive))
}

/// An archive with a directory at a path, if that isn't the path of the whole replica.
fn with_directory(alloc: Global, path: &RelPath) -> Result<Archive, AllocError> {
    let mut archive = Archive::new(alloc);
    if path.len() > 0 {
        archive.set(path, Mark::Directory)?;
    }
    Ok(archive)
}

/// Returns whether the state has the replica of a root.
fn has_replica(alloc: Global, state: &State, root: &str) -> Result<String> {
    let root = Root::read(alloc, root)?;
    yes_or_no(alloc, state.replica(&root).is_some())
}

/// Returns whether the state has the archive of two roots.
fn has_archive(alloc: Global, state: &State, first: &str, second: &str) -> Result<String> {
    let first = Root::read(alloc, first)?;
    let second = Root::read(alloc, second)?;
    yes_or_no(alloc, state.archive(&first, &second).is_some())
}
