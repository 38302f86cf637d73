//! Questions about automata of paths, and about what a builder has collected.
ghost use Rattle.std.specs.Prelude.{◌≡◌, ◌∷◌, [], true, IfOk};
ghost use Rattle.hub_path.specs.Path.{text_of};
ghost use Rattle.hub_automaton.specs.Spots.{is_covered, path_alternatives};

use crate::automaton::Automaton;
use crate::given::profile_ignoring;
use anyhow::Result;
use hub_automaton::laws::{
    paths_mention_their_characters, texts_mention_what_their_names_do, what_is_added_is_mentioned,
};
use hub_automaton::{Alphabet, SpecSetBuilder};
use hub_glob::PathSpec;
use hub_path::RelPath;
use std::alloc::{AllocError, Global};
use test_kit::two;

/// The alphabet that mentions the characters of a path.
fn alphabet_of(alloc: Global, path: &RelPath) -> Result<Alphabet>
    ensures { IfOk result (λ a. is_covered a (path_alternatives (text_of path.now)) ≡ true) }
{
    paths_mention_their_characters();
    texts_mention_what_their_names_do();
    what_is_added_is_mentioned();
    let mut alphabet = Alphabet::new(alloc)?;
    alphabet.add_path(path)?;
    let _valid = alphabet.count();
    Ok(alphabet)
}

/// A builder that has collected a path.
fn builder_of(alloc: Global, path: &RelPath) -> Result<SpecSetBuilder>
    ensures { IfOk result (λ b. b ≡ path_alternatives (text_of path.now) ∷ []) }
{
    let mut builder = SpecSetBuilder::new(alloc);
    builder.add_path(path)?;
    Ok(builder)
}

/// The automaton of a path.
fn automaton_of(alloc: Global, path: &RelPath) -> Result<Box<Automaton>> {
    let alphabet = alphabet_of(alloc, path)?;
    let set = builder_of(alloc, path)?.build(&alphabet)?;
    Ok(Box::new(alloc, Automaton { alphabet, set })?)
}

/// How many positions the automaton of a path has, and whether the path matches what has been read of a text, after each of
/// its characters.
pub(crate) fn path(alloc: Global, fields: &str) -> Result<String> {
    let (path, text) = two(fields)?;
    let path = RelPath::read(alloc, path)?;
    walk_along(alloc, &path, text)
}

fn walk_along(alloc: Global, path: &RelPath, text: &str) -> Result<String> {
    let automaton = automaton_of(alloc, path)?;
    Ok(path_text(alloc, &automaton, text)?)
}

fn path_text(alloc: Global, automaton: &Automaton, text: &str) -> Result<String, AllocError> {
    let matched = automaton.walk(alloc, text)?;
    format!(in alloc; "{} {matched}", automaton.set.spot_count())
}

/// For each of these paths the fault of adding it, if there is one, and then how many have been added.
pub(crate) fn paths(alloc: Global, paths: &str) -> Result<String> {
    let mut builder = SpecSetBuilder::new(alloc);
    added(alloc, &mut builder, paths)
}

fn added(alloc: Global, builder: &mut SpecSetBuilder, paths: &str) -> Result<String> {
    let mut answers = Vec::new(alloc);
    for path in paths.split("; ") {
        answers.push(add(alloc, builder, path)?)?;
    }
    Ok(answers.as_slice().join(alloc, ", ")?)
}

fn add(alloc: Global, builder: &mut SpecSetBuilder, path: &str) -> Result<String> {
    let path = RelPath::read(alloc, path)?;
    Ok(add_path(alloc, builder, &path)?)
}

fn add_path(
    alloc: Global,
    builder: &mut SpecSetBuilder,
    path: &RelPath,
) -> Result<String, AllocError> {
    match builder.add_path(path) {
        Ok(()) => format!(in alloc; "{}", builder.len()),
        Err(fault) => format!(in alloc; "{fault} {}", builder.len()),
    }
}

/// The fault of adding the second specifications to a builder that has collected the first ones, if there is one, and whether it
/// has those still.
pub(crate) fn specs(alloc: Global, fields: &str) -> Result<String> {
    let (first, more) = two(fields)?;
    let first = profile_ignoring(alloc, first)?;
    let more = profile_ignoring(alloc, more)?;
    let mut builder = SpecSetBuilder::new(alloc);
    builder.add_specs(first.ignore())?;
    Ok(add_more(alloc, &mut builder, more.ignore())?)
}

fn add_more(
    alloc: Global,
    builder: &mut SpecSetBuilder,
    more: &[PathSpec],
) -> Result<String, AllocError> {
    let before = builder.len();
    match builder.add_specs(more) {
        Ok(()) => format!(in alloc; "{}", builder.len()),
        Err(fault) if builder.len() < before => format!(in alloc; "{fault}, some are gone"),
        Err(fault) => format!(in alloc; "{fault}, all are there"),
    }
}
