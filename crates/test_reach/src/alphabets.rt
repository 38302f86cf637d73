//! Questions about alphabets.
use crate::given::class_text;
use anyhow::Result;
use hub_automaton::{Alphabet, Class};
use hub_glob::PathSpec;
use hub_path::RelPath;
use std::alloc::{AllocError, Global};
use test_kit::{character_of, two};

/// Adds the characters of a specification, or of a path, as `path = a/b`.
fn add(alloc: Global, alphabet: &mut Alphabet, item: &str) -> Result<()> {
    match item.strip_prefix("path = ") {
        Some(path) => add_path(alloc, alphabet, path),
        None => add_spec(alloc, alphabet, item),
    }
}

fn add_path(alloc: Global, alphabet: &mut Alphabet, path: &str) -> Result<()> {
    let path = RelPath::read(alloc, path)?;
    Ok(alphabet.add_path(&path)?)
}

fn add_spec(alloc: Global, alphabet: &mut Alphabet, spec: &str) -> Result<()> {
    let spec = PathSpec::read(alloc, spec)?;
    Ok(alphabet.add_spec(&spec)?)
}

/// The alphabet that mentions the characters of these, with `; ` between them.
fn alphabet_of(alloc: Global, items: &str) -> Result<Alphabet> {
    let mut alphabet = Alphabet::new(alloc)?;
    add_all(alloc, &mut alphabet, items)?;
    Ok(alphabet)
}

fn add_all(alloc: Global, alphabet: &mut Alphabet, items: &str) -> Result<()> {
    for item in items.split("; ") {
        add(alloc, alphabet, item)?;
    }
    Ok(())
}

/// The samples of all classes, and the numbers of the samples' classes.
pub(crate) fn samples(alloc: Global, items: &str) -> Result<String> {
    let alphabet = alphabet_of(alloc, items)?;
    Ok(samples_text(alloc, &alphabet)?)
}

fn samples_text(alloc: Global, alphabet: &Alphabet) -> Result<String, AllocError> {
    let mut samples = String::new(alloc);
    let mut classes = String::new(alloc);
    for number in 0..alphabet.count() {
        let sample = alphabet.sample(Class::new(number));
        samples.push(sample)?;
        classes.push_str(class_text(alloc, alphabet.class_of(sample))?.as_str())?;
    }
    format!(in alloc; "{samples} {classes}")
}

/// The class of a character.
pub(crate) fn class(alloc: Global, fields: &str) -> Result<String> {
    let (items, character) = two(fields)?;
    let character = character_of(alloc, character)?;
    let alphabet = alphabet_of(alloc, items)?;
    Ok(class_text(alloc, alphabet.class_of(character))?)
}

/// For each of the items the fault of adding it, if there is one, and then how many classes there are, and the class of a
/// character.
pub(crate) fn mentioned(alloc: Global, fields: &str) -> Result<String> {
    let (items, character) = two(fields)?;
    let character = character_of(alloc, character)?;
    let mut alphabet = Alphabet::new(alloc)?;
    mentions_text(alloc, &mut alphabet, items, character)
}

fn mentions_text(
    alloc: Global,
    alphabet: &mut Alphabet,
    items: &str,
    character: char,
) -> Result<String> {
    let mut answers = Vec::new(alloc);
    for item in items.split("; ") {
        answers.push(mention_text(alloc, alphabet, item, character)?)?;
    }
    Ok(answers.as_slice().join(alloc, ", ")?)
}

fn mention_text(
    alloc: Global,
    alphabet: &mut Alphabet,
    item: &str,
    character: char,
) -> Result<String> {
    let fault = fault_text(alloc, add(alloc, alphabet, item))?;
    Ok(classes_text(alloc, alphabet, character, fault.as_str())?)
}

/// The fault with a space after it, or nothing.
fn fault_text(alloc: Global, added: Result<()>) -> Result<String, AllocError> {
    match added {
        Ok(()) => Ok(String::new(alloc)),
        Err(fault) => format!(in alloc; "{fault} "),
    }
}

/// The fault, how many classes there are, and the class of a character.
fn classes_text(
    alloc: Global,
    alphabet: &Alphabet,
    character: char,
    fault: &str,
) -> Result<String, AllocError> {
    let class = class_text(alloc, alphabet.class_of(character))?;
    format!(in alloc; "{fault}{} {class}", alphabet.count())
}
