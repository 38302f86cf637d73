//! Questions about names.
use crate::answers::hash_alike;
use anyhow::{Result, bail};
use hub_path::Name;
use std::alloc::Global;
use test_kit::{answer_or_fault, quoted, shown, word_of, yes_or_no};

/// Answers a question about the text of a name:
///
/// - `read`: the name, or the fault. `from-text`: the name, or `none`.
/// - `copy`: whether the name is equal to its copy, and how the copy is displayed.
/// - `hash`: whether the name and its text are hashed alike.
/// - `compare`: how the name compares with that of the second field.
pub(crate) fn answer(alloc: Global, question: &str, texts: &[String]) -> Result<String> {
    match (question, texts) {
        ("compare", [text, other]) => compare(alloc, text.as_str(), other.as_str()),
        (_, [text]) => answer_on_one(alloc, question, text.as_str()),
        _ => bail!("an unknown question"),
    }
}

fn answer_on_one(alloc: Global, question: &str, text: &str) -> Result<String> {
    match question {
        "read" => answer_or_fault(
            alloc,
            &Name::read(alloc, text),
            |name| quoted(alloc, name.text()),
        ),
        "from-text" => name_or_none(alloc, text),
        "copy" => copy(alloc, text),
        "hash" => hash(alloc, text),
        _ => bail!("an unknown question"),
    }
}

fn name_or_none(alloc: Global, text: &str) -> Result<String> {
    match Name::from_text(alloc, text)? {
        Some(name) => quoted(alloc, name.text()),
        None => shown(alloc, &"none"),
    }
}

fn copy(alloc: Global, text: &str) -> Result<String> {
    let name = Name::read(alloc, text)?;
    let copy = name.copy()?;
    let is_equal = word_of(copy == name);
    Ok(format!(in alloc; "{is_equal}, {copy}")?)
}

fn hash(alloc: Global, text: &str) -> Result<String> {
    let name = Name::read(alloc, text)?;
    yes_or_no(alloc, hash_alike(&name, &text))
}

fn compare(alloc: Global, text: &str, other: &str) -> Result<String> {
    let name = Name::read(alloc, text)?;
    let other = Name::read(alloc, other)?;
    Ok(format!(in alloc; "{:?}", name.cmp(&other))?)
}
