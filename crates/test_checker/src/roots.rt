//! Questions about roots and sides.
use crate::answers::{both, hash_alike};
use anyhow::{Result, bail};
use hub_path::{Root, Side};
use std::alloc::Global;
use test_kit::{answer_or_fault, quoted, shown, yes_or_no};

/// Answers a question about the text of a root:
///
/// - `read`: the root, or the fault.
///
/// Or about the root:
///
/// - `text`, `names`: a copy of its text, and the number of its names.
/// - `copy`: whether it is equal to its copy, and hashed alike. `hash`: whether it is hashed as its path.
/// - `compare`: whether it is within that of the second field, and whether it is equal.
pub(crate) fn answer(alloc: Global, question: &str, texts: &[String]) -> Result<String> {
    match (question, texts) {
        ("compare", [text, other]) => compare(alloc, text.as_str(), other.as_str()),
        (_, [text]) => answer_on_one(alloc, question, text.as_str()),
        _ => bail!("an unknown question"),
    }
}

fn answer_on_one(alloc: Global, question: &str, text: &str) -> Result<String> {
    match question {
        "read" => answer_or_fault(
            alloc,
            &Root::read(alloc, text),
            |root| quoted(alloc, root.as_str()),
        ),
        _ => answer_on_root(alloc, question, &Root::read(alloc, text)?),
    }
}

/// Answers a question about a root.
fn answer_on_root(alloc: Global, question: &str, root: &Root) -> Result<String> {
    match question {
        "text" => quoted(alloc, root.text()?.as_str()),
        "names" => shown(alloc, &root.path().len()),
        "copy" => copy(alloc, root),
        "hash" => yes_or_no(alloc, hash_alike(root, root.path())),
        _ => bail!("an unknown question"),
    }
}

fn copy(alloc: Global, root: &Root) -> Result<String> {
    let copy = root.copy()?;
    both(alloc, copy == *root, hash_alike(&copy, root))
}

fn compare(alloc: Global, text: &str, other: &str) -> Result<String> {
    let root = Root::read(alloc, text)?;
    let other = Root::read(alloc, other)?;
    both(alloc, root.is_within(&other), root == other)
}

/// Answers a question about a side: `is-less`, whether it is less than that of the second field.
pub(crate) fn answer_on_side(alloc: Global, question: &str, texts: &[String]) -> Result<String> {
    match (question, texts) {
        ("is-less", [side, other]) => {
            yes_or_no(alloc, side_of(side.as_str())? < side_of(other.as_str())?)
        }
        _ => bail!("an unknown question"),
    }
}

fn side_of(text: &str) -> Result<Side> {
    match text {
        "left" => Ok(Side::Left),
        "right" => Ok(Side::Right),
        _ => bail!("an unknown side"),
    }
}
