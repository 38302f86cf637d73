//! Questions about paths.
use anyhow::{Result, bail, ensure};
use hub_path::{Name, RelPath, without_last_slash};
use std::alloc::Global;
use test_kit::{answer_or_fault, quoted, shown, yes_or_no};

/// Answers a question about the text of a path:
///
/// - `read`: the number of names and the text of the path, or the fault. `from-text`: the same, or `none`.
/// - `without-last-slash`: the text without a `/` at its end.
///
/// Or about the path, where the empty text is that of the path without names:
///
/// - `shown`: the number of its names and its text.
/// - `parent`: that of its parent, or `none`. `child`: that of its child with the name of the second field.
/// - `name`: its name at the place of the second field, counted from 0.
/// - `starts-with`, `compare`: how it compares with the path of the second field.
pub(crate) fn answer(alloc: Global, question: &str, texts: &[String]) -> Result<String> {
    match texts {
        [text] => answer_on_one(alloc, question, text.as_str()),
        [text, other] => {
            let path = path_of(alloc, text.as_str())?;
            answer_on_two(alloc, question, &path, other.as_str())
        }
        _ => bail!("not one or two fields"),
    }
}

fn answer_on_one(alloc: Global, question: &str, text: &str) -> Result<String> {
    match question {
        "read" => answer_or_fault(
            alloc,
            &RelPath::read(alloc, text),
            |path| path_shown(alloc, path),
        ),
        "from-text" => path_or_none(alloc, RelPath::from_text(alloc, text)?),
        "without-last-slash" => quoted(alloc, without_last_slash(text)),
        "shown" => path_shown(alloc, &path_of(alloc, text)?),
        "parent" => parent(alloc, &path_of(alloc, text)?),
        _ => bail!("an unknown question"),
    }
}

fn answer_on_two(alloc: Global, question: &str, path: &RelPath, other: &str) -> Result<String> {
    match question {
        "child" => child(alloc, path, other),
        "name" => name_at(alloc, path, other.parse::<usize>()?),
        "starts-with" => starts_with(alloc, path, other),
        "compare" => compare(alloc, path, other),
        _ => bail!("an unknown question"),
    }
}

/// The path of a text. The empty text is that of the path without names.
pub(crate) fn path_of(alloc: Global, text: &str) -> Result<RelPath> {
    if text.is_empty() {
        return Ok(RelPath::top(alloc));
    }
    Ok(RelPath::read(alloc, text)?)
}

fn path_shown(alloc: Global, path: &RelPath) -> Result<String> {
    let count = path.len();
    let text = path.text()?;
    Ok(format!(in alloc; "{count} {text:?}")?)
}

fn path_or_none(alloc: Global, path: Option<RelPath>) -> Result<String> {
    match path {
        Some(path) => path_shown(alloc, &path),
        None => shown(alloc, &"none"),
    }
}

fn parent(alloc: Global, path: &RelPath) -> Result<String> {
    path_or_none(alloc, path.parent()?)
}

fn child(alloc: Global, path: &RelPath, name: &str) -> Result<String> {
    let name = Name::read(alloc, name)?;
    path_shown(alloc, &path.child(name)?)
}

fn name_at(alloc: Global, path: &RelPath, place: usize) -> Result<String> {
    ensure!(place < path.len(), "the path has fewer names");
    quoted(alloc, path.name(place).text())
}

fn starts_with(alloc: Global, path: &RelPath, prefix: &str) -> Result<String> {
    yes_or_no(alloc, path.starts_with(&path_of(alloc, prefix)?))
}

fn compare(alloc: Global, path: &RelPath, other: &str) -> Result<String> {
    let order = path.cmp(&path_of(alloc, other)?);
    Ok(format!(in alloc; "{order:?}")?)
}
