//! How answers show what a replica answers.

use anyhow::Result;
use hub_job::Answer;
use hub_path::Name;
use hub_tree::Mark;
use std::alloc::Global;
use test_kit::shown;

/// What a replica answers. To a Look it is `file`, `directory` or `absent`, the names of children, and `and others` if there are
/// others.
pub fn answer_text(alloc: Global, answer: &Answer) -> Result<String> {
    match answer {
        Answer::Seen(sight) => seen_text(alloc, sight.mark(), sight.names(), sight.others()),
        Answer::Bytes(file) => Ok(format!(in alloc; "{} bytes", file.bytes().len())?),
        Answer::Done => shown(alloc, &"done"),
        Answer::Refused(fault) => Ok(format!(in alloc; "{fault:?}")?),
    }
}

/// What is seen at a path.
fn seen_text(alloc: Global, mark: Mark, names: &[Name], others: bool) -> Result<String> {
    let mut text = String::from_str(alloc, kind_of(mark))?;
    for name in names {
        text.push(' ')?;
        text.push_str(name.text())?;
    }
    if others {
        text.push_str(" and others")?;
    }
    Ok(text)
}

/// The word for what a mark says.
pub fn kind_of(mark: Mark) -> &'static str {
    match mark {
        Mark::File(_) => "file",
        Mark::Directory => "directory",
        Mark::Absent => "absent",
    }
}
