//! The fields of a question.
use crate::escapes::text_of;
use anyhow::{Context, Result, bail, ensure};
use hub_path::RelPath;
use hub_tree::{Blob, Contents};
use std::alloc::Global;

/// Cuts a text at its first space. What isn't there is empty.
pub fn cut(text: &str) -> (&str, &str) {
    text.split_once(' ').unwrap_or((text, ""))
}

/// The first field, and the others.
pub fn first(fields: &str) -> Result<(&str, &str)> {
    fields.split_once(" | ").context("a field is missing")
}

/// The two fields.
pub fn two(fields: &str) -> Result<(&str, &str)> {
    let (one, other) = first(fields)?;
    ensure!(!other.contains(" | "), "a field too many");
    Ok((one, other))
}

/// The three fields.
pub fn three(fields: &str) -> Result<(&str, &str, &str)> {
    let (one, others) = first(fields)?;
    let (second, third) = two(others)?;
    Ok((one, second, third))
}

/// The character that a field is.
pub fn character_of(alloc: Global, field: &str) -> Result<char> {
    only_character(text_of(alloc, field)?.as_str())
}

/// The character that a text is.
pub fn only_character(text: &str) -> Result<char> {
    let mut characters = text.chars();
    match (characters.next(), characters.next()) {
        (Some(character), None) => Ok(character),
        _ => bail!("a field isn't one character"),
    }
}

/// The path that a field is: `.` is the path without names, that of a whole replica.
pub fn path_of(alloc: Global, field: &str) -> Result<RelPath> {
    if field == "." {
        return Ok(RelPath::top(alloc));
    }
    Ok(RelPath::read(alloc, field)?)
}

/// The contents that a field is: `d` is a directory, `-` is nothing, and `f:` and a text is a file with the bytes of that text.
pub fn contents_of(alloc: Global, field: &str) -> Result<Contents> {
    if let Some(text) = field.strip_prefix("f:") {
        let bytes = text.as_bytes().to_vec(alloc)?;
        return Ok(Contents::File(Blob::new(bytes)?));
    }
    match field {
        "d" => Ok(Contents::Directory),
        "-" => Ok(Contents::Absent),
        _ => bail!("no contents: {field}"),
    }
}
