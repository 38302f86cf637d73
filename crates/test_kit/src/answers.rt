//! How answers are written.
use anyhow::Result;
use std::alloc::Global;
use std::fmt::Display;

/// `yes` or `no`.
pub fn word_of(holds: bool) -> &'static str {
    if holds { "yes" } else { "no" }
}

/// The digit for whether something holds.
pub fn digit(holds: bool) -> char {
    if holds { '1' } else { '0' }
}

/// The answer to whether something holds.
pub fn yes_or_no(alloc: Global, holds: bool) -> Result<String> {
    Ok(String::from_str(alloc, word_of(holds))?)
}

/// The answer that is shown as it is, as a number, a fault or a word.
pub fn shown<T: Display>(alloc: Global, value: &T) -> Result<String> {
    Ok(format!(in alloc; "{value}")?)
}

/// The answer that is a text in quotes, as Rust prints it for debugging.
pub fn quoted(alloc: Global, text: &str) -> Result<String> {
    Ok(format!(in alloc; "{text:?}")?)
}

/// A text in one line: `\n` stands for the end of a line.
pub fn in_one_line(alloc: Global, text: &str) -> Result<String> {
    Ok(text.replace(alloc, '\n', "\\n")?)
}

/// A list with `, ` between its parts. The empty one is `none`.
pub fn list_text(alloc: Global, parts: &[String]) -> Result<String> {
    if parts.is_empty() {
        return shown(alloc, &"none");
    }
    Ok(parts.join(alloc, ", ")?)
}

/// The texts of these, with a separator between them.
pub fn joined<T, F: Fn(&T) -> Result<String>>(
    alloc: Global,
    items: &[T],
    separator: &str,
    text: F,
) -> Result<String>
    requires { F.IsAlwaysCallable text }
{
    let mut texts = Vec::new(alloc);
    for item in items {
        texts.push(text(item)?)?;
    }
    Ok(texts.as_slice().join(alloc, separator)?)
}

/// The list of the texts of these, as `list_text` writes it.
pub fn list_of<T, F: Fn(&T) -> Result<String>>(
    alloc: Global,
    items: &[T],
    text: F,
) -> Result<String>
    requires { F.IsAlwaysCallable text }
{
    if items.is_empty() {
        return list_text(alloc, &[]);
    }
    joined(alloc, items, ", ", text)
}

/// The answer to what was read or made, or its fault.
pub fn answer_or_fault<T, E: Display, F: FnOnce(&T) -> Result<String>>(
    alloc: Global,
    made: &Result<T, E>,
    answer: F,
) -> Result<String>
    requires { F.IsAlwaysCallable answer }
{
    match made {
        Ok(value) => answer(value),
        Err(fault) => shown(alloc, fault),
    }
}

/// `ok`, or the error.
pub fn outcome_text<T: Drop, E: Display + Drop>(
    alloc: Global,
    outcome: Result<T, E>,
) -> Result<String> {
    match outcome {
        Ok(_) => shown(alloc, &"ok"),
        Err(error) => shown(alloc, &error),
    }
}
