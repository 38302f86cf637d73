//! Long texts, which the questions abbreviate.
use anyhow::{Context, Result, bail};
use std::alloc::Global;

/// How many abbreviations a text may have.
const ABBREVIATIONS: usize = 100;

/// Expands the abbreviations of a text, from the last one to the first. So one may contain another.
///
/// `<61 a>` is 61 times `a`, `<170 U+4E00>` is 170 characters from U+4E00 on, and `<>` is nothing.
pub(crate) fn expand(alloc: Global, text: &str) -> Result<String> {
    let mut long = String::from_str(alloc, text)?;
    for _ in 0..ABBREVIATIONS {
        match expand_last(alloc, long.as_str())? {
            Some(longer) => long = longer,
            None => return Ok(long),
        }
    }
    bail!("the text has too many abbreviations")
}

/// Expands the last abbreviation of a text, if it has one.
fn expand_last(alloc: Global, text: &str) -> Result<Option<String>> {
    match text.rsplit_once('<') {
        Some((before, rest)) => Ok(Some(expand_first(alloc, before, rest)?)),
        None => Ok(None),
    }
}

/// Expands the abbreviation in which `rest` begins. The result begins with `before`.
fn expand_first(alloc: Global, before: &str, rest: &str) -> Result<String> {
    let (abbreviation, after) = rest.split_once('>').context("an abbreviation has no end")?;
    let long = expansion(alloc, abbreviation)?;
    Ok(format!(in alloc; "{before}{long}{after}")?)
}

/// What an abbreviation stands for.
fn expansion(alloc: Global, abbreviation: &str) -> Result<String> {
    if abbreviation.is_empty() {
        return Ok(String::new(alloc));
    }
    let (count, what) = abbreviation
        .split_once(' ')
        .context("an abbreviation has a count")?;
    let count = count.parse::<u32>()?;
    match what.strip_prefix("U+") {
        Some(code) => characters(alloc, count, u32::from_str_radix(code, 16)?),
        None => Ok(what.repeat(alloc, count as usize)?),
    }
}

/// The characters from the number `first` on, as many as `count` says.
fn characters(alloc: Global, count: u32, first: u32) -> Result<String> {
    let mut text = String::new(alloc);
    for i in 0..count {
        let number = first.saturating_add(i);
        text.push(char::from_u32(number).context("a number is not a character")?)?;
    }
    Ok(text)
}
