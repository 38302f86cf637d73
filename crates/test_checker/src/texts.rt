//! Questions about texts: their words, their ends and their lines.
use anyhow::{Context, Result, bail, ensure};
use hub_text::{
    Lines, TextLines, begins_with, compare, first_word, is_empty, skip_blanks, without_last,
};
use std::alloc::{AllocError, Global};
use std::str;
use test_kit::{only_character, quoted, yes_or_no};

/// Answers a question about a text:
///
/// - `first-word`: it, and what follows its blank. `skip-blanks`: what follows the leading blanks.
/// - `is-empty`. With a character for a second field, `begins-with` and `without-last`.
/// - `compare`: how it compares with that of the second field, that one with it, and that one with itself.
/// - `lines`, `byte-lines`: each line after a `<`, and before a `>` if an LF ends it.
/// - `first-line`: it, and the bytes of the later lines.
pub(crate) fn answer(alloc: Global, question: &str, texts: &[String]) -> Result<String> {
    match texts {
        [text] => answer_on_one(alloc, question, text.as_str()),
        [text, other] => answer_on_two(alloc, question, text.as_str(), other.as_str()),
        _ => bail!("not one or two fields"),
    }
}

fn answer_on_one(alloc: Global, question: &str, text: &str) -> Result<String> {
    match question {
        "first-word" => word_and_rest(alloc, text),
        "skip-blanks" => quoted(alloc, skip_blanks(text)),
        "is-empty" => yes_or_no(alloc, is_empty(text)),
        "lines" => lines(alloc, text),
        "byte-lines" => byte_lines(alloc, text.as_bytes()),
        "first-line" => line_and_rest(alloc, text.as_bytes()),
        _ => bail!("an unknown question"),
    }
}

fn answer_on_two(alloc: Global, question: &str, text: &str, other: &str) -> Result<String> {
    match question {
        "begins-with" => begins(alloc, text, only_character(other)?),
        "without-last" => shortened(alloc, text, only_character(other)?),
        "compare" => compared(alloc, text, other),
        _ => bail!("an unknown question"),
    }
}

fn word_and_rest(alloc: Global, text: &str) -> Result<String> {
    Ok(format!(in alloc; "{:?}", first_word(text))?)
}

/// Returns whether a text begins with an ASCII character.
fn begins(alloc: Global, text: &str, character: char) -> Result<String> {
    ensure!(
        character.is_ascii() && character != '\0',
        "not an ASCII character, or NUL"
    );
    yes_or_no(alloc, begins_with(text, character))
}

/// A text without an ASCII character at its end.
fn shortened(alloc: Global, text: &str, character: char) -> Result<String> {
    ensure!(character.is_ascii(), "not an ASCII character");
    quoted(alloc, without_last(text, character))
}

fn compared(alloc: Global, text: &str, other: &str) -> Result<String> {
    let order = compare(text, other);
    let back = compare(other, text);
    let same = compare(other, other);
    Ok(format!(in alloc; "{order:?}, {back:?}, {same:?}")?)
}

fn lines(alloc: Global, text: &str) -> Result<String> {
    let mut shown = String::new(alloc);
    for line in TextLines::new(text) {
        push_line(&mut shown, line.text, line.is_ended)?;
    }
    quoted(alloc, shown.as_str())
}

fn byte_lines(alloc: Global, bytes: &[u8]) -> Result<String> {
    let mut shown = String::new(alloc);
    for line in Lines::new(bytes) {
        push_line(&mut shown, str::from_utf8(line.text)?, line.is_ended)?;
    }
    quoted(alloc, shown.as_str())
}

fn push_line(shown: &mut String, text: &str, is_ended: bool) -> Result<(), AllocError> {
    let end = if is_ended { ">" } else { "" };
    write!(shown, "<{text}{end}")
}

fn line_and_rest(alloc: Global, bytes: &[u8]) -> Result<String> {
    let mut lines = Lines::new(bytes);
    let line = lines.next().context("no line")?;
    let first = str::from_utf8(line.text)?;
    let rest = str::from_utf8(lines.rest())?;
    Ok(format!(in alloc; "{:?}", (first, rest))?)
}
