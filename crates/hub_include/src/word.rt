//! The lines that include files.
ghost use Rattle.std.specs.Prelude.{◌≡◌, false, IfOk, Some, string_bytes};
ghost use Rattle.std.specs.Option.{option_map};
ghost use Rattle.hub_include.specs.Words as words;
ghost use Rattle.hub_include.specs.Asking.{of_bytes};

use std::alloc::{AllocError, Global};

/// What a line asks for that includes a file.
#[derive(Clone, Copy, Debug, PartialEq, Eq)]
pub struct Asked<T> {
    /// Whether a file with `.prf` is looked for, too, if there is none of the name itself: `include` does so, `source` doesn't.
    pub has_ending: bool,
    /// Whether the file may be missing: the word ends with a `?`.
    pub may_be_missing: bool,
    /// What follows the word and one blank: the name, with blanks around it and backslashes in it.
    pub names: T,
}

/// What a line asks for, if it includes a file: it begins with `include`, `include?`, `source` or `source?`, and a blank.
///
/// Observed with Unison 2.52.1: a blank or a tab before the word, or a tab behind it, makes no such line.
pub fn asked_by(line: &[u8]) -> Option<Asked<&[u8]>>
    ensures { option_map of_bytes result ≡ words.asked_by line.now }
{
    if let Some(names) = line.strip_prefix(b"include ") {
        return Some(asking(true, false, names));
    }
    if let Some(names) = line.strip_prefix(b"include? ") {
        return Some(asking(true, true, names));
    }
    if let Some(names) = line.strip_prefix(b"source ") {
        return Some(asking(false, false, names));
    }
    match line.strip_prefix(b"source? ") {
        Some(names) => Some(asking(false, true, names)),
        None => None,
    }
}

/// What a line asks for.
fn asking(has_ending: bool, may_be_missing: bool, names: &[u8]) -> Asked<&[u8]>
    ensures { of_bytes result ≡ record { has_ending = has_ending; may_be_missing = may_be_missing; names = names.now } }
{
    Asked {
        has_ending,
        may_be_missing,
        names,
    }
}

/// The name of the file that an include line looks for: `names` has one, with blanks around it and a `\` before each blank in it. `None`
/// if there is none or another number of names, or if it isn't UTF-8.
///
/// Observed with Unison 2.52.1: a `\` goes, and what follows it is part of the name; a `\` at the end goes. A tab is no blank. That
/// a name must be UTF-8 is this project's choice.
pub fn name_in(alloc: Global, names: &[u8]) -> Result<Option<String>, AllocError>
    ensures { IfOk result (λ n. option_map string_bytes n ≡ words.name_in names.now) }
{
    match word_of(alloc, without_blanks(names))? {
        Some(name) => Ok(looked_for(name)),
        None => Ok(None),
    }
}

/// A name that can be looked for.
fn looked_for(name: Vec<u8>) -> Option<String>
    ensures { option_map string_bytes result ≡ words.looked_for (Some name.items) }
{
    if name.is_empty() {
        return None;
    }
    match String::from_utf8(name) {
        Ok(name) => Some(name),
        Err(_) => None,
    }
}

/// What follows the blanks at the beginning.
fn without_blanks(names: &[u8]) -> &[u8]
    ensures { result.now ≡ words.without_blanks names.now }
{
    let mut rest = names;
    while let [b' ', others @ ..] = rest {
        rest = others;
    }
    rest
}

/// Returns whether these bytes are blanks.
fn are_blanks(bytes: &[u8]) -> bool
    ensures { result ≡ words.are_blanks bytes.now }
{
    bytes.iter().all(|b| *b == b' ')
}

/// The name up to a blank, if only blanks follow.
fn word_of(alloc: Global, text: &[u8]) -> Result<Option<Vec<u8>>, AllocError>
    ensures { IfOk result (λ w. option_map (λ v. v.items) w ≡ words.word_from false text.now) }
{
    let mut word = Vec::new(alloc);
    let mut is_taken = false;
    let mut rest = text;
    while let Some((first, others)) = rest.split_first() {
        if is_taken {
            word.push(*first)?;
            is_taken = false;
        } else if *first == b' ' {
            return Ok(if are_blanks(others) { Some(word) } else { None });
        } else if *first == b'\\' {
            is_taken = true;
        } else {
            word.push(*first)?;
        }
        rest = others;
    }
    Ok(Some(word))
}
