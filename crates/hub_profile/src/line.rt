//! One line of a text.
ghost use Rattle.std.specs.Prelude.{◌≡◌, ◌<◌, false, Ok, Err, IfOk, IfErr, chars, MatchOption};
ghost use Rattle.hub_profile.specs.Lines as lines;

use crate::fault::Fault;
use hub_text::{BLANKS, begins_with, first_word, is_empty, skip_blanks, without_last};

/// What a line says: its text without a CR at its end, and then without the blanks around it.
pub fn line_text(line: &str) -> &str
    ensures { chars result.now ≡ lines.trimmed_line (chars line.now) }
{
    trimmed(without_last(line, '\r'))
}

/// Returns whether a line sets something: it is neither blank nor a comment, which begins with `#`.
pub fn is_setting(line: &str) -> bool
    ensures { result ≡ lines.is_setting (chars line.now) }
{
    !is_empty(line) && !begins_with(line, '#')
}

/// The name and the value that a line sets, or `IncludeLeftOut` or `NoEquals`.
pub(crate) fn setting(line: &str) -> Result<(&str, &str), Fault>
    ensures ok { IfOk result (λ s. lines.setting (chars line.now) ≡ Ok (lines.both_chars s)) }
    ensures err { IfErr result (λ e. lines.setting (chars line.now) ≡ Err e) }
{
    if is_include(line) {
        return Err(Fault::IncludeLeftOut);
    }
    match name_and_value(line) {
        Some(pair) => Ok(pair),
        None => Err(Fault::NoEquals),
    }
}

/// Returns whether a line includes another file: its first word says so, and it sets nothing.
fn is_include(line: &str) -> bool
    ensures { result ≡ lines.is_include (chars line.now) }
{
    let (word, rest) = first_word(line);
    includes(word) && !begins_with(skip_blanks(rest), '=')
}

/// The name of what a line sets, and the value that the line gives it, where it has an `=`.
pub fn name_and_value(line: &str) -> Option<(&str, &str)>
    ensures { MatchOption result (lines.has_equals (chars line.now) ≡ false)
        (lines.CutsTextAtEquals line.now) }
{
    let (name, value) = line.split_once('=')?;
    Some((trimmed(name), trimmed(value)))
}

/// Returns whether this word includes another file.
fn includes(word: &str) -> bool
    ensures { result ≡ lines.is_one_of lines.include_words (chars word.now) }
{
    ["include", "source", "include?", "source?"].contains(&word)
}

/// A text without blanks around it.
pub fn trimmed(text: &str) -> &str
    ensures { chars result.now ≡ lines.trimmed (chars text.now) }
{
    skip_blanks(text).trim_end_matches(BLANKS)
}
