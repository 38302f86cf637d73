//! How a remark is written.
ghost use Rattle.std.specs.Prelude.{◌≡◌, ◌++◌, OnOk, chars, is_some, string_bytes};
ghost use Rattle.hub_source.specs.Covering as covering;
ghost use Rattle.hub_source.specs.LineText as line_text;
ghost use Rattle.hub_source.specs.Saying as saying;

use crate::source::{Source, SourceLine};
use hub_text::{begins_with, is_empty, without_last, without_last_cr};
use std::alloc::{AllocError, Global};

/// How many characters of a line are shown at most.
const SHOWN_CHARACTERS: usize = 200;

/// What a function gives that adds to a remark: nothing, or that memory is out.
pub type Said = Result<(), AllocError>;

/// Adds a line of a remark.
pub fn say(out: &mut String, words: &str) -> Said
    ensures { OnOk result (string_bytes out.new ≡ string_bytes out.old ++ saying.said words.now) }
{
    out.push_str("hubsync: ")?;
    out.push_str(words)?;
    out.push_str("\n")
}

/// Adds a line of the input, with its place.
pub fn say_line(out: &mut String, alloc: Global, line: &SourceLine<'_>) -> Said {
    let place = line.place();
    let text = shown(alloc, line.bytes)?;
    writeln!(out, "hubsync: {place}: {text}")
}

/// Adds a line of a profile or of the rules, with its place, and with its number in its section if no file is known.
pub fn say_placed(out: &mut String, source: &Source<'_>, line: &SourceLine<'_>) -> Said {
    let name = name_of(source, line.section);
    let number = line.number;
    let place = line.place();
    let text = shown(source.alloc(), line.bytes)?;
    match line.file {
        Some(_) => writeln!(out, "hubsync: {name} ({place}): {text}"),
        None => writeln!(out, "hubsync: {name}, line {number} ({place}): {text}"),
    }
}

/// What a section is called: its profile's name, or its heading.
pub fn name_of<'a>(source: &Source<'a>, section: usize) -> &'a str {
    let Some(heading) = source.line(section, 0) else {
        return "";
    };
    match heading.profile() {
        Some(name) => name,
        None => heading.text(),
    }
}

/// The start of a line as it is shown: with escapes, if a character of it can't be seen.
pub fn shown(alloc: Global, bytes: &[u8]) -> Result<String, AllocError> {
    shown_up_to(alloc, bytes, SHOWN_CHARACTERS)
}

/// A line as it is shown, to its end.
pub fn shown_whole(alloc: Global, bytes: &[u8]) -> Result<String, AllocError> {
    shown_up_to(alloc, bytes, usize::MAX)
}

/// The start of a line as it is shown, with so many characters at most.
fn shown_up_to(alloc: Global, bytes: &[u8], most: usize) -> Result<String, AllocError> {
    let Ok(text) = str::from_utf8(without_last_cr(bytes)) else {
        return String::from_str(alloc, "(not UTF-8)");
    };
    if text.is_empty() {
        return String::from_str(alloc, "(blank)");
    }
    let start: String = text.chars().take(most).collect(alloc)?;
    if start.as_str().chars().any(is_hidden) {
        return format!(in alloc; "{start:?}");
    }
    Ok(start)
}

/// Returns whether a character can't be seen as it is.
fn is_hidden(c: char) -> bool {
    c.is_control() || c == '\u{feff}'
}

/// What is odd about the encoding of a line, if anything is.
pub fn odd_encoding(bytes: &[u8]) -> Option<&'static str>
    ensures { is_some result ≡ line_text.is_odd bytes.now }
{
    if bytes.starts_with(b"\xef\xbb\xbf") {
        return Some("a byte order mark stands before this line: save the file as UTF-8 without it");
    }
    if seems_utf16(bytes) {
        return Some("the input seems to be UTF-16: save it as UTF-8");
    }
    if without_last_cr(bytes).contains(&b'\r') {
        return Some("a CR stands within this line: a line ends with LF, or with CR and LF");
    }
    None
}

/// Returns whether a line begins with a byte order mark of UTF-16, or has a NUL.
fn seems_utf16(bytes: &[u8]) -> bool
    ensures { result ≡ line_text.seems_utf16 bytes.now }
{
    bytes.starts_with(b"\xff\xfe") || bytes.starts_with(b"\xfe\xff") || bytes.contains(&0)
}

/// Returns whether a path is this one or below it. This one may end with a `/`, and the empty one is above all.
pub fn covers(above: &str, path: &str) -> bool
    ensures { result ≡ covering.is_within_path (chars above.now) (chars path.now) }
{
    begins_with_names(without_last(above, '/'), path)
}

/// Returns whether a path begins with the names of another one.
fn begins_with_names(above: &str, path: &str) -> bool
    ensures { result ≡ covering.begins_with_names (chars above.now) (chars path.now) }
{
    match after_front(path, above) {
        Some(rest) => is_empty(above) || ends_name(rest),
        None => false,
    }
}

/// What follows a front in a text, if the text begins with it.
fn after_front<'t>(text: &'t str, front: &str) -> Option<&'t str>
    ensures { covering.IsRestAfter (chars front.now) (chars text.now) result }
{
    text.strip_prefix(front)
}

/// Returns whether a name ends where this text follows it in a path.
fn ends_name(rest: &str) -> bool
    ensures { result ≡ covering.ends_name (chars rest.now) }
{
    is_empty(rest) || begins_with(rest, '/')
}
