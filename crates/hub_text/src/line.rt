//! The lines of bytes and of texts.
ghost use Rattle.std.specs.Prelude.{◌≡◌, ◌∷◌, ◌<◌, length, chars};
ghost use Rattle.hub_text.specs.Lines as lines;
ghost use Rattle.hub_text.specs.Lines.{lines_of};
ghost use Rattle.hub_text.specs.Takes.{of_bytes, of_text};

use crate::text::is_empty;
use memchr::memchr;
use std::marker::Model;

/// A line: what precedes its LF, and whether there is one. Only the last line of a text may have none.
#[derive(Clone, Copy, Debug, PartialEq, Eq)]
pub struct Line<T> {
    /// The line without its LF.
    pub text: T,
    /// Whether an LF ends the line.
    pub is_ended: bool,
}

/// A line without one CR at its end.
pub fn without_last_cr(line: &[u8]) -> &[u8]
    ensures { result.now ≡ lines.without_last_cr line.now }
{
    line.strip_suffix(b"\r").unwrap_or(line)
}

/// The lines of bytes, cut at each LF and borrowed. An LF at the end begins no further line: no bytes have no lines.
#[derive(Debug, Drop)]
pub struct Lines<'a> {
    rest: &'a [u8],
}

impl<'a> Model for Lines<'a> {
    ghost use Rattle.std.specs.Prelude.{List, ℕ};

    ghost Value = { List ℕ };

    ghost view = { λ s. s.rest.now };
}

impl<'a> Lines<'a> {
    /// Begins at the first line of these bytes.
    pub fn new(bytes: &'a [u8]) -> Lines<'a>
        ensures { result ≡ bytes.now }
    {
        Lines { rest: bytes }
    }

    /// Borrows the bytes of the lines that are still to come.
    pub fn rest(&self) -> &'a [u8]
        ensures { result.now ≡ self.now }
    {
        self.rest
    }
}

impl<'a> Iterator for Lines<'a> {
    type Item = Line<&'a [u8]>;

    ghost use Rattle.std.specs.Prelude.{length};
    ghost use Rattle.std.specs.Iterator.{at_most};
    ghost use Rattle.hub_text.specs.Takes.{Takes, of_bytes};

    ghost next_gives = { Takes of_bytes };

    ghost remaining = { λ s. at_most (length s) };

    fn next(&mut self) -> Option<Line<&'a [u8]>> {
        if self.rest.is_empty() {
            return None;
        }
        let (line, rest) = first_line(self.rest);
        self.rest = rest;
        Some(line)
    }
}

/// Cuts bytes below their first line.
fn first_line(bytes: &[u8]) -> (Line<&[u8]>, &[u8])
    requires { 0 < length bytes.now }
    ensures cut { lines_of bytes.now ≡ of_bytes result.0 ∷ lines_of result.1.now }
    ensures shorter { length result.1.now < length bytes.now }
{
    match memchr(b'\n', bytes) {
        Some(len) => (
            Line {
                text: &bytes[..len],
                is_ended: true,
            },
            &bytes[len + 1..],
        ),
        None => (
            Line {
                text: bytes,
                is_ended: false,
            },
            &[],
        ),
    }
}

/// The lines of a text, cut at each LF and borrowed, as `Lines` cuts bytes.
#[derive(Debug, Drop)]
pub struct TextLines<'a> {
    rest: &'a str,
}

impl<'a> Model for TextLines<'a> {
    ghost use Rattle.std.specs.Prelude.{List, ℕ, chars};

    ghost Value = { List ℕ };

    ghost view = { λ s. chars s.rest.now };
}

impl<'a> TextLines<'a> {
    /// Begins at the first line of a text.
    pub fn new(text: &'a str) -> TextLines<'a>
        ensures { result ≡ chars text.now }
    {
        TextLines { rest: text }
    }
}

impl<'a> Iterator for TextLines<'a> {
    type Item = Line<&'a str>;

    ghost use Rattle.std.specs.Prelude.{length};
    ghost use Rattle.std.specs.Iterator.{at_most};
    ghost use Rattle.hub_text.specs.Takes.{Takes, of_text};

    ghost next_gives = { Takes of_text };

    ghost remaining = { λ s. at_most (length s) };

    fn next(&mut self) -> Option<Line<&'a str>> {
        if is_empty(self.rest) {
            return None;
        }
        let (line, rest) = first_text_line(self.rest);
        self.rest = rest;
        Some(line)
    }
}

/// Cuts a text below its first line.
fn first_text_line(text: &str) -> (Line<&str>, &str)
    requires { 0 < length (chars text.now) }
    ensures cut { lines_of (chars text.now) ≡ of_text result.0 ∷ lines_of (chars result.1.now) }
    ensures shorter { length (chars result.1.now) < length (chars text.now) }
{
    match text.split_once('\n') {
        Some((line, rest)) => (
            Line {
                text: line,
                is_ended: true,
            },
            rest,
        ),
        None => (
            Line {
                text,
                is_ended: false,
            },
            "",
        ),
    }
}
