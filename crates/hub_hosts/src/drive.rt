//! Drives of Windows in the paths of roots.
ghost use Rattle.std.specs.Prelude.{◌≡◌, ◌++◌, OnOk, map};
ghost use Rattle.std.specs.Option.{option_map};
ghost use Rattle.hub_hosts.specs.Drives as drives;
ghost use Rattle.hub_hosts.specs.Drives.{of_below};

use crate::words::{is_one_of, skip, skip_end};
use std::alloc::AllocError;

/// What stands between the names of a path on Windows.
const SEPARATORS: &[u8] = b"/\\";

/// Where a path of a host leads, seen from its `/`.
#[derive(Clone, Copy, Debug, PartialEq, Eq)]
pub(crate) struct Below<T> {
    /// The letter of its drive, as a capital, if it is on one.
    pub(crate) drive: Option<u8>,
    /// What follows, without slashes around it. On a drive a `\` is one, too.
    pub(crate) rest: T,
}

/// Where a path leads.
pub(crate) fn below_of(path: &[u8]) -> Below<&[u8]>
    ensures { of_below result ≡ drives.below_of path.now }
{
    match drive_of(path) {
        Some(below) => below,
        None => plain(path),
    }
}

/// Where a path leads that is on no drive.
fn plain(path: &[u8]) -> Below<&[u8]>
    ensures { of_below result ≡ drives.plain path.now }
{
    Below {
        drive: None,
        rest: skip_end(b"/", skip(b"/", path)),
    }
}

/// Where a path leads, if it is on a drive.
fn drive_of(path: &[u8]) -> Option<Below<&[u8]>>
    ensures { option_map of_below result ≡ drives.drive_of path.now }
{
    match by_letter(path) {
        Some(below) => Some(below),
        None => by_cygdrive(path),
    }
}

/// Returns whether a path begins with the letter of a drive and `:`.
pub(crate) fn begins_with_drive(path: &[u8]) -> bool
    ensures { result ≡ drives.begins_with_drive path.now }
{
    by_letter(path).is_some()
}

/// Where a path leads that begins with the letter of a drive and `:`.
fn by_letter(path: &[u8]) -> Option<Below<&[u8]>>
    ensures { option_map of_below result ≡ drives.by_letter path.now }
{
    at_letter(path, b":")
}

/// Where a path leads that begins with `/cygdrive/` and the letter of a drive.
fn by_cygdrive(path: &[u8]) -> Option<Below<&[u8]>>
    ensures { option_map of_below result ≡ drives.by_cygdrive path.now }
{
    if !path.starts_with(b"/") {
        return None;
    }
    match skip(b"/", path).strip_prefix(b"cygdrive/") {
        Some(text) => at_letter(skip(b"/", text), b""),
        None => None,
    }
}

/// Where a text leads that begins with the letter of a drive and this word.
fn at_letter<'a>(text: &'a [u8], word: &[u8]) -> Option<Below<&'a [u8]>>
    ensures { option_map of_below result ≡ drives.at_letter word.now text.now }
{
    match text.split_first() {
        Some((letter, others)) => behind_letter(*letter, word, others),
        None => None,
    }
}

/// Where a text leads that begins with this letter, if it is that of a drive, and this word. What follows the letter is given.
fn behind_letter<'a>(letter: u8, word: &[u8], others: &'a [u8]) -> Option<Below<&'a [u8]>>
    ensures { option_map of_below result ≡ drives.behind_letter letter word.now others.now }
{
    let rest = others.strip_prefix(word)?;
    if letter.is_ascii_alphabetic() && is_end(rest) {
        Some(on_drive(letter, rest))
    } else {
        None
    }
}

/// Returns whether the name of a drive ends before this text.
fn is_end(text: &[u8]) -> bool
    ensures { result ≡ drives.is_end text.now }
{
    match text.split_first() {
        Some((first, _)) => is_one_of(SEPARATORS, *first),
        None => true,
    }
}

/// Where a path on the drive of this letter leads.
fn on_drive(letter: u8, path: &[u8]) -> Below<&[u8]>
    ensures { of_below result ≡ drives.on_drive letter path.now }
{
    Below {
        drive: Some(letter.to_ascii_uppercase()),
        rest: skip_end(SEPARATORS, skip(SEPARATORS, path)),
    }
}

impl<'a> Below<&'a [u8]> {
    /// Returns whether it is on a drive.
    pub(crate) fn is_on_drive(self) -> bool
        ensures { result ≡ drives.is_on_drive (of_below self.entry) }
    {
        self.drive.is_some()
    }

    /// Returns whether it is the `/` of the host.
    pub(crate) fn is_top(self) -> bool
        ensures { result ≡ drives.is_top (of_below self.entry) }
    {
        !self.is_on_drive() && self.rest.is_empty()
    }

    /// Adds the path to a text.
    pub(crate) fn push_to(self, text: &mut Vec<u8>) -> Result<(), AllocError>
        ensures { OnOk result
            (text.new.items ≡ text.old.items ++ drives.text_of (of_below self.entry)) }
    {
        match self.drive {
            Some(letter) => push_drive(text, letter, self.rest),
            None => text.extend_from_slice(self.rest),
        }
    }
}

/// Adds a path on the drive of this letter to a text.
fn push_drive(text: &mut Vec<u8>, letter: u8, rest: &[u8]) -> Result<(), AllocError>
    ensures { OnOk result (text.new.items ≡ text.old.items ++ drives.drive_text letter rest.now) }
{
    text.push(letter)?;
    text.push(b':')?;
    if rest.is_empty() {
        return Ok(());
    }
    text.push(b'/')?;
    push_slashed(text, rest)
}

/// Adds a path with slashes for its separators to a text.
fn push_slashed(text: &mut Vec<u8>, path: &[u8]) -> Result<(), AllocError>
    ensures { OnOk result (text.new.items ≡ text.old.items ++ map drives.slashed path.now) }
{
    let mut rest = path;
    while let Some((first, others)) = rest.split_first() {
        text.push(slashed(*first))?;
        rest = others;
    }
    Ok(())
}

/// A byte of a path on a drive, with a slash for a separator.
fn slashed(byte: u8) -> u8
    ensures { result ≡ drives.slashed byte }
{
    if byte == b'\\' { b'/' } else { byte }
}
