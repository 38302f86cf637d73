//! Single lines of a text of certificates.
ghost use Rattle.std.specs.Prelude.{◌≡◌, ◌≤◌, true, length, IfOk, IsTrue};
ghost use Rattle.std.specs.List.{before_first, after_first, list_all};
ghost use Rattle.std.specs.Option.{option_copied};
ghost use Rattle.hub_text.specs.Blanks.{is_space};
ghost use Rattle.hub_cert.specs.Reading as reading;

use crate::certificate::StageText;
use crate::goal::{Goal, Place};
use hex::FromHexError;
use hub_path::Side;
use memchr::memchr;
use std::alloc::{AllocError, Global};

/// Reads a goal line.
pub(crate) fn read_goal(line: &[u8]) -> Option<Goal>
    ensures { result ≡ reading.goal_in line.now }
{
    if let Some(rest) = after_word(line, b"goal clash ".as_slice()) {
        return read_clash(rest);
    }
    match after_word(line, b"goal breach ".as_slice()) {
        Some(rest) => read_breach(rest),
        None => None,
    }
}

/// Reads a stage line.
pub(crate) fn read_stage(alloc: Global, line: &[u8]) -> Result<Option<StageText>, AllocError>
    ensures { IfOk result (λ o. o ≡ reading.stage_text_in line.now) }
{
    match after_word(line, b"stage ".as_slice()) {
        Some(digits) => read_text(alloc, digits),
        None => Ok(None),
    }
}

/// Borrows what follows a word, if the line begins with it.
fn after_word<'a>(line: &'a [u8], word: &[u8]) -> Option<&'a [u8]>
    ensures { option_copied result ≡ reading.after_word word.now line.now }
{
    line.strip_prefix(word)
}

/// Cuts bytes at their first space, which is dropped. Without a space the second part is empty.
fn cut_at_space(bytes: &[u8]) -> (&[u8], &[u8])
    ensures before { result.0.now ≡ before_first is_space bytes.now }
    ensures after { result.1.now ≡ after_first is_space bytes.now }
{
    match memchr(b' ', bytes) {
        Some(len) => (&bytes[..len], &bytes[len + 1..]),
        None => (bytes, &[]),
    }
}

fn read_clash(words: &[u8]) -> Option<Goal>
    ensures { result ≡ reading.clash_in words.now }
{
    let (writer, rest) = cut_at_space(words);
    let (other, place) = cut_at_space(rest);
    let writer = read_number(writer)?;
    let other = read_number(other)?;
    let place = read_place(place)?;
    Some(Goal::Clash {
        writer,
        other,
        place,
    })
}

fn read_breach(words: &[u8]) -> Option<Goal>
    ensures { result ≡ reading.breach_in words.now }
{
    let (profile, rule) = cut_at_space(words);
    let profile = read_number(profile)?;
    let rule = read_number(rule)?;
    Some(Goal::Breach { profile, rule })
}

fn read_place(words: &[u8]) -> Option<Place>
    ensures { result ≡ reading.place_in words.now }
{
    if words == b"root 0".as_slice() {
        Some(Place::Replica(Side::Left))
    } else if words == b"root 1".as_slice() {
        Some(Place::Replica(Side::Right))
    } else if words == b"archive".as_slice() {
        Some(Place::Archive)
    } else {
        None
    }
}

/// Reads a number of at most four digits, which begins with 0 only if it is 0.
fn read_number(digits: &[u8]) -> Option<usize>
    ensures { result ≡ reading.number_in digits.now }
{
    if is_number(digits) {
        Some(value_of(digits))
    } else {
        None
    }
}

fn is_number(digits: &[u8]) -> bool
    ensures { result ≡ reading.is_number digits.now }
{
    !digits.is_empty() && digits.len() <= 4 && are_digits(digits) && !leads_zero(digits)
}

fn are_digits(bytes: &[u8]) -> bool
    ensures { result ≡ list_all reading.is_digit bytes.now }
{
    bytes.iter().all(is_digit)
}

/// Returns whether the first of some digits is a 0 that others follow.
fn leads_zero(digits: &[u8]) -> bool
    ensures { result ≡ reading.leads_zero digits.now }
{
    digits.len() > 1 && digits[0] == b'0'
}

fn is_digit(byte: &u8) -> bool
    ensures { result ≡ reading.is_digit byte.now }
{
    *byte >= b'0' && *byte <= b'9'
}

/// The value of digits, which are at most four.
fn value_of(digits: &[u8]) -> usize
    requires few { length digits.now ≤ 4 }
    requires digits { IsTrue (list_all reading.is_digit digits.now) }
    ensures { result ≡ reading.decimal_value digits.now }
{
    let mut value: usize = 0;
    for digit in digits {
        value = value * 10 + usize::from(*digit - b'0');
    }
    value
}

/// Reads the text whose bytes the digits are; `-` stands for the empty text.
fn read_text(alloc: Global, digits: &[u8]) -> Result<Option<StageText>, AllocError>
    ensures { IfOk result (λ o. o ≡ reading.text_in digits.now) }
{
    if digits == b"-".as_slice() {
        return Ok(Some(StageText::new(String::new(alloc))));
    }
    match hex::decode(alloc, digits) {
        Ok(bytes) => {
            if bytes.is_empty() {
                return Ok(None);
            }
            match String::from_utf8(bytes) {
                Ok(text) => Ok(Some(StageText::new(text))),
                Err(_) => Ok(None),
            }
        }
        Err(FromHexError::OutOfMemory) => Err(AllocError),
        Err(_) => Ok(None),
    }
}
