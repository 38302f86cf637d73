//! The escapes in a field.
use anyhow::{Context, Result, bail, ensure};
use std::alloc::Global;

/// The bytes that a field with escapes stands for.
pub fn bytes_of(alloc: Global, field: &str) -> Result<Vec<u8>> {
    let mut bytes = Vec::new(alloc);
    push_unescaped(&mut bytes, field)?;
    Ok(bytes)
}

/// The text that a field with escapes stands for.
pub fn text_of(alloc: Global, field: &str) -> Result<String> {
    Ok(String::from_utf8(bytes_of(alloc, field)?)?)
}

/// Where a reader of a text with escapes stands.
#[derive(Clone, Copy)]
enum Place {
    /// In the text itself.
    Text,
    /// After a `\`.
    Escape,
    /// After a `\x`.
    FirstDigit,
    /// After a `\x` and this digit.
    SecondDigit(u8),
}

/// Appends the bytes that a field with escapes stands for.
fn push_unescaped(bytes: &mut Vec<u8>, text: &str) -> Result<()> {
    let mut place = Place::Text;
    for byte in text.as_bytes() {
        place = push_at(bytes, place, *byte)?;
    }
    ensure!(matches!(place, Place::Text), "an escape isn't ended");
    Ok(())
}

/// Reads one byte: appends what it stands for or ends, and says where the reader stands then.
fn push_at(bytes: &mut Vec<u8>, place: Place, byte: u8) -> Result<Place> {
    match (place, byte) {
        (Place::Text, b'\\') => return Ok(Place::Escape),
        (Place::Escape, b'x') => return Ok(Place::FirstDigit),
        (Place::FirstDigit, _) => return Ok(Place::SecondDigit(digit_of(byte)?)),
        (Place::SecondDigit(high), _) => bytes.push(high << 4 | digit_of(byte)?)?,
        (Place::Escape, _) => push_escape(bytes, byte)?,
        (Place::Text, _) => bytes.push(byte)?,
    }
    Ok(Place::Text)
}

/// Appends what an escape of one letter stands for.
fn push_escape(bytes: &mut Vec<u8>, letter: u8) -> Result<()> {
    let byte = match letter {
        b'n' => b'\n',
        b'r' => b'\r',
        b't' => b'\t',
        b'0' => b'\0',
        b's' => b' ',
        b'\\' => b'\\',
        _ => bail!("an unknown escape"),
    };
    Ok(bytes.push(byte)?)
}

/// The value of a hexadecimal digit.
fn digit_of(byte: u8) -> Result<u8> {
    let digit = char::from(byte).to_digit(16);
    let digit = digit.context("a digit isn't hexadecimal")?;
    Ok(u8::try_from(digit)?)
}
