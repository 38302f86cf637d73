//! Hexadecimal digits.
//!
//! No loop here ends at a wrong digit, so that it is compiled for many digits at a time.
ghost use Rattle.std.specs.Prelude.{◌≡◌, ◌*◌, ◌<◌, length, option_map, slice_index, unwrap_or, IfOk};
ghost use Rattle.hex.specs.Hex.{decode_of, decode_pairs, encode_lower, hex_digit_value, lower_digits};
ghost use Rattle.hub_state.specs.Digits.{AreRead, ReadsAs};

use std::alloc::{AllocError, Global};

/// The bytes of digits, in either case, or `None` if the text is not pairs of digits.
pub fn decoded(alloc: Global, digits: &[u8]) -> Result<Option<Vec<u8>>, AllocError>
    ensures { IfOk result (λ o. ReadsAs (decode_of digits.now) (option_map (λ v. v.items) o)) }
{
    if digits.len() % 2 != 0 {
        return Ok(None);
    }
    let mut bytes = vec![in alloc; 0u8; digits.len() / 2]?;
    if decode_into(digits, bytes.as_mut_slice()) {
        return Ok(Some(bytes));
    }
    Ok(None)
}

/// Writes the bytes of as many pairs of digits, and returns whether all of them are digits.
fn decode_into(digits: &[u8], bytes: &mut [u8]) -> bool
    requires { length digits.now ≡ 2 * length bytes.old }
    ensures { AreRead (decode_pairs 0 digits.now) result bytes.new }
{
    let mut largest: u8 = 0;
    for i in 0..bytes.len() {
        let high = value_of(digits[2 * i]);
        let low = value_of(digits[2 * i + 1]);
        bytes[i] = high.wrapping_mul(16).wrapping_add(low);
        largest = largest.max(high).max(low);
    }
    largest < 16
}

/// The value of a digit, or 255.
#[inline(always)]
fn value_of(digit: u8) -> u8
    ensures { result ≡ unwrap_or (hex_digit_value digit) 255 }
{
    let number = digit.wrapping_sub(b'0');
    let capital = digit - digit / 32 % 2 * 32;
    let letter = capital.wrapping_sub(b'A');
    if number < 10 {
        number
    } else if letter < 6 {
        letter + 10
    } else {
        255
    }
}

/// Writes the digits of bytes.
pub fn encode_into(bytes: &[u8], digits: &mut [u8])
    requires { length digits.old ≡ 2 * length bytes.now }
    ensures { digits.new ≡ encode_lower bytes.now }
{
    for i in 0..bytes.len() {
        let byte = bytes[i];
        digits[2 * i] = digit_of(byte / 16);
        digits[2 * i + 1] = digit_of(byte % 16);
    }
}

/// The digit of a number below 16.
#[inline(always)]
fn digit_of(number: u8) -> u8
    requires { number < 16 }
    ensures { result ≡ slice_index lower_digits number }
{
    if number < 10 {
        b'0' + number
    } else {
        b'a' - 10 + number
    }
}
