//! Whether lines stand in the section of their profile.
ghost use Rattle.std.specs.Prelude.{◌≡◌, ◌==◌, true, string_bytes};
ghost use Rattle.std.specs.List.{list_all};
ghost use Rattle.hub_mend.specs.Placed as spec;

use crate::piece::Piece;
use crate::text::rest_after;

/// Returns whether each part with lines is the section of the profile of its name, and each of its lines is one line, an `ignore`
/// line or a bar.
pub(crate) fn are_placed(pieces: &[Piece]) -> bool
    ensures { result ≡ true → spec.ArePlaced pieces.now }
{
    let mut rest = pieces;
    while let Some((piece, later)) = rest.split_first() {
        if !is_placed(piece) {
            return false;
        }
        rest = later;
    }
    true
}

fn is_placed(piece: &Piece) -> bool
    ensures { result ≡ true → spec.IsPlaced piece.now }
{
    let lines = piece.lines.as_slice();
    (lines.is_empty() || is_headed(piece.text.as_slice(), piece.name.as_str())) && are_taking(lines)
}

/// Returns whether the first line of a text is the heading of the profile of that name.
fn is_headed(text: &[u8], name: &str) -> bool
    ensures { result ≡ true → spec.IsHeaded name.now text.now }
{
    let Some(named) = rest_after(text, b"%profile ") else {
        return false;
    };
    let Some(rest) = rest_after(named, name.as_bytes()) else {
        return false;
    };
    ends_line(rest) && !has_lf(name.as_bytes())
}

/// Returns whether a line ends at the start of a text.
fn ends_line(text: &[u8]) -> bool
    ensures { result ≡ spec.ends_line text.now }
{
    match text.split_first() {
        Some((first, rest)) => *first == 10 || (*first == 13 && is_end(rest)),
        None => true,
    }
}

fn is_end(text: &[u8]) -> bool
    ensures { result ≡ spec.is_end text.now }
{
    match text.split_first() {
        Some((first, _)) => *first == 10,
        None => true,
    }
}

fn has_lf(text: &[u8]) -> bool
    ensures { result ≡ spec.has_lf text.now }
{
    text.iter().any(is_lf)
}

fn is_lf(byte: &u8) -> bool
    ensures { result ≡ (byte.now == 10) }
{
    *byte == 10
}

/// Returns whether these are one line each, and `ignore` lines or bars.
fn are_taking(lines: &[String]) -> bool
    ensures { result ≡ list_all (λ l. spec.is_taking (string_bytes l)) lines.now }
{
    lines.iter().all(is_taking)
}

fn is_taking(line: &String) -> bool
    ensures { result ≡ spec.is_taking (string_bytes line.now) }
{
    is_taking_text(line.as_str().as_bytes())
}

fn is_taking_text(line: &[u8]) -> bool
    ensures { result ≡ spec.is_taking line.now }
{
    (line.starts_with(b"ignore = ")
        || line.starts_with(b"nodeletion")
        || line.starts_with(b"noupdate")
        || line.starts_with(b"nocreation"))
        && !has_lf(line)
}
