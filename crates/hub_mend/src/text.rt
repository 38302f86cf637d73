//! The texts of parts of a bundle and of lines that follow them.
ghost use Rattle.std.specs.Prelude.{◌≡◌, ◌++◌, true, IfOk, OnOk, IfSome, string_bytes};
ghost use Rattle.std.specs.List.{flat_map};
ghost use Rattle.hub_mend.specs.Additions as spec;
ghost use Rattle.hub_mend.specs.Placed.{ArePlaced};

use crate::piece::Piece;
use crate::placed::are_placed;
use std::alloc::{AllocError, Global};

/// Returns whether these parts are the whole text, one after another, each part with lines is the section of the profile of its
/// name, and each of its lines is one line, an `ignore` line or a bar.
pub fn is_cut_into(text: &[u8], pieces: &[Piece]) -> bool
    ensures whole { result ≡ true → text.now ≡ spec.own_text pieces.now }
    ensures placed { result ≡ true → ArePlaced pieces.now }
{
    are_whole(text, pieces) && are_placed(pieces)
}

/// Returns whether these parts are the whole text, one after another.
fn are_whole(text: &[u8], pieces: &[Piece]) -> bool
    ensures { result ≡ true → text.now ≡ spec.own_text pieces.now }
{
    let mut rest = text;
    for piece in pieces {
        match rest_after(rest, piece.text.as_slice()) {
            Some(later) => rest = later,
            None => return false,
        }
    }
    rest.is_empty()
}

/// Returns what follows a part of a text at its start.
pub(crate) fn rest_after<'a>(text: &'a [u8], front: &[u8]) -> Option<&'a [u8]>
    ensures { IfSome result (λ rest. text.now ≡ front.now ++ rest.now) }
{
    text.strip_prefix(front)
}

/// Returns the text of these parts with the lines that follow them.
pub fn mended_text(alloc: Global, pieces: &[Piece]) -> Result<Vec<u8>, AllocError>
    ensures { IfOk result (λ text. text.items ≡ spec.mended_text pieces.now) }
{
    let mut text = Vec::new(alloc);
    for piece in pieces {
        push_piece(&mut text, piece)?;
    }
    Ok(text)
}

/// Appends a part with the lines that follow it.
pub(crate) fn push_piece(text: &mut Vec<u8>, piece: &Piece) -> Result<(), AllocError>
    ensures { OnOk result
        (text.new.items ≡ text.old.items ++ piece.now.text.items ++ spec.block piece.now) }
{
    text.extend_from_slice(piece.text.as_slice())?;
    push_block(text, piece)
}

/// Appends the lines that follow a part, if there are any.
fn push_block(text: &mut Vec<u8>, piece: &Piece) -> Result<(), AllocError>
    ensures { OnOk result (text.new.items ≡ text.old.items ++ spec.block piece.now) }
{
    if piece.lines.is_empty() {
        return Ok(());
    }
    push_below_comment(text, piece)
}

/// Appends the lines that follow a part, below a comment.
fn push_below_comment(text: &mut Vec<u8>, piece: &Piece) -> Result<(), AllocError>
    ensures { OnOk result (text.new.items ≡ text.old.items ++ spec.commented piece.now) }
{
    push_end(text, piece)?;
    push(text, "# by hubsync mend\n")?;
    push_lines(text, piece.lines.as_slice())
}

/// Appends what ends a part, if lines are to follow it.
fn push_end(text: &mut Vec<u8>, piece: &Piece) -> Result<(), AllocError>
    ensures { OnOk result
        (text.new.items ≡ text.old.items ++ spec.line_end piece.now.text.items) }
{
    let end = line_end(piece.text.as_slice());
    push(text, end)
}

/// What ends a text, if lines are to follow it.
fn line_end(text: &[u8]) -> &'static str
    ensures { result.now ≡ spec.line_end text.now }
{
    if text.is_empty() || text.ends_with(b"\n") {
        ""
    } else {
        "\n"
    }
}

/// Appends a text.
fn push(text: &mut Vec<u8>, more: &str) -> Result<(), AllocError>
    ensures { OnOk result (text.new.items ≡ text.old.items ++ more.now) }
{
    text.extend_from_slice(more.as_bytes())
}

/// Appends lines.
fn push_lines(text: &mut Vec<u8>, lines: &[String]) -> Result<(), AllocError>
    ensures { OnOk result (text.new.items ≡ text.old.items ++ flat_map (λ l. spec.line_text (string_bytes l)) lines.now) }
{
    for line in lines {
        push(text, line.as_str())?;
        push(text, "\n")?;
    }
    Ok(())
}

/// Returns the lines that follow the parts, each behind the name of its profile.
pub fn shown_lines(alloc: Global, pieces: &[Piece]) -> Result<Vec<u8>, AllocError>
    ensures { IfOk result (λ text. text.items ≡ spec.shown_lines pieces.now) }
{
    let mut text = Vec::new(alloc);
    for piece in pieces {
        push_shown(&mut text, piece.name.as_str(), piece.lines.as_slice())?;
    }
    Ok(text)
}

/// Appends lines, each behind this name.
fn push_shown(text: &mut Vec<u8>, name: &str, lines: &[String]) -> Result<(), AllocError>
    ensures { OnOk result (text.new.items
        ≡ text.old.items ++ flat_map (λ l. spec.shown_line name.now (string_bytes l)) lines.now) }
{
    for line in lines {
        push(text, name)?;
        push(text, ": ")?;
        push(text, line.as_str())?;
        push(text, "\n")?;
    }
    Ok(())
}

/// Returns how many lines follow these parts, or `None` if they are too many to be counted.
pub fn line_count(pieces: &[Piece]) -> Option<usize>
    ensures { IfSome result (λ n. n ≡ spec.line_count pieces.now) }
{
    let mut count: usize = 0;
    for piece in pieces {
        count = count.checked_add(piece.lines.len())?;
    }
    Some(count)
}

/// Returns the line that says that the bundle is safe with so many lines.
pub fn safe_line(alloc: Global, count: usize) -> Result<String, AllocError>
    ensures { IfOk result (λ t. string_bytes t ≡ spec.safe_line count) }
{
    if count == 1 {
        String::from_str(alloc, "safe with 1 line\n")
    } else {
        format!(in alloc; "safe with {count} lines\n")
    }
}
