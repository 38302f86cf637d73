//! Cuts a bundle into parts.
use crate::piece::Piece;
use hub_text::{Lines, without_last_cr};
use std::alloc::{AllocError, Global};
use std::mem;

/// Cuts a bundle at its headings: what comes before the first one, and then each section with its heading.
pub(crate) fn cut_at_headings(alloc: Global, bytes: &[u8]) -> Result<Vec<Piece>, AllocError> {
    let mut pieces = Vec::new(alloc);
    let mut piece = empty_piece(alloc);
    let mut lines = Lines::new(bytes);
    while let Some(line) = lines.next() {
        if line.text.starts_with(b"%") {
            let next = Piece {
                name: name_in(alloc, line.text)?,
                ..empty_piece(alloc)
            };
            pieces.push(mem::replace(&mut piece, next))?;
        }
        piece.text.extend_from_slice(line.text)?;
        if line.is_ended {
            piece.text.push(b'\n')?;
        }
    }
    pieces.push(piece)?;
    Ok(pieces)
}

fn empty_piece(alloc: Global) -> Piece {
    Piece {
        text: Vec::new(alloc),
        name: String::new(alloc),
        lines: Vec::new(alloc),
    }
}

/// The name that the heading of a profile says. Of another heading it is empty.
fn name_in(alloc: Global, heading: &[u8]) -> Result<String, AllocError> {
    let name = match heading.strip_prefix(b"%profile ") {
        Some(name) => str::from_utf8(without_last_cr(name)).unwrap_or(""),
        None => "",
    };
    String::from_str(alloc, name)
}

/// Returns whether a part is the section of a profile.
pub(crate) fn is_profile(piece: &Piece) -> bool {
    !piece.name.is_empty()
}

/// Returns whether a part has the rules.
pub(crate) fn is_rules(piece: &Piece) -> bool {
    piece.text.as_slice().starts_with(b"%rules")
}
