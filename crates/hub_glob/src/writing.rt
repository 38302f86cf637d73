//! Writing path specifications.
ghost use Rattle.std.specs.Prelude.{◌≡◌, IfOk, string_bytes, encode_utf8_all};
ghost use Rattle.hub_glob.specs.Writing as writing;

use crate::path_spec::Kind;
use crate::piece::{Part, Piece};
use crate::reading::is_special;
use hub_text::Items;
use std::alloc::{AllocError, Global};

/// The text of the specification of that kind that has these parts. It reads back, if it has few enough characters (law
/// `reading_undoes_writing`).
pub fn text_of(alloc: Global, kind: Kind, parts: &[Part]) -> Result<String, AllocError>
    ensures { IfOk result
        (λ t. string_bytes t ≡ encode_utf8_all (writing.text_with_kind kind parts.now)) }
{
    let mut text = String::from_str(alloc, word_of(kind))?;
    text.push(' ')?;
    push_parts(&mut text, parts)?;
    Ok(text)
}

fn word_of(kind: Kind) -> &'static str
    ensures { result.now ≡ writing.kind_word kind }
{
    match kind {
        Kind::Name => "Name",
        Kind::Path => "Path",
        Kind::BelowPath => "BelowPath",
    }
}

fn push_parts(text: &mut String, parts: &[Part]) -> Result<(), AllocError>
    ensures { IfOk result
        (λ _. writing.AppendsText text.old text.new (writing.pattern_text parts.now)) }
{
    for part in parts {
        push_part(text, part)?;
    }
    Ok(())
}

fn push_part(text: &mut String, part: &Part) -> Result<(), AllocError>
    ensures { IfOk result
        (λ _. writing.AppendsText text.old text.new (writing.pattern_part_text part.now)) }
{
    match part {
        Part::One(piece) => push_piece(text, piece),
        Part::Brace(choices) => {
            text.push('{')?;
            push_choices(text, choices.as_slice())?;
            text.push('}')
        }
    }
}

fn push_choices(text: &mut String, choices: &[Items<Piece>]) -> Result<(), AllocError>
    ensures { IfOk result
        (λ _. writing.AppendsText text.old text.new (writing.choices_text choices.now)) }
{
    for (i, choice) in choices.iter().enumerate() {
        if i > 0 {
            text.push(',')?;
        }
        push_pieces(text, choice.as_slice())?;
    }
    Ok(())
}

fn push_pieces(text: &mut String, pieces: &[Piece]) -> Result<(), AllocError>
    ensures { IfOk result
        (λ _. writing.AppendsText text.old text.new (writing.pieces_text pieces.now)) }
{
    for piece in pieces {
        push_piece(text, piece)?;
    }
    Ok(())
}

fn push_piece(text: &mut String, piece: &Piece) -> Result<(), AllocError>
    ensures { IfOk result
        (λ _. writing.AppendsText text.old text.new (writing.piece_text piece.now)) }
{
    match piece {
        Piece::Lit(c) => push_literal(text, *c),
        Piece::Any => text.push('?'),
        Piece::Run => text.push('*'),
        Piece::OneOf(set) => {
            text.push('[')?;
            push_members(text, set.as_slice())?;
            text.push(']')
        }
    }
}

/// Writes the members of a set. Where a `-` and a further member follow, a member is written as the range of itself
/// alone, since the `-` would make a range.
fn push_members(text: &mut String, set: &[char]) -> Result<(), AllocError>
    ensures { IfOk result
        (λ _. writing.AppendsText text.old text.new (writing.members_text set.now)) }
{
    for i in 0..set.len() {
        push_literal(text, set[i])?;
        if i + 2 < set.len() && set[i + 1] == '-' {
            text.push('-')?;
            push_literal(text, set[i])?;
        }
    }
    Ok(())
}

/// Writes a character, with a `\` before it where it would mean something else.
fn push_literal(text: &mut String, c: char) -> Result<(), AllocError>
    ensures { IfOk result
        (λ _. writing.AppendsText text.old text.new (writing.literal c)) }
{
    if is_special(c) {
        text.push('\\')?;
    }
    text.push(c)
}
