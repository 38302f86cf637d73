//! The pieces of a pattern, folded in Unicode mode.
ghost use Rattle.std.specs.Prelude.{◌≡◌, ◌++◌, IfOk, map};
ghost use Rattle.std.specs.List.{flat_map};
ghost use Rattle.hub_glob.specs.declared.piece.Part.TheVariants.{One};
ghost use Rattle.hub_glob.specs.declared.piece.Piece.TheVariants.{Lit};
ghost use Rattle.hub_folded.specs.Lines as lines;
ghost use Rattle.hub_folded.specs.Table.{folded_character, unicode};

use crate::fold::push_characters;
use hub_glob::{Part, Piece};
use hub_text::Items;
use std::alloc::{AllocError, Global};

/// Returns what the parts of a pattern fold to.
pub(crate) fn folded_parts(alloc: Global, parts: &[Part]) -> Result<Items<Part>, AllocError>
    ensures { IfOk result (λ ps. ps ≡ flat_map (lines.fold_part unicode) parts.now) }
{
    let mut folded = Items::new(alloc);
    for part in parts {
        push_part(&mut folded, part)?;
    }
    Ok(folded)
}

fn push_part(list: &mut Items<Part>, part: &Part) -> Result<(), AllocError>
    ensures { IfOk result (λ _. list.new ≡ list.old ++ lines.fold_part unicode part.now) }
{
    match part {
        Part::One(piece) => {
            let mut pieces = Items::new(list.alloc());
            push_piece(&mut pieces, piece)?;
            push_each(list, pieces)
        }
        Part::Brace(choices) => {
            let folded = folded_choices(list.alloc(), choices.as_slice())?;
            Ok(list.push(Part::Brace(folded))?)
        }
    }
}

/// Appends each piece as a part of its own.
fn push_each(list: &mut Items<Part>, pieces: Items<Piece>) -> Result<(), AllocError>
    ensures { IfOk result (λ _. list.new ≡ list.old ++ map (λ q. One q) pieces) }
{
    for piece in pieces.into_vec() {
        list.push(Part::One(piece))?;
    }
    Ok(())
}

fn folded_choices(
    alloc: Global,
    choices: &[Items<Piece>],
) -> Result<Items<Items<Piece>>, AllocError>
    ensures { IfOk result (λ cs. cs ≡ map (lines.fold_pieces unicode) choices.now) }
{
    let mut folded = Items::new(alloc);
    for choice in choices {
        folded.push(folded_pieces(alloc, choice.as_slice())?)?;
    }
    Ok(folded)
}

fn folded_pieces(alloc: Global, pieces: &[Piece]) -> Result<Items<Piece>, AllocError>
    ensures { IfOk result (λ ps. ps ≡ lines.fold_pieces unicode pieces.now) }
{
    let mut folded = Items::new(alloc);
    for piece in pieces {
        push_piece(&mut folded, piece)?;
    }
    Ok(folded)
}

fn push_piece(list: &mut Items<Piece>, piece: &Piece) -> Result<(), AllocError>
    ensures { IfOk result (λ _. list.new ≡ list.old ++ lines.fold_piece unicode piece.now) }
{
    match piece {
        Piece::Lit(c) => push_literals(list, *c),
        Piece::Any => Ok(list.push(Piece::Any)?),
        Piece::Run => Ok(list.push(Piece::Run)?),
        Piece::OneOf(set) => {
            let members = folded_members(list.alloc(), set.as_slice())?;
            Ok(list.push(Piece::OneOf(members))?)
        }
    }
}

/// Appends the literals that a literal folds to.
fn push_literals(list: &mut Items<Piece>, c: char) -> Result<(), AllocError>
    ensures { IfOk result (λ _. list.new ≡ list.old ++ map (λ d. Lit d) (folded_character c)) }
{
    let mut image = Items::new(list.alloc());
    push_characters(&mut image, c)?;
    for d in image.as_slice() {
        list.push(Piece::Lit(*d))?;
    }
    Ok(())
}

fn folded_members(alloc: Global, set: &[char]) -> Result<Items<char>, AllocError>
    ensures { IfOk result (λ cs. cs ≡ flat_map folded_character set.now) }
{
    let mut members = Items::new(alloc);
    for c in set {
        push_characters(&mut members, *c)?;
    }
    Ok(members)
}
