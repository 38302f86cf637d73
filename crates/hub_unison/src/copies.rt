//! Copies of pieces.
ghost use Rattle.std.specs.Prelude.{◌≡◌, ◌++◌, IfOk};

use hub_glob::Piece;
use hub_text::Items;
use std::alloc::{AllocError, Global};

/// Appends copies of pieces.
pub(crate) fn push_copies(list: &mut Items<Piece>, pieces: &[Piece]) -> Result<(), AllocError>
    ensures { IfOk result (λ _. list.new ≡ list.old ++ pieces.now) }
{
    for piece in pieces {
        let copy = copy_of(list.alloc(), piece)?;
        list.push(copy)?;
    }
    Ok(())
}

/// Copies a piece.
pub(crate) fn copy_of(alloc: Global, piece: &Piece) -> Result<Piece, AllocError>
    ensures { IfOk result (λ copy. copy ≡ piece.now) }
{
    match piece {
        Piece::Lit(c) => Ok(Piece::Lit(*c)),
        Piece::Any => Ok(Piece::Any),
        Piece::Run => Ok(Piece::Run),
        Piece::OneOf(set) => {
            let members = copy_of_set(alloc, set.as_slice())?;
            Ok(Piece::OneOf(members))
        }
    }
}

fn copy_of_set(alloc: Global, set: &[char]) -> Result<Items<char>, AllocError>
    ensures { IfOk result (λ copy. copy ≡ set.now) }
{
    let mut copy = Items::new(alloc);
    for c in set {
        copy.push(*c)?;
    }
    Ok(copy)
}
