//! Stars in place of pieces of which it isn't known what Unison matches by them at most.
ghost use Rattle.std.specs.Prelude.{◌≡◌, ◌++◌, map, IfOk};
ghost use Rattle.hub_glob.specs.Glob.{choices};
ghost use Rattle.hub_unison.specs.Matching as matching;

use crate::copies::copy_of;
use crate::simple::is_simple_piece;
use hub_glob::{PathSpec, Piece};
use hub_text::Items;
use std::alloc::{AllocError, Global};

/// Returns the choices of a specification, and then these with stars.
pub(crate) fn with_stars(alloc: Global, spec: &PathSpec) -> Result<Items<Items<Piece>>, AllocError>
    ensures { IfOk result (λ all. all
        ≡ choices spec.now.pattern ++ map (map matching.star_for) (choices spec.now.pattern)) }
{
    let own = spec.choices()?;
    let mut all = spec.choices()?;
    for choice in own.as_slice() {
        all.push(starred(alloc, choice.as_slice())?)?;
    }
    Ok(all)
}

/// Returns pieces with stars.
fn starred(alloc: Global, pieces: &[Piece]) -> Result<Items<Piece>, AllocError>
    ensures { IfOk result (λ stars. stars ≡ map matching.star_for pieces.now) }
{
    let mut stars = Items::new(alloc);
    for piece in pieces {
        stars.push(star_for(alloc, piece)?)?;
    }
    Ok(stars)
}

/// Copies a piece, or returns a star in its place.
fn star_for(alloc: Global, piece: &Piece) -> Result<Piece, AllocError>
    ensures { IfOk result (λ star. star ≡ matching.star_for piece.now) }
{
    if is_simple_piece(piece) {
        return copy_of(alloc, piece);
    }
    Ok(Piece::Run)
}
