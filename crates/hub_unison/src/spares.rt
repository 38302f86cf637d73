//! Spares: what hubsync has a pattern match, and Unison may not.
ghost use Rattle.std.specs.Prelude.{◌≡◌, ◌++◌, ◌∷◌, ◌==◌, [], IfOk, map, true};
ghost use Rattle.std.specs.List.{list_any};
ghost use Rattle.hub_glob.specs.declared.piece.Piece.TheVariants.{Lit};
ghost use Rattle.hub_unison.specs.Spares as spares;

use crate::copies::push_copies;
use crate::simple::is_simple;
use hub_glob::{PathSpec, Piece};
use hub_text::Items;
use std::alloc::{AllocError, Global};

/// Returns the spares of a specification's pattern: together they match each text that hubsync has it match, and that
/// Unison may not match.
pub(crate) fn spares_of(alloc: Global, spec: &PathSpec) -> Result<Items<Items<Piece>>, AllocError>
    ensures { IfOk result (λ found. found ≡ spares.pattern_spares spec.now.pattern) }
{
    let choices = spec.choices()?;
    let mut found = Items::new(alloc);
    for choice in choices.as_slice() {
        add_spares(&mut found, choice.as_slice())?;
    }
    Ok(found)
}

/// Returns whether Unison matches for certain what hubsync has the specification match: it is simple, and has no spares.
pub(crate) fn is_plain(alloc: Global, spec: &PathSpec) -> Result<bool, AllocError>
    ensures { IfOk result (λ plain. plain ≡ spares.is_plain spec.now.pattern) }
{
    if !is_simple(spec)? {
        return Ok(false);
    }
    let found = spares_of(alloc, spec)?;
    Ok(found.is_empty())
}

/// Appends the spares of pieces that stand at the start of a component.
fn add_spares(found: &mut Items<Items<Piece>>, pieces: &[Piece]) -> Result<(), AllocError>
    ensures { IfOk result (λ _. found.new ≡ found.old ++ spares.spares true pieces.now) }
{
    let mut first = true;
    for i in 0..pieces.len() {
        let (before, rest) = pieces.split_at(i);
        add_opening(found, first, before, rest)?;
        first = is_slash(&pieces[i]);
    }
    Ok(())
}

/// Appends the spare that begins with the dot which the first piece may take, if it stands at the start of a component.
fn add_opening(
    found: &mut Items<Items<Piece>>,
    first: bool,
    before: &[Piece],
    pieces: &[Piece],
) -> Result<(), AllocError>
    ensures { IfOk result (λ _. found.new
        ≡ found.old ++ map (λ d. before.now ++ d) (spares.opening first pieces.now)) }
{
    match pieces {
        [] => Ok(()),
        [piece, ..] => {
            if !first || is_literal(piece) {
                return Ok(());
            }
            add_dotted(found, before, pieces)
        }
    }
}

/// Appends what the pieces match with a dot at their start, after the pieces before them.
fn add_dotted(
    found: &mut Items<Items<Piece>>,
    before: &[Piece],
    pieces: &[Piece],
) -> Result<(), AllocError>
    ensures { IfOk result (λ _. found.new
        ≡ found.old ++ map (λ d. before.now ++ d) (spares.dotted pieces.now)) }
{
    match pieces {
        [] => Ok(()),
        [piece, rest @ ..] => {
            if piece.is_star() {
                return add_dotted(found, before, rest);
            }
            if takes_dot(piece) {
                return add_spare(found, before, rest);
            }
            Ok(())
        }
    }
}

/// Appends one spare: these pieces, a dot, and those.
fn add_spare(
    found: &mut Items<Items<Piece>>,
    before: &[Piece],
    rest: &[Piece],
) -> Result<(), AllocError>
    ensures { IfOk result (λ _. found.new
        ≡ found.old ++ (before.now ++ Lit 46 ∷ rest.now) ∷ []) }
{
    let mut spare = Items::new(found.alloc());
    push_copies(&mut spare, before)?;
    spare.push(Piece::Lit('.'))?;
    push_copies(&mut spare, rest)?;
    found.push(spare)?;
    Ok(())
}

/// Returns whether a piece other than `*` takes a dot.
fn takes_dot(piece: &Piece) -> bool
    ensures { result ≡ spares.takes_dot piece.now }
{
    match piece {
        Piece::Lit(c) => *c == '.',
        Piece::Any => true,
        Piece::Run => false,
        Piece::OneOf(set) => has_dot(set.as_slice()),
    }
}

fn has_dot(set: &[char]) -> bool
    ensures { result ≡ list_any (λ c. c == 46) set.now }
{
    set.iter().any(|c| *c == '.')
}

fn is_literal(piece: &Piece) -> bool
    ensures { result ≡ spares.is_literal piece.now }
{
    matches!(piece, Piece::Lit(_))
}

fn is_slash(piece: &Piece) -> bool
    ensures { result ≡ spares.is_slash piece.now }
{
    matches!(piece, Piece::Lit('/'))
}
