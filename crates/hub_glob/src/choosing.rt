//! The choices of a pattern, as lists of pieces.
ghost use Rattle.std.specs.Prelude.{◌≡◌, ◌++◌, ◌∷◌, [], map, IfOk};
ghost use Rattle.hub_glob.specs.Glob as glob;
ghost use Rattle.hub_glob.specs.forms.Choosing as choosing;

use crate::piece::{Part, Piece};
use hub_text::Items;
use std::alloc::{AllocError, Global};

/// One list of pieces for each combination of the braces' choices, the leftmost brace varying slowest.
pub(crate) fn choices_of(alloc: Global, parts: &[Part]) -> Result<Items<Items<Piece>>, AllocError>
    ensures { IfOk result (λ cs. cs ≡ glob.choices parts.now) }
{
    let mut choices = Vec::new(alloc);
    choices.push(Items::new(alloc))?;
    for part in parts {
        choices = with_part(alloc, choices, part)?;
    }
    Ok(Items::from_vec(choices))
}

/// Each list of pieces so far with what a part adds.
fn with_part(
    alloc: Global,
    mut fronts: Vec<Items<Piece>>,
    part: &Part,
) -> Result<Vec<Items<Piece>>, AllocError>
    ensures { IfOk result (λ cs. cs.items ≡ choosing.with_part fronts.items part.now) }
{
    match part {
        Part::One(piece) => {
            push_to_each(alloc, &mut fronts, piece)?;
            Ok(fronts)
        }
        Part::Brace(choices) => each_with_each(alloc, fronts.as_slice(), choices.as_slice()),
    }
}

/// Adds a copy of a piece to each list.
fn push_to_each(
    alloc: Global,
    lists: &mut Vec<Items<Piece>>,
    piece: &Piece,
) -> Result<(), AllocError>
    ensures { IfOk result (λ _. lists.new.items ≡ map (λ c. c ++ piece.now ∷ []) lists.old.items) }
{
    for i in 0..lists.len() {
        lists[i].push(copy_of(alloc, piece)?)?;
    }
    Ok(())
}

/// Each of the first lists followed by each of the others.
fn each_with_each(
    alloc: Global,
    fronts: &[Items<Piece>],
    backs: &[Items<Piece>],
) -> Result<Vec<Items<Piece>>, AllocError>
    ensures { IfOk result (λ cs. cs.items ≡ choosing.each_with_each fronts.now backs.now) }
{
    let mut all = Vec::new(alloc);
    for front in fronts {
        push_with_each(alloc, &mut all, front.as_slice(), backs)?;
    }
    Ok(all)
}

/// Adds a list followed by each of the others.
fn push_with_each(
    alloc: Global,
    all: &mut Vec<Items<Piece>>,
    front: &[Piece],
    backs: &[Items<Piece>],
) -> Result<(), AllocError>
    ensures { IfOk result (λ _. all.new.items
        ≡ all.old.items ++ map (λ d. front.now ++ d) backs.now) }
{
    for back in backs {
        let mut joined = Items::new(alloc);
        push_copies(alloc, &mut joined, front)?;
        push_copies(alloc, &mut joined, back.as_slice())?;
        all.push(joined)?;
    }
    Ok(())
}

/// Adds copies of these pieces to a list.
fn push_copies(alloc: Global, list: &mut Items<Piece>, pieces: &[Piece]) -> Result<(), AllocError>
    ensures { IfOk result (λ _. list.new ≡ list.old ++ pieces.now) }
{
    for piece in pieces {
        list.push(copy_of(alloc, piece)?)?;
    }
    Ok(())
}

/// Copies a piece.
fn copy_of(alloc: Global, piece: &Piece) -> Result<Piece, AllocError>
    ensures { IfOk result (λ p. p ≡ piece.now) }
{
    match piece {
        Piece::Lit(c) => Ok(Piece::Lit(*c)),
        Piece::Any => Ok(Piece::Any),
        Piece::Run => Ok(Piece::Run),
        Piece::OneOf(set) => Ok(Piece::OneOf(Items::from_vec(Vec::from_slice(
            alloc,
            set.as_slice(),
        )?))),
    }
}
