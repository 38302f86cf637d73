//! Specifications with the names of a path in front.
ghost use Rattle.std.specs.Prelude.{◌≡◌, map, chars, IfOk};
ghost use Rattle.hub_path.specs.Path.{text_of};
ghost use Rattle.hub_glob.specs.Specification as specification;
ghost use Rattle.hub_unison.specs.ReadingOf.{read_back};
ghost use Rattle.hub_nested.specs.Lifted as lifted;

use hub_glob::{Kind, PathSpec, Piece};
use hub_path::RelPath;
use hub_text::Items;
use hub_unison::{copy_of, spec_of_choices};
use std::alloc::{AllocError, Global};

/// Returns the specification that matches this path alone, if it can be written.
pub(crate) fn just(alloc: Global, path: &RelPath) -> Result<Option<PathSpec>, AllocError>
    ensures { IfOk result (λ o. o ≡ read_back (lifted.just path.now)) }
{
    let mut choices = Items::new(alloc);
    choices.push(literal(alloc, path)?)?;
    spec_of_choices(alloc, Kind::Path, choices)
}

/// Returns a specification, said from above by these names, if it can be written.
pub(crate) fn said_spec(
    alloc: Global,
    names: &RelPath,
    spec: &PathSpec,
) -> Result<Option<PathSpec>, AllocError>
    ensures { IfOk result (λ o. o ≡ read_back (lifted.said_spec names.now spec.now)) }
{
    if names.len() == 0 {
        return copy_of(alloc, spec);
    }
    lifted_spec(alloc, names, spec)
}

/// Returns a specification with these names in front, if it can be written.
pub(crate) fn lifted_spec(
    alloc: Global,
    names: &RelPath,
    spec: &PathSpec,
) -> Result<Option<PathSpec>, AllocError>
    ensures { IfOk result (λ o. o ≡ read_back (lifted.lifted_spec names.now spec.now)) }
{
    if is_name_kind(spec.kind()) {
        return copy_of(alloc, spec);
    }
    let choices = spec.choices()?;
    spec_of_choices(alloc, spec.kind(), each_in_front(alloc, names, choices)?)
}

/// Returns whether the pattern is matched with the last name alone.
fn is_name_kind(kind: Kind) -> bool
    ensures { result ≡ specification.is_name_kind kind }
{
    match kind {
        Kind::Name => true,
        Kind::Path => false,
        Kind::BelowPath => false,
    }
}

/// Puts the text of a path and a slash in front of each choice.
fn each_in_front(
    alloc: Global,
    path: &RelPath,
    choices: Items<Items<Piece>>,
) -> Result<Items<Items<Piece>>, AllocError>
    ensures { IfOk result (λ cs. cs ≡ map (lifted.in_front path.now) choices) }
{
    let mut each = Items::new(alloc);
    for choice in choices.into_vec() {
        each.push(in_front(alloc, path, choice)?)?;
    }
    Ok(each)
}

/// Puts the text of a path and a slash in front of pieces.
fn in_front(alloc: Global, path: &RelPath, choice: Items<Piece>) -> Result<Items<Piece>, AllocError>
    ensures { IfOk result (λ ps. ps ≡ lifted.in_front path.now choice) }
{
    let mut pieces = literal(alloc, path)?;
    pieces.push(Piece::Lit('/'))?;
    for piece in choice.into_vec() {
        pieces.push(piece)?;
    }
    Ok(pieces)
}

/// Returns the characters of a path's text as pieces.
fn literal(alloc: Global, path: &RelPath) -> Result<Items<Piece>, AllocError>
    ensures { IfOk result (λ ps. ps ≡ lifted.literal (text_of path.now)) }
{
    let text = path.text()?;
    let _valid = path.len();
    literals(alloc, text.as_str())
}

/// Returns the characters of a text as pieces.
fn literals(alloc: Global, text: &str) -> Result<Items<Piece>, AllocError>
    ensures { IfOk result (λ ps. ps ≡ lifted.literal (chars text.now)) }
{
    let mut pieces = Items::new(alloc);
    for character in text.chars() {
        pieces.push(Piece::Lit(character))?;
    }
    Ok(pieces)
}
