//! Copies of specifications, and specifications of spares.
ghost use Rattle.std.specs.Prelude.{◌≡◌, [], ◌∷◌, chars, IfOk};
ghost use Rattle.hub_glob.specs.declared.piece.Part.TheVariants.{Brace};
ghost use Rattle.hub_glob.specs.contracts.path_spec.PathSpecPartialEq.TheImpl as tested;
ghost use Rattle.hub_unison.specs.Lines.{spelled};
ghost use Rattle.hub_unison.specs.ReadingOf as reading;

use hub_glob::{GlobFault, Kind, Part, PathSpec, Piece, text_of};
use hub_text::Items;
use std::alloc::{AllocError, Global};

/// Copies a specification, if it is read from its own text.
pub fn copy_of(alloc: Global, spec: &PathSpec) -> Result<Option<PathSpec>, AllocError>
    ensures { IfOk result (λ o. o ≡ reading.read_back spec.now) }
{
    spec_of(alloc, spec.kind(), spec.pattern())
}

/// Returns the specification of that kind with these choices, if it is read from its own text.
pub fn spec_of_choices(
    alloc: Global,
    kind: Kind,
    choices: Items<Items<Piece>>,
) -> Result<Option<PathSpec>, AllocError>
    ensures { IfOk result (λ o. o
        ≡ reading.read_back (record { kind = kind; pattern = Brace choices ∷ [] })) }
{
    let mut pattern = Items::new(alloc);
    pattern.push(Part::Brace(choices))?;
    spec_of(alloc, kind, pattern.as_slice())
}

/// Returns the specification of that kind with these parts, if it is read from its own text.
fn spec_of(alloc: Global, kind: Kind, pattern: &[Part]) -> Result<Option<PathSpec>, AllocError>
    ensures { IfOk result (λ o. o
        ≡ reading.read_back (record { kind = kind; pattern = pattern.now })) }
{
    let text = text_of(alloc, kind, pattern)?;
    let Some(spec) = read(alloc, text.as_str())? else {
        return Ok(None);
    };
    if is_made_of(&spec, kind, pattern) {
        return Ok(Some(spec));
    }
    Ok(None)
}

fn is_made_of(spec: &PathSpec, kind: Kind, pattern: &[Part]) -> bool
    ensures { result
        ≡ tested.eq-value.it spec.now (record { kind = kind; pattern = pattern.now }) }
{
    spec.kind() == kind && spec.pattern() == pattern
}

/// Reads a specification, if the text is one.
fn read(alloc: Global, text: &str) -> Result<Option<PathSpec>, AllocError>
    ensures { IfOk result (λ o. o ≡ spelled (chars text.now)) }
{
    match PathSpec::read(alloc, text) {
        Ok(spec) => Ok(Some(spec)),
        Err(GlobFault::OutOfMemory) => Err(AllocError),
        Err(_) => Ok(None),
    }
}
