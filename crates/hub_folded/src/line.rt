//! Specifications that a line can say.
ghost use Rattle.std.specs.Prelude.{◌≡◌, chars, string_bytes, encode_utf8_all, IfOk};
ghost use Rattle.hub_glob.specs.contracts.path_spec.PathSpecPartialEq.TheImpl as tested;
ghost use Rattle.hub_unison.specs.Lines.{spelled};
ghost use Rattle.hub_folded.specs.Lines as lines;
ghost use Rattle.hub_folded.specs.OneLine.{value_spelled};

use hub_glob::{GlobFault, Kind, Part, PathSpec, text_of};
use hub_profile::{line_text, name_and_value};
use std::alloc::{AllocError, Global};

/// Returns the specification of that kind with these parts, if a line with its own text spells it.
pub(crate) fn spelled_spec(
    alloc: Global,
    kind: Kind,
    pattern: &[Part],
) -> Result<Option<PathSpec>, AllocError>
    ensures { IfOk result (λ o. o
        ≡ lines.if_spelled (record { kind = kind; pattern = pattern.now })) }
{
    let line = line_of(alloc, kind, pattern)?;
    let Some(spec) = read_value(alloc, line_text(line.as_str()))? else {
        return Ok(None);
    };
    if is_made_of(&spec, kind, pattern) {
        return Ok(Some(spec));
    }
    Ok(None)
}

/// Writes an `ignore` line with that specification.
fn line_of(alloc: Global, kind: Kind, pattern: &[Part]) -> Result<String, AllocError>
    ensures { IfOk result (λ t. string_bytes t
        ≡ encode_utf8_all (lines.line_of (record { kind = kind; pattern = pattern.now }))) }
{
    let text = text_of(alloc, kind, pattern)?;
    let mut line = String::from_str(alloc, "ignore = ")?;
    line.push_str(text.as_str())?;
    Ok(line)
}

/// Reads the specification in the value of a line.
fn read_value(alloc: Global, line: &str) -> Result<Option<PathSpec>, AllocError>
    ensures { IfOk result (λ o. o ≡ value_spelled (chars line.now)) }
{
    match name_and_value(line) {
        Some((_, value)) => read(alloc, value),
        None => Ok(None),
    }
}

/// Returns whether a specification has that kind and these parts.
pub(crate) fn is_made_of(spec: &PathSpec, kind: Kind, pattern: &[Part]) -> bool
    ensures { result
        ≡ tested.eq-value.it spec.now (record { kind = kind; pattern = pattern.now }) }
{
    spec.kind() == kind && spec.pattern() == pattern
}

/// Reads a specification, if the text is one.
fn read(alloc: Global, text: &str) -> Result<Option<PathSpec>, AllocError>
    ensures { IfOk result (λ o. o ≡ spelled (chars text.now)) }
{
    match PathSpec::read(alloc, text) {
        Ok(spec) => Ok(Some(spec)),
        Err(GlobFault::OutOfMemory) => Err(AllocError),
        Err(_) => Ok(None),
    }
}
