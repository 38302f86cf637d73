//! Specifications that begin with other characters than kept values.
ghost use Rattle.std.specs.Prelude.{◌≡◌, chars, drop};
ghost use Rattle.hub_path.specs.Path.{text_of};
ghost use Rattle.hub_fronts.specs.Fronts as fronts;

use hub_glob::{Kind, Part, PathSpec, Piece};
use hub_path::RelPath;

/// Returns whether the specification may match a path at or below one of the kept values, as far as the literal characters tell
/// with which its pattern begins, up to the first brace. A specification of last names alone always may, if there is a value.
pub fn may_meet_one(spec: &PathSpec, values: &[RelPath]) -> bool
    ensures { result ≡ fronts.may_meet_one spec.now values.now }
{
    values.iter().any(|value| may_meet(spec, value))
}

/// Returns whether the specification may match a path at or below the kept value.
fn may_meet(spec: &PathSpec, value: &RelPath) -> bool
    ensures { result ≡ fronts.may_meet spec.now value.now }
{
    match spec.kind() {
        Kind::Name => true,
        Kind::Path | Kind::BelowPath => begins_like_value(spec.pattern(), value),
    }
}

/// Returns whether the literal characters with which the pattern begins are those of the kept value's text, as far as both go.
fn begins_like_value(parts: &[Part], value: &RelPath) -> bool
    ensures { result ≡ fronts.begins_like parts.now (text_of value.now) }
{
    begins_like(parts, value.as_str())
}

/// Returns whether the literal characters with which the pattern begins are those of the text, as far as both go.
fn begins_like(parts: &[Part], text: &str) -> bool
    ensures { result ≡ fronts.begins_like parts.now (chars text.now) }
{
    let mut rest = parts;
    for character in text.chars() {
        let Some(literal) = first_literal(rest) else {
            return true;
        };
        if literal != character {
            return false;
        }
        rest = behind_first(rest);
    }
    true
}

/// Returns the literal character with which a pattern begins.
fn first_literal(parts: &[Part]) -> Option<char>
    ensures { result ≡ fronts.first_literal parts.now }
{
    match parts.first() {
        Some(Part::One(Piece::Lit(literal))) => Some(*literal),
        _ => None,
    }
}

/// Returns all parts but the first.
fn behind_first(parts: &[Part]) -> &[Part]
    ensures { result.now ≡ drop 1 parts.now }
{
    match parts.split_first() {
        Some((_, others)) => others,
        None => parts,
    }
}
