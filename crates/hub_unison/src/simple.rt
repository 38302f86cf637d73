//! Patterns of which it is known what Unison matches at most.
ghost use Rattle.std.specs.Prelude.{◌≡◌, IfOk};
ghost use Rattle.std.specs.List.{list_all, list_any};
ghost use Rattle.hub_unison.specs.Matching as matching;

use hub_glob::{PathSpec, Piece};
use std::alloc::AllocError;

/// Returns whether Unison matches at most what hubsync has the specification match: each of its choices is simple.
pub(crate) fn is_simple(spec: &PathSpec) -> Result<bool, AllocError>
    ensures { IfOk result (λ simple. simple ≡ matching.all_simple spec.now.pattern) }
{
    let choices = spec.choices()?;
    Ok(
        choices
            .as_slice()
            .iter()
            .all(|choice| are_simple(choice.as_slice())),
    )
}

fn are_simple(pieces: &[Piece]) -> bool
    ensures { result ≡ list_all matching.is_simple pieces.now }
{
    pieces.iter().all(is_simple_piece)
}

/// Returns whether it is known what Unison matches by a piece at most.
pub(crate) fn is_simple_piece(piece: &Piece) -> bool
    ensures { result ≡ matching.is_simple piece.now }
{
    match piece {
        Piece::Lit(c) => !is_unknown(*c),
        Piece::Any => false,
        Piece::Run => true,
        Piece::OneOf(set) => are_simple_members(set.as_slice()),
    }
}

/// Returns whether hubsync and Unison read the same pieces in a specification: each of its choices is known.
pub(crate) fn is_known(spec: &PathSpec) -> Result<bool, AllocError>
    ensures { IfOk result (λ known. known ≡ matching.all_known spec.now.pattern) }
{
    let choices = spec.choices()?;
    Ok(
        choices
            .as_slice()
            .iter()
            .all(|choice| are_known(choice.as_slice())),
    )
}

fn are_known(pieces: &[Piece]) -> bool
    ensures { result ≡ list_all matching.is_known pieces.now }
{
    pieces.iter().all(is_known_piece)
}

fn is_known_piece(piece: &Piece) -> bool
    ensures { result ≡ matching.is_known piece.now }
{
    match piece {
        Piece::Lit(c) => !is_unknown(*c),
        Piece::Any => true,
        Piece::Run => true,
        Piece::OneOf(set) => !has_odd(set.as_slice()),
    }
}

fn has_odd(set: &[char]) -> bool
    ensures { result ≡ list_any matching.is_odd set.now }
{
    set.iter().any(|c| is_odd(*c))
}

fn are_simple_members(set: &[char]) -> bool
    ensures { result ≡ list_all matching.is_simple_member set.now }
{
    set.iter().all(|c| is_simple_member(*c))
}

fn is_simple_member(c: char) -> bool
    ensures { result ≡ matching.is_simple_member c }
{
    c.is_ascii() && c != '/' && !is_odd(c)
}

/// Returns whether it isn't known what Unison makes of the character in a set.
fn is_odd(c: char) -> bool
    ensures { result ≡ matching.is_odd c }
{
    is_unknown(c) || matches!(c, ',' | '[' | '\\' | ']' | '{' | '}')
}

/// Returns whether it isn't known what Unison makes of the character anywhere in a pattern: a `>`, since ` -> ` ends the pattern,
/// or a control character, since each CR at an end of it is dropped (observed with Unison 2.52.1).
fn is_unknown(c: char) -> bool
    ensures { result ≡ matching.is_unknown c }
{
    c == '>' || c.is_ascii_control()
}
