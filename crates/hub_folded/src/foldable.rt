//! Rules that hold for each spelling of a path when they are folded.
ghost use Rattle.std.specs.Prelude.{◌≡◌, nat_lt, IfOk};
ghost use Rattle.std.specs.List.{list_all};
ghost use Rattle.hub_folded.specs.Lines as lines;
ghost use Rattle.hub_folded.specs.Rules.{first_unknown};
ghost use Rattle.hub_folded.specs.Table.{unicode};

use crate::pieces::knows_spec;
use hub_glob::{Part, PathSpec, Piece};
use hub_profile::Rule;
use hub_text::Items;
use std::alloc::AllocError;

/// Returns the number of the first rule that isn't known, or that wouldn't hold for each spelling, if there is one.
pub(crate) fn first_unknown(rules: &[Rule]) -> Result<Option<usize>, AllocError>
    ensures { IfOk result (λ o. o ≡ first_unknown unicode rules.now) }
{
    for i in 0..rules.len() {
        if !knows_rule(&rules[i])? {
            return Ok(Some(i));
        }
    }
    Ok(None)
}

fn knows_rule(rule: &Rule) -> Result<bool, AllocError>
    ensures { IfOk result (λ b. b ≡ lines.knows_rule unicode rule.now) }
{
    Ok(knows_spec(&rule.spec)? && is_foldable(&rule.spec))
}

fn is_foldable(spec: &PathSpec) -> bool
    ensures { result ≡ lines.is_foldable spec.now }
{
    spec.pattern().iter().all(is_foldable_part)
}

fn is_foldable_part(part: &Part) -> bool
    ensures { result ≡ lines.is_foldable_part part.now }
{
    match part {
        Part::One(piece) => is_foldable_piece(piece),
        Part::Brace(choices) => are_foldable_choices(choices.as_slice()),
    }
}

fn are_foldable_choices(choices: &[Items<Piece>]) -> bool
    ensures { result ≡ list_all (λ c. list_all lines.is_foldable_piece c) choices.now }
{
    choices.iter().all(|choice| are_foldable(choice.as_slice()))
}

fn are_foldable(pieces: &[Piece]) -> bool
    ensures { result ≡ list_all lines.is_foldable_piece pieces.now }
{
    pieces.iter().all(is_foldable_piece)
}

fn is_foldable_piece(piece: &Piece) -> bool
    ensures { result ≡ lines.is_foldable_piece piece.now }
{
    match piece {
        Piece::Lit(_) => true,
        Piece::Any => false,
        Piece::Run => true,
        Piece::OneOf(set) => is_ascii_set(set.as_slice()),
    }
}

fn is_ascii_set(set: &[char]) -> bool
    ensures { result ≡ list_all (λ c. nat_lt c 128) set.now }
{
    set.iter().all(|c| c.is_ascii())
}
