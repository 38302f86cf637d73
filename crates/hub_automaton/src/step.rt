//! Positions of the empty text, which characters stars accept, and whether choices match by the positions of a text.
ghost use Rattle.std.specs.Prelude.{◌≡◌, ◌+◌, ◌≤◌, ◌++◌, IfOk, OnOk};
ghost use Rattle.hub_glob.specs.Taking.{takes};
ghost use Rattle.hub_glob.specs.declared.piece.Piece.TheVariants.{Run};
ghost use Rattle.hub_automaton.specs.Masks as masking;
ghost use Rattle.hub_automaton.specs.Spots.{spot_count};
ghost use Rattle.hub_automaton.specs.forms.Stepping as stepping;
ghost use Rattle.hub_automaton.specs.Words.{packed};

use crate::alternatives::{Alternatives, SPOTS};
use crate::words::{Words, is_set, pack};
use hub_glob::Piece;
use hub_text::Items;
use std::alloc::{AllocError, Global};

/// Adds the spots of a choice in the empty text.
fn enter_choice(choice: &[Piece], new: &mut Vec<bool>) -> Result<(), AllocError>
    ensures { OnOk result (new.new.items ≡ new.old.items ++ stepping.entered choice.now) }
{
    let mut before = true;
    new.push(true)?;
    for piece in choice {
        before = piece.is_star() && before;
        new.push(before)?;
    }
    Ok(())
}

/// Adds the spots of some choices in the empty text.
fn enter_choices(choices: &[Items<Piece>], new: &mut Vec<bool>) -> Result<(), AllocError>
    ensures { OnOk result (new.new.items ≡ new.old.items ++ stepping.entered_choices choices.now) }
{
    for choice in choices {
        enter_choice(choice.as_slice(), new)?;
    }
    Ok(())
}

/// The spots of all specifications in the empty text, in words.
pub(crate) fn entered_spots(
    alloc: Global,
    alternatives: &[Alternatives],
) -> Result<Words, AllocError>
    ensures { IfOk result (λ ws. ws ≡ packed (stepping.entered_all alternatives.now)) }
{
    let mut spots = Vec::new(alloc);
    for one in alternatives {
        enter_choices(one.choices.as_slice(), &mut spots)?;
    }
    pack(alloc, spots.as_slice())
}

/// Returns whether a `*` accepts the character, where `first` says whether a component starts there, as `Piece::takes` does.
pub(crate) fn stays_at(character: char, first: bool) -> bool
    ensures { result ≡ takes (record { character = character; first = first }) Run }
{
    character != '/' && !(first && character == '.')
}

/// Of the choices of a specification and a text: whether one of them matches it, and the place after their positions.
#[derive(Clone, Copy)]
pub(crate) struct ChoicesEnd {
    pub(crate) matched: bool,
    pub(crate) after: usize,
}

/// Returns whether one of the choices whose spots begin at that place matches the text.
pub(crate) fn find_end(choices: &[Items<Piece>], live: &[u64], place: usize) -> ChoicesEnd
    requires { place + spot_count choices.now ≤ SPOTS }
    ensures matched { result.matched ≡ masking.ended_at choices.now live.now place }
    ensures after { result.after ≡ place + spot_count choices.now }
{
    let mut matched = false;
    let mut after = place;
    for choice in choices {
        matched = matched || is_set(live, after + choice.len());
        after += choice.len() + 1;
    }
    ChoicesEnd { matched, after }
}

/// The place after the positions of choices that begin at that place.
pub(crate) fn place_after(choices: &[Items<Piece>], place: usize) -> usize
    requires { place + spot_count choices.now ≤ SPOTS }
    ensures { result ≡ place + spot_count choices.now }
{
    let mut after = place;
    for choice in choices {
        after += choice.len() + 1;
    }
    after
}
