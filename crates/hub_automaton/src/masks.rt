//! Masks of spots: for each spot whether it is entered, is that of a star, or takes a character.
ghost use Rattle.std.specs.Prelude.{◌≡◌, ◌≤◌, ◌++◌, ◌∷◌, length, IfOk, OnOk};
ghost use Rattle.hub_automaton.specs.Alphabet.{IsAlphabet, first_unmentioned};
ghost use Rattle.hub_automaton.specs.Masks as masking;
ghost use Rattle.hub_automaton.specs.Masks.{AreMasksOf};
ghost use Rattle.hub_automaton.specs.Spots.{spots_count};
ghost use Rattle.hub_automaton.specs.Words.{packed};
ghost use Rattle.hub_glob.specs.Specification.{is_name_kind};

use crate::alphabet::Alphabet;
use crate::alternatives::{Alternatives, SPOTS};
use crate::ends::below_ends;
use crate::takers::build_takers;
use crate::words::{Words, pack};
use hub_glob::{Kind, NextCharacter, Piece};
use hub_text::Items;
use std::alloc::{AllocError, Global};

/// Which spots a mask has.
#[derive(Clone, Copy)]
pub(crate) enum Mask {
    /// The first positions of the choices of `Name` specifications, which become active after a `/`.
    Entries,
    /// The positions after stars.
    Stars,
    /// The positions after pieces that accept that character and aren't stars.
    Takers(char),
    /// The positions after pieces that accept any character except `/`, and aren't stars.
    Common,
}

/// The masks of some specifications, those of takers for each class of an alphabet, and the last positions of the choices of
/// `BelowPath` specifications.
#[derive(Debug, Drop)]
pub(crate) struct SpotMasks {
    pub(crate) entries: Words,
    pub(crate) stars: Words,
    pub(crate) takers: Vec<Words>,
    pub(crate) below_ends: Words,
}

fn is_name(kind: Kind) -> bool
    ensures { result ≡ is_name_kind kind }
{
    matches!(kind, Kind::Name)
}

fn masks_start(mask: Mask, kind: Kind) -> bool
    ensures { result ≡ masking.masks_start mask kind }
{
    match mask {
        Mask::Entries => is_name(kind),
        Mask::Stars | Mask::Takers(_) | Mask::Common => false,
    }
}

fn masks_piece(mask: Mask, kind: Kind, piece: &Piece) -> bool
    ensures { result ≡ masking.masks_piece mask kind piece.now }
{
    match mask {
        Mask::Entries => false,
        Mask::Stars => piece.is_star(),
        Mask::Takers(character) => {
            let next = NextCharacter {
                character,
                first: false,
            };
            !(is_name(kind) && character == '/') && !piece.is_star() && piece.takes(next)
        }
        Mask::Common => matches!(piece, Piece::Any),
    }
}

/// Adds the spots of a choice.
fn mask_choice(
    mask: Mask,
    kind: Kind,
    choice: &[Piece],
    bits: &mut Vec<bool>,
) -> Result<(), AllocError>
    ensures { OnOk result (bits.new.items ≡ bits.old.items
        ++ masking.mask_choice mask kind choice.now) }
{
    bits.push(masks_start(mask, kind))?;
    for piece in choice {
        bits.push(masks_piece(mask, kind, piece))?;
    }
    Ok(())
}

/// Adds the spots of some choices.
fn mask_choices(
    mask: Mask,
    kind: Kind,
    choices: &[Items<Piece>],
    bits: &mut Vec<bool>,
) -> Result<(), AllocError>
    ensures { OnOk result (bits.new.items ≡ bits.old.items
        ++ masking.mask_choices mask kind choices.now) }
{
    for choice in choices {
        mask_choice(mask, kind, choice.as_slice(), bits)?;
    }
    Ok(())
}

/// The spots of all specifications, in words.
pub(crate) fn masked(
    alloc: Global,
    mask: Mask,
    alternatives: &[Alternatives],
) -> Result<Words, AllocError>
    ensures { IfOk result (λ ws. ws ≡ packed (masking.mask_all mask alternatives.now)) }
{
    let mut bits = Vec::new(alloc);
    for one in alternatives {
        mask_choices(mask, one.kind, one.choices.as_slice(), &mut bits)?;
    }
    pack(alloc, bits.as_slice())
}

impl SpotMasks {
    /// The masks of some specifications, with those of takers for each class of the alphabet, by its representatives.
    pub(crate) fn build(
        alloc: Global,
        alternatives: &[Alternatives],
        alphabet: &Alphabet,
        samples: &[char],
    ) -> Result<SpotMasks, AllocError>
        requires few { spots_count alternatives.now ≤ SPOTS }
        requires alphabet { IsAlphabet alphabet.now }
        requires samples { samples.now ≡ first_unmentioned alphabet.now ∷ alphabet.now }
        ensures { IfOk result (AreMasksOf alternatives.now samples.now) }
    {
        Ok(SpotMasks {
            entries: masked(alloc, Mask::Entries, alternatives)?,
            stars: masked(alloc, Mask::Stars, alternatives)?,
            takers: build_takers(alloc, alternatives, alphabet, samples)?,
            below_ends: below_ends(alloc, alternatives)?,
        })
    }

    /// How many words each mask has, and so the positions of a text.
    pub(crate) fn word_count(&self) -> usize
        ensures { result ≡ length self.now.stars }
    {
        self.stars.as_slice().len()
    }
}
