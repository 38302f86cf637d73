//! The masks of takers of all classes, in one pass over the positions.
ghost use Rattle.std.specs.Prelude.{◌≡◌, ◌<◌, ◌≤◌, ◌+◌, [], ◌∷◌, length, map, IfOk};
ghost use Rattle.hub_automaton.specs.Alphabet.{IsAlphabet, class_count, first_unmentioned};
ghost use Rattle.hub_automaton.specs.Masks as masking;
ghost use Rattle.hub_automaton.specs.Spots.{spot_count, spots_count};
ghost use Rattle.hub_automaton.specs.forms.Takers.{begun, AreCompleted, AreCompletedFor, AreSetAt, bit_after_piece};
ghost use Rattle.hub_automaton.specs.declared.masks.Mask.TheVariants.{Takers, Common};

use crate::alphabet::Alphabet;
use crate::alternatives::{Alternatives, SPOTS};
use crate::masks::{Mask, masked};
use crate::words::Words;
use hub_glob::Piece;
use hub_text::Items;
use std::alloc::{AllocError, Global};

/// The masks of takers of some specifications, one for each class of the alphabet, by its representatives.
///
/// Each mask begins with the positions that all classes share. Then each position is looked at once, and put into the masks
/// of the characters that the piece before it names.
pub(crate) fn build_takers(
    alloc: Global,
    alternatives: &[Alternatives],
    alphabet: &Alphabet,
    samples: &[char],
) -> Result<Vec<Words>, AllocError>
    requires few { spots_count alternatives.now ≤ SPOTS }
    requires alphabet { IsAlphabet alphabet.now }
    requires samples { samples.now ≡ first_unmentioned alphabet.now ∷ alphabet.now }
    ensures { IfOk result (λ v. v.items
        ≡ map (λ c. masking.mask_words (Takers c) alternatives.now) samples.now) }
{
    let mut takers = begin_takers(alloc, alternatives, samples)?;
    take_all(alternatives, alphabet, takers.as_mut_slice());
    Ok(takers)
}

/// What the masks of these characters begin with.
fn begin_takers(
    alloc: Global,
    alternatives: &[Alternatives],
    samples: &[char],
) -> Result<Vec<Words>, AllocError>
    ensures { IfOk result (λ v. v.items
        ≡ map (λ c. masking.mask_words (begun c) alternatives.now) samples.now) }
{
    let common = masked(alloc, Mask::Common, alternatives)?;
    begin_each(alloc, alternatives, &common, samples)
}

/// What the masks of these characters begin with, by the positions that all characters except `/` share.
fn begin_each(
    alloc: Global,
    alternatives: &[Alternatives],
    common: &Words,
    samples: &[char],
) -> Result<Vec<Words>, AllocError>
    requires { common.now ≡ masking.mask_words Common alternatives.now }
    ensures { IfOk result (λ v. v.items
        ≡ map (λ c. masking.mask_words (begun c) alternatives.now) samples.now) }
{
    let mut takers = Vec::with_capacity(alloc, samples.len())?;
    for character in samples {
        takers.push(begin_taker(alloc, alternatives, common, *character)?)?;
    }
    Ok(takers)
}

/// What the mask of a character begins with: the positions that all characters except `/` share, or the whole mask of `/`.
fn begin_taker(
    alloc: Global,
    alternatives: &[Alternatives],
    common: &Words,
    character: char,
) -> Result<Words, AllocError>
    requires { common.now ≡ masking.mask_words Common alternatives.now }
    ensures { IfOk result (λ ws. ws ≡ masking.mask_words (begun character) alternatives.now) }
{
    if character == '/' {
        masked(alloc, Mask::Takers(character), alternatives)
    } else {
        common.copy()
    }
}

/// Puts the positions of some specifications into the masks.
fn take_all(alternatives: &[Alternatives], alphabet: &Alphabet, takers: &mut [Words])
    requires few { spots_count alternatives.now ≤ SPOTS }
    requires alphabet { IsAlphabet alphabet.now }
    requires many { length takers.old ≡ class_count alphabet.now }
    ensures { AreCompleted alphabet.now takers.old takers.new 0
        (λ m. masking.mask_all m alternatives.now) }
{
    let mut place = 0;
    for one in alternatives {
        place = take_choices(one.choices.as_slice(), place, alphabet, takers);
    }
}

/// Puts the positions of some choices, which begin at that place, into the masks. Returns the place after them.
fn take_choices(
    choices: &[Items<Piece>],
    place: usize,
    alphabet: &Alphabet,
    takers: &mut [Words],
) -> usize
    requires few { place + spot_count choices.now ≤ SPOTS }
    requires alphabet { IsAlphabet alphabet.now }
    requires many { length takers.old ≡ class_count alphabet.now }
    ensures after { result ≡ place + spot_count choices.now }
    ensures taken { AreCompletedFor alphabet.now takers.old takers.new place choices.now
        masking.mask_choices }
{
    let mut after = place;
    for choice in choices {
        take_choice(choice.as_slice(), after, alphabet, takers);
        after += choice.len() + 1;
    }
    after
}

/// Puts the positions of a choice, which begin at that place, into the masks.
fn take_choice(choice: &[Piece], place: usize, alphabet: &Alphabet, takers: &mut [Words])
    requires few { place + length choice.now < SPOTS }
    requires alphabet { IsAlphabet alphabet.now }
    requires many { length takers.old ≡ class_count alphabet.now }
    ensures { AreCompletedFor alphabet.now takers.old takers.new place choice.now
        masking.mask_choice }
{
    for (i, piece) in choice.iter().enumerate() {
        take_piece(piece, place + 1 + i, alphabet, takers);
    }
}

/// Puts the position after a piece into the masks of the characters that the piece names.
fn take_piece(piece: &Piece, place: usize, alphabet: &Alphabet, takers: &mut [Words])
    requires alphabet { IsAlphabet alphabet.now }
    requires many { length takers.old ≡ class_count alphabet.now }
    ensures { AreCompletedFor alphabet.now takers.old takers.new place piece.now bit_after_piece }
{
    match piece {
        Piece::Lit(character) => take_character(*character, place, alphabet, takers),
        Piece::OneOf(set) => take_set(set.as_slice(), place, alphabet, takers),
        Piece::Any | Piece::Run => {}
    }
}

/// Puts a position into the masks of some characters.
fn take_set(set: &[char], place: usize, alphabet: &Alphabet, takers: &mut [Words])
    requires alphabet { IsAlphabet alphabet.now }
    requires many { length takers.old ≡ class_count alphabet.now }
    ensures { AreSetAt alphabet.now takers.old takers.new place set.now }
{
    for character in set {
        take_character(*character, place, alphabet, takers);
    }
}

/// Puts a position into the mask of a character, unless that is `/` or has no class of its own.
fn take_character(character: char, place: usize, alphabet: &Alphabet, takers: &mut [Words])
    requires alphabet { IsAlphabet alphabet.now }
    requires many { length takers.old ≡ class_count alphabet.now }
    ensures { AreSetAt alphabet.now takers.old takers.new place (character ∷ []) }
{
    if character == '/' {
        return;
    }
    if let Some(class) = alphabet.class_of(character) {
        if alphabet.sample(class) == character {
            takers[class.number()].set_bit(0, place);
        }
    }
}
