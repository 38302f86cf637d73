//! A pattern matched with a text character by character, by the set of places at which a match may stand.
ghost use Rattle.std.specs.Prelude.{◌≡◌, ◌||◌, ◌+◌, ◌≤◌, ◌<◌, [], ◌∷◌, ◌++◌, length, chars};
ghost use Rattle.std.specs.List.{list_any};
ghost use Rattle.hub_glob.specs.Specification.{choices_size, pattern_size};
ghost use Rattle.hub_glob.specs.Sweep as sweep;
ghost use Rattle.arrayvec.specs.ArrayVec.{array_vec_len};
ghost use Rattle.hub_glob.specs.Sweep.{SweepsTo, swept_choices, swept_parts, swept_piece, swept_pieces};

use crate::piece::{NextCharacter, PATTERN_CHARACTERS, Part, Piece};
use arrayvec::ArrayVec;
use hub_text::Items;
use std::marker::Model;

/// Whether a match may stand at a place: of the text before a character, and of the text with it.
#[derive(Clone, Copy)]
pub(crate) struct Carry {
    pub(crate) before: bool,
    pub(crate) after: bool,
}

/// Before which pieces a match may stand, in the order of the pattern.
type Places = ArrayVec<bool, PATTERN_CHARACTERS>;

/// Sweeps one piece: adds its place to those of the text with the character.
fn sweep_piece(
    next: NextCharacter,
    piece: &Piece,
    old: &[bool],
    new: &mut Places,
    carry: Carry,
) -> Carry
    requires { array_vec_len new.old < PATTERN_CHARACTERS }
    ensures len { array_vec_len new.new ≡ array_vec_len new.old + 1 }
    ensures swept { SweepsTo (swept_piece next old.now piece.now)
        new.old.items carry new.new.items result }
{
    let here = carry.before || old.get(new.len()).copied().unwrap_or(false);
    let taken = here && piece.takes(next);
    let is_star = piece.is_star();
    new.push(carry.after || is_star && taken);
    Carry {
        before: is_star && here,
        after: !is_star && taken,
    }
}

/// Sweeps the pieces one after another.
fn sweep_pieces(
    next: NextCharacter,
    pieces: &[Piece],
    old: &[bool],
    new: &mut Places,
    mut carry: Carry,
) -> Carry
    requires { array_vec_len new.old + length pieces.now ≤ PATTERN_CHARACTERS }
    ensures len { array_vec_len new.new ≡ array_vec_len new.old + length pieces.now }
    ensures swept { SweepsTo (swept_pieces next old.now pieces.now)
        new.old.items carry new.new.items result }
{
    for piece in pieces {
        carry = sweep_piece(next, piece, old, new, carry);
    }
    carry
}

/// Sweeps the choices of a brace, each entered as the brace is.
fn sweep_choices(
    next: NextCharacter,
    choices: &[Items<Piece>],
    old: &[bool],
    new: &mut Places,
    entry: Carry,
) -> Carry
    requires { array_vec_len new.old + choices_size choices.now ≤ PATTERN_CHARACTERS }
    ensures len { array_vec_len new.new ≡ array_vec_len new.old + choices_size choices.now }
    ensures swept { SweepsTo (swept_choices next old.now entry choices.now)
        new.old.items sweep.nowhere new.new.items result }
{
    let mut carry = Carry {
        before: false,
        after: false,
    };
    for choice in choices {
        let end = sweep_pieces(next, choice.as_slice(), old, new, entry);
        carry = Carry {
            before: carry.before || end.before,
            after: carry.after || end.after,
        };
    }
    carry
}

/// Sweeps the parts of a pattern.
fn sweep_parts(
    next: NextCharacter,
    parts: &[Part],
    old: &[bool],
    new: &mut Places,
    mut carry: Carry,
) -> Carry
    requires { array_vec_len new.old + pattern_size parts.now ≤ PATTERN_CHARACTERS }
    ensures len { array_vec_len new.new ≡ array_vec_len new.old + pattern_size parts.now }
    ensures swept { SweepsTo (swept_parts next old.now parts.now)
        new.old.items carry new.new.items result }
{
    for part in parts {
        carry = match part {
            Part::One(piece) => sweep_piece(next, piece, old, new, carry),
            Part::Brace(choices) => sweep_choices(next, choices.as_slice(), old, new, carry),
        };
    }
    carry
}

/// The places, or none at all if none of them is active.
fn pruned(live: Places) -> Places
    ensures { result.items ≡ sweep.pruned live.items }
{
    if is_any_active(live.as_slice()) {
        live
    } else {
        ArrayVec::new()
    }
}

fn is_any_active(live: &[bool]) -> bool
    ensures { result ≡ list_any (λ active. active) live.now }
{
    live.iter().any(|active| *active)
}

/// How a pattern matches the text read so far.
#[derive(Drop)]
pub(crate) struct Walk {
    live: Places,
    fresh: bool,
    ended: bool,
    first: bool,
}

impl Model for Walk {
    ghost use Rattle.hub_glob.specs.Sweep.{Standing};

    ghost Value = { Standing };

    ghost view = { λ w.
        record { live = w.live.items; fresh = w.fresh; ended = w.ended; first = w.first } };
}

impl Walk {
    /// Before any text.
    pub(crate) fn new() -> Walk
        ensures { result ≡ sweep.at_start }
    {
        Walk {
            live: ArrayVec::new(),
            fresh: true,
            ended: false,
            first: true,
        }
    }

    /// Returns whether no place is active, so that no further text is matched.
    fn is_stuck(&self) -> bool
        ensures { result ≡ sweep.is_stuck self.now }
    {
        !self.fresh && self.live.as_slice().is_empty()
    }

    /// Reads one more character; returns whether the pattern matches the text before it.
    fn push(&mut self, parts: &[Part], character: char) -> bool
        requires { pattern_size parts.now ≤ PATTERN_CHARACTERS }
        ensures matched { result ≡ sweep.is_matched_so_far parts.now self.old character }
        ensures pushed { self.new ≡ sweep.pushed parts.now self.old character }
    {
        if self.is_stuck() {
            return self.push_stuck(character);
        }
        self.push_active(parts, character)
    }

    /// The same, if no place is active.
    fn push_stuck(&mut self, character: char) -> bool
        ensures matched { result ≡ self.old.ended }
        ensures pushed { self.new ≡ sweep.stuck_after character }
    {
        let matched = self.ended;
        *self = Walk {
            live: ArrayVec::new(),
            fresh: false,
            ended: false,
            first: character == '/',
        };
        matched
    }

    /// The same, if a place may be active.
    fn push_active(&mut self, parts: &[Part], character: char) -> bool
        requires { pattern_size parts.now ≤ PATTERN_CHARACTERS }
        ensures matched { result
            ≡ ((sweep.swept parts.now self.old character).carry.before || self.old.ended) }
        ensures pushed { self.new
            ≡ sweep.pushed_by (sweep.swept parts.now self.old character) character }
    {
        let next = NextCharacter {
            character,
            first: self.first,
        };
        let entry = Carry {
            before: self.fresh,
            after: false,
        };
        let mut live = ArrayVec::new();
        let end = sweep_parts(next, parts, self.live.as_slice(), &mut live, entry);
        let matched = end.before || self.ended;
        *self = Walk {
            live: pruned(live),
            fresh: false,
            ended: end.after,
            first: character == '/',
        };
        matched
    }

    /// Reads a name and the `/` after it; returns whether the pattern matches the text before that `/`.
    pub(crate) fn push_name(&mut self, parts: &[Part], name: &str) -> bool
        requires { pattern_size parts.now ≤ PATTERN_CHARACTERS }
        ensures matched { result
            ≡ sweep.is_matched_at_slash parts.now self.old (chars name.now) }
        ensures pushed { self.new
            ≡ sweep.pushed_all parts.now self.old (chars name.now ++ 47 ∷ []) }
    {
        for character in name.chars() {
            self.push(parts, character);
        }
        self.push(parts, '/')
    }
}
