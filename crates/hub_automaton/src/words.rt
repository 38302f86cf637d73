//! Bits in words, and how positions move word by word when a text gets one more character.
ghost use Rattle.std.specs.Prelude.{◌≡◌, ◌≤◌, ◌++◌, length, take, drop, IfOk, OnOk, IsOk};
ghost use Rattle.hub_automaton.specs.Words as words;
ghost use Rattle.hub_automaton.specs.forms.Rows.{IsSized, moved_by};

use crate::rows::{RowStep, move_row};
use std::alloc::{AllocError, Global};
use std::cmp::Ordering;
use std::hash::{Hash, Hasher};
use std::marker::Model;

/// How many bits a word has.
pub(crate) const WORD_BITS: usize = 64;

/// Masks of the positions of a word: which become active, which come after stars, and which come after pieces that accept
/// the character and aren't stars.
#[derive(Clone, Copy)]
pub(crate) struct Masks {
    pub(crate) entries: u64,
    pub(crate) stars: u64,
    pub(crate) takers: u64,
}

/// Bits in words, the first one the lowest.
#[derive(Debug, Drop)]
pub(crate) struct Words {
    words: Vec<u64>,
}

impl Model for Words {
    ghost use Rattle.std.specs.Prelude.{List, ℕ};

    ghost Value = { List ℕ };

    ghost view = { λ a. a.words.items };
}

impl Words {
    /// Copies the words.
    pub(crate) fn copy(&self) -> Result<Words, AllocError>
        ensures { IfOk result (λ ws. ws ≡ self.now) }
    {
        Ok(Words {
            words: Vec::from_slice(*self.words.allocator(), self.words.as_slice())?,
        })
    }

    /// Makes the words a copy of others. It doesn't allocate when there is room, as when both are equally many.
    pub(crate) fn copy_from(&mut self, other: &Words) -> Result<(), AllocError>
        ensures ok { OnOk result (self.new ≡ other.now) }
        ensures room { length self.old ≡ length other.now → IsOk result }
    {
        self.words.clear();
        self.words.extend_from_slice(other.words.as_slice())
    }

    /// Appends words.
    pub(crate) fn append(&mut self, other: &Words) -> Result<(), AllocError>
        ensures { OnOk result (self.new ≡ self.old ++ other.now) }
    {
        self.words.extend_from_slice(other.words.as_slice())
    }

    /// Borrows the words, in their order.
    pub(crate) fn as_slice(&self) -> &[u64]
        ensures { result.now ≡ self.now }
    {
        self.words.as_slice()
    }

    /// Borrows the first words, as many as that, and the words after them.
    pub(crate) fn split(&self, count: usize) -> (&[u64], &[u64])
        ensures front { result.0.now ≡ take count self.now }
        ensures rest { result.1.now ≡ drop count self.now }
    {
        let count = count.min(self.words.len());
        self.words.as_slice().split_at(count)
    }

    /// Sets the bit at that place, counted from the first bit of the word `first`. Past the end there are no bits.
    pub(crate) fn set_bit(&mut self, first: usize, place: usize)
        ensures { self.new ≡ words.with_bit first place self.old }
    {
        if place / WORD_BITS < self.words.len().saturating_sub(first) {
            self.words[first + place / WORD_BITS] |= 1 << (place % WORD_BITS);
        }
    }

    /// Makes the words those of the row `old` with the first words moved on by a character, as many as the masks have.
    pub(crate) fn move_from(&mut self, old: &Words, step: &RowStep<'_>)
        requires row { length self.old ≡ length old.now }
        requires sized { IsSized step.now }
        ensures { self.new ≡ moved_by step.now old.now }
    {
        move_row(step, self.words.as_mut_slice(), old.as_slice());
    }
}

impl PartialEq for Words {
    ghost use Rattle.std.proofs.Common.{rules};
    ghost use Rattle.std.specs.Cmp.Rules.{comparing};
    ghost use Rattle.std.specs.Cmp.Lexicographic.{pointwise};
    ghost use Rattle.std.specs.Prelude.{nat_eq};

    ghost eq = { pointwise nat_eq };

    ghost laws = { Prim.search (comparing, rules) };

    fn eq(&self, other: &Words) -> bool {
        self.words == other.words
    }
}

impl Eq for Words {
    ghost use Rattle.std.proofs.Common.{rules};
    ghost use Rattle.std.specs.Cmp.Rules.{comparing};

    ghost laws = { Prim.search (comparing, rules) };
}

impl PartialOrd for Words {
    ghost use Rattle.std.proofs.Common.{rules};
    ghost use Rattle.std.specs.Cmp.Rules.{comparing};
    ghost use Rattle.std.specs.Cmp.{partial_order_from_own_ties};
    ghost use Rattle.std.specs.Ordering.{nat_cmp, as_partial_cmp};
    ghost use Rattle.std.specs.Cmp.Lexicographic.{slice_cmp};

    ghost partial_cmp = { as_partial_cmp (slice_cmp nat_cmp) };

    ghost laws = { partial_order_from_own_ties (Prim.search (comparing, rules))
        (Prim.search (comparing, rules)) };

    fn partial_cmp(&self, other: &Words) -> Option<Ordering> {
        Some(self.cmp(other))
    }
}

/// In the order of a dictionary of words.
impl Ord for Words {
    ghost use Rattle.std.proofs.Common.{rules};
    ghost use Rattle.std.specs.Cmp.Rules.{comparing};
    ghost use Rattle.std.specs.Ordering.{nat_cmp};
    ghost use Rattle.std.specs.Cmp.Lexicographic.{slice_cmp};

    ghost cmp = { slice_cmp nat_cmp };

    ghost total = { Prim.search (comparing, rules) };

    ghost matches_partial_cmp = { Prim.search (comparing, rules) };

    ghost matches_eq = { Prim.search (comparing, rules) };

    fn cmp(&self, other: &Words) -> Ordering {
        self.words.cmp(&other.words)
    }
}

impl Hash for Words {
    ghost use Rattle.std.proofs.Common.{rules};
    ghost use Rattle.std.specs.Cmp.Rules.{comparing, hashing};
    ghost use Rattle.std.specs.Hash as fed;

    ghost hash_input = { fed.slice fed.u64 };

    ghost respects_eq = { Prim.search (hashing, rules) };

    fn hash<H: Hasher>(&self, state: &mut H) {
        self.words.hash(state);
    }
}

/// The bits in words, the first one the lowest.
pub(crate) fn pack(alloc: Global, bits: &[bool]) -> Result<Words, AllocError>
    ensures { IfOk result (λ ws. ws ≡ words.packed bits.now) }
{
    let mut packed = Vec::with_capacity(alloc, bits.len() / WORD_BITS + 1)?;
    let mut rest = bits;
    while !rest.is_empty() {
        let (first, more) = rest.split_at(rest.len().min(WORD_BITS));
        packed.push(word(first))?;
        rest = more;
    }
    Ok(Words { words: packed })
}

/// The word of some bits.
fn word(bits: &[bool]) -> u64
    requires { length bits.now ≤ WORD_BITS }
    ensures { result ≡ words.word bits.now }
{
    let mut word = 0;
    for i in 0..bits.len() {
        word = 2 * word + u64::from(bits[bits.len() - 1 - i]);
    }
    word
}

/// Returns whether the bit at that place is set; past the end none is.
pub(crate) fn is_set(packed: &[u64], place: usize) -> bool
    ensures { result ≡ words.bit packed.now place }
{
    let word = packed.get(place / WORD_BITS).copied().unwrap_or(0);
    word >> (place % WORD_BITS) & 1 == 1
}

/// The positions with one more character: all that `stars` lets a position go on to, from `seeds`, by the carries of a sum.
fn spread(stars: u64, seeds: u64) -> u64
    ensures { result ≡ words.spread stars seeds }
{
    let all = seeds | stars;
    seeds | stars & (all.wrapping_add(seeds) ^ all ^ seeds)
}

/// The positions of a word with one more character. `here` is the position before the word, without the character, and
/// `before` is that position with it, as the lowest bit.
pub(crate) fn moved_word(masks: Masks, stays: bool, spots: u64, here: u64, before: u64) -> u64
    ensures { result ≡ words.moved_word stays masks spots here before }
{
    let stayed = if stays { masks.stars & spots } else { 0 };
    let taken = masks.takers & (spots << 1 | here);
    let seeds = masks.entries | (stayed | (taken | masks.stars & before));
    spread(masks.stars, seeds)
}
