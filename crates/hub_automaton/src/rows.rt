//! Rows of words moved on by a character: first each word without the position before it, so that a processor moves several
//! at once, and then those words again that the position before them goes on into.
ghost use Rattle.std.specs.Prelude.{◌≡◌, ◌<◌, ◌≤◌, length, drop, min};
ghost use Rattle.hub_automaton.specs.forms.Rows as rows;
ghost use Rattle.hub_automaton.specs.forms.Rows.{IsMoved, IsMovedApart, IsSized, NoneCarried};

use crate::words::{Masks, WORD_BITS, moved_word};

/// How the words of a row move on by a character: whether a `*` accepts it, whether positions are entered, and the masks of
/// each word.
#[derive(Clone, Copy)]
pub(crate) struct RowStep<'a> {
    pub(crate) stays: bool,
    pub(crate) enters: bool,
    pub(crate) entries: &'a [u64],
    pub(crate) stars: &'a [u64],
    pub(crate) takers: &'a [u64],
}

/// Makes `new` the row `old` with its first words moved on by a character, as many as the masks have.
pub(crate) fn move_row(step: &RowStep<'_>, new: &mut [u64], old: &[u64])
    requires row { length new.old ≡ length old.now }
    requires sized { IsSized step.now }
    ensures { new.new ≡ rows.moved_by step.now old.now }
{
    copy_after(new, old, step.stars.len().min(old.len()));
    if move_apart(step, new, old) != 0 {
        carry_on(step, new, old);
    }
}

/// Copies the words from a place on. Mostly there is one, which takes no loop.
fn copy_after(new: &mut [u64], old: &[u64], place: usize)
    requires row { length new.old ≡ length old.now }
    requires place { place ≤ length old.now }
    ensures { drop place new.new ≡ drop place old.now }
{
    if old.len() - place == 1 {
        new[place] = old[place];
        return;
    }
    for i in place..old.len() {
        new[i] = old[i];
    }
}

/// Moves each word without the position before it. The result is 0 if no position goes on into the word after it.
fn move_apart(step: &RowStep<'_>, new: &mut [u64], old: &[u64]) -> u64
    requires row { length new.old ≡ length old.now }
    requires sized { IsSized step.now }
    ensures apart { IsMovedApart step.now old.now new.new }
    ensures after { let n = rows.moved_count step.now old.now in drop n new.new ≡ drop n new.old }
    ensures none { result ≡ 0
        → NoneCarried step.now.stars.now new.new (rows.moved_count step.now old.now) }
{
    let mut here = 0;
    let mut before = 0;
    let mut carried = 0;
    for i in 0..step.stars.len().min(old.len()) {
        let masks = masks_at(step, i);
        let word = moved_word(masks, step.stays, old[i], here, 0);
        carried |= masks.stars & before;
        here = old[i] >> (WORD_BITS - 1);
        before = word >> (WORD_BITS - 1);
        new[i] = word;
    }
    carried
}

/// Moves those words again that the position before them goes on into.
fn carry_on(step: &RowStep<'_>, new: &mut [u64], old: &[u64])
    requires row { length new.old ≡ length old.now }
    requires sized { IsSized step.now }
    requires apart { IsMovedApart step.now old.now new.old }
    ensures moved { IsMoved step.now old.now new.new }
    ensures after { let n = rows.moved_count step.now old.now in drop n new.new ≡ drop n new.old }
{
    for i in 1..step.stars.len().min(old.len()) {
        let before = new[i - 1] >> (WORD_BITS - 1);
        if step.stars[i] & before != 0 {
            let here = old[i - 1] >> (WORD_BITS - 1);
            new[i] = moved_word(masks_at(step, i), step.stays, old[i], here, before);
        }
    }
}

/// The masks of a word.
fn masks_at(step: &RowStep<'_>, i: usize) -> Masks
    requires place { i < length step.now.stars.now }
    requires sized { IsSized step.now }
    ensures { result ≡ rows.masks_of step.now i }
{
    Masks {
        entries: if step.enters { step.entries[i] } else { 0 },
        stars: step.stars[i],
        takers: step.takers[i],
    }
}
