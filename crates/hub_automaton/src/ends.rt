//! The last positions of choices as masks, so that one pass over the words of a state tells whether one of them matches.
ghost use Rattle.std.specs.Prelude.{◌≡◌, ◌++◌, IfOk, OnOk};
ghost use Rattle.hub_automaton.specs.Ends as ending;
ghost use Rattle.hub_automaton.specs.Spots.{is_below_kind};
ghost use Rattle.hub_automaton.specs.Words.{packed};

use crate::alternatives::Alternatives;
use crate::words::{Words, pack};
use hub_glob::{Kind, Piece};
use hub_text::Items;
use std::alloc::{AllocError, Global};
use std::marker::Model;

/// A range of the specifications of a [`SpecSet`](crate::SpecSet), as a mask of the states of that set: the last positions of
/// their choices, and their flags. [`Spots::meets`](crate::Spots::meets) asks whether one of them matches.
#[derive(Debug, Drop)]
pub struct Ends {
    mask: Words,
}

impl Model for Ends {
    ghost use Rattle.std.specs.Prelude.{List, ℕ};

    ghost Value = { List ℕ };

    ghost view = { λ e. e.mask };
}

impl Ends {
    /// The ends of the specifications from the one with number `from` on, up to and without the one with number `to`.
    pub(crate) fn of_range(
        alloc: Global,
        alternatives: &[Alternatives],
        from: usize,
        to: usize,
    ) -> Result<Ends, AllocError>
        ensures { IfOk result (λ e. e ≡ ending.ends_in alternatives.now from to) }
    {
        let mut mask = range_ends(alloc, alternatives, from, to)?;
        mask.append(&range_flags(alloc, alternatives, from, to)?)?;
        Ok(Ends { mask })
    }

    /// Returns whether the row has one of them.
    pub(crate) fn meet(&self, row: &[u64]) -> bool
        ensures { result ≡ ending.meets row.now self.now }
    {
        rows_meet(row, self.mask.as_slice())
    }
}

/// Returns whether some bit is set in both rows.
pub(crate) fn rows_meet(row: &[u64], mask: &[u64]) -> bool
    ensures { result ≡ ending.meets row.now mask.now }
{
    for i in 0..row.len().min(mask.len()) {
        if row[i] & mask[i] != 0 {
            return true;
        }
    }
    false
}

/// Adds the positions of a choice. The last one is set if the choice is asked for.
fn add_end(choice: &[Piece], on: bool, bits: &mut Vec<bool>) -> Result<(), AllocError>
    ensures { OnOk result (bits.new.items ≡ bits.old.items ++ ending.end_choice on choice.now) }
{
    for _piece in choice {
        bits.push(false)?;
    }
    bits.push(on)?;
    Ok(())
}

/// Adds the positions of some choices.
fn add_ends(choices: &[Items<Piece>], on: bool, bits: &mut Vec<bool>) -> Result<(), AllocError>
    ensures { OnOk result (bits.new.items ≡ bits.old.items ++ ending.end_choices on choices.now) }
{
    for choice in choices {
        add_end(choice.as_slice(), on, bits)?;
    }
    Ok(())
}

/// The last positions of the choices of a range of specifications.
fn range_ends(
    alloc: Global,
    alternatives: &[Alternatives],
    from: usize,
    to: usize,
) -> Result<Words, AllocError>
    ensures { IfOk result (λ ws. ws ≡ packed (ending.end_all from to 0 alternatives.now)) }
{
    let mut bits = Vec::new(alloc);
    for (i, one) in alternatives.iter().enumerate() {
        add_ends(one.choices.as_slice(), is_in_range(i, from, to), &mut bits)?;
    }
    pack(alloc, bits.as_slice())
}

/// The flags of a range of specifications.
pub(crate) fn range_flags(
    alloc: Global,
    alternatives: &[Alternatives],
    from: usize,
    to: usize,
) -> Result<Words, AllocError>
    ensures { IfOk result (λ ws. ws ≡ packed (ending.end_flags from to 0 alternatives.now)) }
{
    let mut flags = Vec::with_capacity(alloc, alternatives.len())?;
    for i in 0..alternatives.len() {
        flags.push(is_in_range(i, from, to))?;
    }
    pack(alloc, flags.as_slice())
}

fn is_in_range(number: usize, from: usize, to: usize) -> bool
    ensures { result ≡ ending.in_range from to number }
{
    from <= number && number < to
}

/// The last positions of the choices of `BelowPath` specifications.
pub(crate) fn below_ends(alloc: Global, alternatives: &[Alternatives]) -> Result<Words, AllocError>
    ensures { IfOk result (λ ws. ws ≡ ending.below_ends alternatives.now) }
{
    let mut bits = Vec::new(alloc);
    for one in alternatives {
        add_ends(one.choices.as_slice(), is_below_kind(one.kind), &mut bits)?;
    }
    pack(alloc, bits.as_slice())
}

pub(crate) fn is_below_kind(kind: Kind) -> bool
    ensures { result ≡ is_below_kind kind }
{
    matches!(kind, Kind::BelowPath)
}
