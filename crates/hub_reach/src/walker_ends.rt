//! The choices of a walker as masks of its rows.
ghost use Rattle.std.specs.Prelude.{◌≡◌, ◌<◌, length, map, IfOk};
ghost use Rattle.hub_automaton.specs.Spots.{some_match};
ghost use Rattle.hub_reach.specs.WalkerEnds.{AreEndsOf, bar_ends, is_ignored_by, SaysByEnds, SaysBarMatches};

use crate::placed_bar::PlacedBar;
use crate::ranges::SpecRanges;
use hub_automaton::{Ends, SpecSet, Spots};
use std::alloc::{AllocError, Global};

/// Masks of the choices of `ignore`, of those of `ignorenot`, of the texts of the kept values, and of each partial bar.
#[derive(Debug, Drop)]
pub(crate) struct WalkerEnds {
    pub(crate) ignore: Ends,
    pub(crate) ignorenot: Ends,
    pub(crate) kept: Ends,
    pub(crate) barred: Vec<Ends>,
}

impl WalkerEnds {
    /// Returns the masks of the choices of a set at these ranges.
    pub(crate) fn build(
        alloc: Global,
        set: &SpecSet,
        ranges: &SpecRanges,
    ) -> Result<WalkerEnds, AllocError>
        ensures { IfOk result (AreEndsOf set.now.alternatives ranges.now) }
    {
        Ok(WalkerEnds {
            ignore: set.ends_in(0, ranges.ignore_end)?,
            ignorenot: set.ends_in(ranges.ignore_end, ranges.ignorenot_end)?,
            kept: set.ends_in(ranges.ignorenot_end, ranges.kept_end)?,
            barred: ends_of(alloc, set, ranges.partial.as_slice())?,
        })
    }

    /// Returns whether a pattern of `ignore` matches the text of the state, and none of `ignorenot` does.
    pub(crate) fn ignore(&self, spots: &Spots) -> bool
        ensures { SaysByEnds self.now spots.now is_ignored_by result }
    {
        spots.meets(&self.ignore) && !spots.meets(&self.ignorenot)
    }

    /// Returns whether the text of the state is that of a kept value.
    pub(crate) fn keep(&self, spots: &Spots) -> bool
        ensures { SaysByEnds self.now spots.now
            (λ ls a t. some_match ls t a.ignorenot_end a.kept_end) result }
    {
        spots.meets(&self.kept)
    }

    /// Returns whether a choice of the partial bar with that number matches the text of the state.
    pub(crate) fn bar(&self, number: usize, spots: &Spots) -> bool
        requires { number < length self.now.barred.items }
        ensures { SaysBarMatches self.now number spots.now result }
    {
        spots.meets(&self.barred[number])
    }
}

/// The masks of the choices of partial bars.
fn ends_of(alloc: Global, set: &SpecSet, bars: &[PlacedBar]) -> Result<Vec<Ends>, AllocError>
    ensures { IfOk result (λ v. v.items ≡ map (bar_ends set.now.alternatives) bars.now) }
{
    let mut ends = Vec::with_capacity(alloc, bars.len())?;
    for bar in bars {
        ends.push(set.ends_in(bar.from, bar.to)?)?;
    }
    Ok(ends)
}
