//! Partial bars, as a walker has them.
ghost use Rattle.std.specs.Prelude.{◌≡◌, ◌&&◌};
ghost use Rattle.hub_path.specs.Sides as sides;
ghost use Rattle.hub_reach.specs.Bars as spec;
ghost use Rattle.hub_reach.specs.Reach as reach;

use crate::verbs::covers;
use hub_path::Side;
use hub_profile::{Bars, Verb};

/// A partial bar of a profile, with the place of its choices among those of a set: the numbers from `from` up to and without
/// `to`.
#[derive(Clone, Copy, Debug)]
pub struct PlacedBar {
    pub(crate) side: Side,
    pub(crate) bars: Bars,
    pub(crate) from: usize,
    pub(crate) to: usize,
}

impl PlacedBar {
    /// Returns whether it forbids the change at the root of that side, on the paths that its choices match.
    pub(crate) fn forbids(&self, side: Side, verb: Verb) -> bool
        ensures { result ≡ (sides.is_same_side self.now.side side
            && reach.covers verb self.now.bars) }
    {
        is_same_side(self.side, side) && covers(verb, self.bars)
    }
}

fn is_same_side(side: Side, other: Side) -> bool
    ensures { result ≡ sides.is_same_side side other }
{
    match (side, other) {
        (Side::Left, Side::Left) | (Side::Right, Side::Right) => true,
        (Side::Left, Side::Right) | (Side::Right, Side::Left) => false,
    }
}
