//! The choices of a profile, and their ranges among those of a set.
ghost use Rattle.std.specs.Prelude.{◌≡◌, ◌++◌, ◌∷◌, [], length, map, IfOk, IfErr, OnOk};
ghost use Rattle.hub_automaton.specs.Spots.{RefusesSpots, alternatives_of, path_alternatives};
ghost use Rattle.hub_reach.specs.Bars as bars;
ghost use Rattle.hub_reach.specs.Bars.{specs_of};
ghost use Rattle.hub_reach.specs.SpecRanges.{AreRangesOf, RefusesProfile};
ghost use Rattle.hub_reach.specs.Stage.{profile_alternatives, texts_of};

use crate::placed_bar::PlacedBar;
use hub_automaton::laws::paths_have_a_spot_more;
use hub_automaton::{AutomatonFault, SpecSetBuilder};
use hub_path::RelPath;
use hub_profile::{Partial, Profile};
use std::alloc::Global;
use std::slice::from_ref;

/// Where the choices of a profile are among those of a set: first those of `ignore`, then those of `ignorenot`, then the
/// texts of the kept values, then those of the partial bars. An end is the number after the last choice.
#[derive(Debug, Drop)]
pub(crate) struct SpecRanges {
    pub(crate) ignore_end: usize,
    pub(crate) ignorenot_end: usize,
    pub(crate) kept_end: usize,
    pub(crate) partial: Vec<PlacedBar>,
}

impl SpecRanges {
    /// Adds the choices of a profile to a builder that has none, and returns their ranges.
    pub(crate) fn add(
        alloc: Global,
        builder: &mut SpecSetBuilder,
        profile: &Profile,
    ) -> Result<SpecRanges, AutomatonFault>
        requires { builder.old ≡ [] }
        ensures ok { OnOk result (builder.new ≡ profile_alternatives profile.now) }
        ensures ranges { IfOk result (AreRangesOf profile.now) }
        ensures err { IfErr result (RefusesProfile profile.now) }
    {
        paths_have_a_spot_more();
        builder.add_specs(profile.ignore())?;
        let ignore_end = builder.len();
        builder.add_specs(profile.ignorenot())?;
        let ignorenot_end = builder.len();
        add_paths(builder, profile.paths())?;
        let kept_end = builder.len();
        let partial = add_bars(alloc, builder, profile.partial())?;
        Ok(SpecRanges {
            ignore_end,
            ignorenot_end,
            kept_end,
            partial,
        })
    }
}

/// Adds the kept values to the choices, the whole replica left out.
fn add_paths(builder: &mut SpecSetBuilder, paths: &[RelPath]) -> Result<(), AutomatonFault>
    ensures ok { OnOk result
        (builder.new ≡ builder.old ++ map path_alternatives (texts_of paths.now)) }
    ensures err { IfErr result (RefusesSpots
        (builder.old ++ map path_alternatives (texts_of paths.now))) }
{
    for path in paths {
        if path.len() > 0 {
            builder.add_path(path)?;
        }
    }
    Ok(())
}

/// Adds the choices of partial bars, and returns the bars with the ranges of these.
fn add_bars(
    alloc: Global,
    builder: &mut SpecSetBuilder,
    partial: &[Partial],
) -> Result<Vec<PlacedBar>, AutomatonFault>
    ensures ok { OnOk result
        (builder.new ≡ builder.old ++ map alternatives_of (specs_of partial.now)) }
    ensures placed { IfOk result
        (λ bs. bs.items ≡ bars.placed_bars (length builder.old) partial.now) }
    ensures err { IfErr result (RefusesSpots
        (builder.old ++ map alternatives_of (specs_of partial.now))) }
{
    let mut placed = Vec::new(alloc);
    for bar in partial {
        placed.push(add_bar(builder, bar)?)?;
    }
    Ok(placed)
}

/// Adds the choices of a partial bar, and returns the bar with their place.
fn add_bar(builder: &mut SpecSetBuilder, bar: &Partial) -> Result<PlacedBar, AutomatonFault>
    ensures ok { OnOk result (builder.new ≡ builder.old ++ alternatives_of bar.now.spec ∷ []) }
    ensures placed { IfOk result (λ b. b ≡ bars.placed_bar (length builder.old) bar.now) }
    ensures err { IfErr result (RefusesSpots
        (builder.old ++ alternatives_of bar.now.spec ∷ [])) }
{
    let from = builder.len();
    builder.add_specs(from_ref(&bar.spec))?;
    Ok(PlacedBar {
        side: bar.side,
        bars: bar.bars,
        from,
        to: builder.len(),
    })
}
