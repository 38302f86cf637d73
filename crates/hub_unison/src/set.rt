//! The readings of a set's profiles.
ghost use Rattle.std.specs.Prelude.{◌≡◌, IfOk, List, map};
ghost use Rattle.hub_unison.specs.ReadingOf as reading;
ghost use Rattle.hub_unison.specs.Rules as unison;
ghost use Rattle.hub_unison.specs.Written.{AreWrittenAs, Written};

use crate::reading::cautious;
use crate::tops::top_values;
use hub_profile::{Bars, Profile, Rules};
use hub_text::Items;
use std::alloc::{AllocError, Global};

/// Returns the readings of the profiles of a set with these rules, in their order. Without rules each is its cautious reading.
/// Beside rules each is one that is wider still, since Unison breaks rules at more paths than it carries out items at: it
/// ignores nothing, has no bars on paths, and `nocreation` only where it has `noupdate` of the same root.
///
/// If the readings and the rules are a safe set, by none of the profiles Unison breaks a rule. If no two have the same two roots
/// ([`crate::shared_archives`]), either, no two of them clash in Unison ([`crate::laws`]).
pub fn read_set(
    alloc: Global,
    profiles: Items<Profile>,
    rules: &Rules,
) -> Result<Items<Profile>, AllocError>
    ensures value { IfOk result (λ rs. rs ≡ map (reading.reading_of rules.now) profiles) }
    ensures wide { IfOk result (λ rs. (Ws : List Written) → AreWrittenAs Ws profiles
        → unison.AreReadForUnison Ws rules.now rs) }
{
    read_all(alloc, profiles, rules)
}

fn read_all(
    alloc: Global,
    profiles: Items<Profile>,
    rules: &Rules,
) -> Result<Items<Profile>, AllocError>
    ensures { IfOk result (λ rs. rs ≡ map (reading.reading_of rules.now) profiles) }
{
    let mut readings = Items::new(alloc);
    for profile in profiles.into_vec() {
        readings.push(read(alloc, profile, rules)?)?;
    }
    Ok(readings)
}

/// Returns the reading of a profile beside these rules.
fn read(alloc: Global, profile: Profile, rules: &Rules) -> Result<Profile, AllocError>
    ensures { IfOk result (λ r. r ≡ reading.reading_of rules.now profile) }
{
    if rules.as_slice().is_empty() {
        return cautious(alloc, profile);
    }
    for_rules(alloc, profile)
}

/// Returns the reading of a profile beside any rules.
fn for_rules(alloc: Global, profile: Profile) -> Result<Profile, AllocError>
    ensures { IfOk result (λ r. r
        ≡ unison.for_rules profile (reading.top_values profile.paths)) }
{
    let tops = top_values(alloc, profile.paths())?;
    let bars = bars_for_rules(profile.bars());
    let kept = profile.with_paths(tops).with_bars(bars);
    Ok(kept.with_patterns(Items::new(alloc), Items::new(alloc), Items::new(alloc)))
}

fn bars_for_rules(bars: &[Bars; 2]) -> [Bars; 2]
    ensures { result ≡ map unison.rule_bars bars.now }
{
    [rule_bars(bars[0]), rule_bars(bars[1])]
}

fn rule_bars(bars: Bars) -> Bars
    ensures { result ≡ unison.rule_bars bars }
{
    Bars {
        create: bars.create && bars.update,
        ..bars
    }
}
