//! Profiles that are searched one at a time, each with all rules.
ghost use Rattle.std.specs.Prelude.{◌≡◌, map, IfErr, IfOk, OnOk};
ghost use Rattle.hub_apart.specs.UnisonLines as said;
ghost use Rattle.hub_apart.specs.UnisonLines.{OfCautious};
ghost use Rattle.hub_unison.specs.Rules.{rule_bars};

use crate::ruled::search_ruled;
use hub_cert::CheckFault;
use hub_profile::{Bars, Profile, Rules};
use hub_text::Items;
use std::alloc::{AllocError, Global};

/// Makes the readings beside rules of these cautious ones, searches each with the rules, and appends their lines. Returns the
/// readings and the rules. If there are no rules, nothing is searched, and the cautious readings are returned.
pub(crate) fn search_beside(
    alloc: Global,
    readings: Vec<Profile>,
    rules: Rules,
    lines: &mut Vec<CheckFault>,
) -> Result<(Vec<Profile>, Rules), CheckFault>
    ensures profiles { OfCautious readings.items
        (λ Ps. IfOk result (λ r. r.0.items ≡ said.beside rules Ps)) }
    ensures rules { IfOk result (λ r. r.1 ≡ rules) }
    ensures lines { OfCautious readings.items (λ Ps. OnOk result
        (said.AddsLinesOfEach (said.beside rules Ps) rules lines.old.items lines.new.items)) }
    ensures refused { OfCautious readings.items
        (λ Ps. IfErr result (said.IsRefusedOne (said.beside rules Ps) rules)) }
{
    if rules.as_slice().is_empty() {
        return Ok((readings, rules));
    }
    check_valid(readings.as_slice());
    let readings = beside_rules(alloc, readings)?;
    search_each_alone(alloc, readings, rules, lines)
}

/// Each profile is valid.
pub(crate) fn check_valid(profiles: &[Profile])
    ensures { said.AreValid profiles.now }
{
    for profile in profiles {
        let _ = profile.roots();
    }
}

/// Searches each profile alone with the rules, and appends their lines. Returns the profiles and the rules.
fn search_each_alone(
    alloc: Global,
    profiles: Vec<Profile>,
    rules: Rules,
    lines: &mut Vec<CheckFault>,
) -> Result<(Vec<Profile>, Rules), CheckFault>
    ensures profiles { IfOk result (λ r. r.0.items ≡ profiles.items) }
    ensures rules { IfOk result (λ r. r.1 ≡ rules) }
    ensures lines { OnOk result
        (said.AddsLinesOfEach profiles.items rules lines.old.items lines.new.items) }
    ensures refused { IfErr result (said.IsRefusedOne profiles.items rules) }
{
    let mut all = Vec::with_capacity(alloc, profiles.len())?;
    let mut rules = rules;
    for profile in profiles {
        let (profile, kept) = search_ruled(alloc, profile, rules, all.len(), lines)?;
        all.push(profile)?;
        rules = kept;
    }
    Ok((all, rules))
}

/// Makes the readings beside rules of these cautious ones.
fn beside_rules(alloc: Global, readings: Vec<Profile>) -> Result<Vec<Profile>, AllocError>
    ensures { IfOk result (λ r. r.items ≡ map said.wide readings.items) }
{
    let mut all = Vec::with_capacity(alloc, readings.len())?;
    for reading in readings {
        all.push(wide(alloc, reading))?;
    }
    Ok(all)
}

/// Makes the reading beside rules of a cautious one: nothing is ignored, no bar on paths is left, and `nocreation` only where there
/// is `noupdate` of the same root.
fn wide(alloc: Global, reading: Profile) -> Profile
    ensures { result ≡ said.wide reading }
{
    let bars = bars_for_rules(reading.bars());
    let barred = reading.with_bars(bars);
    barred.with_patterns(Items::new(alloc), Items::new(alloc), Items::new(alloc))
}

fn bars_for_rules(bars: &[Bars; 2]) -> [Bars; 2]
    ensures { result ≡ map rule_bars bars.now }
{
    [rule_bars(bars[0]), rule_bars(bars[1])]
}

fn rule_bars(bars: Bars) -> Bars
    ensures { result ≡ rule_bars bars }
{
    Bars {
        create: bars.create && bars.update,
        ..bars
    }
}
