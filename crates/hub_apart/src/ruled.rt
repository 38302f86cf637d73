//! A profile that is searched with rules, of which the roots may be nested with its own.
ghost use Rattle.std.specs.Prelude.{◌≡◌, ◌++◌, ◌∷◌, [], map, IfErr, IfOk, OnOk};
ghost use Rattle.std.specs.List.{list_any};
ghost use Rattle.hub_nested.specs.Meeting.{rule_meeting};
ghost use Rattle.hub_nested.specs.declared.rule_meeting.RuleMeeting.TheVariants as meets_rule;
ghost use Rattle.hub_apart.specs.Apart as apart;
ghost use Rattle.hub_apart.specs.ApartLines.{Adds};
ghost use Rattle.hub_apart.specs.NestedLines as said;
ghost use Rattle.hub_cert.specs.Refused.{IsRefused};

use crate::apart::{nests_any, nests_rule_root};
use crate::lines::Numbers;
use crate::nested::{found_in, without_first};
use crate::searched::search_one;
use hub_cert::{CheckFault, Goal};
use hub_nested::{RuleMeeting, Under, meet_rule};
use hub_path::Side;
use hub_profile::{Profile, Rule, Rules};
use hub_text::Items;
use std::alloc::{AllocError, Global};

/// Searches a profile with the rules, where that is its number, and appends its lines. If roots are nested, each rule is searched by
/// itself.
pub(crate) fn search_ruled(
    alloc: Global,
    profile: Profile,
    rules: Rules,
    number: usize,
    lines: &mut Vec<CheckFault>,
) -> Result<(Profile, Rules), CheckFault>
    ensures profile { IfOk result (λ r. r.0 ≡ profile) }
    ensures rules { IfOk result (λ r. r.1 ≡ rules) }
    ensures lines { OnOk result (Adds (said.AreLinesBeside profile rules number)
        lines.old.items lines.new.items) }
    ensures refused { IfErr result (said.IsRefusedBeside profile rules) }
{
    if nests_rules(&profile, rules.as_slice()) {
        search_each_rule(alloc, &profile, rules.as_slice(), number, lines)?;
        return Ok((profile, rules));
    }
    search_one(alloc, profile, rules, number, lines)
}

/// Returns whether the root of a rule is nested with one of the profile or of another rule.
fn nests_rules(profile: &Profile, rules: &[Rule]) -> bool
    ensures { result ≡ said.nests_rules profile.now rules.now }
{
    rules.iter().any(|rule| nests_rule(profile, rules, rule))
}

/// Returns whether the root of that rule is nested with one of the profile or of another rule.
fn nests_rule(profile: &Profile, rules: &[Rule], rule: &Rule) -> bool
    ensures { result ≡ apart.nests_rule (profile.now ∷ []) rules.now rule.now }
{
    nests_any(&rule.root, profile.roots()) || nests_rule_root(rules, &rule.root)
}

/// Searches a profile with each of the rules by itself, and appends their lines.
fn search_each_rule(
    alloc: Global,
    profile: &Profile,
    rules: &[Rule],
    number: usize,
    lines: &mut Vec<CheckFault>,
) -> Result<(), CheckFault>
    ensures lines { OnOk result (Adds (said.AreLinesOfRules profile.now rules.now number)
        lines.old.items lines.new.items) }
    ensures refused { IfErr result (said.IsRefusedRules profile.now rules.now) }
{
    for k in 0..rules.len() {
        let numbers = Numbers {
            first: number,
            second: k,
        };
        search_rule(alloc, profile, &rules[k], numbers, lines)?;
    }
    Ok(())
}

/// Searches a profile with a rule at each of its roots, and appends their lines.
fn search_rule(
    alloc: Global,
    profile: &Profile,
    rule: &Rule,
    numbers: Numbers,
    lines: &mut Vec<CheckFault>,
) -> Result<(), CheckFault>
    ensures lines { OnOk result (Adds
        (said.AreLinesOfRule profile.now rule.now numbers.first numbers.second)
        lines.old.items lines.new.items) }
    ensures refused { IfErr result (said.IsRefusedUnder profile.now rule.now) }
{
    search_rule_at(alloc, profile, Side::Left, rule, numbers, lines)?;
    search_rule_at(alloc, profile, Side::Right, rule, numbers, lines)
}

/// Searches a profile at the root of that side with a rule, and appends their lines.
fn search_rule_at(
    alloc: Global,
    profile: &Profile,
    at: Side,
    rule: &Rule,
    numbers: Numbers,
    lines: &mut Vec<CheckFault>,
) -> Result<(), CheckFault>
    ensures lines { OnOk result (Adds
        (said.AreLinesUnder (rule_meeting profile.now at rule.now) numbers.first numbers.second)
        lines.old.items lines.new.items) }
    ensures refused { IfErr result (said.IsRefusedUnder profile.now rule.now) }
{
    match meet_rule(alloc, profile, at, rule)? {
        RuleMeeting::Apart => Ok(()),
        RuleMeeting::Unsaid => Ok(lines.push(large_breach(numbers))?),
        RuleMeeting::Counted(both) => search_under(alloc, both, numbers, lines),
    }
}

/// The line of a profile and a rule whose set is too large.
fn large_breach(numbers: Numbers) -> CheckFault
    ensures { result ≡ said.large_breach numbers.first numbers.second }
{
    CheckFault::TooLarge {
        goal: Goal::Breach {
            profile: numbers.first,
            rule: numbers.second,
        },
    }
}

/// Searches a profile and a rule that are counted from the upper root, and appends their lines.
fn search_under(
    alloc: Global,
    both: Under,
    numbers: Numbers,
    lines: &mut Vec<CheckFault>,
) -> Result<(), CheckFault>
    ensures lines { OnOk result (Adds
        (said.AreLinesUnder (meets_rule.Counted both) numbers.first numbers.second)
        lines.old.items lines.new.items) }
    ensures refused { IfErr result (IsRefused (said.under both)) }
{
    let Under {
        profile,
        rule,
        names,
    } = both;
    let mut profiles = Items::new(alloc);
    profiles.push(profile)?;
    let mut rules = Rules::new(alloc);
    rules.push(rule)?;
    let found = found_in(alloc, profiles, rules)?;
    push_breaches(alloc, lines, found, numbers, names)?;
    Ok(())
}

/// Appends lines of a profile and a rule. The rule's root lies so many names below that of the lines.
fn push_breaches(
    alloc: Global,
    lines: &mut Vec<CheckFault>,
    found: Vec<CheckFault>,
    numbers: Numbers,
    names: usize,
) -> Result<(), AllocError>
    ensures { OnOk result (lines.new.items ≡ lines.old.items
        ++ map (said.counted_breach names numbers.first numbers.second) found.items) }
{
    for line in found {
        lines.push(breach(alloc, numbers, names, line)?)?;
    }
    Ok(())
}

/// The line with those numbers, counted from the rule's root.
fn breach(
    alloc: Global,
    numbers: Numbers,
    names: usize,
    line: CheckFault,
) -> Result<CheckFault, AllocError>
    ensures { IfOk result
        (λ e. e ≡ said.counted_breach names numbers.first numbers.second line) }
{
    match line {
        CheckFault::Breach { path, .. } => Ok(CheckFault::Breach {
            profile: numbers.first,
            rule: numbers.second,
            path: without_first(alloc, &path, names)?,
        }),
        CheckFault::TooLarge { .. } => Ok(large_breach(numbers)),
        other => Ok(other),
    }
}
