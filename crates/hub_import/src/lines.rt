//! The sections of profiles and of rules.
ghost use Rattle.std.specs.Prelude.{◌≡◌, ◌++◌, None, OnOk, option_map};
ghost use Rattle.hub_profile.specs.Parts.{at_side};
ghost use Rattle.std.specs.List.{flat_map};
ghost use Rattle.hub_import.specs.Text as text;

use crate::value::{end_of, push, push_path, push_root, push_setting};
use hub_glob::PathSpec;
use hub_path::{RelPath, Root, Side};
use hub_profile::{Bars, Partial, Profile, Rule, Verb};
use std::alloc::AllocError;

/// Appends the sections of profiles.
pub(crate) fn push_profiles(bytes: &mut Vec<u8>, profiles: &[Profile]) -> Result<(), AllocError>
    ensures { OnOk result (bytes.new.items
        ≡ bytes.old.items ++ flat_map text.profile_text profiles.now) }
{
    for profile in profiles {
        push_profile(bytes, profile)?;
    }
    Ok(())
}

/// Appends the section of a profile.
fn push_profile(bytes: &mut Vec<u8>, profile: &Profile) -> Result<(), AllocError>
    ensures { OnOk result (bytes.new.items ≡ bytes.old.items ++ text.profile_text profile.now) }
{
    push_heading(bytes, profile)?;
    push_kept(bytes, profile)?;
    push_patterns(bytes, profile)?;
    push_protections(bytes, profile)?;
    push_partials(bytes, profile)
}

/// Appends the heading of a profile.
fn push_heading(bytes: &mut Vec<u8>, profile: &Profile) -> Result<(), AllocError>
    ensures { OnOk result (bytes.new.items ≡ bytes.old.items ++ text.heading profile.now) }
{
    push(bytes, "%profile ")?;
    push(bytes, profile.name().text())?;
    push(bytes, "\n")
}

/// Appends the lines of the roots and of the kept values.
fn push_kept(bytes: &mut Vec<u8>, profile: &Profile) -> Result<(), AllocError>
    ensures { OnOk result (bytes.new.items ≡ bytes.old.items ++ text.kept_lines profile.now) }
{
    push_root(bytes, "root", profile.root(Side::Left))?;
    push_root(bytes, "root", profile.root(Side::Right))?;
    push_paths(bytes, profile.paths())
}

/// Appends the lines of the patterns.
fn push_patterns(bytes: &mut Vec<u8>, profile: &Profile) -> Result<(), AllocError>
    ensures { OnOk result (bytes.new.items ≡ bytes.old.items ++ text.pattern_lines profile.now) }
{
    push_specs(bytes, "ignore", profile.ignore())?;
    push_specs(bytes, "ignorenot", profile.ignorenot())
}

/// Appends the lines that protect a root.
fn push_protections(bytes: &mut Vec<u8>, profile: &Profile) -> Result<(), AllocError>
    ensures { OnOk result (bytes.new.items
        ≡ bytes.old.items ++ text.protection_lines profile.now) }
{
    push_side(bytes, "force", profile, profile.force())?;
    push_side(bytes, "prefer", profile, profile.prefer())?;
    push_bars_at(bytes, profile, Side::Left)?;
    push_bars_at(bytes, profile, Side::Right)
}

/// Appends the lines of kept values.
fn push_paths(bytes: &mut Vec<u8>, paths: &[RelPath]) -> Result<(), AllocError>
    ensures { OnOk result (bytes.new.items ≡ bytes.old.items ++ flat_map text.path_line paths.now) }
{
    for path in paths {
        push_path(bytes, path)?;
    }
    Ok(())
}

/// Appends the lines of specifications.
fn push_specs(bytes: &mut Vec<u8>, name: &str, specs: &[PathSpec]) -> Result<(), AllocError>
    ensures { OnOk result (bytes.new.items
        ≡ bytes.old.items ++ text.spec_lines name.now specs.now) }
{
    for spec in specs {
        push_spec(bytes, name, spec)?;
    }
    Ok(())
}

/// Appends the line of a specification.
fn push_spec(bytes: &mut Vec<u8>, name: &str, spec: &PathSpec) -> Result<(), AllocError>
    ensures { OnOk result (bytes.new.items ≡ bytes.old.items ++ text.spec_line name.now spec.now) }
{
    push_setting(bytes, name, spec.text()?.as_str())
}

/// Appends the line whose value is the root of a side, if there is one.
fn push_side(
    bytes: &mut Vec<u8>,
    name: &str,
    profile: &Profile,
    side: Option<Side>,
) -> Result<(), AllocError>
    ensures { OnOk result (bytes.new.items
        ≡ bytes.old.items ++ text.side_line name.now profile.now side) }
{
    match side {
        Some(side) => push_root(bytes, name, profile.root(side)),
        None => Ok(()),
    }
}

/// Appends the lines that bar changes at the root of a side.
fn push_bars_at(bytes: &mut Vec<u8>, profile: &Profile, side: Side) -> Result<(), AllocError>
    ensures { OnOk result (bytes.new.items ≡ bytes.old.items
        ++ text.bars_at (at_side profile.now.bars side) (at_side profile.now.roots side)) }
{
    match bars_at(profile, side) {
        Some(bars) => push_bars(bytes, bars, profile.root(side)),
        None => Ok(()),
    }
}

/// The changes that a profile doesn't make at the root of a side.
fn bars_at(profile: &Profile, side: Side) -> Option<Bars>
    ensures { result ≡ at_side profile.now.bars side }
{
    match side {
        Side::Left => profile.bars().get(0).copied(),
        Side::Right => profile.bars().get(1).copied(),
    }
}

/// Appends the lines that bar changes at a root.
fn push_bars(bytes: &mut Vec<u8>, bars: Bars, root: &Root) -> Result<(), AllocError>
    ensures { OnOk result (bytes.new.items ≡ bytes.old.items ++ text.bars_lines bars root.now) }
{
    if bars.create {
        push_root(bytes, "nocreation", root)?;
    }
    if bars.update {
        return push_root(bytes, "noupdate", root);
    }
    if bars.delete {
        return push_root(bytes, "nodeletion", root);
    }
    Ok(())
}

/// Appends the lines that bar changes on some paths of a root.
fn push_partials(bytes: &mut Vec<u8>, profile: &Profile) -> Result<(), AllocError>
    ensures { OnOk result (bytes.new.items
        ≡ bytes.old.items ++ flat_map (text.partial_line profile.now) profile.now.partial) }
{
    for partial in profile.partial() {
        push_partial(bytes, partial, profile.root(partial.side))?;
    }
    Ok(())
}

/// Appends the line that bars changes on some paths of this root.
fn push_partial(bytes: &mut Vec<u8>, partial: &Partial, root: &Root) -> Result<(), AllocError>
    ensures { OnOk result (bytes.new.items
        ≡ bytes.old.items ++ text.partial_at partial.now (Some root.now)) }
{
    let root = root.as_str();
    push(bytes, partial_name(partial.bars))?;
    push(bytes, " = ")?;
    push(bytes, partial.spec.text()?.as_str())?;
    push(bytes, " -> ")?;
    push(bytes, root)?;
    push(bytes, end_of(root))
}

/// The preference that forbids these changes on some paths.
fn partial_name(bars: Bars) -> &'static str
    ensures { result.now ≡ text.partial_name bars }
{
    if bars.create {
        "nocreationpartial"
    } else if bars.update {
        "noupdatepartial"
    } else {
        "nodeletionpartial"
    }
}

/// Appends the section of the rules, if there are any.
pub(crate) fn push_rules(bytes: &mut Vec<u8>, rules: &[Rule]) -> Result<(), AllocError>
    ensures { OnOk result (bytes.new.items ≡ bytes.old.items ++ text.rules_text rules.now) }
{
    if rules.is_empty() {
        return Ok(());
    }
    push(bytes, "%rules\n")?;
    push_each_rule(bytes, rules)
}

/// Appends the lines of rules.
fn push_each_rule(bytes: &mut Vec<u8>, rules: &[Rule]) -> Result<(), AllocError>
    ensures { OnOk result (bytes.new.items ≡ bytes.old.items ++ text.rules_below None rules.now) }
{
    let mut last = None;
    for rule in rules {
        push_rule(bytes, last, rule)?;
        last = Some(&rule.root);
    }
    Ok(())
}

/// Appends the lines of a rule: that of its root if it isn't that of the rules above, and that of its pattern.
fn push_rule(bytes: &mut Vec<u8>, last: Option<&Root>, rule: &Rule) -> Result<(), AllocError>
    ensures { OnOk result (bytes.new.items
        ≡ bytes.old.items ++ text.rule_lines (option_map (λ r. r.now) last.entry) rule.now) }
{
    if !is_at(last, &rule.root) {
        push_root(bytes, "root", &rule.root)?;
    }
    push_setting(bytes, verb_name(rule.verb), rule.spec.text()?.as_str())
}

/// Returns whether this is the root of the rules above.
fn is_at(last: Option<&Root>, root: &Root) -> bool
    ensures { result ≡ text.is_at (option_map (λ r. r.now) last.entry) root.now }
{
    match last {
        Some(last) => last == root,
        None => false,
    }
}

/// The name of a rule.
fn verb_name(verb: Verb) -> &'static str
    ensures { result.now ≡ text.verb_name verb }
{
    match verb {
        Verb::Create => "nonew",
        Verb::Update => "nochange",
        Verb::Delete => "nolose",
    }
}
