//! A profile at a root, and a rule, counted from the upper of the two roots.
ghost use Rattle.std.specs.Prelude.{◌≡◌, Some, IfOk, IsTrue};
ghost use Rattle.hub_path.specs.Path.{Path, is_path};
ghost use Rattle.hub_profile.specs.Parts.{at_side};
ghost use Rattle.hub_nested.specs.Meeting as said;
ghost use Rattle.hub_nested.specs.Placed as placed;

use crate::below::paths_below;
use crate::meeting::names_down;
use crate::pieces::lifted_spec;
use crate::placed::{asides, placed};
use crate::said::{only_below, said_from};
use hub_path::{RelPath, Root, Side};
use hub_profile::{Profile, Rule};
use hub_unison::copy_of;
use std::alloc::{AllocError, Global};

/// How a profile and a rule meet at a root of the profile.
#[derive(Debug, Drop)]
pub enum RuleMeeting {
    /// Neither root is over the other, or the profile keeps nothing below the rule's root.
    Apart,
    /// A specification can't be written: it has too many characters with the names from the upper root in front, or by itself.
    /// Or the rule's root is the top of the file system, with which all roots are nested.
    Unsaid,
    /// Both, at the upper root.
    Counted(Under),
}

/// A profile and a rule at one root.
#[derive(Debug, Drop)]
pub struct Under {
    /// The profile.
    pub profile: Profile,
    /// The rule.
    pub rule: Rule,
    /// By how many names the rule's own root lies below.
    pub names: usize,
}

/// Returns how a profile and a rule meet at the root of that side: as a set of both in which all paths are counted from the
/// upper root. If the profile ignores nothing, the set has a breach if they have one there
/// (`laws::breaches_are_counted_from_the_upper_root`).
pub fn meet_rule(
    alloc: Global,
    profile: &Profile,
    at: Side,
    rule: &Rule,
) -> Result<RuleMeeting, AllocError>
    ensures { IfOk result (λ m. m ≡ said.rule_meeting profile.now at rule.now) }
{
    let root = profile.root(at);
    if root.is_within(&rule.root) {
        let names = names_down(alloc, &rule.root, root)?;
        return under_rule(alloc, profile, at, &names, rule);
    }
    if rule.root.is_within(root) {
        let names = names_down(alloc, root, &rule.root)?;
        return over_rule(alloc, profile, at, &names, rule);
    }
    Ok(RuleMeeting::Apart)
}

/// Returns how they meet where the profile's root is the rule's, or lies below it by these names.
fn under_rule(
    alloc: Global,
    profile: &Profile,
    at: Side,
    names: &RelPath,
    rule: &Rule,
) -> Result<RuleMeeting, AllocError>
    ensures { IfOk result (λ m. m ≡ said.under_rule profile.now at names.now rule.now) }
{
    if rule.root.path().len() == 0 {
        return Ok(RuleMeeting::Unsaid);
    }
    let Some(profile_said) = said_from(alloc, names, profile)? else {
        return Ok(RuleMeeting::Unsaid);
    };
    let Some(spec) = copy_of(alloc, &rule.spec)? else {
        return Ok(RuleMeeting::Unsaid);
    };
    let copy = Rule {
        root: rule.root.copy()?,
        verb: rule.verb,
        spec,
    };
    let under = at_root(alloc, profile_said, at, &rule.root, copy, 0)?;
    Ok(RuleMeeting::Counted(under))
}

/// Returns how they meet where the profile's root lies above the rule's by these names.
fn over_rule(
    alloc: Global,
    profile: &Profile,
    at: Side,
    names: &RelPath,
    rule: &Rule,
) -> Result<RuleMeeting, AllocError>
    ensures { (r : Path) → at_side profile.now.roots at ≡ Some r
        → IfOk result (λ m. m ≡ said.over_rule profile.now at r names.now rule.now) }
{
    let depth = names.len();
    let paths = paths_below(alloc, names, profile.paths())?;
    if paths.is_empty() {
        return Ok(RuleMeeting::Apart);
    }
    let Some(kept) = only_below(alloc, names, profile, paths)? else {
        return Ok(RuleMeeting::Unsaid);
    };
    let Some(spec) = lifted_spec(alloc, names, &rule.spec)? else {
        return Ok(RuleMeeting::Unsaid);
    };
    let root = profile.root(at);
    let copy = Rule {
        root: root.copy()?,
        verb: rule.verb,
        spec,
    };
    let under = at_root(alloc, kept, at, root, copy, depth)?;
    Ok(RuleMeeting::Counted(under))
}

/// Returns the profile at the root, and the rule.
fn at_root(
    alloc: Global,
    profile: Profile,
    at: Side,
    root: &Root,
    rule: Rule,
    names: usize,
) -> Result<Under, AllocError>
    requires path { IsTrue (is_path root.now) }
    ensures { IfOk result (λ u. u ≡ record {
      profile = placed.placed at root.now (placed.asides root.now).0 profile;
      rule = rule;
      names = names;
    }) }
{
    let (aside, _) = asides(alloc, root)?;
    Ok(Under {
        profile: placed(profile, at, root.copy()?, aside),
        rule,
        names,
    })
}
