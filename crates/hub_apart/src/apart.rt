//! Which profiles are put apart.
ghost use Rattle.std.specs.Prelude.{◌≡◌};
ghost use Rattle.std.specs.List.{list_any};
ghost use Rattle.hub_cert.specs.Refused as refused;
ghost use Rattle.hub_apart.specs.Apart as said;
ghost use Rattle.hub_apart.specs.Apart.{any_two};

use hub_cert::PROFILES;
use hub_path::Root;
use hub_profile::{Profile, Rule};

/// Returns whether profiles have nested roots, and nothing else keeps them and the rules from being a set: there are at most
/// `PROFILES` profiles with different names, and no rule's root is nested with another root. Their characters and spots aren't
/// counted.
pub fn are_put_apart(profiles: &[Profile], rules: &[Rule]) -> bool
    ensures { result ≡ said.are_put_apart (record { profiles = profiles.now; rules = rules.now }) }
{
    profiles.len() <= PROFILES
        && has_nested(profiles)
        && !has_namesakes(profiles)
        && !has_nested_rule(profiles, rules)
}

/// Returns whether an earlier and a later profile have nested roots.
pub fn has_nested(profiles: &[Profile]) -> bool
    ensures { result ≡ any_two said.have_nested profiles.now }
{
    let mut rest = profiles;
    while let Some((profile, later)) = rest.split_first() {
        if is_nested_with_one(profile, later) {
            return true;
        }
        rest = later;
    }
    false
}

/// Returns whether a profile and one of these have nested roots.
fn is_nested_with_one(profile: &Profile, others: &[Profile]) -> bool
    ensures { result ≡ list_any (λ Q. said.have_nested profile.now Q) others.now }
{
    others.iter().any(|other| have_nested(profile, other))
}

/// Returns whether an earlier and a later profile have one name.
pub fn has_namesakes(profiles: &[Profile]) -> bool
    ensures { result ≡ any_two said.are_namesakes profiles.now }
{
    let mut rest = profiles;
    while let Some((profile, later)) = rest.split_first() {
        if is_namesake_of_one(profile, later) {
            return true;
        }
        rest = later;
    }
    false
}

/// Returns whether a profile has the name of one of these.
fn is_namesake_of_one(profile: &Profile, others: &[Profile]) -> bool
    ensures { result ≡ list_any (λ Q. said.are_namesakes profile.now Q) others.now }
{
    others.iter().any(|other| are_namesakes(profile, other))
}

/// Returns whether the root of a rule is nested with another root.
fn has_nested_rule(profiles: &[Profile], rules: &[Rule]) -> bool
    ensures { result ≡ list_any (λ R. said.nests_rule profiles.now rules.now R) rules.now }
{
    rules.iter().any(|rule| nests_rule(profiles, rules, rule))
}

/// Returns whether the root of that rule is nested with that of a profile or of a rule.
fn nests_rule(profiles: &[Profile], rules: &[Rule], rule: &Rule) -> bool
    ensures { result ≡ said.nests_rule profiles.now rules.now rule.now }
{
    nests_profile(profiles, &rule.root) || nests_rule_root(rules, &rule.root)
}

/// Returns whether the root and one of a profile are nested.
fn nests_profile(profiles: &[Profile], root: &Root) -> bool
    ensures { result ≡ list_any (λ P. said.nests_any root.now P.roots) profiles.now }
{
    profiles
        .iter()
        .any(|profile| nests_any(root, profile.roots()))
}

/// Returns whether the root and that of a rule are nested.
pub(crate) fn nests_rule_root(rules: &[Rule], root: &Root) -> bool
    ensures { result ≡ list_any (λ R. refused.is_nested root.now R.root) rules.now }
{
    rules.iter().any(|rule| is_nested(root, &rule.root))
}

/// Returns whether two profiles have one name.
fn are_namesakes(profile: &Profile, other: &Profile) -> bool
    ensures { result ≡ said.are_namesakes profile.now other.now }
{
    profile.name() == other.name()
}

/// Returns whether two profiles have nested roots.
pub(crate) fn have_nested(profile: &Profile, other: &Profile) -> bool
    ensures { result ≡ said.have_nested profile.now other.now }
{
    profile
        .roots()
        .iter()
        .any(|root| nests_any(root, other.roots()))
}

/// Returns whether a root and one of these are nested.
pub(crate) fn nests_any(root: &Root, others: &[Root]) -> bool
    ensures { result ≡ said.nests_any root.now others.now }
{
    others.iter().any(|other| is_nested(root, other))
}

/// Returns whether one of two different roots lies within the other.
fn is_nested(root: &Root, other: &Root) -> bool
    ensures { result ≡ refused.is_nested root.now other.now }
{
    root != other && (other.is_within(root) || root.is_within(other))
}
