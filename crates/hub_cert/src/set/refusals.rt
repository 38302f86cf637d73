//! Why profiles and rules make no set.
ghost use Rattle.std.specs.Prelude.{◌≡◌, ◌<◌, ◌≤◌, ◌∷◌, ◌++◌, [], ℕ, length, slice_get, Some, IfOk, IfErr, OnOk, MatchOption};
ghost use Rattle.hub_automaton.specs.Alphabet.{plain, RefusesCharacters};
ghost use Rattle.hub_automaton.specs.Spots.{RefusesSpots, alternatives_of, spots_count};
ghost use Rattle.hub_automaton.specs.declared.alternatives.TheConstants.{SPOTS};
ghost use Rattle.hub_profile.specs.Parts.{Parts, IsProfile};
ghost use Rattle.hub_profile.specs.declared.rules.TheConstants.{RULES};
ghost use Rattle.hub_cert.specs.Set as of_set;
ghost use Rattle.hub_cert.specs.Refused as refused;
ghost use Rattle.hub_cert.specs.Set.{OfMembers, OfProfiles};
ghost use Rattle.hub_cert.specs.Refused.{AreDistinctRoots, AreFirstNested, IsFirstNestedAfter, NoneNested, NoneNestedAfter};

use crate::fault::CheckFault;
use crate::set::PROFILES;
use hub_automaton::laws::what_is_added_is_mentioned;
use hub_automaton::{Alphabet, AutomatonFault, SpecSetBuilder};
use hub_glob::PathSpec;
use hub_path::Root;
use hub_profile::{Profile, Rule};
use hub_reach::{Walker, mention_each};
use std::alloc::{AllocError, Global};
use std::collections::BTreeSet;
use std::slice::from_ref;

/// Returns the alphabet of the set of these profiles and rules, or why they make none.
pub(crate) fn alphabet_for(
    alloc: Global,
    profiles: &[Profile],
    rules: &[Rule],
) -> Result<Alphabet, CheckFault>
    requires { length rules.now ≤ RULES }
    ensures ok { OfMembers profiles.now rules.now (λ S. IfOk result (λ a. of_set.IsSet S a)) }
    ensures err { OfMembers profiles.now rules.now (λ S. IfErr result (refused.IsRefused S)) }
{
    check_names(alloc, profiles)?;
    check_roots(alloc, profiles, rules)?;
    match alphabet_within_limits(alloc, profiles, rules) {
        Ok(alphabet) => Ok(alphabet),
        Err(fault) => Err(fault_of(fault)),
    }
}

/// Returns why profiles are too many, or have no different names.
fn check_names(alloc: Global, profiles: &[Profile]) -> Result<(), CheckFault>
    ensures ok { OfProfiles profiles.now (λ S. OnOk result (refused.FewNamed S)) }
    ensures err { OfProfiles profiles.now (λ S. IfErr result (refused.IsRefused S)) }
{
    if profiles.len() > PROFILES {
        return Err(CheckFault::TooManyProfiles);
    }
    if let Some(later) = repeated_name(alloc, profiles)? {
        return Err(CheckFault::SameName {
            name: profiles[later].name().copy()?,
        });
    }
    Ok(())
}

/// Returns the fault of the first two nested roots.
fn check_roots(alloc: Global, profiles: &[Profile], rules: &[Rule]) -> Result<(), CheckFault>
    ensures apart { OfMembers profiles.now rules.now (λ S. OnOk result (of_set.AreApart S)) }
    ensures valid { OnOk result ((i : ℕ) (P : Parts) → slice_get profiles.now i ≡ Some P
        → IsProfile P) }
    ensures err { OfMembers profiles.now rules.now
        (λ S. refused.FewNamed S → IfErr result (refused.IsRefused S)) }
{
    let roots = roots_of(alloc, profiles, rules)?;
    let all = roots.as_slice();
    if let Some((first, second)) = nested_roots(alloc, all)? {
        return Err(CheckFault::NestedRoots {
            first: all[first].copy()?,
            second: all[second].copy()?,
        });
    }
    Ok(())
}

/// Returns the fault of a set whose alphabet or spots are too many.
fn fault_of(fault: AutomatonFault) -> CheckFault
    ensures { result ≡ refused.fault_of fault }
{
    match fault {
        AutomatonFault::TooManyCharacters => {
            CheckFault::AlphabetFault(AutomatonFault::TooManyCharacters)
        }
        AutomatonFault::TooManySpots => CheckFault::AlphabetFault(AutomatonFault::TooManySpots),
        AutomatonFault::OutOfMemory => CheckFault::OutOfMemory,
    }
}

/// Returns the alphabet of all characters that the profiles and the rules mention, if no one has too many spots.
fn alphabet_within_limits(
    alloc: Global,
    profiles: &[Profile],
    rules: &[Rule],
) -> Result<Alphabet, AutomatonFault>
    ensures value { OfMembers profiles.now rules.now
        (λ S. IfOk result (λ a. a ≡ of_set.alphabet_of S)) }
    ensures mentioned { OfMembers profiles.now rules.now
        (λ S. IfOk result (λ a. of_set.Mentioned S a)) }
    ensures few { OfMembers profiles.now rules.now (λ S. OnOk result (of_set.HasFewSpots S)) }
    ensures err { OfMembers profiles.now rules.now (λ S. IfErr result (refused.IsTooMuch S)) }
{
    let alphabet = alphabet_with(alloc, profiles, rules)?;
    check_profile_spots(alloc, profiles)?;
    check_rule_spots(alloc, rules)?;
    Ok(alphabet)
}

/// Returns the first profile that has the name of an earlier one.
///
/// For n profiles it compares names n log n times, since it keeps them in a set.
pub(crate) fn repeated_name(
    alloc: Global,
    profiles: &[Profile],
) -> Result<Option<usize>, AllocError>
    ensures { IfOk result (λ later. MatchOption later (refused.NoNamesakes profiles.now)
        (refused.IsFirstNamesake profiles.now)) }
{
    let mut names = BTreeSet::new(alloc);
    for (later, profile) in profiles.iter().enumerate() {
        if !names.insert(profile.name())? {
            return Ok(Some(later));
        }
    }
    Ok(None)
}

/// Returns the first pair of nested roots.
///
/// It tests each two different roots. Equal ones are found by a set, since most profiles share one of their roots.
pub(crate) fn nested_roots(
    alloc: Global,
    roots: &[Root],
) -> Result<Option<(usize, usize)>, AllocError>
    ensures { IfOk result (λ nested. MatchOption nested (NoneNested roots.now)
        (λ pair. AreFirstNested roots.now pair.0 pair.1)) }
{
    let distinct = distinct_roots(alloc, roots)?;
    Ok(nested_among(roots, distinct.as_slice()))
}

/// Returns the numbers of the roots that equal no earlier one, in ascending order.
fn distinct_roots(alloc: Global, roots: &[Root]) -> Result<Vec<usize>, AllocError>
    ensures { IfOk result (λ v. AreDistinctRoots roots.now v.items) }
{
    let mut known = BTreeSet::new(alloc);
    let mut distinct = Vec::new(alloc);
    for (number, root) in roots.iter().enumerate() {
        if known.insert(root.path())? {
            distinct.push(number)?;
        }
    }
    Ok(distinct)
}

/// Returns the first pair of nested roots, given the numbers of those that equal no earlier one.
fn nested_among(roots: &[Root], distinct: &[usize]) -> Option<(usize, usize)>
    requires { AreDistinctRoots roots.now distinct.now }
    ensures { MatchOption result (NoneNested roots.now)
        (λ pair. AreFirstNested roots.now pair.0 pair.1) }
{
    for first in 0..distinct.len() {
        if let Some(second) = nested_root_after(roots, distinct, first) {
            return Some((distinct[first], distinct[second]));
        }
    }
    None
}

/// Returns the first of the distinct roots after that one such that one of the two lies within the other.
fn nested_root_after(roots: &[Root], distinct: &[usize], first: usize) -> Option<usize>
    requires first { first < length distinct.now }
    requires distinct { AreDistinctRoots roots.now distinct.now }
    ensures { MatchOption result (NoneNestedAfter roots.now distinct.now first)
        (IsFirstNestedAfter roots.now distinct.now first) }
{
    for second in first + 1..distinct.len() {
        if is_nested(&roots[distinct[first]], &roots[distinct[second]]) {
            return Some(second);
        }
    }
    None
}

fn is_nested(root: &Root, other: &Root) -> bool
    ensures { result ≡ refused.is_nested root.now other.now }
{
    root != other && (other.is_within(root) || root.is_within(other))
}

/// Returns copies of the roots of the profiles, and then of those of the rules.
///
/// The only error is that it is out of memory.
pub fn roots_of(
    alloc: Global,
    profiles: &[Profile],
    rules: &[Rule],
) -> Result<Vec<Root>, AllocError>
    ensures roots { OfMembers profiles.now rules.now
        (λ S. IfOk result (λ v. v.items ≡ of_set.roots_in S)) }
    ensures valid { OnOk result ((i : ℕ) (P : Parts) → slice_get profiles.now i ≡ Some P
        → IsProfile P) }
{
    let mut roots = Vec::new(alloc);
    for profile in profiles {
        push_roots(&mut roots, profile)?;
    }
    for rule in rules {
        roots.push(rule.root.copy()?)?;
    }
    Ok(roots)
}

fn push_roots(roots: &mut Vec<Root>, profile: &Profile) -> Result<(), AllocError>
    ensures roots { OnOk result (roots.new.items ≡ roots.old.items ++ profile.now.roots) }
    ensures valid { IsProfile profile.now }
{
    for root in profile.roots() {
        roots.push(root.copy()?)?;
    }
    Ok(())
}

/// Returns the alphabet of all characters that the profiles and the rules mention.
pub(crate) fn alphabet_with(
    alloc: Global,
    profiles: &[Profile],
    rules: &[Rule],
) -> Result<Alphabet, AutomatonFault>
    ensures value { OfMembers profiles.now rules.now
        (λ S. IfOk result (λ a. a ≡ of_set.alphabet_of S)) }
    ensures mentioned { OfMembers profiles.now rules.now
        (λ S. IfOk result (λ a. of_set.Mentioned S a)) }
    ensures err { OfMembers profiles.now rules.now
        (λ S. IfErr result (RefusesCharacters plain (of_set.mentioned_in S))) }
{
    what_is_added_is_mentioned();
    let mut alphabet = Alphabet::new(alloc)?;
    mention_each(&mut alphabet, profiles)?;
    mention_each(&mut alphabet, rules)?;
    // Its contract says that this is an alphabet.
    let _ = alphabet.count();
    Ok(alphabet)
}

/// Returns `TooManySpots` if a profile has too many spots for a walker.
pub(crate) fn check_profile_spots(alloc: Global, profiles: &[Profile]) -> Result<(), AutomatonFault>
    ensures few { OnOk result (of_set.ProfilesHaveFewSpots profiles.now) }
    ensures err { IfErr result (refused.RefusesProfiles profiles.now) }
{
    for profile in profiles {
        Walker::check_spots(alloc, profile)?;
    }
    Ok(())
}

/// Returns `TooManySpots` if a rule's specification has too many spots for a `SpecSet`.
pub(crate) fn check_rule_spots(alloc: Global, rules: &[Rule]) -> Result<(), AutomatonFault>
    ensures few { OnOk result (of_set.RulesHaveFewSpots rules.now) }
    ensures err { IfErr result (refused.RefusesRules rules.now) }
{
    for rule in rules {
        check_spec_spots(alloc, &rule.spec)?;
    }
    Ok(())
}

/// Returns `TooManySpots` if a specification has too many spots for a `SpecSet`. It only counts them.
fn check_spec_spots(alloc: Global, spec: &PathSpec) -> Result<(), AutomatonFault>
    ensures few { OnOk result (spots_count (alternatives_of spec.now ∷ []) ≤ SPOTS) }
    ensures err { IfErr result (RefusesSpots (alternatives_of spec.now ∷ [])) }
{
    let mut builder = SpecSetBuilder::new(alloc);
    builder.add_specs(from_ref(spec))?;
    // Its contract says that there are at most `SPOTS`.
    let _ = builder.spot_count();
    Ok(())
}
