//! Profiles that share an archive.
ghost use Rattle.std.specs.Prelude.{◌≡◌, ◌<◌, ◌++◌, List, map, length, IfOk, OnOk};
ghost use Rattle.std.specs.List.{AllByRecursion};
ghost use Rattle.hub_profile.specs.Parts.{IsProfile};
ghost use Rattle.hub_unison.specs.Keys as keys;
ghost use Rattle.hub_unison.specs.Shared as shared;

use hub_profile::Profile;
use std::alloc::{AllocError, Global};
use std::collections::BTreeMap;

/// Returns all pairs of places, the lower one first, whose profiles have the same two roots, in the order of the first and then of
/// the second place. Two such profiles share Unison's archive of these roots.
///
/// For n profiles it compares roots n log n times, since it keeps places in a map by their roots. Then each pair takes one step.
pub fn shared_archives(
    alloc: Global,
    profiles: &[Profile],
) -> Result<Vec<(usize, usize)>, AllocError>
    ensures { IfOk result (λ v. v.items ≡ shared.shared_pairs profiles.now) }
{
    let next = next_places(alloc, profiles)?;
    let mut pairs = Vec::new(alloc);
    for at in 0..next.len() {
        add_pairs(&mut pairs, at, next.as_slice())?;
    }
    Ok(pairs)
}

/// Returns for each profile the place of the next one with the same two roots.
fn next_places(alloc: Global, profiles: &[Profile]) -> Result<Vec<Option<usize>>, AllocError>
    ensures next { IfOk result (λ v. v.items
        ≡ keys.next_places 0 (map keys.key_of profiles.now)) }
    ensures valid { OnOk result (AllByRecursion IsProfile profiles.now) }
{
    let mut later = BTreeMap::new(alloc);
    let mut next = Vec::new(alloc);
    for at in (0..profiles.len()).rev() {
        next.push(later.insert(key_of(&profiles[at]), at)?)?;
    }
    next.reverse();
    Ok(next)
}

/// Appends the pairs of the profile at that place with those after it, given the next place for each.
fn add_pairs(
    pairs: &mut Vec<(usize, usize)>,
    at: usize,
    next: &[Option<usize>],
) -> Result<(), AllocError>
    requires place { at < length next.now }
    requires next { (ks : List keys.Key) × (next.now ≡ keys.next_places 0 ks) }
    ensures { (ks : List keys.Key) → next.now ≡ keys.next_places 0 ks
        → OnOk result (pairs.new.items ≡ pairs.old.items ++ keys.pairs_after at at ks) }
{
    let mut place = at;
    while let Some(other) = next[place] {
        pairs.push((at, other))?;
        place = other;
    }
    Ok(())
}

/// Returns the texts of the two roots, the lesser one first. Two profiles share an archive exactly if these are equal.
fn key_of<'a>(profile: &'a Profile) -> (&'a str, &'a str)
    ensures value { (result.0.now, result.1.now) ≡ keys.key_of profile.now }
    ensures valid { IsProfile profile.now }
{
    let roots = profile.roots();
    in_order(roots[0].as_str(), roots[1].as_str())
}

/// Returns two texts, the lesser one first.
fn in_order<'a>(left: &'a str, right: &'a str) -> (&'a str, &'a str)
    ensures { (result.0.now, result.1.now) ≡ keys.in_order left.now right.now }
{
    if left <= right {
        (left, right)
    } else {
        (right, left)
    }
}
