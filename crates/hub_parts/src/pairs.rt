//! The pairs of near profiles.
ghost use Rattle.std.specs.Prelude.{◌≡◌, map, IfOk};
ghost use Rattle.std.specs.List.{filter};
ghost use Rattle.hub_parts.specs.Clashing as clashing;
ghost use Rattle.hub_parts.specs.Near as near;

use crate::sweep::near_pairs;
use crate::values::values_of;
use hub_profile::Profile;
use std::alloc::{AllocError, Global};

/// Returns the pairs of near profiles, by their numbers: a kept value of one, at a root of it, is over one of the other, or is the
/// same. The lower number comes first, each pair is there once, and the pairs are in ascending order. No other two profiles clash,
/// also where their roots are nested ([`crate::laws::only_near_profiles_clash`]).
///
/// It takes n log n comparisons of paths for n kept values, and m log m steps for m near pairs of values.
pub fn pairs_of_profiles(
    alloc: Global,
    profiles: &[Profile],
) -> Result<Vec<(usize, usize)>, AllocError>
    ensures { IfOk result (λ ps. clashing.AreNearPairs profiles.now ps.items) }
{
    let mut values = values_of(alloc, profiles)?;
    values.sort_unstable();
    let found = near_pairs(alloc, values.as_slice())?;
    let mut pairs = pairs_of_two(alloc, found.as_slice())?;
    pairs.sort_unstable();
    pairs.dedup();
    Ok(pairs)
}

/// Returns the pairs of two different numbers, each with the lower one first.
fn pairs_of_two(alloc: Global, pairs: &[(usize, usize)]) -> Result<Vec<(usize, usize)>, AllocError>
    ensures { IfOk result (λ ps. ps.items
        ≡ map near.lower_first (filter near.are_different pairs.now)) }
{
    pairs
        .iter()
        .filter(|pair| pair.0 != pair.1)
        .map(|pair| lower_first(*pair))
        .collect(alloc)
}

/// Returns the pair with the lower number first.
fn lower_first(pair: (usize, usize)) -> (usize, usize)
    ensures { result ≡ near.lower_first pair }
{
    if pair.1 < pair.0 {
        (pair.1, pair.0)
    } else {
        pair
    }
}
