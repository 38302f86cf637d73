//! Pairs of profiles, by their numbers, whose two profiles are searched together.
ghost use Rattle.std.specs.Prelude.{◌≡◌, ◌≤◌, length, IfErr, IfOk, OnOk};
ghost use Rattle.hub_apart.specs.ApartLines.{Adds};
ghost use Rattle.hub_apart.specs.NestedLines.{HasLinesOfNear};
ghost use Rattle.hub_apart.specs.UnisonLines as said;

use crate::lines::Numbers;
use crate::nested::search_near;
use hub_cert::CheckFault;
use hub_profile::Profile;
use std::alloc::{AllocError, Global};

/// Searches the two profiles of each of these pairs together, and appends their lines. Returns the profiles.
pub(crate) fn search_pairs(
    alloc: Global,
    profiles: Vec<Profile>,
    pairs: &[(usize, usize)],
    lines: &mut Vec<CheckFault>,
) -> Result<Vec<Profile>, CheckFault>
    requires { said.AreWithin (length profiles.items) pairs.now }
    ensures profiles { IfOk result (λ r. r.items ≡ profiles.items) }
    ensures lines { OnOk result
        (said.AddsLinesOfPairs profiles.items pairs.now lines.old.items lines.new.items) }
    ensures refused { IfErr result (said.IsRefusedPair profiles.items) }
{
    let mut profiles = profiles;
    for pair in pairs {
        profiles = search_pair(alloc, profiles, *pair, lines)?;
    }
    Ok(profiles)
}

/// Searches the two profiles of these numbers together, and appends their lines. It takes them out of the list and puts them back.
fn search_pair(
    alloc: Global,
    profiles: Vec<Profile>,
    pair: (usize, usize),
    lines: &mut Vec<CheckFault>,
) -> Result<Vec<Profile>, CheckFault>
    requires { said.IsWithin (length profiles.items) pair }
    ensures profiles { IfOk result (λ r. r.items ≡ profiles.items) }
    ensures lines { OnOk result (Adds (HasLinesOfNear profiles.items pair.0 pair.1)
        lines.old.items lines.new.items) }
    ensures refused { IfErr result (said.IsRefusedPair profiles.items) }
{
    let mut profiles = profiles;
    let second = profiles.swap_remove(pair.1);
    let first = profiles.swap_remove(pair.0);
    let numbers = Numbers {
        first: pair.0,
        second: pair.1,
    };
    let (first, second) = search_near(alloc, first, second, numbers, lines)?;
    put_back(&mut profiles, pair.0, first)?;
    put_back(&mut profiles, pair.1, second)?;
    Ok(profiles)
}

/// Puts a profile back to its place, from which the last one goes to the end.
fn put_back(profiles: &mut Vec<Profile>, place: usize, profile: Profile) -> Result<(), AllocError>
    requires { place ≤ length profiles.old.items }
    ensures { OnOk result
        (profiles.new.items ≡ said.put_back profiles.old.items place profile) }
{
    let last = profiles.len();
    profiles.push(profile)?;
    profiles.swap(place, last);
    Ok(())
}
