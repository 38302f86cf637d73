//! Where numbers of profiles stand, by lines alone.
ghost use Rattle.std.specs.Prelude.{◌≡◌, IfOk, Some, map, slice_get};
ghost use Rattle.hub_rounds.specs.Numbered.{AreStanding, StandAsNumbers};

use crate::clique::rivals_of;
use crate::guess::{Guess, Method, guess_of};
use crate::named::Named;
use crate::placing::{Placed, Placing, place_each};
use hub_cert::CheckFault;
use hub_profile::Profile;
use hub_text::Items;
use std::alloc::{AllocError, Global};

/// Where each number stands, how many rounds there are, and the numbers of which each two clash.
#[derive(Drop)]
pub(crate) struct Standing {
    pub(crate) placings: Items<Placing>,
    pub(crate) rounds: usize,
    pub(crate) rivals: Items<usize>,
}

/// Says of each number below the count where it stands by these lines. How many rounds there are depends on the method.
pub(crate) fn standing_of(
    alloc: Global,
    count: usize,
    lines: &[CheckFault],
    method: Method,
) -> Result<Standing, AllocError>
    ensures { IfOk result (AreStanding count lines.now) }
{
    let named = Named::new(alloc, count, lines)?;
    let Guess { colours, clique } = guess_of(alloc, &named, method)?;
    let (placings, rounds) = place_each(alloc, lines, &named, colours.as_slice(), count)?;
    let rivals = rivals_of(alloc, lines, &named, placings.as_slice(), clique.as_slice())?;
    Ok(Standing {
        placings: Items::from_vec(placings),
        rounds,
        rivals,
    })
}

/// Puts each profile where its number stands.
pub(crate) fn placed_so(
    alloc: Global,
    profiles: Vec<Profile>,
    placings: &[Placing],
) -> Result<Vec<Placed>, AllocError>
    ensures all { IfOk result (λ v. map (λ p. p.profile) v.items ≡ profiles.items) }
    ensures so { IfOk result (λ v. StandAsNumbers placings.now v.items) }
{
    let mut placed = Vec::with_capacity(alloc, profiles.len())?;
    for profile in profiles {
        let placing = placing_at(placings, placed.len());
        placed.push(Placed { profile, placing })?;
    }
    Ok(placed)
}

/// Returns where the number stands. One that has no placing stands in the first round.
fn placing_at(placings: &[Placing], number: usize) -> Placing
    ensures { (q : Placing) → slice_get placings.now number ≡ Some q → result ≡ q }
{
    match placings.get(number) {
        Some(own) => *own,
        None => Placing::Round(0),
    }
}
