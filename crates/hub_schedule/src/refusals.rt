//! Why a schedule isn't run.
ghost use Rattle.std.specs.Prelude.{◌≡◌, ◌<◌, length};
ghost use Rattle.std.specs.Option.{option_map};
ghost use Rattle.hub_state.specs.State.{IsState};
ghost use Rattle.hub_schedule.specs.Refusals.{IsFirstBad, first_missing, missing_of};

use hub_path::Root;
use hub_profile::Profile;
use hub_state::State;

/// Borrows the first root of the profiles that the state has no replica for, the left one of a profile first.
pub fn find_missing<'a>(profiles: &'a [Profile], state: &State) -> Option<&'a Root>
    ensures value { option_map (λ r. r.now) result ≡ first_missing state.now profiles.now }
    ensures valid { 0 < length profiles.now → IsState state.now }
{
    for profile in profiles {
        if let Some(root) = find_missing_of(profile, state) {
            return Some(root);
        }
    }
    None
}

/// Borrows the first root of a profile that the state has no replica for.
fn find_missing_of<'a>(profile: &'a Profile, state: &State) -> Option<&'a Root>
    ensures value { option_map (λ r. r.now) result ≡ missing_of state.now profile.now.roots }
    ensures valid { IsState state.now }
{
    let roots = profile.roots();
    if state.replica(&roots[0]).is_none() {
        return Some(&roots[0]);
    }
    if state.replica(&roots[1]).is_none() {
        return Some(&roots[1]);
    }
    None
}

/// Returns the place of the first turn that names no job.
pub(crate) fn find_bad_turn(schedule: &[usize], jobs: usize) -> Option<usize>
    ensures { IsFirstBad schedule.now jobs result }
{
    for (turn, job) in schedule.iter().enumerate() {
        if *job >= jobs {
            return Some(turn);
        }
    }
    None
}
