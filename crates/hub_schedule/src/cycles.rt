//! Schedules of cycles.
ghost use Rattle.std.specs.Prelude.{◌≡◌, ◌<◌, All, Some, IfSome, length, ◌++◌, IfOk, OnOk};
ghost use Rattle.std.specs.List.{range_with_len};
ghost use Rattle.std.specs.FinMap as fin;
ghost use Rattle.hub_job.specs.Outcome.{replicas_of};
ghost use Rattle.hub_schedule.specs.Simulated.{AllHaveEnough, AreEnoughForAll, turns_enough};

use hub_path::Root;
use hub_profile::Profile;
use hub_state::State;
use std::alloc::{AllocError, Global};

/// A schedule of cycles: in each of them each job has one turn, in the order of the profiles. There are as many cycles as
/// a synchronization of any of the profiles can take: four for each kept value, and three for each entry of the
/// profile's two replicas.
///
/// Out of memory is reported for a schedule that doesn't fit.
pub fn cycles_for(
    alloc: Global,
    profiles: &[Profile],
    state: &State,
) -> Result<Vec<usize>, AllocError>
    ensures numbers { IfOk result (λ v. All (λ j. j < length profiles.now) v.items) }
    ensures enough { IfOk result (λ v. AllHaveEnough state.now profiles.now v.items) }
{
    let Some(cycles) = most_turns(profiles, state) else {
        return Err(AllocError);
    };
    let mut schedule = Vec::new(alloc);
    for _ in 0..cycles {
        push_cycle(&mut schedule, profiles.len())?;
    }
    Ok(schedule)
}

/// Gives each job one more turn.
fn push_cycle(schedule: &mut Vec<usize>, jobs: usize) -> Result<(), AllocError>
    ensures { OnOk result (schedule.new.items ≡ schedule.old.items ++ range_with_len 0 jobs) }
{
    for job in 0..jobs {
        schedule.push(job)?;
    }
    Ok(())
}

/// The most turns that one of the profiles can take, if they can be counted.
fn most_turns(profiles: &[Profile], state: &State) -> Option<u64>
    ensures { IfSome result (λ n. AreEnoughForAll state.now profiles.now n) }
{
    let mut most = 0;
    for profile in profiles {
        most = turns_for(profile, state)?.max(most);
    }
    Some(most)
}

/// The turns that a profile's synchronization can take, if they can be counted.
fn turns_for(profile: &Profile, state: &State) -> Option<u64>
    ensures { IfSome result (λ n. n ≡ turns_enough state.now profile.now) }
{
    let roots = profile.roots();
    let left = entries_at(state, &roots[0])?;
    let entries = left.checked_add(entries_at(state, &roots[1])?)?;
    let kept = (profile.paths().len() as u64).checked_mul(4)?;
    kept.checked_add(entries.checked_mul(3)?)
}

/// The number of entries of a root's replica, if they can be counted.
fn entries_at(state: &State, root: &Root) -> Option<u64>
    ensures { IfSome result (λ n. n ≡ fin.len (replicas_of state.now root.now)) }
{
    let count = match state.replica(root) {
        Some(tree) => tree.count(),
        None => 0,
    };
    if count == u64::MAX { None } else { Some(count) }
}
