//! Schedules of turns.
ghost use Rattle.std.specs.Prelude.{◌≡◌, ◌<◌, All, map, length, IfOk, IfErr};
ghost use Rattle.hub_job.specs.Outcome.{IsSimulated};
ghost use Rattle.hub_job.specs.World.{Jobs, World};
ghost use Rattle.hub_schedule.specs.forms.Left.{end_value};
ghost use Rattle.hub_schedule.specs.Table.{IsOutcomeAfter, ShowsWorld};
ghost use Rattle.hub_schedule.specs.Promise.{HasReplicas};
ghost use Rattle.hub_state.specs.State.{IsState};
ghost use Rattle.hub_schedule.specs.Refusals.{IsRunnable, IsUnrun};

use crate::ends::{end_jobs, put_archives, put_trees};
use crate::refusals::{find_bad_turn, find_missing};
use crate::slot::{Slot, WorkingTree};
use crate::slots::slots_for;
use crate::turn::take_turns;
use hub_job::{Outcome, RunFault};
use hub_profile::Profile;
use hub_state::State;
use std::alloc::{AllocError, Global};

/// Runs the jobs of profiles by a schedule, as `simulate` does, whether the profiles are a safe set or not.
pub fn simulate_jobs(
    alloc: Global,
    profiles: &[Profile],
    state: &State,
    schedule: &[usize],
) -> Result<Outcome, RunFault>
    ensures world { IfOk result (IsSimulated state.now profiles.now schedule.now) }
    ensures run { IfOk result (λ o. IsRunnable state.now profiles.now schedule.now) }
    ensures refused { IfErr result (IsUnrun state.now profiles.now schedule.now) }
    ensures valid { 0 < length profiles.now → IsState state.now }
{
    if let Some(root) = find_missing(profiles, state) {
        return Err(RunFault::MissingReplica { root: root.copy()? });
    }
    if let Some(turn) = find_bad_turn(schedule, profiles.len()) {
        return Err(RunFault::BadTurn { turn });
    }
    Ok(run_schedule(alloc, profiles, state, schedule)?)
}

/// Runs the jobs of profiles by a schedule whose turns are all theirs.
fn run_schedule(
    alloc: Global,
    profiles: &[Profile],
    state: &State,
    schedule: &[usize],
) -> Result<Outcome, AllocError>
    requires there { HasReplicas state.now profiles.now }
    requires numbers { All (λ j. j < length profiles.now) schedule.now }
    ensures { IfOk result (IsSimulated state.now profiles.now schedule.now) }
{
    let (mut slots, mut trees) = slots_for(alloc, profiles, state)?;
    take_turns(alloc, &mut slots, &mut trees, schedule);
    outcome_of(alloc, state, slots, trees)
}

/// Ends the jobs, and puts what they leave into a copy of the state.
pub(crate) fn outcome_of(
    alloc: Global,
    state: &State,
    slots: Vec<Slot<'_>>,
    trees: Vec<WorkingTree<'_>>,
) -> Result<Outcome, AllocError>
    requires { (J : Jobs) × (w : World) × ShowsWorld J w slots.items trees.items }
    ensures outcome { IfOk result
        (IsOutcomeAfter state.now slots.entry.items trees.entry.items) }
    ensures ends { IfOk result (λ o. o.jobs ≡ map end_value slots.entry.items) }
{
    let (jobs, nexts) = end_jobs(alloc, slots)?;
    let mut after = state.copy()?;
    put_trees(&mut after, trees)?;
    put_archives(&mut after, nexts)?;
    Ok(Outcome { state: after, jobs })
}
