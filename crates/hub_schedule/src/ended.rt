//! What jobs that have ended leave, however they came by their answers.
ghost use Rattle.std.specs.Prelude.{◌≡◌, ℕ, map, slice_get, Some, IfOk};
ghost use Rattle.hub_job.specs.JobValue.{JobValue};
ghost use Rattle.hub_schedule.specs.Ended.{AreEndedJobs, AreSlotsOf, HasPlaces, IsSlotOf, ended_value};
ghost use Rattle.hub_schedule.specs.Table.{IsTreeNumber};
ghost use Rattle.hub_schedule.specs.Safely.{IsOutcomeOfJobs};

use crate::schedule::outcome_of;
use crate::slot::{Slot, WorkingTree};
use crate::slots::find_tree;
use hub_job::{Job, Outcome};
use hub_path::Root;
use hub_state::State;
use std::alloc::{AllocError, Global};

/// Ends the jobs of profiles, by number, and puts what they leave into a copy of the state: these replicas, and for each
/// finished job the archive of its pair of roots. `state` stays as it is.
pub fn outcome_of_jobs<'a>(
    alloc: Global,
    state: &State,
    jobs: Vec<Job<'a>>,
    trees: Vec<WorkingTree<'a>>,
) -> Result<Outcome, AllocError>
    requires { AreEndedJobs state.now jobs.items trees.items }
    ensures outcome { IfOk result
        (λ o. IsOutcomeOfJobs state.now jobs.entry.items trees.entry.items o) }
    ensures ends { IfOk result (λ o. o.jobs ≡ map ended_value jobs.entry.items) }
{
    let slots = slots_of(alloc, jobs, trees.as_slice())?;
    outcome_of(alloc, state, slots, trees)
}

/// Finds the replicas of each job.
fn slots_of<'a>(
    alloc: Global,
    jobs: Vec<Job<'a>>,
    trees: &[WorkingTree<'_>],
) -> Result<Vec<Slot<'a>>, AllocError>
    requires { (j : ℕ) (J : JobValue) → slice_get jobs.items j ≡ Some J
        → HasPlaces trees.now J.profile }
    ensures { IfOk result (λ v. AreSlotsOf trees.now jobs.entry.items v.items) }
{
    let mut slots = Vec::new(alloc);
    for job in jobs {
        slots.push(slot_of(job, trees))?;
    }
    Ok(slots)
}

/// Finds the replicas of a job.
fn slot_of<'a>(job: Job<'a>, trees: &[WorkingTree<'_>]) -> Slot<'a>
    requires { HasPlaces trees.now job.profile }
    ensures { IsSlotOf trees.now job.entry result }
{
    let roots = job.profile().roots();
    let left = index_of(trees, &roots[0]);
    let right = index_of(trees, &roots[1]);
    Slot { job, left, right }
}

/// Returns the number of a root's replica, which is there.
fn index_of(trees: &[WorkingTree<'_>], root: &Root) -> usize
    requires { (n : ℕ) × IsTreeNumber trees.now root.now n }
    ensures { IsTreeNumber trees.now root.now result }
{
    let Some(place) = find_tree(trees, root) else {
        unreachable!()
    };
    place
}
