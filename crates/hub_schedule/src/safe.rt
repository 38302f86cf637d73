//! Runs of the jobs of a safe set.
ghost use Rattle.std.specs.Prelude.{map, IfOk, IfErr};
ghost use Rattle.hub_cert.specs.Set.{forbidden_by};
ghost use Rattle.hub_job.specs.Outcome.{IsSimulated};
ghost use Rattle.hub_schedule.specs.Refusals.{IsRunnable, IsUnrun};
ghost use Rattle.hub_schedule.specs.Simulated.{EnoughTurnsEnd, IsPromised, LogsAreOfTurns, LoneIsSynchronized, StoppedLostTurns, TurnsSuffice};

use crate::promise::{
    a_lone_job_is_synchronized, schedules_give_logs_alone, schedules_keep_the_promise,
    schedules_settle,
};
use crate::schedule::simulate_jobs;
use hub_cert::Verified;
use hub_job::{Outcome, RunFault};
use hub_state::State;
use std::alloc::Global;

/// Runs the jobs of a set by a schedule: each entry of it is a turn of the job with that number. The jobs take their turns
/// one after the other on copies of the state's replicas. What they leave is the state of the outcome: the replicas, and
/// of each finished job the archive of its pair of roots. `state` stays as it is.
///
/// A job that finds no memory is stopped, and loses the rest of its turns. In whatever order the jobs take turns, each of
/// them does what it does alone.
///
/// The fault is the first of these that applies:
/// - `MissingReplica` with the first root that the state has no replica for, in the order of the profiles, the left root
///   of each first;
/// - `BadTurn` with the place of the first turn that names no job.
///
/// Any call may instead report `OutOfMemory`.
pub fn simulate(
    alloc: Global,
    verified: &Verified<'_>,
    state: &State,
    schedule: &[usize],
) -> Result<Outcome, RunFault>
    ensures promise { IfOk result (IsPromised state.now verified.now.profiles
        (map forbidden_by verified.now.rules)) }
    ensures logs { IfOk result
        (LogsAreOfTurns state.now verified.now.profiles schedule.now) }
    ensures lost { IfOk result
        (StoppedLostTurns state.now verified.now.profiles schedule.now) }
    ensures enough { IfOk result
        (EnoughTurnsEnd state.now verified.now.profiles schedule.now) }
    ensures suffice { TurnsSuffice state.now verified.now.profiles }
    ensures lone { IfOk result
        (LoneIsSynchronized state.now verified.now.profiles schedule.now) }
    ensures world { IfOk result
        (IsSimulated state.now verified.now.profiles schedule.now) }
    ensures run { IfOk result
        (λ o. IsRunnable state.now verified.now.profiles schedule.now) }
    ensures refused { IfErr result
        (IsUnrun state.now verified.now.profiles schedule.now) }
{
    a_lone_job_is_synchronized();
    schedules_give_logs_alone();
    schedules_keep_the_promise();
    schedules_settle();
    simulate_jobs(alloc, verified.set().profiles(), state, schedule)
}
