//! The promise of a safe set: where the checker accepted the set, the order in which its jobs take turns makes no
//! difference to any of them. Each law is the contract of a function that does nothing.
ghost use Rattle.std.specs.Prelude.{List};
ghost use Rattle.hub_profile.specs.Parts.{Parts};
ghost use Rattle.hub_state.specs.State.{State, IsState};
ghost use Rattle.hub_job.specs.Outcome.{world_after};
ghost use Rattle.hub_schedule.specs.Promise.{EnoughTurnsFinish, FinishedAreSynchronized, ForeignAreAsBefore, IsAsIfAlone, IsAsPromised, OldMarksStay, Settles};
ghost use Rattle.hub_schedule.specs.Safely.{OfKeptTurns, OfSafeSets, OfSafeTurns, OfLostTurns, OfSafeOutcomes, OfSafeRuns, OfSettledOutcomes, OfTurns};
ghost use Rattle.hub_schedule.specs.Settled.{AreProfiles};
ghost use Rattle.hub_schedule.specs.Simulated.{EnoughTurnsEnd, LogsAreOfTurns, StoppedLostTurns, TurnsSuffice, LoneIsSynchronized};

use crate::together::{a_run_settles, each_set_is_allowed, jobs_leave_each_other_alone};
use hub_job::laws::{a_job_without_turns_reaches_nothing, each_log_is_the_one_alone};

/// Of an outcome that histories settle: each finished job of a safe set has synchronized its replicas and their archive,
/// whatever other jobs of the pair did; an archive keeps its marks where no finished job of the pair reaches; and a
/// replica of no profile is the same as before.
pub fn finished_jobs_synchronize()
    ensures finished { OfSafeSets (λ S Ps Rs histories o. FinishedAreSynchronized S Ps o) }
    ensures marks { OfSettledOutcomes OldMarksStay }
    ensures foreign { OfSettledOutcomes (λ S Ps o. ForeignAreAsBefore S Ps o.state) }
{
    jobs_leave_each_other_alone();
}

/// Of an outcome that histories settle: a job of a safe set that wasn't stopped, and that took as many turns as it takes
/// alone until it is finished, is finished.
pub fn enough_turns_finish()
    ensures { OfSafeOutcomes EnoughTurnsFinish }
{
    jobs_leave_each_other_alone();
}

/// Where the checker accepted the set, no order of steps makes a difference to a job: every outcome that histories settle
/// is as promised, and as if each job had been alone.
pub fn safe_sets_keep_their_promise()
    ensures promise { OfSafeSets IsAsPromised }
    ensures alone { OfSafeSets (λ S Ps Rs histories o. IsAsIfAlone S Ps o) }
{
    jobs_leave_each_other_alone();
    each_set_is_allowed();
}

/// An outcome of a schedule is settled by the histories of the world that the schedule leads to.
pub fn schedules_settle()
    ensures { OfTurns (λ S Ps turns o. Settles S Ps (world_after S Ps turns).history o) }
{
    a_run_settles();
}

/// So every outcome of a schedule is.
pub fn schedules_keep_the_promise()
    ensures promise { OfSafeTurns
        (λ S Ps Rs turns o. IsAsPromised S Ps Rs (world_after S Ps turns).history o) }
    ensures alone { OfSafeTurns (λ S Ps Rs turns o. IsAsIfAlone S Ps o) }
{
    safe_sets_keep_their_promise();
    schedules_settle();
}

/// Of an outcome of a schedule: the log of each job of a safe set is the one that it gets alone in as many turns as the
/// schedule gives it; a stopped job lost one at least. A job that wasn't stopped is finished, if it had as many turns as
/// it takes alone; and 4k + 3n turns are always enough, for k kept values and n entries in the job's two replicas.
pub fn schedules_give_logs_alone()
    ensures logs { OfKeptTurns LogsAreOfTurns }
    ensures enough { OfKeptTurns EnoughTurnsEnd }
    ensures suffice { (S : State) (Ps : List Parts) → IsState S → AreProfiles Ps
        → TurnsSuffice S Ps }
    ensures lost { OfLostTurns StoppedLostTurns }
{
    each_log_is_the_one_alone();
}

/// A job of a safe set that alone takes turns, and wasn't stopped, is finished after 4k + 3n turns, for k kept values and
/// n entries in its two replicas; nothing was refused to it; and its replicas, their archive and its items are those of
/// one synchronization, on all paths.
pub fn a_lone_job_is_synchronized()
    ensures { OfSafeRuns LoneIsSynchronized }
{
    a_job_without_turns_reaches_nothing();
    a_run_settles();
    finished_jobs_synchronize();
    schedules_settle();
    schedules_give_logs_alone();
}
