//! What holds of the jobs of a set together, whatever the order of their turns: each law is the contract of a function
//! that does nothing.
ghost use Rattle.hub_schedule.specs.Owned.{SetsAreTheirOwn, UnwrittenStay};
ghost use Rattle.hub_schedule.specs.Settled.{AreProfiles, IsSettledWorld, AreAsAlone, OfApart, OfApartRuns, OfRuns, OfSettled};
ghost use Rattle.hub_schedule.specs.Together.{AtRoots, ForeignStay, LogsAreAlone, OfRootsLeft, OthersAreLeftAlone, OthersStay, OwnPathsAreLeftAlone, ElsewhereIsAsBefore, SetsAreAllowed, ElsewhereStays, OwnPathsStay};
ghost use Rattle.hub_job.specs.World.{run_from};
ghost use Rattle.hub_schedule.specs.Safely.{OfSafeJobs};

use hub_job::laws::{
    a_job_asks_only_what_it_may, answers_are_by_what_they_depend_on, others_change_no_answer,
};
use hub_tree::laws::a_set_keeps_trees;

/// After each schedule of turns the histories of the replicas are legal and agree with the logs of the jobs, each log is
/// a run of its job, and each replica is what its history leaves of the opening.
pub fn a_run_settles()
    ensures { OfRuns (λ J replicas js. IsSettledWorld J replicas (run_from J replicas js)) }
{}

/// Where histories are legal, and agree with the logs of jobs that don't clash, each log is the one that its job gets
/// alone. No order between the histories of two replicas is used.
pub fn agreeing_histories_are_as_alone()
    ensures { OfSettled AreAsAlone }
{
    a_job_asks_only_what_it_may();
    answers_are_by_what_they_depend_on();
    others_change_no_answer();
}

/// Where histories are legal, and agree with the logs of jobs that don't clash, each Set in them stands where its job
/// writes, and at no path that the answers to another job of the root depend on: none that it reaches or passes through.
pub fn each_set_is_its_own()
    ensures { OfApart (λ J replicas histories. SetsAreTheirOwn J.profiles histories) }
{
    a_job_asks_only_what_it_may();
}

/// Where histories are legal and agree with the logs of jobs, a path that no job of the root writes is as at the opening.
pub fn what_nobody_writes_stays()
    ensures { OfRootsLeft UnwrittenStay }
{
    a_job_asks_only_what_it_may();
    a_set_keeps_trees();
}

/// What histories and logs that fit together leave, where no two jobs clash: each log is the job's log alone, no operation
/// changes what another job passes through, each job's own paths are as when it was alone, and what nobody reaches is as
/// it was.
pub fn jobs_leave_each_other_alone()
    ensures logs { OfSettled (λ J replicas histories logs. LogsAreAlone J replicas logs) }
    ensures others { OfApart OthersAreLeftAlone }
    ensures own { OfSettled OwnPathsAreLeftAlone }
    ensures elsewhere { OfRootsLeft ElsewhereIsAsBefore }
{
    a_job_asks_only_what_it_may();
    others_change_no_answer();
    agreeing_histories_are_as_alone();
    what_nobody_writes_stays();
}

/// The same of the world after a schedule of turns. A replica of no profile is never changed.
pub fn a_run_leaves_others_alone()
    ensures others { OfApartRuns OthersStay }
    ensures own { OfApartRuns
        (λ J replicas js. AreProfiles J.profiles → OwnPathsStay J replicas js) }
    ensures elsewhere { OfRuns
        (λ J replicas js. AtRoots J.profiles (ElsewhereStays J replicas js)) }
    ensures foreign { OfRuns ForeignStay }
{
    a_run_settles();
    jobs_leave_each_other_alone();
}

/// Each Set in histories that fit the logs of the jobs of a safe set creates, updates or deletes what its job's profile
/// allows there, judged by the contents that it finds, and breaks no rule.
pub fn each_set_is_allowed()
    ensures { OfSafeJobs (λ J Rs replicas histories.
        SetsAreAllowed J.profiles Rs replicas histories) }
{
    a_job_asks_only_what_it_may();
    answers_are_by_what_they_depend_on();
    others_change_no_answer();
}
