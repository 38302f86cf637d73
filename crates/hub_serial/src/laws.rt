//! What holds of jobs that start at any time: each law is the contract of a function that does nothing.
ghost use Rattle.std.specs.Prelude.{◌≡◌, ◌≢◌, ℕ, IsTrue, List, filter, slice_get, Some};
ghost use Rattle.hub_path.specs.Path.{Path};
ghost use Rattle.hub_profile.specs.Parts.{Parts, IsProfile};
ghost use Rattle.hub_reach.specs.Reach.{reach};
ghost use Rattle.hub_reach.specs.Safe.{IsSafe, Rule};
ghost use Rattle.hub_tree.specs.Tree.{Archive, IsTree, Replica, old_mark_at};
ghost use Rattle.hub_reconcile.specs.Items.{items};
ghost use Rattle.hub_job.specs.Ends.{archive_after};
ghost use Rattle.hub_job.specs.Job.{next, view_in};
ghost use Rattle.hub_serial.specs.Clash.{AreProfiles, JobsClash};
ghost use Rattle.hub_serial.specs.Edits.{Actor, ActorsClash, AreActors, LeavePartsInTurn, run_with_edits};
ghost use Rattle.hub_serial.specs.RunRecord.{IsAsRecorded, IsSettledInOrder, RunRecord, WereGiven, WorkAsRecorded, archives_after_ends, serial_world};
ghost use Rattle.hub_serial.specs.Schedule.{AreEquivalent, NoneInterleave, jobs_in_order, serial_schedule, turns_by_job};
ghost use Rattle.hub_serial.specs.Serial.{EnoughTurnsSuffice, IfAllAreDone, IsNotSerializable, LeaveSyncsInTurn, LeaveWorkInTurn, OfItsArchives, OfTreesAndArchives};
ghost use Rattle.hub_serial.specs.Started.{AreStarterEvents, HasSerialRun, archives_after_events};
ghost use Rattle.hub_serial.specs.Starter.{JobEvent, KeepsApart, all_wait, turns_of};
ghost use Rattle.hub_serial.specs.World.{RootPair, World, run, turn};

use hub_job::laws::{
    a_job_asks_only_what_it_may, answers_are_by_what_they_depend_on, others_change_no_answer,
};
use hub_tree::laws::a_set_keeps_trees;

/// Turns of two jobs that don't clash commute: in either order they leave the same replicas, archives and logs, and the
/// same jobs done, with the same items.
pub fn turns_commute()
    ensures { (Ps : List Parts) (i k : ℕ) (w : World) → AreProfiles Ps → i ≢ k
        → ¬ (JobsClash Ps i k) → turn Ps i (turn Ps k w) ≡ turn Ps k (turn Ps i w) }
{
    a_job_asks_only_what_it_may();
    answers_are_by_what_they_depend_on();
    others_change_no_answer();
}

/// Equivalent schedules, in which turns of jobs that clash come in the same order, leave the same world.
pub fn equivalent_schedules_leave_the_same()
    ensures { (Ps : List Parts) (js ks : List ℕ) (w : World) → AreProfiles Ps
        → AreEquivalent (JobsClash Ps) js ks → run Ps js w ≡ run Ps ks w }
{
    turns_commute();
}

/// A schedule in which jobs that clash don't overlap in time is equivalent to the serial one: the jobs one after another,
/// in the order of their first turns. So it leaves the same world.
pub fn a_schedule_without_interleaving_is_serializable()
    ensures equivalent { (Ps : List Parts) (js : List ℕ) → NoneInterleave (JobsClash Ps) js
        → AreEquivalent (JobsClash Ps) js (serial_schedule js) }
    ensures same { (Ps : List Parts) (js : List ℕ) (w : World) → AreProfiles Ps
        → NoneInterleave (JobsClash Ps) js → run Ps js w ≡ run Ps (serial_schedule js) w }
{
    equivalent_schedules_leave_the_same();
}

/// Any order of the jobs will do in which those that clash come as in the order of their first turns: one after another
/// in that order they leave the same world.
pub fn any_order_of_the_jobs_will_do()
    ensures { (Ps : List Parts) (js jobs : List ℕ) (w : World) → AreProfiles Ps
        → NoneInterleave (JobsClash Ps) js → AreEquivalent (JobsClash Ps) (jobs_in_order js) jobs
        → run Ps js w ≡ run Ps (turns_by_job jobs js) w }
{
    equivalent_schedules_leave_the_same();
    a_schedule_without_interleaving_is_serializable();
}

/// If jobs that clash don't overlap in time, the jobs of a schedule, in the order of their first turns, work one after
/// another, each with its own turns on what the ones before it left. A job that is done has synchronized that.
pub fn jobs_work_in_turn()
    ensures { OfTreesAndArchives (λ Ps js replicas archives. NoneInterleave (JobsClash Ps) js
        → LeaveWorkInTurn Ps js replicas archives) }
{
    a_schedule_without_interleaving_is_serializable();
    a_set_keeps_trees();
}

/// If, besides, each job that has a turn is done in the end, each of them synchronizes what the ones before it left.
pub fn jobs_synchronize_in_turn()
    ensures { OfTreesAndArchives (λ Ps js replicas archives. NoneInterleave (JobsClash Ps) js
        → IfAllAreDone Ps js replicas archives (LeaveSyncsInTurn Ps js replicas archives)) }
{
    jobs_work_in_turn();
}

/// The condition is needed: there are jobs, replicas, archives and a schedule, in which jobs that clash overlap in time,
/// such that no jobs one after another, with as many turns as you like, leave the same world.
pub fn some_interleaving_is_not_serializable()
    ensures { (Ps : List Parts) × (js : List ℕ) × (replicas : Path → Replica)
        × (archives : RootPair → Archive) × AreProfiles Ps × ((r : Path) → IsTree (replicas r))
        × IsNotSerializable Ps js replicas archives }
{
    a_set_keeps_trees();
}

/// A job that has more than 4k + 3n turns in a row, for k kept values and n entries in the two replicas that it finds, is
/// done.
pub fn enough_turns_get_a_job_done()
    ensures { (Ps : List Parts) (P : Parts) (j n : ℕ) (w : World) → slice_get Ps j ≡ Some P
        → IsProfile P → EnoughTurnsSuffice Ps P j n w }
{}

/// In a safe set jobs may overlap as they like: no two of them clash.
pub fn safe_sets_interleave_as_they_like()
    ensures { (Ps : List Parts) (Rs : List Rule) (js : List ℕ) → IsSafe Ps Rs
        → NoneInterleave (JobsClash Ps) js }
{}

/// It is enough that a job starts only while none that clashes with it runs: then jobs that clash don't overlap in time.
pub fn waiting_for_clashing_jobs_is_enough()
    ensures { (Ps : List Parts) (es : List JobEvent) → KeepsApart (JobsClash Ps) all_wait es
        → NoneInterleave (JobsClash Ps) (turns_of es) }
{}

/// A job may keep the archive of its start: while none that clashes with it has a turn, it asks the same, has the same
/// items, and leaves the same marks where it reaches, as by the archive that stands there.
pub fn a_job_may_keep_its_archive()
    ensures asks { (Ps : List Parts) (P : Parts) (j : ℕ) (js : List ℕ) (w : World) → AreProfiles Ps
        → slice_get Ps j ≡ Some P → OfItsArchives Ps P j js w (λ O N log. next P O log ≡ next P N log) }
    ensures items { (Ps : List Parts) (P : Parts) (j : ℕ) (js : List ℕ) (w : World) → AreProfiles Ps
        → slice_get Ps j ≡ Some P → OfItsArchives Ps P j js w
        (λ O N log. items (view_in P O log) ≡ items (view_in P N log)) }
    ensures marks { (Ps : List Parts) (P : Parts) (j : ℕ) (js : List ℕ) (w : World) → AreProfiles Ps
        → slice_get Ps j ≡ Some P → OfItsArchives Ps P j js w (λ O N log. (q : Path)
        → IsTrue (reach P q) → old_mark_at (archive_after P O log) q
        ≡ old_mark_at (archive_after P N log) q) }
{}

/// Without time: if in each root's history the entries of jobs that clash stand in the order in which the jobs started,
/// then all that is recorded is as in the serial run, the jobs one after another in that order. In it each job works on
/// what the ones before it left; so each that is done has synchronized that.
pub fn histories_in_order_are_serial()
    ensures serial { (Ps : List Parts) (replicas : Path → Replica) (archives : RootPair → Archive)
        (R : RunRecord) → AreProfiles Ps → IsSettledInOrder Ps replicas R
        → WereGiven Ps R R.started archives
        → IsAsRecorded Ps replicas archives R (serial_world Ps replicas archives R) }
    ensures work { (Ps : List Parts) (replicas : Path → Replica) (archives : RootPair → Archive)
        (R : RunRecord) → AreProfiles Ps → ((r : Path) → IsTree (replicas r))
        → IsSettledInOrder Ps replicas R → WorkAsRecorded Ps replicas archives R }
{
    a_job_asks_only_what_it_may();
    answers_are_by_what_they_depend_on();
    others_change_no_answer();
    a_set_keeps_trees();
}

/// In whatever order jobs end, if those that clash end in the order of their starts, they leave the archives of the serial
/// run.
pub fn ends_may_come_in_any_order()
    ensures { (Ps : List Parts) (R : RunRecord) (ends : List ℕ) (archives : RootPair → Archive)
        → AreProfiles Ps → AreEquivalent (JobsClash Ps) ends (filter R.done R.started)
        → archives_after_ends Ps R ends archives
        ≡ archives_after_ends Ps R (filter R.done R.started) archives }
{}

/// Who starts jobs only while none that clashes with them runs, gives each the archive of its pair as it stands, and puts
/// in the marks of each at its end, gives what the serial run gives, and leaves the archives that it leaves.
pub fn a_starter_gives_what_is_due()
    ensures given { (Ps : List Parts) (R : RunRecord) (archives : RootPair → Archive)
        (es : List JobEvent) → AreProfiles Ps → AreStarterEvents Ps R archives es
        → WereGiven Ps R R.started archives }
    ensures left { (Ps : List Parts) (R : RunRecord) (archives : RootPair → Archive)
        (es : List JobEvent) → AreProfiles Ps → AreStarterEvents Ps R archives es
        → archives_after_events Ps R es archives
        ≡ archives_after_ends Ps R (filter R.done R.started) archives }
{}

/// Whenever they start: if a starter keeps jobs that clash apart, and histories and logs are settled in the order of its
/// starts, all is as in the serial run.
pub fn whenever_they_start_it_is_as_serial()
    ensures { (Ps : List Parts) (replicas : Path → Replica) (archives : RootPair → Archive)
        (R : RunRecord) (es : List JobEvent) → AreProfiles Ps → ((r : Path) → IsTree (replicas r))
        → AreStarterEvents Ps R archives es → IsSettledInOrder Ps replicas R
        → HasSerialRun Ps replicas archives R es }
{
    histories_in_order_are_serial();
    a_starter_gives_what_is_due();
}

/// People may edit while jobs run: if between two turns of a job no other one that clashes with it has a turn, and nobody
/// edits a path that its answers depend on, the jobs one after another, with the edits at their places among them, leave
/// the same world.
pub fn edits_may_come_at_any_time()
    ensures equivalent { (As : List Actor) (js ks : List ℕ) (w : World) → AreActors As
        → AreEquivalent (ActorsClash As) js ks → run_with_edits As js w ≡ run_with_edits As ks w }
    ensures serial { (As : List Actor) (js : List ℕ) (w : World) → AreActors As
        → NoneInterleave (ActorsClash As) js
        → run_with_edits As js w ≡ run_with_edits As (serial_schedule js) w }
{
    a_job_asks_only_what_it_may();
    answers_are_by_what_they_depend_on();
    others_change_no_answer();
    a_set_keeps_trees();
}

/// With edits, too, each job works on what the jobs and edits before it left, in the order of first turns. If it finds
/// trees at its roots, nothing is refused to it, and if it is done, it has synchronized that.
pub fn jobs_work_in_turn_with_edits()
    ensures { (As : List Actor) (js : List ℕ) (replicas : Path → Replica)
        (archives : RootPair → Archive) → AreActors As → NoneInterleave (ActorsClash As) js
        → LeavePartsInTurn As js replicas archives }
{
    edits_may_come_at_any_time();
}

/// There are such records: one job on two empty replicas has one.
pub fn there_are_settled_records()
    ensures { (Ps : List Parts) × (replicas : Path → Replica) × (archives : RootPair → Archive)
        × (R : RunRecord) × (es : List JobEvent) × AreStarterEvents Ps R archives es
        × IsSettledInOrder Ps replicas R }
{}
