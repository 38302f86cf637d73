//! What books and jobs leave that fit together.
ghost use Rattle.std.specs.Prelude.{◌<◌, length, IfOk, IfErr};
ghost use Rattle.hub_state.specs.State.{IsState};
ghost use Rattle.hub_schedule.specs.Promise.{IsAsIfAlone, Settles};
ghost use Rattle.hub_schedule.specs.Settled.{AreProfiles};
ghost use Rattle.hub_runner.specs.Settling.{EndAsTheyAre, FitTogether, IsAsPromisedBy, IsUnsettledIn, history_at};

use crate::by_number::{in_order, trees_of};
use crate::comparison::find_mismatch;
use crate::inconsistent::find_inconsistent;
use crate::mismatch::mismatch;
use hub_cert::{ProfileSet, Verified};
use hub_history::Book;
use hub_job::{Job, Outcome, RunFault};
use hub_schedule::promise::safe_sets_keep_their_promise;
use hub_schedule::{find_missing, outcome_of_jobs};
use hub_state::State;
use std::alloc::{AllocError, Global};

/// Compares books and jobs with each other, with the set and with the state, entry by entry, and puts together what they
/// leave: the state with the replicas of the books, and with the archive of each finished job. `state` stays as it is.
/// Books of roots that no profile has are dropped.
///
/// Whatever order the steps had in which the jobs got their answers, each of them did what it does alone.
///
/// The fault is the first of these that applies:
/// - `MissingReplica` with the first root that the state has no replica for, in the order of the profiles, the left root
///   of each first;
/// - `Stranger` with the lowest job number that is there twice, missing, or that of a job made for another profile or
///   archive;
/// - `Mismatch` with the first root, in that order, that hasn't exactly one book, or whose book wasn't made for the set or
///   doesn't open with the state's replica (then it names no job); or whose history has other entries of a job than the
///   job's log has there (then it names the first such job, and has both lists).
///
/// Any call may instead report `OutOfMemory`.
pub fn settle<'a>(
    alloc: Global,
    verified: &Verified<'a>,
    state: &State,
    books: Vec<Book<'_>>,
    jobs: Vec<Job<'a>>,
) -> Result<Outcome, RunFault>
    ensures settled { IfOk result
        (Settles state.now verified.now.profiles (history_at books.entry.items)) }
    ensures promise { IfOk result (IsAsPromisedBy state.now verified.now books.entry.items) }
    ensures alone { IfOk result (IsAsIfAlone state.now verified.now.profiles) }
    ensures compared { IfOk result
        (λ o. FitTogether state.now verified.now books.entry.items jobs.entry.items) }
    ensures ends { IfOk result (EndAsTheyAre jobs.entry.items) }
    ensures refused { IfErr result
        (IsUnsettledIn state.now verified.now books.entry.items jobs.entry.items) }
{
    safe_sets_keep_their_promise();
    settle_jobs(alloc, verified.set(), state, books, jobs)
}

/// Compares books and jobs, and puts together what they leave, as `settle` does, whether the set is safe or not.
pub(crate) fn settle_jobs<'a>(
    alloc: Global,
    set: &'a ProfileSet,
    state: &State,
    books: Vec<Book<'_>>,
    jobs: Vec<Job<'a>>,
) -> Result<Outcome, RunFault>
    ensures settled { IfOk result
        (Settles state.now set.now.profiles (history_at books.entry.items)) }
    ensures compared { IfOk result
        (λ o. FitTogether state.now set.now books.entry.items jobs.entry.items) }
    ensures ends { IfOk result (EndAsTheyAre jobs.entry.items) }
    ensures refused { IfErr result
        (IsUnsettledIn state.now set.now books.entry.items jobs.entry.items) }
    ensures valid { 0 < length set.now.profiles → IsState state.now }
    ensures profiles { AreProfiles set.now.profiles }
{
    compare(alloc, set, state, books.as_slice(), jobs.as_slice())?;
    match settle_all(alloc, set, state, books, jobs) {
        Ok(outcome) => Ok(outcome),
        Err(AllocError) => Err(RunFault::OutOfMemory),
    }
}

/// Compares books and jobs with each other, with the set and with the state.
fn compare(
    alloc: Global,
    set: &ProfileSet,
    state: &State,
    books: &[Book<'_>],
    jobs: &[Job<'_>],
) -> Result<(), RunFault>
    ensures compared { IfOk result (λ _. FitTogether state.now set.now books.now jobs.now) }
    ensures refused { IfErr result (IsUnsettledIn state.now set.now books.now jobs.now) }
    ensures valid { 0 < length set.now.profiles → IsState state.now }
    ensures profiles { AreProfiles set.now.profiles }
{
    let profiles = set.profiles();
    if let Some(root) = find_missing(profiles, state) {
        return Err(RunFault::MissingReplica { root: root.copy()? });
    }
    if let Some(job) = find_inconsistent(jobs, profiles, state) {
        return Err(RunFault::Stranger { job });
    }
    if let Some((root, job)) = find_mismatch(alloc, set, state, books, jobs)? {
        return Err(mismatch(alloc, profiles, books, jobs, root, job)?);
    }
    Ok(())
}

/// Puts together what books and jobs leave that fit together.
fn settle_all<'a>(
    alloc: Global,
    set: &'a ProfileSet,
    state: &State,
    books: Vec<Book<'_>>,
    jobs: Vec<Job<'a>>,
) -> Result<Outcome, AllocError>
    requires { FitTogether state.now set.now books.items jobs.items }
    ensures settled { IfOk result
        (Settles state.now set.now.profiles (history_at books.entry.items)) }
    ensures ends { IfOk result (EndAsTheyAre jobs.entry.items) }
{
    let profiles = set.profiles();
    let trees = trees_of(alloc, profiles, books)?;
    let ordered = in_order(alloc, profiles.len(), jobs)?;
    outcome_of_jobs(alloc, state, ordered, trees)
}
