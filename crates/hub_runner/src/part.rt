//! Runs of some jobs of a set, while the others wait.
ghost use Rattle.std.specs.Prelude.{◌≡◌, ◌⊎◌, ◌<◌, ◌++◌, length, IfOk, IfErr};
ghost use Rattle.hub_job.specs.declared.run_fault.RunFault.TheVariants as fault;
ghost use Rattle.hub_schedule.specs.Simulated.{HaveEnded};
ghost use Rattle.hub_runner.specs.Order.{AllStandInOrder, IsOutOfOrder, IsSettledBy};
ghost use Rattle.hub_runner.specs.Part as spec;
ghost use Rattle.hub_runner.specs.Part.{AreOthers, OthersWait};
ghost use Rattle.hub_runner.specs.Working.{AreEnded, IsNotRun, MayRun};

use crate::append::push;
use crate::comparison::roots_of;
use crate::desks::{jobs_for, open_desks};
use crate::mismatch::mismatch;
use crate::order::find_disorder;
use crate::pairs::JobPair;
use crate::pool::{PoolEnd, step_all};
use crate::queue::Queue;
use crate::runs::{Done, Opened, WORKERS, close_set};
use crate::settling::settle_jobs;
use crate::worker::QueuedJob;
use hub_cert::ProfileSet;
use hub_history::{Book, Gate};
use hub_job::{Job, Outcome, RunFault};
use hub_path::Side;
use hub_profile::Profile;
use hub_schedule::find_missing;
use hub_state::State;
use std::alloc::{AllocError, Global};
use std::sync::Wait;
use std::thread::Threads;

/// Runs some jobs of a set at the same time, as `run` does, whether the set is safe or not. The job of the number `j` is one of
/// them if `part[j]` is true. Any other job takes no turn: it ends as stopped, with an empty log.
///
/// A job starts as soon as each job of the part has ended that stands before it in one of the pairs. Each job of the part still works
/// by the archive that the state has.
///
/// It says what was done, by histories that settle the outcome, and in which the pairs stand in order: that is compared after the
/// run. What else the jobs do to each other is for the caller to know.
///
/// The faults are those of `run`, for all profiles of the set. A pair that isn't in order is a `Mismatch`; tests show none.
pub fn run_part<G: Gate + Sync, R: Threads + Wait + Sync>(
    rt: &R,
    alloc: Global,
    set: &ProfileSet,
    state: &State,
    part: &[bool],
    pairs: &[JobPair],
    workers: usize,
    gate: &G,
) -> Result<Outcome, RunFault>
    ensures settled { IfOk result
        (IsSettledBy state.now set.now.profiles pairs.now) }
    ensures rest { IfOk result (OthersWait part.now) }
    ensures ended { IfOk result (λ o. HaveEnded o.jobs) }
    ensures run { IfOk result (λ o. MayRun state.now set.now.profiles workers) }
    ensures refused { IfErr result (IsNotRun state.now set.now.profiles workers) }
{
    if workers == 0 {
        return Err(RunFault::NoWorkers);
    }
    if workers > WORKERS {
        return Err(RunFault::TooManyWorkers);
    }
    if let Some(root) = find_missing(set.profiles(), state) {
        return Err(RunFault::MissingReplica { root: root.copy()? });
    }
    run_jobs(rt, alloc, set, state, part, pairs, workers, gate)
}

/// Runs some jobs of a set, and settles what all leave.
fn run_jobs<'a, G: Gate + Sync, R: Threads + Wait + Sync>(
    rt: &R,
    alloc: Global,
    set: &'a ProfileSet,
    state: &'a State,
    part: &[bool],
    pairs: &[JobPair],
    workers: usize,
    gate: &G,
) -> Result<Outcome, RunFault>
    requires run { MayRun state.now set.now.profiles workers }
    ensures settled { IfOk result
        (IsSettledBy state.now set.now.profiles pairs.now) }
    ensures rest { IfOk result (OthersWait part.now) }
    ensures ended { IfOk result (λ o. HaveEnded o.jobs) }
    ensures refused { IfErr result (IsNotRun state.now set.now.profiles workers) }
{
    let Done { books, jobs } = step_part(rt, alloc, set, state, part, pairs, workers, gate)?;
    check_order(alloc, set, books.as_slice(), jobs.as_slice(), pairs)?;
    let others = others_of(alloc, set.profiles(), state, part)?;
    let jobs = joined(others, jobs)?;
    settle_jobs(alloc, set, state, books, jobs)
}

/// Checks that the pairs stand in order in the histories of all books.
fn check_order(
    alloc: Global,
    set: &ProfileSet,
    books: &[Book<'_>],
    jobs: &[Job<'_>],
    pairs: &[JobPair],
) -> Result<(), RunFault>
    ensures ordered { IfOk result
        (λ _. AllStandInOrder (length set.now.profiles) pairs.now books.now) }
    ensures refused { IfErr result IsOutOfOrder }
{
    let profiles = set.profiles();
    match find_disorder(alloc, profiles.len(), books, pairs)? {
        Some((root, job)) => Err(mismatch(alloc, profiles, books, jobs, root, Some(job))?),
        None => Ok(()),
    }
}

/// Steps some jobs of a set until they end.
fn step_part<'a, G: Gate + Sync, R: Threads + Wait + Sync>(
    rt: &R,
    alloc: Global,
    set: &'a ProfileSet,
    state: &'a State,
    part: &[bool],
    pairs: &[JobPair],
    workers: usize,
    gate: &G,
) -> Result<Done<'a>, RunFault>
    requires { 0 < workers }
    ensures over { IfOk result (λ d. AreEnded d.jobs.items) }
    ensures refused { IfErr result (λ f. (f ≡ fault.ThreadRefused) ⊎ (f ≡ fault.OutOfMemory)) }
{
    let Opened { desks, seats, jobs } = open_part(alloc, set, state, part, workers)?;
    let queue = Queue::new(alloc, set.profiles().len(), jobs, pairs)?;
    let PoolEnd { ended, seats } = step_all(rt, alloc, gate, &desks, seats, queue)?;
    Ok(close_set(alloc, desks, seats, ended)?)
}

/// Opens the desks of a set and makes the jobs of a part, for so many workers, or for as many as there are jobs if these are
/// fewer.
fn open_part<'a>(
    alloc: Global,
    set: &'a ProfileSet,
    state: &'a State,
    part: &[bool],
    workers: usize,
) -> Result<Opened<'a>, AllocError>
    requires { 0 < workers }
{
    let roots = roots_of(alloc, set.profiles())?;
    let all = jobs_for(alloc, set.profiles(), state, roots.as_slice())?;
    let jobs = jobs_in(alloc, all, part)?;
    let workers = workers.min(jobs.len().max(1));
    let (desks, seats) = open_desks(alloc, set, state, roots.as_slice(), workers)?;
    Ok(Opened { desks, seats, jobs })
}

/// Keeps the jobs that are in the part.
fn jobs_in<'a>(
    alloc: Global,
    all: Vec<QueuedJob<'a>>,
    part: &[bool],
) -> Result<Vec<QueuedJob<'a>>, AllocError> {
    let mut jobs = Vec::new(alloc);
    for queued in all {
        if is_in(part, queued.job.number()) {
            push(&mut jobs, queued)?;
        }
    }
    Ok(jobs)
}

/// Makes the jobs that aren't in the part. They are stopped.
fn others_of<'a>(
    alloc: Global,
    profiles: &'a [Profile],
    state: &'a State,
    part: &[bool],
) -> Result<Vec<Job<'a>>, AllocError>
    ensures { IfOk result (λ v. AreOthers part.now (length profiles.now) v.items) }
{
    let mut others = Vec::new(alloc);
    for (number, profile) in profiles.iter().enumerate() {
        if !is_in(part, number) {
            push(&mut others, waiting(alloc, number, profile, state)?)?;
        }
    }
    Ok(others)
}

/// Makes the job of that number, which is stopped.
fn waiting<'a>(
    alloc: Global,
    number: usize,
    profile: &'a Profile,
    state: &'a State,
) -> Result<Job<'a>, AllocError>
    ensures number { IfOk result (λ j. j.number ≡ number) }
    ensures waits { IfOk result spec.IsWaiting }
{
    let archive = state.archive_or_empty(profile.root(Side::Left), profile.root(Side::Right));
    let mut job = Job::new(alloc, number, profile, archive)?;
    job.stop();
    Ok(job)
}

/// Returns whether the job of that number is in the part.
fn is_in(part: &[bool], number: usize) -> bool
    ensures { result ≡ spec.is_in part.now number }
{
    match part.get(number) {
        Some(own) => *own,
        None => false,
    }
}

/// Appends jobs to others.
fn joined<'a>(others: Vec<Job<'a>>, jobs: Vec<Job<'a>>) -> Result<Vec<Job<'a>>, AllocError>
    ensures { IfOk result (λ v. v.items ≡ others.entry.items ++ jobs.entry.items) }
{
    let mut all = others;
    for job in jobs {
        push(&mut all, job)?;
    }
    Ok(all)
}
