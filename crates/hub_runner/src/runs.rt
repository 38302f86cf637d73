//! Runs of the jobs of a safe set, at the same time.
ghost use Rattle.std.specs.Prelude.{◌≡◌, ◌⊎◌, ◌<◌, true, IfOk, IfErr};
ghost use Rattle.hub_schedule.specs.Simulated.{HaveEnded};
ghost use Rattle.hub_job.specs.declared.run_fault.RunFault.TheVariants as fault;
ghost use Rattle.hub_runner.specs.Settling.{IsPromisedFor};
ghost use Rattle.hub_runner.specs.Working.{AreEnded, IsNotRun, MayRun, is_ended};

use crate::append::push;
use crate::comparison::roots_of;
use crate::desks::{Desks, close_desks, jobs_for, open_desks};
use crate::pool::{PoolEnd, step_all};
use crate::queue::Queue;
use crate::settling::settle;
use crate::worker::{Ended, QueuedJob};
use hub_cert::{ProfileSet, Verified};
use hub_history::{Book, Gate, Seat};
use hub_job::{Job, Outcome, RunFault};
use hub_schedule::find_missing;
use hub_state::State;
use std::alloc::{AllocError, Global};
use std::sync::Wait;
use std::thread::Threads;

/// The most workers.
pub const WORKERS: usize = 16;

/// Runs the jobs of a set at the same time, until each of them ends. Each root has a desk with a copy of the state's replica.
/// `workers` threads step the jobs, or as many as there are jobs if these are fewer: a worker makes a few steps of a job, and
/// passes it on. Then `settle` compares all that was done and puts the outcome together. `state` stays as it is.
///
/// Each job does what it does alone, and each has ended: it is finished, or it was stopped because it found no memory.
///
/// It calls the gate's `before` and `after` around each step, its `within` under the lock, and its `ended` once for each job. The
/// number of threads is only tested.
///
/// The fault is the first of these that applies:
/// - `NoWorkers` for no workers, and `TooManyWorkers` for more than [`WORKERS`];
/// - `MissingReplica` with the first root that the state has no replica for, in the order of the profiles, the left root
///   of each first;
/// - `ThreadRefused` if a thread can't be started. Those that were started end first.
///
/// Any call may instead report `OutOfMemory`. `Stranger` and `Mismatch` are those of [`settle`]; tests show none.
pub fn run<G: Gate + Sync, R: Threads + Wait + Sync>(
    rt: &R,
    alloc: Global,
    verified: &Verified<'_>,
    state: &State,
    workers: usize,
    gate: &G,
) -> Result<Outcome, RunFault>
    ensures promise { IfOk result (IsPromisedFor state.now verified.now) }
    ensures ended { IfOk result (λ o. HaveEnded o.jobs) }
    ensures run { IfOk result (λ o. MayRun state.now verified.now.profiles workers) }
    ensures refused { IfErr result (IsNotRun state.now verified.now.profiles workers) }
{
    if workers == 0 {
        return Err(RunFault::NoWorkers);
    }
    if workers > WORKERS {
        return Err(RunFault::TooManyWorkers);
    }
    if let Some(root) = find_missing(verified.set().profiles(), state) {
        return Err(RunFault::MissingReplica { root: root.copy()? });
    }
    run_set(rt, alloc, verified, state, workers, gate)
}

/// Runs the jobs of a set at the same time, and settles what they leave.
fn run_set<'a, G: Gate + Sync, R: Threads + Wait + Sync>(
    rt: &R,
    alloc: Global,
    verified: &Verified<'a>,
    state: &'a State,
    workers: usize,
    gate: &G,
) -> Result<Outcome, RunFault>
    requires { MayRun state.now verified.now.profiles workers }
    ensures promise { IfOk result (IsPromisedFor state.now verified.now) }
    ensures ended { IfOk result (λ o. HaveEnded o.jobs) }
    ensures refused { IfErr result (IsNotRun state.now verified.now.profiles workers) }
{
    let Done { books, jobs } = step_set(rt, alloc, verified.set(), state, workers, gate)?;
    settle(alloc, verified, state, books, jobs)
}

/// What the jobs of a set have done: the books of its roots, and the jobs, which have ended.
#[derive(Drop)]
pub(crate) struct Done<'a> {
    /// The books.
    pub(crate) books: Vec<Book<'a>>,
    /// The jobs.
    pub(crate) jobs: Vec<Job<'a>>,
}

/// Steps the jobs of a set until they end.
fn step_set<'a, G: Gate + Sync, R: Threads + Wait + Sync>(
    rt: &R,
    alloc: Global,
    set: &'a ProfileSet,
    state: &'a State,
    workers: usize,
    gate: &G,
) -> Result<Done<'a>, RunFault>
    requires { 0 < workers }
    ensures over { IfOk result (λ d. AreEnded d.jobs.items) }
    ensures refused { IfErr result (λ f. (f ≡ fault.ThreadRefused) ⊎ (f ≡ fault.OutOfMemory)) }
{
    let Opened { desks, seats, jobs } = open_set(alloc, set, state, workers)?;
    let queue = Queue::new(alloc, set.profiles().len(), jobs, &[])?;
    let PoolEnd { ended, seats } = step_all(rt, alloc, gate, &desks, seats, queue)?;
    Ok(close_set(alloc, desks, seats, ended)?)
}

/// What the jobs of a set step with: the desks of its roots, the seats of each worker, and the jobs.
#[derive(Drop)]
pub(crate) struct Opened<'a> {
    /// The desks.
    pub(crate) desks: Desks<'a>,
    /// The seats of each worker.
    pub(crate) seats: Vec<Vec<Seat>>,
    /// The jobs.
    pub(crate) jobs: Vec<QueuedJob<'a>>,
}

/// Opens the desks of a set and makes its jobs, for so many workers, or for as many as there are jobs if these are fewer.
fn open_set<'a>(
    alloc: Global,
    set: &'a ProfileSet,
    state: &'a State,
    workers: usize,
) -> Result<Opened<'a>, AllocError>
    requires { 0 < workers }
{
    let roots = roots_of(alloc, set.profiles())?;
    let jobs = jobs_for(alloc, set.profiles(), state, roots.as_slice())?;
    let workers = workers.min(jobs.len().max(1));
    let (desks, seats) = open_desks(alloc, set, state, roots.as_slice(), workers)?;
    Ok(Opened { desks, seats, jobs })
}

/// Closes the desks of a set whose jobs have ended.
pub(crate) fn close_set<'a>(
    alloc: Global,
    desks: Desks<'a>,
    seats: Vec<Vec<Seat>>,
    ended: Vec<Ended<'a>>,
) -> Result<Done<'a>, AllocError>
    ensures { IfOk result (λ d. AreEnded d.jobs.items) }
{
    let jobs = jobs_of(alloc, ended)?;
    let books = close_desks(alloc, desks, seats)?;
    Ok(Done { books, jobs })
}

/// Returns the jobs that have ended.
fn jobs_of<'a>(alloc: Global, ended: Vec<Ended<'a>>) -> Result<Vec<Job<'a>>, AllocError>
    ensures { IfOk result (λ v. AreEnded v.items) }
{
    let mut jobs = Vec::new(alloc);
    for one in ended {
        push(&mut jobs, job_of(one))?;
    }
    Ok(jobs)
}

/// Returns a job that has ended.
fn job_of<'a>(ended: Ended<'a>) -> Job<'a>
    ensures { is_ended result ≡ true }
{
    let Ended { job } = ended;
    job
}
