//! Runs of the jobs of a safe set.
ghost use Rattle.std.specs.Prelude.{◌≡◌, ◌↔◌, true, IfOk, None};
ghost use Rattle.hub_cert.specs.Set.{IsSafeSet};
ghost use Rattle.hub_schedule.specs.Simulated.{AreFinished};
ghost use Rattle.hub_report.specs.Report.{unread_by};
ghost use Rattle.hub_serve.specs.Told.{IsToldAnyway};
ghost use Rattle.hub_serve.specs.Runs as runs;
ghost use Rattle.hub_serve.specs.Runs.{ComesOf, OfUnrun, TellsOutcome};
ghost use Rattle.hub_serve.specs.declared.task.Task.TheVariants as task;

use crate::progress::{Jobs, Progress};
use hub_cert::Verified;
use hub_job::{End, JobEnd, Outcome, RunFault};
use hub_profile::Profile;
use hub_report::{Report, Run, RunAnswer, lines_of_jobs};
use hub_runner::run;
use hub_state::State;
use std::alloc::{AllocError, Global};
use std::sync::Wait;
use std::thread::Threads;

/// Runs the jobs of a safe set on a state, by that many workers, and returns the answer.
pub fn run_set<'a, T: Threads + Wait + Sync, P: Progress + Sync>(
    rt: &T,
    alloc: Global,
    verified: &Verified<'_>,
    state: &State,
    workers: u8,
    progress: &P,
) -> Report<'a>
    ensures told { IsToldAnyway (task.RunJobs workers state.now) verified.now result }
    ensures read { unread_by result ≡ None }
{
    match run_jobs(rt, alloc, verified, state, workers, progress) {
        Ok(run) => Report::Run(RunAnswer::Ran(run)),
        Err(fault) => report_on_unrun(fault),
    }
}

/// The answer that the jobs weren't run, or that memory is out.
fn report_on_unrun<'a>(fault: RunFault) -> Report<'a>
    ensures told { OfUnrun fault (λ M S n. IsToldAnyway (task.RunJobs n S) M result) }
    ensures read { unread_by result ≡ None }
{
    if is_out_of_memory(&fault) {
        Report::OutOfMemory
    } else {
        Report::Run(RunAnswer::NotRun(fault))
    }
}

/// Returns whether memory is out.
pub(crate) fn is_out_of_memory(fault: &RunFault) -> bool
    ensures { result ≡ runs.is_out_of_memory fault.now }
{
    matches!(fault, RunFault::OutOfMemory)
}

/// Runs the jobs of a safe set on a state, by that many workers.
pub(crate) fn run_jobs<T: Threads + Wait + Sync, P: Progress + Sync>(
    rt: &T,
    alloc: Global,
    verified: &Verified<'_>,
    state: &State,
    workers: u8,
    progress: &P,
) -> Result<Run, RunFault>
    ensures safe { IsSafeSet verified.now }
    ensures came { ComesOf verified.now state.now workers result }
{
    let profiles = verified.set().profiles();
    let jobs = Jobs::new(progress, profiles.len());
    let outcome = run(rt, alloc, verified, state, usize::from(workers), &jobs)?;
    Ok(run_of(alloc, profiles, outcome)?)
}

/// What the profiles' jobs did, and the state that they left.
pub(crate) fn run_of(
    alloc: Global,
    profiles: &[Profile],
    outcome: Outcome,
) -> Result<Run, AllocError>
    ensures { IfOk result (TellsOutcome profiles.now outcome) }
{
    let finished = are_finished(outcome.jobs.as_slice());
    let lines = lines_of_jobs(alloc, profiles, outcome.jobs.as_slice())?;
    Ok(Run {
        lines,
        state: outcome.state,
        finished,
    })
}

/// Returns whether all jobs are finished.
fn are_finished(jobs: &[JobEnd]) -> bool
    ensures { result ≡ true ↔ AreFinished jobs.now }
{
    for job in jobs {
        if job.end != End::Finished {
            return false;
        }
    }
    true
}
