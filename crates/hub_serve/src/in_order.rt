//! Runs of the jobs of any set, as if its profiles ran one after another, in their order.
ghost use Rattle.std.specs.Prelude.{◌≡◌, ℕ, None};
ghost use Rattle.hub_state.specs.State.{State};
ghost use Rattle.hub_report.specs.Report.{unread_by};
ghost use Rattle.hub_serve.specs.InOrder.{ComesInOrder, MayBreakAlone, OfUnrunInOrder};
ghost use Rattle.hub_serve.specs.Told.{IsToldAnyway};
ghost use Rattle.hub_serve.specs.declared.task.Task.TheVariants as task;

use crate::by_rounds::first_alone;
use crate::progress::{Jobs, Progress};
use crate::run::{is_out_of_memory, run_of};
use hub_cert::ProfileSet;
use hub_job::RunFault;
use hub_report::{Report, Run, RunAnswer};
use hub_rounds::clashes_of;
use hub_starter::{Waves, WavesFault, run_in_order, waves_of};
use hub_state::State;
use std::alloc::Global;
use std::sync::Wait;
use std::thread::Threads;

/// The answer what the jobs of a set did and left on a state, by that many workers, as if they ran one after another in the order
/// of the profiles. If a profile breaks a rule by itself, or whether it does is too large to decide, nothing is run: the set is
/// refused as `report_on_run_by_rounds` refuses it.
pub fn report_on_run_in_order<'a, T: Threads + Wait + Sync, P: Progress + Sync>(
    rt: &T,
    alloc: Global,
    set: &ProfileSet,
    state: &State,
    workers: u8,
    progress: &P,
) -> Report<'a>
    ensures told { IsToldAnyway (task.RunInOrder workers state.now) set.now result }
    ensures read { unread_by result ≡ None }
{
    match waves_of(alloc, set) {
        Ok(waves) => report_on_waves(rt, alloc, &waves, state, workers, progress),
        Err(WavesFault::MayBreak { .. }) => report_on_breach(alloc, set),
        Err(WavesFault::OutOfMemory) => Report::OutOfMemory,
    }
}

/// The answer that a set is refused in which a profile may break a rule: by the first line that says so, for which all goals are
/// searched again. Tests show no set that has no such line then.
fn report_on_breach<'a>(alloc: Global, set: &ProfileSet) -> Report<'a>
    ensures told { (n : ℕ) (S : State) → MayBreakAlone set.now
        → IsToldAnyway (task.RunInOrder n S) set.now result }
    ensures read { unread_by result ≡ None }
{
    let Ok(clashes) = clashes_of(alloc, set) else {
        return Report::OutOfMemory;
    };
    match first_alone(clashes.lines()) {
        Some(line) => Report::refusal(alloc, set, line),
        None => Report::NotVerified,
    }
}

/// The answer what the jobs in these waves did and left, or why they weren't run.
fn report_on_waves<'a, T: Threads + Wait + Sync, P: Progress + Sync>(
    rt: &T,
    alloc: Global,
    waves: &Waves<'_>,
    state: &State,
    workers: u8,
    progress: &P,
) -> Report<'a>
    ensures told { IsToldAnyway (task.RunInOrder workers state.now) waves.now.set result }
    ensures read { unread_by result ≡ None }
{
    // Its contract says that no profile breaks a rule.
    let _ = waves.set();
    match run_waves(rt, alloc, waves, state, workers, progress) {
        Ok(run) => Report::Run(RunAnswer::RanInOrder(run)),
        Err(fault) => report_on_unrun_waves(fault),
    }
}

/// The answer that the jobs weren't run, or that memory is out.
fn report_on_unrun_waves<'a>(fault: RunFault) -> Report<'a>
    ensures told { OfUnrunInOrder fault (λ M S n. IsToldAnyway (task.RunInOrder n S) M result) }
    ensures read { unread_by result ≡ None }
{
    if is_out_of_memory(&fault) {
        Report::OutOfMemory
    } else {
        Report::Run(RunAnswer::NotRunInOrder(fault))
    }
}

/// Runs the jobs in these waves on a state, by that many workers.
fn run_waves<T: Threads + Wait + Sync, P: Progress + Sync>(
    rt: &T,
    alloc: Global,
    waves: &Waves<'_>,
    state: &State,
    workers: u8,
    progress: &P,
) -> Result<Run, RunFault>
    ensures { ComesInOrder waves.now.set state.now workers result }
{
    let profiles = waves.set().profiles();
    let jobs = Jobs::new(progress, profiles.len());
    let outcome = run_in_order(rt, alloc, waves, state, usize::from(workers), &jobs)?;
    Ok(run_of(alloc, profiles, outcome)?)
}
