//! Runs of the rounds of a set, one after another and in one state.
ghost use Rattle.std.specs.Prelude.{◌≡◌, false, length, option_map, None, IfErr, IfOk, IfSome, OnOk};
ghost use Rattle.std.specs.List.{find};
ghost use Rattle.hub_rounds.specs.Unverified as unverified;
ghost use Rattle.hub_rounds.specs.Unverified.{RefusesRound};
ghost use Rattle.hub_runner.specs.Working.{AreWorkers};
ghost use Rattle.hub_report.specs.Report.{unread_by};
ghost use Rattle.hub_serve.specs.ByRounds as spec;
ghost use Rattle.hub_serve.specs.ByRounds.{HaveRun, IsAdded, IsBegun, AddsRound, OfRoundsRun, OfUnverified, IfNoneIsLeftOut};
ghost use Rattle.hub_serve.specs.ByRounds.{RefusesOneOf, RefusesWorkers};
ghost use Rattle.hub_serve.specs.Told.{IsToldAnyway};
ghost use Rattle.hub_serve.specs.declared.task.Task.TheVariants as task;

use crate::progress::{Goals, Progress};
use crate::run::{is_out_of_memory, run_jobs};
use hub_cert::{CheckFault, ProfileSet};
use hub_job::RunFault;
use hub_profile::{Profile, Rules};
use hub_report::{Report, RoundsRun, Run, RunAnswer};
use hub_rounds::{Clashes, Rounds, RoundsFault, Subject, clashes_of, rounds_of, subject_of};
use hub_runner::WORKERS;
use hub_search::check_with_progress;
use hub_state::State;
use hub_text::Items;
use std::alloc::{AllocError, Global};
use std::sync::Wait;
use std::thread::Threads;

/// The answer what the rounds of a set did and left on a state. If a profile breaks a rule by itself, or whether it does is too
/// large to decide, nothing is run: the set is refused by the first line that says so, as `check` would refuse it if no two
/// profiles clashed.
pub fn report_on_run_by_rounds<'a, T: Threads + Wait + Sync, P: Progress + Sync>(
    rt: &T,
    alloc: Global,
    set: ProfileSet,
    state: State,
    workers: u8,
    progress: &P,
) -> Report<'a>
    ensures told { IsToldAnyway (task.RunByRounds workers state) set result }
    ensures read { unread_by result ≡ None }
{
    let Ok(clashes) = clashes_of(alloc, &set) else {
        return Report::OutOfMemory;
    };
    match first_alone(clashes.lines()) {
        Some(line) => Report::refusal(alloc, &set, line),
        None => report_on_all(rt, alloc, set, &clashes, state, workers, progress),
    }
}

/// The first line that says why a profile is in no round.
pub(crate) fn first_alone(lines: &[CheckFault]) -> Option<&CheckFault>
    ensures { option_map (λ e. e.now) result ≡ find spec.leaves_out lines.now }
{
    lines.iter().find(|line| leaves_out(line))
}

/// Whether a line says why a profile is in no round.
fn leaves_out(line: &CheckFault) -> bool
    ensures { result ≡ spec.leaves_out line.now }
{
    matches!(subject_of(line), Subject::Alone { .. })
}

/// The answer what the rounds of a set did and left, of which no line says that a profile is in no round.
fn report_on_all<'a, T: Threads + Wait + Sync, P: Progress + Sync>(
    rt: &T,
    alloc: Global,
    set: ProfileSet,
    clashes: &Clashes,
    state: State,
    workers: u8,
    progress: &P,
) -> Report<'a>
    ensures told { IfNoneIsLeftOut set clashes.now
        (IsToldAnyway (task.RunByRounds workers state) set result) }
    ensures read { unread_by result ≡ None }
{
    match rounds_of(alloc, set, clashes) {
        Ok(rounds) => report_on_run(run_rounds(rt, alloc, rounds, state, workers, progress)),
        Err(RoundsFault::NotVerified { .. }) => Report::NotVerified,
        Err(RoundsFault::OutOfMemory) => Report::OutOfMemory,
    }
}

/// The answer with a run by rounds, or that a round wasn't verified. Tests show no such round.
fn report_on_run<'a>(run: Result<RoundsRun, CheckFault>) -> Report<'a>
    ensures told { OfRoundsRun run (λ M n S. IsToldAnyway (task.RunByRounds n S) M result) }
    ensures read { unread_by result ≡ None }
{
    match run {
        Ok(run) => Report::Run(RunAnswer::RanByRounds(run)),
        Err(fault) => report_on_unverified(&fault),
    }
}

/// The answer that a round wasn't verified, unless memory is out.
fn report_on_unverified<'a>(fault: &CheckFault) -> Report<'a>
    ensures told { OfUnverified fault.now
        (λ M n S. IsToldAnyway (task.RunByRounds n S) M result) }
    ensures read { unread_by result ≡ None }
{
    if is_memory(fault) {
        Report::OutOfMemory
    } else {
        Report::NotVerified
    }
}

/// Whether memory is out.
fn is_memory(fault: &CheckFault) -> bool
    ensures { result ≡ unverified.is_memory fault.now }
{
    matches!(fault, CheckFault::OutOfMemory)
}

/// Runs rounds one after another, until a job isn't finished or a round isn't run. None is run if there are no workers or too
/// many.
fn run_rounds<T: Threads + Wait + Sync, P: Progress + Sync>(
    rt: &T,
    alloc: Global,
    rounds: Rounds,
    state: State,
    workers: u8,
    progress: &P,
) -> Result<RoundsRun, CheckFault>
    ensures run { IfOk result (HaveRun rounds.rules workers state rounds.rounds) }
    ensures refused { IfErr result (RefusesOneOf rounds.rules rounds.rounds) }
{
    let Rounds { rounds, rules, .. } = rounds;
    let mut run = RoundsRun {
        rounds: rounds.len(),
        lines: String::new(alloc),
        state,
        finished: true,
        error: None,
    };
    if let Some(error) = refused_workers(workers) {
        run.finished = false;
        run.error = Some(error);
        return Ok(run);
    }
    let rounds = rounds.into_vec();
    run_each(rt, alloc, rounds, rules, workers, progress, &mut run)?;
    Ok(run)
}

/// Says why so many workers run no round, or `None` if they may.
fn refused_workers(workers: u8) -> Option<RunFault>
    ensures some { IfSome result (RefusesWorkers workers) }
    ensures none { result ≡ None → AreWorkers workers }
{
    if workers == 0 {
        return Some(RunFault::NoWorkers);
    }
    if usize::from(workers) > WORKERS {
        return Some(RunFault::TooManyWorkers);
    }
    None
}

/// Runs these rounds one after another, and adds what they did. None was run yet.
fn run_each<T: Threads + Wait + Sync, P: Progress + Sync>(
    rt: &T,
    alloc: Global,
    rounds: Vec<Items<Profile>>,
    rules: Rules,
    workers: u8,
    progress: &P,
    run: &mut RoundsRun,
) -> Result<(), CheckFault>
    requires workers { AreWorkers workers }
    requires begun { IsBegun (length rounds.items) run.old }
    ensures run { OnOk result (HaveRun rules workers run.old.state rounds.items run.new) }
    ensures refused { IfErr result (RefusesOneOf rules rounds.items) }
{
    let mut rules = rules;
    for profiles in rounds {
        rules = run_round(rt, alloc, profiles, rules, workers, progress, run)?;
        if !run.finished {
            return Ok(());
        }
    }
    Ok(())
}

/// Runs a round on the state that those before it left, adds what it did, and returns the rules.
fn run_round<T: Threads + Wait + Sync, P: Progress + Sync>(
    rt: &T,
    alloc: Global,
    profiles: Items<Profile>,
    rules: Rules,
    workers: u8,
    progress: &P,
    run: &mut RoundsRun,
) -> Result<Rules, CheckFault>
    ensures rules { IfOk result (λ r. r ≡ rules) }
    ensures step { OnOk result (AddsRound rules profiles workers run.old run.new) }
    ensures refused { IfErr result (RefusesRound (record { profiles = profiles; rules = rules })) }
{
    let set = ProfileSet::new(alloc, profiles, rules)?;
    run_made(rt, alloc, &set, workers, progress, run)?;
    let (_, rules) = set.into_members();
    Ok(rules)
}

/// Runs the jobs of the set of a round, and adds what they did. They are run only if the check has verified the set.
fn run_made<T: Threads + Wait + Sync, P: Progress + Sync>(
    rt: &T,
    alloc: Global,
    set: &ProfileSet,
    workers: u8,
    progress: &P,
    run: &mut RoundsRun,
) -> Result<(), CheckFault>
    ensures step { OnOk result
        (AddsRound set.now.rules set.now.profiles workers run.old run.new) }
    ensures refused { IfErr result (RefusesRound set.now) }
{
    let verified = check_with_progress(alloc, set, &Goals { progress })?;
    let round = run_jobs(rt, alloc, &verified, &run.state, workers, progress);
    add(run, round)?;
    Ok(())
}

/// Adds what came of a round. It fails if memory was out.
fn add(run: &mut RoundsRun, round: Result<Run, RunFault>) -> Result<(), AllocError>
    ensures { OnOk result (IsAdded round run.old run.new) }
{
    match round {
        Ok(round) => {
            run.lines.push_str(round.lines.as_str())?;
            run.state = round.state;
            run.finished = round.finished;
        }
        Err(fault) => {
            if is_out_of_memory(&fault) {
                return Err(AllocError);
            }
            run.finished = false;
            run.error = Some(fault);
        }
    }
    Ok(())
}
