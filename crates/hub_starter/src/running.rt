//! Runs of the jobs of a set, wave by wave.
ghost use Rattle.std.specs.Prelude.{◌≡◌, ◌<◌, ◌==◌, false, length, slice_set, true, IfOk, IfErr};
ghost use Rattle.hub_job.specs.declared.run_fault.RunFault.TheVariants as fault;
ghost use Rattle.hub_schedule.specs.Simulated.{HaveEnded};
ghost use Rattle.hub_state.specs.State.{IsState};
ghost use Rattle.hub_runner.specs.Working.{AreWorkers, IsNotRun, MayRun};
ghost use Rattle.hub_starter.specs.InOrder.{IsSerial};
ghost use Rattle.hub_starter.specs.Waved.{AreMergedEnds, IsAfterWaves, IsNoJob, IsWaveOf, part_for};
ghost use Rattle.hub_starter.specs.Waves.{wave_of};

use crate::laws::{a_wave_is_serial, waves_are_serial};
use crate::waves::Waves;
use hub_history::Gate;
use hub_job::{JobEnd, Outcome, RunFault};
use hub_runner::{WORKERS, run_part};
use hub_schedule::find_missing;
use hub_state::State;
use hub_text::Items;
use std::alloc::{AllocError, Global};
use std::sync::Wait;
use std::thread::Threads;

/// Runs the jobs of a set, so that they leave what they leave one after another, in the order of their profiles. The jobs of a
/// wave run at the same time, by `run_part`, on what the waves before left: each starts as soon as all earlier jobs of the wave
/// have ended that it may clash with. `state` stays as it is.
///
/// A stopped job leaves what some number of its turns leaves, and its archive stays. The jobs after it go on from there.
///
/// The faults are those of `run`: `NoWorkers`, `TooManyWorkers`, `MissingReplica`, `ThreadRefused` and `OutOfMemory`. With a
/// fault nothing is left, whatever waves are over.
pub fn run_in_order<G: Gate + Sync, R: Threads + Wait + Sync>(
    rt: &R,
    alloc: Global,
    waves: &Waves<'_>,
    state: &State,
    workers: usize,
    gate: &G,
) -> Result<Outcome, RunFault>
    ensures serial { IfOk result (IsSerial state.now waves.now.set.profiles) }
    ensures ended { IfOk result (λ o. HaveEnded o.jobs) }
    ensures run { IfOk result (λ o. MayRun state.now waves.now.set.profiles workers) }
    ensures refused { IfErr result (IsNotRun state.now waves.now.set.profiles workers) }
{
    waves_are_serial();
    if workers == 0 {
        return Err(RunFault::NoWorkers);
    }
    if workers > WORKERS {
        return Err(RunFault::TooManyWorkers);
    }
    if waves.set().profiles().is_empty() {
        return run_nothing(alloc, state);
    }
    run_all(rt, alloc, waves, state, workers, gate)
}

/// Runs no job.
fn run_nothing(alloc: Global, state: &State) -> Result<Outcome, RunFault>
    ensures ok { IfOk result (IsNoJob state.now) }
    ensures refused { IfErr result (λ f. f ≡ fault.OutOfMemory) }
{
    Ok(Outcome {
        state: state.copy()?,
        jobs: Items::new(alloc),
    })
}

/// Runs all waves.
fn run_all<G: Gate + Sync, R: Threads + Wait + Sync>(
    rt: &R,
    alloc: Global,
    waves: &Waves<'_>,
    state: &State,
    workers: usize,
    gate: &G,
) -> Result<Outcome, RunFault>
    requires some { 0 < length waves.now.set.profiles }
    requires workers { AreWorkers workers }
    ensures after { IfOk result (IsAfterWaves state.now waves.now waves.now.count) }
    ensures valid { IsState state.now }
    ensures run { IfOk result (λ o. MayRun state.now waves.now.set.profiles workers) }
    ensures refused { IfErr result (IsNotRun state.now waves.now.set.profiles workers) }
{
    waves_are_serial();
    // Their contracts say that the profiles and the waves are valid.
    let _ = waves.set().profiles();
    let mut outcome = run_wave(rt, alloc, waves, 0, state, workers, gate)?;
    for wave in 1..waves.count() {
        let later = run_wave(rt, alloc, waves, wave, &outcome.state, workers, gate)?;
        let Outcome { jobs, .. } = outcome;
        outcome = merged(waves.numbers(), wave, jobs, later);
    }
    Ok(outcome)
}

/// Runs a wave.
fn run_wave<G: Gate + Sync, R: Threads + Wait + Sync>(
    rt: &R,
    alloc: Global,
    waves: &Waves<'_>,
    wave: usize,
    state: &State,
    workers: usize,
    gate: &G,
) -> Result<Outcome, RunFault>
    requires some { 0 < length waves.now.set.profiles }
    requires workers { AreWorkers workers }
    ensures wave { IfOk result (IsWaveOf state.now waves.now wave) }
    ensures valid { IsState state.now }
    ensures run { IfOk result (λ o. MayRun state.now waves.now.set.profiles workers) }
    ensures refused { IfErr result (IsNotRun state.now waves.now.set.profiles workers) }
{
    a_wave_is_serial();
    let set = waves.set();
    // The contract says that the state is valid.
    let _ = find_missing(set.profiles(), state);
    let part = part_of(alloc, waves.numbers(), wave)?;
    let pairs = waves.pairs();
    let outcome = run_part(rt, alloc, set, state, part.as_slice(), pairs, workers, gate)?;
    let _ = find_missing(set.profiles(), &outcome.state);
    Ok(outcome)
}

/// Returns which jobs are of a wave.
fn part_of(alloc: Global, numbers: &[usize], wave: usize) -> Result<Vec<bool>, AllocError>
    ensures { IfOk result (λ v. v.items ≡ part_for numbers.now wave) }
{
    let mut part = Vec::new(alloc);
    for own in numbers {
        part.push(*own == wave)?;
    }
    Ok(part)
}

/// Puts the ends of the jobs of a wave in the places of those of an earlier outcome.
fn merged(numbers: &[usize], wave: usize, jobs: Items<JobEnd>, later: Outcome) -> Outcome
    requires { length later.jobs ≡ length jobs }
    ensures state { result.state ≡ later.state }
    ensures jobs { AreMergedEnds numbers.now wave jobs later.jobs result.jobs }
{
    let Outcome { state, jobs: own } = later;
    let mut all = jobs.into_vec();
    take_over(numbers, wave, &mut all, own.into_vec());
    Outcome {
        state,
        jobs: Items::from_vec(all),
    }
}

/// Puts the ends of the jobs of a wave in their places.
fn take_over(numbers: &[usize], wave: usize, all: &mut Vec<JobEnd>, mut own: Vec<JobEnd>)
    requires { length own.items ≡ length all.old.items }
    ensures { AreMergedEnds numbers.now wave all.old.items own.items all.new.items }
{
    while let Some(job) = own.pop() {
        let number = own.len();
        put_own(numbers, wave, number, all, job);
    }
}

/// Puts the end of a job in its place, if the job is of the wave.
fn put_own(numbers: &[usize], wave: usize, number: usize, all: &mut Vec<JobEnd>, job: JobEnd)
    requires { number < length all.old.items }
    ensures own { (wave_of numbers.now number == wave) ≡ true
        → all.new.items ≡ slice_set all.old.items number job }
    ensures others { (wave_of numbers.now number == wave) ≡ false
        → all.new.items ≡ all.old.items }
{
    if is_of_wave(numbers, wave, number) {
        all[number] = job;
    }
}

/// Returns whether the job of that number is of the wave.
fn is_of_wave(numbers: &[usize], wave: usize, number: usize) -> bool
    ensures { result ≡ (wave_of numbers.now number == wave) }
{
    let own = match numbers.get(number) {
        Some(own) => *own,
        None => 0,
    };
    own == wave
}
