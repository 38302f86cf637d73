//! Jobs that run in order.

use crate::hold::Hold;
use anyhow::{Result, bail};
use hub_cert::ProfileSet;
use hub_history::Gate;
use hub_job::{JobEnd, Outcome};
use hub_runner::run_part;
use hub_starter::{Waves, run_in_order, waves_of};
use hub_state::State;
use hub_text::Items;
use std::alloc::Global;
use std::sync::Wait;
use std::thread::Threads;
use test_cases::{Case, left_text, outcome_text};
use test_kit::{cut, joined};

/// A gate that does nothing.
struct Open;

impl Gate for Open {
    fn before(&self, _job: usize, _step: usize) {}

    fn within(&self, _job: usize) {}

    fn after(&self, _job: usize, _step: usize) {}

    fn ended(&self, _job: usize) {}
}

/// The answer to a question about what was given.
pub(crate) fn answer<R: Threads + Wait + Sync>(
    rt: &R,
    case: &Case,
    question: &str,
) -> Result<String> {
    let set = case.set()?;
    match waves_of(case.alloc(), &set) {
        Ok(waves) => answer_of_waves(rt, case, &waves, question),
        Err(fault) => Ok(format!(in case.alloc(); "{fault:?}")?),
    }
}

fn answer_of_waves<R: Threads + Wait + Sync>(
    rt: &R,
    case: &Case,
    waves: &Waves<'_>,
    question: &str,
) -> Result<String> {
    let alloc = case.alloc();
    let (word, fields) = cut(question);
    let (first, second) = cut(fields);
    match word {
        "waves" => waves_text(alloc, waves),
        "order" => order_text(rt, alloc, waves, &case.state()?, first.parse::<usize>()?),
        "orders" => orders_text(
            rt,
            alloc,
            waves,
            &case.state()?,
            first.parse::<usize>()?,
            second.parse::<usize>()?,
        ),
        "hold" => hold_text(
            rt,
            alloc,
            waves,
            &case.state()?,
            first.parse::<usize>()?,
            second,
        ),
        _ => bail!("no question: {word}"),
    }
}

fn waves_text(alloc: Global, waves: &Waves<'_>) -> Result<String> {
    let numbers = joined(alloc, waves.numbers(), " ", |wave| {
        Ok(format!(in alloc; "{wave}")?)
    })?;
    Ok(format!(in alloc; "{numbers} of {}", waves.count())?)
}

/// What the jobs leave in order, or why they aren't run.
fn order_text<R: Threads + Wait + Sync>(
    rt: &R,
    alloc: Global,
    waves: &Waves<'_>,
    state: &State,
    workers: usize,
) -> Result<String> {
    let left = run_in_order(rt, alloc, waves, state, workers, &Open);
    left_text(alloc, &left)
}

fn orders_text<R: Threads + Wait + Sync>(
    rt: &R,
    alloc: Global,
    waves: &Waves<'_>,
    state: &State,
    count: usize,
    workers: usize,
) -> Result<String> {
    let want = one_by_one(rt, alloc, waves.set(), state)?;
    for number in 0..count {
        let text = order_text(rt, alloc, waves, state, workers)?;
        if text != want {
            return Ok(format!(in alloc; "run {number} leaves\n{text}")?);
        }
    }
    Ok(format!(in alloc; "{count} leave what the jobs leave one by one")?)
}

/// Which jobs have ended when one of them goes on that waits for another one.
fn hold_text<R: Threads + Wait + Sync>(
    rt: &R,
    alloc: Global,
    waves: &Waves<'_>,
    state: &State,
    workers: usize,
    fields: &str,
) -> Result<String> {
    let (job, until) = cut(fields);
    let jobs = waves.set().profiles().len();
    let hold = Hold::new(alloc, jobs, job.parse::<usize>()?, until.parse::<usize>()?)?;
    match run_in_order(rt, alloc, waves, state, workers, &hold) {
        Ok(_) => hold.text(alloc),
        Err(fault) => Ok(format!(in alloc; "{fault}")?),
    }
}

/// What the jobs leave, each alone, one after another in the order of the profiles.
fn one_by_one<R: Threads + Wait + Sync>(
    rt: &R,
    alloc: Global,
    set: &ProfileSet,
    state: &State,
) -> Result<String> {
    let jobs = set.profiles().len();
    let mut state = state.copy()?;
    let mut ends = Vec::new(alloc);
    for job in 0..jobs {
        let Outcome { state: left, jobs } = alone(rt, alloc, set, &state, job)?;
        state = left;
        ends.push(end_of(jobs, job)?)?;
    }
    let jobs = Items::from_vec(ends);
    outcome_text(alloc, &Outcome { state, jobs })
}

/// What one job leaves, with no other one.
fn alone<R: Threads + Wait + Sync>(
    rt: &R,
    alloc: Global,
    set: &ProfileSet,
    state: &State,
    job: usize,
) -> Result<Outcome> {
    let mut part = Vec::new(alloc);
    for number in 0..set.profiles().len() {
        part.push(number == job)?;
    }
    match run_part(rt, alloc, set, state, part.as_slice(), &[], 1, &Open) {
        Ok(outcome) => Ok(outcome),
        Err(fault) => bail!("job {job}: {fault}"),
    }
}

/// The end of the job of that number.
fn end_of(jobs: Items<JobEnd>, job: usize) -> Result<JobEnd> {
    match jobs.into_vec().into_iter().nth(job) {
        Some(end) => Ok(end),
        None => bail!("no job {job}"),
    }
}
