//! What the jobs of the profiles leave by a schedule: how each of them ended, with its log (`test_cases::job_text`), and on further
//! lines the text of the state. Or it is shown why the jobs aren't run.
//!
//! The profiles are a safe set, but for the question `overlapping`: there some overlap.

use crate::random;
use anyhow::{Result, bail};
use hub_cert::{CheckFault, ProfileSet, Verified};
use hub_profile::Profile;
use hub_schedule::{cycles_for, simulate, simulate_jobs};
use hub_search::check;
use hub_state::State;
use std::alloc::{AllocError, Global};
use test_cases::{Case, left_text, verified_of};

/// The answer to a question about the jobs of the profiles.
pub(crate) fn answer(case: &Case, word: &str, fields: &str) -> Result<String> {
    let set = case.set()?;
    answer_of_set(case, &set, word, fields)
}

fn answer_of_set(case: &Case, set: &ProfileSet, word: &str, fields: &str) -> Result<String> {
    let state = case.state()?;
    if word == "overlapping" {
        return left_by_overlapping(case.alloc(), set, &state, fields);
    }
    answer_of_state(case.alloc(), set, &state, word, fields)
}

fn answer_of_state(
    alloc: Global,
    set: &ProfileSet,
    state: &State,
    word: &str,
    fields: &str,
) -> Result<String> {
    let verified = verified_of(alloc, set)?;
    match word {
        "turns" => left_by_turns(alloc, &verified, state, fields),
        "cycles" => left_in_cycles(alloc, &verified, state),
        "sequence" => left_in_sequence(alloc, &verified, state),
        "schedules" => random::answer(alloc, &verified, state, fields),
        _ => bail!("no question: {word}"),
    }
}

/// What a schedule of a set leaves in which profiles overlap: the numbers of the jobs, in the order of their turns.
fn left_by_overlapping(
    alloc: Global,
    set: &ProfileSet,
    state: &State,
    numbers: &str,
) -> Result<String> {
    if !is_overlapping(alloc, set) {
        bail!("no profiles overlap");
    }
    let schedule = numbers_of(alloc, numbers)?;
    let left = simulate_jobs(alloc, set.profiles(), state, schedule.as_slice());
    left_text(alloc, &left)
}

/// Returns whether profiles of the set overlap.
fn is_overlapping(alloc: Global, set: &ProfileSet) -> bool {
    matches!(check(alloc, set), Err(CheckFault::Overlap { .. }))
}

/// What a schedule leaves: the numbers of the jobs, in the order of their turns.
fn left_by_turns(
    alloc: Global,
    verified: &Verified<'_>,
    state: &State,
    numbers: &str,
) -> Result<String> {
    let schedule = numbers_of(alloc, numbers)?;
    left_by(alloc, verified, state, schedule.as_slice())
}

/// What the schedule of cycles leaves.
fn left_in_cycles(alloc: Global, verified: &Verified<'_>, state: &State) -> Result<String> {
    let schedule = cycles_for(alloc, verified.set().profiles(), state)?;
    left_by(alloc, verified, state, schedule.as_slice())
}

/// What the jobs leave if each has all of its turns before the next one has its first.
fn left_in_sequence(alloc: Global, verified: &Verified<'_>, state: &State) -> Result<String> {
    let schedule = one_after_the_other(alloc, verified.set().profiles(), state)?;
    left_by(alloc, verified, state, schedule.as_slice())
}

fn numbers_of(alloc: Global, fields: &str) -> Result<Vec<usize>> {
    let mut numbers = Vec::new(alloc);
    for number in fields.split_whitespace() {
        numbers.push(number.parse::<usize>()?)?;
    }
    Ok(numbers)
}

/// A schedule in which each job has all of its turns before the next one has its first. A job has as many as by the schedule
/// of cycles.
pub(crate) fn one_after_the_other(
    alloc: Global,
    profiles: &[Profile],
    state: &State,
) -> Result<Vec<usize>, AllocError> {
    let cycles = cycles_for(alloc, profiles, state)?;
    let turns = cycles.len().checked_div(profiles.len()).unwrap_or(0);
    let mut schedule = Vec::new(alloc);
    for job in 0..profiles.len() {
        push_turns(&mut schedule, job, turns)?;
    }
    Ok(schedule)
}

/// Gives a job so many turns.
fn push_turns(schedule: &mut Vec<usize>, job: usize, turns: usize) -> Result<(), AllocError> {
    for _ in 0..turns {
        schedule.push(job)?;
    }
    Ok(())
}

/// What a schedule of a safe set leaves.
fn left_by(
    alloc: Global,
    verified: &Verified<'_>,
    state: &State,
    schedule: &[usize],
) -> Result<String> {
    let left = simulate(alloc, verified, state, schedule);
    left_text(alloc, &left)
}
