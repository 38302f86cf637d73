//! Random schedules: whatever the order of the turns, the jobs leave what they leave one after the other.

use crate::schedules::one_after_the_other;
use anyhow::{Result, bail};
use hub_cert::Verified;
use hub_job::{Outcome, RunFault};
use hub_schedule::{cycles_for, simulate};
use hub_state::State;
use std::alloc::{AllocError, Global};
use test_cases::state_text;
use test_kit::cut;

/// How many turns are random. Those of the schedule of cycles follow, so that each job has enough.
const RANDOM_TURNS: usize = 120;

/// A linear congruential generator, with Knuth's constants for 64 bits.
#[derive(Drop)]
struct Dice {
    bits: usize,
    /// How many jobs there are.
    jobs: usize,
}

impl Dice {
    /// The number of a job.
    fn throw(&mut self) -> usize {
        let product = self.bits.wrapping_mul(6364136223846793005);
        self.bits = product.wrapping_add(1442695040888963407);
        (self.bits >> 33).checked_rem(self.jobs).unwrap_or(0)
    }
}

/// Returns whether so many random schedules leave what the jobs leave one after the other. If one does not, what it leaves. The fields
/// are their number and the seed of the numbers.
pub(crate) fn answer(
    alloc: Global,
    verified: &Verified<'_>,
    state: &State,
    fields: &str,
) -> Result<String> {
    let (count, seed) = cut(fields);
    let mut dice = Dice {
        bits: seed.parse::<usize>()?,
        jobs: verified.set().profiles().len(),
    };
    let want = left_in_sequence(alloc, verified, state)?;
    compared(
        alloc,
        verified,
        state,
        count.parse::<usize>()?,
        &mut dice,
        want.as_str(),
    )
}

fn compared(
    alloc: Global,
    verified: &Verified<'_>,
    state: &State,
    count: usize,
    dice: &mut Dice,
    want: &str,
) -> Result<String> {
    for number in 0..count {
        let text = left_by_chance(alloc, verified, state, dice)?;
        if text.as_str() != want {
            return Ok(format!(in alloc; "schedule {number} leaves\n{text}")?);
        }
    }
    Ok(format!(in alloc; "{count} leave what the sequence leaves")?)
}

/// What the jobs leave one after the other.
fn left_in_sequence(alloc: Global, verified: &Verified<'_>, state: &State) -> Result<String> {
    let sequence = one_after_the_other(alloc, verified.set().profiles(), state)?;
    left_text(
        alloc,
        &simulate(alloc, verified, state, sequence.as_slice()),
    )
}

/// What a random schedule leaves.
fn left_by_chance(
    alloc: Global,
    verified: &Verified<'_>,
    state: &State,
    dice: &mut Dice,
) -> Result<String> {
    let cycles = cycles_for(alloc, verified.set().profiles(), state)?;
    let schedule = random_schedule(alloc, dice, cycles.as_slice())?;
    left_text(
        alloc,
        &simulate(alloc, verified, state, schedule.as_slice()),
    )
}

/// A schedule that begins with random turns.
fn random_schedule(
    alloc: Global,
    dice: &mut Dice,
    cycles: &[usize],
) -> Result<Vec<usize>, AllocError> {
    let mut schedule = Vec::new(alloc);
    for _ in 0..RANDOM_TURNS {
        schedule.push(dice.throw())?;
    }
    schedule.extend_from_slice(cycles)?;
    Ok(schedule)
}

/// All that a schedule leaves.
fn left_text(alloc: Global, left: &Result<Outcome, RunFault>) -> Result<String> {
    match left {
        Ok(outcome) => whole_text(alloc, outcome),
        Err(fault) => bail!("{fault:?}"),
    }
}

/// The text of the state, and how each job ended, with its items and its log.
fn whole_text(alloc: Global, outcome: &Outcome) -> Result<String> {
    let mut text = state_text(alloc, &outcome.state)?;
    for job in outcome.jobs.as_slice() {
        write!(text, "{job:?}\n")?;
    }
    Ok(text)
}
