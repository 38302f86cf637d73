//! How answers show what jobs leave: how each job ended, with its log, and on further lines the text of the state.

use anyhow::Result;
use hub_job::{End, Entry, JobEnd, Op, Outcome, RunFault};
use hub_path::Root;
use hub_state::{State, write_state};
use hub_text::{Items, Watched};
use std::alloc::Global;
use std::str::from_utf8;
use test_kit::joined;

/// What jobs left, or why they weren't run.
pub fn left_text(alloc: Global, left: &Result<Outcome, RunFault>) -> Result<String> {
    match left {
        Ok(outcome) => outcome_text(alloc, outcome),
        Err(fault) => fault_text(alloc, fault),
    }
}

/// What jobs left.
pub fn outcome_text(alloc: Global, outcome: &Outcome) -> Result<String> {
    let jobs = jobs_text(alloc, outcome.jobs.as_slice())?;
    let state = state_text(alloc, &outcome.state)?;
    Ok(format!(in alloc; "{jobs}\n{state}")?)
}

fn jobs_text(alloc: Global, ends: &[JobEnd]) -> Result<String> {
    joined(alloc, ends, ", ", |end| job_text(alloc, end))
}

/// How a job ended, and its log. An entry is shown by its operation, as `l` for a Look, `f` for a Fetch and `s` for a Set, and
/// its job's number.
pub fn job_text(alloc: Global, job: &JobEnd) -> Result<String> {
    let mut text = String::from_str(alloc, end_word(job.end))?;
    for entry in job.log.as_slice() {
        let letter = letter_of(&entry.step.op);
        let number = entry.step.job;
        write!(text, " {letter}{number}")?;
    }
    Ok(text)
}

fn end_word(end: End) -> &'static str {
    match end {
        End::Finished => "finished",
        End::Stopped => "stopped",
        End::Unfinished => "unfinished",
    }
}

fn letter_of(op: &Op) -> char {
    match op {
        Op::Look(_) => 'l',
        Op::Fetch(_) => 'f',
        Op::Set(_, _) => 's',
    }
}

/// The text of a state.
pub fn state_text(alloc: Global, state: &State) -> Result<String> {
    let mut bytes = Vec::new(alloc);
    write_state(alloc, &mut Watched::new(&mut bytes), state)?;
    Ok(String::from_str(alloc, from_utf8(bytes.as_slice())?)?)
}

/// Why jobs weren't run.
fn fault_text(alloc: Global, fault: &RunFault) -> Result<String> {
    match fault {
        RunFault::MissingReplica { root } => Ok(format!(in alloc; "missing {}", root.as_str())?),
        RunFault::BadTurn { turn } => Ok(format!(in alloc; "bad turn {turn}")?),
        RunFault::Stranger { job } => Ok(format!(in alloc; "stranger {job}")?),
        RunFault::Mismatch {
            root,
            job,
            history,
            log,
        } => mismatch_text(alloc, root, *job, history, log),
        _ => Ok(format!(in alloc; "{fault:?}")?),
    }
}

/// What doesn't match: a job's entries in the history and those in its log, by their numbers, or a book.
fn mismatch_text(
    alloc: Global,
    root: &Root,
    job: Option<usize>,
    history: &Items<Entry>,
    log: &Items<Entry>,
) -> Result<String> {
    let root = root.as_str();
    let Some(job) = job else {
        return Ok(format!(in alloc; "{root} book")?);
    };
    let (history, log) = (history.len(), log.len());
    Ok(format!(in alloc; "{root} job {job}: {history} and {log}")?)
}
