//! Steps of a job of the first profile, on copies of the two replicas that the state text says:
//!
//! - `turn`: what it does next.
//! - `go`: the same after one turn more, and then it takes the answer of its replica.
//! - `refuse`: what it does next. If that is a Set, it takes the answer `NoParent`.
//! - `stop` stops it.
//! - `log`: how many entries its log has.
//! - `number`: its number.
//!
//! What it asks is shown as a side, `look` or `fetch`, and a path. A Set is shown by what it makes: `file`, `directory` or
//! `absent`. Behind the answers to the steps stands how the job ended, with its log (`test_cases::job_text`), its items, and the paths
//! of the next archive. These are separated by ` | `.

use crate::given::first_of;
use crate::shown::{archive_text, items_text, next_text};
use anyhow::{Context, Result, bail};
use hub_cert::ProfileSet;
use hub_job::{Answer, Job, JobEnd, Next, Op, OpFault, perform};
use hub_path::{Root, Side};
use hub_profile::Profile;
use hub_state::State;
use hub_tree::{Archive, Tree};
use std::alloc::Global;
use test_cases::{Case, job_text};
use test_kit::{cut, shown};

/// The two replicas of a job.
#[derive(Drop)]
struct Replicas {
    left: Tree,
    right: Tree,
}

/// What a job does by these steps, and how it ends.
pub(crate) fn answer(case: &Case, fields: &str) -> Result<String> {
    let set = case.set()?;
    answer_of_set(case, &set, fields)
}

fn answer_of_set(case: &Case, set: &ProfileSet, fields: &str) -> Result<String> {
    let profile = first_of(set)?;
    let state = case.state()?;
    answer_in(case.alloc(), profile, &state, fields)
}

/// A pair of roots that the state has no archive for gets the empty one.
fn answer_in(alloc: Global, profile: &Profile, state: &State, fields: &str) -> Result<String> {
    let empty = Archive::new(alloc);
    let [left, right] = profile.roots();
    let archive = state.archive(left, right).unwrap_or(&empty);
    answer_with(alloc, profile, state, archive, fields)
}

fn answer_with(
    alloc: Global,
    profile: &Profile,
    state: &State,
    archive: &Archive,
    fields: &str,
) -> Result<String> {
    let (number, steps) = cut(fields);
    let number = number.parse::<usize>()?;
    let mut job = Job::new(alloc, number, profile, archive)?;
    let answers = answers_of(alloc, &mut job, profile, state, steps)?;
    end_text(alloc, job, answers.as_str())
}

/// The answers to steps.
fn answers_of(
    alloc: Global,
    job: &mut Job<'_>,
    profile: &Profile,
    state: &State,
    steps: &str,
) -> Result<String> {
    let mut replicas = replicas_of(state, profile)?;
    let mut answers = Vec::new(alloc);
    for step in steps.split("; ") {
        answers.push(take_step(alloc, job, profile, &mut replicas, step)?)?;
    }
    Ok(answers.as_slice().join(alloc, "; ")?)
}

/// Copies of the two replicas of a profile.
fn replicas_of(state: &State, profile: &Profile) -> Result<Replicas> {
    let [left, right] = profile.roots();
    Ok(Replicas {
        left: replica_of(state, left)?,
        right: replica_of(state, right)?,
    })
}

/// A copy of the replica of a root.
fn replica_of(state: &State, root: &Root) -> Result<Tree> {
    let replica = state.replica(root).context("a replica is missing")?;
    Ok(replica.copy()?)
}

/// How a job ends, after the answers to its steps.
fn end_text(alloc: Global, job: Job<'_>, answers: &str) -> Result<String> {
    let (end, archive) = job.end()?;
    ended_text(alloc, answers, &end, &archive)
}

fn ended_text(
    alloc: Global,
    answers: &str,
    end: &JobEnd,
    archive: &Option<Archive>,
) -> Result<String> {
    let job = job_text(alloc, end)?;
    let items = items_text(alloc, end.items.as_slice())?;
    let archive = archive_text(alloc, archive)?;
    Ok(format!(in alloc; "{answers} | {job} | {items} | {archive}")?)
}

/// The answer to a step.
fn take_step(
    alloc: Global,
    job: &mut Job<'_>,
    profile: &Profile,
    replicas: &mut Replicas,
    step: &str,
) -> Result<String> {
    match step {
        "turn" => take_turn(alloc, job),
        "go" => go(alloc, job, profile, replicas),
        "refuse" => refuse(alloc, job),
        "stop" => stop(alloc, job),
        "log" => shown(alloc, &job.log().len()),
        "number" => shown(alloc, &job.number()),
        _ => bail!("no step: {step}"),
    }
}

/// Lets a job have a turn.
fn take_turn(alloc: Global, job: &mut Job<'_>) -> Result<String> {
    let next = job.turn();
    next_text(alloc, &next)
}

/// Lets a job have a turn, twice, and gives it the answer of its replica if it asks.
fn go(
    alloc: Global,
    job: &mut Job<'_>,
    profile: &Profile,
    replicas: &mut Replicas,
) -> Result<String> {
    let _text = take_turn(alloc, job)?;
    serve(alloc, job, profile, &mut replicas.left, &mut replicas.right)
}

/// Lets a job have a turn, and gives it the answer of its replica if it asks.
fn serve(
    alloc: Global,
    job: &mut Job<'_>,
    profile: &Profile,
    left: &mut Tree,
    right: &mut Tree,
) -> Result<String> {
    let next = job.turn();
    if let Next::Ask(side, op) = &next {
        let roots = profile.roots();
        let answer = match side {
            Side::Left => perform(alloc, profile, &roots[0], left, op)?,
            Side::Right => perform(alloc, profile, &roots[1], right, op)?,
        };
        job.take(answer);
    }
    next_text(alloc, &next)
}

/// Lets a job have a turn, and refuses a Set.
fn refuse(alloc: Global, job: &mut Job<'_>) -> Result<String> {
    let next = job.turn();
    if let Next::Ask(_, Op::Set(_, _)) = &next {
        job.take(Answer::Refused(OpFault::NoParent));
    }
    next_text(alloc, &next)
}

/// Stops a job.
fn stop(alloc: Global, job: &mut Job<'_>) -> Result<String> {
    job.stop();
    Ok(String::from_str(alloc, "ok")?)
}
