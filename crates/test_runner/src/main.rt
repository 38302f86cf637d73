//! Answers questions about books, jobs and threads. `stdin` has the questions with their answers, which were worked out by
//! hand from the rules; so the program is a test of `hub_history` and `hub_runner`.
//!
//! The questions are written as `test_kit` says, but without abbreviations. A line of the input gives something to the questions
//! below it, or it is a question. What answers needs threads, so each line is taken here: `test_kit::Answers` has no place for that.
//!
//! These lines give something (`test_cases`):
//!
//! - `case` takes all away that was given.
//! - `profile NAME LEFT RIGHT LINES` gives one more profile, with these two roots. Its further lines are separated by `; `.
//! - `hubsync state 1` begins a state text, in place of the one before. Its other lines follow.
//!
//! These are questions:
//!
//! - `settle CHANGES`: what books and jobs leave, after the jobs were stepped one after the other, and changes were made
//!   (`settling`).
//! - `desk ROOT STEPS`: what steps at a desk are answered, and what the desk can be closed with (`desks`).
//! - `run WORKERS`: what the jobs leave that run at the same time (`runs`).
//! - `meet POINT WORKERS`: how many of two jobs come to a point of their first steps (`before`, `within` or `after`), how many of
//!   them wait there for the other one in vain (`meeting`), and what they leave.
//! - `inside WORKERS`: how many of two jobs are within their first steps at the same time at most, at one desk (`inside`), and what
//!   they leave.
//! - `crowd WORKERS`: how many jobs make a step at the same time, at most (`crowd`), and what the jobs leave.
//! - `row WORKERS`: how many steps a job makes in a row at most (`row`), and what the jobs leave.
//! - `watch WORKERS`: how a gate is called for each job (`watch`), and what the jobs leave, with their logs.
//! - `runs COUNT WORKERS`: whether so many runs leave what the jobs leave one after the other (`runs`).
#![tactic(auto)]

mod changes;
mod crowd;
mod desks;
mod inside;
mod meeting;
mod row;
mod runs;
mod settling;
mod watch;

use anyhow::Result;
use runs::Run;
use std::sync::Wait;
use std::thread::Threads;
use test_cases::Case;
use test_kit::{Cases, cut, for_each_line};

fn main(rt: HostRuntime) -> Result<()> {
    let mut case = Case::new(rt.alloc());
    let mut cases = Cases::new();
    for_each_line(&rt, |line| take_line(&rt, &mut case, &mut cases, line))?;
    cases.end(&rt)
}

/// Takes a line of the table.
fn take_line<R: Print + AllocGlobal + Threads + Wait + Sync>(
    rt: &R,
    case: &mut Case,
    cases: &mut Cases,
    line: &str,
) -> Result<()> {
    cases.take_line(rt, line, |question| answer_line(rt, case, question))
}

/// Takes a line that gives something, or answers a question.
fn answer_line<R: Threads + Wait + Sync>(
    rt: &R,
    case: &mut Case,
    line: &str,
) -> Result<Option<String>> {
    if takes(case, line)? {
        return Ok(None);
    }
    Ok(Some(answer(rt, case, line)?))
}

/// Takes a line if it gives something, and returns whether it does.
fn takes(case: &mut Case, line: &str) -> Result<bool> {
    match cut(line) {
        ("profile", fields) => take_profile(case, fields),
        _ => case.takes(line),
    }
}

/// Takes a profile: its name, its two roots, and its further lines.
fn take_profile(case: &mut Case, fields: &str) -> Result<bool> {
    let (name, fields) = cut(fields);
    let (left, fields) = cut(fields);
    case.add_profile(name, left, fields)?;
    Ok(true)
}

/// The answer to a question.
fn answer<R: Threads + Wait + Sync>(rt: &R, case: &Case, question: &str) -> Result<String> {
    let (word, fields) = cut(question);
    match word {
        "desk" => desks::answer(rt, case, fields),
        "settle" => settling::answer(case, fields),
        _ => runs::answer(rt, case, Run::read(word, fields)?),
    }
}
