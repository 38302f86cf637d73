//! Answers questions about jobs that run in order. `stdin` has the questions with their answers, which were worked out by hand
//! from the rules; so the program is a test of `hub_starter`.
//!
//! The questions are written as `test_kit` says, but without abbreviations. A line of the input gives something to the questions
//! below it, or it is a question. What answers needs threads, so each line is taken here: `test_kit::Answers` has no place for
//! that.
//!
//! These lines give something (`test_cases`):
//!
//! - `case` takes all away that was given.
//! - `profile NAME LEFT RIGHT LINES` gives one more profile, with these two roots. Its further lines are separated by `; `.
//! - `hubsync state 1` begins a state text, in place of the one before. Its other lines follow.
//!
//! These are questions:
//!
//! - `waves`: the wave of each job, or why there are none.
//! - `order WORKERS`: what the jobs leave that run in order.
//! - `orders COUNT WORKERS`: whether so many runs leave what the jobs leave one by one, each as a part of its own.
//! - `hold WORKERS JOB UNTIL`: which jobs have ended when the job of that number makes its first step, for which it waits until the
//!   other one has ended.
#![tactic(auto)]

mod hold;
mod orders;

use anyhow::Result;
use std::sync::Wait;
use std::thread::Threads;
use test_cases::Case;
use test_kit::{Cases, cut, for_each_line};

fn main(rt: HostRuntime) -> Result<()> {
    let mut case = Case::new(rt.alloc());
    let mut cases = Cases::new();
    for_each_line(&rt, |line| take_line(&rt, &mut case, &mut cases, line))?;
    cases.end(&rt)
}

/// Takes a line of the table.
fn take_line<R: Print + AllocGlobal + Threads + Wait + Sync>(
    rt: &R,
    case: &mut Case,
    cases: &mut Cases,
    line: &str,
) -> Result<()> {
    cases.take_line(rt, line, |question| answer_line(rt, case, question))
}

/// Takes a line that gives something, or answers a question.
fn answer_line<R: Threads + Wait + Sync>(
    rt: &R,
    case: &mut Case,
    line: &str,
) -> Result<Option<String>> {
    if takes(case, line)? {
        return Ok(None);
    }
    Ok(Some(orders::answer(rt, case, line)?))
}

/// Takes a line if it gives something, and returns whether it does.
fn takes(case: &mut Case, line: &str) -> Result<bool> {
    match cut(line) {
        ("profile", fields) => take_profile(case, fields),
        _ => case.takes(line),
    }
}

/// Takes a profile: its name, its two roots, and its further lines.
fn take_profile(case: &mut Case, fields: &str) -> Result<bool> {
    let (name, fields) = cut(fields);
    let (left, fields) = cut(fields);
    case.add_profile(name, left, fields)?;
    Ok(true)
}
