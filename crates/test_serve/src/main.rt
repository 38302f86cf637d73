//! Asks `hub_serve` through readers and writers of its own. `stdin` has the questions with their answers, which were worked
//! out by hand from the rules; so the program is a test of what `serve` does with inputs that come in pieces, don't end or fail, and
//! with outputs that take little, nothing or fail.
//!
//! The questions are written as `test_kit` says, but without abbreviations. `serve` may wait for threads, so each line is taken
//! here: `test_kit::Answers` has no place for that.
//!
//! A line `input TEXT` gives the input of the questions below it. The TEXT may have escapes. WORDS are those of the command line.
//! These are questions:
//!
//! - `ask WORDS`: what is written. It is the same for each size of the pieces in which the input comes (`reading`).
//! - `failing_reads SIZE WORDS`: how many reads of so many bytes there are, and what is written if any one of them fails.
//! - `failing_writes SIZE WORDS`: how many calls the output gets if it takes so many bytes at a time, and the status if any one of
//!   them fails (`writing`).
//! - `blanks COUNT SIZE`: how often so many blanks are read, if they come in pieces of that size, and what is written.
//! - `endless SIZE`: the same for blanks that don't end.
//! - `progress WORDS`: the status, and how often a progress hears of goals, of jobs, and that it is over (`progress`). The last
//!   comes once, before all that is written.
//!
//! An answer is its status and its first three lines. `..` stands for further ones.
#![tactic(auto)]

mod devices;
mod progress;
mod reading;
mod shown;
mod writing;

use anyhow::{Result, bail};
use std::io::Eprint;
use std::sync::Wait;
use std::thread::Threads;
use test_kit::{Cases, bytes_of, cut, for_each_line};

fn main(rt: HostRuntime) -> Result<()> {
    let mut text = Vec::new(rt.alloc());
    let mut cases = Cases::new();
    for_each_line(&rt, |line| take_line(&rt, &mut text, &mut cases, line))?;
    cases.end(&rt)
}

/// Takes a line of the table.
fn take_line<R: AllocGlobal + Print + Eprint + Threads + Wait + Sync>(
    rt: &R,
    text: &mut Vec<u8>,
    cases: &mut Cases,
    line: &str,
) -> Result<()> {
    cases.take_line(rt, line, |question| answer_line(rt, text, question))
}

/// Takes the text of the input, or answers a question.
fn answer_line<R: AllocGlobal + Eprint + Threads + Wait + Sync>(
    rt: &R,
    text: &mut Vec<u8>,
    line: &str,
) -> Result<Option<String>> {
    let (word, fields) = cut(line);
    if word == "input" {
        *text = bytes_of(rt.alloc(), fields)?;
        return Ok(None);
    }
    Ok(Some(answer(rt, text.as_slice(), word, fields)?))
}

/// The answer to a question about an input.
fn answer<R: AllocGlobal + Eprint + Threads + Wait + Sync>(
    rt: &R,
    text: &[u8],
    word: &str,
    fields: &str,
) -> Result<String> {
    let (first, rest) = cut(fields);
    match word {
        "ask" => reading::answer(rt, fields, text),
        "failing_reads" => reading::failing(rt, first.parse::<usize>()?, rest, text),
        "failing_writes" => writing::failing(rt, first.parse::<usize>()?, rest, text),
        "blanks" => reading::blanks(rt, first.parse::<usize>()?, rest.parse::<usize>()?),
        "progress" => progress::answer(rt, fields, text),
        "endless" => reading::blanks(rt, usize::MAX, first.parse::<usize>()?),
        _ => bail!("no question: {word}"),
    }
}
