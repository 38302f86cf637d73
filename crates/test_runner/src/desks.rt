//! Steps at a desk over an empty replica, and what the desk can be closed with.

use crate::settling::new_book;
use anyhow::{Context, Result, bail};
use hub_cert::ProfileSet;
use hub_history::{Desk, Gate, Seat, StepFault};
use hub_job::{Answer, Op};
use hub_path::Root;
use hub_text::Items;
use hub_tree::{Blob, Contents, Tree};
use std::alloc::Global;
use std::sync::Wait;
use std::sync::atomic::{AtomicU64, Ordering};
use test_cases::{Case, answer_text};
use test_kit::{cut, path_of};

/// A gate that counts its calls: 1 for each `within`, 1,000 for each other one.
#[derive(Drop)]
struct Counting {
    calls: AtomicU64,
}

impl Gate for Counting {
    fn before(&self, _job: usize, _step: usize) {
        self.calls.fetch_add(1_000, Ordering::SeqCst);
    }

    fn within(&self, _job: usize) {
        self.calls.fetch_add(1, Ordering::SeqCst);
    }

    fn after(&self, _job: usize, _step: usize) {
        self.calls.fetch_add(1_000, Ordering::SeqCst);
    }

    fn ended(&self, _job: usize) {}
}

/// What the steps are answered, how often the gate is called, and what the desk is closed with. The fields are a root and the
/// steps, which are separated by `; `. A step is the number of a job and an operation.
pub(crate) fn answer<R: Wait>(rt: &R, case: &Case, fields: &str) -> Result<String> {
    let (root, steps) = cut(fields);
    let root = Root::read(case.alloc(), root)?;
    answer_at(rt, case, &root, steps)
}

fn answer_at<R: Wait>(rt: &R, case: &Case, root: &Root, steps: &str) -> Result<String> {
    let set = case.set()?;
    answer_of_set(rt, case.alloc(), &set, root, steps)
}

fn answer_of_set<R: Wait>(
    rt: &R,
    alloc: Global,
    set: &ProfileSet,
    root: &Root,
    steps: &str,
) -> Result<String> {
    let mut text = String::new(alloc);
    let strangers = seats_of_other(alloc, set, root)?;
    push_all(rt, &mut text, set, root, strangers, steps)?;
    Ok(text)
}

/// The seats of another desk.
fn seats_of_other(alloc: Global, set: &ProfileSet, root: &Root) -> Result<Items<Seat>> {
    let (_, seats) = desk_of(alloc, set, root)?;
    Ok(Items::from_vec(seats))
}

/// Opens a desk, makes the steps, and closes it.
fn push_all<R: Wait>(
    rt: &R,
    text: &mut String,
    set: &ProfileSet,
    root: &Root,
    strangers: Items<Seat>,
    steps: &str,
) -> Result<()> {
    let (desk, mut seats) = desk_of(strangers.alloc(), set, root)?;
    push_steps(rt, strangers.alloc(), text, &desk, &mut seats, steps)?;
    push_closing(text, desk, Items::from_vec(seats), strangers)
}

/// A desk over an empty replica, with one seat.
fn desk_of<'a>(alloc: Global, set: &'a ProfileSet, root: &Root) -> Result<(Desk<'a>, Vec<Seat>)> {
    let book = new_book(alloc, set, root, Tree::new(alloc))?;
    match Desk::new(alloc, book, 1) {
        Ok((desk, seats)) => Ok((desk, seats.into_vec())),
        Err(_) => bail!("no desk"),
    }
}

/// Makes the steps, and adds their answers and the number of the gate's calls to the text.
fn push_steps<R: Wait>(
    rt: &R,
    alloc: Global,
    text: &mut String,
    desk: &Desk<'_>,
    seats: &mut Vec<Seat>,
    steps: &str,
) -> Result<()> {
    let seat = seats.get_mut(0).context("no seat")?;
    let gate = Counting {
        calls: AtomicU64::new(0),
    };
    for step in steps.split("; ") {
        push_step(rt, alloc, text, desk, seat, &gate, step)?;
    }
    let calls = gate.calls.load(Ordering::SeqCst);
    write!(text, "gate {calls}; seat {}", seat.steps())?;
    Ok(())
}

/// Makes a step, and adds its answer.
fn push_step<R: Wait>(
    rt: &R,
    alloc: Global,
    text: &mut String,
    desk: &Desk<'_>,
    seat: &mut Seat,
    gate: &Counting,
    step: &str,
) -> Result<()> {
    let (job, fields) = cut(step);
    let job = job.parse::<usize>()?;
    let op = op_of(alloc, fields)?;
    let answer = desk.step(rt, seat, job, op, gate);
    push_told(alloc, text, &answer)
}

/// The operation of a word, a path, and the text of a file to write.
fn op_of(alloc: Global, fields: &str) -> Result<Op> {
    let (word, fields) = cut(fields);
    let (path, file) = cut(fields);
    let path = path_of(alloc, path)?;
    match word {
        "look" => Ok(Op::Look(path)),
        "fetch" => Ok(Op::Fetch(path)),
        "mkdir" => Ok(Op::Set(path, Contents::Directory)),
        "remove" => Ok(Op::Set(path, Contents::Absent)),
        "write" => Ok(Op::Set(path, file_of(alloc, file)?)),
        _ => bail!("no operation: {word}"),
    }
}

fn file_of(alloc: Global, text: &str) -> Result<Contents> {
    Ok(Contents::File(Blob::new(text.as_bytes().to_vec(alloc)?)?))
}

/// Adds what the desk answers to a step.
fn push_told(alloc: Global, text: &mut String, answer: &Result<Answer, StepFault>) -> Result<()> {
    match answer {
        Ok(answer) => text.push_str(answer_text(alloc, answer)?.as_str())?,
        Err(fault) => write!(text, "{fault:?}")?,
    }
    text.push_str("; ")?;
    Ok(())
}

/// Adds what the desk says to no seat and to the seats of another desk, and the history that it closes with.
fn push_closing(
    text: &mut String,
    desk: Desk<'_>,
    seats: Items<Seat>,
    strangers: Items<Seat>,
) -> Result<()> {
    let none = Items::new(seats.alloc());
    let desk = push_refusal(text, desk, none)?;
    let desk = push_refusal(text, desk, strangers)?;
    push_history(text, desk, seats)
}

/// Adds the history that the desk closes with.
fn push_history(text: &mut String, desk: Desk<'_>, seats: Items<Seat>) -> Result<()> {
    match desk.close(seats) {
        Ok(book) => write!(text, "; history of {}", book.history().len())?,
        Err(_) => bail!("not closed"),
    }
    Ok(())
}

/// Adds what the desk says to these seats: how many they are, and how many of the entries they account for.
fn push_refusal<'a>(text: &mut String, desk: Desk<'a>, seats: Items<Seat>) -> Result<Desk<'a>> {
    match desk.close(seats) {
        Ok(_) => bail!("closed"),
        Err(stranger) => {
            let (seats, counted) = (stranger.seats.len(), stranger.counted);
            write!(text, "; {seats} seats: {counted} of {}", stranger.entries)?;
            Ok(stranger.desk)
        }
    }
}
