//! What a progress hears while an answer is found.

use crate::devices::Pieces;
use anyhow::Result;
use hub_serve::{Progress, serve};
use hub_text::Watched;
use std::alloc::Global;
use std::io;
use std::io::{Eprint, ErrorKind, Write};
use std::sync::Wait;
use std::sync::atomic::{AtomicUsize, Ordering};
use std::thread::Threads;

/// Counts what it hears.
#[derive(Drop)]
struct Told {
    /// How often it was told of a goal, and how many goals there are.
    goals: [AtomicUsize; 2],
    /// How often it was told of a job, and how many jobs are run at the same time.
    jobs: [AtomicUsize; 2],
    /// How often it was told that it is over.
    over: AtomicUsize,
}

impl Told {
    /// It was told nothing.
    fn new() -> Told {
        Told {
            goals: [AtomicUsize::new(0), AtomicUsize::new(0)],
            jobs: [AtomicUsize::new(0), AtomicUsize::new(0)],
            over: AtomicUsize::new(0),
        }
    }

    /// Shows what it was told.
    fn shown(&self, alloc: Global) -> Result<String> {
        let goals = counted(alloc, &self.goals)?;
        let jobs = counted(alloc, &self.jobs)?;
        let over = self.over.load(Ordering::SeqCst);
        Ok(format!(in alloc; "goals {goals}, jobs {jobs}, over {over}")?)
    }
}

/// Counts a call that tells of so many.
fn count(counts: &[AtomicUsize; 2], of: usize) {
    counts[0].fetch_add(1, Ordering::SeqCst);
    counts[1].fetch_max(of, Ordering::SeqCst);
}

/// How many calls there were, and of how many they told at most.
fn counted(alloc: Global, counts: &[AtomicUsize; 2]) -> Result<String> {
    let calls = counts[0].load(Ordering::SeqCst);
    let of = counts[1].load(Ordering::SeqCst);
    Ok(format!(in alloc; "{calls} of {of}")?)
}

impl Progress for Told {
    fn goals(&self, _done: usize, of: usize) {
        count(&self.goals, of);
    }

    fn jobs(&self, _done: usize, of: usize) {
        count(&self.jobs, of);
    }

    fn over(&self) {
        self.over.fetch_add(1, Ordering::SeqCst);
    }
}

/// Takes all that is written once the progress is over. A write before that fails.
#[derive(Drop)]
struct AfterAll<'a> {
    told: &'a Told,
}

impl<'a> Write for AfterAll<'a> {
    fn write(&mut self, buf: &[u8]) -> io::Result<usize> {
        if self.told.over.load(Ordering::SeqCst) == 0 {
            return Err(io::Error::from(ErrorKind::Other));
        }
        Ok(buf.len())
    }

    fn flush(&mut self) -> io::Result<()> {
        Ok(())
    }
}

/// The status, and what a progress hears. The status is 2 if something is written before the progress is over.
pub(crate) fn answer<T: AllocGlobal + Eprint + Threads + Wait + Sync>(
    rt: &T,
    words: &str,
    text: &[u8],
) -> Result<String> {
    let words: Vec<&str> = words.split(' ').collect(rt.alloc())?;
    let told = Told::new();
    let mut input = Watched::new(Pieces::new(text, usize::MAX, 0));
    let mut output = Watched::new(AfterAll { told: &told });
    let status = serve(rt, words.as_slice(), &mut input, &mut output, &told);
    let told = told.shown(rt.alloc())?;
    Ok(format!(in rt.alloc(); "{status} {told}")?)
}
