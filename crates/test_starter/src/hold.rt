//! A job that waits until another one has ended.

use anyhow::Result;
use hub_history::Gate;
use std::alloc::Global;
use std::sync::atomic::{AtomicBool, Ordering};
use std::thread;
use test_kit::joined;

/// How often a job looks whether the other one has ended: for some seconds, in case other programs have the processors.
const PATIENCE: u32 = 4_000_000_000;

/// A gate at which a job waits before its first step until another one has ended.
#[derive(Drop)]
pub(crate) struct Hold {
    job: usize,
    until: usize,
    /// Which jobs have ended.
    ended: Vec<AtomicBool>,
    /// Which had ended when the job went on.
    found: Vec<AtomicBool>,
}

impl Hold {
    /// None of so many jobs has ended.
    pub(crate) fn new(alloc: Global, jobs: usize, job: usize, until: usize) -> Result<Hold> {
        Ok(Hold {
            job,
            until,
            ended: flags(alloc, jobs)?,
            found: flags(alloc, jobs)?,
        })
    }

    /// The numbers of the jobs that had ended when the job went on.
    pub(crate) fn text(&self, alloc: Global) -> Result<String> {
        let mut numbers = Vec::new(alloc);
        for (number, found) in self.found.as_slice().iter().enumerate() {
            if found.load(Ordering::SeqCst) {
                numbers.push(number)?;
            }
        }
        joined(alloc, numbers.as_slice(), " ", |number| {
            Ok(format!(in alloc; "{number}")?)
        })
    }

    /// Waits until the other job has ended.
    fn wait(&self) {
        for turn in 0..PATIENCE {
            if is_set(self.ended.as_slice(), self.until) {
                return;
            }
            if turn % 1_000 == 0 {
                thread::yield_now();
            }
        }
    }

    /// Notes which jobs have ended.
    fn look(&self) {
        for (ended, found) in self.ended.as_slice().iter().zip(self.found.as_slice()) {
            found.store(ended.load(Ordering::SeqCst), Ordering::SeqCst);
        }
    }
}

impl Gate for Hold {
    fn before(&self, job: usize, step: usize) {
        if job == self.job && step == 0 {
            self.wait();
            self.look();
        }
    }

    fn within(&self, _job: usize) {}

    fn after(&self, _job: usize, _step: usize) {}

    fn ended(&self, job: usize) {
        if let Some(ended) = self.ended.get(job) {
            ended.store(true, Ordering::SeqCst);
        }
    }
}

/// So many flags, none of which is set.
fn flags(alloc: Global, count: usize) -> Result<Vec<AtomicBool>> {
    let mut flags = Vec::new(alloc);
    for _ in 0..count {
        flags.push(AtomicBool::new(false))?;
    }
    Ok(flags)
}

/// Whether the flag of that number is there and set.
fn is_set(flags: &[AtomicBool], number: usize) -> bool {
    match flags.get(number) {
        Some(flag) => flag.load(Ordering::SeqCst),
        None => false,
    }
}
