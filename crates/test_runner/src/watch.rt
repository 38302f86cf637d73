//! A gate that writes its calls down.

use anyhow::Result;
use hub_history::Gate;
use std::alloc::{AllocError, Global};
use std::sync::{Mutex, Wait};

/// A gate that writes down how it is called for each job: `b` and the step for `before`, `w` for `within`, and `a` and the step
/// for `after`.
#[derive(Drop)]
pub(crate) struct Watch<'r, R> {
    rt: &'r R,
    /// The calls for each job, in their order.
    calls: Vec<Mutex<String>>,
}

impl<'r, R: Wait> Watch<'r, R> {
    /// Watches so many jobs.
    pub(crate) fn new(rt: &'r R, alloc: Global, jobs: usize) -> Result<Watch<'r, R>> {
        let mut calls = Vec::new(alloc);
        for _ in 0..jobs {
            calls.push(Mutex::new(String::new(alloc)))?;
        }
        Ok(Watch { rt, calls })
    }

    /// The calls for each job.
    pub(crate) fn text(&self, alloc: Global) -> Result<String> {
        let mut text = String::new(alloc);
        for (job, calls) in self.calls.as_slice().iter().enumerate() {
            let calls = calls.lock(self.rt);
            push_calls(&mut text, job, &calls)?;
        }
        Ok(text)
    }

    /// Writes a call down. One that finds no memory is left out.
    fn note(&self, job: usize, letter: char, step: Option<usize>) {
        if let Some(calls) = self.calls.get(job) {
            let mut calls = calls.lock(self.rt);
            let _noted = push_call(&mut calls, letter, step);
        }
    }
}

/// Adds the calls for a job.
fn push_calls(text: &mut String, job: usize, calls: &String) -> Result<()> {
    if job > 0 {
        text.push_str(",")?;
    }
    text.push_str(calls.as_str())?;
    Ok(())
}

/// Adds a call, and its step if it has one.
fn push_call(calls: &mut String, letter: char, step: Option<usize>) -> Result<(), AllocError> {
    match step {
        Some(step) => write!(calls, " {letter}{step}"),
        None => write!(calls, " {letter}"),
    }
}

impl<'r, R: Wait> Gate for Watch<'r, R> {
    fn before(&self, job: usize, step: usize) {
        self.note(job, 'b', Some(step));
    }

    fn within(&self, job: usize) {
        self.note(job, 'w', None);
    }

    fn after(&self, job: usize, step: usize) {
        self.note(job, 'a', Some(step));
    }

    fn ended(&self, _job: usize) {}
}
