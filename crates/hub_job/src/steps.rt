//! The steps of a job after its Looks.
ghost use Rattle.std.specs.Prelude.{◌≡◌, ◌≤◌, false, ◌++◌, length, IfOk, IsOk, OnOk};
ghost use Rattle.std.specs.List.{flat_map};
ghost use Rattle.hub_job.specs.Job as spec;
ghost use Rattle.hub_job.specs.Phase.{last_refused, next_step};

use crate::answer::Answer;
use crate::log::Logged;
use crate::op::Next;
use crate::step::Step;
use hub_reconcile::Change;
use hub_text::Items;
use hub_tree::Mark;
use std::alloc::{AllocError, Global};

/// The steps of a job's plan.
#[derive(Drop)]
pub(crate) struct Steps {
    /// All of them, in order.
    pub(crate) steps: Items<Step>,
    /// How many Looks were made. They are the first entries of the log, and steps are the others.
    pub(crate) looks: usize,
}

impl Steps {
    /// Returns what a job does after this log: the next step, unless the last answer is a refusal. It allocates only to ask.
    pub(crate) fn next(&self, log: &[Logged]) -> Result<Next, AllocError>
        requires { self.now.looks ≤ length log.now }
        ensures value { IfOk result (λ n. n ≡ next_step self.now log.now) }
        ensures memory { spec.is_ask (next_step self.now log.now) ≡ false → IsOk result }
    {
        if is_last_refused(log) {
            return Ok(Next::Stopped);
        }
        match self.steps.as_slice().get(log.len() - self.looks) {
            None => Ok(Next::Finished),
            Some(step) => Ok(Next::Ask(step.side, step.op(self.steps.alloc(), log)?)),
        }
    }
}

/// Returns whether the last answer of the log is a refusal.
fn is_last_refused(log: &[Logged]) -> bool
    ensures { result ≡ last_refused log.now }
{
    match log.last() {
        Some(entry) => is_refused(&entry.step.answer),
        None => false,
    }
}

/// Returns whether the answer is a refusal.
fn is_refused(answer: &Answer) -> bool
    ensures { result ≡ spec.is_refused answer.now }
{
    match answer {
        Answer::Refused(_) => true,
        Answer::Seen(_) | Answer::Bytes(_) | Answer::Done => false,
    }
}

/// Returns the steps of changes: a `Fetch` and a `Set` for each that makes a file, and a `Set` for each other one.
pub(crate) fn steps_of(alloc: Global, changes: Items<Change>) -> Result<Items<Step>, AllocError>
    ensures { IfOk result (λ ss. ss ≡ flat_map (λ c. spec.steps_of c.side c.path c.mark) changes) }
{
    let mut steps = Vec::new(alloc);
    for change in changes.into_vec() {
        push_steps(&mut steps, change)?;
    }
    Ok(Items::from_vec(steps))
}

/// Appends the steps of a change.
fn push_steps(steps: &mut Vec<Step>, change: Change) -> Result<(), AllocError>
    ensures { OnOk result (steps.new.items ≡ steps.old.items ++ spec.steps_for change) }
{
    let Change { side, path, mark } = change;
    if let Mark::File(_) = mark {
        steps.push(Step {
            side: side.other(),
            path: path.copy()?,
            fetches: true,
            mark,
        })?;
    }
    steps.push(Step {
        side,
        path,
        fetches: false,
        mark,
    })?;
    Ok(())
}
