//! How far an answer is.
use hub_history::Gate;
use std::sync::atomic::{AtomicUsize, Ordering};

/// What a caller does while an answer is found, as show how far it is. It changes nothing of the answer.
pub trait Progress {
    /// Called before each goal of a check. The first `done` of the `of` goals are ruled out.
    fn goals(&self, done: usize, of: usize);

    /// Called by a worker once a job has ended. That are `done` of the `of` jobs that are run at the same time. Calls may come in
    /// another order than their numbers.
    fn jobs(&self, done: usize, of: usize);

    /// Called once before the answer is written.
    fn over(&self);
}

/// A progress that does nothing.
#[derive(Clone, Copy, Debug)]
pub struct NoProgress;

impl Progress for NoProgress {
    fn goals(&self, _done: usize, _of: usize) {}

    fn jobs(&self, _done: usize, _of: usize) {}

    fn over(&self) {}
}

/// Tells a progress of the goals of a check.
#[derive(Drop)]
pub(crate) struct Goals<'a, P> {
    /// The progress.
    pub(crate) progress: &'a P,
}

impl<'a, P: Progress> hub_search::CheckProgress for Goals<'a, P> {
    fn goal(&self, done: usize, of: usize) {
        self.progress.goals(done, of);
    }
}

/// Tells a progress of the jobs of a run.
#[derive(Drop)]
pub(crate) struct Jobs<'a, P> {
    progress: &'a P,
    of: usize,
    ended: AtomicUsize,
}

impl<'a, P: Progress> Jobs<'a, P> {
    /// So many jobs will be run. None has ended.
    pub(crate) fn new(progress: &'a P, of: usize) -> Jobs<'a, P> {
        Jobs {
            progress,
            of,
            ended: AtomicUsize::new(0),
        }
    }
}

impl<'a, P: Progress> Gate for Jobs<'a, P> {
    fn before(&self, _job: usize, _step: usize) {}

    fn within(&self, _job: usize) {}

    fn after(&self, _job: usize, _step: usize) {}

    fn ended(&self, _job: usize) {
        let before = self.ended.fetch_add(1, Ordering::SeqCst);
        self.progress.jobs(before.saturating_add(1), self.of);
    }
}
