//! A gate that counts the steps that a job makes in a row.

use hub_history::Gate;
use std::sync::atomic::{AtomicUsize, Ordering};

/// How many steps a job has made in a row, at most.
#[derive(Drop)]
pub(crate) struct Row {
    /// The job that made the last step.
    last: AtomicUsize,
    /// How many steps it has made since another job made one.
    count: AtomicUsize,
    most: AtomicUsize,
}

impl Row {
    /// No job has made a step.
    pub(crate) fn new() -> Row {
        Row {
            last: AtomicUsize::new(usize::MAX),
            count: AtomicUsize::new(0),
            most: AtomicUsize::new(0),
        }
    }

    /// The most steps that a job has made in a row.
    pub(crate) fn most(&self) -> usize {
        self.most.load(Ordering::SeqCst)
    }
}

impl Gate for Row {
    fn before(&self, _job: usize, _step: usize) {}

    fn within(&self, _job: usize) {}

    fn after(&self, job: usize, _step: usize) {
        if self.last.swap(job, Ordering::SeqCst) != job {
            self.count.store(0, Ordering::SeqCst);
        }
        let count = self.count.load(Ordering::SeqCst).saturating_add(1);
        self.count.store(count, Ordering::SeqCst);
        if count > self.most.load(Ordering::SeqCst) {
            self.most.store(count, Ordering::SeqCst);
        }
    }

    fn ended(&self, _job: usize) {}
}
