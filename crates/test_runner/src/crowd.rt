//! A gate that counts the jobs that make a step at the same time.

use hub_history::Gate;
use std::sync::atomic::{AtomicBool, AtomicUsize, Ordering};
use std::thread;

/// How often a job looks whether as many jobs make a step as there are workers: for some seconds, in case other programs have the
/// processors.
const PATIENCE: u32 = 4_000_000_000;

/// How often it then looks whether all jobs make one.
const TURNS: u32 = 20_000_000;

/// How many jobs make a step at the same time, at most. A step waits until as many jobs make one as there are workers, and then
/// a while for the others.
#[derive(Drop)]
pub(crate) struct Crowd {
    jobs: usize,
    workers: usize,
    inside: AtomicUsize,
    most: AtomicUsize,
    late: AtomicBool,
}

impl Crowd {
    /// None of so many jobs makes a step by so many workers.
    pub(crate) fn new(jobs: usize, workers: usize) -> Crowd {
        Crowd {
            jobs,
            workers: workers.min(jobs),
            inside: AtomicUsize::new(0),
            most: AtomicUsize::new(0),
            late: AtomicBool::new(false),
        }
    }

    /// The most jobs that have made a step at the same time.
    pub(crate) fn most(&self) -> usize {
        self.most.load(Ordering::SeqCst)
    }

    /// Waits until so many jobs have made a step at the same time. After one has looked so often in vain, none waits any more.
    fn wait_for(&self, jobs: usize, turns: u32) {
        for turn in 0..turns {
            if self.most() >= jobs || self.late.load(Ordering::SeqCst) {
                return;
            }
            if turn % 1_000 == 0 {
                thread::yield_now();
            }
        }
        self.late.store(true, Ordering::SeqCst);
    }
}

impl Gate for Crowd {
    fn before(&self, _job: usize, _step: usize) {
        let inside = self.inside.fetch_add(1, Ordering::SeqCst).saturating_add(1);
        self.most.fetch_max(inside, Ordering::SeqCst);
        self.wait_for(self.workers, PATIENCE);
        self.wait_for(self.jobs, TURNS);
    }

    fn within(&self, _job: usize) {}

    fn after(&self, _job: usize, _step: usize) {
        self.inside.fetch_sub(1, Ordering::SeqCst);
    }

    fn ended(&self, _job: usize) {}
}
