//! A gate that counts the jobs that hold the lock of one desk at the same time.

use crate::meeting::{Meeting, Point};
use hub_history::Gate;
use std::sync::atomic::{AtomicBool, AtomicUsize, Ordering};
use std::thread;

/// How often a job looks, while it holds the lock, whether the other one is there too.
const TURNS: u32 = 20_000_000;

/// How many of jobs 0 and 1 are within their first steps at the same time, at most. Both steps are made at one desk. The jobs
/// meet before them, so that each could come while the other one is within.
#[derive(Drop)]
pub(crate) struct Inside {
    meeting: Meeting,
    came: [AtomicBool; 2],
    inside: AtomicUsize,
    most: AtomicUsize,
}

impl Inside {
    /// No job has come. So many workers step them.
    pub(crate) fn new(workers: usize) -> Inside {
        Inside {
            meeting: Meeting::new(Point::Before, workers),
            came: [AtomicBool::new(false), AtomicBool::new(false)],
            inside: AtomicUsize::new(0),
            most: AtomicUsize::new(0),
        }
    }

    /// The most jobs that were within their first steps at the same time.
    pub(crate) fn most(&self) -> usize {
        self.most.load(Ordering::SeqCst)
    }

    /// Returns whether this is the job's first call.
    fn is_first(&self, job: usize) -> bool {
        match self.came.get(job) {
            Some(own) => !own.swap(true, Ordering::SeqCst),
            None => false,
        }
    }

    /// Waits a while for the other job.
    fn wait(&self) {
        for turn in 0..TURNS {
            if self.most() > 1 {
                return;
            }
            if turn % 1_000 == 0 {
                thread::yield_now();
            }
        }
    }
}

impl Gate for Inside {
    fn before(&self, job: usize, step: usize) {
        self.meeting.before(job, step);
    }

    fn within(&self, job: usize) {
        if !self.is_first(job) {
            return;
        }
        let inside = self.inside.fetch_add(1, Ordering::SeqCst).saturating_add(1);
        self.most.fetch_max(inside, Ordering::SeqCst);
        self.wait();
        self.inside.fetch_sub(1, Ordering::SeqCst);
    }

    fn after(&self, _job: usize, _step: usize) {}

    fn ended(&self, _job: usize) {}
}
