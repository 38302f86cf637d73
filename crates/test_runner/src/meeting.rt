//! Two jobs that meet: each of them waits at its first step until the other one is at its own.

use anyhow::{Result, bail};
use hub_history::Gate;
use std::sync::atomic::{AtomicBool, AtomicUsize, Ordering};
use std::thread;

/// How often a job looks for the other one if there are several workers: for some seconds, in case other programs have the
/// processors. It is late if it doesn't come.
const PATIENCE: u32 = 4_000_000_000;

/// How often a job looks for the other one if there is one worker.
const TURNS: u32 = 50_000_000;

/// When jobs meet.
#[derive(Clone, Copy)]
pub(crate) enum Point {
    /// Before their first steps.
    Before,
    /// In them, while each holds the lock of a desk.
    Within,
    /// After them.
    After,
}

impl Point {
    pub(crate) fn read(word: &str) -> Result<Point> {
        match word {
            "before" => Ok(Point::Before),
            "within" => Ok(Point::Within),
            "after" => Ok(Point::After),
            _ => bail!("no point: {word}"),
        }
    }
}

/// A gate at which jobs 0 and 1 meet.
#[derive(Drop)]
pub(crate) struct Meeting {
    here: [AtomicBool; 2],
    late: AtomicUsize,
    point: Point,
    turns: u32,
}

impl Meeting {
    /// No job has come. So many workers step them.
    pub(crate) fn new(point: Point, workers: usize) -> Meeting {
        Meeting {
            here: [AtomicBool::new(false), AtomicBool::new(false)],
            late: AtomicUsize::new(0),
            point,
            turns: if workers > 1 { PATIENCE } else { TURNS },
        }
    }

    /// How many jobs came.
    pub(crate) fn came(&self) -> usize {
        let [first, second] = &self.here;
        usize::from(first.load(Ordering::SeqCst)) + usize::from(second.load(Ordering::SeqCst))
    }

    /// How many of them waited in vain.
    pub(crate) fn late(&self) -> usize {
        self.late.load(Ordering::SeqCst)
    }

    /// Waits for the other job, if this is the job's first call.
    fn meet(&self, job: usize) {
        let (Some(own), Some(other)) = (self.here.get(job), self.here.get(1 - job.min(1))) else {
            return;
        };
        if own.swap(true, Ordering::SeqCst) {
            return;
        }
        for turn in 0..self.turns {
            if other.load(Ordering::SeqCst) {
                return;
            }
            if turn % 1_000 == 0 {
                thread::yield_now();
            }
        }
        self.late.fetch_add(1, Ordering::SeqCst);
    }
}

impl Gate for Meeting {
    fn before(&self, job: usize, _step: usize) {
        if matches!(self.point, Point::Before) {
            self.meet(job);
        }
    }

    fn within(&self, job: usize) {
        if matches!(self.point, Point::Within) {
            self.meet(job);
        }
    }

    fn after(&self, job: usize, _step: usize) {
        if matches!(self.point, Point::After) {
            self.meet(job);
        }
    }

    fn ended(&self, _job: usize) {}
}
