//! Jobs that wait until others have ended.

use crate::append::push;
use crate::pairs::JobPair;
use crate::worker::QueuedJob;
use std::alloc::{AllocError, Global};

/// Jobs by number, some of which wait. A job is free once each job has ended that stands before it in a pair.
///
/// Of the jobs that haven't ended the one with the lowest number is free. So all of them are taken in the end.
#[derive(Drop)]
pub(crate) struct Queue<'a> {
    /// The places of the numbers from 0 on.
    places: Vec<Place<'a>>,
    /// How many jobs were put in.
    jobs: usize,
}

/// The place of a job.
#[derive(Drop)]
struct Place<'a> {
    /// The job, until it is taken.
    job: Option<QueuedJob<'a>>,
    /// How many jobs must still end before it. One that stands in two pairs with it counts twice.
    awaited: usize,
    /// The numbers of the jobs that wait for it, once for each pair.
    later: Vec<usize>,
}

impl<'a> Queue<'a> {
    /// Puts jobs into a queue, whose numbers are below `count`. A pair of which a job isn't there counts for nothing.
    pub(crate) fn new(
        alloc: Global,
        count: usize,
        jobs: Vec<QueuedJob<'a>>,
        pairs: &[JobPair],
    ) -> Result<Queue<'a>, AllocError> {
        let places = empty_places(alloc, count)?;
        let mut queue = Queue { places, jobs: 0 };
        for job in jobs {
            queue.put(job);
        }
        queue.put_pairs(pairs)?;
        Ok(queue)
    }

    /// Puts a job in its place. One without a place is dropped.
    fn put(&mut self, job: QueuedJob<'a>) {
        if let Some(place) = self.places.get_mut(job.job.number()) {
            place.job = Some(job);
            self.jobs = self.jobs.saturating_add(1);
        }
    }

    /// Lets the later job of each pair wait for the earlier one.
    fn put_pairs(&mut self, pairs: &[JobPair]) -> Result<(), AllocError> {
        for pair in pairs {
            if pair.earlier < pair.later && self.has(pair.earlier) && self.has(pair.later) {
                self.put_pair(pair.earlier, pair.later)?;
            }
        }
        Ok(())
    }

    /// Lets a job wait for another one.
    fn put_pair(&mut self, earlier: usize, later: usize) -> Result<(), AllocError> {
        if let Some(place) = self.places.get_mut(earlier) {
            place.later.push(later)?;
        }
        if let Some(place) = self.places.get_mut(later) {
            place.awaited = place.awaited.saturating_add(1);
        }
        Ok(())
    }

    /// Returns whether a job of that number is there.
    fn has(&self, number: usize) -> bool {
        match self.places.get(number) {
            Some(place) => place.job.is_some(),
            None => false,
        }
    }

    /// Returns how many jobs were put in.
    pub(crate) fn jobs(&self) -> usize {
        self.jobs
    }

    /// Returns how many numbers have a place.
    pub(crate) fn count(&self) -> usize {
        self.places.len()
    }

    /// Takes the job of that number, if it is there and free.
    pub(crate) fn take_free(&mut self, number: usize) -> Option<QueuedJob<'a>> {
        let place = self.places.get_mut(number)?;
        if place.awaited > 0 {
            return None;
        }
        place.job.take()
    }

    /// Returns how many pairs the job of that number is the earlier one of.
    pub(crate) fn later_count(&self, number: usize) -> usize {
        match self.places.get(number) {
            Some(place) => place.later.len(),
            None => 0,
        }
    }

    /// The job of that number has ended, for its pair `i`: takes the later job, if it is free now.
    pub(crate) fn take_later(&mut self, ended: usize, i: usize) -> Option<QueuedJob<'a>> {
        let later = *self.places.get(ended)?.later.get(i)?;
        let place = self.places.get_mut(later)?;
        place.awaited = place.awaited.saturating_sub(1);
        self.take_free(later)
    }
}

/// Makes so many places, each empty.
fn empty_places<'a>(alloc: Global, count: usize) -> Result<Vec<Place<'a>>, AllocError> {
    let mut places = Vec::with_capacity(alloc, count)?;
    for _ in 0..count {
        let place = Place {
            job: None,
            awaited: 0,
            later: Vec::new(alloc),
        };
        push(&mut places, place)?;
    }
    Ok(places)
}
