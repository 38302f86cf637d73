//! A pool of workers: threads that step all jobs.
ghost use Rattle.std.specs.Prelude.{◌≡◌, ◌⊎◌, IfErr};
ghost use Rattle.hub_job.specs.declared.run_fault.RunFault.TheVariants as fault;

use crate::append::push;
use crate::desks::Desks;
use crate::queue::Queue;
use crate::worker::{Channels, Ended, Message, QueuedJob, unsent, work};
use hub_history::{Gate, Seat};
use hub_job::RunFault;
use std::alloc::{AllocError, Global};
use std::sync::Wait;
use std::thread;
use std::thread::{JoinHandle, Threads};

/// What a pool leaves: all jobs, which have ended, and the seats of each worker.
#[derive(Drop)]
pub(crate) struct PoolEnd<'a> {
    /// The jobs, in the order in which they ended.
    pub(crate) ended: Vec<Ended<'a>>,
    /// The seats of each worker, by the numbers of the desks.
    pub(crate) seats: Vec<Vec<Seat>>,
}

/// The jobs that a pool steps, and lists with room for all that it keeps, so that nothing is allocated while workers run.
#[derive(Drop)]
struct Room<'c, 'a> {
    channels: &'c Channels<'a>,
    queue: Queue<'a>,
    handles: Vec<JoinHandle<Vec<Seat>>>,
    end: PoolEnd<'a>,
}

/// Steps all jobs of a queue until they end, by as many workers as there are lists of seats. Each worker is a thread, which has the
/// seats of its list. A job is sent to the workers as soon as it is free. If a thread can't be started, those that were started are
/// ended, and the jobs are dropped.
pub(crate) fn step_all<'a, G: Gate + Sync, R: Threads + Wait + Sync>(
    rt: &R,
    alloc: Global,
    gate: &G,
    desks: &Desks<'a>,
    seats: Vec<Vec<Seat>>,
    queue: Queue<'a>,
) -> Result<PoolEnd<'a>, RunFault>
    ensures { IfErr result (λ f. (f ≡ fault.ThreadRefused) ⊎ (f ≡ fault.OutOfMemory)) }
{
    let channels = channels_for(alloc, seats.len(), queue.jobs())?;
    let room = room_for(alloc, seats.len(), &channels, queue)?;
    match run_workers(rt, gate, desks, seats, room) {
        Some(end) => Ok(end),
        None => Err(RunFault::ThreadRefused),
    }
}

/// Makes room for so many workers and the jobs of a queue.
fn room_for<'c, 'a>(
    alloc: Global,
    workers: usize,
    channels: &'c Channels<'a>,
    queue: Queue<'a>,
) -> Result<Room<'c, 'a>, AllocError> {
    let handles = Vec::with_capacity(alloc, workers)?;
    let ended = Vec::with_capacity(alloc, queue.jobs())?;
    let seats = Vec::with_capacity(alloc, workers)?;
    Ok(Room {
        channels,
        queue,
        handles,
        end: PoolEnd { ended, seats },
    })
}

/// Makes the two channels. Both have room for all that is ever sent at a time: each job once, and for each worker that it is to
/// end. So no send waits or allocates.
fn channels_for<'a>(
    alloc: Global,
    workers: usize,
    jobs: usize,
) -> Result<Channels<'a>, AllocError> {
    let room = jobs.saturating_add(workers).max(1);
    let Ok((to_workers, messages)) = crossbeam_channel::bounded(alloc, room) else {
        return Err(AllocError);
    };
    let Ok((to_caller, ended)) = crossbeam_channel::bounded(alloc, jobs.max(1)) else {
        return Err(AllocError);
    };
    Ok(Channels {
        to_workers,
        messages,
        to_caller,
        ended,
    })
}

/// Starts a worker for each list of seats, and waits until all have ended. None if a thread can't be started.
///
/// After the first thread is started nothing may return before all have the word to end, or the scope waits for ever.
fn run_workers<'a, G: Gate + Sync, R: Threads + Wait + Sync>(
    rt: &R,
    gate: &G,
    desks: &Desks<'a>,
    seats: Vec<Vec<Seat>>,
    room: Room<'_, 'a>,
) -> Option<PoolEnd<'a>> {
    thread::scope(thread::scope_env(), rt, |scope| -> Option<PoolEnd> {
        let mut room = room;
        let channels = room.channels;
        let mut started: usize = 0;
        let mut refused = false;
        for own in seats {
            let Ok(handle) = scope.spawn(move || work(rt, gate, desks, own, channels)) else {
                refused = true;
                break;
            };
            started = started.saturating_add(1);
            if room.handles.push(handle).is_err() {
                refused = true;
                break;
            }
        }
        let end = finish(rt, refused, started, room);
        if refused { None } else { Some(end) }
    })
}

/// Lets the workers step the jobs, unless one was refused, tells those that were started to end, and waits until they have.
fn finish<'a, R: Threads + Wait>(
    rt: &R,
    refused: bool,
    started: usize,
    room: Room<'_, 'a>,
) -> PoolEnd<'a> {
    let Room {
        channels,
        queue,
        handles,
        end,
    } = room;
    let PoolEnd { ended, seats } = end;
    let ended = if refused {
        ended
    } else {
        send_and_receive(rt, channels, queue, ended)
    };
    stop_all(rt, channels, started);
    let seats = join_all(rt, handles, seats);
    PoolEnd { ended, seats }
}

/// Sends the free jobs of the queue. While some that were sent are out, it receives one that has ended, appends it to the list, and
/// sends those that are free now. It never waits for a job that wasn't sent.
fn send_and_receive<'a, R: Wait>(
    rt: &R,
    channels: &Channels<'a>,
    queue: Queue<'a>,
    all: Vec<Ended<'a>>,
) -> Vec<Ended<'a>> {
    let mut queue = queue;
    let mut all = all;
    let mut out = send_free(rt, channels, &mut queue);
    for _ in 0..queue.jobs() {
        if out == 0 {
            break;
        }
        let Ok(ended) = channels.ended.recv(rt) else {
            break;
        };
        let sent = send_later(rt, channels, &mut queue, ended.job.number());
        out = out.saturating_sub(1).saturating_add(sent);
        if push(&mut all, ended).is_err() {
            break;
        }
    }
    all
}

/// Sends the jobs of the queue that are free, in the order of their numbers. It returns how many.
fn send_free<'a, R: Wait>(rt: &R, channels: &Channels<'a>, queue: &mut Queue<'a>) -> usize {
    let mut sent: usize = 0;
    for number in 0..queue.count() {
        if let Some(job) = queue.take_free(number) {
            sent = sent.saturating_add(send_one(rt, channels, job));
        }
    }
    sent
}

/// Sends the jobs of the queue that are free because that job has ended. It returns how many.
fn send_later<'a, R: Wait>(
    rt: &R,
    channels: &Channels<'a>,
    queue: &mut Queue<'a>,
    ended: usize,
) -> usize {
    let mut sent: usize = 0;
    for i in 0..queue.later_count(ended) {
        if let Some(job) = queue.take_later(ended, i) {
            sent = sent.saturating_add(send_one(rt, channels, job));
        }
    }
    sent
}

/// Sends a job to the workers. It returns how many it sent: a job that can't be sent is dropped, and settling misses it.
fn send_one<'a, R: Wait>(rt: &R, channels: &Channels<'a>, job: QueuedJob<'a>) -> usize {
    match unsent(rt, &channels.to_workers, Message::Step(job)) {
        None => 1,
        Some(_) => 0,
    }
}

/// Tells so many workers to end.
fn stop_all<R: Wait>(rt: &R, channels: &Channels<'_>, workers: usize) {
    for _ in 0..workers {
        stop_one(rt, channels);
    }
}

/// Tells a worker to end, again until it has the word.
fn stop_one<R: Wait>(rt: &R, channels: &Channels<'_>) {
    for _ in rt.forever() {
        if unsent(rt, &channels.to_workers, Message::Stop).is_none() {
            return;
        }
    }
    unreachable!()
}

/// Waits until all threads have ended, and appends the seats of each to the list.
fn join_all<R: Threads>(
    rt: &R,
    handles: Vec<JoinHandle<Vec<Seat>>>,
    seats: Vec<Vec<Seat>>,
) -> Vec<Vec<Seat>> {
    let mut seats = seats;
    for handle in handles {
        let _kept = seats.push(handle.join(rt));
    }
    seats
}
