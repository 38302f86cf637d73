//! Workers, which step the jobs at the desks.
ghost use Rattle.std.specs.Prelude.{◌≡◌, true, IfSome, IsTrue};
ghost use Rattle.hub_runner.specs.Working.{AsksFor, is_ended};

use crate::desks::Desks;
use crossbeam_channel::{Receiver, Sender};
use hub_history::{Desk, Gate, Seat};
use hub_job::{Job, Next, Op};
use hub_path::Side;
use std::sync::Wait;

/// How many turns a worker gives a job before it passes the job on.
const TURNS: usize = 8;

/// The numbers of a job's two desks.
#[derive(Clone, Copy, Debug)]
pub(crate) struct DeskNumbers {
    /// The number of the left root's desk.
    pub(crate) left: usize,
    /// The number of the right root's desk.
    pub(crate) right: usize,
}

/// A job on its way from one worker to another. It stays where it is in memory.
#[derive(Drop)]
pub(crate) struct QueuedJob<'a> {
    /// The job.
    pub(crate) job: Box<Job<'a>>,
    /// Its desks.
    pub(crate) desks: DeskNumbers,
}

/// A job that has ended: it is finished or stopped.
#[derive(Drop)]
pub(crate) struct Ended<'a> {
    /// The job.
    pub(crate) job: Job<'a>,
    ghost over: { is_ended job ≡ true },
}

/// What a worker is sent.
#[derive(Drop)]
pub(crate) enum Message<'a> {
    /// To step a job.
    Step(QueuedJob<'a>),
    /// To end.
    Stop,
}

/// The ends of two channels: one for messages to the workers, and one on which jobs that have ended come back.
///
/// All of them are kept until the last worker has ended, so no end finds the other one gone.
#[derive(Drop)]
pub(crate) struct Channels<'a> {
    /// Where messages to the workers are sent.
    pub(crate) to_workers: Sender<Message<'a>>,
    /// Where the workers receive them.
    pub(crate) messages: Receiver<Message<'a>>,
    /// Where the workers send jobs that have ended.
    pub(crate) to_caller: Sender<Ended<'a>>,
    /// Where these are received.
    pub(crate) ended: Receiver<Ended<'a>>,
}

/// Steps the jobs that are sent, until it gets the word to end. It has a seat at each desk, by the number of the desk, and returns
/// them.
pub(crate) fn work<'a, G: Gate, R: Wait>(
    rt: &R,
    gate: &G,
    desks: &Desks<'_>,
    seats: Vec<Seat>,
    channels: &Channels<'a>,
) -> Vec<Seat> {
    let mut seats = seats;
    for _ in rt.forever() {
        match channels.messages.recv(rt) {
            Ok(Message::Step(queued)) => step_and_send(
                rt, gate, desks, &mut seats, channels, queued,
            ),
            Ok(Message::Stop) => return seats,
            Err(_) => return seats,
        }
    }
    unreachable!()
}

/// Makes some steps of a job, and sends it on, or back if it has ended: then the gate hears of it. A job that can't be sent on is stepped further.
fn step_and_send<'a, G: Gate, R: Wait>(
    rt: &R,
    gate: &G,
    desks: &Desks<'_>,
    seats: &mut Vec<Seat>,
    channels: &Channels<'a>,
    queued: QueuedJob<'a>,
) {
    let mut queued = queued;
    for _ in rt.forever() {
        if some_turns(rt, gate, desks, seats, &mut queued) {
            return end_job(rt, gate, &channels.to_caller, Box::into_inner(queued.job));
        }
        match send_on(rt, &channels.to_workers, queued) {
            None => return,
            Some(unsent) => queued = unsent,
        }
    }
    unreachable!()
}

/// Tells the gate that a job has ended, and sends it back.
fn end_job<'a, G: Gate, R: Wait>(rt: &R, gate: &G, to_caller: &Sender<Ended<'a>>, job: Job<'a>)
    requires { is_ended job ≡ true }
{
    gate.ended(job.number());
    send_back(rt, to_caller, Ended { job });
}

/// Sends a job to the workers. It returns a job that can't be sent.
fn send_on<'a, R: Wait>(
    rt: &R,
    to_workers: &Sender<Message<'a>>,
    queued: QueuedJob<'a>,
) -> Option<QueuedJob<'a>> {
    match unsent(rt, to_workers, Message::Step(queued))? {
        Message::Step(queued) => Some(queued),
        Message::Stop => unreachable!(),
    }
}

/// Sends an item, again until it is sent.
fn send_back<T: Drop, R: Wait>(rt: &R, to: &Sender<T>, item: T) {
    let mut item = item;
    for _ in rt.forever() {
        match unsent(rt, to, item) {
            None => return,
            Some(back) => item = back,
        }
    }
    unreachable!()
}

/// Sends an item. It returns an item that can't be sent.
pub(crate) fn unsent<T: Drop, R: Wait>(rt: &R, to: &Sender<T>, item: T) -> Option<T>
    ensures { IfSome result (λ back. back ≡ item) }
{
    match to.send(rt, item) {
        Ok(()) => None,
        Err(error) => Some(error.into_inner()),
    }
}

/// Gives a job at most [`TURNS`] turns. It returns whether the job has ended.
fn some_turns<G: Gate, R: Wait>(
    rt: &R,
    gate: &G,
    desks: &Desks<'_>,
    seats: &mut Vec<Seat>,
    queued: &mut QueuedJob<'_>,
) -> bool
    ensures { IsTrue result → is_ended queued.new.job.value ≡ true }
{
    for _ in 0..TURNS {
        if take_turn(rt, gate, desks, seats, queued) {
            return true;
        }
    }
    false
}

/// Lets a job take a turn, and makes the operation that it asks for. It returns whether the job has ended.
fn take_turn<G: Gate, R: Wait>(
    rt: &R,
    gate: &G,
    desks: &Desks<'_>,
    seats: &mut Vec<Seat>,
    queued: &mut QueuedJob<'_>,
) -> bool
    ensures { IsTrue result → is_ended queued.new.job.value ≡ true }
{
    let DeskNumbers { left, right } = queued.desks;
    let job = &mut *queued.job;
    match job.turn() {
        Next::Ask(Side::Left, op) => step(rt, gate, desks, seats, left, job, op),
        Next::Ask(Side::Right, op) => step(rt, gate, desks, seats, right, job, op),
        Next::Finished => return true,
        Next::Stopped => return true,
    }
    false
}

/// Makes the operation that the job asks for at the desk of this number. A job whose desk isn't there is stopped.
fn step<G: Gate, R: Wait>(
    rt: &R,
    gate: &G,
    desks: &Desks<'_>,
    seats: &mut Vec<Seat>,
    number: usize,
    job: &mut Job<'_>,
    op: Op,
)
    requires { AsksFor job.old op }
{
    match (desks.desks.get(number), seats.get_mut(number)) {
        (Some(desk), Some(seat)) => step_at(rt, gate, desk, seat, job, op),
        _ => job.stop(),
    }
}

/// Makes the operation that the job asks for at a desk, and gives it the answer. A job that is refused the step is stopped.
fn step_at<G: Gate, R: Wait>(
    rt: &R,
    gate: &G,
    desk: &Desk<'_>,
    seat: &mut Seat,
    job: &mut Job<'_>,
    op: Op,
)
    requires { AsksFor job.old op }
{
    let number = job.number();
    let step = job.log().len();
    gate.before(number, step);
    let answer = desk.step(rt, seat, number, op, gate);
    gate.after(number, step);
    match answer {
        Ok(answer) => job.take(answer),
        Err(_) => job.stop(),
    }
}
