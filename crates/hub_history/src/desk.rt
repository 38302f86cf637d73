ghost use Rattle.std.specs.Prelude.{◌≡◌, ◌≢◌, ◌<◌, ◌+◌, ◌⊎◌, min, length, replicate, IfOk, OnOk, OnErr, IfErr};
ghost use Rattle.hub_job.specs.Machine.{Fits};
ghost use Rattle.hub_history.specs.Book.{BookAnswers, IsBook, IsForeign, entry_of, with_entry};
ghost use Rattle.hub_history.specs.Desk.{SomeBookAnswers, counted_by, desk_of};

use crate::book::Book;
use crate::gate::Gate;
use crate::seat::{Seat, all_steps, new_seats};
use hub_job::{Answer, Op};
use hub_text::Items;
use std::alloc::{AllocFailed, Global};
use std::marker::Model;
use std::sync::{Mutex, Wait};
use thiserror::Error;

/// Why a step isn't made. It is shown as the fault's name, as in `Foreign`.
#[derive(Clone, Copy, Debug, PartialEq, Eq, Error)]
pub enum StepFault {
    /// The job doesn't have the book's root.
    #[error("Foreign")]
    Foreign,
    /// Out of memory.
    #[error("OutOfMemory")]
    OutOfMemory,
}

/// A book that threads share: one of them at a time steps at it, while it holds the lock.
///
/// Contracts see the number of its seats, and how long the history was when the desk was made.
#[derive(Drop)]
pub struct Desk<'a> {
    book: Mutex<Book<'a>>,
    seats: usize,
    start: usize,
}

impl<'a> Model for Desk<'a> {
    ghost use Rattle.hub_history.specs.Desk.{DeskValue};

    ghost Value = { DeskValue };

    ghost view = { λ d. record { seats = d.seats; start = d.start } };
}

/// What [`Desk::close`] hands back where the seats don't account for the history: not all came, or steps were made with
/// others.
#[derive(Drop)]
pub struct Stranger<'a> {
    /// The desk.
    pub desk: Desk<'a>,
    /// The seats that came.
    pub seats: Items<Seat>,
    /// The length of the history.
    pub entries: u128,
    /// Its length when the desk was made, and the steps made with the seats, together.
    pub counted: u128,
}

impl<'a> Desk<'a> {
    /// Makes a desk over a book, and its seats. Out of memory gives the book back.
    pub fn new(
        alloc: Global,
        book: Book<'a>,
        seats: usize,
    ) -> Result<(Desk<'a>, Items<Seat>), AllocFailed<Book<'a>>>
        requires { 0 < seats }
        ensures desk { IfOk result
            (λ r. r.0 ≡ record { seats = seats; start = length book.entry.history }) }
        ensures seats { IfOk result (λ r. r.1 ≡ replicate seats 0) }
        ensures err { IfErr result (λ e. e.value ≡ book.entry) }
    {
        let Ok(all) = new_seats(alloc, seats) else {
            return Err(AllocFailed { value: book });
        };
        let start = book.history().len();
        let book = Mutex::new(book);
        Ok((Desk { book, seats, start }, all))
    }

    /// Makes an operation of a job on the book, while the lock is held. `Foreign` if the job doesn't have the book's root.
    /// The answer is one that some book gives to this operation of this job. After a fault the book and the seat are as they
    /// were.
    ///
    /// It calls the gate's `within` once, as soon as it holds the lock.
    pub fn step<G: Gate, R: Wait>(
        &self,
        rt: &R,
        seat: &mut Seat,
        job: usize,
        op: Op,
        gate: &G,
    ) -> Result<Answer, StepFault>
        ensures made { IfOk result (SomeBookAnswers job op) }
        ensures fits { IfOk result (Fits op) }
        ensures ok { OnOk result (seat.new ≡ min (seat.old + 1) u64.MAX) }
        ensures err { OnErr result (seat.new ≡ seat.old) }
    {
        let mut book = self.book.lock(rt);
        gate.within(job);
        step_in(&mut book, seat, job, op)
    }

    /// Returns the book, if all seats came back and their steps make up the history. Else everything is handed back.
    pub fn close(self, seats: Items<Seat>) -> Result<Book<'a>, Stranger<'a>>
        ensures book { IfOk result (λ b. IsBook b) }
        ensures all { IfOk result (λ b. length seats ≡ self.entry.seats) }
        ensures counted { IfOk result (λ b. length b.history ≡ counted_by self.entry seats) }
        ensures stranger { IfErr result
            (λ s. (length seats ≢ self.entry.seats) ⊎ (s.entries ≢ s.counted)) }
        ensures back { IfErr result (λ s. (s.seats ≡ seats) × (s.desk ≡ self.entry)) }
        ensures sum { IfErr result (λ s. s.counted ≡ counted_by self.entry seats) }
    {
        let Desk {
            book,
            seats: n,
            start,
        } = self;
        close_in(book.into_inner(), n, start, seats)
    }
}

/// Closes a desk of `n` seats over a book, whose history had the length `start` when the desk was made.
fn close_in<'a>(
    book: Book<'a>,
    n: usize,
    start: usize,
    seats: Items<Seat>,
) -> Result<Book<'a>, Stranger<'a>>
    ensures book { IfOk result (λ b. b ≡ book.entry) }
    ensures all { IfOk result (λ b. length seats ≡ n) }
    ensures counted { IfOk result
        (λ b. length book.entry.history ≡ counted_by (desk_of n start) seats) }
    ensures stranger { IfErr result
        (λ s. (length seats ≢ n) ⊎ (s.entries ≢ s.counted)) }
    ensures entries { IfErr result (λ s. s.entries ≡ length book.entry.history) }
    ensures back { IfErr result (λ s. (s.seats ≡ seats) × (s.desk ≡ desk_of n start)) }
    ensures sum { IfErr result (λ s. s.counted ≡ counted_by (desk_of n start) seats) }
{
    let entries = book.history().len() as u128;
    let counted = start as u128 + all_steps(seats.as_slice());
    if seats.len() == n && entries == counted {
        return Ok(book);
    }
    let desk = Desk {
        book: Mutex::new(book),
        seats: n,
        start,
    };
    Err(Stranger {
        desk,
        seats,
        entries,
        counted,
    })
}

/// Makes an operation of a job on a book, if the job has its root, and counts the step.
fn step_in(book: &mut Book<'_>, seat: &mut Seat, job: usize, op: Op) -> Result<Answer, StepFault>
    ensures valid { IsBook book.old }
    ensures answer { IfOk result (λ a. BookAnswers book.old job op a) }
    ensures fits { IfOk result (Fits op) }
    ensures book { IfOk result (λ a. book.new ≡ with_entry book.old (entry_of job op a)) }
    ensures seat { OnOk result (seat.new ≡ min (seat.old + 1) u64.MAX) }
    ensures foreign { IsForeign book.old job → result ≡ Err StepFault.Foreign }
    ensures err { IfErr result (λ e. (e ≡ StepFault.OutOfMemory) ⊎ IsForeign book.old job) }
    ensures stays { OnErr result ((book.new ≡ book.old) × (seat.new ≡ seat.old)) }
{
    if !book.has(job) {
        return Err(StepFault::Foreign);
    }
    let Ok(answer) = book.apply(job, op) else {
        return Err(StepFault::OutOfMemory);
    };
    seat.count();
    Ok(answer)
}
