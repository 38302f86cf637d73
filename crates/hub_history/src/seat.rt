ghost use Rattle.std.specs.Prelude.{◌≡◌, ◌≤◌, ◌+◌, ◌*◌, min, length, replicate, sum, IfOk};

use hub_text::Items;
use std::alloc::{AllocError, Global};
use std::marker::Model;

/// The right to step at a desk. Contracts see the number of steps made with it, which stays at `u64::MAX` once it is there.
///
/// Only [`Desk::new`] makes seats, and only a step changes one.
///
/// [`Desk::new`]: crate::Desk::new
#[derive(Debug, Drop)]
pub struct Seat {
    steps: u64,
}

impl Model for Seat {
    ghost use Rattle.std.specs.Prelude.{ℕ};

    ghost Value = { ℕ };

    ghost view = { λ s. s.steps };
}

impl Seat {
    /// Returns the number of steps made with the seat.
    pub fn steps(&self) -> u64
        ensures { result ≡ self.now }
    {
        self.steps
    }

    /// Counts a step.
    pub(crate) fn count(&mut self)
        ensures { self.new ≡ min (self.old + 1) u64.MAX }
    {
        self.steps = self.steps.saturating_add(1);
    }
}

/// Makes so many seats, with no steps.
pub(crate) fn new_seats(alloc: Global, n: usize) -> Result<Items<Seat>, AllocError>
    ensures { IfOk result (λ s. s ≡ replicate n 0) }
{
    let mut seats = Vec::new(alloc);
    for _ in 0..n {
        seats.push(Seat { steps: 0 })?;
    }
    Ok(Items::from_vec(seats))
}

/// Returns the number of steps made with all the seats.
pub(crate) fn all_steps(seats: &[Seat]) -> u128
    ensures sum { result ≡ sum seats.now }
    ensures most { result ≤ length seats.now * u64.MAX }
{
    let mut all: u128 = 0;
    for seat in seats {
        all += u128::from(seat.steps());
    }
    all
}
