//! Turns of jobs on shared replicas.
ghost use Rattle.std.specs.Prelude.{◌≡◌, ◌<◌, true, false, length, Some, All};
ghost use Rattle.hub_schedule.specs.Table.{AllWouldAsk, AreTreeNumbers, HasTurned, HaveTurned, OnlyStops, StayStopped, stopped_at, IsAnswered, IsUnanswered};
ghost use Rattle.hub_job.specs.World.{turn};

use crate::slot::{Slot, WorkingTree};
use hub_job::{Next, Op, perform};
use hub_path::Side;
use std::alloc::{AllocError, Global};

/// Lets the jobs take the turns of a schedule. A job that finds no memory is stopped, and loses the rest of its turns.
pub(crate) fn take_turns(
    alloc: Global,
    slots: &mut Vec<Slot<'_>>,
    trees: &mut Vec<WorkingTree<'_>>,
    schedule: &[usize],
)
    requires placed { AreTreeNumbers slots.old.items trees.old.items }
    requires numbers { All (λ j. j < length slots.old.items) schedule.now }
    ensures turns { HaveTurned slots.old.items trees.old.items schedule.now
        slots.new.items trees.new.items }
    ensures more { AllWouldAsk slots.old.items → AllWouldAsk slots.new.items }
{
    for number in schedule {
        take_turn(alloc, slots, trees, *number);
    }
}

/// Lets a job take a turn. If it finds no memory, it is stopped and has done nothing. A finished job that has made a step
/// isn't stopped.
fn take_turn(
    alloc: Global,
    slots: &mut Vec<Slot<'_>>,
    trees: &mut Vec<WorkingTree<'_>>,
    number: usize,
)
    requires placed { AreTreeNumbers slots.old.items trees.old.items }
    requires number { number < length slots.old.items }
    ensures turn { HasTurned slots.old.items trees.old.items number
        slots.new.items trees.new.items }
    ensures stays { StayStopped (stopped_at slots.old.items) (stopped_at slots.new.items) }
    ensures others { OnlyStops (stopped_at slots.old.items) (stopped_at slots.new.items) number }
    ensures placed { AreTreeNumbers slots.new.items trees.new.items }
    ensures count { length slots.new.items ≡ length slots.old.items }
    ensures more { AllWouldAsk slots.old.items → AllWouldAsk slots.new.items }
{
    let slot = &mut slots[number];
    if let Next::Ask(side, op) = slot.job.turn() {
        let place = slot.place(side);
        answer(alloc, slot, &mut trees[place], side, &op);
    }
}

/// Gives a job the answer of a replica. If there is no memory, the job is stopped, and the replica is as it was.
fn answer(alloc: Global, slot: &mut Slot<'_>, replica: &mut WorkingTree<'_>, side: Side, op: &Op)
    requires going { slot.old.job.stopped ≡ false }
    requires asks { slot.old.job.asked ≡ Some (record { side = side; op = op.now }) }
    ensures lost { slot.new.job.stopped ≡ true
        → IsUnanswered slot.old replica.old slot.new replica.new }
    ensures made { slot.new.job.stopped ≡ false
        → IsAnswered slot.old replica.old (record { side = side; op = op.now })
        slot.new replica.new }
{
    match perform(
        alloc,
        slot.job.profile(),
        replica.root,
        &mut replica.tree,
        op,
    ) {
        Ok(answer) => slot.job.take(answer),
        Err(AllocError) => slot.job.stop(),
    }
}
