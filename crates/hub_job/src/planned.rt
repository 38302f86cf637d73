//! The plan of a job that has made all its Looks.
ghost use Rattle.std.specs.Prelude.{◌≡◌, true, [], IfOk, OnOk};
ghost use Rattle.hub_path.specs.declared.side.Side.TheVariants as of_side;
ghost use Rattle.hub_reconcile.specs.Picture.{told_by};
ghost use Rattle.hub_reconcile.specs.Sides.{side_eq};
ghost use Rattle.hub_reconcile.specs.Items.{items};
ghost use Rattle.hub_job.specs.Ends.{archive_after};
ghost use Rattle.hub_job.specs.Job.{TellsMore, sights, told, view_in};
ghost use Rattle.hub_job.specs.Phase.{AreSteps, IsWaiting, are_looks};

use crate::answer::Answer;
use crate::log::{Entry, Logged};
use crate::op::Op;
use crate::steps::{Steps, steps_of};
use hub_path::{RelPath, Side};
use hub_profile::Profile;
use hub_reconcile::{Item, Look, Picture, items_and_archive, plan};
use hub_text::Items;
use hub_tree::Archive;
use std::alloc::{AllocError, Global};

/// Returns the items of a job that has made all its Looks, and the next archive of its pair.
pub(crate) fn ending(
    alloc: Global,
    profile: &Profile,
    archive: &Archive,
    log: &[Logged],
) -> Result<(Items<Item>, Archive), AllocError>
    requires left { IsWaiting profile.now log.now of_side.Left [] }
    requires right { IsWaiting profile.now log.now of_side.Right [] }
    ensures items { IfOk result (λ e. e.0 ≡ items (view_in profile.now archive.now log.now)) }
    ensures archive { IfOk result (λ e. e.1 ≡ archive_after profile.now archive.now log.now) }
{
    let left = looks_at(alloc, log, Side::Left)?;
    let right = looks_at(alloc, log, Side::Right)?;
    let picture = Picture::new(profile, left.as_slice(), right.as_slice(), archive);
    items_and_archive(alloc, &picture)
}

/// Returns the steps of a job that has made all its Looks.
pub(crate) fn steps_after(
    alloc: Global,
    profile: &Profile,
    archive: &Archive,
    log: &[Logged],
) -> Result<Steps, AllocError>
    requires looks { are_looks log.now ≡ true }
    requires left { IsWaiting profile.now log.now of_side.Left [] }
    requires right { IsWaiting profile.now log.now of_side.Right [] }
    ensures { IfOk result (AreSteps profile.now archive.now log.now) }
{
    let left = looks_at(alloc, log, Side::Left)?;
    let right = looks_at(alloc, log, Side::Right)?;
    let picture = Picture::new(profile, left.as_slice(), right.as_slice(), archive);
    let changes = plan(alloc, &picture)?;
    Ok(Steps {
        steps: steps_of(alloc, changes)?,
        looks: log.len(),
    })
}

/// Returns what the Looks of a side told, in the order of the log.
fn looks_at<'a>(alloc: Global, log: &'a [Logged], side: Side) -> Result<Vec<Look<'a>>, AllocError>
    ensures { IfOk result (λ v. told_by v.items ≡ sights log.now side) }
{
    let mut looks = Vec::with_capacity(alloc, count_of(log, side))?;
    for entry in log {
        if is_side(entry.side, side) {
            push_look(&mut looks, &entry.step)?;
        }
    }
    Ok(looks)
}

/// Returns how many entries of the log are of a side.
fn count_of(log: &[Logged], side: Side) -> usize {
    log.iter().filter(|entry| is_side(entry.side, side)).count()
}

/// Returns whether these are the same side.
fn is_side(first: Side, second: Side) -> bool
    ensures { result ≡ side_eq first second }
{
    match first {
        Side::Left => matches!(second, Side::Left),
        Side::Right => matches!(second, Side::Right),
    }
}

/// Appends what an entry tells, if it is of a Look.
fn push_look<'a>(looks: &mut Vec<Look<'a>>, step: &'a Entry) -> Result<(), AllocError>
    ensures { OnOk result
        (TellsMore looks.old.items looks.new.items (told step.now.op step.now.answer)) }
{
    match &step.op {
        Op::Look(path) => push_seen(looks, path, &step.answer),
        Op::Fetch(_) => Ok(()),
        Op::Set(_, _) => Ok(()),
    }
}

/// Appends what the answer to a Look tells.
fn push_seen<'a>(
    looks: &mut Vec<Look<'a>>,
    path: &'a RelPath,
    answer: &'a Answer,
) -> Result<(), AllocError>
    ensures { OnOk result
        (TellsMore looks.old.items looks.new.items (told (Op.Look path.now) answer.now)) }
{
    match answer {
        Answer::Seen(sight) => looks.push(Look {
            path,
            mark: sight.mark(),
            names: sight.names(),
            others: sight.others(),
        })?,
        Answer::Bytes(_) | Answer::Done | Answer::Refused(_) => {}
    }
    Ok(())
}
