ghost use Rattle.std.specs.Prelude.{◌≡◌, ℕ, [], IfOk};
ghost use Rattle.hub_job.specs.Ends.{archive_by, archive_with, end_by, end_with, items_by, items_with};
ghost use Rattle.hub_job.specs.Phase.{Follows, NoneWaits, is_stopped};
ghost use Rattle.hub_job.specs.Run.{Runs};

use crate::log::Logged;
use crate::op::Next;
use crate::phase::{Phase, next_of};
use crate::planned::ending;
use hub_profile::Profile;
use hub_reconcile::Item;
use hub_text::Items;
use hub_tree::Archive;
use std::alloc::{AllocError, Global};

/// How a job ended.
#[derive(Clone, Copy, Debug, PartialEq, Eq)]
pub enum End {
    /// It has done all.
    Finished,
    /// It was refused something, found no memory, or was stopped.
    Stopped,
    /// It has more to do.
    Unfinished,
}

/// A job as it ended.
#[derive(Debug, Drop)]
pub struct JobEnd {
    /// How it ended.
    pub end: End,
    /// All that it asked, and the answers.
    pub log: Items<Logged>,
    /// What its two replicas differed in, in ascending order, if it is finished; else nothing.
    pub items: Items<Item>,
}

/// Ends a job with this log, in this phase.
pub(crate) fn ended_job(
    alloc: Global,
    profile: &Profile,
    archive: &Archive,
    log: Vec<Logged>,
    phase: &mut Phase,
) -> Result<(JobEnd, Option<Archive>), AllocError>
    requires follows { Follows profile.now archive.now log.items phase.old }
    requires run { (j : ℕ) × Runs profile.now archive.now j [] log.items }
    ensures end { IfOk result (λ e. e.0.end
        ≡ end_with (is_stopped phase.old) profile.now archive.now log.items) }
    ensures log { IfOk result (λ e. e.0.log ≡ log.items) }
    ensures items { IfOk result (λ e. e.0.items
        ≡ items_with (is_stopped phase.old) profile.now archive.now log.items) }
    ensures archive { IfOk result (λ e. e.1
        ≡ archive_with (is_stopped phase.old) profile.now archive.now log.items) }
{
    let entries = log.as_slice();
    let end = end_in(alloc, profile, archive, entries, phase)?;
    let (items, next) = left_by(alloc, profile, archive, entries, end)?;
    let log = Items::from_vec(log);
    Ok((JobEnd { end, log, items }, next))
}

/// Returns how a job with this log ends in this phase.
fn end_in(
    alloc: Global,
    profile: &Profile,
    archive: &Archive,
    log: &[Logged],
    phase: &mut Phase,
) -> Result<End, AllocError>
    requires follows { Follows profile.now archive.now log.now phase.old }
    requires run { (j : ℕ) × Runs profile.now archive.now j [] log.now }
    ensures end { IfOk result
        (λ e. e ≡ end_with (is_stopped phase.old) profile.now archive.now log.now) }
    ensures finished { IfOk result (λ e. e ≡ End.Finished → NoneWaits profile.now log.now) }
{
    let next = next_of(alloc, profile, archive, log, phase)?;
    Ok(end_before(&next))
}

/// Returns how a job ends that does this next.
fn end_before(next: &Next) -> End
    ensures { result ≡ end_by next.now }
{
    match next {
        Next::Ask(_, _) => End::Unfinished,
        Next::Finished => End::Finished,
        Next::Stopped => End::Stopped,
    }
}

/// Returns the items and the next archive of a job that ends so. Only a finished job has them.
fn left_by(
    alloc: Global,
    profile: &Profile,
    archive: &Archive,
    log: &[Logged],
    end: End,
) -> Result<(Items<Item>, Option<Archive>), AllocError>
    requires { end ≡ End.Finished → NoneWaits profile.now log.now }
    ensures items { IfOk result (λ l. l.0 ≡ items_by end profile.now archive.now log.now) }
    ensures archive { IfOk result (λ l. l.1 ≡ archive_by end profile.now archive.now log.now) }
{
    match end {
        End::Finished => {
            let (items, next) = ending(alloc, profile, archive, log)?;
            Ok((items, Some(next)))
        }
        End::Stopped => Ok((Items::new(alloc), None)),
        End::Unfinished => Ok((Items::new(alloc), None)),
    }
}
