//! How the jobs of a schedule end, and what they leave in the state.
ghost use Rattle.std.specs.Prelude.{◌≡◌, Some, map, fold, IfOk, OnOk};
ghost use Rattle.hub_schedule.specs.forms.Left as spec;

use crate::slot::{Slot, WorkingTree};
use hub_job::JobEnd;
use hub_profile::Profile;
use hub_reach::reaches;
use hub_state::State;
use hub_text::Items;
use hub_tree::Archive;
use std::alloc::{AllocError, Global};
use std::marker::Model;

/// What a job leaves to the archive of its pair of roots.
#[derive(Drop)]
pub(crate) struct NextArchive<'a> {
    /// The profile of the job.
    pub(crate) profile: &'a Profile,
    /// The archive at the opening.
    pub(crate) opening: &'a Archive,
    /// The next archive, if the job is finished.
    pub(crate) next: Option<Archive>,
}

impl<'a> Model for NextArchive<'a> {
    ghost use Rattle.std.specs.Coded.{codes};
    ghost use Rattle.hub_job.specs.Coded.{coded_archive};
    ghost use Rattle.hub_schedule.specs.Next.{NextValue};

    ghost Value = { NextValue };

    ghost coded = { Prim.hlevel (codes, coded_archive) };

    ghost view = { λ n. record {
      profile = n.profile.now;
      opening = n.opening.now;
      next = n.next;
    } };
}

/// Ends the jobs, in their order.
pub(crate) fn end_jobs<'a>(
    alloc: Global,
    slots: Vec<Slot<'a>>,
) -> Result<(Items<JobEnd>, Vec<NextArchive<'a>>), AllocError>
    ensures ends { IfOk result (λ r. r.0 ≡ map spec.end_value slots.entry.items) }
    ensures nexts { IfOk result (λ r. r.1.items ≡ map spec.next_value slots.entry.items) }
{
    let mut ends = Vec::new(alloc);
    let mut nexts = Vec::new(alloc);
    for slot in slots {
        let Slot { job, .. } = slot;
        let profile = job.profile();
        let opening = job.archive();
        let (end, next) = job.end()?;
        ends.push(end)?;
        nexts.push(NextArchive {
            profile,
            opening,
            next,
        })?;
    }
    Ok((Items::from_vec(ends), nexts))
}

/// Puts the replicas into the state. Out of memory may leave some of them there.
pub(crate) fn put_trees(state: &mut State, trees: Vec<WorkingTree<'_>>) -> Result<(), AllocError>
    ensures { OnOk result (state.new ≡ fold spec.put_tree state.old trees.entry.items) }
{
    for replica in trees {
        let WorkingTree { root, tree } = replica;
        state.put_replica(root, tree)?;
    }
    Ok(())
}

/// Puts what the jobs leave into the archives of their pairs of roots: at each path the mark of the first finished job that
/// reaches it. Then each pair of a finished job has an archive. Out of memory may leave some of it there.
pub(crate) fn put_archives(
    state: &mut State,
    mut nexts: Vec<NextArchive<'_>>,
) -> Result<(), AllocError>
    requires { spec.AreKept nexts.items }
    ensures replicas { OnOk result (state.new.replicas ≡ state.old.replicas) }
    ensures archives { OnOk result
        (spec.HasArchives (spec.one_is_left nexts.entry.items) state.old state.new) }
    ensures marks { OnOk result
        (spec.HasMarks (spec.mark_from nexts.entry.items) state.old state.new) }
{
    while let Some(job) = nexts.pop() {
        put_next(state, job)?;
    }
    Ok(())
}

/// Puts what a job leaves into the archive of its pair of roots.
fn put_next(state: &mut State, job: NextArchive<'_>) -> Result<(), AllocError>
    requires { spec.KeepsUnreached job }
    ensures replicas { OnOk result (state.new.replicas ≡ state.old.replicas) }
    ensures archives { OnOk result
        (spec.HasArchives (spec.leaves_next job.entry) state.old state.new) }
    ensures marks { OnOk result (spec.HasMarks (spec.next_mark job.entry) state.old state.new) }
{
    let NextArchive {
        profile,
        opening,
        next,
    } = job;
    match next {
        Some(next) => put_marks(state, profile, opening, next),
        None => Ok(()),
    }
}

/// Puts the marks of the paths that the profile reaches into the archive of its pair of roots.
fn put_marks(
    state: &mut State,
    profile: &Profile,
    opening: &Archive,
    next: Archive,
) -> Result<(), AllocError>
    requires { spec.KeptIn profile.now opening.now (Some next) }
    ensures replicas { OnOk result (state.new.replicas ≡ state.old.replicas) }
    ensures archives { OnOk result
        (spec.HasArchives (spec.has_pair profile.now) state.old state.new) }
    ensures marks { OnOk result
        (spec.HasMarks (spec.mark_given profile.now next) state.old state.new) }
{
    let roots = profile.roots();
    let current = state.archive_or_empty(&roots[0], &roots[1]);
    let merged = merge_changes(profile, current, opening, next)?;
    state.put_archive(&roots[0], &roots[1], merged)
}

/// Returns an archive with the marks of the next one at the paths that the profile reaches, and the current marks
/// elsewhere. If the current archive is that of the opening, it is the next one.
fn merge_changes(
    profile: &Profile,
    current: &Archive,
    opening: &Archive,
    next: Archive,
) -> Result<Archive, AllocError>
    requires { spec.KeptIn profile.now opening.now (Some next) }
    ensures { IfOk result (λ a. spec.IsMerged profile.now next current.now a) }
{
    if current.same(opening) {
        return Ok(next);
    }
    merge(profile, current, &next)
}

/// Returns an archive with the marks of the next one at the paths that the profile reaches, and the current marks
/// elsewhere.
fn merge(profile: &Profile, current: &Archive, next: &Archive) -> Result<Archive, AllocError>
    ensures { IfOk result (λ a. spec.IsMerged profile.now next.now current.now a) }
{
    let mut merged = current.copy()?;
    take_marks(profile, next, current, &mut merged)?;
    take_marks(profile, next, next, &mut merged)?;
    Ok(merged)
}

/// Takes over the marks of an archive at those paths of another one that the profile reaches.
fn take_marks(
    profile: &Profile,
    next: &Archive,
    paths: &Archive,
    merged: &mut Archive,
) -> Result<(), AllocError>
    ensures { OnOk result (spec.TakesMarks profile.now next.now paths.now merged.old merged.new) }
{
    for (path, _) in paths.iter() {
        if reaches(profile, path) {
            merged.set(path, next.mark_at(path))?;
        }
    }
    Ok(())
}
