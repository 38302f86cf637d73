//! Entries of a job, in the history of a root and in the job's log.
ghost use Rattle.std.specs.Prelude.{◌≡◌, [], map, replicate, IfOk};
ghost use Rattle.std.specs.List.{range_with_len};
ghost use Rattle.hub_profile.specs.Parts as of_profile;
ghost use Rattle.hub_job.specs.History as spec;

use crate::borrowed::Borrowed;
use hub_job::{Entry, Logged};
use hub_path::{Root, Side};
use hub_profile::Profile;
use hub_text::Items;
use std::alloc::{AllocError, Global};

/// Borrows a job's entries in a history, in their order.
pub(crate) fn entries_of<'a>(
    alloc: Global,
    history: &'a [Entry],
    job: usize,
) -> Result<Vec<Borrowed<'a, Entry>>, AllocError>
    ensures { IfOk result (λ v. v.items ≡ spec.entries_of job history.now) }
{
    let mut entries = Vec::new(alloc);
    for entry in history {
        if entry.job == job {
            entries.push(Borrowed::new(entry))?;
        }
    }
    Ok(entries)
}

/// Borrows the entries of each of the first `n` jobs in a history, in their order: the list at `j`
/// is that of the job `j`. It goes through the history once.
pub(crate) fn split_by_job<'a>(
    alloc: Global,
    history: &'a [Entry],
    n: usize,
) -> Result<Vec<Items<Borrowed<'a, Entry>>>, AllocError>
    ensures { IfOk result (λ v. v.items
        ≡ map (λ j. spec.entries_of j history.now) (range_with_len 0 n)) }
{
    let mut lists = empty_lists(alloc, n)?;
    for entry in history {
        if entry.job < n {
            lists[entry.job].push(Borrowed::new(entry))?;
        }
    }
    Ok(lists)
}

/// Makes so many lists, each empty.
fn empty_lists<'a>(alloc: Global, n: usize) -> Result<Vec<Items<Borrowed<'a, Entry>>>, AllocError>
    ensures { IfOk result (λ v. v.items ≡ replicate n []) }
{
    let mut lists = Vec::new(alloc);
    for _ in 0..n {
        lists.push(Items::new(alloc))?;
    }
    Ok(lists)
}

/// Borrows the entries of a job's log at a root, in their order.
pub(crate) fn entries_at<'a>(
    alloc: Global,
    profile: &Profile,
    root: &Root,
    log: &'a [Logged],
) -> Result<Vec<Borrowed<'a, Entry>>, AllocError>
    ensures { IfOk result (λ v. v.items ≡ spec.entries_at profile.now root.now log.now) }
{
    let mut entries = Vec::new(alloc);
    for entry in log {
        if is_root_at(profile, root, entry.side) {
            entries.push(Borrowed::new(&entry.step))?;
        }
    }
    Ok(entries)
}

/// Returns whether the root is that of the profile's side.
fn is_root_at(profile: &Profile, root: &Root, side: Side) -> bool
    ensures { result ≡ of_profile.is_root_at profile.now root.now side }
{
    root == profile.root(side)
}
