//! Books and jobs, put in order.
ghost use Rattle.std.specs.Prelude.{◌≡◌, ◌<◌, length, slice_set, Some, IfOk, MatchOption};
ghost use Rattle.hub_runner.specs.forms.Ordered.{AreInOrder, AreNumbered, AreTreesOf, IsRootIn, IsRootOf, Lacks, NoneHas};
ghost use Rattle.hub_runner.specs.forms.Slots as spec;

use crate::append::push;
use hub_history::Book;
use hub_job::Job;
use hub_path::{Root, Side};
use hub_profile::Profile;
use hub_schedule::WorkingTree;
use std::alloc::{AllocError, Global};

/// Returns the replicas of the books whose roots the profiles have, in the order of the books.
pub(crate) fn trees_of<'a>(
    alloc: Global,
    profiles: &'a [Profile],
    books: Vec<Book<'_>>,
) -> Result<Vec<WorkingTree<'a>>, AllocError>
    ensures { IfOk result (λ v. AreTreesOf profiles.now books.entry.items v.items) }
{
    let mut trees = Vec::new(alloc);
    for book in books {
        if let Some(root) = find_root(profiles, book.root()) {
            let tree = book.into_tree();
            push(&mut trees, WorkingTree { root, tree })?;
        }
    }
    Ok(trees)
}

/// Borrows a root from the profiles, if one of them has it.
fn find_root<'a>(profiles: &'a [Profile], root: &Root) -> Option<&'a Root>
    ensures { MatchOption result (NoneHas profiles.now root.now)
        (λ own. IsRootIn profiles.now root.now own.now) }
{
    for profile in profiles {
        if let Some(own) = root_of(profile, root) {
            return Some(own);
        }
    }
    None
}

/// Borrows a root from a profile, if the profile has it.
fn root_of<'a>(profile: &'a Profile, root: &Root) -> Option<&'a Root>
    ensures { MatchOption result (Lacks profile.now root.now)
        (λ own. IsRootOf profile.now root.now own.now) }
{
    let left = profile.root(Side::Left);
    if left == root {
        return Some(left);
    }
    let right = profile.root(Side::Right);
    if right == root {
        return Some(right);
    }
    None
}

/// Orders jobs by their numbers, which are those below `n`.
pub(crate) fn in_order<'a>(
    alloc: Global,
    n: usize,
    jobs: Vec<Job<'a>>,
) -> Result<Vec<Job<'a>>, AllocError>
    requires { AreNumbered n jobs.items }
    ensures { IfOk result (λ v. AreInOrder n jobs.entry.items v.items) }
{
    let mut slots = empty_slots(alloc, n)?;
    for job in jobs {
        let number = job.number();
        fill(&mut slots, number, job);
    }
    full_slots(alloc, slots)
}

/// Makes so many slots, each empty.
fn empty_slots<'a>(alloc: Global, n: usize) -> Result<Vec<Option<Job<'a>>>, AllocError>
    ensures { IfOk result (λ v. v.items ≡ spec.empty n) }
{
    let mut slots = Vec::new(alloc);
    for _ in 0..n {
        push(&mut slots, None)?;
    }
    Ok(slots)
}

/// Puts a job into the slot of that number.
fn fill<'a>(slots: &mut Vec<Option<Job<'a>>>, number: usize, job: Job<'a>)
    requires { number < length slots.old.items }
    ensures { slots.new.items ≡ slice_set slots.old.items number (Some job.entry) }
{
    slots[number] = Some(job);
}

/// Returns what is in slots that are all full.
fn full_slots<'a>(alloc: Global, slots: Vec<Option<Job<'a>>>) -> Result<Vec<Job<'a>>, AllocError>
    requires { spec.AreFull slots.items }
    ensures { IfOk result (λ v. slots.entry.items ≡ spec.filled v.items) }
{
    let mut jobs = Vec::new(alloc);
    for slot in slots {
        let Some(job) = slot else { unreachable!() };
        push(&mut jobs, job)?;
    }
    Ok(jobs)
}
