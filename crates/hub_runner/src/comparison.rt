//! Roots whose books or histories don't fit.
ghost use Rattle.std.specs.Prelude.{◌≡◌, [], fold, IfOk, OnOk, MatchBool, MatchOption};
ghost use Rattle.std.specs.List.{list_any};
ghost use Rattle.hub_path.specs.Path.{path_eq};
ghost use Rattle.hub_runner.specs.Settling as spec;

use crate::books::{only_book, opens_as};
use crate::borrowed::Borrowed;
use crate::entries::{entries_at, split_by_job};
use hub_cert::ProfileSet;
use hub_history::Book;
use hub_job::{Entry, Job, Logged};
use hub_path::Root;
use hub_profile::Profile;
use hub_state::State;
use hub_text::are_equal;
use std::alloc::{AllocError, Global};

/// Finds the first place where books and jobs don't fit, with each other or with the set and the state: a root, and a job
/// or none.
///
/// Each root comes once, in the order of the profiles, the left one of a profile first. At a root its book comes first,
/// without a job: there must be exactly one, made for the set, that opens with the state's replica. Then come the jobs that
/// have the root, by their numbers: the entries of each in the history must be those of its log there.
pub(crate) fn find_mismatch<'a>(
    alloc: Global,
    set: &'a ProfileSet,
    state: &State,
    books: &[Book<'_>],
    jobs: &[Job<'_>],
) -> Result<Option<(&'a Root, Option<usize>)>, AllocError>
    ensures { let all = spec.compared state.now set.now.profiles books.now jobs.now in IfOk result
        (λ o. MatchOption o (spec.NoMismatch all) (λ at. spec.IsMismatch all (at.0.now, at.1))) }
{
    let roots = roots_of(alloc, set.profiles())?;
    for borrowed in roots.as_slice() {
        let root = borrowed.item();
        if let Some(job) = find_mismatch_at(alloc, set, state, books, jobs, root)? {
            return Ok(Some((root, job)));
        }
    }
    Ok(None)
}

/// Borrows the roots of the profiles in their order, each once.
pub(crate) fn roots_of<'a>(
    alloc: Global,
    profiles: &'a [Profile],
) -> Result<Vec<Borrowed<'a, Root>>, AllocError>
    ensures { IfOk result (λ v. v.items ≡ spec.roots_of profiles.now) }
{
    let mut roots = Vec::new(alloc);
    for profile in profiles {
        push_all_new(&mut roots, profile.roots().as_slice())?;
    }
    Ok(roots)
}

/// Appends the roots that aren't there.
fn push_all_new<'a>(roots: &mut Vec<Borrowed<'a, Root>>, own: &'a [Root]) -> Result<(), AllocError>
    ensures { OnOk result (roots.new.items ≡ fold spec.with_new roots.old.items own.now) }
{
    for root in own {
        push_new(roots, root)?;
    }
    Ok(())
}

/// Appends the root, unless it is there.
fn push_new<'a>(roots: &mut Vec<Borrowed<'a, Root>>, root: &'a Root) -> Result<(), AllocError>
    ensures { OnOk result (roots.new.items ≡ spec.with_new roots.old.items root.now) }
{
    if !has(roots.as_slice(), root) {
        roots.push(Borrowed::new(root))?;
    }
    Ok(())
}

/// Returns whether the root is there.
fn has(roots: &[Borrowed<'_, Root>], root: &Root) -> bool
    ensures { result ≡ list_any (λ s. path_eq s root.now) roots.now }
{
    roots.iter().any(|other| other.item() == root)
}

/// Finds the first job, or none, with which the root disagrees.
fn find_mismatch_at(
    alloc: Global,
    set: &ProfileSet,
    state: &State,
    books: &[Book<'_>],
    jobs: &[Job<'_>],
    root: &Root,
) -> Result<Option<Option<usize>>, AllocError>
    ensures { let all = spec.compared state.now set.now.profiles books.now jobs.now in IfOk result
        (λ o. MatchOption o (spec.NoMismatchAt all root.now) (spec.IsMismatchAt all root.now)) }
{
    let Some(book) = only_book(books, root) else {
        return Ok(Some(None));
    };
    if !opens_as(book, set, state) {
        return Ok(Some(None));
    }
    let profiles = set.profiles();
    let lists = split_by_job(alloc, book.history(), profiles.len())?;
    for (job, profile) in profiles.iter().enumerate() {
        if differs(alloc, lists[job].as_slice(), jobs, profile, root, job)? {
            return Ok(Some(Some(job)));
        }
    }
    Ok(None)
}

/// Borrows the log of the first job of that number; there are no entries if there is no such job.
pub(crate) fn log_of<'b>(jobs: &'b [Job<'_>], number: usize) -> &'b [Logged]
    ensures { result.now ≡ spec.log_at jobs.now number }
{
    for job in jobs {
        if job.number() == number {
            return job.log();
        }
    }
    &[]
}

/// Returns whether the profile has the root, and these entries aren't those of the job's log there.
fn differs(
    alloc: Global,
    done: &[Borrowed<'_, Entry>],
    jobs: &[Job<'_>],
    profile: &Profile,
    root: &Root,
    job: usize,
) -> Result<bool, AllocError>
    ensures { IfOk result (λ b. MatchBool b
        (spec.DiffersAt profile.now root.now jobs.now job done.now)
        (spec.FitsAt profile.now root.now jobs.now job done.now)) }
{
    if !profile.has_root(root) {
        return Ok(false);
    }
    let logged = entries_at(alloc, profile, root, log_of(jobs, job))?;
    Ok(!are_equal(done, logged.as_slice()))
}
