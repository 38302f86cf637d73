//! What the fault of a mismatch shows.
ghost use Rattle.std.specs.Prelude.{◌≡◌, Some, IfOk};
ghost use Rattle.hub_runner.specs.Settling as spec;

use crate::append::push;
use crate::books::history_at;
use crate::borrowed::Borrowed;
use crate::comparison::log_of;
use crate::entries::{entries_at, entries_of};
use hub_history::Book;
use hub_job::{Entry, Job, RunFault};
use hub_path::Root;
use hub_profile::Profile;
use hub_text::Items;
use std::alloc::{AllocError, Global};

/// Makes the fault of a mismatch: at a root, with a job or none. It copies the job's entries in the root's history and
/// those of its log there.
pub(crate) fn mismatch(
    alloc: Global,
    profiles: &[Profile],
    books: &[Book<'_>],
    jobs: &[Job<'_>],
    root: &Root,
    job: Option<usize>,
) -> Result<RunFault, AllocError>
    ensures { IfOk result
        (λ f. f ≡ spec.mismatch_shown profiles.now books.now jobs.now root.now job) }
{
    let (history, log) = match job {
        Some(job) => (
            history_of(alloc, books, root, job)?,
            logged(alloc, profiles, jobs, root, job)?,
        ),
        None => (Items::new(alloc), Items::new(alloc)),
    };
    Ok(RunFault::Mismatch {
        root: root.copy()?,
        job,
        history,
        log,
    })
}

/// Copies a job's entries in the history of a root.
fn history_of(
    alloc: Global,
    books: &[Book<'_>],
    root: &Root,
    job: usize,
) -> Result<Items<Entry>, AllocError>
    ensures { IfOk result (λ v. v ≡ spec.history_shown books.now root.now (Some job)) }
{
    let entries = entries_of(alloc, history_at(books, root), job)?;
    copies(alloc, entries.as_slice())
}

/// Copies the entries of a job's log at a root. There are none if no profile has its number.
fn logged(
    alloc: Global,
    profiles: &[Profile],
    jobs: &[Job<'_>],
    root: &Root,
    job: usize,
) -> Result<Items<Entry>, AllocError>
    ensures { IfOk result (λ v. v ≡ spec.log_shown profiles.now jobs.now root.now (Some job)) }
{
    let Some(profile) = profiles.get(job) else {
        return Ok(Items::new(alloc));
    };
    let entries = entries_at(alloc, profile, root, log_of(jobs, job))?;
    copies(alloc, entries.as_slice())
}

/// Copies borrowed entries.
fn copies(alloc: Global, entries: &[Borrowed<'_, Entry>]) -> Result<Items<Entry>, AllocError>
    ensures { IfOk result (λ v. v ≡ entries.now) }
{
    let mut all = Vec::new(alloc);
    for entry in entries {
        push(&mut all, entry.item().copy()?)?;
    }
    Ok(Items::from_vec(all))
}
