//! Whether the entries of pairs of jobs stand in order.
ghost use Rattle.std.specs.Prelude.{◌≡◌, ◌<◌, ◌^◌, length, IfOk, MatchOption, ⊤};
ghost use Rattle.hub_runner.specs.Order as spec;
ghost use Rattle.hub_runner.specs.Order.{AllStandInOrder, PairsStandInOrder, AreSpans, ShowsOrder};

use crate::append::push;
use crate::pairs::JobPair;
use hub_history::Book;
use hub_job::Entry;
use hub_path::Root;
use std::alloc::{AllocError, Global};

/// Between which places of a history all entries of a job stand.
#[derive(Clone, Copy)]
struct Span {
    /// No entry stands before this place.
    first: usize,
    /// Each stands before this one.
    end: usize,
}

/// Finds the first book in whose history an entry of the later job of a pair stands before one of the earlier job: its root, and the
/// later job of the first such pair. The jobs are those of the first so many numbers.
///
/// It goes once through each history, and once through the pairs for each.
pub(crate) fn find_disorder<'b>(
    alloc: Global,
    jobs: usize,
    books: &'b [Book<'_>],
    pairs: &[JobPair],
) -> Result<Option<(&'b Root, usize)>, AllocError>
    ensures { IfOk result
        (λ o. MatchOption o (AllStandInOrder jobs pairs.now books.now) (λ _. ⊤)) }
{
    for book in books {
        if let Some(job) = find_disorder_in(alloc, jobs, book.history(), pairs)? {
            return Ok(Some((book.root(), job)));
        }
    }
    Ok(None)
}

/// Finds the first pair that doesn't stand in order in a history. It returns its later job.
fn find_disorder_in(
    alloc: Global,
    jobs: usize,
    history: &[Entry],
    pairs: &[JobPair],
) -> Result<Option<usize>, AllocError>
    ensures { IfOk result
        (λ o. MatchOption o (PairsStandInOrder jobs pairs.now history.now) (λ _. ⊤)) }
{
    let spans = spans_in(alloc, jobs, history)?;
    for pair in pairs {
        if !stand_in_order(spans.as_slice(), *pair) {
            return Ok(Some(pair.later));
        }
    }
    Ok(None)
}

/// Returns whether the spans show that the earlier job's entries stand before those of the later one, or the pair counts for
/// nothing.
fn stand_in_order(spans: &[Span], pair: JobPair) -> bool
    ensures { ShowsOrder spans.now pair result }
{
    match (spans.get(pair.earlier), spans.get(pair.later)) {
        (Some(earlier), Some(later)) => { pair.earlier >= pair.later || earlier.end <= later.first }
        _ => true,
    }
}

/// Returns the span of each of the first so many jobs in a history.
fn spans_in(alloc: Global, jobs: usize, history: &[Entry]) -> Result<Vec<Span>, AllocError>
    ensures { IfOk result
        (λ v. AreSpans jobs (length history.now) history.now v.items) }
{
    let mut spans = empty_spans(alloc, jobs, history.len())?;
    for (place, entry) in history.iter().enumerate() {
        if entry.job < jobs {
            spans[entry.job] = widened(spans[entry.job], place);
        }
    }
    Ok(spans)
}

/// Returns the span that also has this place, which is after it.
fn widened(span: Span, place: usize) -> Span
    requires { place < 2 ^ 63 }
    ensures { result ≡ spec.widened span place }
{
    Span {
        first: span.first.min(place),
        end: place + 1,
    }
}

/// Makes so many spans, each without an entry.
fn empty_spans(alloc: Global, count: usize, first: usize) -> Result<Vec<Span>, AllocError>
    ensures { IfOk result (λ v. length v.items ≡ count) }
{
    let mut spans = Vec::new(alloc);
    for _ in 0..count {
        push(&mut spans, Span { first, end: 0 })?;
    }
    Ok(spans)
}
