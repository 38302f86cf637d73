//! The marks of an archive, one after the other.
ghost use Rattle.std.specs.Prelude.{◌≡◌};
ghost use Rattle.std.specs.Map.Iter.{TakesFirst};
ghost use Rattle.std.specs.Option.{option_map};
ghost use Rattle.hub_reconcile.specs.Merge as merge;

use hub_path::RelPath;
use hub_tree::Mark;
use std::collections::btree_map::Iter;

/// A mark of an archive, with its path.
#[derive(Clone, Copy, Drop)]
pub(crate) struct OldMark<'a> {
    /// The path.
    pub path: &'a RelPath,
    /// Its mark.
    pub mark: Mark,
}

/// Takes the first of the marks that are left.
pub(crate) fn next_mark<'a>(marks: &mut Iter<'a, RelPath, Mark>) -> Option<OldMark<'a>>
    ensures { TakesFirst merge.told_mark marks.old result marks.new }
{
    match marks.next() {
        Some((path, mark)) => Some(OldMark { path, mark: *mark }),
        None => None,
    }
}

/// The path of a mark that was taken.
pub(crate) fn path_of<'a>(first: Option<OldMark<'a>>) -> Option<&'a RelPath>
    ensures { option_map (λ p. p.now) result
        ≡ merge.first_of (merge.paths_in (merge.taken first.entry)) }
{
    match first {
        Some(old) => Some(old.path),
        None => None,
    }
}

/// The mark that was taken, if it is of this path, and else `Absent`.
pub(crate) fn mark_of(first: Option<OldMark>, path: &RelPath) -> Mark
    ensures { result ≡ merge.front_mark path.now (merge.taken first.entry) }
{
    match first {
        Some(old) if old.path == path => old.mark,
        _ => Mark::Absent,
    }
}

/// The mark that was taken, or the next one, if that is of this path.
pub(crate) fn past_mark<'a>(
    first: Option<OldMark<'a>>,
    marks: &mut Iter<'a, RelPath, Mark>,
    path: &RelPath,
) -> Option<OldMark<'a>>
    ensures { merge.TakesPast path.now first.entry marks.old result marks.new }
{
    match first {
        Some(old) if old.path == path => next_mark(marks),
        _ => first,
    }
}
