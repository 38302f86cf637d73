//! Rows: what is known of one path, on both sides and in the archive.
ghost use Rattle.std.specs.Prelude.{◌≡◌};
ghost use Rattle.hub_reconcile.specs.Rows as rows;

use crate::marks::{is_present, is_same};
use hub_path::{RelPath, Side};
use hub_tree::Mark;

/// What is known of a path on one side.
#[derive(Clone, Copy, Drop)]
pub(crate) struct Seen {
    /// Its mark.
    pub mark: Mark,
    /// Whether it has children that the profile doesn't reach.
    pub others: bool,
}

/// What is known of a path.
#[derive(Clone, Copy, Drop)]
pub(crate) struct Row<'a> {
    /// The path.
    pub path: &'a RelPath,
    /// What is known of it on the left.
    pub left: Seen,
    /// What is known of it on the right.
    pub right: Seen,
    /// Its mark in the archive.
    pub old: Mark,
}

impl Row<'_> {
    /// What is known of it on this side.
    pub fn seen(&self, side: Side) -> Seen
        ensures { result ≡ rows.seen_on side self.now }
    {
        match side {
            Side::Left => self.left,
            Side::Right => self.right,
        }
    }

    /// The mark on this side.
    pub fn mark(&self, side: Side) -> Mark
        ensures { result ≡ rows.mark_on side self.now }
    {
        self.seen(side).mark
    }

    /// Returns whether the marks of the two sides differ.
    pub fn differs(&self) -> bool
        ensures { result ≡ rows.is_different self.now }
    {
        !is_same(self.left.mark, self.right.mark)
    }

    /// Returns whether the side's mark is not that of the archive.
    pub fn is_updated(&self, side: Side) -> bool
        ensures { result ≡ rows.is_changed side self.now }
    {
        !is_same(self.mark(side), self.old)
    }

    /// Returns whether the path goes where the contents come from this side: only the other side has something there.
    pub fn goes(&self, from: Side) -> bool
        ensures { result ≡ rows.is_going from self.now }
    {
        is_present(self.mark(from.other())) && !is_present(self.mark(from))
    }

    /// Returns whether the path comes from this side: it has something there.
    pub fn comes(&self, from: Side) -> bool
        ensures { result ≡ rows.is_coming from self.now }
    {
        is_present(self.mark(from))
    }

    /// Returns whether anything is known of the path: it is on a side or in the archive.
    pub fn is_known(&self) -> bool
        ensures { result ≡ rows.is_anywhere self.now }
    {
        is_present(self.left.mark) || is_present(self.right.mark) || is_present(self.old)
    }
}
