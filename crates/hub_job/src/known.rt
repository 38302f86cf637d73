//! Paths that are in memory already.
ghost use Rattle.std.specs.Prelude.{◌≡◌};

use crate::op::{Next, Op};
use hub_path::{RelPath, Side};
use hub_text::is_equal;
use hub_tree::{Archive, Mark};
use std::cmp::Ordering;
use std::collections::btree_map::Iter;

/// How many paths of the archive are passed over for one Look.
const PASSED: usize = 8;

/// The paths of a job's archive, which its Looks share: they come in the same order. Nothing that a job does depends on it.
#[derive(Drop)]
pub(crate) struct Known<'a> {
    left: Ahead<'a>,
    right: Ahead<'a>,
}

/// Paths of an archive in ascending order, from the first one that no Look of a side has come past.
#[derive(Drop)]
struct Ahead<'a> {
    first: Option<&'a RelPath>,
    rest: Iter<'a, RelPath, Mark>,
}

impl<'a> Known<'a> {
    /// Returns the paths of an archive.
    pub(crate) fn new(archive: &'a Archive) -> Known<'a> {
        Known {
            left: Ahead::new(archive),
            right: Ahead::new(archive),
        }
    }

    /// Returns the same. The path of a Look takes no memory of its own if the archive has it.
    pub(crate) fn sharing(&mut self, next: Next) -> Next
        ensures { result ≡ next }
    {
        match next {
            Next::Ask(Side::Left, Op::Look(path)) => {
                Next::Ask(Side::Left, Op::Look(self.left.sharing(path)))
            }
            Next::Ask(Side::Right, Op::Look(path)) => {
                Next::Ask(Side::Right, Op::Look(self.right.sharing(path)))
            }
            other => other,
        }
    }
}

impl<'a> Ahead<'a> {
    /// Returns all paths of an archive.
    fn new(archive: &'a Archive) -> Ahead<'a> {
        let mut ahead = Ahead {
            first: None,
            rest: archive.iter(),
        };
        ahead.pass();
        ahead
    }

    /// Passes over the first path.
    fn pass(&mut self) {
        self.first = match self.rest.next() {
            Some((path, _)) => Some(path),
            None => None,
        };
    }

    /// Returns the same path, and passes over those before it.
    fn sharing(&mut self, path: RelPath) -> RelPath
        ensures { result ≡ path }
    {
        for _ in 0..PASSED {
            match self.first {
                Some(first) if is_equal(first, &path) => return copy_or(first, path),
                Some(first) if first.cmp(&path) == Ordering::Less => self.pass(),
                _ => return path,
            }
        }
        path
    }
}

/// Returns a copy of the first of two paths that are the same, or the second.
fn copy_or(first: &RelPath, path: RelPath) -> RelPath
    requires { first.now ≡ path }
    ensures { result ≡ path }
{
    match first.copy() {
        Ok(copy) => copy,
        Err(_) => path,
    }
}
