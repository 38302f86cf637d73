//! Kept values in the order of paths.
ghost use Rattle.std.specs.Prelude.{◌≡◌, IfOk, true};
ghost use Rattle.hub_reach.specs.Apart as apart;
ghost use Rattle.hub_cert.specs.Nearness as near;

use hub_path::RelPath;
use std::alloc::{AllocError, Global};
use std::marker::Model;

/// The kept values of a profile, and references to them in the order of paths.
#[derive(Drop)]
pub(crate) struct KeptValues<'a> {
    paths: &'a [RelPath],
    sorted: Vec<&'a RelPath>,
}

impl<'a> Model for KeptValues<'a> {
    ghost use Rattle.std.specs.Prelude.{List};
    ghost use Rattle.hub_path.specs.Path.{Path};
    ghost use Rattle.hub_cert.specs.Nearness.{AreSorted, paths_at};

    ghost Value = { List Path };

    ghost view = { λ k. k.paths.now };

    ghost invariant = { λ k. AreSorted k.paths.now (paths_at k.sorted.items) };
}

impl<'a> KeptValues<'a> {
    /// Sorts references to the paths. It takes n log n comparisons.
    pub fn of(alloc: Global, paths: &'a [RelPath]) -> Result<KeptValues<'a>, AllocError>
        ensures { IfOk result (λ k. k ≡ paths.now) }
    {
        let mut sorted = references_to(alloc, paths)?;
        sorted.sort_unstable();
        Ok(KeptValues { paths, sorted })
    }

    /// Returns whether one of these is over one of the others, or the other way round. It takes no more steps than both have paths.
    pub fn are_near(&self, other: &KeptValues<'_>) -> bool
        ensures { result ≡ apart.are_near self.now other.now }
    {
        are_near_in_order(self.sorted.as_slice(), other.sorted.as_slice())
    }
}

/// Returns references to the paths, in their order.
fn references_to<'a>(alloc: Global, paths: &'a [RelPath]) -> Result<Vec<&'a RelPath>, AllocError>
    ensures { IfOk result (λ v. near.paths_at v.items ≡ paths.now) }
{
    let mut references = Vec::with_capacity(alloc, paths.len())?;
    for path in paths {
        references.push(path)?;
    }
    Ok(references)
}

/// Returns whether one of these paths is over one of those, or the other way round. Both are in the order of paths.
///
/// In this order only paths below a path come between it and one below it. So if the first path of one list comes before that of the
/// other one and isn't over it, then it is near none of the other list.
fn are_near_in_order(these: &[&RelPath], those: &[&RelPath]) -> bool
    requires these { near.are_in_order (near.paths_at these.now) ≡ true }
    requires those { near.are_in_order (near.paths_at those.now) ≡ true }
    ensures { result ≡ apart.are_near (near.paths_at these.now) (near.paths_at those.now) }
{
    let mut first = 0;
    let mut second = 0;
    while first < these.len() && second < those.len() {
        let one = these[first];
        let other = those[second];
        let is_later = other.cmp(one).is_lt();
        if is_first_over(one, other, is_later) {
            return true;
        }
        if is_later {
            second += 1;
        } else {
            first += 1;
        }
    }
    false
}

/// Returns whether of two paths the one that comes first is over the other one.
fn is_first_over(one: &RelPath, other: &RelPath, is_later: bool) -> bool
    ensures { result ≡ near.is_first_over one.now other.now is_later }
{
    if is_later {
        one.starts_with(other)
    } else {
        other.starts_with(one)
    }
}
