//! Two profiles at a root of each, counted from the upper of the two.
ghost use Rattle.std.specs.Prelude.{◌≡◌, IfOk};
ghost use Rattle.hub_nested.specs.Meeting as said;
ghost use Rattle.hub_nested.specs.Said.{upper_of};

use crate::below::names_after;
use crate::placed::{asides, placed_from};
use hub_path::{RelPath, Root, Side};
use hub_profile::Profile;
use std::alloc::{AllocError, Global};

/// How two profiles meet at a root of each.
#[derive(Debug, Drop)]
pub enum Meeting {
    /// Neither root is over the other, so no path is below both.
    Apart,
    /// A specification of one of them can't be written: it has too many characters with the names from the upper root in
    /// front, or by itself.
    Unsaid,
    /// Both, at the upper root.
    Counted(Together),
}

/// Two profiles at one root, which no other root of them is nested with. All of their paths are counted from there.
#[derive(Debug, Drop)]
pub struct Together {
    /// The first profile.
    pub first: Profile,
    /// The second one.
    pub second: Profile,
    /// By how many names the first profile's own root lies below.
    pub first_names: usize,
    /// By how many names the second one's own root does.
    pub second_names: usize,
}

/// Returns how two profiles meet at the roots of these sides: as a set of both in which all paths are counted from the upper
/// root. It has a clash if the profiles have one there (`laws::clashes_are_counted_from_the_upper_root`).
pub fn meet(
    alloc: Global,
    first: &Profile,
    at: Side,
    second: &Profile,
    other_at: Side,
) -> Result<Meeting, AllocError>
    ensures { IfOk result (λ m. m ≡ said.meeting first.now at second.now other_at) }
{
    let own = first.root(at);
    let other = second.root(other_at);
    let Some(root) = upper_root(own, other)? else {
        return Ok(Meeting::Apart);
    };
    let names = names_down(alloc, &root, own)?;
    let other_names = names_down(alloc, &root, other)?;
    let (aside, other_aside) = asides(alloc, &root)?;
    let Some(one) = placed_from(alloc, first, at, &root, aside, &names)? else {
        return Ok(Meeting::Unsaid);
    };
    let Some(two) = placed_from(alloc, second, other_at, &root, other_aside, &other_names)? else {
        return Ok(Meeting::Unsaid);
    };
    Ok(Meeting::Counted(Together {
        first: one,
        second: two,
        first_names: names.len(),
        second_names: other_names.len(),
    }))
}

/// Copies the root that is over the other one, if one of them is.
fn upper_root(root: &Root, other: &Root) -> Result<Option<Root>, AllocError>
    ensures { IfOk result (λ o. o ≡ upper_of root.now other.now) }
{
    if other.is_within(root) {
        return Ok(Some(root.copy()?));
    }
    if root.is_within(other) {
        return Ok(Some(other.copy()?));
    }
    Ok(None)
}

/// Returns the names from a root down to one that it is over.
pub(crate) fn names_down(alloc: Global, root: &Root, lower: &Root) -> Result<RelPath, AllocError>
    ensures { IfOk result (λ p. p ≡ said.names_down root.now lower.now) }
{
    names_after(alloc, lower.path(), root.path().len())
}
