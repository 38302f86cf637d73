//! Profiles of which one root alone counts.
ghost use Rattle.std.specs.Prelude.{◌≡◌, [], ◌∷◌, Some, None, IfOk, IsTrue, if◌then◌else◌};
ghost use Rattle.hub_profile.specs.Facts.{are_roots};
ghost use Rattle.hub_nested.specs.Lifted as lifted;
ghost use Rattle.hub_nested.specs.Placed as placed;

use crate::said::said_from;
use hub_path::{RelPath, Root, Side};
use hub_profile::Profile;
use std::alloc::{AllocError, Global};

/// Returns the profile, said from the root, beside another root, if it can be written. The root is its own of that side, or
/// above that by these names.
pub(crate) fn placed_from(
    alloc: Global,
    profile: &Profile,
    side: Side,
    root: &Root,
    aside: Root,
    names: &RelPath,
) -> Result<Option<Profile>, AllocError>
    requires roots { IsTrue (are_roots (placed.two_roots side root.now aside)) }
    ensures { IfOk result (λ o. o ≡ (if lifted.can_be_said names.now profile.now
        then Some (placed.placed side root.now aside (lifted.said_from names.now profile.now))
        else None)) }
{
    match said_from(alloc, names, profile)? {
        Some(said) => Ok(Some(placed(said, side, root.copy()?, aside))),
        None => Ok(None),
    }
}

/// The profile with the root on that side, and another one on the other side.
pub(crate) fn placed(profile: Profile, side: Side, root: Root, aside: Root) -> Profile
    requires roots { IsTrue (are_roots (placed.two_roots side root aside)) }
    ensures { result ≡ placed.placed side root aside profile }
{
    profile.with_roots(two_roots(side, root, aside))
}

/// The root on that side, and the other one on the other side.
fn two_roots(side: Side, root: Root, aside: Root) -> [Root; 2]
    ensures { result ≡ placed.two_roots side root aside }
{
    match side {
        Side::Left => [root, aside],
        Side::Right => [aside, root],
    }
}

/// Returns two roots for the other sides: neither is nested with the other, nor with this one if that has a name.
pub(crate) fn asides(alloc: Global, root: &Root) -> Result<(Root, Root), AllocError>
    ensures { IfOk result (λ two. two ≡ placed.asides root.now) }
{
    let zero = zero_root(alloc)?;
    let one = one_root(alloc)?;
    if root.is_within(&zero) {
        return Ok((one, two_root(alloc)?));
    }
    if root.is_within(&one) {
        return Ok((zero, two_root(alloc)?));
    }
    Ok((zero, one))
}

/// Returns the root `/0`.
fn zero_root(alloc: Global) -> Result<Root, AllocError>
    ensures { IfOk result (λ r. r ≡ placed.zero_root) }
{
    match Root::read(alloc, "/0") {
        Ok(root) => Ok(root),
        Err(_) => Err(AllocError),
    }
}

/// Returns the root `/1`.
fn one_root(alloc: Global) -> Result<Root, AllocError>
    ensures { IfOk result (λ r. r ≡ placed.one_root) }
{
    match Root::read(alloc, "/1") {
        Ok(root) => Ok(root),
        Err(_) => Err(AllocError),
    }
}

/// Returns the root `/2`.
fn two_root(alloc: Global) -> Result<Root, AllocError>
    ensures { IfOk result (λ r. r ≡ placed.two_root) }
{
    match Root::read(alloc, "/2") {
        Ok(root) => Ok(root),
        Err(_) => Err(AllocError),
    }
}
