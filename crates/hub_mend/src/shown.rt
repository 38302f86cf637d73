//! Kept values that show a clash without a search.
use crate::line::paths_over;
use hub_path::{Name, RelPath};
use hub_profile::Profile;
use hub_reach::{reaches, writes_at};
use std::alloc::{AllocError, Global};

/// Returns whether a kept value of two profiles shows that they clash: at a root of both, one of them writes it, or a path over it or
/// below it, that the other one reaches.
pub(crate) fn values_show(alloc: Global, profiles: &[Profile]) -> Result<bool, AllocError> {
    match profiles {
        [one, two] => Ok(own_show(alloc, one, two)? || own_show(alloc, two, one)?),
        _ => Ok(false),
    }
}

/// Returns whether a kept value of the first profile shows that. It has to lie at or below one of the other profile.
fn own_show(alloc: Global, owner: &Profile, other: &Profile) -> Result<bool, AllocError> {
    for value in owner.paths() {
        for top in other.paths() {
            if value.starts_with(top) && shows(alloc, owner, value, other, top)? {
                return Ok(true);
            }
        }
    }
    Ok(false)
}

/// Returns whether a kept value shows that, which lies at or below one of the other profile.
fn shows(
    alloc: Global,
    owner: &Profile,
    value: &RelPath,
    other: &Profile,
    top: &RelPath,
) -> Result<bool, AllocError> {
    if !reaches(owner, value) {
        return Ok(false);
    }
    if writes_where(other, owner, value) && reaches(other, value) {
        return Ok(true);
    }
    let over = paths_over(alloc, value, top.len())?;
    if writes_over(other, over.as_slice(), owner) {
        return Ok(true);
    }
    if !reaches(other, value) {
        return Ok(false);
    }
    let below = path_below(alloc, value)?;
    Ok(
        writes_where(owner, other, value)
            || one_writes(owner, other, &below) && reaches(owner, &below) && reaches(other, &below),
    )
}

/// Returns whether a profile writes one of these paths, of which the last one is the highest, at a root that another one has, too.
/// Below a path that it doesn't reach it reaches none, so the highest one tells that it may write.
fn writes_over(profile: &Profile, over: &[RelPath], owner: &Profile) -> bool {
    for path in over.iter().rev() {
        if writes_where(profile, owner, path) {
            return reaches(profile, path);
        }
    }
    false
}

/// Returns whether one of two profiles may write a path at a root of both, if it reaches it.
fn one_writes(one: &Profile, two: &Profile, path: &RelPath) -> bool {
    writes_where(one, two, path) || writes_where(two, one, path)
}

/// Returns whether a profile may write a path, if it reaches it, at a root that another one has, too.
fn writes_where(profile: &Profile, other: &Profile, path: &RelPath) -> bool {
    profile.roots().iter().any(|root| other.has_root(root) && writes_at(profile, root, path))
}

/// Some path below a path.
fn path_below(alloc: Global, path: &RelPath) -> Result<RelPath, AllocError> {
    match Name::read(alloc, "any") {
        Ok(name) => path.child(name),
        Err(_) => path.copy(),
    }
}
