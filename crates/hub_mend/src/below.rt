//! Roots of two profiles that are nested, and paths below them.
use hub_path::{RelPath, Root};
use hub_profile::{Profile, Rule};
use std::alloc::{AllocError, Global};

/// Returns whether a root lies within another one.
pub(crate) fn is_below(root: &Root, other: &Root) -> bool {
    root != other && root.is_within(other)
}

/// Returns whether one of two different roots lies within the other.
pub(crate) fn are_nested(root: &Root, other: &Root) -> bool {
    is_below(root, other) || is_below(other, root)
}

/// Returns whether two profiles have a root in common.
pub(crate) fn share_root(one: &Profile, other: &Profile) -> bool {
    one.roots().iter().any(|root| other.has_root(root))
}

/// Returns whether a root of a profile is nested with one of another profile.
pub(crate) fn have_nested(one: &Profile, other: &Profile) -> bool {
    one.roots().iter().any(|root| is_nested_with(root, other))
}

/// Returns whether a root is nested with one of a profile.
pub(crate) fn is_nested_with(root: &Root, other: &Profile) -> bool {
    other.roots().iter().any(|own| are_nested(own, root))
}

/// Returns whether the root of that rule is nested with one of a profile, or with that of another rule.
pub(crate) fn is_rule_nested(profile: &Profile, rules: &[Rule], rule: &Rule) -> bool {
    is_nested_with(&rule.root, profile)
        || rules
            .iter()
            .any(|other| are_nested(&other.root, &rule.root))
}

/// Paths at another root as they are from a root that is nested with it. Those that aren't below the root are left out.
pub(crate) fn paths_from(
    alloc: Global,
    root: &Root,
    other: &Root,
    paths: &[RelPath],
) -> Result<Vec<RelPath>, AllocError> {
    let mut parts = Vec::new(alloc);
    for path in paths {
        let whole = joined(other.path(), path)?;
        if whole.len() > root.path().len() && whole.starts_with(root.path()) {
            parts.push(without_first(alloc, &whole, root.path().len())?)?;
        }
    }
    Ok(parts)
}

/// A path below another one.
fn joined(top: &RelPath, path: &RelPath) -> Result<RelPath, AllocError> {
    let mut whole = top.copy()?;
    for number in 0..path.len() {
        whole = whole.child(path.name(number).copy()?)?;
    }
    Ok(whole)
}

/// A path without so many of its first names.
fn without_first(alloc: Global, path: &RelPath, names: usize) -> Result<RelPath, AllocError> {
    let mut rest = RelPath::top(alloc);
    for number in names..path.len() {
        rest = rest.child(path.name(number).copy()?)?;
    }
    Ok(rest)
}
