//! Paths below a path.
ghost use Rattle.std.specs.Prelude.{◌≡◌, ◌++◌, ◌∷◌, [], drop, length, map, IfOk, IsTrue};
ghost use Rattle.std.specs.List.{filter, list_any};
ghost use Rattle.hub_path.specs.Path.{is_over};
ghost use Rattle.hub_nested.specs.Lifted as lifted;
ghost use Rattle.hub_nested.specs.Meeting as said;

use hub_path::RelPath;
use hub_text::Items;
use std::alloc::{AllocError, Global};

/// Returns paths below a path as paths from where that begins.
pub(crate) fn each_below(
    alloc: Global,
    front: &RelPath,
    paths: &[RelPath],
) -> Result<Items<RelPath>, AllocError>
    ensures { IfOk result (λ ps. ps ≡ map (λ v. front.now ++ v) paths.now) }
{
    let mut each = Items::new(alloc);
    for path in paths {
        each.push(below(front, path)?)?;
    }
    Ok(each)
}

/// Returns a path below another one as a path from where that begins.
fn below(front: &RelPath, path: &RelPath) -> Result<RelPath, AllocError>
    ensures { IfOk result (λ p. p ≡ front.now ++ path.now) }
{
    let mut whole = front.copy()?;
    for i in 0..path.len() {
        let name = path.name(i).copy()?;
        whole = whole.child(name)?;
    }
    Ok(whole)
}

/// Returns the names of a path from that depth on, as one path.
pub(crate) fn names_after(
    alloc: Global,
    path: &RelPath,
    depth: usize,
) -> Result<RelPath, AllocError>
    ensures { IfOk result (λ p. p ≡ drop depth path.now) }
{
    let mut rest = RelPath::top(alloc);
    for i in depth..path.len() {
        let name = path.name(i).copy()?;
        rest = rest.child(name)?;
    }
    Ok(rest)
}

/// Returns what kept values keep below a path, where nothing is ignored.
pub(crate) fn paths_below(
    alloc: Global,
    path: &RelPath,
    values: &[RelPath],
) -> Result<Items<RelPath>, AllocError>
    ensures { IfOk result (λ ps. ps ≡ lifted.paths_below path.now values.now) }
{
    if is_below_some(path, values) {
        let mut own = Items::new(alloc);
        own.push(path.copy()?)?;
        return Ok(own);
    }
    values_below(alloc, path, values)
}

/// Returns whether one of these values is over the path.
fn is_below_some(path: &RelPath, values: &[RelPath]) -> bool
    ensures { result ≡ list_any (λ v. is_over v path.now) values.now }
{
    values.iter().any(|value| path.starts_with(value))
}

/// Returns the values that the path is over.
fn values_below(
    alloc: Global,
    path: &RelPath,
    values: &[RelPath],
) -> Result<Items<RelPath>, AllocError>
    ensures { IfOk result (λ ps. ps ≡ filter (λ v. is_over path.now v) values.now) }
{
    let mut lower = Items::new(alloc);
    for value in values {
        if value.starts_with(path) {
            lower.push(value.copy()?)?;
        }
    }
    Ok(lower)
}
