//! The lines of overlaps in Unison.
ghost use Rattle.std.specs.Prelude.{◌≡◌, ◌++◌, MatchOption, IfOk, IfSome, Some, None, drop, length, slice_get, string_bytes};
ghost use Rattle.std.specs.List.{find};
ghost use Rattle.std.specs.Option.{option_map};
ghost use Rattle.hub_path.specs.Path.{is_over};
ghost use Rattle.hub_report.specs.NestedOverlap as lines;

use crate::parts::joined;
use crate::refusal::{breach_line, name_at, place_text};
use hub_cert::{CheckFault, Place};
use hub_path::{RelPath, Root};
use hub_profile::{Profile, Rule};
use std::alloc::{AllocError, Global};

/// The line of a fault that shows a path, or nothing for another fault. Roots of two profiles may be nested.
pub(crate) fn unison_shown(
    alloc: Global,
    profiles: &[Profile],
    rules: &[Rule],
    fault: &CheckFault,
) -> Result<String, AllocError>
    ensures { IfOk result (λ t. string_bytes t
        ≡ lines.unison_shown (record { profiles = profiles.now; rules = rules.now }) fault.now) }
{
    match fault {
        CheckFault::Overlap {
            writer,
            other,
            place,
            held,
            path,
        } => unison_overlap(alloc, profiles, *writer, *other, *place, held, path),
        CheckFault::Breach {
            profile,
            rule,
            path,
        } => breach_line(alloc, name_at(profiles, *profile), rules, *rule, path),
        _ => Ok(String::new(alloc)),
    }
}

fn unison_overlap(
    alloc: Global,
    profiles: &[Profile],
    writer: usize,
    other: usize,
    place: Place,
    held: &RelPath,
    path: &RelPath,
) -> Result<String, AllocError>
    ensures { IfOk result (λ t. string_bytes t
        ≡ lines.unison_overlap profiles.now writer other place held.now path.now) }
{
    let held = held.text()?;
    let at = place_text(alloc, profiles.get(writer), place)?;
    let root = root_at_place(profiles.get(writer), place);
    let reached = reached_by(alloc, root, profiles.get(other), path)?;
    let parts = [
        "overlap: ",
        name_at(profiles, writer),
        " writes ",
        held.as_str(),
        " at ",
        at.as_str(),
        ", ",
        name_at(profiles, other),
        reached.as_str(),
    ];
    joined(alloc, &parts)
}

/// The writer's root at a replica.
pub(crate) fn root_at_place(writer: Option<&Profile>, place: Place) -> Option<&Root>
    ensures { option_map (λ r. r.now) result
        ≡ lines.root_at_place (option_map (λ W. W.now) writer.entry) place }
{
    match (writer, place) {
        (Some(writer), Place::Replica(side)) => Some(writer.root(side)),
        _ => None,
    }
}

/// What the other profile reaches, with its own root if that isn't the writer's.
fn reached_by(
    alloc: Global,
    root: Option<&Root>,
    other: Option<&Profile>,
    path: &RelPath,
) -> Result<String, AllocError>
    ensures { IfOk result (λ t. string_bytes t
        ≡ lines.reached_by (option_map (λ r. r.now) root.entry)
        (option_map (λ O. O.now) other.entry) path.now) }
{
    match (root, other) {
        (Some(root), Some(other)) => reached_from(alloc, root, other, path),
        _ => reached_here(alloc, path),
    }
}

fn reached_from(
    alloc: Global,
    root: &Root,
    other: &Profile,
    path: &RelPath,
) -> Result<String, AllocError>
    ensures { IfOk result (λ t. string_bytes t
        ≡ lines.reached_from root.now other.now path.now) }
{
    if other.has_root(root) {
        return reached_here(alloc, path);
    }
    let whole = below(root.path(), path)?;
    reached_below(alloc, &whole, root_over(other.roots(), &whole), path)
}

/// The first of these roots that a path from the top of the file system is at or below.
fn root_over<'a>(roots: &'a [Root], whole: &RelPath) -> Option<&'a Root>
    ensures { option_map (λ r. r.now) result ≡ find (λ s. is_over s whole.now) roots.now }
{
    for root in roots {
        if whole.starts_with(root.path()) {
            return Some(root);
        }
    }
    None
}

/// What is reached at that root, if there is one.
fn reached_below(
    alloc: Global,
    whole: &RelPath,
    root: Option<&Root>,
    path: &RelPath,
) -> Result<String, AllocError>
    ensures { IfOk result (λ t. string_bytes t
        ≡ lines.reached_below whole.now (option_map (λ r. r.now) root.entry) path.now) }
{
    match root {
        Some(root) => {
            let rest = without_first(alloc, whole, root.path().len())?;
            reached_at(alloc, root, &rest)
        }
        None => reached_here(alloc, path),
    }
}

/// What is reached at the writer's root.
fn reached_here(alloc: Global, path: &RelPath) -> Result<String, AllocError>
    ensures { IfOk result (λ t. string_bytes t ≡ lines.reached_here path.now) }
{
    let path = path.text()?;
    joined(alloc, &[" reaches ", path.as_str(), "\n"])
}

/// What is reached at another root.
fn reached_at(alloc: Global, root: &Root, path: &RelPath) -> Result<String, AllocError>
    ensures { IfOk result (λ t. string_bytes t ≡ lines.reached_at root.now path.now) }
{
    let at = root.text()?;
    if path.len() == 0 {
        return joined(alloc, &[" has its root at ", at.as_str(), "\n"]);
    }
    let path = path.text()?;
    joined(
        alloc,
        &[" reaches ", path.as_str(), " at ", at.as_str(), "\n"],
    )
}

/// A path below a root, from the top of the file system.
fn below(root: &RelPath, path: &RelPath) -> Result<RelPath, AllocError>
    ensures { IfOk result (λ p. p ≡ root.now ++ path.now) }
{
    let mut whole = root.copy()?;
    for i in 0..path.len() {
        let name = path.name(i).copy()?;
        whole = whole.child(name)?;
    }
    Ok(whole)
}

/// The path without so many of its first names.
fn without_first(alloc: Global, path: &RelPath, names: usize) -> Result<RelPath, AllocError>
    ensures { IfOk result (λ p. p ≡ drop names path.now) }
{
    let mut rest = RelPath::top(alloc);
    for i in names..path.len() {
        let name = path.name(i).copy()?;
        rest = rest.child(name)?;
    }
    Ok(rest)
}
