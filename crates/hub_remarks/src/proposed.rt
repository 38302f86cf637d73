//! What lines that are proposed for profiles take away from them.

use hub_source::{Proposal, Said, Source, covers, shown_whole};
use std::alloc::{AllocError, Global};

/// How many paths of a profile are listed at most.
const LISTED: usize = 10;

/// Says what the profiles don't synchronize any more with these lines.
pub(crate) fn say_taken_away(
    out: &mut String,
    source: &Source<'_>,
    proposals: &[Proposal<'_>],
) -> Said {
    for heading in source.profiles()? {
        let paths = paths_taken(source.alloc(), proposals, heading.section)?;
        if !paths.is_empty() {
            let name = heading.profile().unwrap_or("");
            say_taken(out, source.alloc(), name, paths.as_slice())?;
        }
    }
    Ok(())
}

/// Says that a profile doesn't synchronize these paths any more.
fn say_taken(out: &mut String, alloc: Global, name: &str, paths: &[String]) -> Said {
    write!(out, "hubsync: {name} then no longer synchronizes")?;
    for (at, path) in paths.iter().take(LISTED).enumerate() {
        let path = shown_whole(alloc, path.as_bytes())?;
        out.push_str(if at == 0 { " " } else { ", " })?;
        out.push_str(path.as_str())?;
    }
    match paths.len().saturating_sub(LISTED) {
        0 => out.push_str("\n"),
        more => writeln!(out, " and {more} more"),
    }
}

/// The paths that those of these lines ignore which are for a profile.
fn paths_taken(
    alloc: Global,
    proposals: &[Proposal<'_>],
    section: usize,
) -> Result<Vec<String>, AllocError> {
    let mut paths = Vec::new(alloc);
    for proposal in proposals {
        if proposal.section == section {
            if let Some(path) = proposal.ignored_path(alloc)? {
                paths.push(path)?;
            }
        }
    }
    Ok(paths)
}

/// Says which profiles are better run by themselves than with these lines: those that force a root, as a backup does, and those that would
/// not synchronize a path at all that they have a line for. Returns whether there is one.
pub(crate) fn say_alone(
    out: &mut String,
    source: &Source<'_>,
    proposals: &[Proposal<'_>],
) -> Result<bool, AllocError> {
    let mut has_one = false;
    for heading in source.profiles()? {
        if loses_much(source, proposals, heading.section)? {
            let name = heading.profile().unwrap_or("");
            writeln!(
                out,
                "hubsync: let {name} run by itself, when no other profile runs"
            )?;
            has_one = true;
        }
    }
    Ok(has_one)
}

/// Returns whether these lines are for a profile that forces a root, or one of them takes away a path that it has a line for.
fn loses_much(
    source: &Source<'_>,
    proposals: &[Proposal<'_>],
    section: usize,
) -> Result<bool, AllocError> {
    if !proposals.iter().any(|proposal| proposal.section == section) {
        return Ok(false);
    }
    if forces_root(source, section) {
        return Ok(true);
    }
    let paths = paths_taken(source.alloc(), proposals, section)?;
    for path in paths.iter() {
        if takes_line(source, section, path.as_str()) {
            return Ok(true);
        }
    }
    Ok(false)
}

/// Returns whether a profile forces a root.
fn forces_root(source: &Source<'_>, section: usize) -> bool {
    source
        .section_lines(section)
        .iter()
        .any(|line| line.name() == "force")
}

/// Returns whether a path is one that a profile has a line for, or lies above it.
fn takes_line(source: &Source<'_>, section: usize, path: &str) -> bool {
    source.section_lines(section).iter().any(|line| {
        line.value_of("path")
            .is_some_and(|value| covers(path, value))
    })
}
