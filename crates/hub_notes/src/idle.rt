//! Rules for paths that no profile reaches.

use crate::query::{are_over, is_same_root};
use crate::said::Notes;
use crate::start::{Start, start_of};
use hub_source::{Said, Source, SourceLine};

/// Says which rule is for paths that no profile reaches. Of a pattern only what stands before its first wildcard is looked at, and
/// ignored paths count as reached. For Unison a rule holds at roots within its own one and around it, too: there all counts.
pub(crate) fn say_idle_rule(
    out: &mut Notes,
    source: &Source<'_>,
    profiles: &[SourceLine<'_>],
    section: usize,
    is_for_unison: bool,
) -> Said {
    match idle_rule(source, profiles, section, is_for_unison) {
        Some(line) => out.add_on(source, line, "no profile reaches what this rule is for:"),
        None => Ok(()),
    }
}

/// The first rule of a section that is for paths that none of these profiles reaches.
fn idle_rule<'s, 'a>(
    source: &'s Source<'a>,
    profiles: &[SourceLine<'_>],
    section: usize,
    is_for_unison: bool,
) -> Option<&'s SourceLine<'a>> {
    let mut root = "";
    for line in source.section_lines(section) {
        root = line.value_of("root").unwrap_or(root);
        if let Some(start) = start_of(line) {
            let is_spread = is_for_unison && has_nested(source, profiles, root);
            if !is_spread && is_idle(source, profiles, root, start) {
                return Some(line);
            }
        }
    }
    None
}

/// Returns whether some profiles have a root, but none of them reaches there a path that begins so.
fn is_idle(source: &Source<'_>, profiles: &[SourceLine<'_>], root: &str, start: Start<'_>) -> bool {
    let mut has_root = false;
    for profile in profiles {
        let lines = source.section_lines(profile.section);
        if lines.iter().any(|line| is_root(line, root)) {
            if may_reach(lines, start) {
                return false;
            }
            has_root = true;
        }
    }
    has_root
}

/// Returns whether one of the profiles has another root that lies within this one, or around it.
fn has_nested(source: &Source<'_>, profiles: &[SourceLine<'_>], root: &str) -> bool {
    profiles.iter().any(|profile| {
        let lines = source.section_lines(profile.section);
        lines.iter().any(|line| is_nested(line, root))
    })
}

/// Returns whether a line gives a profile a root that lies within another one, or around it.
fn is_nested(line: &SourceLine<'_>, root: &str) -> bool {
    line.value_of("root")
        .is_some_and(|own| are_over(own, root) && !is_same_root(own, root))
}

/// Returns whether a line gives a profile a root.
fn is_root(line: &SourceLine<'_>, root: &str) -> bool {
    line.value_of("root")
        .is_some_and(|own| is_same_root(own, root))
}

/// Returns whether a profile of these lines may reach a path that begins so.
fn may_reach(lines: &[SourceLine<'_>], start: Start<'_>) -> bool {
    let mut has_paths = false;
    for line in lines {
        if let Some(kept) = line.value_of("path") {
            if start.may_meet(kept) {
                return true;
            }
            has_paths = true;
        }
    }
    !has_paths
}
