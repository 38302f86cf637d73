//! Lines that are proposed for profiles.

use crate::said::{Said, name_of, shown_whole};
use crate::source::{Source, SourceLine};
use hub_text::Lines;
use std::alloc::{AllocError, Global};

/// The preferences of lines that are proposed.
const PREFERENCES: [&str; 7] = [
    "ignore",
    "nocreation",
    "noupdate",
    "nodeletion",
    "nocreationpartial",
    "noupdatepartial",
    "nodeletionpartial",
];

/// A line that is proposed for a profile: one that ignores a path, or a bar at a root.
#[derive(Clone, Copy)]
pub struct Proposal<'t> {
    /// The section of the profile.
    pub section: usize,
    preference: &'t str,
    /// The value up to the root that it names.
    front: &'t str,
    /// The root that it names, as the section has it, or nothing.
    root: &'t str,
}

impl<'t> Proposal<'t> {
    /// The proposals for profiles of an input that are lines `NAME: PREFERENCE = VALUE` of a text, in their order. All other lines of it
    /// don't count, nor does its last one if that has no end.
    pub fn all_in(source: &Source<'_>, text: &'t [u8]) -> Result<Vec<Proposal<'t>>, AllocError> {
        let headings = source.profiles()?;
        let mut proposals = Vec::new(source.alloc());
        for line in Lines::new(text) {
            if line.is_ended {
                let text = str::from_utf8(line.text).unwrap_or("");
                if let Some(proposal) = proposal_in(headings.as_slice(), text) {
                    proposals.push(proposal)?;
                }
            }
        }
        Ok(proposals)
    }

    /// Returns whether its profile has its root otherwise than the section.
    pub fn is_rewritten(self, source: &Source<'_>) -> bool {
        written(source, self.section, self.root) != self.root
    }

    /// Adds a line of a remark: these words, and the proposal with its root as the profile has it.
    pub fn say(self, out: &mut String, source: &Source<'_>, words: &str) -> Said {
        let Proposal {
            preference,
            front,
            ..
        } = self;
        let name = name_of(source, self.section);
        let root = written(source, self.section, self.root);
        let arrow = if front.is_empty() || root.is_empty() {
            ""
        } else {
            " -> "
        };
        let line = format!(in source.alloc();
            "{words}{name}: {preference} = {front}{arrow}{root}"
        )?;
        let text = shown_whole(source.alloc(), line.as_bytes())?;
        writeln!(out, "hubsync: {text}")
    }

    /// The path that it ignores, if it ignores one.
    pub fn ignored_path(self, alloc: Global) -> Result<Option<String>, AllocError> {
        if self.preference != "ignore" {
            return Ok(None);
        }
        match self.front.strip_prefix("Path ") {
            Some(pattern) => Ok(Some(path_of(alloc, pattern)?)),
            None => Ok(None),
        }
    }
}

/// A root of a section as its profile has it, or nothing in place of nothing.
fn written<'r>(source: &Source<'r>, section: usize, root: &'r str) -> &'r str {
    if root.is_empty() {
        return root;
    }
    source.root_written(section, root).unwrap_or(root)
}

/// The proposal for one of the profiles with these headings that a line is.
fn proposal_in<'t>(headings: &[SourceLine<'_>], line: &'t str) -> Option<Proposal<'t>> {
    for heading in headings {
        let name = heading.profile().unwrap_or("");
        if let Some((preference, value)) = setting_for(name, line) {
            if PREFERENCES.contains(&preference) {
                return Some(proposal_of(heading.section, preference, value));
            }
        }
    }
    None
}

/// The name and the value that follow the name of a profile and `: ` in a line.
fn setting_for<'t>(name: &str, line: &'t str) -> Option<(&'t str, &'t str)> {
    let rest = line.strip_prefix(name)?;
    let setting = rest.strip_prefix(": ")?;
    setting.split_once(" = ")
}

/// The line that sets that preference to that value.
fn proposal_of<'t>(section: usize, preference: &'t str, value: &'t str) -> Proposal<'t> {
    let (front, root) = if preference == "ignore" {
        (value, "")
    } else {
        value.rsplit_once(" -> ").unwrap_or(("", value))
    };
    Proposal {
        section,
        preference,
        front,
        root,
    }
}

/// The path that a pattern matches in which each character stands for itself: it may stand behind `\` or be a set.
fn path_of(alloc: Global, pattern: &str) -> Result<String, AllocError> {
    let mut path = String::new(alloc);
    let mut is_escaped = false;
    for c in pattern.chars() {
        if is_escaped || !matches!(c, '\\' | '[' | ']') {
            path.push(c)?;
        }
        is_escaped = !is_escaped && c == '\\';
    }
    Ok(path)
}
