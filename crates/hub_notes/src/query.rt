//! What the lines of a profile and of the rules say.

use hub_source::{Source, SourceLine, covers};

/// Returns whether a profile has no line `path`: then it has all of its roots.
pub fn has_no_path(source: &Source<'_>, section: usize) -> bool {
    for line in source.section_lines(section) {
        if line.value_of("path").is_some() {
            return false;
        }
    }
    true
}

/// The first line `path` of a profile whose value is this path or one above it.
pub fn line_above<'s, 'a>(
    source: &'s Source<'a>,
    section: usize,
    path: &str,
) -> Option<&'s SourceLine<'a>> {
    for line in source.section_lines(section) {
        if let Some(value) = line.value_of("path") {
            if covers(value, path) {
                return Some(line);
            }
        }
    }
    None
}

/// Returns whether a line of the rules is a rule.
pub fn is_rule(line: &SourceLine<'_>) -> bool {
    is_rule_name(line.name())
}

/// Returns whether a line of that name is a rule.
pub(crate) fn is_rule_name(name: &str) -> bool {
    name == "nolose" || name == "nochange" || name == "nonew"
}

/// Returns whether two texts are one root, or one lies within the other.
pub(crate) fn are_over(one: &str, other: &str) -> bool {
    is_same_root(one, other) || lies_within(one, other) || lies_within(other, one)
}

/// Returns whether a root lies within another one.
fn lies_within(root: &str, other: &str) -> bool {
    match root.strip_prefix(other.strip_suffix('/').unwrap_or(other)) {
        Some(rest) => rest.starts_with('/'),
        None => false,
    }
}

/// Returns whether two texts are one root.
pub fn is_same_root(one: &str, other: &str) -> bool {
    one.strip_suffix('/').unwrap_or(one) == other.strip_suffix('/').unwrap_or(other)
}
