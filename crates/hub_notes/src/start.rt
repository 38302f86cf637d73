//! How the paths begin that a rule is for.

use crate::query::is_rule;
use hub_source::{SourceLine, covers, trimmed};
use hub_text::first_word;

/// Characters that stand for others in a pattern.
const WILDCARDS: [char; 5] = ['*', '?', '[', '{', '\\'];

/// The characters before a pattern's first wildcard. Each path that the pattern matches begins with them, and so does each path
/// below it.
#[derive(Clone, Copy)]
pub(crate) struct Start<'a> {
    text: &'a str,
    /// Whether they are the whole pattern.
    is_whole: bool,
}

impl<'a> Start<'a> {
    /// The whole pattern, if it has no wildcard.
    pub(crate) fn whole(&self) -> Option<&'a str> {
        if self.is_whole { Some(self.text) } else { None }
    }

    /// Returns whether a line `path` of this value may keep a path that is matched, or one above or below it.
    pub(crate) fn may_meet(&self, kept: &str) -> bool {
        covers(kept, self.text)
            || if self.is_whole {
                covers(self.text, kept)
            } else {
                kept.starts_with(self.text)
            }
    }
}

/// How the paths begin that a rule is for, if it is a `Path` or a `BelowPath`. Nothing is known of those of a `Name`.
pub(crate) fn start_of<'a>(line: &SourceLine<'a>) -> Option<Start<'a>> {
    if !is_rule(line) {
        return None;
    }
    let (kind, rest) = first_word(line.value());
    if kind == "Path" || kind == "BelowPath" {
        Some(pattern_start(trimmed(rest)))
    } else {
        None
    }
}

/// The start of a pattern.
fn pattern_start(pattern: &str) -> Start<'_> {
    match pattern.split_once(WILDCARDS) {
        Some((text, _)) => Start {
            text,
            is_whole: false,
        },
        None => Start {
            text: pattern,
            is_whole: true,
        },
    }
}
