//! Patterns that a profile lacks.

use crate::sign::{Pattern, Sign, value_of};
use hub_glob::Kind;
use std::alloc::{AllocError, Global};

/// What a profile lacks so that Unison does as hubsync says.
#[derive(Drop)]
pub(crate) enum Missing {
    /// A line with this pattern, as it is written there.
    Line(String),
    /// A line with a pattern that can't be written.
    Unwritten,
    /// Lines `path`.
    Paths,
}

impl Missing {
    /// A line for these patterns.
    pub(crate) fn of_patterns(
        alloc: Global,
        kind: Kind,
        patterns: &[Vec<Sign<'_>>],
    ) -> Result<Missing, AllocError> {
        match value_of(alloc, kind, patterns)? {
            Some(value) => Ok(Missing::Line(value)),
            None => Ok(Missing::Unwritten),
        }
    }

    /// A line for this pattern.
    pub(crate) fn of_pattern(
        alloc: Global,
        pattern: &Pattern<'_, '_>,
    ) -> Result<Missing, AllocError> {
        let mut patterns = Vec::new(alloc);
        patterns.push(pattern.copied(alloc)?)?;
        Missing::of_patterns(alloc, pattern.kind, patterns.as_slice())
    }
}
