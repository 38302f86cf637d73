//! Which line of a profile ignores a path.
ghost use Rattle.std.specs.Prelude.{◌≤◌, length};

use hub_glob::PathSpec;
use hub_notes::line_above;
use hub_path::RelPath;
use hub_source::{Source, SourceLine};
use std::alloc::{AllocError, Global};

/// The first line `ignore` of a profile that matches a path, or a folder between it and the first line `path` that is above it,
/// if no `ignorenot` matches there too.
pub(crate) fn ignoring_line<'a>(
    source: &Source<'a>,
    section: usize,
    path: &str,
) -> Result<Option<SourceLine<'a>>, AllocError> {
    match RelPath::from_text(source.alloc(), path)? {
        Some(path) => line_ignoring(source, section, &path),
        None => Ok(None),
    }
}

/// The same for a path that was read.
fn line_ignoring<'a>(
    source: &Source<'a>,
    section: usize,
    path: &RelPath,
) -> Result<Option<SourceLine<'a>>, AllocError> {
    let kept = kept_len(source, section, path)?;
    for i in 0..path.len() {
        if kept <= i + 1 && matching_line(source, section, "ignorenot", path, i + 1).is_none() {
            if let Some(line) = matching_line(source, section, "ignore", path, i + 1) {
                return Ok(Some(line));
            }
        }
    }
    Ok(None)
}

/// How many names the first line `path` has that is above a path, or 0 if there is none.
fn kept_len(source: &Source<'_>, section: usize, path: &RelPath) -> Result<usize, AllocError> {
    let Some(line) = line_above(source, section, path.as_str()) else {
        return Ok(0);
    };
    let kept = RelPath::from_text(source.alloc(), line.value().trim_end_matches('/'))?;
    Ok(kept.map_or(0, |kept| kept.len()))
}

/// The first line that sets `ignore` or `ignorenot` to a pattern that matches the first names of a path.
fn matching_line<'a>(
    source: &Source<'a>,
    section: usize,
    name: &str,
    path: &RelPath,
    len: usize,
) -> Option<SourceLine<'a>>
    requires { len ≤ length path.now }
{
    for line in source.section_lines(section) {
        if let Some(pattern) = line.value_of(name) {
            if is_match(source.alloc(), pattern, path, len) {
                return Some(*line);
            }
        }
    }
    None
}

/// Returns whether a text is a pattern that matches the first names of a path.
fn is_match(alloc: Global, pattern: &str, path: &RelPath, len: usize) -> bool
    requires { len ≤ length path.now }
{
    match PathSpec::read(alloc, pattern) {
        Ok(spec) => spec.matches_front(path, len),
        Err(_) => false,
    }
}
