//! Bars on paths.
//!
//! Unison tests such a bar at the item alone: the topmost path that differs. To hubsync it holds at each path that would change.

use crate::dotted::is_covered;
use crate::line::is_starred;
use crate::missing::Missing;
use crate::query::is_same_root;
use crate::setting::{Setting, written_root};
use crate::sign::{Choices, Pattern, Sign, front_of, names_of, signs_of_path};
use hub_glob::Kind;
use hub_source::{Source, trimmed};
use std::alloc::{AllocError, Global};

/// A bar on paths.
#[derive(Clone, Copy)]
pub(crate) struct PathBar<'a> {
    pub(crate) name: &'a str,
    pub(crate) pattern: &'a str,
    pub(crate) root: &'a str,
    /// Whether Unison sees its arrow: a blank stands on both sides of it. (Further blanks do no harm, as was observed.)
    has_blanks: bool,
}

/// The bar on paths that a line of that name and value sets.
pub(crate) fn read_bar<'a>(name: &'a str, value: &'a str) -> Option<PathBar<'a>> {
    let verb = name.strip_suffix("partial")?;
    if verb != "nodeletion" && verb != "noupdate" && verb != "nocreation" {
        return None;
    }
    let (before, after) = value.rsplit_once("->")?;
    Some(PathBar {
        name,
        pattern: trimmed(before),
        root: trimmed(after),
        has_blanks: before.ends_with(' ') && after.starts_with(' '),
    })
}

/// What is said of a bar whose arrow Unison doesn't see.
pub(crate) fn arrow_words(
    source: &Source<'_>,
    line: &Setting<'_>,
) -> Result<Option<String>, AllocError> {
    let Some(bar) = line.bar else {
        return Ok(None);
    };
    if bar.has_blanks {
        return Ok(None);
    }
    let (name, pattern) = (bar.name, bar.pattern);
    let root = written_root(source, line, bar.root);
    let words = format!(in source.alloc();
        "Unison bars nothing without blanks around the arrow: write {name} = {pattern} -> {root}"
    )?;
    Ok(Some(words))
}

/// The patterns of all bars of the same name at the same root.
pub(crate) fn like_bars<'s>(
    alloc: Global,
    lines: &'s [Setting<'_>],
    bar: PathBar<'_>,
) -> Result<Vec<&'s Choices>, AllocError> {
    let mut bars = Vec::new(alloc);
    for line in lines {
        if let (Some(other), Some(choices)) = (line.bar, &line.pattern) {
            if other.name == bar.name && is_same_root(other.root, bar.root) {
                bars.push(choices)?;
            }
        }
    }
    Ok(bars)
}

/// Returns whether a profile keeps the whole root of a bar from what the bar is for.
pub(crate) fn is_kept_whole(lines: &[Setting<'_>], bar: PathBar<'_>) -> bool {
    let verb = bar.name.strip_suffix("partial").unwrap_or("");
    sets_root(lines, "force", bar.root)
        || sets_root(lines, verb, bar.root)
        || (verb == "nodeletion" && sets_root(lines, "noupdate", bar.root))
}

/// Returns whether a profile sets a preference to a root.
pub(crate) fn sets_root(lines: &[Setting<'_>], name: &str, root: &str) -> bool {
    lines.iter().any(|line| line
        .value_of(name)
        .is_some_and(|own| is_same_root(own, root)))
}

/// The values of a profile's lines `path`, or the empty one, which is the whole replica.
pub(crate) fn kept_values<'a>(
    alloc: Global,
    lines: &[Setting<'a>],
) -> Result<Vec<&'a str>, AllocError> {
    let mut kept = Vec::new(alloc);
    for line in lines {
        if let Some(value) = line.value_of("path") {
            kept.push(value.strip_suffix('/').unwrap_or(value))?;
        }
    }
    if kept.is_empty() {
        kept.push("")?;
    }
    Ok(kept)
}

/// How many names a path has.
pub(crate) fn count_names(path: &str) -> usize {
    if path.is_empty() {
        0
    } else {
        path.split('/').count()
    }
}

/// What is said of a bar below a folder that isn't barred.
pub(crate) fn bar_words(
    source: &Source<'_>,
    lines: &[Setting<'_>],
    line: &Setting<'_>,
) -> Result<Option<String>, AllocError> {
    let alloc = source.alloc();
    let Some(bar) = line.bar else {
        return Ok(None);
    };
    let Some(own) = &line.pattern else {
        return Ok(None);
    };
    if is_kept_whole(lines, bar) {
        return Ok(None);
    }
    match missing_bar(alloc, lines, bar, own)? {
        Some(missing) => {
            let root = written_root(source, line, bar.root);
            Ok(Some(words_on_missing(alloc, bar.name, root, missing)?))
        }
        None => Ok(None),
    }
}

/// The words that say which bar of that name is missing at a root.
fn words_on_missing(
    alloc: Global,
    name: &str,
    root: &str,
    missing: Missing,
) -> Result<String, AllocError> {
    let remedy = match missing {
        Missing::Line(pattern) => {
            format!(in alloc; "add, for Unison too: {name} = {pattern} -> {root}")?
        }
        Missing::Unwritten => {
            String::from_str(
                alloc,
                "the folder above it needs one, and no line can have its name",
            )?
        }
        Missing::Paths => String::from_str(alloc, "give the profile path lines")?,
    };
    format!(in alloc; "Unison tests this bar at the topmost changed path alone: {remedy}")
}

/// The first bar that is missing above what a bar is for.
fn missing_bar(
    alloc: Global,
    lines: &[Setting<'_>],
    bar: PathBar<'_>,
    own: &Choices,
) -> Result<Option<Missing>, AllocError> {
    let bars = like_bars(alloc, lines, bar)?;
    let kept = kept_values(alloc, lines)?;
    for signs in own.signs()?.as_slice() {
        let pattern = Pattern {
            kind: own.kind,
            signs: signs.as_slice(),
        };
        if let Some(missing) = missing_above(alloc, pattern, kept.as_slice(), bars.as_slice())? {
            return Ok(Some(missing));
        }
    }
    Ok(None)
}

/// The same for one choice of its pattern.
fn missing_above(
    alloc: Global,
    pattern: Pattern<'_, '_>,
    kept: &[&str],
    bars: &[&Choices],
) -> Result<Option<Missing>, AllocError> {
    for path in kept {
        let missing = match pattern.kind {
            Kind::Name => missing_on_names(alloc, *path, bars)?,
            _ => missing_on_path(alloc, pattern, *path, bars)?,
        };
        if missing.is_some() {
            return Ok(missing);
        }
    }
    Ok(None)
}

/// The bar that is missing for a name at any depth below a kept path: one on all that is below it.
fn missing_on_names(
    alloc: Global,
    kept: &str,
    bars: &[&Choices],
) -> Result<Option<Missing>, AllocError> {
    if kept.is_empty() {
        return Ok(Some(Missing::Paths));
    }
    let signs = signs_of_path(alloc, kept)?;
    let form = Pattern {
        kind: Kind::BelowPath,
        signs: signs.as_slice(),
    };
    if is_covered(bars, &form)? {
        return Ok(None);
    }
    Ok(Some(missing_on(alloc, kept, &form)?))
}

/// The bar of that pattern, which is missing on a kept path. To Unison a last name `*` is another path than to hubsync.
fn missing_on(alloc: Global, kept: &str, pattern: &Pattern<'_, '_>) -> Result<Missing, AllocError> {
    if is_starred(kept) {
        return Ok(Missing::Unwritten);
    }
    Missing::of_pattern(alloc, pattern)
}

/// The bar that is missing for a pattern of paths, on a path from the kept one down to the folder above what is matched.
fn missing_on_path(
    alloc: Global,
    pattern: Pattern<'_, '_>,
    kept: &str,
    bars: &[&Choices],
) -> Result<Option<Missing>, AllocError> {
    let own = signs_of_path(alloc, kept)?;
    if !is_below(alloc, pattern, kept, own.as_slice())? {
        return Ok(None);
    }
    let depth = count_names(kept);
    let form = path_form(own.as_slice());
    if depth > 0 && !is_covered(bars, &form)? {
        return Ok(Some(missing_on(alloc, kept, &form)?));
    }
    for names in depth.saturating_add(1)..names_of(alloc, pattern.signs)?.len() {
        let front = path_form(front_of(pattern.signs, names));
        if !is_covered(bars, &front)? {
            return Ok(Some(Missing::of_pattern(alloc, &front)?));
        }
    }
    Ok(None)
}

/// The pattern of a path.
fn path_form<'s, 'p>(signs: &'s [Sign<'p>]) -> Pattern<'s, 'p> {
    Pattern {
        kind: Kind::Path,
        signs,
    }
}

/// Returns whether a pattern of paths matches some that are strictly below a kept one.
pub(crate) fn is_below(
    alloc: Global,
    pattern: Pattern<'_, '_>,
    kept: &str,
    own: &[Sign<'_>],
) -> Result<bool, AllocError> {
    let depth = count_names(kept);
    if names_of(alloc, pattern.signs)?.len() <= depth {
        return Ok(false);
    }
    let front = path_form(front_of(pattern.signs, depth));
    Ok(depth == 0 || front.covers(&path_form(own)))
}
