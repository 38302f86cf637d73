//! What one line shows that Unison reads otherwise.

use crate::bar::{PathBar, is_kept_whole, like_bars};
use crate::dotted::missing_dots;
use crate::missing::Missing;
use crate::setting::{Setting, written_root};
use crate::sign::{Choices, Sign};
use hub_path::RelPath;
use hub_source::{Source, covers};
use std::alloc::{AllocError, Global};

/// What is said of a path whose last name is `*`: to Unison it is all children of the folder above, of which it tests each, and
/// not the folder.
pub(crate) fn star_words(
    alloc: Global,
    lines: &[Setting<'_>],
    line: &Setting<'_>,
) -> Result<Option<String>, AllocError> {
    let Some(path) = line.value_of("path") else {
        return Ok(None);
    };
    let Some(folder) = starred_folder(path) else {
        return Ok(None);
    };
    let remedy = if is_starred(folder) {
        String::from_str(alloc, ", and no path line has a folder *")?
    } else if is_ignored(alloc, lines, folder)? {
        String::from_str(alloc, ", though an ignore line matches the folder")?
    } else {
        let value = path_value(alloc, folder)?;
        format!(in alloc; ": write path ={value}")?
    };
    let words = format!(in alloc;
        "Unison takes a last name * for all that is in the folder{remedy}"
    )?;
    Ok(Some(words))
}

/// The folder above a last name `*`. It is empty if that is the only name.
fn starred_folder(path: &str) -> Option<&str> {
    let path = path.strip_suffix('/').unwrap_or(path);
    if path == "*" {
        return Some("");
    }
    path.strip_suffix("/*")
}

/// Returns whether the last name of a path is `*`.
pub(crate) fn is_starred(path: &str) -> bool {
    starred_folder(path).is_some()
}

/// A folder as it stands behind `path =`. A blank at its end would be dropped, so a slash follows it.
fn path_value(alloc: Global, folder: &str) -> Result<String, AllocError> {
    let start = if folder.is_empty() { "" } else { " " };
    let end = if folder.ends_with(' ') || folder.ends_with('\t') {
        "/"
    } else {
        ""
    };
    format!(in alloc; "{start}{folder}{end}")
}

/// Returns whether an `ignore` line of a profile matches a folder itself, or the whole replica if its path is empty.
fn is_ignored(alloc: Global, lines: &[Setting<'_>], folder: &str) -> Result<bool, AllocError> {
    let path = RelPath::from_text(alloc, folder)?;
    for line in lines {
        if let Some(pattern) = ignored_pattern(line) {
            let is_matched = match &path {
                Some(path) => pattern.match_folder(path, path.len().saturating_sub(1), true),
                None => has_whole(pattern)?,
            };
            if is_matched {
                return Ok(true);
            }
        }
    }
    Ok(false)
}

/// The pattern of an `ignore` line.
fn ignored_pattern<'s>(line: &'s Setting<'_>) -> Option<&'s Choices> {
    if line.name == "ignore" {
        line.pattern.as_ref()
    } else {
        None
    }
}

/// Returns whether a pattern matches the whole replica in Unison.
fn has_whole(pattern: &Choices) -> Result<bool, AllocError> {
    for signs in pattern.signs()?.as_slice() {
        if signs.iter().all(|sign| sign.is_run()) {
            return Ok(true);
        }
    }
    Ok(false)
}

/// What is said of a pattern that matches a dot at the start of a name, where Unison's doesn't.
pub(crate) fn dot_words(
    source: &Source<'_>,
    lines: &[Setting<'_>],
    line: &Setting<'_>,
) -> Result<Option<String>, AllocError> {
    let Some(own) = &line.pattern else {
        return Ok(None);
    };
    match line.bar {
        Some(bar) => {
            let root = written_root(source, line, bar.root);
            words_on_bar(source.alloc(), lines, bar, root, own)
        }
        None if line.name == "ignore" => ignore_words(source.alloc(), lines, own),
        None => Ok(None),
    }
}

/// The same of a bar on paths, whose root the profile writes so.
fn words_on_bar(
    alloc: Global,
    lines: &[Setting<'_>],
    bar: PathBar<'_>,
    root: &str,
    own: &Choices,
) -> Result<Option<String>, AllocError> {
    if is_kept_whole(lines, bar) {
        return Ok(None);
    }
    let others = like_bars(alloc, lines, bar)?;
    let Some(missing) = missing_dots(alloc, own, others.as_slice())? else {
        return Ok(None);
    };
    let name = bar.name;
    let remedy = match missing {
        Missing::Line(pattern) => {
            format!(in alloc; "add, for Unison too: {name} = {pattern} -> {root}")?
        }
        _ => String::from_str(alloc, DOTTED_LINES)?,
    };
    Ok(Some(dotted_words(alloc, remedy.as_str())?))
}

/// What is to be done where the lines for a dot can't be written in one line.
const DOTTED_LINES: &str = "add lines for names that begin with a dot";

/// What is said of a pattern, with what is to be done.
fn dotted_words(alloc: Global, remedy: &str) -> Result<String, AllocError> {
    format!(in alloc; "Unison's * ? [..] take no dot at a name's start: {remedy}")
}

/// The same of an ignored pattern.
fn ignore_words(
    alloc: Global,
    lines: &[Setting<'_>],
    own: &Choices,
) -> Result<Option<String>, AllocError> {
    let others = hiding(alloc, lines)?;
    let Some(missing) = missing_dots(alloc, own, others.as_slice())? else {
        return Ok(None);
    };
    let remedy = match missing {
        Missing::Line(pattern) => {
            format!(in alloc; "add, for Unison too: ignore = {pattern} or ignorenot = {pattern}")?
        }
        _ => String::from_str(alloc, DOTTED_LINES)?,
    };
    Ok(Some(dotted_words(alloc, remedy.as_str())?))
}

/// The patterns of all ignored paths, and of those that aren't.
fn hiding<'s>(alloc: Global, lines: &'s [Setting<'_>]) -> Result<Vec<&'s Choices>, AllocError> {
    let mut patterns = Vec::new(alloc);
    for line in lines {
        if let Some(choices) = &line.pattern {
            if line.name == "ignore" || line.name == "ignorenot" {
                patterns.push(choices)?;
            }
        }
    }
    Ok(patterns)
}

/// The pattern of a line that keeps a profile from paths.
fn pattern_of<'s>(line: &'s Setting<'_>) -> Option<&'s Choices> {
    if line.bar.is_some() || line.name == "ignore" {
        line.pattern.as_ref()
    } else {
        None
    }
}

/// What is said of a pattern that takes a character of several bytes, where Unison's takes one byte.
pub(crate) fn byte_words(alloc: Global, line: &Setting<'_>) -> Result<Option<String>, AllocError> {
    let Some(own) = pattern_of(line) else {
        return Ok(None);
    };
    for signs in own.signs()?.as_slice() {
        if let Some(words) = words_on_bytes(signs.as_slice()) {
            return Ok(Some(String::from_str(alloc, words)?));
        }
    }
    Ok(None)
}

/// The same of one choice.
fn words_on_bytes(signs: &[Sign<'_>]) -> Option<&'static str> {
    for sign in signs {
        match sign {
            Sign::One => {
                return Some(
                    "Unison's ? is one byte, so no letter as \u{e9}: write a set, as [0-9a-z]",
                );
            }
            Sign::Set(set) if set.iter().any(|letter| !letter.is_ascii()) => {
                return Some(
                    "Unison's [..] is one byte, so no letter as \u{e9}: write a line for each",
                );
            }
            _ => {}
        }
    }
    None
}

/// What is said of an ignored pattern that matches the whole replica in Unison.
pub(crate) fn whole_words(alloc: Global, line: &Setting<'_>) -> Result<Option<String>, AllocError> {
    let Some(own) = ignored_pattern(line) else {
        return Ok(None);
    };
    if !has_whole(own)? {
        return Ok(None);
    }
    let words =
        "this pattern matches the whole replica in Unison: leave it out, and write path lines";
    Ok(Some(String::from_str(alloc, words)?))
}

/// What is said of a log in a root of its profile.
pub(crate) fn log_words(
    alloc: Global,
    lines: &[Setting<'_>],
    line: &Setting<'_>,
) -> Result<Option<String>, AllocError> {
    if line.name != "logfile"
        || !lines.iter().any(|own| own
            .value_of("root")
            .is_some_and(|root| covers(root, line.value)))
    {
        return Ok(None);
    }
    let words = "Unison writes this log at a root while it runs: name a file elsewhere";
    Ok(Some(String::from_str(alloc, words)?))
}
