//! Remarks on what `reach` and `run` are asked.

use crate::ignored::ignoring_line;
use crate::input::profile_section;
use crate::refusal::say_kept;
use crate::value::{path_remedy, say_below, say_twice};
use hub_notes::{has_no_path, line_above};
use hub_path::PathFault;
use hub_report::NotRun;
use hub_source::{Said, Source, covers, name_of, nearest, say, say_placed};
use std::alloc::{AllocError, Global};

/// How many names are listed at most.
const LISTED: usize = 10;

/// Says what is wrong with the path that `reach` was asked about.
pub(crate) fn say_asked_path(
    out: &mut String,
    source: &Source<'_>,
    words: &[String],
    fault: PathFault,
) -> Said {
    let (name, path) = operands(words);
    match fault {
        PathFault::LeadingSlash => say_below_root(out, source, name, path),
        PathFault::EmptyName => say_twice(out, path),
        _ => say(out, path_remedy(fault)),
    }
}

/// The operands of `reach`: the last two words but `--unison`.
fn operands(words: &[String]) -> (&str, &str) {
    let (mut name, mut path) = ("", "");
    for word in words {
        if word.as_str() != "--unison" {
            name = path;
            path = word.as_str();
        }
    }
    (name, path)
}

/// Says how to write a path that begins with `/`: below the profile's root, if it lies there.
fn say_below_root(out: &mut String, source: &Source<'_>, name: &str, path: &str) -> Said {
    let profile = profile_section(source, name).unwrap_or(0);
    say_below(out, below_root(source, profile, path))
}

/// What of a path is below the last root of a profile that covers it. It is the path itself if none does.
fn below_root<'p>(source: &Source<'_>, profile: usize, path: &'p str) -> &'p str {
    let mut below = path;
    for line in source.section_lines(profile) {
        if let Some(root) = line.value_of("root") {
            if covers(root, path) {
                below = path.strip_prefix(root).unwrap_or(path);
            }
        }
    }
    below
}

/// Says which profiles there are.
pub(crate) fn say_profiles(out: &mut String, source: &Source<'_>, words: &[String]) -> Said {
    let names = profile_names(source)?;
    if names.is_empty() || !source.is_whole() {
        return say(out, "a profile follows a line %profile NAME");
    }
    say_names(out, source.alloc(), names.as_slice(), operands(words).0)
}

/// The names of the profiles.
fn profile_names<'a>(source: &Source<'a>) -> Result<Vec<&'a str>, AllocError> {
    let mut names = Vec::new(source.alloc());
    for line in source.lines() {
        if let Some(name) = line.profile() {
            names.push(name)?;
        }
    }
    Ok(names)
}

/// Says which names there are, and which of those that are listed is near to a word.
fn say_names(out: &mut String, alloc: Global, names: &[&str], asked: &str) -> Said {
    out.push_str("hubsync: the profiles are")?;
    match names.get(..LISTED) {
        Some(listed) if listed.len() < names.len() => {
            push_names(out, listed, ", ..\n")?;
            say_meant(out, alloc, listed, asked)
        }
        _ => {
            push_names(out, names, "\n")?;
            say_meant(out, alloc, names, asked)
        }
    }
}

/// Adds a list of names, and what follows it.
fn push_names(out: &mut String, names: &[&str], end: &str) -> Said {
    for (i, name) in names.iter().enumerate() {
        push_name(out, i, *name)?;
    }
    out.push_str(end)
}

/// Adds a name to a list in which so many stand before it.
fn push_name(out: &mut String, before: usize, name: &str) -> Said {
    out.push_str(if before == 0 { " " } else { ", " })?;
    out.push_str(name)
}

/// Says which of these names is near to a word.
fn say_meant(out: &mut String, alloc: Global, names: &[&str], asked: &str) -> Said {
    match nearest(alloc, asked, names)? {
        Some(name) => writeln!(out, "hubsync: did you mean {name}?"),
        None => Ok(()),
    }
}

/// Says why a profile doesn't reach a path.
pub(crate) fn say_not_reached(out: &mut String, source: &Source<'_>, words: &[String]) -> Said {
    let (name, path) = operands(words);
    let Some(section) = profile_section(source, name) else {
        return Ok(());
    };
    if is_kept(source, section, path) {
        say_kept(out, source, section, path)?;
        return say_ignored(out, source, section, path);
    }
    let name = name_of(source, section);
    writeln!(
        out,
        "hubsync: no line path = .. of {name} is this path or above it"
    )
}

/// Says which line ignores a path that a profile has a line `path` for.
fn say_ignored(out: &mut String, source: &Source<'_>, section: usize, path: &str) -> Said {
    match ignoring_line(source, section, path)? {
        Some(line) => say_placed(out, source, &line),
        None => say(
            out,
            "a line ignore matches the path, or a folder between it and that line",
        ),
    }
}

/// Returns whether a profile has a path at this one or above it.
fn is_kept(source: &Source<'_>, section: usize, path: &str) -> bool {
    line_above(source, section, path).is_some() || has_no_path(source, section)
}

/// Says why the jobs weren't run.
pub(crate) fn say_run_fault(out: &mut String, source: &Source<'_>, why: NotRun) -> Said {
    match why {
        NotRun::BadWorkers => say(out, "--workers is a number from 1 to 16"),
        NotRun::ThreadRefused => say(out, "the system gives no further thread: try --workers 1"),
        NotRun::Unfit => say_replicas(out, source),
    }
}

/// Says of which roots the state has replicas.
fn say_replicas(out: &mut String, source: &Source<'_>) -> Said {
    let section = source.section("%state").unwrap_or(0);
    let mut count = 0usize;
    write!(
        out,
        "hubsync: roots are compared by their text, and the state has these replicas:"
    )?;
    for line in source.section_lines(section) {
        if count < LISTED {
            if let Some(root) = line.text().strip_prefix("replica ") {
                push_name(out, count, root)?;
                count = count.saturating_add(1);
            }
        }
    }
    out.push_str("\n")
}
