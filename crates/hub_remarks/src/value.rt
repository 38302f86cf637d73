//! Remarks on values that are no paths, and on lines too many.

use hub_path::PathFault;
use hub_source::{Said, say};

/// Says what is wrong with the text of a path or a root.
pub(crate) fn say_bad_path(out: &mut String, value: &str, fault: PathFault) -> Said {
    match fault {
        PathFault::LeadingSlash => say_leading_slash(out, value),
        PathFault::EmptyName => say_twice(out, value),
        _ => say(out, path_remedy(fault)),
    }
}

/// What to do about a fault of a path, whatever the path is.
pub(crate) fn path_remedy(fault: PathFault) -> &'static str {
    match fault {
        PathFault::Empty => "a folder's path is missing",
        PathFault::DotName => "write the path without . and ..",
        PathFault::BadCharacter => "a path has no CR and no NUL",
        PathFault::NameTooLong => "a name between two / has at most 255 bytes",
        PathFault::TooDeep => "a path has at most 64 names",
        PathFault::NotAbsolute => "a root begins with /",
        _ => "docs/REFERENCE.md says what a path is",
    }
}

/// Says how to write a path that begins with `/`.
fn say_leading_slash(out: &mut String, value: &str) -> Said {
    if value.trim_start_matches('/').is_empty() {
        return say(
            out,
            "a path is below the roots: an empty value is all of them",
        );
    }
    say_below(out, value)
}

/// Says that a path is written without `/` at its start.
pub(crate) fn say_below(out: &mut String, path: &str) -> Said {
    out.push_str("hubsync: a path is below the roots: write ")?;
    push_path(out, "", path)?;
    out.push_str("\n")
}

/// Says how to write a path or a root that has a `/` too many.
pub(crate) fn say_twice(out: &mut String, path: &str) -> Said {
    out.push_str("hubsync: a / is there twice, or once too often at the end: write ")?;
    push_path(out, if path.starts_with('/') { "/" } else { "" }, path)?;
    out.push_str("\n")
}

/// Adds a front and the names of a path, with one `/` between two.
pub(crate) fn push_path(out: &mut String, front: &str, path: &str) -> Said {
    let mut is_first = true;
    for name in path.split('/') {
        if !name.is_empty() {
            out.push_str(if is_first { front } else { "/" })?;
            out.push_str(name)?;
            is_first = false;
        }
    }
    Ok(())
}

/// Says how many lines of a preference there may be.
pub(crate) fn say_too_many(out: &mut String, name: &str) -> Said {
    match name {
        "path" => say(out, "a profile may have 64 lines path = .."),
        "ignore" | "ignorenot" => say(out, "a profile may have 64 lines of ignore and ignorenot"),
        "nolose" | "nochange" | "nonew" => say(out, "there may be 64 rules"),
        _ => say(out, "a profile may have 64 lines of bars on paths"),
    }
}
