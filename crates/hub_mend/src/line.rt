//! Lines that take away from a profile.
use hub_path::{RelPath, Root};
use hub_profile::{Rule, Verb};
use std::alloc::{AllocError, Global};

/// The line by which a profile leaves out a path and what is below it.
pub(crate) fn ignore_line(alloc: Global, path: &str) -> Result<String, AllocError> {
    let pattern = escaped(alloc, path)?;
    format!(in alloc; "ignore = Path {pattern}")
}

/// The line by which a profile makes no changes of a kind at a path of a root.
pub(crate) fn partial_line(
    alloc: Global,
    verb: Verb,
    path: &str,
    root: &Root,
) -> Result<String, AllocError> {
    let preference = preference_of(verb);
    let pattern = escaped(alloc, path)?;
    let root = root_text(alloc, root)?;
    format!(in alloc; "{preference}partial = Path {pattern} -> {root}")
}

/// The line by which a profile doesn't do what a rule forbids, on the paths that the rule matches.
pub(crate) fn rule_line(alloc: Global, rule: &Rule) -> Result<String, AllocError> {
    let preference = preference_of(rule.verb);
    let spec = rule.spec.text()?;
    let root = root_text(alloc, &rule.root)?;
    format!(in alloc; "{preference}partial = {spec} -> {root}")
}

/// The line by which a profile makes no changes of a kind at a root.
pub(crate) fn bar_line(alloc: Global, verb: Verb, root: &Root) -> Result<String, AllocError> {
    let preference = preference_of(verb);
    let root = root_text(alloc, root)?;
    format!(in alloc; "{preference} = {root}")
}

/// The preference that forbids changes of a kind.
fn preference_of(verb: Verb) -> &'static str {
    match verb {
        Verb::Create => "nocreation",
        Verb::Update => "noupdate",
        Verb::Delete => "nodeletion",
    }
}

/// The text of a root. A blank at its end would be dropped, so a slash follows it.
fn root_text(alloc: Global, root: &Root) -> Result<String, AllocError> {
    let text = root.as_str();
    let end = if ends_with_blank(text) { "/" } else { "" };
    format!(in alloc; "{text}{end}")
}

fn ends_with_blank(text: &str) -> bool {
    text.ends_with(' ') || text.ends_with('\t')
}

/// A pattern that matches a path alone. A blank at its start or end would be dropped, so it is a set.
fn escaped(alloc: Global, path: &str) -> Result<String, AllocError> {
    let mut pattern = String::new(alloc);
    let mut rest = path.chars();
    let mut is_first = true;
    while let Some(c) = rest.next() {
        let is_outer = is_first || rest.as_str().is_empty();
        push_escaped(&mut pattern, c, is_outer)?;
        is_first = false;
    }
    Ok(pattern)
}

/// Appends a character so that it stands for itself.
fn push_escaped(pattern: &mut String, c: char, is_outer: bool) -> Result<(), AllocError> {
    match c {
        '*' | '?' | '[' | ']' | '{' | '}' | ',' | '\\' => {
            pattern.push('\\')?;
            pattern.push(c)
        }
        ' ' | '\t' if is_outer => {
            pattern.push('[')?;
            pattern.push(c)?;
            pattern.push(']')
        }
        _ => pattern.push(c),
    }
}

/// The paths over a path, from the one with so many names on.
pub(crate) fn paths_over(
    alloc: Global,
    path: &RelPath,
    least: usize,
) -> Result<Vec<RelPath>, AllocError> {
    let mut paths = Vec::new(alloc);
    let mut above = path.parent()?;
    for _ in least..path.len() {
        let Some(next) = above else {
            break;
        };
        above = next.parent()?;
        if next.len() > 0 && next.len() >= least {
            paths.push(next)?;
        }
    }
    Ok(paths)
}
