//! Lines of profiles with which Unison may break a rule that hubsync says is kept.

use crate::bar::{count_names, is_below, kept_values, sets_root};
use crate::query::is_same_root;
use crate::setting::{Rule, Setting, written_root};
use crate::sign::{Choices, Pattern, signs_of_path};
use hub_glob::Kind;
use hub_path::RelPath;
use hub_source::{Source, covers};
use std::alloc::{AllocError, Global};

/// What is said of a bar on creation: with it alone, a file may become a folder, and what is in the folder is created.
pub(crate) fn creation_words(
    source: &Source<'_>,
    rules: &[Rule<'_>],
    lines: &[Setting<'_>],
    line: &Setting<'_>,
) -> Result<Option<String>, AllocError> {
    let Some(root) = creation_root(line) else {
        return Ok(None);
    };
    if is_unchanged(lines, root) || bars_updates(lines, line) || !forbids_new(rules, root) {
        return Ok(None);
    }
    let remedy = update_bar(source, line, root)?;
    let words = format!(in source.alloc();
        "Unison creates below a file that becomes a folder, whatever nonew says: add, for Unison too: {remedy}"
    )?;
    Ok(Some(words))
}

/// The root of a bar on creation.
fn creation_root<'a>(line: &Setting<'a>) -> Option<&'a str> {
    match line.bar {
        Some(bar) if bar.name == "nocreationpartial" => Some(bar.root),
        _ => line.value_of("nocreation"),
    }
}

/// The line that bars updates where a line bars creation, at this root.
fn update_bar(source: &Source<'_>, line: &Setting<'_>, root: &str) -> Result<String, AllocError> {
    let root = written_root(source, line, root);
    match line.bar {
        Some(bar) => {
            let pattern = bar.pattern;
            format!(in source.alloc(); "noupdatepartial = {pattern} -> {root}")
        }
        None => format!(in source.alloc(); "noupdate = {root}"),
    }
}

/// Returns whether a profile updates and deletes nothing at a root.
fn is_unchanged(lines: &[Setting<'_>], root: &str) -> bool {
    sets_root(lines, "force", root) || sets_root(lines, "noupdate", root)
}

/// Returns whether a profile bars updates on the same paths as a line does creation.
fn bars_updates(lines: &[Setting<'_>], line: &Setting<'_>) -> bool {
    let Some(bar) = line.bar else {
        return false;
    };
    lines.iter().any(|other| other.bar.is_some_and(|own| {
        own.name == "noupdatepartial"
            && own.pattern == bar.pattern
            && is_same_root(own.root, bar.root)
    }))
}

/// Returns whether a rule for a root forbids what is new.
fn forbids_new(rules: &[Rule<'_>], root: &str) -> bool {
    rules.iter().any(|rule| rule.setting.name == "nonew" && is_same_root(rule.root, root))
}

/// What is said of a path whose folders a rule forbids to create.
pub(crate) fn parent_words(
    alloc: Global,
    rules: &[Rule<'_>],
    lines: &[Setting<'_>],
    line: &Setting<'_>,
) -> Result<Option<String>, AllocError> {
    let Some(value) = line.value_of("path") else {
        return Ok(None);
    };
    let kept = value.strip_suffix('/').unwrap_or(value);
    let Some(path) = RelPath::from_text(alloc, kept)? else {
        return Ok(None);
    };
    for own in lines {
        if let Some(root) = own.value_of("root") {
            if may_create(lines, root) && is_parent_ruled(rules, root, &path) {
                let words =
                    "Unison creates the folders above a path, whatever nonew says: create them by hand";
                return Ok(Some(String::from_str(alloc, words)?));
            }
        }
    }
    Ok(None)
}

/// Returns whether a profile may create at a root.
fn may_create(lines: &[Setting<'_>], root: &str) -> bool {
    !sets_root(lines, "force", root) && !sets_root(lines, "nocreation", root)
}

/// Returns whether a rule at a root forbids to create a folder above a path.
fn is_parent_ruled(rules: &[Rule<'_>], root: &str, path: &RelPath) -> bool {
    for rule in rules {
        if rule.setting.name == "nonew" && is_same_root(rule.root, root) {
            if let Some(pattern) = &rule.setting.pattern {
                if pattern.match_folder(path, 0, false) {
                    return true;
                }
            }
        }
    }
    false
}

/// What is said of an ignored path: Unison deletes a folder with all that is ignored in it.
pub(crate) fn ignored_words(
    source: &Source<'_>,
    rules: &[Rule<'_>],
    lines: &[Setting<'_>],
    line: &Setting<'_>,
) -> Result<Option<String>, AllocError> {
    let Some(pattern) = &line.pattern else {
        return Ok(None);
    };
    if line.name != "ignore" {
        return Ok(None);
    }
    for own in lines {
        if let Some(root) = own.value_of("root") {
            if may_delete(lines, root) {
                if let Some(rule) = rule_on_ignored(source.alloc(), rules, lines, root, pattern)? {
                    let place = rule.setting.line.place();
                    let root = written_root(source, own, root);
                    let words = format!(in source.alloc();
                        "Unison deletes a folder with what is ignored in it, whatever the rule of {place} says: add, for Unison too: nodeletion = {root}"
                    )?;
                    return Ok(Some(words));
                }
            }
        }
    }
    Ok(None)
}

/// Returns whether a profile may delete at a root.
fn may_delete(lines: &[Setting<'_>], root: &str) -> bool {
    !is_unchanged(lines, root) && !sets_root(lines, "nodeletion", root)
}

/// The first rule at a root against which a folder with ignored paths in it may be deleted.
fn rule_on_ignored<'s, 'a>(
    alloc: Global,
    rules: &'s [Rule<'a>],
    lines: &[Setting<'_>],
    root: &str,
    pattern: &Choices,
) -> Result<Option<&'s Rule<'a>>, AllocError> {
    for kept in kept_values(alloc, lines)?.iter() {
        let rule = rule_below(alloc, rules, root, *kept, pattern)?;
        if rule.is_some()
            && hides_below(alloc, pattern, *kept)?
            && !is_guarded(alloc, rules, root, *kept)?
        {
            return Ok(rule);
        }
    }
    Ok(None)
}

/// Returns whether a pattern may hide what lies in a folder that is reached: below a kept path, or below a folder in the root.
fn hides_below(alloc: Global, own: &Choices, kept: &str) -> Result<bool, AllocError> {
    let path = signs_of_path(alloc, kept)?;
    for signs in own.signs()?.as_slice() {
        let pattern = Pattern {
            kind: own.kind,
            signs: signs.as_slice(),
        };
        let is_deep = !kept.is_empty() || signs.iter().any(|sign| sign.is_slash());
        if own.kind == Kind::Name || (is_deep && is_below(alloc, pattern, kept, path.as_slice())?) {
            return Ok(true);
        }
    }
    Ok(false)
}

/// Returns whether a rule at a root forbids to delete a kept path and all below it: then the profile doesn't.
fn is_guarded(
    alloc: Global,
    rules: &[Rule<'_>],
    root: &str,
    kept: &str,
) -> Result<bool, AllocError> {
    let signs = signs_of_path(alloc, kept)?;
    let form = Pattern {
        kind: Kind::BelowPath,
        signs: signs.as_slice(),
    };
    for rule in rules {
        if rule.forbids_losses_at(root) {
            if let Some(own) = &rule.setting.pattern {
                if own.covers(&form)? {
                    return Ok(true);
                }
            }
        }
    }
    Ok(false)
}

/// The first rule at a root against which an ignored path below a kept one may be deleted.
fn rule_below<'s, 'a>(
    alloc: Global,
    rules: &'s [Rule<'a>],
    root: &str,
    kept: &str,
    pattern: &Choices,
) -> Result<Option<&'s Rule<'a>>, AllocError> {
    for rule in rules {
        if rule.forbids_losses_at(root) && may_be_broken(alloc, rule, kept, pattern)? {
            return Ok(Some(rule));
        }
    }
    Ok(None)
}

/// Returns whether a rule may be for an ignored path below a kept one. Of a pattern with wildcards only its start is looked at.
fn may_be_broken(
    alloc: Global,
    rule: &Rule<'_>,
    kept: &str,
    pattern: &Choices,
) -> Result<bool, AllocError> {
    let Some(start) = rule.start else {
        return Ok(true);
    };
    let Some(text) = start.whole() else {
        return Ok(start.may_meet(kept));
    };
    if !covers(kept, text) {
        return Ok(false);
    }
    let depth = count_names(kept).max(1);
    match RelPath::from_text(alloc, text)? {
        Some(path) => Ok(pattern.match_folder(&path, depth, true)),
        None => Ok(false),
    }
}
