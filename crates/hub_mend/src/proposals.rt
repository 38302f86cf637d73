//! Lines that may mend what is unsafe.
use crate::below::{are_nested, paths_from, share_root};
use crate::line::{bar_line, ignore_line, partial_line, paths_over, rule_line};
use crate::office::Office;
use crate::subject::Subject;
use hub_path::{RelPath, Root};
use hub_profile::{Profile, Rule, Verb};
use hub_reach::may;
use std::alloc::{AllocError, Global};

/// A line for the profile of that number.
#[derive(Drop)]
pub(crate) struct Proposal {
    pub(crate) profile: usize,
    pub(crate) line: String,
}

/// Lists of lines of which each may mend that, the one that takes away least first.
pub(crate) fn proposals_for(
    office: &Office,
    subject: Subject,
) -> Result<Vec<Vec<Proposal>>, AllocError> {
    let mut lists = Vec::new(office.alloc);
    match subject {
        Subject::Pair(first, second) => lists.push(for_pair(office, first, second)?)?,
        Subject::Rule(profile, rule) => push_for_rule(office, &mut lists, profile, rule)?,
    }
    Ok(lists)
}

/// The lines by which each of two profiles leaves out the parts of its folders that the other one has.
fn for_pair(office: &Office, first: usize, second: usize) -> Result<Vec<Proposal>, AllocError> {
    let mut lines = Vec::new(office.alloc);
    let profiles = office.profiles.as_slice();
    if let (Some(one), Some(other)) = (profiles.get(first), profiles.get(second)) {
        push_parts(office, &mut lines, first, [one, other])?;
        push_parts(office, &mut lines, second, [other, one])?;
    }
    Ok(lines)
}

/// The bars by which a profile doesn't break a rule. Unison may create something below what it updates, so for it `nocreation` keeps
/// a rule only beside `noupdate`.
fn push_for_rule(
    office: &Office,
    lists: &mut Vec<Vec<Proposal>>,
    profile: usize,
    rule: usize,
) -> Result<(), AllocError> {
    let alloc = office.alloc;
    let (Some(rule), Some(own)) = (
        office.rules.as_slice().get(rule),
        office.profiles.as_slice().get(profile),
    ) else {
        return Ok(());
    };
    if own.has_root(&rule.root) {
        let on_pattern = rule_line(alloc, rule)?;
        lists.push(one_line(alloc, profile, on_pattern)?)?;
    }
    lists.push(bars_for(alloc, profile, own, rule, &[rule.verb])?)?;
    if rule.verb == Verb::Create {
        lists.push(bars_for(alloc, profile, own, rule, &[Verb::Create, Verb::Update])?)?;
    }
    Ok(())
}

/// The lines by which a profile, which has that number, makes no changes of these kinds where a rule holds: at the rule's root, or at
/// roots that are nested with it.
fn bars_for(
    alloc: Global,
    number: usize,
    own: &Profile,
    rule: &Rule,
    verbs: &[Verb],
) -> Result<Vec<Proposal>, AllocError> {
    let mut lines = Vec::new(alloc);
    for root in own.roots().iter() {
        if *root == rule.root || are_nested(root, &rule.root) {
            push_bars_on(alloc, &mut lines, number, root, verbs)?;
        }
    }
    Ok(lines)
}

/// A list of one line for the profile of that number.
fn one_line(alloc: Global, profile: usize, line: String) -> Result<Vec<Proposal>, AllocError> {
    let mut lines = Vec::new(alloc);
    lines.push(Proposal { profile, line })?;
    Ok(lines)
}

/// Appends the lines by which the profile of that number makes no changes of these kinds at a root.
fn push_bars_on(
    alloc: Global,
    lines: &mut Vec<Proposal>,
    profile: usize,
    root: &Root,
    verbs: &[Verb],
) -> Result<(), AllocError> {
    for verb in verbs {
        let line = bar_line(alloc, *verb, root)?;
        lines.push(Proposal { profile, line })?;
    }
    Ok(())
}

/// Appends the lines by which the first profile, which has that number, leaves out the parts of its folders that the other has.
fn push_parts(
    office: &Office,
    lines: &mut Vec<Proposal>,
    number: usize,
    two: [&Profile; 2],
) -> Result<(), AllocError> {
    let [own, other] = two;
    if share_root(own, other) || !office.is_for_unison() {
        for part in other.paths() {
            push_tops(office, lines, number, two, None, part)?;
        }
    }
    if office.is_for_unison() {
        push_nested(office, lines, number, two)?;
    }
    Ok(())
}

/// Appends the lines by which the first profile leaves out the parts of its folders that the other has at a nested root.
fn push_nested(
    office: &Office,
    lines: &mut Vec<Proposal>,
    number: usize,
    two: [&Profile; 2],
) -> Result<(), AllocError> {
    let [own, other] = two;
    for root in own.roots().iter() {
        for below in other.roots().iter() {
            if are_nested(root, below) {
                let parts = paths_from(office.alloc, root, below, other.paths())?;
                push_each(office, lines, number, two, root, parts.as_slice())?;
            }
        }
    }
    Ok(())
}

/// Appends the lines by which the first profile leaves out these parts of its folders at one root.
fn push_each(
    office: &Office,
    lines: &mut Vec<Proposal>,
    number: usize,
    two: [&Profile; 2],
    root: &Root,
    parts: &[RelPath],
) -> Result<(), AllocError> {
    for part in parts {
        push_tops(office, lines, number, two, Some(root), part)?;
    }
    Ok(())
}

/// Appends the lines by which the first profile leaves out a part of its folders: at that root, or at each root of both.
fn push_tops(
    office: &Office,
    lines: &mut Vec<Proposal>,
    number: usize,
    two: [&Profile; 2],
    at: Option<&Root>,
    part: &RelPath,
) -> Result<(), AllocError> {
    let [own, _] = two;
    for top in own.paths() {
        if top.len() < part.len() && part.starts_with(top) {
            push_part(office, lines, number, two, at, top.len(), part)?;
        }
    }
    Ok(())
}

/// Appends the lines by which a profile leaves out a part of a folder, whose path has so many names, and doesn't change the
/// folders between: at that root, or at the roots of both.
fn push_part(
    office: &Office,
    lines: &mut Vec<Proposal>,
    number: usize,
    two: [&Profile; 2],
    at: Option<&Root>,
    least: usize,
    part: &RelPath,
) -> Result<(), AllocError> {
    let [own, other] = two;
    let line = ignore_line(office.alloc, part.as_str())?;
    lines.push(Proposal {
        profile: number,
        line,
    })?;
    if let Some(root) = at {
        return push_bars(office, lines, number, root, least, part);
    }
    for root in own.roots().iter() {
        if other.has_root(root) {
            push_bars(office, lines, number, root, least, part)?;
        }
    }
    Ok(())
}

/// Appends the lines by which a profile doesn't change the folders over a part at a root, as far as it may change something there.
fn push_bars(
    office: &Office,
    lines: &mut Vec<Proposal>,
    number: usize,
    root: &Root,
    least: usize,
    part: &RelPath,
) -> Result<(), AllocError> {
    for path in paths_over(office.alloc, part, least)? {
        for verb in [Verb::Update, Verb::Create] {
            if !may_change(office, number, root, verb) {
                continue;
            }
            let line = partial_line(office.alloc, verb, path.as_str(), root)?;
            lines.push(Proposal {
                profile: number,
                line,
            })?;
        }
    }
    Ok(())
}

/// Returns whether the profile of that number may make changes of a kind at a root, as it is read where two are looked at.
fn may_change(office: &Office, number: usize, root: &Root, verb: Verb) -> bool {
    match office.read_of_two().get(number) {
        Some(profile) => may(profile, root, verb),
        None => false,
    }
}
