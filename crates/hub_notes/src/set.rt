//! Notes on a set: what its profiles and rules may not have been meant to say.

use crate::idle::say_idle_rule;
use crate::query::{are_over, is_same_root};
use crate::said::Notes;
use crate::unison::say_otherwise_read;
use hub_source::{Said, Source, SourceLine, name_of, trimmed};
use std::alloc::{AllocError, Global};

/// The two roots of a profile, of which either may come first.
#[derive(Clone, Copy)]
struct Pair<'a> {
    section: usize,
    one: &'a str,
    other: &'a str,
}

/// What is said about a yes that may mislead: lines that begin with `hubsync: `, or nothing. Where the profiles are read for
/// Unison, there is none on what this reading covers.
pub fn notes(source: &Source<'_>, is_for_unison: bool) -> Result<String, AllocError> {
    let mut notes = Notes::new(source.alloc());
    let profiles = source.profiles()?;
    if !source.is_whole() {
        notes.add("the input is longer than what notes are made of: 1 MiB and 50,000 lines")?;
    } else if profiles.is_empty() {
        notes.add("the input has no profile, so nothing was checked")?;
    } else {
        say_notes(&mut notes, source, profiles.as_slice(), is_for_unison)?;
    }
    notes.into_text()
}

/// Says what these profiles and the rules may not have been meant to say.
fn say_notes(
    out: &mut Notes,
    source: &Source<'_>,
    profiles: &[SourceLine<'_>],
    is_for_unison: bool,
) -> Said {
    say_strange_rule(out, source, profiles, is_for_unison)?;
    say_same_pair(out, source, profiles)?;
    say_otherwise_read(out, source, profiles, is_for_unison)?;
    say_blank_names(out, source.alloc(), profiles)
}

/// Says which names have a blank at an end.
fn say_blank_names(out: &mut Notes, alloc: Global, profiles: &[SourceLine<'_>]) -> Said {
    for profile in profiles {
        let name = profile.profile().unwrap_or("");
        if trimmed(name).len() < name.len() {
            let place = profile.place();
            let words = format!(in alloc; "{place}: a blank at an end of {name:?}")?;
            return out.add(words.as_str());
        }
    }
    Ok(())
}

/// Says which root of the rules no profile has, or else which rule is for a path that no profile reaches. For Unison a rule holds at
/// roots within its own one and around it, too.
fn say_strange_rule(
    out: &mut Notes,
    source: &Source<'_>,
    profiles: &[SourceLine<'_>],
    is_for_unison: bool,
) -> Said {
    let Some(section) = source.section("%rules") else {
        return Ok(());
    };
    let roots = roots_beside(source, section)?;
    match strange_root(
        source.section_lines(section),
        roots.as_slice(),
        is_for_unison,
    ) {
        Some(line) => out.add_on(
            source,
            line,
            "no profile has this root, so no rule below it protects anything:",
        ),
        None => say_idle_rule(out, source, profiles, section, is_for_unison),
    }
}

/// The first of these lines that sets a root that is not among the roots.
fn strange_root<'s, 'a>(
    lines: &'s [SourceLine<'a>],
    roots: &[SourceLine<'_>],
    is_for_unison: bool,
) -> Option<&'s SourceLine<'a>> {
    for line in lines {
        if let Some(root) = line.value_of("root") {
            if !is_among(roots, root, is_for_unison) {
                return Some(line);
            }
        }
    }
    None
}

/// The root lines of all other sections.
fn roots_beside<'a>(
    source: &Source<'a>,
    section: usize,
) -> Result<Vec<SourceLine<'a>>, AllocError> {
    let mut roots = Vec::new(source.alloc());
    for line in source.lines() {
        if line.section != section && line.value_of("root").is_some() {
            roots.push(*line)?;
        }
    }
    Ok(roots)
}

/// Returns whether one of these lines has a root; for Unison also whether it has one within it or around it.
fn is_among(roots: &[SourceLine<'_>], root: &str, is_for_unison: bool) -> bool {
    roots.iter().any(|line| {
        let own = line.value_of("root").unwrap_or("");
        is_same_root(own, root) || is_for_unison && are_over(own, root)
    })
}

/// Says which two profiles have the same two roots.
fn say_same_pair(out: &mut Notes, source: &Source<'_>, profiles: &[SourceLine<'_>]) -> Said {
    let mut pairs = Vec::new(source.alloc());
    for profile in profiles {
        if let Some(pair) = pair_of(source, profile.section) {
            if let Some(same) = same_pair(pairs.as_slice(), pair) {
                return say_pair(
                    out,
                    source.alloc(),
                    name_of(source, same.section),
                    name_of(source, pair.section),
                );
            }
            pairs.push(pair)?;
        }
    }
    Ok(())
}

/// Says that two profiles have the same two roots.
fn say_pair(out: &mut Notes, alloc: Global, one: &str, other: &str) -> Said {
    let words = format!(in alloc; "{one} and {other} have the same two roots")?;
    out.add_two(
        words.as_str(),
        "Unison locks the archive of two roots: don't run these profiles at once",
    )
}

/// The two roots of a profile.
fn pair_of<'a>(source: &Source<'a>, section: usize) -> Option<Pair<'a>> {
    let mut pair = None;
    for line in source.section_lines(section) {
        if let Some(root) = line.value_of("root") {
            pair = Some(with_root(pair, section, root));
        }
    }
    pair
}

/// The first root of these, if there is one, and this root.
fn with_root<'a>(pair: Option<Pair<'a>>, section: usize, root: &'a str) -> Pair<'a> {
    let one = match pair {
        Some(pair) => pair.one,
        None => root,
    };
    Pair {
        section,
        one,
        other: root,
    }
}

/// The first of these pairs with the same two roots.
fn same_pair<'a>(pairs: &[Pair<'a>], pair: Pair<'_>) -> Option<Pair<'a>> {
    for own in pairs {
        let straight = is_same_root(own.one, pair.one) && is_same_root(own.other, pair.other);
        if straight || (is_same_root(own.one, pair.other) && is_same_root(own.other, pair.one)) {
            return Some(*own);
        }
    }
    None
}
