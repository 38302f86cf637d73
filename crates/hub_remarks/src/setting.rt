//! Remarks on faults of profiles and rules.

use crate::pattern::say_bad_pattern;
use crate::remote::say_remote;
use crate::unknown::{PREFERENCES, RULE_NAMES, say_unknown};
use crate::value::{say_bad_path, say_too_many};
use hub_path::PathFault;
use hub_profile::{Fault, ProfileFault};
use hub_source::{LinePlace, Said, Source, SourceLine, odd_encoding, say, say_line, trimmed};
use hub_text::first_word;

/// Says what to do about a fault of a profile, or of the rules, by the section.
pub(crate) fn say_setting_fault(
    out: &mut String,
    source: &Source<'_>,
    section: usize,
    fault: &ProfileFault,
    is_of_rules: bool,
) -> Said {
    if fault.line == 0 {
        return say_whole_fault(out, source, section, &fault.fault);
    }
    match source.line(section, fault.line) {
        Some(line) => say_fault_on(out, source, &line, &fault.fault, is_of_rules),
        None => Ok(()),
    }
}

/// The line that a fault of a section is of: the first one that is not UTF-8, if that is the fault.
pub(crate) fn fault_line<'a>(
    source: &Source<'a>,
    section: usize,
    fault: &ProfileFault,
) -> Option<SourceLine<'a>> {
    match fault.fault {
        Fault::NotUtf8 => unread_line(source, section),
        _ => source.line(section, fault.line),
    }
}

/// Says which line of a profile or of the rules has a fault, and what to do about it.
pub(crate) fn say_fault_on(
    out: &mut String,
    source: &Source<'_>,
    line: &SourceLine<'_>,
    fault: &Fault,
    is_of_rules: bool,
) -> Said {
    if let Fault::NotUtf8 = fault {
        return say_unread(out, line);
    }
    say_line(out, source.alloc(), line)?;
    match odd_encoding(line.bytes) {
        Some(words) => say(out, words),
        None => say_line_fault(out, source, line, fault, is_of_rules),
    }
}

/// Says what to do about a fault that is of no line.
fn say_whole_fault(out: &mut String, source: &Source<'_>, section: usize, fault: &Fault) -> Said {
    if !source.is_whole() {
        return Ok(());
    }
    match fault {
        Fault::NotUtf8 => say_not_utf8(out, source, section),
        Fault::RootCount => say_roots(
            out,
            source,
            section,
            "a profile has two roots, and this one has",
        ),
        Fault::SameRoots => say_roots(out, source, section, "the two roots are one folder:"),
        Fault::RootsNested => say_roots(out, source, section, "no root lies within the other:"),
        _ => Ok(()),
    }
}

/// Says what to do about a fault of a line.
fn say_line_fault(
    out: &mut String,
    source: &Source<'_>,
    line: &SourceLine<'_>,
    fault: &Fault,
    is_of_rules: bool,
) -> Said {
    let name = line.name();
    match fault {
        Fault::NoEquals => say_no_equals(out, trimmed(line.text())),
        Fault::UnknownPreference(_) => say_unknown(out, source.alloc(), line, is_of_rules),
        Fault::BadPath(PathFault::RemoteRoot) => say_remote(out, source, line),
        Fault::BadPath(fault) => say_bad_path(out, line.value(), *fault),
        Fault::BadPattern(fault) => say_bad_pattern(out, source.alloc(), line.text(), *fault),
        Fault::Repeated => say_repeated(out, source, line.section, name),
        Fault::TooMany => say_too_many(out, name),
        Fault::NotARoot => say_roots(
            out,
            source,
            line.section,
            "write one of the two roots, which are",
        ),
        _ => say(out, remedy(fault)),
    }
}

/// What to do about a fault, whatever the line says.
fn remedy(fault: &Fault) -> &'static str {
    match fault {
        Fault::IncludeLeftOut => {
            "write that file's lines in its place; in a .prf file, with --unison, one space follows include"
        }
        Fault::LeftOutValue => {
            "hubsync has no times: leave the line out of its copy, and it assumes more writes"
        }
        Fault::RuleBeforeRoot => "a rule is for the root line above it: write root = .. before it",
        Fault::NoArrow => "write PATTERN -> ROOT",
        _ => "docs/UNISON.md says how hubsync reads a line",
    }
}

/// Says which line is not UTF-8.
fn say_not_utf8(out: &mut String, source: &Source<'_>, section: usize) -> Said {
    match unread_line(source, section) {
        Some(line) => say_unread(out, &line),
        None => Ok(()),
    }
}

/// The first line of a section that is not UTF-8, but for its heading.
fn unread_line<'a>(source: &Source<'a>, section: usize) -> Option<SourceLine<'a>> {
    for line in source.section_lines(section) {
        if line.number > 0 && str::from_utf8(line.bytes).is_err() {
            return Some(*line);
        }
    }
    None
}

/// Says at which byte a line is not UTF-8.
fn say_unread(out: &mut String, line: &SourceLine<'_>) -> Said {
    let Err(error) = str::from_utf8(line.bytes) else {
        return Ok(());
    };
    let byte = error.valid_up_to().saturating_add(1);
    let number = line.number;
    let place = line.place();
    match line.file {
        Some(_) => writeln!(out, "hubsync: {place} is not UTF-8 at byte {byte}")?,
        None => writeln!(
            out,
            "hubsync: line {number} ({place}) is not UTF-8 at byte {byte}"
        )?,
    }
    match odd_encoding(line.bytes) {
        Some(words) => say(out, words),
        None => say(out, "save the file as UTF-8"),
    }
}

/// Says how a line would set something.
fn say_no_equals(out: &mut String, text: &str) -> Said {
    let (word, rest) = first_word(text);
    let rest = trimmed(rest);
    if PREFERENCES.contains(&word) || RULE_NAMES.contains(&word) {
        return writeln!(out, "hubsync: there is no = in it: write {word} = {rest}");
    }
    say(
        out,
        "there is no = in it: a line is NAME = VALUE, or begins with #",
    )
}

/// Says where a preference was given before.
fn say_repeated(out: &mut String, source: &Source<'_>, section: usize, name: &str) -> Said {
    for line in source.section_lines(section) {
        if line.value_of(name).is_some() {
            let place = line.place();
            return writeln!(
                out,
                "hubsync: {name} is given on {place} already: keep one of the two"
            );
        }
    }
    Ok(())
}

/// Says which roots a section has, after these words.
fn say_roots(out: &mut String, source: &Source<'_>, section: usize, words: &str) -> Said {
    let mut count = 0usize;
    write!(out, "hubsync: {words}")?;
    for line in source.section_lines(section) {
        if let Some(root) = line.value_of("root") {
            push_root(out, count, root, line.place())?;
            count = count.saturating_add(1);
        }
    }
    out.push_str(if count == 0 { " none\n" } else { "\n" })
}

/// Adds a root and its place to a list in which so many stand before it.
fn push_root(out: &mut String, before: usize, root: &str, place: LinePlace<'_>) -> Said {
    out.push_str(if before == 0 { " " } else { ", " })?;
    write!(out, "{root} ({place})")
}
