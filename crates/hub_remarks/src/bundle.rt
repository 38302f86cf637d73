//! Remarks on inputs that are not bundles.

use hub_bundle::{BundleFault, BundleLineFault, InputFault};
use hub_source::{Said, Source, SourceLine, nearest, odd_encoding, say, say_line};
use std::alloc::Global;

/// How the headings of sections begin.
const HEADINGS: &[&str] = &["%profile", "%rules", "%state", "%certificates"];

/// Says what to do about a line that is no bundle's.
pub(crate) fn say_bundle_fault(
    out: &mut String,
    source: &Source<'_>,
    fault: BundleLineFault,
) -> Said {
    let Some(line) = source.line_at(fault.line) else {
        return Ok(());
    };
    say_line(out, source.alloc(), &line)?;
    match odd_encoding(line.bytes) {
        Some(words) => say(out, words),
        None => say_heading_fault(out, source, &line, fault.fault),
    }
}

/// Says why an input wasn't read.
pub(crate) fn say_unread(out: &mut String, fault: InputFault) -> Said {
    match fault {
        InputFault::TurnsSpent => say(out, "standard input has not ended after 1,000,000 reads"),
        InputFault::ReadFailed | InputFault::OutOfMemory => Ok(()),
    }
}

/// Says what to do about a line that stands where a heading is expected.
fn say_heading_fault(
    out: &mut String,
    source: &Source<'_>,
    line: &SourceLine<'_>,
    fault: BundleFault,
) -> Said {
    match fault {
        BundleFault::NoSection => say(out, "a line %profile NAME is missing: a profile follows it"),
        BundleFault::UnknownSection => say_unknown_section(out, source.alloc(), line.text()),
        BundleFault::BadName => say(out, name_remedy(line)),
        BundleFault::SectionTwice => say_twice(out, source, line),
        BundleFault::OutOfMemory => Ok(()),
    }
}

/// Says which section a heading may mean.
fn say_unknown_section(out: &mut String, alloc: Global, heading: &str) -> Said {
    let (word, _) = heading.split_once(' ').unwrap_or((heading, ""));
    match nearest(alloc, word, HEADINGS)? {
        Some(near) => say_near_heading(out, near, word),
        None => say(
            out,
            "the headings are %profile NAME, %rules, %state and %certificates",
        ),
    }
}

/// Says how the heading is written that a word is near to.
fn say_near_heading(out: &mut String, near: &str, word: &str) -> Said {
    if near == "%profile" {
        return say(
            out,
            "a profile's heading is %profile, one space and its name",
        );
    }
    if near == word {
        return writeln!(out, "hubsync: nothing may follow {near}");
    }
    writeln!(out, "hubsync: did you mean {near}?")
}

/// What to do about the name in a profile's heading.
fn name_remedy(line: &SourceLine<'_>) -> &'static str {
    if str::from_utf8(line.bytes).is_err() {
        return "the name is not UTF-8: save the file as UTF-8";
    }
    match line.text().strip_prefix("%profile ") {
        Some("") => "a profile's heading is %profile, one space and its name",
        Some(".") | Some("..") => "a profile's name is not . or ..",
        Some(name) if name.contains('/') => "a profile's name has no /",
        _ => "a profile's name has at most 255 bytes, and no NUL and no CR",
    }
}

/// Says where a section stands that is there twice.
fn say_twice(out: &mut String, source: &Source<'_>, line: &SourceLine<'_>) -> Said {
    for other in source.lines() {
        if other.is_heading() && other.text() == line.text() {
            let place = other.place();
            let heading = other.text();
            return writeln!(out, "hubsync: {heading} is on {place} already");
        }
    }
    Ok(())
}
