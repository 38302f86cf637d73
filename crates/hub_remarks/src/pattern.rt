//! Remarks on patterns.

use crate::remedy::say_nearest;
use hub_glob::GlobFault;
use hub_source::{Said, say, trimmed};
use hub_text::first_word;
use std::alloc::Global;

/// The kinds of patterns.
const KINDS: &[&str] = &["Name", "Path", "BelowPath"];

/// Says what is wrong with the pattern of a line.
pub(crate) fn say_bad_pattern(
    out: &mut String,
    alloc: Global,
    line: &str,
    fault: GlobFault,
) -> Said {
    let (_, value) = line.split_once('=').unwrap_or(("", line));
    match fault {
        GlobFault::NoKind => say_no_kind(out, alloc, first_word(trimmed(value)).0),
        GlobFault::OpenBracket => say_open(out, line, '['),
        GlobFault::OpenBrace => say_open(out, line, '{'),
        _ => say(out, remedy(fault)),
    }
}

/// What to do about a fault of a pattern, whatever the line says.
fn remedy(fault: GlobFault) -> &'static str {
    match fault {
        GlobFault::RegexLeftOut => {
            "Regex is left out: write Name, Path or BelowPath (docs/UNISON.md)"
        }
        GlobFault::EmptyPattern => {
            "the pattern is missing after the kind: write it as in Name *.tmp"
        }
        GlobFault::NestedBraces => "braces don't stand in braces: write a line for each choice",
        GlobFault::BadRange => "a set has members, and a range goes upwards in ASCII, as [a-z]",
        GlobFault::NegatedSet => "a set says which characters match: [^..] and [!..] are left out",
        GlobFault::BadEscape => {
            "only some characters follow a \\: write the character without it"
        }
        GlobFault::SlashInName => "a Name pattern has no /: write Path or BelowPath",
        GlobFault::SlashInSet => "no set matches a /: take it out of the brackets",
        GlobFault::LeadingSlash => {
            "a pattern's path is below the roots: write it without the / in front"
        }
        GlobFault::TooLong => "a pattern has at most 200 characters",
        GlobFault::TooManyChoices => {
            "a pattern has at most 64 choices in braces: write more lines"
        }
        _ => "docs/UNISON.md says how hubsync reads patterns",
    }
}

/// Says which kind of pattern a word may mean.
fn say_no_kind(out: &mut String, alloc: Global, word: &str) -> Said {
    for kind in KINDS {
        if word.eq_ignore_ascii_case(*kind) {
            return writeln!(out, "hubsync: {word} is written with capitals: {kind}");
        }
    }
    say_nearest(
        out,
        alloc,
        word,
        KINDS,
        "a pattern begins with Name, Path or BelowPath, as in Name *.tmp",
    )
}

/// Says where the last such character is, which is never closed.
fn say_open(out: &mut String, line: &str, open: char) -> Said {
    let (before, _) = line.rsplit_once(open).unwrap_or((line, ""));
    let column = before.chars().count().saturating_add(1);
    writeln!(
        out,
        "hubsync: the {open} at column {column} is never closed"
    )
}
