//! Lines that Unison reads otherwise than hubsync, so that a yes may be wrong for it.

use crate::bar::{arrow_words, bar_words};
use crate::line::{byte_words, dot_words, log_words, star_words, whole_words};
use crate::ruled::{creation_words, ignored_words, parent_words};
use crate::said::Notes;
use crate::setting::{Rule, Setting, rules_of, settings_of};
use hub_source::{Said, Source, SourceLine};
use std::alloc::AllocError;

/// What the lines of some profiles and the rules set, each read once.
#[derive(Drop)]
struct Read<'a> {
    profiles: Vec<Vec<Setting<'a>>>,
    rules: Vec<Rule<'a>>,
}

/// How a line is read otherwise.
#[derive(Clone, Copy)]
enum Difference {
    /// A bar without blanks around its arrow.
    Arrow,
    /// A path whose last name is `*`.
    Star,
    /// A bar below a folder that isn't barred.
    Bar,
    /// A pattern that matches a dot at the start of a name.
    Dot,
    /// A pattern that matches a character of several bytes.
    Byte,
    /// An ignored whole replica.
    Whole,
    /// A bar on creation that lets a file become a folder.
    Creation,
    /// An ignored path under a rule.
    Ignored,
    /// A folder above a path that a rule forbids to create.
    Parent,
    /// A log in a root.
    Log,
}

/// The differences by which the reading for Unison is wider than hubsync's own, the most dangerous first.
const WIDER: [Difference; 8] = [
    Difference::Arrow,
    Difference::Star,
    Difference::Bar,
    Difference::Dot,
    Difference::Byte,
    Difference::Whole,
    Difference::Creation,
    Difference::Ignored,
];

/// The other ones, which count where the profiles are read for Unison, too: the reading doesn't cover them.
const UNCOVERED: [Difference; 2] = [Difference::Parent, Difference::Log];

/// Says which lines of some profiles Unison reads otherwise: of each kind the first. Where the profiles are read for Unison,
/// only lines count that the reading doesn't cover.
pub(crate) fn say_otherwise_read(
    out: &mut Notes,
    source: &Source<'_>,
    profiles: &[SourceLine<'_>],
    is_for_unison: bool,
) -> Said {
    let read = read_all(source, profiles)?;
    if !is_for_unison {
        say_differences(out, source, &read, &WIDER)?;
    }
    say_differences(out, source, &read, &UNCOVERED)
}

/// What is said about the lines of some profiles that the reading for Unison makes wider: lines that begin with `hubsync: `, or
/// nothing.
pub fn wider_notes(source: &Source<'_>, profiles: &[SourceLine<'_>]) -> Result<String, AllocError> {
    let mut notes = Notes::new(source.alloc());
    let read = read_all(source, profiles)?;
    say_differences(&mut notes, source, &read, &WIDER)?;
    notes.into_text()
}

/// Says for each difference which line of some profiles is the first that Unison reads so, and counts the others.
fn say_differences(
    out: &mut Notes,
    source: &Source<'_>,
    read: &Read<'_>,
    differences: &[Difference],
) -> Said {
    for difference in differences.iter() {
        say_difference(out, source, read, *difference)?;
    }
    Ok(())
}

/// Reads the lines of some profiles and the rules.
fn read_all<'a>(source: &Source<'a>, profiles: &[SourceLine<'_>]) -> Result<Read<'a>, AllocError> {
    let mut read = Read {
        profiles: Vec::new(source.alloc()),
        rules: rules_of(source)?,
    };
    for profile in profiles {
        read.profiles.push(settings_of(source, profile.section)?)?;
    }
    Ok(read)
}

/// Says which line is the first that Unison reads so, and counts the others.
fn say_difference(
    out: &mut Notes,
    source: &Source<'_>,
    read: &Read<'_>,
    difference: Difference,
) -> Said {
    let mut is_said = false;
    for lines in read.profiles.iter() {
        is_said = say_in_profile(
            out,
            source,
            read.rules.as_slice(),
            lines.as_slice(),
            difference,
            is_said,
        )?;
    }
    Ok(())
}

/// The same of one profile. It gives whether the first line was said.
fn say_in_profile(
    out: &mut Notes,
    source: &Source<'_>,
    rules: &[Rule<'_>],
    lines: &[Setting<'_>],
    difference: Difference,
    was_said: bool,
) -> Result<bool, AllocError> {
    let mut is_said = was_said;
    for line in lines {
        if let Some(words) = words_on(source, rules, lines, line, difference)? {
            if is_said {
                out.hide();
            } else {
                out.add_on(source, &line.line, words.as_str())?;
                is_said = true;
            }
        }
    }
    Ok(is_said)
}

/// What is to be said of a line that Unison reads so.
fn words_on(
    source: &Source<'_>,
    rules: &[Rule<'_>],
    lines: &[Setting<'_>],
    line: &Setting<'_>,
    difference: Difference,
) -> Result<Option<String>, AllocError> {
    let alloc = source.alloc();
    match difference {
        Difference::Arrow => arrow_words(source, line),
        Difference::Star => star_words(alloc, lines, line),
        Difference::Bar => bar_words(source, lines, line),
        Difference::Dot => dot_words(source, lines, line),
        Difference::Byte => byte_words(alloc, line),
        Difference::Whole => whole_words(alloc, line),
        Difference::Creation => creation_words(source, rules, lines, line),
        Difference::Ignored => ignored_words(source, rules, lines, line),
        Difference::Parent => parent_words(alloc, rules, lines, line),
        Difference::Log => log_words(alloc, lines, line),
    }
}
