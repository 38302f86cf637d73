//! Lines that are left out since a pattern would be too long, where a profile is read for Unison.

use hub_path::Name;
use hub_preferences::counted;
use hub_profile::{Profile, read_profile};
use hub_source::{Source, SourceLine};
use hub_unison::lines_cut;
use std::alloc::{AllocError, Global};

/// The numbers of the `ignore` lines of an input that don't count, since their pattern, or the one for a dot at the start of a
/// name, would be too long.
pub(crate) fn cut_lines(source: &Source<'_>, input: &[u8]) -> Result<Vec<usize>, AllocError> {
    let alloc = source.alloc();
    let mut numbers = Vec::new(alloc);
    if !source.is_whole() || !may_be_cut(source)? {
        return Ok(numbers);
    }
    let bytes = counted(alloc, input)?;
    let counted = Source::read(alloc, bytes.as_slice(), true, &[])?;
    for heading in counted.profiles()? {
        push_cut(&mut numbers, &counted, heading.section)?;
    }
    Ok(numbers)
}

/// Returns whether some line may be left out: one whose pattern, or the one for a dot at the start of a name, may be longer if
/// it is written.
fn may_be_cut(source: &Source<'_>) -> Result<bool, AllocError> {
    for heading in source.profiles()? {
        if source.section_lines(heading.section).iter().any(may_grow) {
            return Ok(true);
        }
    }
    Ok(false)
}

/// Returns whether the pattern of a line, or the one for a dot at the start of a name, may be longer if it is written: it has
/// a `*`, a set or a brace, or something of these that is written behind a `\`.
fn may_grow(line: &SourceLine<'_>) -> bool {
    is_pattern(line) && line.value().contains(['*', '[', ']', '{', '}', ','])
}

/// Returns whether a line is one for a pattern of its profile.
fn is_pattern(line: &SourceLine<'_>) -> bool {
    let name = line.name();
    name == "ignore" || name == "ignorenot"
}

/// Adds the numbers of such lines of a section.
fn push_cut(
    numbers: &mut Vec<usize>,
    source: &Source<'_>,
    section: usize,
) -> Result<(), AllocError> {
    let Some(profile) = profile_of(source, section)? else {
        return Ok(());
    };
    let cut = lines_cut(source.alloc(), &profile)?;
    let mut at = 0usize;
    for line in source.section_lines(section) {
        if line.name() == "ignore" {
            if cut.contains(&at) {
                numbers.push(line.at)?;
            }
            at = at.saturating_add(1);
        }
    }
    Ok(())
}

/// The profile that a section says, if it says one.
fn profile_of(source: &Source<'_>, section: usize) -> Result<Option<Profile>, AllocError> {
    let alloc = source.alloc();
    let text = text_of(source, section)?;
    let Ok(name) = Name::read(alloc, "p") else {
        return Ok(None);
    };
    match read_profile(alloc, name, text.as_slice()) {
        Ok(profile) => Ok(Some(profile)),
        Err(_) => Ok(None),
    }
}

/// The lines of a section but for its heading.
fn text_of(source: &Source<'_>, section: usize) -> Result<Vec<u8>, AllocError> {
    let mut text: Vec<u8> = Vec::new(source.alloc());
    for line in source.section_lines(section) {
        if !line.is_heading() {
            text.extend_from_slice(line.bytes)?;
            text.push(b'\n')?;
        }
    }
    Ok(text)
}
