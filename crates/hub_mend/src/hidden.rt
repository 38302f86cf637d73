//! What lines leave out, and lines about it.
use crate::below::have_nested;
use crate::cut::is_profile;
use crate::line::ignore_line;
use crate::office::Office;
use crate::piece::Piece;
use crate::subject::Subject;
use hub_path::RelPath;
use hub_profile::Profile;
use std::alloc::{AllocError, Global};
use std::mem;

/// Returns whether no line was found for what is to be mended.
pub(crate) fn has_no_line(pieces: &[Piece], subject: Subject) -> bool {
    let [first, last] = subject.ends();
    lines_at(pieces, first).is_empty() && lines_at(pieces, last).is_empty()
}

/// Returns whether a profile has a folder of which another one has a part, by their numbers. Of nested roots that isn't asked.
pub(crate) fn has_parts(office: &Office, own: usize, other: usize) -> bool {
    let profiles = office.profiles.as_slice();
    match (profiles.get(own), profiles.get(other)) {
        (Some(own), Some(other)) => {
            have_nested(own, other) || other.paths().iter().any(|part| has_part(own, part))
        }
        _ => false,
    }
}

/// Returns whether each part that one of two profiles is to leave out lies below one that a line of it leaves out.
pub(crate) fn is_hidden(
    office: &Office,
    pieces: &[Piece],
    subject: Subject,
) -> Result<bool, AllocError> {
    let Subject::Pair(first, second) = subject else {
        return Ok(false);
    };
    let profiles = office.profiles.as_slice();
    match (profiles.get(first), profiles.get(second)) {
        (Some(one), Some(other)) => Ok(
            !have_nested(one, other)
                && hides_parts(office, one, lines_at(pieces, first), other)?
                && hides_parts(office, other, lines_at(pieces, second), one)?,
        ),
        _ => Ok(false),
    }
}

/// The lines for the profile of that number.
fn lines_at(pieces: &[Piece], number: usize) -> &[String] {
    match pieces.iter().filter(|piece| is_profile(piece)).nth(number) {
        Some(piece) => piece.lines.as_slice(),
        None => &[],
    }
}

/// Returns whether lines of a profile hide each part of its folders that another one has.
fn hides_parts(
    office: &Office,
    own: &Profile,
    lines: &[String],
    other: &Profile,
) -> Result<bool, AllocError> {
    for part in other.paths() {
        if has_part(own, part) && !hides(office.alloc, own, lines, part)? {
            return Ok(false);
        }
    }
    Ok(true)
}

/// Returns whether a path lies below a kept value of a profile.
fn has_part(profile: &Profile, part: &RelPath) -> bool {
    profile
        .paths()
        .iter()
        .any(|top| top.len() < part.len() && part.starts_with(top))
}

/// Returns whether one of the lines of a profile leaves out a path over that one, with all below it.
fn hides(
    alloc: Global,
    profile: &Profile,
    lines: &[String],
    part: &RelPath,
) -> Result<bool, AllocError> {
    let own = ignore_line(alloc, part.as_str())?;
    for line in lines {
        if is_below(own.as_str(), line.as_str()) && is_top(alloc, profile, line.as_str())? {
            return Ok(true);
        }
    }
    Ok(false)
}

/// Drops the lines about paths at or below one that another line leaves out, with all below it.
pub(crate) fn drop_hidden(office: &Office, pieces: &mut Vec<Piece>) -> Result<(), AllocError> {
    let mut profiles = office.profiles.as_slice().iter();
    for piece in pieces.iter_mut() {
        if is_profile(piece) {
            if let Some(profile) = profiles.next() {
                let lines = mem::replace(&mut piece.lines, Vec::new(office.alloc));
                let tops = tops_of(office.alloc, profile, lines.as_slice())?;
                piece.lines = without_hidden(office.alloc, lines, tops.as_slice())?;
            }
        }
    }
    Ok(())
}

/// The lines that leave out a path with all below it.
fn tops_of(alloc: Global, profile: &Profile, lines: &[String]) -> Result<Vec<String>, AllocError> {
    let mut tops = Vec::new(alloc);
    for line in lines {
        if is_top(alloc, profile, line.as_str())? {
            tops.push(String::from_str(alloc, line.as_str())?)?;
        }
    }
    Ok(tops)
}

/// Returns whether a line leaves out a path of a profile with all below it. A kept value may lie below what another one ignores.
fn is_top(alloc: Global, profile: &Profile, line: &str) -> Result<bool, AllocError> {
    Ok(line.starts_with("ignore = Path ") && !has_kept(alloc, profile, line)?)
}

/// Returns whether a kept value of a profile is the path of an `ignore` line, or lies below it.
fn has_kept(alloc: Global, profile: &Profile, top: &str) -> Result<bool, AllocError> {
    for path in profile.paths() {
        let line = ignore_line(alloc, path.as_str())?;
        if line.as_str() == top || is_below(line.as_str(), top) {
            return Ok(true);
        }
    }
    Ok(false)
}

/// These lines, without those that one of the others hides.
fn without_hidden(
    alloc: Global,
    lines: Vec<String>,
    tops: &[String],
) -> Result<Vec<String>, AllocError> {
    let mut left = Vec::new(alloc);
    for line in lines {
        if !tops.iter().any(|top| is_below(line.as_str(), top.as_str())) {
            left.push(line)?;
        }
    }
    Ok(left)
}

/// Returns whether a line is about a path below that of an `ignore` line, or bars changes at the path itself.
fn is_below(line: &str, top: &str) -> bool {
    let (Some((_, path)), Some((_, over))) = (line.split_once("= Path "), top.split_once("= Path "))
    else {
        return false;
    };
    match path.strip_prefix(over) {
        Some(rest) => rest.starts_with('/') || rest.starts_with(" -> /"),
        None => false,
    }
}
