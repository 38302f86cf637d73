//! Drops lines that aren't needed.
use crate::case::Case;
use crate::cut::is_profile;
use crate::hidden::has_parts;
use crate::office::Office;
use crate::piece::Piece;
use crate::proposals::proposals_for;
use crate::subject::Subject;
use std::alloc::AllocError;
use std::mem;

/// A line that was taken away from the profile of that number.
#[derive(Clone, Copy)]
struct Removed<'a> {
    profile: usize,
    line: &'a str,
}

/// Drops each line in turn without which all of that is still mended, and puts the `ignore` lines of each profile first.
pub(crate) fn drop_needless(
    office: &Office,
    pieces: &mut Vec<Piece>,
    mended: &[Case],
) -> Result<(), AllocError> {
    let mut number: usize = 0;
    for place in 0..pieces.len() {
        if pieces.get(place).is_some_and(is_profile) {
            let cases = cases_about(office, mended, number)?;
            drop_of_profile(office, pieces, place, number, cases.as_slice())?;
            number = number.saturating_add(1);
        }
    }
    Ok(())
}

/// That of it which is about a profile.
fn cases_about<'a>(
    office: &Office,
    mended: &'a [Case],
    number: usize,
) -> Result<Vec<&'a Case>, AllocError> {
    let mut own = Vec::new(office.alloc);
    for case in mended {
        if case.subject.is_about(number) {
            own.push(case)?;
        }
    }
    Ok(own)
}

/// Drops the lines of the profile at that place, which has that number, that aren't needed.
fn drop_of_profile(
    office: &Office,
    pieces: &mut Vec<Piece>,
    place: usize,
    number: usize,
    cases: &[&Case],
) -> Result<(), AllocError> {
    let mut start: usize = 0;
    for at in 0..line_count_at(pieces, place) {
        let line = replaced_line(pieces, place, at, String::new(office.alloc));
        let removed = Removed {
            profile: number,
            line: line.as_str(),
        };
        if let Some(missed) = missed(office, pieces.as_slice(), cases, start, removed)? {
            start = missed;
            let _ = replaced_line(pieces, place, at, line);
        }
    }
    if let Some(piece) = pieces.get_mut(place) {
        let lines = mem::replace(&mut piece.lines, Vec::new(office.alloc));
        piece.lines = in_order(office, lines)?;
    }
    Ok(())
}

fn line_count_at(pieces: &[Piece], place: usize) -> usize {
    match pieces.get(place) {
        Some(piece) => piece.lines.len(),
        None => 0,
    }
}

/// Puts a line in the place of another one, and returns that. An empty line says nothing.
fn replaced_line(pieces: &mut [Piece], place: usize, at: usize, line: String) -> String {
    if let Some(piece) = pieces.get_mut(place) {
        if let Some(old) = piece.lines.get_mut(at) {
            return mem::replace(old, line);
        }
    }
    line
}

/// The place of one of it that isn't mended any more without that line. What shows without a search is looked at first, and of
/// that what the line was proposed for, from a place on.
fn missed(
    office: &Office,
    pieces: &[Piece],
    cases: &[&Case],
    start: usize,
    removed: Removed<'_>,
) -> Result<Option<usize>, AllocError> {
    let later = cases.iter().enumerate().skip(start);
    for (at, case) in later.chain(cases.iter().enumerate().take(start)) {
        if is_proposed(office, case, removed)? && !office.seems_mended(pieces, case)? {
            return Ok(Some(at));
        }
    }
    match shown(office, pieces, cases)? {
        Some(at) => Ok(Some(at)),
        None => searched(office, pieces, cases),
    }
}

/// Returns whether a line is one of those that may mend that.
fn is_proposed(office: &Office, case: &Case, removed: Removed<'_>) -> Result<bool, AllocError> {
    if !may_have_lines(office, case.subject, removed.profile) {
        return Ok(false);
    }
    for proposals in proposals_for(office, case.subject)? {
        if proposals
            .iter()
            .any(|proposal| proposal.line.as_str() == removed.line)
        {
            return Ok(true);
        }
    }
    Ok(false)
}

/// Returns whether lines of a profile may mend that: of two profiles, one has them that has a folder of which the other one has a part.
fn may_have_lines(office: &Office, subject: Subject, profile: usize) -> bool {
    match subject {
        Subject::Pair(first, second) if first == profile => has_parts(office, profile, second),
        Subject::Pair(first, _) => has_parts(office, profile, first),
        Subject::Rule(_, _) => true,
    }
}

/// The place of the first of it that shows to be unsafe without a search.
fn shown(office: &Office, pieces: &[Piece], cases: &[&Case]) -> Result<Option<usize>, AllocError> {
    for (at, case) in cases.iter().enumerate() {
        if !office.seems_mended(pieces, case)? {
            return Ok(Some(at));
        }
    }
    Ok(None)
}

/// The place of the first of it of which a search says that it isn't mended any more.
fn searched(
    office: &Office,
    pieces: &[Piece],
    cases: &[&Case],
) -> Result<Option<usize>, AllocError> {
    for (at, case) in cases.iter().enumerate() {
        if !office.is_mended(pieces, case)? {
            return Ok(Some(at));
        }
    }
    Ok(None)
}

/// The lines that aren't empty, those that begin with `ignore` first.
fn in_order(office: &Office, lines: Vec<String>) -> Result<Vec<String>, AllocError> {
    let mut ignored = Vec::new(office.alloc);
    let mut barred = Vec::new(office.alloc);
    for line in lines {
        if line.starts_with("ignore") {
            ignored.push(line)?;
        } else if !line.is_empty() {
            barred.push(line)?;
        }
    }
    for line in barred {
        ignored.push(line)?;
    }
    Ok(ignored)
}
