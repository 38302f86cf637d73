//! Finds lines. What is found is read again and checked by others, so nothing here has a contract.
use crate::case::{Case, cases_of};
use crate::cut::{cut_at_headings, is_profile};
use crate::hidden::{drop_hidden, has_no_line, is_hidden};
use crate::needless::drop_needless;
use crate::office::Office;
use crate::piece::Piece;
use crate::proposals::{Proposal, proposals_for};
use crate::set::faults_in;
use crate::subject::Subject;
use hub_cert::CheckFault;
use hub_text::Items;
use std::alloc::{AllocError, Global};
use std::collections::BTreeSet;

/// Cuts a bundle into parts, and finds lines that make its profiles and rules safe, as far as lines may that only take away.
///
/// For a clash of two profiles of which one has a folder and the other one a part of it, the first one leaves the part out, and
/// makes no change at the folders between at the roots of both. For what breaks a rule it is a bar on the rule's pattern, or else
/// on the root. No line is found that isn't needed, or that mends nothing, or for which there is no room in a limit of a profile
/// or of a set. For Unison what is unsafe is said by `hub_apart`: each two near profiles are looked at without the rules, and each
/// one beside them. Roots may be nested then: the lines are counted from the roots of their profile.
///
/// The cost is mostly two searches of all goals. What isn't mended by the first lines makes a search of all goals more, and each
/// line that isn't needed one of two profiles for each two that clash.
pub fn pieces_with_lines(
    alloc: Global,
    bytes: &[u8],
    for_unison: bool,
) -> Result<Vec<Piece>, AllocError> {
    let pieces = cut_at_headings(alloc, bytes)?;
    let Some(found) = faults_in(alloc, bytes, for_unison)? else {
        return Ok(pieces);
    };
    match Office::read(alloc, bytes, for_unison)? {
        Some(office) if !found.is_empty() => {
            let pieces = mended(&office, pieces, found)?;
            with_room(&office, pieces)
        }
        _ => Ok(pieces),
    }
}

/// These parts, without any lines if there is no room for all of them. Each list of lines was tried by itself before.
fn with_room(office: &Office, pieces: Vec<Piece>) -> Result<Vec<Piece>, AllocError> {
    let mut pieces = pieces;
    if has_lines(pieces.as_slice()) && !office.has_room(pieces.as_slice())? {
        for piece in pieces.iter_mut() {
            piece.lines.clear();
        }
    }
    Ok(pieces)
}

/// Returns whether lines are to follow some of these parts.
fn has_lines(pieces: &[Piece]) -> bool {
    pieces.iter().any(|piece| !piece.lines.is_empty())
}

/// The parts with lines by which what is unsafe is mended, as far as it can be.
fn mended(
    office: &Office,
    pieces: Vec<Piece>,
    faults: Items<CheckFault>,
) -> Result<Vec<Piece>, AllocError> {
    let mut pieces = pieces;
    let cases = cases_of(office.alloc, faults)?;
    let left = add_lines(office, &mut pieces, cases.as_slice())?;
    let mended = without(office.alloc, cases, &left)?;
    drop_needless(office, &mut pieces, mended.as_slice())?;
    Ok(pieces)
}

/// Adds lines until no more can be mended, and returns what isn't. Each search but the last one is followed by a list more for one of
/// the cases, which have at most three.
fn add_lines(
    office: &Office,
    pieces: &mut Vec<Piece>,
    cases: &[Case],
) -> Result<BTreeSet<Subject>, AllocError> {
    add_first(office, pieces, cases)?;
    drop_hidden(office, pieces)?;
    for _ in 0..cases.len().saturating_mul(3) {
        let left = office.unsafe_of(pieces.as_slice(), cases)?;
        if !add_for_all(office, pieces, left.as_slice())? {
            return subjects_of(office.alloc, left.as_slice());
        }
    }
    subjects_of(office.alloc, cases)
}

/// What is to be mended, without what is in that set.
fn without(
    alloc: Global,
    cases: Vec<Case>,
    left: &BTreeSet<Subject>,
) -> Result<Vec<Case>, AllocError> {
    let mut others = Vec::new(alloc);
    for case in cases {
        if !left.contains(&case.subject) {
            others.push(case)?;
        }
    }
    Ok(others)
}

/// What is to be mended, as a set.
fn subjects_of(alloc: Global, cases: &[Case]) -> Result<BTreeSet<Subject>, AllocError> {
    let mut subjects = BTreeSet::new(alloc);
    for case in cases {
        subjects.insert(case.subject)?;
    }
    Ok(subjects)
}

/// Adds lines for all of it that shows to be unsafe, as all does that has no line. What other lines leave out isn't read: the search
/// that follows says whether it is mended.
fn add_first(office: &Office, pieces: &mut Vec<Piece>, cases: &[Case]) -> Result<(), AllocError> {
    for case in cases {
        if has_no_line(pieces.as_slice(), case.subject) {
            add_for(office, pieces, case)?;
        } else if !is_hidden(office, pieces.as_slice(), case.subject)? {
            add_if_unsafe(office, pieces, case)?;
        }
    }
    Ok(())
}

/// Adds lines for all of it that shows to be unsafe, and returns whether there are new ones.
fn add_for_all(
    office: &Office,
    pieces: &mut Vec<Piece>,
    cases: &[Case],
) -> Result<bool, AllocError> {
    let mut is_more = false;
    for case in cases {
        if add_if_unsafe(office, pieces, case)? {
            is_more = true;
        }
    }
    Ok(is_more)
}

/// Adds lines for that if it shows to be unsafe, and returns whether there are new ones.
fn add_if_unsafe(
    office: &Office,
    pieces: &mut Vec<Piece>,
    case: &Case,
) -> Result<bool, AllocError> {
    Ok(!office.seems_mended(pieces.as_slice(), case)? && add_for(office, pieces, case)?)
}

/// Adds the first list of lines by which its fault is none any more, and for which there is room. It returns whether there is one
/// with a new line.
fn add_for(office: &Office, pieces: &mut Vec<Piece>, case: &Case) -> Result<bool, AllocError> {
    for proposals in proposals_for(office, case.subject)? {
        let counts = line_counts(office.alloc, pieces.as_slice())?;
        if add_all(pieces, proposals)? && office.is_answered(pieces.as_slice(), case)? {
            return Ok(true);
        }
        cut_lines(pieces, counts.as_slice());
    }
    Ok(false)
}

/// How many lines each part has.
fn line_counts(alloc: Global, pieces: &[Piece]) -> Result<Vec<usize>, AllocError> {
    let mut counts = Vec::new(alloc);
    for piece in pieces {
        counts.push(piece.lines.len())?;
    }
    Ok(counts)
}

/// Drops the lines beyond these counts.
fn cut_lines(pieces: &mut Vec<Piece>, counts: &[usize]) {
    for (piece, count) in pieces.iter_mut().zip(counts.iter()) {
        piece.lines.truncate(*count);
    }
}

/// Adds lines to their profiles that these don't have yet, and returns whether there are some.
fn add_all(pieces: &mut Vec<Piece>, proposals: Vec<Proposal>) -> Result<bool, AllocError> {
    let mut is_more = false;
    for proposal in proposals {
        if add(pieces, proposal)? {
            is_more = true;
        }
    }
    Ok(is_more)
}

/// Adds a line to its profile, and returns whether it is new there.
fn add(pieces: &mut Vec<Piece>, proposal: Proposal) -> Result<bool, AllocError> {
    let mut number: usize = 0;
    for piece in pieces.iter_mut() {
        if is_profile(piece) {
            if number == proposal.profile {
                return add_line(piece, proposal.line);
            }
            number = number.saturating_add(1);
        }
    }
    Ok(false)
}

/// Adds a line to a part that doesn't have it yet, and returns whether it is one.
fn add_line(piece: &mut Piece, line: String) -> Result<bool, AllocError> {
    if piece.lines.contains(&line) {
        return Ok(false);
    }
    piece.lines.push(line)?;
    Ok(true)
}
