//! What a cautious reading finds in the profiles of a bundle.
ghost use Rattle.std.specs.Prelude.{◌≡◌, ◌≢◌, IfOk, OnOk};
ghost use Rattle.hub_text.specs.Lines.{lines_of};
ghost use Rattle.hub_preferences.specs.Findings as spec;
ghost use Rattle.hub_preferences.specs.Spellings.{or_spelling, other_spelling};

use crate::place::roots_in;
use crate::section::{NO_PROFILE, Section};
use crate::spelling::other_spelling;
use hub_bundle::is_heading;
use hub_path::{Name, Root};
use hub_profile::{Fault, read_profile};
use hub_text::Lines;
use std::alloc::{AllocError, Global};

/// A line of a profile that doesn't count as it stands.
#[derive(Debug, Drop)]
pub struct Finding {
    /// The number of the line in the bundle, from 1 on.
    pub line: usize,
    /// What becomes of it.
    pub outcome: Outcome,
}

/// What becomes of a line.
#[derive(Debug, Drop)]
pub enum Outcome {
    /// The cautious reading leaves it out.
    LeftOut,
    /// It stays, and the plain reader refuses it by itself.
    Refused(Fault),
}

/// Finds each line of a profile that a cautious reading leaves out, and each that the plain reader refuses by itself, in the
/// order of the bundle.
///
/// A line is refused by itself if a profile with this line alone has another fault than that its roots are missing. Faults that
/// only several lines make together are not found: a third root, a line too many, a root that is neither of the two. Nor are
/// faults of headings and of other sections.
///
/// It takes time in proportion to the bytes, but for the search for names. Out of memory is the only error.
pub fn findings(alloc: Global, bundle: &[u8]) -> Result<Vec<Finding>, AllocError>
    ensures { IfOk result (λ v. v.items ≡ spec.findings_of bundle.now) }
{
    let roots = roots_in(alloc, bundle)?;
    let mut findings = Vec::new(alloc);
    let mut section = NO_PROFILE;
    let mut number = 0;
    let mut lines = Lines::new(bundle);
    while let Some(line) = lines.next() {
        number += 1;
        section = section.at(alloc, roots.as_slice(), line.text, lines.rest())?;
        if let Some(outcome) = outcome_of(
            alloc,
            roots.as_slice(),
            section,
            line.text,
            lines.rest(),
        )? {
            findings.push(Finding {
                line: number,
                outcome,
            })?;
        }
    }
    Ok(findings)
}

/// What becomes of a line of a section above these lines, unless it counts as it stands.
fn outcome_of(
    alloc: Global,
    roots: &[Root],
    section: Section,
    line: &[u8],
    below: &[u8],
) -> Result<Option<Outcome>, AllocError>
    ensures { IfOk result (λ o. o
        ≡ spec.outcome_of roots.now section line.now (lines_of below.now)) }
{
    if section.leaves_out(alloc, roots, line, below)? {
        return Ok(Some(Outcome::LeftOut));
    }
    refusal(alloc, roots, section, line)
}

/// The refusal of a line of a section, if it is refused by itself.
fn refusal(
    alloc: Global,
    roots: &[Root],
    section: Section,
    line: &[u8],
) -> Result<Option<Outcome>, AllocError>
    ensures { IfOk result (λ o. o ≡ spec.refusal roots.now section line.now) }
{
    if !section.is_profile || is_heading(line) {
        return Ok(None);
    }
    match fault_of(alloc, roots, line)? {
        Some(fault) => Ok(Some(Outcome::Refused(fault))),
        None => Ok(None),
    }
}

/// The fault for which the plain reader refuses a line of a profile by itself, in its own spelling.
fn fault_of(alloc: Global, roots: &[Root], line: &[u8]) -> Result<Option<Fault>, AllocError>
    ensures { IfOk result (λ f. f
        ≡ spec.fault_alone (or_spelling (other_spelling roots.now line.now) line.now)) }
{
    match other_spelling(alloc, roots, line)? {
        Some(text) => fault_alone(alloc, text.as_bytes()),
        None => fault_alone(alloc, line),
    }
}

/// The fault for which the plain reader refuses a line by itself.
fn fault_alone(alloc: Global, line: &[u8]) -> Result<Option<Fault>, AllocError>
    ensures { IfOk result (λ f. f ≡ spec.fault_alone line.now) }
{
    let Ok(name) = Name::read(alloc, "p") else {
        return Err(AllocError);
    };
    match read_profile(alloc, name, line) {
        Ok(_) => Ok(None),
        Err(error) => fault_but_roots(error.fault),
    }
}

/// A fault of a profile of one line, unless it is that the roots are missing.
fn fault_but_roots(fault: Fault) -> Result<Option<Fault>, AllocError>
    ensures fault { IfOk result (λ f. f ≡ spec.fault_but_roots fault) }
    ensures memory { OnOk result (fault ≢ Fault.OutOfMemory) }
{
    match fault {
        Fault::OutOfMemory => Err(AllocError),
        Fault::RootCount => Ok(None),
        _ => Ok(Some(fault)),
    }
}
