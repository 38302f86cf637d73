//! What searches find: the texts of a certificate, or a path that shows what a goal has to rule out.
ghost use Rattle.std.specs.Prelude.{IsTrue};
ghost use Rattle.hub_cert.specs.Goals.{is_goal};

use crate::certificates::texts_of;
use crate::faults::fault_text;
use crate::goals::{goal_of, goal_text};
use crate::sets::set_of;
use anyhow::{Result, bail};
use hub_cert::{Certificate, CheckFault, Goal, ProfileSet};
use hub_path::RelPath;
use hub_search::{Finding, certificates, check, search};
use hub_text::Items;
use std::alloc::{AllocError, Global};
use test_kit::{first, joined};

/// What a search for a goal finds.
pub(crate) fn search_answer(alloc: Global, fields: &str) -> Result<String> {
    let (goal, fields) = first(fields)?;
    let goal = goal_of(goal)?;
    let set = set_of(alloc, fields)?;
    found(alloc, &set, goal)
}

fn found(alloc: Global, set: &ProfileSet, goal: Goal) -> Result<String> {
    if !set.has(goal) {
        bail!("no goal of the set");
    }
    Ok(search_text(alloc, set, goal)?)
}

fn search_text(alloc: Global, set: &ProfileSet, goal: Goal) -> Result<String, AllocError>
    requires { IsTrue (is_goal set.now goal) }
{
    found_text(alloc, &search(alloc, set, goal))
}

fn found_text(alloc: Global, found: &Result<Finding, CheckFault>) -> Result<String, AllocError> {
    match found {
        Ok(finding) => finding_text(alloc, finding),
        Err(fault) => fault_text(alloc, fault),
    }
}

fn finding_text(alloc: Global, finding: &Finding) -> Result<String, AllocError> {
    match finding {
        Finding::Empty(certificate) => texts_of(alloc, certificate),
        Finding::Shown { path, held } => shown_text(alloc, path, held),
    }
}

/// The path that is shown, and the prefix of it that the writer of a clash holds. A breach has none.
fn shown_text(alloc: Global, path: &RelPath, held: &Option<RelPath>) -> Result<String, AllocError> {
    let path = path.as_str();
    match held {
        Some(held) => format!(in alloc; "{path} is shown, {} is held", held.as_str()),
        None => format!(in alloc; "{path} is shown"),
    }
}

/// For each goal of a set whether its certificate has the texts that its own search finds, or why the set has no certificates.
pub(crate) fn certificates_answer(alloc: Global, fields: &str) -> Result<String> {
    let set = set_of(alloc, fields)?;
    compared(alloc, &set, &certificates(alloc, &set))
}

fn compared(
    alloc: Global,
    set: &ProfileSet,
    found: &Result<Items<Certificate>, CheckFault>,
) -> Result<String> {
    match found {
        Ok(certificates) => comparisons(alloc, set, certificates.as_slice()),
        Err(fault) => Ok(fault_text(alloc, fault)?),
    }
}

fn comparisons(alloc: Global, set: &ProfileSet, certificates: &[Certificate]) -> Result<String> {
    joined(
        alloc,
        certificates,
        ", ",
        |certificate| comparison(alloc, set, certificate),
    )
}

fn comparison(alloc: Global, set: &ProfileSet, certificate: &Certificate) -> Result<String> {
    let texts = texts_of(alloc, certificate)?;
    let alone = found(alloc, set, certificate.goal)?;
    Ok(comparison_text(alloc, certificate.goal, texts == alone)?)
}

fn comparison_text(alloc: Global, goal: Goal, is_same: bool) -> Result<String, AllocError> {
    let word = if is_same { "the same" } else { "not the same" };
    let goal = goal_text(alloc, goal)?;
    format!(in alloc; "{goal} {word}")
}

/// What `check` says of a set: that it is safe, or a fault.
pub(crate) fn check_answer(alloc: Global, fields: &str) -> Result<String> {
    let set = set_of(alloc, fields)?;
    Ok(verdict(alloc, &set)?)
}

fn verdict(alloc: Global, set: &ProfileSet) -> Result<String, AllocError> {
    match check(alloc, set) {
        Ok(_) => String::from_str(alloc, "safe"),
        Err(fault) => fault_text(alloc, &fault),
    }
}
