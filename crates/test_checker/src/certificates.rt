//! Certificates. A list of them has `; ` between its parts:
//!
//! - `GOAL, GOAL: TEXTS` is a certificate for each of the goals, with these texts in their order. The texts are words with a
//!   space between them; `-` is the empty one. Where there are none, the `: ` is left out, too.
//! - `all: TEXTS` is such a certificate for each goal of the set that is asked about.
//! - `none` is no certificate.
use crate::faults::fault_text;
use crate::goals::goal_of;
use crate::words::{text_of, word_of};
use anyhow::Result;
use hub_cert::{Certificate, CheckFault, Goal, StageTexts, read_certificates, write_certificates};
use std::alloc::{AllocError, Global};
use test_kit::{bytes_of, in_one_line};

/// What is written of the certificates that are read from a text, or its fault.
pub(crate) fn read_answer(alloc: Global, field: &str) -> Result<String> {
    let text = bytes_of(alloc, field)?;
    text_or_fault(alloc, &read_and_write(alloc, text.as_slice()))
}

fn read_and_write(alloc: Global, bytes: &[u8]) -> Result<String, CheckFault> {
    let certificates = read_certificates(alloc, bytes)?;
    write_certificates(alloc, certificates.as_slice())
}

/// The text of certificates.
pub(crate) fn write_answer(alloc: Global, field: &str) -> Result<String> {
    let certificates = certificates_of(alloc, field, &[])?;
    text_or_fault(alloc, &write_certificates(alloc, certificates.as_slice()))
}

/// A text in one line, or a fault.
fn text_or_fault(alloc: Global, written: &Result<String, CheckFault>) -> Result<String> {
    match written {
        Ok(text) => in_one_line(alloc, text.as_str()),
        Err(fault) => Ok(fault_text(alloc, fault)?),
    }
}

/// Reads a list of certificates. `all` are the goals of the set that is asked about.
pub(crate) fn certificates_of(
    alloc: Global,
    field: &str,
    all: &[Goal],
) -> Result<Vec<Certificate>> {
    let mut certificates = Vec::new(alloc);
    for part in field.split("; ") {
        let (goals, texts) = part.split_once(": ").unwrap_or((part, ""));
        let goals = goals_of(alloc, goals, all)?;
        push_certificates(alloc, &mut certificates, goals.as_slice(), texts)?;
    }
    Ok(certificates)
}

/// Appends a certificate for each of the goals, with these texts.
fn push_certificates(
    alloc: Global,
    certificates: &mut Vec<Certificate>,
    goals: &[Goal],
    texts: &str,
) -> Result<(), AllocError> {
    for goal in goals {
        let stages = stages_of(alloc, texts)?;
        certificates.push(Certificate {
            goal: *goal,
            stages,
        })?;
    }
    Ok(())
}

fn goals_of(alloc: Global, field: &str, all: &[Goal]) -> Result<Vec<Goal>> {
    match field {
        "all" => Ok(all.to_vec(alloc)?),
        "none" => Ok(Vec::new(alloc)),
        _ => listed_goals(alloc, field),
    }
}

fn listed_goals(alloc: Global, field: &str) -> Result<Vec<Goal>> {
    let mut goals = Vec::new(alloc);
    for goal in field.split(", ") {
        goals.push(goal_of(goal)?)?;
    }
    Ok(goals)
}

fn stages_of(alloc: Global, words: &str) -> Result<StageTexts, AllocError> {
    let mut stages = StageTexts::new(alloc);
    for word in words.split_whitespace() {
        stages.push(text_of(word))?;
    }
    Ok(stages)
}

/// How the texts of a certificate are written.
pub(crate) fn texts_of(alloc: Global, certificate: &Certificate) -> Result<String, AllocError> {
    let mut words = Vec::new(alloc);
    for number in 0..certificate.stages.len() {
        words.push(word_of(certificate.stages.text(number)))?;
    }
    words.as_slice().join(alloc, " ")
}
