//! What `verify` says of a set and certificates.
use crate::certificates::certificates_of;
use crate::faults::fault_text;
use crate::sets::set_of;
use anyhow::Result;
use hub_cert::{Certificate, ProfileSet, verify};
use std::alloc::{AllocError, Global};
use test_kit::first;

/// What `verify` says: that the profiles are verified, or a fault.
pub(crate) fn verify_answer(alloc: Global, fields: &str) -> Result<String> {
    let (certificates, fields) = first(fields)?;
    let set = set_of(alloc, fields)?;
    verdict_on(alloc, &set, certificates)
}

fn verdict_on(alloc: Global, set: &ProfileSet, certificates: &str) -> Result<String> {
    let goals = set.goals(alloc)?;
    let certificates = certificates_of(alloc, certificates, goals.as_slice())?;
    Ok(verdict(alloc, set, certificates.as_slice())?)
}

fn verdict(
    alloc: Global,
    set: &ProfileSet,
    certificates: &[Certificate],
) -> Result<String, AllocError> {
    match verify(alloc, set, certificates) {
        Ok(verified) => {
            let count = verified.set().profiles().len();
            format!(in alloc; "{count} profiles verified")
        }
        Err(fault) => fault_text(alloc, &fault),
    }
}
