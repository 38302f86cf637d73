//! How faults are shown.
ghost use Rattle.std.specs.Prelude.{◌≡◌, IfOk, Ok};

use anyhow::{Result, bail};
use hub_cert::CheckFault;
use hub_path::RelPath;
use std::alloc::{AllocError, Global};

/// A fault that has names, roots or paths is shown by their texts, and any other one as Rust prints it for debugging.
pub(crate) fn fault_text(alloc: Global, fault: &CheckFault) -> Result<String, AllocError> {
    match fault {
        CheckFault::SameName { name } => format!(in alloc; "SameName {}", name.text()),
        CheckFault::NestedRoots { first, second } => {
            format!(in alloc; "NestedRoots {} {}", first.as_str(), second.as_str())
        }
        CheckFault::Overlap {
            writer,
            other,
            held,
            path,
            ..
        } => overlap_text(alloc, *writer, *other, held, path),
        CheckFault::Breach {
            profile,
            rule,
            path,
        } => breach_text(alloc, *profile, *rule, path),
        _ => format!(in alloc; "{fault:?}"),
    }
}

fn overlap_text(
    alloc: Global,
    writer: usize,
    other: usize,
    held: &RelPath,
    path: &RelPath,
) -> Result<String, AllocError> {
    let held = held.text()?;
    let path = path.text()?;
    format!(in alloc; "{writer} writes {held}, {other} reaches {path}")
}

fn breach_text(
    alloc: Global,
    profile: usize,
    rule: usize,
    path: &RelPath,
) -> Result<String, AllocError> {
    let path = path.text()?;
    format!(in alloc; "{profile} breaks rule {rule} at {path}")
}

/// What was made, in a box. It is an error if there is a fault in its place.
pub(crate) fn boxed<T: Drop>(alloc: Global, made: Result<T, CheckFault>) -> Result<Box<T>>
    ensures { IfOk result (λ b. made ≡ Ok b.value) }
{
    match made {
        Ok(value) => Ok(Box::new(alloc, value)?),
        Err(fault) => bail!("no set and no product: {fault:?}"),
    }
}
