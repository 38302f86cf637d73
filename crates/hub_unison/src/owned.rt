//! Lines for spares that aren't needed.
ghost use Rattle.std.specs.Prelude.{◌≡◌, ◌||◌, IfOk};
ghost use Rattle.std.specs.List.{list_any};
ghost use Rattle.hub_unison.specs.ReadingOf as reading;

use crate::spare::spec_of_choices;
use crate::spares::is_plain;
use hub_glob::PathSpec;
use std::alloc::{AllocError, Global};

/// Returns whether a line for spares isn't needed beside these `ignore` and `ignorenot` lines. It is compared with each of them.
pub(crate) fn is_needless(
    alloc: Global,
    specs: &[PathSpec],
    spared: &[PathSpec],
    spare: &PathSpec,
) -> Result<bool, AllocError>
    ensures { IfOk result (λ b. b
        ≡ (reading.is_owned specs.now spare.now || reading.is_among spared.now spare.now)) }
{
    if is_among(spared, spare) {
        return Ok(true);
    }
    is_owned(alloc, specs, spare)
}

fn is_among(spared: &[PathSpec], spare: &PathSpec) -> bool
    ensures { result ≡ reading.is_among spared.now spare.now }
{
    spared.iter().any(|line| line == spare)
}

/// Returns whether what a line for spares matches is ignored for certain by one of these `ignore` lines.
fn is_owned(alloc: Global, specs: &[PathSpec], spare: &PathSpec) -> Result<bool, AllocError>
    ensures { IfOk result (λ b. b ≡ reading.is_owned specs.now spare.now) }
{
    for spec in specs {
        if owns(alloc, spec, spare)? {
            return Ok(true);
        }
    }
    Ok(false)
}

/// Returns whether an `ignore` line is read alike, and has the kind and the choices of a line for spares.
fn owns(alloc: Global, spec: &PathSpec, spare: &PathSpec) -> Result<bool, AllocError>
    ensures { IfOk result (λ b. b ≡ reading.owns spec.now spare.now) }
{
    if !is_plain(alloc, spec)? {
        return Ok(false);
    }
    let choices = spec.choices()?;
    match spec_of_choices(alloc, spec.kind(), choices)? {
        Some(braced) => Ok(&braced == spare),
        None => Ok(false),
    }
}
