//! Questions about what walkers and tables allow at the path of a text.
use crate::given::{alphabet_of, profile_of};
use crate::numbers::{Numbers, number_after};
use crate::verbs::verbs_text;
use crate::walkers::{Walking, stage_after};
use anyhow::{Result, bail};
use hub_path::Side;
use hub_profile::Profile;
use hub_reach::{Stage, Table, Walker};
use std::alloc::{AllocError, Global};
use test_kit::three;

/// What a profile may do at the root of a side, at the path of a text: by its walker, and by its table. Whether it may do
/// anything there, by both.
pub(crate) fn allowed(alloc: Global, fields: &str) -> Result<String> {
    let (lines, side, text) = three(fields)?;
    let side = side_of(side)?;
    let profile = profile_of(alloc, lines)?;
    let walked = walked_text(alloc, &profile, side, text)?;
    let numbered = numbered_text(alloc, &profile, side, text)?;
    Ok(format!(in alloc; "{walked}, {numbered}")?)
}

fn side_of(field: &str) -> Result<Side> {
    match field {
        "left" => Ok(Side::Left),
        "right" => Ok(Side::Right),
        _ => bail!("no side has this name"),
    }
}

fn walked_text(alloc: Global, profile: &Profile, side: Side, text: &str) -> Result<String> {
    let walking = Walking::of_profile(alloc, profile)?;
    let stage = stage_after(&walking.walker, &walking.alphabet, text)?;
    Ok(stage_text(alloc, &walking.walker, &stage, side)?)
}

fn stage_text(
    alloc: Global,
    walker: &Walker,
    stage: &Stage,
    side: Side,
) -> Result<String, AllocError> {
    let verbs = verbs_text(alloc, |verb| walker.allowed(stage, side, verb))?;
    let written = walker.writes_at(stage, side);
    format!(in alloc; "{verbs} {written}")
}

fn numbered_text(alloc: Global, profile: &Profile, side: Side, text: &str) -> Result<String> {
    let alphabet = alphabet_of(alloc, profile)?;
    let mut table = Table::of_profile(alloc, profile, &alphabet)?;
    let number = number_after(&alphabet, &mut *table, text)?;
    Ok(number_text(alloc, &table, number, side)?)
}

fn number_text(
    alloc: Global,
    table: &Table,
    number: usize,
    side: Side,
) -> Result<String, AllocError> {
    if number >= table.len() {
        return String::from_str(alloc, "no stage");
    }
    let verbs = verbs_text(alloc, |verb| table.allowed(number, side, verb))?;
    let written = table.writes_at(number, side);
    format!(in alloc; "{verbs} {written}")
}
