//! Sets of profiles and rules. A set is written as fields:
//!
//! - `NAME LEFT RIGHT: LINES` is a profile of that name over the roots `/srv/LEFT` and `/srv/RIGHT`.
//! - `rules: LINES` are the rules.
//!
//! The lines have `; ` between them. Where there are none, the `: ` is left out, too.
use crate::faults::{boxed, fault_text};
use anyhow::Result;
use hub_cert::{CheckFault, ProfileSet};
use hub_path::Name;
use hub_profile::{Profile, Rules, read_profile, read_rules};
use hub_text::Items;
use std::alloc::{AllocError, Global};
use test_kit::cut;

/// How many profiles and rules the set has, or why there is no set.
pub(crate) fn set_answer(alloc: Global, fields: &str) -> Result<String> {
    let (profiles, rules) = members_of(alloc, fields)?;
    Ok(set_text(alloc, profiles, rules)?)
}

fn set_text(alloc: Global, profiles: Items<Profile>, rules: Rules) -> Result<String, AllocError> {
    made_text(alloc, &ProfileSet::new(alloc, profiles, rules))
}

fn made_text(alloc: Global, made: &Result<ProfileSet, CheckFault>) -> Result<String, AllocError> {
    match made {
        Ok(set) => counts_text(alloc, set),
        Err(fault) => fault_text(alloc, fault),
    }
}

fn counts_text(alloc: Global, set: &ProfileSet) -> Result<String, AllocError> {
    let profiles = set.profiles().len();
    let rules = set.rules().len();
    format!(in alloc; "{profiles} profiles, {rules} rules")
}

/// Makes the set of these fields.
pub(crate) fn set_of(alloc: Global, fields: &str) -> Result<Box<ProfileSet>> {
    let (profiles, rules) = members_of(alloc, fields)?;
    boxed(alloc, ProfileSet::new(alloc, profiles, rules))
}

/// Reads the profiles and the rules of these fields.
pub(crate) fn members_of(alloc: Global, fields: &str) -> Result<(Items<Profile>, Rules)> {
    let mut profiles = Items::new(alloc);
    let mut rules = Rules::new(alloc);
    for field in fields.split(" | ") {
        add_member(alloc, &mut profiles, &mut rules, field)?;
    }
    Ok((profiles, rules))
}

/// Reads a profile or the rules.
fn add_member(
    alloc: Global,
    profiles: &mut Items<Profile>,
    rules: &mut Rules,
    field: &str,
) -> Result<()> {
    let (head, lines) = field.split_once(": ").unwrap_or((field, ""));
    match head {
        "" => {}
        "rules" => *rules = rules_of(alloc, lines)?,
        _ => profiles.push(profile_of(alloc, head, lines)?)?,
    }
    Ok(())
}

fn profile_of(alloc: Global, head: &str, lines: &str) -> Result<Profile> {
    let (name, roots) = cut(head);
    let text = profile_text(alloc, roots, lines)?;
    read_named(alloc, name, text.as_str())
}

/// Reads the profile of that name and this text.
fn read_named(alloc: Global, name: &str, text: &str) -> Result<Profile> {
    let name = Name::read(alloc, name)?;
    Ok(read_profile(alloc, name, text.as_bytes())?)
}

/// The text of a profile that has two roots and these lines.
fn profile_text(alloc: Global, roots: &str, lines: &str) -> Result<String, AllocError> {
    let (left, right) = cut(roots);
    let lines = text_of_lines(alloc, lines)?;
    format!(in alloc; "root = /srv/{left}\nroot = /srv/{right}\n{lines}\n")
}

fn rules_of(alloc: Global, lines: &str) -> Result<Rules> {
    let text = text_of_lines(alloc, lines)?;
    Ok(read_rules(alloc, text.as_bytes())?)
}

/// The text that has these lines.
fn text_of_lines(alloc: Global, lines: &str) -> Result<String, AllocError> {
    lines.replace(alloc, "; ", "\n")
}
