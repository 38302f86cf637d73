//! Questions about what profiles reach.
use crate::given::profile_of;
use crate::walkers::{Way, walk};
use anyhow::Result;
use hub_path::RelPath;
use hub_profile::Profile;
use hub_reach::reaches as is_reached;
use std::alloc::Global;
use test_kit::{shown, two};

/// Returns whether the profile reaches the path: by its names, and by a walker along its text.
pub(crate) fn reaches(alloc: Global, fields: &str) -> Result<String> {
    let (lines, path) = two(fields)?;
    let profile = profile_of(alloc, lines)?;
    reaches_path(alloc, &profile, path)
}

fn reaches_path(alloc: Global, profile: &Profile, path: &str) -> Result<String> {
    let by_text = walk(alloc, profile, path, Way::Anew)?
        .as_str()
        .ends_with('1');
    let by_names = is_reached(profile, &RelPath::read(alloc, path)?);
    Ok(format!(in alloc; "{by_names} {by_text}")?)
}

/// Returns whether the profile reaches the path of the whole replica.
pub(crate) fn reaches_top(alloc: Global, lines: &str) -> Result<String> {
    let profile = profile_of(alloc, lines)?;
    let reached = is_reached(&profile, &RelPath::top(alloc));
    shown(alloc, &reached)
}
