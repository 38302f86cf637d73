//! Questions about profiles.
use crate::given::members_of;
use anyhow::Result;
use hub_folded::folded_set;
use hub_glob::PathSpec;
use hub_path::RelPath;
use hub_profile::Profile;
use std::alloc::Global;
use test_kit::{joined, list_of, shown, text_of};

/// The folded lines of the two profiles of a set: of one with these lines, and of one that keeps `Q`; and whether the names of their
/// hosts fold.
pub(crate) fn lines(alloc: Global, field: &str, folds: bool, other_folds: bool) -> Result<String> {
    let text = text_of(alloc, field)?;
    let members = members_of(alloc, text.as_str(), folds, other_folds)?;
    let set = folded_set(alloc, members)?;
    joined(
        alloc,
        set.as_slice(),
        " | ",
        |profile| lines_text(alloc, profile),
    )
}

fn lines_text(alloc: Global, profile: &Profile) -> Result<String> {
    let paths = list_of(alloc, profile.paths(), |path| path_text(alloc, path))?;
    let ignore = specs_text(alloc, profile.ignore())?;
    let ignorenot = specs_text(alloc, profile.ignorenot())?;
    let bars = list_of(alloc, profile.partial(), |bar| Ok(bar.spec.text()?))?;
    Ok(format!(in alloc; "{paths}; ignore {ignore}; ignorenot {ignorenot}; bars {bars}")?)
}

/// A path, or `.` for the whole replica.
fn path_text(alloc: Global, path: &RelPath) -> Result<String> {
    if path.len() == 0 {
        return shown(alloc, &".");
    }
    shown(alloc, &path.as_str())
}

fn specs_text(alloc: Global, specs: &[PathSpec]) -> Result<String> {
    list_of(alloc, specs, |spec| Ok(spec.text()?))
}
