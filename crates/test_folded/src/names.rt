//! Questions about names and specifications.
use anyhow::Result;
use hub_folded::{fold_name, fold_spec, knows};
use hub_glob::PathSpec;
use std::alloc::Global;
use test_kit::{quoted, shown, text_of};

/// What the name folds to, or `unknown`.
pub(crate) fn name(alloc: Global, field: &str) -> Result<String> {
    let name = text_of(alloc, field)?;
    if !knows(name.as_str()) {
        return shown(alloc, &"unknown");
    }
    quoted(alloc, fold_name(alloc, name.as_str())?.as_str())
}

/// What the specification folds to, or `unknown`.
pub(crate) fn spec(alloc: Global, field: &str) -> Result<String> {
    let text = text_of(alloc, field)?;
    let spec = PathSpec::read(alloc, text.as_str())?;
    match fold_spec(alloc, &spec)? {
        Some(folded) => quoted(alloc, folded.text()?.as_str()),
        None => shown(alloc, &"unknown"),
    }
}
