//! Lines of profiles by which Unison writes elsewhere than it synchronizes.

use hub_preferences::{Effect, effect_of};
use hub_source::{Said, Source, SourceLine};
use std::alloc::AllocError;

/// Returns whether a line sets a preference by which Unison writes elsewhere than it synchronizes.
pub(crate) fn writes_elsewhere(line: &SourceLine<'_>) -> bool {
    matches!(effect_of(line.name()), Some(Effect::WritesElsewhere))
}

/// Says behind what a yes assumes that what such lines write lies outside of all roots, and which preferences of the profiles these set.
pub(crate) fn say_elsewhere(out: &mut String, source: &Source<'_>) -> Said {
    let names = names_in(source)?;
    let Some((last, others)) = names.as_slice().split_last() else {
        return Ok(());
    };
    out.push_str("hubsync: and that what ")?;
    for (at, name) in others.iter().enumerate() {
        out.push_str(if at == 0 { "" } else { ", " })?;
        out.push_str(*name)?;
    }
    out.push_str(if others.is_empty() { "" } else { " and " })?;
    out.push_str(*last)?;
    out.push_str(if others.is_empty() {
        " writes"
    } else {
        " write"
    })?;
    out.push_str(" lies outside of all roots\n")
}

/// The names of such preferences that the profiles set, each once, in the order of the lines.
fn names_in<'a>(source: &Source<'a>) -> Result<Vec<&'a str>, AllocError> {
    let mut names = Vec::new(source.alloc());
    for line in source.lines() {
        let name = line.name();
        if writes_elsewhere(line) && !names.contains(&name) {
            names.push(name)?;
        }
    }
    Ok(names)
}
