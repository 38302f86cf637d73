//! Questions about what profiles may do.
use crate::given::profile_of;
use anyhow::Result;
use hub_path::{RelPath, Root};
use hub_profile::{Profile, Verb};
use hub_reach::{may, may_at, writes, writes_at};
use std::alloc::{AllocError, Global};
use test_kit::{path_of, shown, three, two};

/// What the profile may do at a root.
pub(crate) fn may_change(alloc: Global, fields: &str) -> Result<String> {
    let (lines, root) = two(fields)?;
    let root = Root::read(alloc, root)?;
    let profile = profile_of(alloc, lines)?;
    Ok(allowed_text(alloc, &profile, &root)?)
}

fn allowed_text(alloc: Global, profile: &Profile, root: &Root) -> Result<String, AllocError> {
    verbs_text(alloc, |verb| may(profile, root, verb))
}

/// The kinds of change, and their names.
const VERBS: [(Verb, &str); 3] = [
    (Verb::Create, "create"),
    (Verb::Update, "update"),
    (Verb::Delete, "delete"),
];

/// The kinds of change that are allowed, by name.
pub(crate) fn verbs_text<F: Fn(Verb) -> bool>(
    alloc: Global,
    allows: F,
) -> Result<String, AllocError>
    requires { F.IsAlwaysCallable allows }
{
    let mut words = Vec::new(alloc);
    for (verb, word) in VERBS {
        if allows(verb) {
            words.push(word)?;
        }
    }
    if words.is_empty() {
        words.push("nothing")?;
    }
    words.as_slice().join(alloc, " ")
}

/// Returns whether the profile writes at a root.
pub(crate) fn is_written(alloc: Global, fields: &str) -> Result<String> {
    let (lines, root) = two(fields)?;
    let root = Root::read(alloc, root)?;
    let profile = profile_of(alloc, lines)?;
    let written = writes(&profile, &root);
    shown(alloc, &written)
}

/// What the profile may do at a path of a root.
pub(crate) fn may_change_at(alloc: Global, fields: &str) -> Result<String> {
    let (lines, root, path) = three(fields)?;
    let root = Root::read(alloc, root)?;
    let path = path_of(alloc, path)?;
    let profile = profile_of(alloc, lines)?;
    Ok(allowed_at_text(alloc, &profile, &root, &path)?)
}

fn allowed_at_text(
    alloc: Global,
    profile: &Profile,
    root: &Root,
    path: &RelPath,
) -> Result<String, AllocError> {
    verbs_text(alloc, |verb| may_at(profile, root, path, verb))
}

/// Returns whether the profile writes at a path of a root.
pub(crate) fn is_written_at(alloc: Global, fields: &str) -> Result<String> {
    let (lines, root, path) = three(fields)?;
    let root = Root::read(alloc, root)?;
    let path = path_of(alloc, path)?;
    let profile = profile_of(alloc, lines)?;
    let written = writes_at(&profile, &root, &path);
    shown(alloc, &written)
}
