//! The kept values of profiles.
ghost use Rattle.std.specs.Prelude.{◌≡◌, ◌++◌, IfOk, OnOk};
ghost use Rattle.hub_parts.specs.Values as said;

use crate::kept_value::KeptValue;
use hub_path::RelPath;
use hub_profile::Profile;
use std::alloc::{AllocError, Global};

/// Returns the kept values of profiles at each of their roots.
#[tactic(auto, using(crate::proofs::Steps::valued_more, crate::proofs::Steps::valued_end))]
pub(crate) fn values_of(alloc: Global, profiles: &[Profile]) -> Result<Vec<KeptValue>, AllocError>
    ensures { IfOk result (λ v. v.items ≡ said.values profiles.now) }
{
    let mut values = Vec::new(alloc);
    for i in 0..profiles.len() {
        push_profile(&mut values, i, &profiles[i])?;
    }
    Ok(values)
}

/// Appends the kept values of the profile with that number.
fn push_profile(
    values: &mut Vec<KeptValue>,
    number: usize,
    profile: &Profile,
) -> Result<(), AllocError>
    ensures { OnOk result (values.new.items
        ≡ values.old.items ++ said.values_of_one number profile.now) }
{
    for root in profile.roots() {
        push_values(values, number, root.path(), profile.paths())?;
    }
    Ok(())
}

/// Appends the kept values of the profile with that number, at one root.
fn push_values(
    values: &mut Vec<KeptValue>,
    number: usize,
    root: &RelPath,
    paths: &[RelPath],
) -> Result<(), AllocError>
    ensures { OnOk result (values.new.items
        ≡ values.old.items ++ said.values_at number root.now paths.now) }
{
    for path in paths {
        let whole = below(root, path)?;
        values.push(KeptValue {
            path: whole,
            profile: number,
        })?;
    }
    Ok(())
}

/// Returns a path below a root as one from the top of the file system.
fn below(root: &RelPath, path: &RelPath) -> Result<RelPath, AllocError>
    ensures { IfOk result (λ p. p ≡ root.now ++ path.now) }
{
    let mut whole = root.copy()?;
    for i in 0..path.len() {
        let name = path.name(i).copy()?;
        whole = whole.child(name)?;
    }
    Ok(whole)
}
