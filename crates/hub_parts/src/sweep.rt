//! The sweep over kept values in the order of paths.
ghost use Rattle.std.specs.Prelude.{◌≡◌, ◌++◌, ◌∷◌, map, reverse, IfOk, OnOk};
ghost use Rattle.hub_parts.specs.Near as near;

use crate::kept_value::KeptValue;
use hub_path::RelPath;
use std::alloc::{AllocError, Global};

/// Returns the pairs of profiles with values, in order, of which one is over the other: the profile of the upper one first.
#[tactic(auto, using(crate::proofs::Steps::swept_more, crate::proofs::Steps::swept_end))]
pub(crate) fn near_pairs(
    alloc: Global,
    values: &[KeptValue],
) -> Result<Vec<(usize, usize)>, AllocError>
    ensures { IfOk result (λ ps. ps.items ≡ near.near_pairs values.now) }
{
    let mut pairs = Vec::new(alloc);
    let mut above = Vec::new(alloc);
    let mut rest = values;
    while let Some((value, later)) = rest.split_first() {
        place(&mut pairs, &mut above, value)?;
        rest = later;
    }
    Ok(pairs)
}

/// Takes from the stack what isn't over the value, appends the pairs of the others with it, and puts it on top.
#[tactic(auto, using(crate::proofs::Steps::placed_pairs, crate::proofs::Steps::placed_above))]
fn place(
    pairs: &mut Vec<(usize, usize)>,
    above: &mut Vec<KeptValue>,
    value: &KeptValue,
) -> Result<(), AllocError>
    ensures pairs { OnOk result (pairs.new.items ≡ pairs.old.items
        ++ map (λ l. (l.profile, value.now.profile))
        (reverse (near.over_only value.now.path (reverse above.old.items)))) }
    ensures above { OnOk result (reverse above.new.items
        ≡ value.now ∷ near.over_only value.now.path (reverse above.old.items)) }
{
    keep_over(above, &value.path);
    push_pairs(pairs, above.as_slice(), value.profile)?;
    let copy = value.copy()?;
    above.push(copy)?;
    Ok(())
}

/// Takes from the stack what isn't over the path.
fn keep_over(above: &mut Vec<KeptValue>, path: &RelPath)
    ensures { reverse above.new.items ≡ near.over_only path.now (reverse above.old.items) }
{
    while let Some(top) = above.last() {
        if path.starts_with(&top.path) {
            return;
        }
        above.pop();
    }
}

/// Appends the pairs of the profiles of a stack with that one, the lowest of the stack first.
fn push_pairs(
    pairs: &mut Vec<(usize, usize)>,
    above: &[KeptValue],
    profile: usize,
) -> Result<(), AllocError>
    ensures { OnOk result (pairs.new.items
        ≡ pairs.old.items ++ map (λ l. (l.profile, profile)) above.now) }
{
    for one in above {
        pairs.push((one.profile, profile))?;
    }
    Ok(())
}
