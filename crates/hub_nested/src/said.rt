//! Profiles, said from a root above their own.
ghost use Rattle.std.specs.Prelude.{◌≡◌, ◌++◌, [], map, Some, None, IfOk, IsTrue, if◌then◌else◌};
ghost use Rattle.std.specs.List.{list_all};
ghost use Rattle.hub_profile.specs.Facts.{are_kept};
ghost use Rattle.hub_unison.specs.ReadingOf.{is_read_back};
ghost use Rattle.hub_nested.specs.Lifted as lifted;
ghost use Rattle.hub_nested.specs.Said as said;

use crate::below::each_below;
use crate::pieces::{just, said_spec};
use hub_glob::PathSpec;
use hub_path::{RelPath, Side};
use hub_profile::{Bars, Partial, Profile};
use hub_text::Items;
use std::alloc::{AllocError, Global};

/// Returns the profile, said from a root above by these names, if it can be written.
pub(crate) fn said_from(
    alloc: Global,
    names: &RelPath,
    profile: &Profile,
) -> Result<Option<Profile>, AllocError>
    ensures { IfOk result (λ o. o ≡ (if lifted.can_be_said names.now profile.now
        then Some (lifted.said_from names.now profile.now) else None)) }
{
    let Some(spared) = spared_top(alloc, names)? else {
        return Ok(None);
    };
    let Some(bars) = fixed_top(alloc, names)? else {
        return Ok(None);
    };
    let _place = names.len();
    let paths = each_below(alloc, names, profile.paths())?;
    said_with(alloc, names, profile, paths, spared, bars)
}

/// Returns the profile with these kept values at or below a path, if it can be written. Nothing may be changed at that path.
pub(crate) fn only_below(
    alloc: Global,
    path: &RelPath,
    profile: &Profile,
    paths: Items<RelPath>,
) -> Result<Option<Profile>, AllocError>
    requires kept { IsTrue (are_kept paths) }
    ensures { IfOk result (λ o. o ≡ (if lifted.can_be_below path.now profile.now
        then Some (record (lifted.only_below path.now profile.now) { paths = paths }) else None)) }
{
    let Some(bars) = both_fixed(alloc, path)? else {
        return Ok(None);
    };
    let own = RelPath::top(alloc);
    said_with(alloc, &own, profile, paths, Items::new(alloc), bars)
}

/// Returns the profile with these kept values, and its lines said from above by these names, after these specifications and
/// bars, if they can be written.
fn said_with(
    alloc: Global,
    names: &RelPath,
    profile: &Profile,
    paths: Items<RelPath>,
    spared: Items<PathSpec>,
    bars: Items<Partial>,
) -> Result<Option<Profile>, AllocError>
    requires kept { IsTrue (are_kept paths) }
    ensures { IfOk result (λ o. o ≡ (if lifted.are_said names.now profile.now
        then Some (said.with_said names.now profile.now paths spared bars) else None)) }
{
    let Some(ignore) = said_specs(alloc, names, Items::new(alloc), profile.ignore())? else {
        return Ok(None);
    };
    let Some(ignorenot) = said_specs(alloc, names, spared, profile.ignorenot())? else {
        return Ok(None);
    };
    let Some(partial) = said_bars(alloc, names, bars, profile.partial())? else {
        return Ok(None);
    };
    let bare = profile.bare_copy(alloc)?;
    let kept = bare.with_paths(paths);
    Ok(Some(kept.with_patterns(ignore, ignorenot, partial)))
}

/// Appends the specifications, said from above by these names, if they can be written.
fn said_specs(
    alloc: Global,
    names: &RelPath,
    mut list: Items<PathSpec>,
    specs: &[PathSpec],
) -> Result<Option<Items<PathSpec>>, AllocError>
    ensures { IfOk result (λ o. o
        ≡ (if list_all (λ s. is_read_back (lifted.said_spec names.now s)) specs.now
        then Some (list ++ map (lifted.said_spec names.now) specs.now) else None)) }
{
    for spec in specs {
        let Some(copy) = said_spec(alloc, names, spec)? else {
            return Ok(None);
        };
        list.push(copy)?;
    }
    Ok(Some(list))
}

/// Appends the bars, said from above by these names, if they can be written.
fn said_bars(
    alloc: Global,
    names: &RelPath,
    mut list: Items<Partial>,
    bars: &[Partial],
) -> Result<Option<Items<Partial>>, AllocError>
    ensures { IfOk result (λ o. o
        ≡ (if list_all (λ b. is_read_back (lifted.said_spec names.now b.spec)) bars.now
        then Some (list ++ map (said.said_bar names.now) bars.now) else None)) }
{
    for bar in bars {
        let Some(copy) = said_bar(alloc, names, bar)? else {
            return Ok(None);
        };
        list.push(copy)?;
    }
    Ok(Some(list))
}

/// Returns a bar, said from above by these names, if it can be written.
fn said_bar(alloc: Global, names: &RelPath, bar: &Partial) -> Result<Option<Partial>, AllocError>
    ensures { IfOk result (λ o. o ≡ (if is_read_back (lifted.said_spec names.now bar.now.spec)
        then Some (said.said_bar names.now bar.now) else None)) }
{
    match said_spec(alloc, names, &bar.spec)? {
        Some(spec) => {
            Ok(Some(Partial {
                side: bar.side,
                bars: bar.bars,
                spec,
            }))
        }
        None => Ok(None),
    }
}

/// Returns a specification of the profile's own root, for `ignorenot`, if it lies below by these names.
fn spared_top(alloc: Global, names: &RelPath) -> Result<Option<Items<PathSpec>>, AllocError>
    ensures { IfOk result (λ o. o ≡ (if said.is_top_said names.now
        then Some (said.spared_top names.now) else None)) }
{
    let mut spared = Items::new(alloc);
    if names.len() == 0 {
        return Ok(Some(spared));
    }
    let Some(spec) = just(alloc, names)? else {
        return Ok(None);
    };
    spared.push(spec)?;
    Ok(Some(spared))
}

/// Returns bars on the profile's own root, if it lies below by these names.
fn fixed_top(alloc: Global, names: &RelPath) -> Result<Option<Items<Partial>>, AllocError>
    ensures { IfOk result (λ o. o ≡ (if said.is_top_said names.now
        then Some (said.fixed_top names.now) else None)) }
{
    if names.len() == 0 {
        return Ok(Some(Items::new(alloc)));
    }
    both_fixed(alloc, names)
}

/// Returns bars by which nothing may be changed at a path of either root, if they can be written.
fn both_fixed(alloc: Global, path: &RelPath) -> Result<Option<Items<Partial>>, AllocError>
    ensures { IfOk result (λ o. o ≡ (if is_read_back (lifted.just path.now)
        then Some (said.both_fixed path.now) else None)) }
{
    let Some(left) = fixed_at(alloc, Side::Left, path)? else {
        return Ok(None);
    };
    let Some(right) = fixed_at(alloc, Side::Right, path)? else {
        return Ok(None);
    };
    let mut bars = Items::new(alloc);
    bars.push(left)?;
    bars.push(right)?;
    Ok(Some(bars))
}

/// Returns a bar by which nothing may be changed at a path of the root of that side, if it can be written.
fn fixed_at(alloc: Global, side: Side, path: &RelPath) -> Result<Option<Partial>, AllocError>
    ensures { IfOk result (λ o. o ≡ (if is_read_back (lifted.just path.now)
        then Some (lifted.fixed_at side path.now) else None)) }
{
    match just(alloc, path)? {
        Some(spec) => {
            Ok(Some(Partial {
                side,
                bars: Bars {
                    create: true,
                    update: true,
                    delete: true,
                },
                spec,
            }))
        }
        None => Ok(None),
    }
}
