//! The folded specifications of lines.
ghost use Rattle.std.specs.Prelude.{◌≡◌, IfOk, if◌then◌else◌, map, Some, None};
ghost use Rattle.std.specs.List.{list_all};
ghost use Rattle.hub_folded.specs.Lines as lines;
ghost use Rattle.hub_folded.specs.Table.{unicode};

use crate::line::spelled_spec;
use crate::pattern::folded_parts;
use crate::pieces::knows_spec;
use hub_glob::PathSpec;
use hub_profile::Partial;
use hub_text::Items;
use std::alloc::{AllocError, Global};

/// Returns what a specification folds to in Unicode mode, if it is known what a line with it folds to, and a line can say that: so
/// none for one with an unknown character or set, and for one that has more than `PATTERN_CHARACTERS` when it is folded.
pub fn fold_spec(alloc: Global, spec: &PathSpec) -> Result<Option<PathSpec>, AllocError>
    ensures { IfOk result (λ o. o ≡ (if lines.knows_line unicode spec.now
        then Some (lines.fold_spec unicode spec.now) else None)) }
{
    if !knows_spec(spec)? {
        return Ok(None);
    }
    let pattern = folded_parts(alloc, spec.pattern())?;
    spelled_spec(alloc, spec.kind(), pattern.as_slice())
}

/// Returns what these fold to of which it is known.
pub(crate) fn known_folded(alloc: Global, specs: &[PathSpec]) -> Result<Items<PathSpec>, AllocError>
    ensures { IfOk result (λ fs. fs ≡ lines.folded_specs unicode specs.now) }
{
    let mut all = Items::new(alloc);
    for spec in specs {
        let Some(folded) = fold_spec(alloc, spec)? else {
            continue;
        };
        all.push(folded)?;
    }
    Ok(all)
}

/// Returns what these fold to, if it is known of each.
pub(crate) fn all_folded(
    alloc: Global,
    specs: &[PathSpec],
) -> Result<Option<Items<PathSpec>>, AllocError>
    ensures { IfOk result (λ o. o ≡ (if list_all (lines.knows_line unicode) specs.now
        then Some (map (lines.fold_spec unicode) specs.now) else None)) }
{
    let mut all = Items::new(alloc);
    for spec in specs {
        let Some(folded) = fold_spec(alloc, spec)? else {
            return Ok(None);
        };
        all.push(folded)?;
    }
    Ok(Some(all))
}

/// Returns the bars on paths that stay, folded.
pub(crate) fn folded_bars(alloc: Global, bars: &[Partial]) -> Result<Items<Partial>, AllocError>
    ensures { IfOk result (λ bs. bs ≡ lines.folded_bars unicode bars.now) }
{
    let mut all = Items::new(alloc);
    for bar in bars {
        let Some(folded) = fold_bar(alloc, bar)? else {
            continue;
        };
        all.push(folded)?;
    }
    Ok(all)
}

fn fold_bar(alloc: Global, bar: &Partial) -> Result<Option<Partial>, AllocError>
    ensures { IfOk result (λ o. o ≡ (if lines.knows_line unicode bar.now.spec
        then Some (lines.fold_bar unicode bar.now) else None)) }
{
    match fold_spec(alloc, &bar.spec)? {
        Some(spec) => {
            Ok(Some(Partial {
                side: bar.side,
                bars: bar.bars,
                spec,
            }))
        }
        None => Ok(None),
    }
}
