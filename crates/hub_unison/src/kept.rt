//! What is kept of the lines of a profile.
ghost use Rattle.std.specs.Prelude.{◌≡◌, ◌++◌, map, IfOk, if◌then◌else◌, Some, None};
ghost use Rattle.std.specs.List.{list_all, flat_map};
ghost use Rattle.hub_unison.specs.Kept as lines;
ghost use Rattle.hub_unison.specs.Matching.{widened};
ghost use Rattle.hub_unison.specs.ReadingOf as reading;

use crate::owned::is_needless;
use crate::simple::{is_known, is_simple};
use crate::spare::{copy_of, spec_of_choices};
use crate::spares::{is_plain, spares_of};
use crate::stars::with_stars;
use hub_glob::PathSpec;
use hub_profile::Partial;
use hub_text::Items;
use std::alloc::{AllocError, Global};

/// What is kept of an `ignore` line.
#[derive(Drop)]
pub(crate) enum Kept {
    /// Nothing: it isn't known what Unison matches at most.
    Nothing,
    /// Nothing: its pattern, or that of its spares, would be too long.
    Cut,
    /// Its specification: Unison matches what hubsync has it match, or what hubsync has it match besides is spared anyway.
    Alone(PathSpec),
    /// Its specification, with another one for `ignorenot`: Unison matches what hubsync has the first match and the second
    /// not match.
    Sparing(PathSpec, PathSpec),
}

impl Kept {
    ghost use Rattle.hub_unison.specs.Kept as lines;

    /// Returns whether nothing is kept since a pattern would be too long.
    fn is_cut(&self) -> bool
        ensures { result ≡ lines.is_cut self.now }
    {
        matches!(self, Kept::Cut)
    }
}

/// The lines that are kept.
#[derive(Drop)]
pub(crate) struct Lines {
    pub(crate) ignore: Items<PathSpec>,
    pub(crate) ignorenot: Items<PathSpec>,
}

impl Lines {
    ghost use Rattle.hub_unison.specs.Kept as lines;

    /// Appends what is kept of one more line.
    fn push(&mut self, kept: Kept) -> Result<(), AllocError>
        ensures ignore { IfOk result (λ _. self.new.ignore
            ≡ self.old.ignore ++ lines.own_lines kept) }
        ensures ignorenot { IfOk result (λ _. self.new.ignorenot
            ≡ self.old.ignorenot ++ lines.spare_lines kept) }
    {
        match kept {
            Kept::Nothing => Ok(()),
            Kept::Cut => Ok(()),
            Kept::Alone(copy) => Ok(self.ignore.push(copy)?),
            Kept::Sparing(copy, spare) => {
                self.ignore.push(copy)?;
                Ok(self.ignorenot.push(spare)?)
            }
        }
    }
}

/// Returns what is kept of an `ignore` line by itself.
fn kept_of(alloc: Global, spec: &PathSpec) -> Result<Kept, AllocError>
    ensures { IfOk result (λ kept. kept ≡ reading.line_kept spec.now) }
{
    if !is_simple(spec)? {
        return Ok(Kept::Nothing);
    }
    let Some(copy) = copy_of(alloc, spec)? else {
        return Ok(Kept::Cut);
    };
    let spares = spares_of(alloc, spec)?;
    if spares.is_empty() {
        return Ok(Kept::Alone(copy));
    }
    match spec_of_choices(alloc, spec.kind(), spares)? {
        Some(spare) => Ok(Kept::Sparing(copy, spare)),
        None => Ok(Kept::Cut),
    }
}

/// Returns what is kept of a line beside these `ignore` and `ignorenot` lines: one for spares only if it is needed.
fn needed(
    alloc: Global,
    specs: &[PathSpec],
    spared: &[PathSpec],
    kept: Kept,
) -> Result<Kept, AllocError>
    ensures { IfOk result (λ k. k ≡ reading.needed specs.now spared.now kept) }
{
    match kept {
        Kept::Nothing => Ok(Kept::Nothing),
        Kept::Cut => Ok(Kept::Cut),
        Kept::Alone(copy) => Ok(Kept::Alone(copy)),
        Kept::Sparing(copy, spare) => {
            if is_needless(alloc, specs, spared, &spare)? {
                Ok(Kept::Alone(copy))
            } else {
                Ok(Kept::Sparing(copy, spare))
            }
        }
    }
}

/// Returns what is kept of each of these `ignore` lines beside the others and these `ignorenot` lines.
fn each_kept(
    alloc: Global,
    specs: &[PathSpec],
    spared: &[PathSpec],
) -> Result<Items<Kept>, AllocError>
    ensures { IfOk result (λ each. each ≡ reading.each_kept specs.now spared.now) }
{
    let mut each = Items::new(alloc);
    for spec in specs {
        let kept = kept_of(alloc, spec)?;
        each.push(needed(alloc, specs, spared, kept)?)?;
    }
    Ok(each)
}

/// The lines of what is kept of these `ignore` lines, besides these `ignorenot` lines.
pub(crate) fn kept_lines(
    alloc: Global,
    specs: &[PathSpec],
    spared: Items<PathSpec>,
) -> Result<Lines, AllocError>
    ensures ignore { IfOk result (λ l. l.ignore
        ≡ flat_map lines.own_lines (reading.each_kept specs.now spared)) }
    ensures ignorenot { IfOk result (λ l. l.ignorenot
        ≡ spared ++ flat_map lines.spare_lines (reading.each_kept specs.now spared)) }
{
    let each = each_kept(alloc, specs, spared.as_slice())?;
    lines_of(alloc, each, spared)
}

/// The lines of what is kept, besides these `ignorenot` lines.
fn lines_of(alloc: Global, all: Items<Kept>, spared: Items<PathSpec>) -> Result<Lines, AllocError>
    ensures ignore { IfOk result (λ l. l.ignore ≡ flat_map lines.own_lines all) }
    ensures ignorenot { IfOk result (λ l. l.ignorenot ≡ spared ++ flat_map lines.spare_lines all) }
{
    let mut kept_lines = Lines {
        ignore: Items::new(alloc),
        ignorenot: spared,
    };
    for kept in all.into_vec() {
        kept_lines.push(kept)?;
    }
    Ok(kept_lines)
}

/// The numbers, from 0 on, of the `ignore` lines of which nothing is kept since a pattern would be too long.
pub(crate) fn cut_lines(
    alloc: Global,
    specs: &[PathSpec],
    spared: &[PathSpec],
) -> Result<Vec<usize>, AllocError>
    ensures { IfOk result (λ v. v.items
        ≡ lines.cut_from 0 (reading.each_kept specs.now spared.now)) }
{
    let each = each_kept(alloc, specs, spared)?;
    cut_of(alloc, each.as_slice())
}

fn cut_of(alloc: Global, all: &[Kept]) -> Result<Vec<usize>, AllocError>
    ensures { IfOk result (λ v. v.items ≡ lines.cut_from 0 all.now) }
{
    let mut numbers = Vec::new(alloc);
    for i in 0..all.len() {
        if all[i].is_cut() {
            numbers.push(i)?;
        }
    }
    Ok(numbers)
}

/// The specifications in place of those of `ignorenot` lines, if there is one for each of them.
pub(crate) fn spared_lines(
    alloc: Global,
    specs: &[PathSpec],
) -> Result<Option<Items<PathSpec>>, AllocError>
    ensures { IfOk result (λ o. o
        ≡ (if list_all reading.spare_stays specs.now then Some (map widened specs.now)
        else None)) }
{
    let mut copies = Items::new(alloc);
    for spec in specs {
        let Some(copy) = spared_line(alloc, spec)? else {
            return Ok(None);
        };
        copies.push(copy)?;
    }
    Ok(Some(copies))
}

/// The specification in place of that of an `ignorenot` line, if there is one.
fn spared_line(alloc: Global, spec: &PathSpec) -> Result<Option<PathSpec>, AllocError>
    ensures { IfOk result (λ o. o
        ≡ (if reading.spare_stays spec.now then Some (widened spec.now) else None)) }
{
    if is_simple(spec)? {
        return copy_of(alloc, spec);
    }
    if !is_known(spec)? {
        return Ok(None);
    }
    let choices = with_stars(alloc, spec)?;
    spec_of_choices(alloc, spec.kind(), choices)
}

/// Returns the partial bars that are sure to hold in Unison.
pub(crate) fn kept_bars(alloc: Global, bars: &[Partial]) -> Result<Items<Partial>, AllocError>
    ensures { IfOk result (λ kept. kept ≡ reading.kept_bars bars.now) }
{
    let mut kept = Items::new(alloc);
    for bar in bars {
        let Some(copy) = kept_bar(alloc, bar)? else {
            continue;
        };
        kept.push(copy)?;
    }
    Ok(kept)
}

/// Copies a partial bar, if it is sure to hold in Unison.
fn kept_bar(alloc: Global, bar: &Partial) -> Result<Option<Partial>, AllocError>
    ensures { IfOk result (λ o. o ≡ (if reading.bar_stays bar.now then Some bar.now else None)) }
{
    if !is_plain(alloc, &bar.spec)? {
        return Ok(None);
    }
    match copy_of(alloc, &bar.spec)? {
        Some(spec) => {
            Ok(Some(Partial {
                side: bar.side,
                bars: bar.bars,
                spec,
            }))
        }
        None => Ok(None),
    }
}
