//! The folded lines of a profile.
ghost use Rattle.std.specs.Prelude.{◌≡◌, [], IfOk, IsTrue};
ghost use Rattle.hub_profile.specs.Facts.{are_kept};
ghost use Rattle.hub_folded.specs.Lines as lines;
ghost use Rattle.hub_folded.specs.Table.{unicode};

use crate::lines::{all_folded, folded_bars, known_folded};
use crate::values::{folded_values, tops_of};
use hub_glob::PathSpec;
use hub_path::RelPath;
use hub_profile::Profile;
use hub_text::Items;
use std::alloc::{AllocError, Global};

/// Returns the folded lines of a profile of a host whose names fold. If a kept value isn't known, its known part is kept, and nothing is
/// ignored; nor is anything if an `ignorenot` line isn't known.
pub(crate) fn folded(alloc: Global, profile: Profile) -> Result<Profile, AllocError>
    ensures { IfOk result (λ p. p ≡ lines.folded unicode profile) }
{
    let partial = folded_bars(alloc, profile.partial())?;
    let patterns = folded_patterns(alloc, &profile)?;
    let values = kept_values(alloc, profile.paths())?;
    let kept = profile.with_paths(values);
    Ok(kept.with_patterns(patterns.ignore, patterns.ignorenot, partial))
}

/// Returns what kept values fold to, or paths that are over all that they stand for.
fn kept_values(alloc: Global, paths: &[RelPath]) -> Result<Items<RelPath>, AllocError>
    ensures value { IfOk result (λ ps. ps ≡ lines.folded_paths unicode paths.now) }
    ensures kept { IfOk result (λ ps. IsTrue (are_kept ps)) }
{
    match folded_values(alloc, paths)? {
        Some(values) => Ok(values),
        None => tops_of(alloc, paths),
    }
}

fn keeps_values(alloc: Global, paths: &[RelPath]) -> Result<bool, AllocError>
    ensures { IfOk result (λ b. b ≡ lines.keeps_values unicode paths.now) }
{
    match folded_values(alloc, paths)? {
        Some(_) => Ok(true),
        None => Ok(false),
    }
}

/// The `ignore` and the `ignorenot` lines of a profile.
#[derive(Drop)]
struct Patterns {
    ignore: Items<PathSpec>,
    ignorenot: Items<PathSpec>,
}

/// Returns the folded `ignore` and `ignorenot` lines, or none of them if nothing may be ignored.
fn folded_patterns(alloc: Global, profile: &Profile) -> Result<Patterns, AllocError>
    ensures ignore { IfOk result (λ l. l.ignore ≡ lines.folded_ignore unicode profile.now) }
    ensures ignorenot { IfOk result (λ l. l.ignorenot
        ≡ lines.folded_ignorenot unicode profile.now) }
{
    if !keeps_values(alloc, profile.paths())? {
        return Ok(no_patterns(alloc));
    }
    let Some(ignorenot) = all_folded(alloc, profile.ignorenot())? else {
        return Ok(no_patterns(alloc));
    };
    let ignore = known_folded(alloc, profile.ignore())?;
    Ok(Patterns { ignore, ignorenot })
}

fn no_patterns(alloc: Global) -> Patterns
    ensures ignore { result.ignore ≡ [] }
    ensures ignorenot { result.ignorenot ≡ [] }
{
    Patterns {
        ignore: Items::new(alloc),
        ignorenot: Items::new(alloc),
    }
}

/// Returns the folded lines of another profile of the same set. Each path of it is one of several spellings of a folded path, so nothing
/// is ignored, and there are no bars on paths.
pub(crate) fn spread(alloc: Global, profile: Profile) -> Result<Profile, AllocError>
    ensures { IfOk result (λ p. p ≡ lines.spread unicode profile) }
{
    let values = tops_of(alloc, profile.paths())?;
    let kept = profile.with_paths(values);
    Ok(kept.with_patterns(Items::new(alloc), Items::new(alloc), Items::new(alloc)))
}
