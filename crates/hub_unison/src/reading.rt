//! The cautious reading of a profile.
ghost use Rattle.std.specs.Prelude.{◌≡◌, IfOk, true};
ghost use Rattle.hub_unison.specs.Cautious as cautious;
ghost use Rattle.hub_unison.specs.ReadingOf as reading;
ghost use Rattle.hub_unison.specs.UnisonReach as unison;
ghost use Rattle.hub_unison.specs.Written.{IsWrittenAs, Written};

use crate::kept::{cut_lines, kept_bars, kept_lines, spared_lines};
use crate::tops::{is_starred, top_values};
use hub_profile::Profile;
use hub_text::Items;
use std::alloc::{AllocError, Global};

/// Returns the cautious reading of a profile: one that for hubsync reaches and writes at least what the profile reaches and
/// writes in Unison 2.52, however that matches paths by the texts of its lines within what is known of it.
///
/// Of the `ignore` lines it keeps those that are plain, and those that are plain without one of their `*`: what such a line
/// matches without it is spared by an `ignorenot` line, unless another `ignore` line is plain and has just this pattern, or an
/// `ignorenot` line has it. A line is left out if its pattern, or that of what is spared, would have more than
/// `PATTERN_CHARACTERS`. The reading may have more lines than a text may: up to twice as many. It keeps the partial bars that
/// are plain. An `ignorenot` line with `?` or a set past ASCII also matches what it does with a `*` in place of each. If it
/// isn't known what such a line may match, nothing is ignored. If a kept value ends with `*`, nothing is ignored either, and
/// the parent of this value is kept. All else stays, and so does a profile that hubsync and Unison read alike.
pub fn cautious(alloc: Global, profile: Profile) -> Result<Profile, AllocError>
    ensures value { IfOk result (λ r. r ≡ reading.cautious_of profile) }
    ensures wide { IfOk result (λ r. (W : Written) → IsWrittenAs W profile
        → unison.IsCautious W r) }
    ensures alike { reading.is_read_alike profile ≡ true → IfOk result (λ r. r ≡ profile) }
{
    read(alloc, profile)
}

/// Returns the numbers, from 0 on, of the `ignore` lines that the cautious reading leaves out since a pattern would be too
/// long: the line's own, or that of what is matched with a dot at the start of a name, would have more than
/// `PATTERN_CHARACTERS`.
pub fn lines_cut(alloc: Global, profile: &Profile) -> Result<Vec<usize>, AllocError>
    ensures { IfOk result (λ v. v.items ≡ reading.lines_cut profile.now) }
{
    if has_star(profile) {
        return Ok(Vec::new(alloc));
    }
    match spared_lines(alloc, profile.ignorenot())? {
        Some(spared) => cut_lines(alloc, profile.ignore(), spared.as_slice()),
        None => Ok(Vec::new(alloc)),
    }
}

fn read(alloc: Global, profile: Profile) -> Result<Profile, AllocError>
    ensures { IfOk result (λ r. r ≡ reading.cautious_of profile) }
{
    let partial = kept_bars(alloc, profile.partial())?;
    if has_star(&profile) {
        let tops = top_values(alloc, profile.paths())?;
        let kept = profile.with_paths(tops);
        return Ok(kept.with_patterns(Items::new(alloc), Items::new(alloc), partial));
    }
    match spared_lines(alloc, profile.ignorenot())? {
        Some(spared) => {
            let lines = kept_lines(alloc, profile.ignore(), spared)?;
            Ok(profile.with_patterns(lines.ignore, lines.ignorenot, partial))
        }
        None => Ok(profile.with_patterns(Items::new(alloc), Items::new(alloc), partial)),
    }
}

/// Returns whether the last name of a kept value is `*`.
fn has_star(profile: &Profile) -> bool
    ensures { result ≡ cautious.has_star profile.now }
{
    profile.paths().iter().any(is_starred)
}
