//! Folders that a profile doesn't keep out.
ghost use Rattle.std.specs.Prelude.{◌≡◌, ◌++◌, true, false, IfOk, MatchOption};
ghost use Rattle.std.specs.List.{list_any};
ghost use Rattle.hub_path.specs.Path.{is_over};
ghost use Rattle.hub_profile.specs.Parts.{IsProfile};
ghost use Rattle.hub_folded.specs.Lines.{folded_member};
ghost use Rattle.hub_folded.specs.Table.{unicode};
ghost use Rattle.hub_folded.specs.declared.member.Member.{Member};
ghost use Rattle.hub_archives.specs.Folded.{IsFoldedHeldBy, IsFoldedKeptOut};
ghost use Rattle.hub_archives.specs.KeptOut as kept;
ghost use Rattle.hub_archives.specs.KeptOut.{AllKeepOut, IsHeldBy};
ghost use Rattle.hub_archives.specs.Seen.{IsHeldAtAs, IsHeldBelowAs, IsHeldByAs, KeptOutBelow, KeptOutBy, KeptOutOf, keeps_out_as};

use crate::names::folded_path;
use hub_folded::laws::readings_of_folded_lines_hold_in_unison;
use hub_path::{RelPath, Root};
use hub_profile::Profile;
use hub_reach::reaches;
use hub_unison::cautious;
use std::alloc::{AllocError, Global};

/// The number of the first folder that a profile doesn't keep out, and its path there.
pub(crate) fn held_by(
    alloc: Global,
    profile: Profile,
    folders: &[Root],
) -> Result<Option<(usize, RelPath)>, AllocError>
    ensures { IfOk result (λ o. MatchOption o (AllKeepOut folders.now profile)
        (λ h. IsHeldBy folders.now profile h.0 h.1)) }
{
    let reading = cautious(alloc, profile)?;
    held_in(alloc, &reading, folders, false)
}

/// The same of the folded lines of a profile by which names fold.
pub(crate) fn folded_held_by(
    alloc: Global,
    profile: Profile,
    folders: &[Root],
) -> Result<Option<(usize, RelPath)>, AllocError>
    ensures { (M : Member) → M.folds ≡ true → profile ≡ folded_member unicode M
        → IfOk result (λ o. MatchOption o (IsFoldedKeptOut folders.now M)
        (λ h. IsFoldedHeldBy folders.now M h.0 h.1)) }
{
    readings_of_folded_lines_hold_in_unison();
    let reading = cautious(alloc, profile)?;
    held_in(alloc, &reading, folders, true)
}

/// The number of the first folder that a reading doesn't keep out, and its path there. The flag says whether the reading sees
/// folded paths.
fn held_in(
    alloc: Global,
    reading: &Profile,
    folders: &[Root],
    folds: bool,
) -> Result<Option<(usize, RelPath)>, AllocError>
    ensures { IfOk result (λ o. MatchOption o (KeptOutOf folds folders.now reading.now)
        (λ h. IsHeldByAs folds folders.now reading.now h.0 h.1)) }
{
    for (number, folder) in folders.iter().enumerate() {
        if let Some(path) = held_at(alloc, reading, folder, folds)? {
            return Ok(Some((number, path)));
        }
    }
    Ok(None)
}

/// The path of a folder below the first root of a reading that it lies in, if the reading doesn't keep it out there.
fn held_at(
    alloc: Global,
    reading: &Profile,
    folder: &Root,
    folds: bool,
) -> Result<Option<RelPath>, AllocError>
    ensures held { IfOk result (λ o. MatchOption o (KeptOutBy folds folder.now reading.now)
        (IsHeldAtAs folds folder.now reading.now)) }
    ensures valid { IsProfile reading.now }
{
    for root in reading.roots().as_slice() {
        if let Some(path) = held_below(alloc, reading, root, folder, folds)? {
            return Ok(Some(path));
        }
    }
    Ok(None)
}

/// The path of a folder below a root, if it is that root or lies in it, and the reading doesn't keep it out.
fn held_below(
    alloc: Global,
    reading: &Profile,
    root: &Root,
    folder: &Root,
    folds: bool,
) -> Result<Option<RelPath>, AllocError>
    ensures { IfOk result (λ o. MatchOption o (KeptOutBelow folds root.now folder.now reading.now)
        (IsHeldBelowAs folds root.now folder.now reading.now)) }
{
    match path_below(alloc, root, folder)? {
        Some(path) => if keeps_out_as(alloc, reading, &path, folds)? {
            Ok(None)
        } else {
            Ok(Some(path))
        },
        None => Ok(None),
    }
}

/// Returns whether a reading keeps out a path, or what it folds to. A path that doesn't fold to one isn't kept out.
fn keeps_out_as(
    alloc: Global,
    reading: &Profile,
    path: &RelPath,
    folds: bool,
) -> Result<bool, AllocError>
    ensures { IfOk result (λ b. b ≡ keeps_out_as folds reading.now path.now) }
{
    if !folds {
        return Ok(keeps_out(reading, path));
    }
    match folded_path(alloc, path)? {
        Some(folded) => Ok(keeps_out(reading, &folded)),
        None => Ok(false),
    }
}

/// Returns whether a reading reaches nothing at or below a path: it doesn't reach the path, and keeps no value there.
fn keeps_out(reading: &Profile, path: &RelPath) -> bool
    ensures { result ≡ kept.keeps_out reading.now path.now }
{
    !reaches(reading, path) && !keeps_below(reading, path)
}

/// Returns whether a reading keeps a value at or below a path.
fn keeps_below(reading: &Profile, path: &RelPath) -> bool
    ensures { result ≡ list_any (λ k. is_over path.now k) reading.now.paths }
{
    reading.paths().iter().any(|kept| kept.starts_with(path))
}

/// The path of a folder below a root, if it is that root or lies in it.
fn path_below(alloc: Global, root: &Root, folder: &Root) -> Result<Option<RelPath>, AllocError>
    ensures { IfOk result (λ o. MatchOption o (is_over root.now folder.now ≡ false)
        (λ p. folder.now ≡ root.now ++ p)) }
{
    if !folder.is_within(root) {
        return Ok(None);
    }
    let names = folder.path();
    let mut path = RelPath::top(alloc);
    for number in root.path().len()..names.len() {
        path = path.child(names.name(number).copy()?)?;
    }
    Ok(Some(path))
}
