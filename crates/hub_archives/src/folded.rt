//! Archives that a profile doesn't keep out where names fold.
ghost use Rattle.std.specs.Prelude.{◌≡◌, Bool, List, Some, IfOk, MatchOption, map, slice_get};
ghost use Rattle.hub_folded.specs.Lines.{folded_member};
ghost use Rattle.hub_folded.specs.Table.{unicode};
ghost use Rattle.hub_folded.specs.declared.member.Member.{Member};
ghost use Rattle.hub_archives.specs.Folded.{FoldedKeptOut, IsFoldedHeld, IsFoldedHeldBy, IsFoldedKeptOut};

use crate::found::HeldArchives;
use crate::held::folded_held_by;
use hub_path::{RelPath, Root};
use hub_profile::Profile;
use hub_text::Items;
use std::alloc::{AllocError, Global};

/// Finds the first profile by which names fold that doesn't keep out the archives in one of these folders, where these are the folded
/// profiles of a set ([`hub_folded::folded_set`], if the names of some member fold). The folder is a root of it or lies in one. The
/// cautious reading of the folded lines reaches the folded path of the folder below that root, or keeps a value at or below it; or it
/// isn't known that each name of the path folds to a name. The flags say of each profile whether its names fold: one by which they don't
/// is left out.
///
/// The path that is returned is that of the folder as it stands, not folded. Without folders nothing is read. Else it takes the time of a
/// cautious reading of each profile by which names fold, and of folding the path of each folder for each root that it lies in. Out of
/// memory is the only error.
pub fn find_folded_archives(
    alloc: Global,
    folds: &[bool],
    folded: Items<Profile>,
    folders: &[Root],
) -> Result<Option<HeldArchives>, AllocError>
    ensures { (Ms : List Member) → folds.now ≡ map (λ M. M.folds) Ms
        → folded ≡ map (folded_member unicode) Ms
        → IfOk result (λ o. MatchOption o (FoldedKeptOut folders.now Ms)
        (IsFoldedHeld folders.now Ms)) }
{
    if folders.is_empty() {
        return Ok(None);
    }
    for (section, profile) in folded.into_vec().into_iter().enumerate() {
        let own = fold_at(folds, section);
        if let Some((folder, path)) = held_in_member(alloc, own, profile, folders)? {
            return Ok(Some(HeldArchives {
                section,
                folder,
                path,
            }));
        }
    }
    Ok(None)
}

/// Whether the names of the profile with this number fold.
fn fold_at(folds: &[bool], number: usize) -> bool
    ensures { (b : Bool) → slice_get folds.now number ≡ Some b → result ≡ b }
{
    match folds.get(number) {
        Some(own) => *own,
        None => false,
    }
}

/// The number of the first folder that a profile doesn't keep out, and its path there, if names fold.
fn held_in_member(
    alloc: Global,
    folds: bool,
    profile: Profile,
    folders: &[Root],
) -> Result<Option<(usize, RelPath)>, AllocError>
    ensures { (M : Member) → folds ≡ M.folds → profile ≡ folded_member unicode M
        → IfOk result (λ o. MatchOption o (IsFoldedKeptOut folders.now M)
        (λ h. IsFoldedHeldBy folders.now M h.0 h.1)) }
{
    if folds {
        folded_held_by(alloc, profile, folders)
    } else {
        Ok(None)
    }
}
