//! A bundle in place of that of profiles whose names fold.
ghost use Rattle.std.specs.Prelude.{◌≡◌, ◌≢◌, None, length, map, true, IfErr, IfOk, MatchOption};
ghost use Rattle.hub_bundle.specs.Sections.{Spells};
ghost use Rattle.hub_bundle.specs.declared.sections.BundleContents.{BundleContents};
ghost use Rattle.hub_preferences.specs.Counted.{counted_bundle};
ghost use Rattle.hub_import.specs.Imported.{contents_of};
ghost use Rattle.hub_respelled.specs.Caseless.{caseless_bundle, says_folding};
ghost use Rattle.hub_folded.specs.Roots.{AreToldApart};
ghost use Rattle.hub_folded.specs.Table.{unicode};
ghost use Rattle.hub_respelled.specs.Respelled.{AreFoldsOf, IsFoldedBundle, IsOfNoRule, IsRespelled, IsUnrespelled, said_roots};

use crate::comments::{caseless, says_folding};
use crate::fault::RespellFault;
use crate::members::{folds_in, members_of};
use crate::roots::check_roots;
use hub_archives::{HeldArchives, find_folded_archives};
use hub_bundle::{BundleContents, BundleFault, ReadError, read_bundle, read_sections};
use hub_folded::{Member, folded_rules, folded_set, some_fold};
use hub_import::write_bundle;
use hub_path::Root;
use hub_preferences::counted;
use hub_profile::{Profile, Rule};
use std::alloc::{AllocError, Global};

/// What stands in the place of a bundle.
#[derive(Debug, Drop)]
pub enum Spelling {
    /// The bundle itself: by no profile names fold.
    Same,
    /// A bundle of its folded profiles and rules.
    Folded(Vec<u8>),
    /// Nothing: a profile by which names fold doesn't keep out Unison's archives.
    Held(HeldArchives),
    /// The bundle itself: its other lines that count aren't read, so it isn't known what they fold to. Whoever reads it may say why, and
    /// refuses the profiles by which names fold, too.
    Unread,
}

/// Returns what stands in the place of a bundle whose profiles are read for Unison: if by some of them names fold, a bundle with folded
/// lines. The lines that count are those of [`hub_preferences::counted`], without those by which names fold. None stands there if a
/// profile by which names fold doesn't keep out Unison's archives in one of these folders ([`find_folded_archives`]).
///
/// A fault comes only if names fold by some profile. `SpelledTwice` comes with two roots of profiles or rules that
/// [`hub_folded::find_spelled_twice`] finds, `UnknownRule` with the first rule that isn't known, or that wouldn't hold for each spelling,
/// `Unwritten` if no bundle says what is folded. It takes time in proportion to the bytes, and for each folder to the
/// profiles.
pub fn respelled(alloc: Global, bundle: &[u8], folders: &[Root]) -> Result<Spelling, RespellFault>
    ensures ok { IfOk result (IsRespelled folders.now bundle.now) }
    ensures err { IfErr result (IsUnrespelled bundle.now) }
    ensures folds { IfErr result (λ _. says_folding bundle.now ≡ true) }
{
    if !says_folding(bundle) {
        return Ok(Spelling::Same);
    }
    let caseless = caseless(alloc, bundle)?;
    match contents_that_count(alloc, caseless.as_slice())? {
        Some(own) => {
            check_roots(alloc, &own)?;
            folded_bundle(alloc, bundle, folders, own)
        }
        None => Ok(Spelling::Unread),
    }
}

/// What the lines of a bundle say that count, if they are read.
fn contents_that_count(alloc: Global, bytes: &[u8]) -> Result<Option<BundleContents>, AllocError>
    ensures { IfOk result (λ o. MatchOption o
        ((c : BundleContents) → Spells (counted_bundle bytes.now) c → ⊥)
        (Spells (counted_bundle bytes.now))) }
{
    let counted = counted(alloc, bytes)?;
    let sections = match read_bundle(alloc, counted.as_slice()) {
        Ok(sections) => sections,
        Err(fault) => return unread(fault.fault),
    };
    match read_sections(alloc, sections.as_slice()) {
        Ok(contents) => Ok(Some(contents)),
        Err(ReadError::Faulty(_)) => Ok(None),
        Err(ReadError::OutOfMemory) => Err(AllocError),
    }
}

/// Nothing, unless the fault is that memory is out.
fn unread(fault: BundleFault) -> Result<Option<BundleContents>, AllocError>
    ensures none { IfOk result (λ o. o ≡ None) }
    ensures fault { IfOk result (λ _. fault ≢ BundleFault.OutOfMemory) }
{
    match fault {
        BundleFault::OutOfMemory => Err(AllocError),
        _ => Ok(None),
    }
}

/// The bundle of what is folded of these contents, unless a profile by which names fold doesn't keep out archives in one of the folders.
fn folded_bundle(
    alloc: Global,
    bundle: &[u8],
    folders: &[Root],
    own: BundleContents,
) -> Result<Spelling, RespellFault>
    requires said { Spells (counted_bundle (caseless_bundle bundle.now)) own }
    requires told { AreToldApart unicode (said_roots own) }
    ensures ok { IfOk result (IsRespelled folders.now bundle.now) }
    ensures err { IfErr result (IsUnrespelled bundle.now) }
{
    let BundleContents {
        profiles,
        rules,
        ..
    } = own;
    let folds = folds_of(alloc, bundle, profiles.len())?;
    let members = members_of(alloc, folds.as_slice(), profiles)?;
    if !some_fold(members.as_slice()) {
        return Err(RespellFault::Unwritten);
    }
    let rules = folded_rules(alloc, members.as_slice(), rules)?;
    let folds = folds_in_all(alloc, members.as_slice())?;
    let profiles = folded_set(alloc, members)?;
    let text = written(alloc, profiles.as_slice(), rules.as_slice())?;
    match find_folded_archives(alloc, folds.as_slice(), profiles, folders)? {
        None => Ok(Spelling::Folded(text)),
        Some(held) => Ok(Spelling::Held(held)),
    }
}

/// Returns of each of these whether its names fold.
fn folds_in_all(alloc: Global, members: &[Member]) -> Result<Vec<bool>, AllocError>
    ensures { IfOk result (λ fs. fs.items ≡ map (λ M. M.folds) members.now) }
{
    let mut folds = Vec::new(alloc);
    for member in members {
        folds.push(member.folds)?;
    }
    Ok(folds)
}

/// Returns of each of so many profiles of a bundle whether names fold by its lines.
fn folds_of(alloc: Global, bundle: &[u8], count: usize) -> Result<Vec<bool>, RespellFault>
    ensures ok { IfOk result (λ fs. AreFoldsOf bundle.now count fs.items) }
    ensures err { IfErr result IsOfNoRule }
{
    let Ok(sections) = read_bundle(alloc, bundle) else {
        return Err(RespellFault::Unwritten);
    };
    let folds = folds_in(alloc, sections.as_slice())?;
    if folds.len() == count {
        Ok(folds)
    } else {
        Err(RespellFault::Unwritten)
    }
}

/// The text of a bundle of these, if all its lines count.
fn written(alloc: Global, profiles: &[Profile], rules: &[Rule]) -> Result<Vec<u8>, RespellFault>
    ensures ok { IfOk result (λ v. (counted_bundle v.items ≡ v.items)
        × Spells v.items (contents_of profiles.now rules.now)) }
    ensures err { IfErr result IsOfNoRule }
{
    let text = write_bundle(alloc, profiles, rules)?;
    let counted = counted(alloc, text.as_slice())?;
    if counted.as_slice() == text.as_slice() {
        Ok(text)
    } else {
        Err(RespellFault::Unwritten)
    }
}
