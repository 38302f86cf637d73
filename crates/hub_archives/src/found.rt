//! Archives that a profile of a bundle doesn't keep out.
ghost use Rattle.std.specs.Prelude.{◌≡◌, ◌≢◌, None, IfOk, MatchOption};
ghost use Rattle.hub_archives.specs.Found.{AreKeptOut, IsHeld, IsHeldIn, IsHeldUnder, KeptOutIn, KeptOutUnder};

use crate::held::held_by;
use hub_bundle::{BundleFault, Heading, Section, read_bundle};
use hub_path::{RelPath, Root};
use hub_preferences::counted;
use hub_profile::{Fault, read_profile};
use std::alloc::{AllocError, Global};

/// Archives of Unison that a profile doesn't keep out.
#[derive(Debug, Drop)]
pub struct HeldArchives {
    /// The number of the profile's section in the bundle, or of the profile in its set, from 0 on.
    pub section: usize,
    /// The number of the folder that has the archives, from 0 on.
    pub folder: usize,
    /// The path of the folder below the root that it lies in, as it stands. The whole replica, if it is the root.
    pub path: RelPath,
}

/// Finds the first profile of a bundle that doesn't keep out the archives in one of these folders: the folder is a root of it or
/// lies in one, and the profile's cautious reading reaches it, or keeps a value at or below it. A profile that can't be read is left
/// out, and so is each one if the bytes are no bundle.
///
/// Without folders nothing is read. Else it takes the time of reading the bundle for Unison. Out of memory is the only error.
pub fn find_archives(
    alloc: Global,
    bundle: &[u8],
    folders: &[Root],
) -> Result<Option<HeldArchives>, AllocError>
    ensures { IfOk result (λ o. MatchOption o (AreKeptOut folders.now bundle.now)
        (IsHeld folders.now bundle.now)) }
{
    if folders.is_empty() {
        return Ok(None);
    }
    let counted = counted(alloc, bundle)?;
    match read_bundle(alloc, counted.as_slice()) {
        Ok(sections) => find_in(alloc, sections.as_slice(), folders),
        Err(fault) => none_for(fault.fault),
    }
}

/// Nothing is found in bytes that are no bundle, unless memory is out.
fn none_for(fault: BundleFault) -> Result<Option<HeldArchives>, AllocError>
    ensures none { IfOk result (λ o. o ≡ None) }
    ensures fault { IfOk result (λ _. fault ≢ BundleFault.OutOfMemory) }
{
    match fault {
        BundleFault::OutOfMemory => Err(AllocError),
        _ => Ok(None),
    }
}

/// Finds the first of these sections that is a profile which doesn't keep out the archives in one of these folders.
fn find_in(
    alloc: Global,
    sections: &[Section<'_>],
    folders: &[Root],
) -> Result<Option<HeldArchives>, AllocError>
    ensures { IfOk result (λ o. MatchOption o (KeptOutIn folders.now sections.now)
        (IsHeldIn folders.now sections.now)) }
{
    for (section, own) in sections.iter().enumerate() {
        if let Some((folder, path)) = held_under(alloc, own, folders)? {
            return Ok(Some(HeldArchives {
                section,
                folder,
                path,
            }));
        }
    }
    Ok(None)
}

/// The number of the first folder that a section's profile doesn't keep out, and its path there.
fn held_under(
    alloc: Global,
    section: &Section<'_>,
    folders: &[Root],
) -> Result<Option<(usize, RelPath)>, AllocError>
    ensures { IfOk result (λ o. MatchOption o (KeptOutUnder folders.now section.now)
        (λ h. IsHeldUnder folders.now section.now h.0 h.1)) }
{
    let Heading::Profile(name) = section.heading() else {
        return Ok(None);
    };
    match read_profile(alloc, name.copy()?, section.bytes()) {
        Ok(profile) => held_by(alloc, profile, folders),
        Err(fault) => match fault.fault {
            Fault::OutOfMemory => Err(AllocError),
            _ => Ok(None),
        },
    }
}
