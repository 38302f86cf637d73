//! What a bundle says, as the words want its profiles to be read.
ghost use Rattle.std.specs.Prelude.{◌≡◌, IfOk};
ghost use Rattle.hub_serve.specs.Unison as spec;
ghost use Rattle.hub_serve.specs.Unison.{IsReadAs, IsReadForUnison};

use hub_bundle::BundleContents;
use hub_cli::Reading;
use hub_preferences::counted;
use hub_profile::Profile;
use hub_unison::{read_set, shared_archives};
use std::alloc::{AllocError, Global};

/// The bytes of a bundle that count, if its profiles are read so. They have as many lines. For the plain reading they are the bytes
/// themselves.
pub fn counted_as(alloc: Global, reading: Reading, bytes: Vec<u8>) -> Result<Vec<u8>, AllocError>
    ensures { IfOk result (λ v. v.items ≡ spec.counted_as reading bytes.items) }
{
    match reading {
        Reading::Plain => Ok(bytes),
        Reading::Unison => counted(alloc, bytes.as_slice()),
    }
}

/// What a bundle says, if its profiles are read so.
pub fn read_as(
    alloc: Global,
    reading: Reading,
    contents: BundleContents,
) -> Result<BundleContents, AllocError>
    ensures { IfOk result (IsReadAs reading contents) }
{
    match reading {
        Reading::Plain => Ok(contents),
        Reading::Unison => read_for_unison(alloc, contents),
    }
}

/// What a bundle says, if its profiles are read for Unison.
fn read_for_unison(alloc: Global, contents: BundleContents) -> Result<BundleContents, AllocError>
    ensures { IfOk result (IsReadForUnison contents) }
{
    let BundleContents {
        profiles,
        rules,
        state,
        certificates,
    } = contents;
    let profiles = read_set(alloc, profiles, &rules)?;
    Ok(BundleContents {
        profiles,
        rules,
        state,
        certificates,
    })
}

/// Which two of these profiles share an archive of Unison, by their numbers, if they were read for it. No archive is shared by the
/// plain reading: hubsync's own runs of a safe set keep theirs apart.
pub fn archives_as(
    alloc: Global,
    reading: Reading,
    profiles: &[Profile],
) -> Result<Vec<(usize, usize)>, AllocError>
    ensures { IfOk result (λ v. v.items ≡ spec.archives_as reading profiles.now) }
{
    match reading {
        Reading::Plain => Ok(Vec::new(alloc)),
        Reading::Unison => shared_archives(alloc, profiles),
    }
}
