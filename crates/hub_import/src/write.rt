//! The text of a bundle, which is read back before it is returned.
ghost use Rattle.std.specs.Prelude.{◌≡◌, IfErr, IfOk};
ghost use Rattle.hub_bundle.specs.Bundle as bundle;
ghost use Rattle.hub_bundle.specs.Sections.{Spells};
ghost use Rattle.hub_bundle.specs.declared.sections.BundleContents.{BundleContents};
ghost use Rattle.hub_import.specs.Imported.{contents_of};
ghost use Rattle.hub_import.specs.Text.{bundle_text};

use crate::lines::{push_profiles, push_rules};
use crate::same::says;
use hub_bundle::{
    BundleContents, BundleFault, BundleLineFault, ReadError, read_bundle, read_sections,
};
use hub_profile::{Profile, Rule};
use std::alloc::{AllocError, Global};
use thiserror::Error;

/// Why no bundle is written.
#[derive(Clone, Copy, Debug, PartialEq, Eq, Error)]
pub enum BundleUnwritten {
    /// The text isn't read as the profiles and the rules. It would need more lines or longer patterns than there may be.
    #[error("NotReadBack")]
    NotReadBack,
    /// Out of memory.
    #[error("OutOfMemory")]
    OutOfMemory,
}

impl From<AllocError> for BundleUnwritten {
    ghost use Rattle.hub_import.specs.declared.write.BundleUnwritten.TheVariants.{OutOfMemory};
    ghost use Rattle.std.specs.Prelude.{◌≡◌};

    ghost from_gives = { λ _ e. e ≡ OutOfMemory };

    fn from(_: AllocError) -> Self {
        BundleUnwritten::OutOfMemory
    }
}

/// Returns the text of a bundle that says these profiles, in their order, and these rules, and neither a state nor certificates.
///
/// The bundle is read again before it is returned, and compared. `NotReadBack` comes if it says something else, or is none: as
/// if a profile has more `ignore` and `ignorenot` lines than `hub_profile::PATTERN_LINES`, or if a rule's pattern has more than
/// `hub_glob::PATTERN_CHARACTERS` characters as it is written, with `[abc]` for `[a-c]`.
///
/// It takes time linear in the text.
pub fn write_bundle(
    alloc: Global,
    profiles: &[Profile],
    rules: &[Rule],
) -> Result<Vec<u8>, BundleUnwritten>
    ensures text { IfOk result (λ text. text.items ≡ bundle_text profiles.now rules.now) }
    ensures spelled { IfOk result (λ text. Spells text.items (contents_of profiles.now rules.now)) }
    ensures unread { IfErr result (λ e. e ≡ BundleUnwritten.NotReadBack
        → Spells (bundle_text profiles.now rules.now) (contents_of profiles.now rules.now) → ⊥) }
{
    let text = text_of(alloc, profiles, rules)?;
    let contents = contents_in(alloc, text.as_slice())?;
    if says(&contents, profiles, rules) {
        Ok(text)
    } else {
        Err(BundleUnwritten::NotReadBack)
    }
}

/// The lines of the profiles and of the rules, below their headings.
fn text_of(alloc: Global, profiles: &[Profile], rules: &[Rule]) -> Result<Vec<u8>, AllocError>
    ensures { IfOk result (λ text. text.items ≡ bundle_text profiles.now rules.now) }
{
    let mut text = Vec::new(alloc);
    push_profiles(&mut text, profiles)?;
    push_rules(&mut text, rules)?;
    Ok(text)
}

/// What a bundle says.
fn contents_in(alloc: Global, bytes: &[u8]) -> Result<BundleContents, BundleUnwritten>
    ensures spelled { IfOk result (λ contents. Spells bytes.now contents) }
    ensures unread { IfErr result (λ e. e ≡ BundleUnwritten.NotReadBack
        → (contents : BundleContents) → Spells bytes.now contents → ⊥) }
{
    let sections = match read_bundle(alloc, bytes) {
        Ok(sections) => sections,
        Err(fault) => return Err(unread(fault)),
    };
    match read_sections(alloc, sections.as_slice()) {
        Ok(contents) => Ok(contents),
        Err(ReadError::Faulty(_)) => Err(BundleUnwritten::NotReadBack),
        Err(ReadError::OutOfMemory) => Err(BundleUnwritten::OutOfMemory),
    }
}

/// Why there is no bundle, if it is read with that fault.
fn unread(fault: BundleLineFault) -> BundleUnwritten
    ensures { fault ≡ bundle.out_of_memory → result ≡ BundleUnwritten.OutOfMemory }
{
    match fault.fault {
        BundleFault::OutOfMemory => BundleUnwritten::OutOfMemory,
        _ => BundleUnwritten::NotReadBack,
    }
}
