//! What a bundle's sections say.
ghost use Rattle.std.specs.Prelude.{◌≡◌, ◌⊎◌, Ok, Err, IfOk, IfErr, IsTrue, OnOk};
ghost use Rattle.hub_bundle.specs.Sections as said;

use crate::bundle::{Heading, Section};
use hub_cert::{Certificate, CheckFault, read_certificates};
use hub_path::Name;
use hub_profile::{Fault, Profile, ProfileFault, Rules, read_profile, read_rules};
use hub_state::{State, StateFault, read_bytes};
use hub_text::Items;
use std::alloc::{AllocError, AllocFailed, Global};
use thiserror::Error;

/// What the sections of a bundle say.
#[derive(Drop)]
pub struct BundleContents {
    /// The profiles, in order.
    pub profiles: Items<Profile>,
    /// The rules, or none if there is no such section.
    pub rules: Rules,
    /// The state, if there is such a section.
    pub state: Option<State>,
    /// The certificates, or none if there is no such section.
    pub certificates: Items<Certificate>,
}

/// The fault of a section. The line after the section's heading is line 1. It is shown as the variant's name.
#[derive(Debug, Drop, Error)]
pub enum SectionFault {
    /// A fault of a profile.
    #[error("OfProfile")]
    OfProfile {
        /// The profile's name, from the heading.
        profile: Name,
        /// Its fault.
        fault: ProfileFault,
    },
    /// A fault of the rules.
    #[error("OfRules")]
    OfRules(ProfileFault),
    /// A fault of the state.
    #[error("OfState")]
    OfState(StateFault),
    /// A faulty line of the certificates.
    #[error("OfCertificates")]
    OfCertificates {
        /// The number of the line.
        line: usize,
    },
}

/// Why a bundle's sections are not read. It is shown as the variant's name.
#[derive(Debug, Drop, Error)]
pub enum ReadError {
    /// A section is faulty.
    #[error("Faulty")]
    Faulty(SectionFault),
    /// Out of memory.
    #[error("OutOfMemory")]
    OutOfMemory,
}

impl From<AllocError> for ReadError {
    ghost use Rattle.hub_bundle.specs.declared.sections.ReadError.TheVariants.{OutOfMemory};
    ghost use Rattle.std.specs.Prelude.{◌≡◌};

    ghost from_gives = { λ _ e. e ≡ OutOfMemory };

    fn from(_: AllocError) -> Self {
        ReadError::OutOfMemory
    }
}

impl<T: Drop> From<AllocFailed<T>> for ReadError {
    ghost use Rattle.hub_bundle.specs.declared.sections.ReadError.TheVariants.{OutOfMemory};
    ghost use Rattle.std.specs.Prelude.{◌≡◌};

    ghost from_gives = { λ _ e. e ≡ OutOfMemory };

    fn from(_: AllocFailed<T>) -> Self {
        ReadError::OutOfMemory
    }
}

impl From<SectionFault> for ReadError {
    ghost use Rattle.hub_bundle.specs.Sections.{IsErrorOf};

    ghost from_gives = { λ f e. IsErrorOf f e };

    fn from(fault: SectionFault) -> Self {
        if had_no_memory(&fault) {
            ReadError::OutOfMemory
        } else {
            ReadError::Faulty(fault)
        }
    }
}

/// Returns whether the fault is that the section's reader had no memory.
fn had_no_memory(fault: &SectionFault) -> bool
    ensures { said.HadNoMemory fault.now → IsTrue result }
{
    match fault {
        SectionFault::OfProfile { fault, .. } | SectionFault::OfRules(fault) => {
            matches!(fault.fault, Fault::OutOfMemory)
        }
        SectionFault::OfState(fault) => matches!(fault.fault, hub_state::Fault::OutOfMemory),
        SectionFault::OfCertificates { .. } => false,
    }
}

/// Reads a bundle's sections, in order, each by the reader of its kind.
///
/// Returns the first fault of the first faulty section, if there is one. `OutOfMemory` may come in place of the contents or
/// of a fault.
pub fn read_sections(alloc: Global, sections: &[Section<'_>]) -> Result<BundleContents, ReadError>
    ensures ok { IfOk result (λ c. said.contents_reading said.no_contents sections.now ≡ Ok c) }
    ensures err { IfErr result (said.FailsAs (said.contents_reading said.no_contents sections.now)) }
{
    let mut contents = BundleContents {
        profiles: Items::new(alloc),
        rules: Rules::new(alloc),
        state: None,
        certificates: Items::new(alloc),
    };
    for section in sections {
        add_section(alloc, &mut contents, section)?;
    }
    Ok(contents)
}

/// Adds what a section says.
fn add_section(
    alloc: Global,
    contents: &mut BundleContents,
    section: &Section<'_>,
) -> Result<(), ReadError>
    ensures ok { OnOk result (said.with_section contents.old section.now ≡ Ok contents.new) }
    ensures err { IfErr result (said.FailsAs (said.with_section contents.old section.now)) }
{
    let bytes = section.bytes();
    match section.heading() {
        Heading::Profile(name) => match read_profile(alloc, name.copy()?, bytes) {
            Ok(profile) => contents.profiles.push(profile)?,
            Err(fault) => {
                let profile = name.copy()?;
                return Err(ReadError::from(SectionFault::OfProfile { profile, fault }));
            }
        },
        Heading::Rules => contents.rules = read_rules(alloc, bytes).map_err(SectionFault::OfRules)?,
        Heading::State => {
            contents.state = Some(read_bytes(alloc, bytes).map_err(SectionFault::OfState)?);
        }
        Heading::Certificates => {
            contents.certificates = read_certificates(alloc, bytes).map_err(certificates_error)?;
        }
    }
    Ok(())
}

/// The error of certificates with that fault.
fn certificates_error(fault: CheckFault) -> ReadError
    ensures memory { fault ≡ CheckFault.OutOfMemory → result ≡ ReadError.OutOfMemory }
    ensures fault { (result ≡ ReadError.OutOfMemory)
        ⊎ (result ≡ ReadError.Faulty (said.certificates_fault fault)) }
{
    match fault {
        CheckFault::BadText { line } => ReadError::Faulty(SectionFault::OfCertificates { line }),
        _ => ReadError::OutOfMemory,
    }
}
