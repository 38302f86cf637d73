//! The answer to an input that can't be read or isn't a bundle.
ghost use Rattle.std.specs.Prelude.{◌≡◌, IfOk};
ghost use Rattle.hub_report.specs.Blocks.{bytes_in};
ghost use Rattle.hub_report.specs.Faults as names;
ghost use Rattle.hub_report.specs.FaultyInput as spec;

use crate::blocks::Blocks;
use crate::faults::{
    bundle_fault_name, fault_line, input_fault_name, profile_fault_name, state_fault_name,
};
use crate::told::{Answer, Told};
use hub_bundle::{BundleLineFault, InputFault, SectionFault};
use hub_path::Name;
use hub_profile::ProfileFault;
use std::alloc::{AllocError, Global};

/// Why an input is not a bundle.
#[derive(Drop)]
pub enum FaultyInput {
    /// The input was not read.
    Unread(InputFault),
    /// The input is not a bundle.
    BadBundle(BundleLineFault),
    /// A section of the bundle is faulty.
    BadSection(SectionFault),
}

impl FaultyInput {
    /// The line of the fault, and the fault.
    pub(crate) fn into_answer(self, alloc: Global) -> Result<Answer, AllocError>
        ensures { IfOk result (λ a. bytes_in a.text ≡ spec.text_of self) }
    {
        let text = self.text(alloc)?;
        let told = Told::Faulty(self);
        Ok(Answer {
            text,
            told,
            totals: None,
        })
    }

    /// The line of the fault.
    fn text(&self, alloc: Global) -> Result<Blocks, AllocError>
        ensures { IfOk result (λ t. bytes_in t ≡ spec.text_of self.now) }
    {
        match self {
            FaultyInput::Unread(fault) => {
                fault_line(alloc, "bundle line 0", input_fault_name(*fault))
            }
            FaultyInput::BadBundle(fault) => {
                fault_line_in(alloc, "bundle", fault.line, bundle_fault_name(fault.fault))
            }
            FaultyInput::BadSection(fault) => section_fault_line(alloc, fault),
        }
    }
}

/// The line of a fault of a section.
fn section_fault_line(alloc: Global, fault: &SectionFault) -> Result<Blocks, AllocError>
    ensures { IfOk result (λ t. bytes_in t ≡ spec.section_fault_line fault.now) }
{
    match fault {
        SectionFault::OfProfile { profile, fault } => profile_fault_line(alloc, profile, fault),
        SectionFault::OfRules(fault) => {
            let name = profile_fault_name(alloc, &fault.fault)?;
            fault_line_in(alloc, "rules", fault.line, name.as_str())
        }
        SectionFault::OfState(fault) => {
            fault_line_in(alloc, "state", fault.line, state_fault_name(fault.fault))
        }
        SectionFault::OfCertificates { line } => {
            fault_line_in(alloc, "certificates", *line, "BadText")
        }
    }
}

/// The line of a fault of a profile.
fn profile_fault_line(
    alloc: Global,
    profile: &Name,
    fault: &ProfileFault,
) -> Result<Blocks, AllocError>
    ensures { IfOk result (λ t. bytes_in t ≡ spec.profile_fault_line profile.now fault.now) }
{
    let section = format!(in alloc; "profile {profile}")?;
    let name = profile_fault_name(alloc, &fault.fault)?;
    fault_line_in(alloc, section.as_str(), fault.line, name.as_str())
}

/// The line of a fault that is in a line of this part of the input.
fn fault_line_in(alloc: Global, part: &str, line: usize, name: &str) -> Result<Blocks, AllocError>
    ensures { IfOk result (λ t. bytes_in t
        ≡ names.fault_line (spec.line_place part.now line) name.now) }
{
    let place = format!(in alloc; "{part} line {line}")?;
    fault_line(alloc, place.as_str(), name)
}
