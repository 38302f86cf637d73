//! What a plan takes of a bundle's sections.
ghost use Rattle.std.specs.Prelude.{◌≡◌, Ok, IfErr, IfOk, IsTrue, OnOk};
ghost use Rattle.hub_bundle.specs.Sections.{FailsAs};
ghost use Rattle.hub_profile.specs.Reading.{profile_in};
ghost use Rattle.hub_serve.specs.Plans as plans;

use hub_bundle::{Heading, ReadError, Section, SectionFault};
use hub_path::Name;
use hub_profile::{Fault, Profile, ProfileFault, Rules, read_profile, read_rules};
use hub_report::{Roster, Unread};
use hub_text::Items;
use std::alloc::{AllocError, Global};

/// The profiles and the rules of a bundle, of which a profile may be faulty.
#[derive(Drop)]
pub struct Taken {
    /// All profiles by their names and numbers.
    pub roster: Roster,
    /// Those that are read, in their order.
    pub profiles: Items<Profile>,
    /// The rules.
    pub rules: Rules,
}

/// Takes the profiles and the rules of a bundle's sections. A faulty profile is kept by its fault. Each section is read once.
///
/// An `Err` is the fault of the rules, or out of memory.
pub fn taken_of(alloc: Global, sections: &[Section<'_>]) -> Result<Taken, ReadError>
    ensures ok { IfOk result (λ t. plans.taking plans.no_profiles sections.now ≡ Ok t) }
    ensures err { IfErr result (FailsAs (plans.taking plans.no_profiles sections.now)) }
{
    let mut taken = Taken {
        roster: Roster {
            names: Items::new(alloc),
            numbers: Items::new(alloc),
            unread: Items::new(alloc),
        },
        profiles: Items::new(alloc),
        rules: Rules::new(alloc),
    };
    for section in sections {
        take_section(alloc, &mut taken, section)?;
    }
    Ok(taken)
}

/// Takes one more section.
fn take_section(alloc: Global, taken: &mut Taken, section: &Section<'_>) -> Result<(), ReadError>
    ensures ok { OnOk result (plans.take_section taken.old section.now ≡ Ok taken.new) }
    ensures err { IfErr result (FailsAs (plans.take_section taken.old section.now)) }
{
    let bytes = section.bytes();
    match section.heading() {
        Heading::Profile(name) => take_profile(alloc, taken, name, bytes)?,
        Heading::Rules => taken.rules = read_rules(alloc, bytes).map_err(SectionFault::OfRules)?,
        Heading::State | Heading::Certificates => {}
    }
    Ok(())
}

/// Takes one more profile.
fn take_profile(
    alloc: Global,
    taken: &mut Taken,
    name: &Name,
    bytes: &[u8],
) -> Result<(), AllocError>
    ensures { OnOk result (taken.new
        ≡ plans.with_profile taken.old name.now (profile_in name.now bytes.now)) }
{
    taken.roster.names.push(name.copy()?)?;
    let number = taken.roster.names.len();
    match read_profile(alloc, name.copy()?, bytes) {
        Ok(profile) => {
            taken.roster.numbers.push(number)?;
            taken.profiles.push(profile)?;
        }
        Err(fault) => {
            if had_no_memory(&fault) {
                return Err(AllocError);
            }
            taken.roster.unread.push(Unread { number, fault })?;
        }
    }
    Ok(())
}

/// Returns whether the fault is that the reader had no memory.
fn had_no_memory(fault: &ProfileFault) -> bool
    ensures { result ≡ plans.had_no_memory fault.now }
{
    matches!(fault.fault, Fault::OutOfMemory)
}
