//! What faults are called in their lines, and the line of a fault.
ghost use Rattle.std.specs.Prelude.{◌≡◌, ◌++◌, IfOk, string_bytes};
ghost use Rattle.hub_report.specs.Blocks.{bytes_in};
ghost use Rattle.hub_report.specs.Faults as names;

use crate::blocks::Blocks;
use crate::parts::joined;
use hub_bundle::{BundleFault, InputFault};
use hub_glob::GlobFault;
use hub_path::PathFault;
use hub_profile::Fault;
use std::alloc::{AllocError, Global};

/// The name of a fault of a path or of a root.
pub fn path_fault_name<'a>(fault: PathFault) -> &'a str
    ensures { result.now ≡ names.path_fault_name fault }
{
    match fault {
        PathFault::Empty => "Empty",
        PathFault::EmptyName => "EmptyName",
        PathFault::DotName => "DotName",
        PathFault::BadCharacter => "BadCharacter",
        PathFault::NameTooLong => "NameTooLong",
        PathFault::TooDeep => "TooDeep",
        PathFault::LeadingSlash => "LeadingSlash",
        PathFault::NotAbsolute => "NotAbsolute",
        PathFault::RemoteRoot => "RemoteRoot",
        PathFault::OutOfMemory => "OutOfMemory",
    }
}

fn pattern_fault_name<'a>(fault: GlobFault) -> &'a str
    ensures { result.now ≡ names.pattern_fault_name fault }
{
    match fault {
        GlobFault::NoKind => "NoKind",
        GlobFault::RegexLeftOut => "RegexLeftOut",
        GlobFault::EmptyPattern => "EmptyPattern",
        GlobFault::OpenBracket => "OpenBracket",
        GlobFault::OpenBrace => "OpenBrace",
        GlobFault::NestedBraces => "NestedBraces",
        GlobFault::BadRange => "BadRange",
        GlobFault::NegatedSet => "NegatedSet",
        GlobFault::BadEscape => "BadEscape",
        GlobFault::SlashInName => "SlashInName",
        GlobFault::SlashInSet => "SlashInSet",
        GlobFault::LeadingSlash => "LeadingSlash",
        GlobFault::TooLong => "TooLong",
        GlobFault::TooManyChoices => "TooManyChoices",
        GlobFault::OutOfMemory => "OutOfMemory",
    }
}

/// The name of a fault of a profile or of rules.
pub fn profile_fault_name(alloc: Global, fault: &Fault) -> Result<String, AllocError>
    ensures { IfOk result (λ t. string_bytes t ≡ names.profile_fault_name fault.now) }
{
    match fault {
        Fault::NotUtf8 => String::from_str(alloc, "NotUtf8"),
        Fault::NoEquals => String::from_str(alloc, "NoEquals"),
        Fault::IncludeLeftOut => String::from_str(alloc, "IncludeLeftOut"),
        Fault::UnknownPreference(name) => with_detail(alloc, "UnknownPreference ", name.text()),
        Fault::LeftOutValue => String::from_str(alloc, "LeftOutValue"),
        Fault::BadPath(fault) => with_detail(alloc, "BadPath ", path_fault_name(*fault)),
        Fault::BadPattern(fault) => with_detail(alloc, "BadPattern ", pattern_fault_name(*fault)),
        Fault::Repeated => String::from_str(alloc, "Repeated"),
        Fault::RootCount => String::from_str(alloc, "RootCount"),
        Fault::SameRoots => String::from_str(alloc, "SameRoots"),
        Fault::RootsNested => String::from_str(alloc, "RootsNested"),
        Fault::NotARoot => String::from_str(alloc, "NotARoot"),
        Fault::RuleBeforeRoot => String::from_str(alloc, "RuleBeforeRoot"),
        Fault::TooMany => String::from_str(alloc, "TooMany"),
        Fault::OutOfMemory => String::from_str(alloc, "OutOfMemory"),
        Fault::NoArrow => String::from_str(alloc, "NoArrow"),
    }
}

/// The name of a fault, and what it is about.
fn with_detail(alloc: Global, name: &str, detail: &str) -> Result<String, AllocError>
    ensures { IfOk result (λ t. string_bytes t ≡ name.now ++ detail.now) }
{
    joined(alloc, &[name, detail])
}

/// The name of a fault of a state text.
pub fn state_fault_name<'a>(fault: hub_state::Fault) -> &'a str
    ensures { result.now ≡ names.state_fault_name fault }
{
    match fault {
        hub_state::Fault::BadHeader => "BadHeader",
        hub_state::Fault::BadLine => "BadLine",
        hub_state::Fault::BadPath => "BadPath",
        hub_state::Fault::BadHex => "BadHex",
        hub_state::Fault::NoParent => "NoParent",
        hub_state::Fault::Repeated => "Repeated",
        hub_state::Fault::TooLarge => "TooLarge",
        hub_state::Fault::Truncated => "Truncated",
        hub_state::Fault::ReadFailed => "ReadFailed",
        hub_state::Fault::WriteFailed => "WriteFailed",
        hub_state::Fault::TurnsSpent => "TurnsSpent",
        hub_state::Fault::OutOfMemory => "OutOfMemory",
        hub_state::Fault::UnknownBlob => "UnknownBlob",
        hub_state::Fault::WrongDigest => "WrongDigest",
    }
}

/// The name of a fault of a bundle's sections.
pub fn bundle_fault_name<'a>(fault: BundleFault) -> &'a str
    ensures { result.now ≡ names.bundle_fault_name fault }
{
    match fault {
        BundleFault::NoSection => "NoSection",
        BundleFault::UnknownSection => "UnknownSection",
        BundleFault::BadName => "BadName",
        BundleFault::SectionTwice => "SectionTwice",
        BundleFault::OutOfMemory => "OutOfMemory",
    }
}

/// The name of a fault of an input that can't be read to its end.
pub fn input_fault_name<'a>(fault: InputFault) -> &'a str
    ensures { result.now ≡ names.input_fault_name fault }
{
    match fault {
        InputFault::ReadFailed => "ReadFailed",
        InputFault::TurnsSpent => "TurnsSpent",
        InputFault::OutOfMemory => "OutOfMemory",
    }
}

/// The line of the fault at a place that has this name.
pub fn fault_line(alloc: Global, place: &str, name: &str) -> Result<Blocks, AllocError>
    ensures { IfOk result (λ t. bytes_in t ≡ names.fault_line place.now name.now) }
{
    let line = joined(alloc, &["fault: ", place, ": ", name, "\n"])?;
    Blocks::new(alloc, line.into_bytes())
}
