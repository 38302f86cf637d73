//! Files, each with the section that it is for.
ghost use Rattle.std.specs.Prelude.{◌≡◌, ◌+◌, ◌++◌, ◌≤◌, length, OnOk};
ghost use Rattle.std.specs.Option.{option_map};
ghost use Rattle.hub_text.specs.Lines.{lines_of};
ghost use Rattle.hub_bundle.specs.Files as files;

use crate::name::profile_name;
use hub_text::Lines;
use std::alloc::AllocError;

/// What a file has.
#[derive(Clone, Copy, Debug, PartialEq, Eq)]
pub enum Kind {
    /// A profile, which is named by the file.
    Profile,
    /// The rules.
    Rules,
    /// The state.
    State,
    /// The certificates.
    Certificates,
}

/// A file, and its bytes.
#[derive(Clone, Copy, Debug)]
pub struct Part<'a> {
    /// What it has.
    pub kind: Kind,
    /// Its path. The profile `docs` is in `docs.prf`, in whatever folder.
    pub file: &'a str,
    /// The machine that has the profile, if one is named. The profile `docs` of the machine `pc` is named `pc=docs`.
    pub machine: Option<&'a str>,
    /// Its bytes, without the heading of the section.
    pub bytes: &'a [u8],
}

/// Why a file can't be a section of a bundle.
#[derive(Clone, Copy, Debug, PartialEq, Eq)]
pub enum PartFault {
    /// The profile's name, or that of its machine, has an LF or a CR.
    BadName,
    /// The line of this number, from 1 on, begins with `%`, so it would begin another section.
    HasHeading(usize),
}

/// The first bytes of the heading of a section.
pub(crate) fn heading_word(kind: Kind) -> &'static [u8]
    ensures { result.now ≡ files.heading_word kind }
{
    match kind {
        Kind::Profile => b"%profile ",
        Kind::Rules => b"%rules",
        Kind::State => b"%state",
        Kind::Certificates => b"%certificates",
    }
}

/// Adds the name in the heading of a section: only that of a profile has one. (The `=` behind a machine's name is this project's
/// choice.)
pub(crate) fn push_heading_name(text: &mut Vec<u8>, part: &Part<'_>) -> Result<(), AllocError>
    ensures { OnOk result (text.new.items ≡ text.old.items ++ files.part_name part.now) }
{
    match part.kind {
        Kind::Profile => {
            push_machine(text, part.machine)?;
            text.extend_from_slice(profile_name(part.file))
        }
        _ => Ok(()),
    }
}

/// Adds the name of a machine and `=`, if there is one.
fn push_machine(text: &mut Vec<u8>, machine: Option<&str>) -> Result<(), AllocError>
    ensures { OnOk result (text.new.items ≡ text.old.items
        ++ files.machine_mark (option_map (λ m. m.now) machine.entry)) }
{
    if let Some(machine) = machine {
        text.extend_from_slice(machine.as_bytes())?;
        text.push(b'=')?;
    }
    Ok(())
}

/// Returns whether the name in the heading of a section has an LF or a CR.
fn has_broken_name(part: &Part<'_>) -> bool
    ensures { result ≡ files.has_break (files.part_name part.now) }
{
    match part.kind {
        Kind::Profile => has_broken_machine(part.machine) || has_break(profile_name(part.file)),
        _ => false,
    }
}

/// Returns whether there is a machine, and its name has an LF or a CR.
fn has_broken_machine(machine: Option<&str>) -> bool
    ensures { result ≡ files.has_break
        (files.machine_mark (option_map (λ m. m.now) machine.entry)) }
{
    match machine {
        Some(machine) => has_break(machine.as_bytes()),
        None => false,
    }
}

/// Says why a file can't be a section: its profile's name has an LF or a CR, or else a line begins with `%`. `None` if it can.
pub fn part_fault(part: &Part<'_>) -> Option<PartFault>
    ensures { result ≡ files.part_fault part.now }
{
    if has_broken_name(part) {
        return Some(PartFault::BadName);
    }
    match heading_line(part.bytes) {
        Some(line) => Some(PartFault::HasHeading(line)),
        None => None,
    }
}

/// Returns whether a name has an LF or a CR.
fn has_break(name: &[u8]) -> bool
    ensures { result ≡ files.has_break name.now }
{
    name.iter().any(|b| *b == b'\n' || *b == b'\r')
}

/// The number of the first line that begins with `%`.
fn heading_line(bytes: &[u8]) -> Option<usize>
    ensures { result ≡ files.heading_line (lines_of bytes.now) }
{
    let index = Lines::new(bytes).position(|line| is_heading(line.text))?;
    Some(index + 1)
}

/// Returns whether a line begins with `%`: then it is the heading of a section.
pub fn is_heading(line: &[u8]) -> bool
    ensures { result ≡ files.is_heading line.now }
{
    match line {
        [first, ..] => *first == b'%',
        [] => false,
    }
}
