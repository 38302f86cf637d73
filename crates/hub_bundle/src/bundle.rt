//! Bundles: an input cut into its sections.
ghost use Rattle.std.specs.Prelude.{◌≡◌, ◌⊎◌, ◌+◌, ◌≤◌, ℕ, length, IsTrue, IfOk, IfErr, Ok, Err};
ghost use Rattle.std.specs.List.{list_all, list_any};
ghost use Rattle.hub_text.specs.Fails.{Fails};
ghost use Rattle.hub_text.specs.Lines.{lines_of};
ghost use Rattle.hub_bundle.specs.Bundle as bundle;
ghost use Rattle.hub_bundle.specs.Bundle.{bytes_before_heading, follows_section, written, stray_line, profile_heading_reading, heading_reading, bundle_reading, heading_below, out_of_memory};

use crate::part::is_heading;
use hub_path::{Name, PathFault};
use hub_text::{Lines, without_last_cr};
use std::alloc::{AllocError, AllocFailed, Global};
use std::marker::Model;
use thiserror::Error;

/// What a section of a bundle is.
#[derive(Debug, Drop)]
pub enum Heading {
    /// A profile, by its name.
    Profile(Name),
    /// The rules.
    Rules,
    /// The state: replicas and archives.
    State,
    /// The certificates.
    Certificates,
}

/// A section of a bundle: its heading, and the bytes after the heading's line up to the next heading, borrowed from the
/// bundle.
#[derive(Debug, Drop)]
pub struct Section<'a> {
    heading: Heading,
    bytes: &'a [u8],
}

impl<'a> Model for Section<'a> {
    ghost use Rattle.hub_bundle.specs.Bundle.{SectionValue};

    ghost Value = { SectionValue };

    ghost view = { λ s. record { heading = s.heading; bytes = s.bytes.now } };
}

impl<'a> Section<'a> {
    /// What the heading says.
    pub fn heading(&self) -> &Heading
        ensures { result.now ≡ self.now.heading }
    {
        &self.heading
    }

    /// The bytes after the heading's line. Each of their lines ends with LF, except perhaps the bundle's last one.
    pub fn bytes(&self) -> &'a [u8]
        ensures { result.now ≡ self.now.bytes }
    {
        self.bytes
    }
}

/// Why an input is not a bundle.
#[derive(Clone, Copy, Debug, PartialEq, Eq, Error)]
pub enum BundleFault {
    /// A line before the first heading has something other than spaces, tabs and CR.
    #[error("NoSection")]
    NoSection,
    /// A line begins with `%` and is not a known heading.
    #[error("UnknownSection")]
    UnknownSection,
    /// A profile's name is not UTF-8, or not a name that `Name::read` accepts.
    #[error("BadName")]
    BadName,
    /// There is a second section of a kind that may occur once, as all do but profiles.
    #[error("SectionTwice")]
    SectionTwice,
    /// Out of memory.
    #[error("OutOfMemory")]
    OutOfMemory,
}

/// A fault and the number of its line in the bundle. The first line is 1. `OutOfMemory` has line 0.
#[derive(Clone, Copy, Debug, PartialEq, Eq, Error)]
#[error("line {line}: {fault}")]
pub struct BundleLineFault {
    /// The number of the line.
    pub line: usize,
    /// Its fault.
    pub fault: BundleFault,
}

impl From<AllocError> for BundleLineFault {
    ghost use Rattle.hub_bundle.specs.Bundle.{out_of_memory};
    ghost use Rattle.std.specs.Prelude.{◌≡◌};

    ghost from_gives = { λ _ e. e ≡ out_of_memory };

    fn from(_: AllocError) -> Self {
        BundleLineFault {
            line: 0,
            fault: BundleFault::OutOfMemory,
        }
    }
}

impl<T: Drop> From<AllocFailed<T>> for BundleLineFault {
    ghost use Rattle.hub_bundle.specs.Bundle.{out_of_memory};
    ghost use Rattle.std.specs.Prelude.{◌≡◌};

    ghost from_gives = { λ _ e. e ≡ out_of_memory };

    fn from(_: AllocFailed<T>) -> Self {
        BundleLineFault::from(AllocError)
    }
}

/// Reads the sections of a bundle, in order, in time linear in its bytes.
///
/// A line that begins with `%` is a heading: `%profile NAME`, with one space before the name, `%rules`, `%state` or
/// `%certificates`; one CR at its end is dropped. Of several faults the one of the first faulty line is returned: `NoSection`,
/// `UnknownSection`, `BadName` or `SectionTwice`. (The format is this project's choice.)
///
/// `OutOfMemory` has line 0, and may come in place of the sections or of a fault.
pub fn read_bundle<'a>(alloc: Global, bytes: &'a [u8]) -> Result<Vec<Section<'a>>, BundleLineFault>
    ensures ok { IfOk result (λ v. bundle_reading bytes.now ≡ Ok v.items) }
    ensures err { IfErr result (Fails out_of_memory (bundle_reading bytes.now)) }
{
    if let Some(line) = stray_line_of(bytes) {
        let fault = BundleFault::NoSection;
        return Err(BundleLineFault { line, fault });
    }
    let mut lines = Lines::new(bytes);
    let (_blank, mut above) = take_section(&mut lines);
    let mut sections = Vec::new(alloc);
    while let Some(line) = lines.next() {
        let text = without_last_cr(line.text);
        let heading = read_heading_below(alloc, sections.as_slice(), above + 1, text)?;
        let (bytes, count) = take_section(&mut lines);
        sections.push(Section { heading, bytes })?;
        above += count + 1;
    }
    Ok(sections)
}

/// The number of the first line before the first heading that isn't blank.
fn stray_line_of(bytes: &[u8]) -> Option<usize>
    ensures { result ≡ stray_line 1 (lines_of bytes.now) }
{
    let (index, line) = Lines::new(bytes).enumerate().find(|(_, line)| is_heading(line.text)
        || !is_ignorable(line.text))?;
    if is_heading(line.text) {
        return None;
    }
    Some(index + 1)
}

/// Takes the lines before the next heading. Returns their bytes, and how many lines they are.
fn take_section<'a>(lines: &mut Lines<'a>) -> (&'a [u8], usize)
    ensures bytes { result.0.now ≡ bytes_before_heading (lines_of lines.old) }
    ensures below { (n : ℕ) → written n (lines_of lines.old)
        ≡ written (n + result.1) (lines_of lines.new) }
    ensures fewer { result.1 + length lines.new ≤ length lines.old }
    ensures next { IsTrue (follows_section lines.new) }
{
    let below = lines.rest();
    let mut count = 0;
    while !ends_section(lines.rest()) {
        let _line = lines.next();
        count += 1;
    }
    let len = below.len() - lines.rest().len();
    (&below[..len], count)
}

/// Returns whether a section ends before these bytes: they are none, or begin with a heading.
fn ends_section(rest: &[u8]) -> bool
    ensures { result ≡ follows_section rest.now }
{
    rest.is_empty() || is_heading(rest)
}

fn is_ignorable(line: &[u8]) -> bool
    ensures { result ≡ list_all bundle.is_ignorable line.now }
{
    line.iter()
        .all(|byte| matches!(*byte, b' ' | b'\t' | b'\r'))
}

/// What a heading says that comes after these sections. A fault is that of its line.
fn read_heading_below(
    alloc: Global,
    sections: &[Section<'_>],
    line: usize,
    text: &[u8],
) -> Result<Heading, BundleLineFault>
    ensures ok { IfOk result (λ h. heading_below sections.now (heading_reading text.now) ≡ Ok h) }
    ensures err { IfErr result (λ e. (e ≡ out_of_memory) ⊎ ((e.line ≡ line)
        × (heading_below sections.now (heading_reading text.now) ≡ Err e.fault))) }
{
    let heading = read_heading(alloc, line, text)?;
    if is_repeated(sections, &heading) {
        let fault = BundleFault::SectionTwice;
        return Err(BundleLineFault { line, fault });
    }
    Ok(heading)
}

/// Returns whether the heading's kind may occur once, and has one of these sections. Only such kinds look at the
/// sections.
fn is_repeated(sections: &[Section<'_>], heading: &Heading) -> bool
    ensures { result ≡ bundle.is_repeated sections.now heading.now }
{
    match heading {
        Heading::Profile(_) => false,
        Heading::Rules => has_rules(sections),
        Heading::State => has_state(sections),
        Heading::Certificates => has_certificates(sections),
    }
}

fn has_rules(sections: &[Section<'_>]) -> bool
    ensures { result ≡ list_any (λ s. bundle.is_rules s.heading) sections.now }
{
    sections.iter().any(|section| is_rules(section.heading()))
}

fn has_state(sections: &[Section<'_>]) -> bool
    ensures { result ≡ list_any (λ s. bundle.is_state s.heading) sections.now }
{
    sections.iter().any(|section| is_state(section.heading()))
}

fn has_certificates(sections: &[Section<'_>]) -> bool
    ensures { result ≡ list_any (λ s. bundle.is_certificates s.heading) sections.now }
{
    sections
        .iter()
        .any(|section| is_certificates(section.heading()))
}

fn is_rules(heading: &Heading) -> bool
    ensures { result ≡ bundle.is_rules heading.now }
{
    match heading {
        Heading::Rules => true,
        Heading::Profile(_) | Heading::State | Heading::Certificates => false,
    }
}

fn is_state(heading: &Heading) -> bool
    ensures { result ≡ bundle.is_state heading.now }
{
    match heading {
        Heading::State => true,
        Heading::Profile(_) | Heading::Rules | Heading::Certificates => false,
    }
}

fn is_certificates(heading: &Heading) -> bool
    ensures { result ≡ bundle.is_certificates heading.now }
{
    match heading {
        Heading::Certificates => true,
        Heading::Profile(_) | Heading::Rules | Heading::State => false,
    }
}

/// What a heading says. A fault is that of its line.
fn read_heading(alloc: Global, line: usize, text: &[u8]) -> Result<Heading, BundleLineFault>
    ensures ok { IfOk result (λ h. heading_reading text.now ≡ Ok h) }
    ensures err { IfErr result (λ e. (e ≡ out_of_memory)
        ⊎ ((e.line ≡ line) × (heading_reading text.now ≡ Err e.fault))) }
{
    if let Some(name) = text.strip_prefix(b"%profile ") {
        return read_profile_name(alloc, line, name);
    }
    match heading_once(text) {
        Some(heading) => Ok(heading),
        None => Err(BundleLineFault {
            line,
            fault: BundleFault::UnknownSection,
        }),
    }
}

/// The heading of a kind that may occur once.
fn heading_once(text: &[u8]) -> Option<Heading>
    ensures { result ≡ bundle.heading_once text.now }
{
    if text == b"%rules".as_slice() {
        return Some(Heading::Rules);
    }
    if text == b"%state".as_slice() {
        return Some(Heading::State);
    }
    if text == b"%certificates".as_slice() {
        return Some(Heading::Certificates);
    }
    None
}

/// The heading of a profile with this name.
fn read_profile_name(alloc: Global, line: usize, bytes: &[u8]) -> Result<Heading, BundleLineFault>
    ensures ok { IfOk result (λ h. profile_heading_reading bytes.now ≡ Ok h) }
    ensures err { IfErr result (λ e. (e ≡ out_of_memory)
        ⊎ ((e.line ≡ line) × (profile_heading_reading bytes.now ≡ Err e.fault))) }
{
    let fault = BundleFault::BadName;
    let Ok(text) = str::from_utf8(bytes) else {
        return Err(BundleLineFault { line, fault });
    };
    match Name::read(alloc, text) {
        Ok(name) => Ok(Heading::Profile(name)),
        Err(PathFault::OutOfMemory) => Err(BundleLineFault::from(AllocError)),
        Err(_) => Err(BundleLineFault { line, fault }),
    }
}
