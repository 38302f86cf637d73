//! Which lines of a section are left out.
ghost use Rattle.std.specs.Prelude.{◌≡◌, IfOk, MatchOption, Some, None, string_bytes};
ghost use Rattle.std.specs.List.{list_any};
ghost use Rattle.hub_text.specs.Lines.{lines_of};
ghost use Rattle.hub_preferences.specs.Counted as counted;
ghost use Rattle.hub_preferences.specs.Kinds as kinds;
ghost use Rattle.hub_preferences.specs.declared.kind.LineKind.TheVariants as kind_is;

use crate::kind::{LineKind, kind_of};
use crate::spelling::other_spelling;
use hub_bundle::is_heading;
use hub_path::Root;
use hub_text::Lines;
use std::alloc::{AllocError, Global};

/// What the lines of a section say together. The roots that its methods take are those of the bundle.
#[derive(Clone, Copy, Debug, PartialEq, Eq)]
pub(crate) struct Section {
    /// It is that of a profile.
    pub(crate) is_profile: bool,
    /// A line overrides its `force` lines.
    pub(crate) overrides_force: bool,
    /// It has an `ignorenot` line whose pattern can't be read.
    pub(crate) lacks_ignorenot: bool,
}

/// No section of a profile.
pub(crate) const NO_PROFILE: Section = Section {
    is_profile: false,
    overrides_force: false,
    lacks_ignorenot: false,
};

impl Section {
    /// The section of a line: that of the line above it, or the one that it begins. The lines below it are these.
    pub(crate) fn at(
        self,
        alloc: Global,
        roots: &[Root],
        line: &[u8],
        below: &[u8],
    ) -> Result<Section, AllocError>
        ensures { IfOk result (λ s. s
            ≡ counted.section_at roots.now self line.now (lines_of below.now)) }
    {
        if !is_heading(line) {
            return Ok(self);
        }
        if !line.starts_with(b"%profile ") {
            return Ok(NO_PROFILE);
        }
        profile_above(alloc, roots, below)
    }

    /// Returns whether a line of the section is left out. The lines below it are these.
    pub(crate) fn leaves_out(
        self,
        alloc: Global,
        roots: &[Root],
        line: &[u8],
        below: &[u8],
    ) -> Result<bool, AllocError>
        ensures { IfOk result (λ b. b
            ≡ counted.is_left_out roots.now self line.now (lines_of below.now)) }
    {
        if !self.is_profile || is_heading(line) {
            return Ok(false);
        }
        let kind = kind_of(alloc, roots, line)?;
        self.leaves_kind_out(alloc, roots, kind, below)
    }

    /// Returns the other spelling of a line of the section, if it has one.
    pub(crate) fn spelling(
        self,
        alloc: Global,
        roots: &[Root],
        line: &[u8],
    ) -> Result<Option<String>, AllocError>
        ensures { IfOk result (λ o. MatchOption o
            (counted.spelling_in roots.now self line.now ≡ None)
            (λ t. counted.spelling_in roots.now self line.now ≡ Some (string_bytes t))) }
    {
        if !self.is_profile || is_heading(line) {
            return Ok(None);
        }
        other_spelling(alloc, roots, line)
    }

    /// Returns whether a line of that kind is left out. The lines below it are these.
    fn leaves_kind_out(
        self,
        alloc: Global,
        roots: &[Root],
        kind: LineKind,
        below: &[u8],
    ) -> Result<bool, AllocError>
        ensures { IfOk result (λ b. b
            ≡ counted.is_kind_left_out self kind (counted.kinds_in roots.now below.now)) }
    {
        match kind {
            LineKind::Stays => Ok(false),
            LineKind::LeftOut => Ok(true),
            LineKind::Force => self.leaves_force_out(alloc, roots, below),
            LineKind::ForcesNoRoot => Ok(true),
            LineKind::OverridesForce => Ok(true),
            LineKind::Ignore => Ok(self.lacks_ignorenot),
            LineKind::UnreadIgnoreNot => Ok(true),
            LineKind::InRoot => Ok(false),
        }
    }

    fn leaves_force_out(
        self,
        alloc: Global,
        roots: &[Root],
        below: &[u8],
    ) -> Result<bool, AllocError>
        ensures { IfOk result (λ b. b
            ≡ counted.is_kind_left_out self kind_is.Force (counted.kinds_in roots.now below.now)) }
    {
        if self.overrides_force {
            return Ok(true);
        }
        has_force(alloc, roots, below)
    }
}

/// The section of a profile above these lines.
fn profile_above(alloc: Global, roots: &[Root], lines: &[u8]) -> Result<Section, AllocError>
    ensures { IfOk result (λ s. s ≡ counted.profile_of (counted.kinds_in roots.now lines.now)) }
{
    let overrides_force = has_override(alloc, roots, lines)?;
    let lacks_ignorenot = has_unread_ignorenot(alloc, roots, lines)?;
    Ok(Section {
        is_profile: true,
        overrides_force,
        lacks_ignorenot,
    })
}

/// Returns whether one of these lines, up to the next heading, overrides the `force` lines.
fn has_override(alloc: Global, roots: &[Root], bytes: &[u8]) -> Result<bool, AllocError>
    ensures { IfOk result (λ b. b ≡ list_any kinds.overrides_force (counted.kinds_in roots.now bytes.now)) }
{
    let mut lines = Lines::new(bytes);
    while let Some(line) = lines.next() {
        if is_heading(line.text) {
            return Ok(false);
        }
        let kind = kind_of(alloc, roots, line.text)?;
        if kind.overrides_force() {
            return Ok(true);
        }
    }
    Ok(false)
}

/// Returns whether one of these lines, up to the next heading, sets `force`.
fn has_force(alloc: Global, roots: &[Root], bytes: &[u8]) -> Result<bool, AllocError>
    ensures { IfOk result (λ b. b ≡ list_any kinds.sets_force (counted.kinds_in roots.now bytes.now)) }
{
    let mut lines = Lines::new(bytes);
    while let Some(line) = lines.next() {
        if is_heading(line.text) {
            return Ok(false);
        }
        let kind = kind_of(alloc, roots, line.text)?;
        if kind.sets_force() {
            return Ok(true);
        }
    }
    Ok(false)
}

/// Returns whether one of these lines, up to the next heading, is an `ignorenot` line whose pattern can't be read.
fn has_unread_ignorenot(alloc: Global, roots: &[Root], bytes: &[u8]) -> Result<bool, AllocError>
    ensures { IfOk result (λ b. b ≡ list_any kinds.is_unread_ignorenot
        (counted.kinds_in roots.now bytes.now)) }
{
    let mut lines = Lines::new(bytes);
    while let Some(line) = lines.next() {
        if is_heading(line.text) {
            return Ok(false);
        }
        let kind = kind_of(alloc, roots, line.text)?;
        if kind.is_unread_ignorenot() {
            return Ok(true);
        }
    }
    Ok(false)
}
