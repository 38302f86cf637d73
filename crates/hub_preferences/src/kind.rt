//! What a line of a profile is to a cautious reading.
ghost use Rattle.std.specs.Prelude.{◌≡◌, [], IfOk, chars};
ghost use Rattle.hub_preferences.specs.Kinds as kinds;
ghost use Rattle.hub_preferences.specs.declared.table.Rule.TheVariants as rule_is;

use crate::place::{is_apart, is_part_of_name};
use crate::table::{Rule, meaning_of};
use hub_glob::{GlobFault, PathSpec};
use hub_path::Root;
use hub_profile::{is_setting, line_text, name_and_value, parts_at_arrow, trimmed};
use hub_text::begins_with;
use std::alloc::{AllocError, Global};

/// What a line is.
#[derive(Clone, Copy, Debug, PartialEq, Eq)]
pub(crate) enum LineKind {
    /// It stays, whatever the other lines say.
    Stays,
    /// It is left out, whatever they say.
    LeftOut,
    /// It forces a root.
    Force,
    /// It sets `force`, and names no root: it is left out.
    ForcesNoRoot,
    /// It is left out, and so are all lines of its profile that force a root.
    OverridesForce,
    /// It ignores paths, by a pattern that the plain reader reads.
    Ignore,
    /// It has an `ignorenot` pattern that the plain reader can't read: it is left out, and so are all `ignore` lines of its
    /// profile.
    UnreadIgnoreNot,
    /// It names a file that may lie in a root of a profile: another line takes its place, which the plain reader refuses.
    InRoot,
}

impl LineKind {
    /// Returns whether it overrides the `force` lines of its profile.
    pub(crate) fn overrides_force(self) -> bool
        ensures { result ≡ kinds.overrides_force self }
    {
        matches!(self, LineKind::OverridesForce)
    }

    /// Returns whether it sets `force`.
    pub(crate) fn sets_force(self) -> bool
        ensures { result ≡ kinds.sets_force self }
    {
        matches!(self, LineKind::Force | LineKind::ForcesNoRoot)
    }

    /// Returns whether it is an `ignorenot` line whose pattern can't be read.
    pub(crate) fn is_unread_ignorenot(self) -> bool
        ensures { result ≡ kinds.is_unread_ignorenot self }
    {
        matches!(self, LineKind::UnreadIgnoreNot)
    }

    /// Returns whether it names a file that may lie in a root.
    pub(crate) fn is_in_root(self) -> bool
        ensures { result ≡ kinds.is_in_root self }
    {
        matches!(self, LineKind::InRoot)
    }
}

/// What a line is, where these are the roots of the bundle.
pub(crate) fn kind_of(alloc: Global, roots: &[Root], line: &[u8]) -> Result<LineKind, AllocError>
    ensures { IfOk result (λ k. k ≡ kinds.kind_of roots.now line.now) }
{
    match str::from_utf8(line) {
        Ok(text) => kind_of_text(alloc, roots, line_text(text)),
        Err(_) => Ok(LineKind::Stays),
    }
}

/// What a line without blanks around it is.
fn kind_of_text(alloc: Global, roots: &[Root], text: &str) -> Result<LineKind, AllocError>
    ensures { IfOk result (λ k. k ≡ kinds.kind_of_text roots.now (chars text.now)) }
{
    if !is_setting(text) {
        return Ok(LineKind::Stays);
    }
    match name_and_value(text) {
        Some((name, value)) => kind_of_pair(alloc, roots, name, value),
        None => Ok(LineKind::Stays),
    }
}

/// What a line is that sets that name to that value.
fn kind_of_pair(
    alloc: Global,
    roots: &[Root],
    name: &str,
    value: &str,
) -> Result<LineKind, AllocError>
    ensures { IfOk result (λ k. k
        ≡ kinds.kind_of_pair roots.now (chars name.now, chars value.now)) }
{
    match meaning_of(name) {
        Some(meaning) => kind_by(alloc, roots, meaning.rule, value),
        None => Ok(LineKind::Stays),
    }
}

/// What a line is that sets a preference of that rule to that value.
fn kind_by(alloc: Global, roots: &[Root], rule: Rule, value: &str) -> Result<LineKind, AllocError>
    ensures { IfOk result (λ k. k ≡ kinds.kind_by roots.now rule (chars value.now)) }
{
    match rule {
        Rule::Stays => Ok(LineKind::Stays),
        Rule::LeftOut => Ok(LineKind::LeftOut),
        Rule::LeftOutIfOff => Ok(left_out_if(is_off(value))),
        Rule::LeftOutIfCentral => Ok(left_out_if(is_central(value))),
        Rule::LeftOutIfName => Ok(left_out_if(is_part_of_name(value))),
        Rule::LeftOutIfApart => file_kind(alloc, roots, value),
        Rule::Force => Ok(force_kind(value)),
        Rule::OverridesForce => Ok(LineKind::OverridesForce),
        Rule::Ignore => ignore_kind(alloc, value),
        Rule::IgnoreNot => ignorenot_kind(alloc, value),
        Rule::PartialBar => bar_kind(alloc, value),
    }
}

fn left_out_if(is_left_out: bool) -> LineKind
    ensures { result ≡ kinds.left_out_if is_left_out }
{
    if is_left_out {
        LineKind::LeftOut
    } else {
        LineKind::Stays
    }
}

fn file_kind(alloc: Global, roots: &[Root], value: &str) -> Result<LineKind, AllocError>
    ensures { IfOk result (λ k. k
        ≡ kinds.kind_by roots.now rule_is.LeftOutIfApart (chars value.now)) }
{
    if is_apart(alloc, roots, value)? {
        Ok(LineKind::LeftOut)
    } else {
        Ok(LineKind::InRoot)
    }
}

fn force_kind(value: &str) -> LineKind
    ensures { result ≡ kinds.kind_by [] rule_is.Force (chars value.now) }
{
    if names_no_root(value) {
        LineKind::ForcesNoRoot
    } else {
        LineKind::Force
    }
}

fn ignore_kind(alloc: Global, value: &str) -> Result<LineKind, AllocError>
    ensures { IfOk result (λ k. k ≡ kinds.kind_by [] rule_is.Ignore (chars value.now)) }
{
    if is_pattern(alloc, value)? {
        Ok(LineKind::Ignore)
    } else {
        Ok(LineKind::LeftOut)
    }
}

fn ignorenot_kind(alloc: Global, value: &str) -> Result<LineKind, AllocError>
    ensures { IfOk result (λ k. k ≡ kinds.kind_by [] rule_is.IgnoreNot (chars value.now)) }
{
    if is_pattern(alloc, value)? {
        Ok(LineKind::Stays)
    } else {
        Ok(LineKind::UnreadIgnoreNot)
    }
}

fn bar_kind(alloc: Global, value: &str) -> Result<LineKind, AllocError>
    ensures { IfOk result (λ k. k ≡ kinds.kind_by [] rule_is.PartialBar (chars value.now)) }
{
    let is_kept = is_bar(alloc, value)?;
    Ok(left_out_if(!is_kept))
}

/// Returns whether a bar on some paths means the same to Unison and to the plain reader.
fn is_bar(alloc: Global, value: &str) -> Result<bool, AllocError>
    ensures { IfOk result (λ b. b ≡ kinds.is_bar (chars value.now)) }
{
    let Some((before, after)) = parts_at_arrow(value) else {
        return Ok(false);
    };
    if !is_seen(before, after) {
        return Ok(false);
    }
    is_pattern(alloc, trimmed(before))
}

/// Returns whether Unison sees the last arrow of a value, and no other one, by what stands before and after it.
fn is_seen(before: &str, after: &str) -> bool
    ensures { result ≡ kinds.is_seen (chars before.now) (chars after.now) }
{
    ends_with_space(before) && begins_with(after, ' ') && parts_at_arrow(before).is_none()
}

fn ends_with_space(text: &str) -> bool
    ensures { result ≡ kinds.ends_with_space (chars text.now) }
{
    text.chars().fold(false, |_, c| c == ' ')
}

/// Returns whether the plain reader reads a pattern.
fn is_pattern(alloc: Global, value: &str) -> Result<bool, AllocError>
    ensures { IfOk result (λ b. b ≡ kinds.is_pattern (chars value.now)) }
{
    match PathSpec::read(alloc, value) {
        Ok(_) => Ok(true),
        Err(GlobFault::OutOfMemory) => Err(AllocError),
        Err(_) => Ok(false),
    }
}

/// Returns whether a value of `force` names no root.
fn names_no_root(value: &str) -> bool
    ensures { result ≡ kinds.names_no_root (chars value.now) }
{
    ["newer", "older", ""].contains(&value)
}

/// Returns whether a value switches a preference off, or leaves it as it is without a line.
fn is_off(value: &str) -> bool
    ensures { result ≡ kinds.is_off (chars value.now) }
{
    ["false", "default"].contains(&value)
}

fn is_central(value: &str) -> bool
    ensures { result ≡ kinds.is_central (chars value.now) }
{
    ["central"].contains(&value)
}
