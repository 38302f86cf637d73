//! Lines that protect a root: `force`, `prefer`, `nodeletion`, `noupdate` and `nocreation`.
ghost use Rattle.std.specs.Prelude.{◌≡◌, ◌∷◌, [], chars, IfOk, IfErr, OnOk, Some, None};
ghost use Rattle.hub_profile.specs.Faults.{FailsWith};
ghost use Rattle.hub_profile.specs.Foreign.{fault_of_roots};
ghost use Rattle.hub_profile.specs.PartialLines as partial;
ghost use Rattle.hub_profile.specs.Protection as protection;

use crate::bars::Bars;
use crate::fault::ProfileFault;
use crate::foreign::check_roots;
use crate::partial::Partial;
use crate::partial_line::{PartialLine, partials_of};
use hub_path::{Root, Side};
use hub_text::Items;

/// What a line says of the root that it names (Unison manual, "Preferences").
#[derive(Clone, Copy, Debug, PartialEq, Eq)]
pub(crate) enum Protection {
    /// All differences are resolved in favour of the root.
    Force,
    /// Conflicts are resolved in favour of the root.
    Prefer,
    /// These changes are not made at the root.
    Bar(Bars),
}

/// A line that protects a root.
#[derive(Debug, Drop)]
pub(crate) struct ProtectionLine {
    pub(crate) line: usize,
    pub(crate) protection: Protection,
    pub(crate) root: Root,
}

/// What all lines that protect a root, or some paths of it, say of the left and of the right root.
#[derive(Debug, Drop)]
pub(crate) struct Protected {
    /// The side whose root all differences are resolved in favour of.
    pub(crate) force: Option<Side>,
    /// The side whose root conflicts are resolved in favour of.
    pub(crate) prefer: Option<Side>,
    /// The changes that are not made at the left and at the right root.
    pub(crate) bars: [Bars; 2],
    /// The changes that are not made at a root on some paths.
    pub(crate) partial: Items<Partial>,
}

impl Protection {
    fn is_force(self) -> bool
        ensures { result ≡ protection.is_force self }
    {
        matches!(self, Protection::Force)
    }

    fn is_prefer(self) -> bool
        ensures { result ≡ protection.is_prefer self }
    {
        matches!(self, Protection::Prefer)
    }

    /// The changes that it forbids at its root.
    fn bars(self) -> Bars
        ensures { result ≡ protection.bars_of self }
    {
        match self {
            Protection::Bar(bars) => bars,
            Protection::Force | Protection::Prefer => {
                Bars {
                    create: false,
                    update: false,
                    delete: false,
                }
            }
        }
    }
}

impl Protected {
    /// What the lines say of the two roots, or `NotARoot` at the lowest line whose root is neither of them.
    pub(crate) fn of_lines(
        protections: &[ProtectionLine],
        partials: Vec<PartialLine>,
        left: &Root,
        right: &Root,
    ) -> Result<Protected, ProfileFault>
        ensures fine { OnOk result
            (fault_of_roots left.now right.now protections.now partials.items ≡ None) }
        ensures force { IfOk result
            (λ p. p.force ≡ protection.forced_side protections.now left.now right.now) }
        ensures prefer { IfOk result
            (λ p. p.prefer ≡ protection.preferred_side protections.now left.now right.now) }
        ensures bars { IfOk result
            (λ p. p.bars ≡ protection.bars_at_each protections.now left.now right.now) }
        ensures partial { IfOk result (λ p. p.partial ≡
            partial.partials_of (left.now ∷ right.now ∷ []) partials.items) }
        ensures err { IfErr result
            (FailsWith (fault_of_roots left.now right.now protections.now partials.items)) }
    {
        check_roots(protections, partials.as_slice(), left, right)?;
        Ok(Protected {
            force: forced_side(protections, left, right),
            prefer: preferred_side(protections, left, right),
            bars: [bars_at(protections, left), bars_at(protections, right)],
            partial: partials_of(*partials.allocator(), partials, left)?,
        })
    }
}

/// Returns whether one of the lines gives the preference already, and it may be given only once.
pub(crate) fn repeats(kind: Protection, lines: &[ProtectionLine]) -> bool
    ensures { result ≡ protection.repeats kind lines.now }
{
    match kind {
        Protection::Force => has_force(lines),
        Protection::Prefer => has_prefer(lines),
        Protection::Bar(_) => false,
    }
}

fn has_force(lines: &[ProtectionLine]) -> bool
    ensures { result ≡ protection.has_force lines.now }
{
    lines.iter().any(|line| line.protection.is_force())
}

fn has_prefer(lines: &[ProtectionLine]) -> bool
    ensures { result ≡ protection.has_prefer lines.now }
{
    lines.iter().any(|line| line.protection.is_prefer())
}

/// Returns whether the preference has this value in Unison, and this project leaves it out.
pub(crate) fn is_left_out(kind: Protection, value: &str) -> bool
    ensures { result ≡ protection.is_left_out kind (chars value.now) }
{
    match kind {
        Protection::Force | Protection::Prefer => is_newer_or_older(value),
        Protection::Bar(_) => false,
    }
}

fn is_newer_or_older(value: &str) -> bool
    ensures { result ≡ protection.is_newer_or_older (chars value.now) }
{
    ["newer", "older"].contains(&value)
}

/// The side whose root a `force` line names.
fn forced_side(lines: &[ProtectionLine], left: &Root, right: &Root) -> Option<Side>
    ensures { result ≡ protection.forced_side lines.now left.now right.now }
{
    first_side(is_forced(lines, left), is_forced(lines, right))
}

/// The side whose root a `prefer` line names.
fn preferred_side(lines: &[ProtectionLine], left: &Root, right: &Root) -> Option<Side>
    ensures { result ≡ protection.preferred_side lines.now left.now right.now }
{
    first_side(is_preferred(lines, left), is_preferred(lines, right))
}

fn is_forced(lines: &[ProtectionLine], root: &Root) -> bool
    ensures { result ≡ protection.is_forced lines.now root.now }
{
    lines
        .iter()
        .any(|line| line.protection.is_force() && line.root == *root)
}

fn is_preferred(lines: &[ProtectionLine], root: &Root) -> bool
    ensures { result ≡ protection.is_preferred lines.now root.now }
{
    lines
        .iter()
        .any(|line| line.protection.is_prefer() && line.root == *root)
}

fn first_side(left: bool, right: bool) -> Option<Side>
    ensures { result ≡ protection.first_side left right }
{
    if left {
        Some(Side::Left)
    } else if right {
        Some(Side::Right)
    } else {
        None
    }
}

/// The changes that the lines forbid at a root.
fn bars_at(lines: &[ProtectionLine], root: &Root) -> Bars
    ensures { result ≡ protection.bars_at lines.now root.now }
{
    Bars {
        create: bars_creation(lines, root),
        update: bars_update(lines, root),
        delete: bars_deletion(lines, root),
    }
}

fn bars_creation(lines: &[ProtectionLine], root: &Root) -> bool
    ensures { result ≡ protection.bars_creation lines.now root.now }
{
    lines
        .iter()
        .any(|line| line.protection.bars().create && line.root == *root)
}

fn bars_update(lines: &[ProtectionLine], root: &Root) -> bool
    ensures { result ≡ protection.bars_update lines.now root.now }
{
    lines
        .iter()
        .any(|line| line.protection.bars().update && line.root == *root)
}

fn bars_deletion(lines: &[ProtectionLine], root: &Root) -> bool
    ensures { result ≡ protection.bars_deletion lines.now root.now }
{
    lines
        .iter()
        .any(|line| line.protection.bars().delete && line.root == *root)
}
