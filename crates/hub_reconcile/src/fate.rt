//! What becomes of an item.
ghost use Rattle.std.specs.Prelude.{◌≡◌, ◌∷◌, IfOk};
ghost use Rattle.hub_reconcile.specs.forms.Fates as fates;
ghost use Rattle.hub_reconcile.specs.Items as spec;
ghost use Rattle.hub_reconcile.specs.Rows as spec_rows;
ghost use Rattle.hub_reconcile.specs.Rows.{AreRows, paths_of};
ghost use Rattle.std.specs.List.{list_any};
ghost use Rattle.hub_reconcile.specs.Shown.{shown};

use crate::item::{Fate, Reason};
use crate::marks::{is_folder, verb_of};
use crate::parent::has_parent;
use crate::picture::Picture;
use crate::row::Row;
use hub_path::Side;
use hub_profile::Profile;
use hub_reach::may_at;
use hub_tree::Mark;
use std::alloc::AllocError;

/// Returns what becomes of an item: where it goes, or the first reason for skipping it.
pub(crate) fn fate_of(picture: &Picture, item: &Row, below: &[Row]) -> Result<Fate, AllocError>
    requires rows { AreRows (shown picture.now) (item.now ∷ below.now) }
    requires below { paths_of below.now ≡ spec.below (shown picture.now) item.now.path.now }
    requires whole { paths_of (item.now ∷ below.now)
        ≡ spec.at_and_below (shown picture.now) item.now.path.now }
    ensures { IfOk result (λ f. f ≡ spec.fate (shown picture.now) item.now.path.now) }
{
    match source(picture.profile(), item, below) {
        Some(from) => fate_from(picture, item, below, from),
        None => Ok(Fate::Skip(Reason::Conflict)),
    }
}

/// Returns what becomes of an item that comes from this side.
fn fate_from(picture: &Picture, item: &Row, below: &[Row], from: Side) -> Result<Fate, AllocError>
    ensures { IfOk result (λ f. f ≡ fates.fate_in picture.now item.now below.now from) }
{
    if is_barred(picture.profile(), item, below, from) {
        return Ok(Fate::Skip(Reason::Barred));
    }
    if is_blocked(item, below, from) {
        return Ok(Fate::Skip(Reason::Blocked));
    }
    let to = from.other();
    if has_parent(picture, to, item.path)? {
        Ok(Fate::To(to))
    } else {
        Ok(Fate::Skip(Reason::NoParent))
    }
}

/// The side that an item comes from, or `None` for a conflict that nothing decides.
fn source(profile: &Profile, item: &Row, below: &[Row]) -> Option<Side>
    ensures { result ≡ fates.source profile.now item.now below.now }
{
    if let Some(side) = profile.force() {
        return Some(side);
    }
    if is_conflict(item, below) {
        return profile.prefer();
    }
    if item.is_updated(Side::Left) {
        Some(Side::Left)
    } else {
        Some(Side::Right)
    }
}

/// Returns whether one side is updated at the item, and the other one at or below it.
fn is_conflict(item: &Row, below: &[Row]) -> bool
    ensures { result ≡ fates.is_conflict item.now below.now }
{
    (item.is_updated(Side::Left) && is_updated_in(item, below, Side::Right))
        || (item.is_updated(Side::Right) && is_updated_in(item, below, Side::Left))
}

/// Returns whether the side is updated at the item or below it.
fn is_updated_in(item: &Row, below: &[Row], side: Side) -> bool
    ensures { result ≡ fates.is_updated_in side item.now below.now }
{
    item.is_updated(side) || is_updated_below(below, side)
}

/// Returns whether the side is updated below the item.
fn is_updated_below(below: &[Row], side: Side) -> bool
    ensures { result ≡ list_any (spec_rows.is_changed side) below.now }
{
    below.iter().any(|row| row.is_updated(side))
}

/// Returns whether some change of the item is not allowed.
fn is_barred(profile: &Profile, item: &Row, below: &[Row], from: Side) -> bool
    ensures { result ≡ fates.is_barred_item profile.now from item.now below.now }
{
    is_barred_below(profile, below, from) || bars(profile, item, from, item.mark(from))
}

/// Returns whether some change below an item is not allowed.
fn is_barred_below(profile: &Profile, below: &[Row], from: Side) -> bool
    ensures { result ≡ list_any (fates.changes_with (fates.bars profile.now from) from) below.now }
{
    below.iter().any(|row| bars_below(profile, row, from))
}

/// Returns whether the change of a row below an item is not allowed.
fn bars_below(profile: &Profile, row: &Row, from: Side) -> bool
    ensures { result ≡ fates.changes_with (fates.bars profile.now from) from row.now }
{
    (row.goes(from) && bars(profile, row, from, Mark::Absent))
        || (row.comes(from) && bars(profile, row, from, row.mark(from)))
}

/// Returns whether the path may not get this mark from that side.
fn bars(profile: &Profile, row: &Row, from: Side, mark: Mark) -> bool
    ensures { result ≡ fates.bars profile.now from row.now mark }
{
    let to = from.other();
    let verb = verb_of(row.mark(to), mark);
    !may_at(profile, profile.root(to), row.path, verb)
}

/// Returns whether some change of the item removes or replaces a directory that has children that aren't reached.
fn is_blocked(item: &Row, below: &[Row], from: Side) -> bool
    ensures { result ≡ fates.is_blocked from item.now below.now }
{
    is_blocked_below(below, from) || blocks(item, from, item.mark(from))
}

/// Returns whether some change below an item removes or replaces such a directory.
fn is_blocked_below(below: &[Row], from: Side) -> bool
    ensures { result ≡ list_any (fates.changes_with (fates.blocks from) from) below.now }
{
    below.iter().any(|row| blocks_below(row, from))
}

/// Returns whether the change of a row below an item removes or replaces such a directory.
fn blocks_below(row: &Row, from: Side) -> bool
    ensures { result ≡ fates.changes_with (fates.blocks from) from row.now }
{
    (row.goes(from) && blocks(row, from, Mark::Absent))
        || (row.comes(from) && blocks(row, from, row.mark(from)))
}

/// Returns whether the path is such a directory, and doesn't stay one with this mark from that side.
fn blocks(row: &Row, from: Side, mark: Mark) -> bool
    ensures { result ≡ fates.blocks from row.now mark }
{
    let seen = row.seen(from.other());
    is_folder(seen.mark) && !is_folder(mark) && seen.others
}
