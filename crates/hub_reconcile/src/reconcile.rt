//! The items of a picture, their changes, and the new archive.
ghost use Rattle.std.specs.Prelude.{◌≡◌, ◌++◌, ◌∷◌, [], IfOk, OnOk};
ghost use Rattle.std.specs.List.{flat_map};
ghost use Rattle.hub_reconcile.specs.forms.Groups as parts;
ghost use Rattle.hub_reconcile.specs.Items as spec;
ghost use Rattle.hub_reconcile.specs.Merge as merge;
ghost use Rattle.hub_reconcile.specs.Shown.{AreOtherMarks, next_archive_of, shown};

use crate::change::Change;
use crate::group::{Group, groups};
use crate::item::{Fate, Item};
use crate::old_mark::OldMark;
use crate::picture::Picture;
use crate::row::Row;
use crate::table::table_of;
use hub_path::{RelPath, Side};
use hub_text::Items;
use hub_tree::{Archive, ArchiveBuilder, Mark};
use std::alloc::{AllocError, Global};

/// Returns the items of a picture in the order of their paths, or `AllocError` when out of memory.
#[tactic(auto, using(crate::proofs::Partitions::partition_items))]
pub fn items(alloc: Global, picture: &Picture) -> Result<Items<Item>, AllocError>
    ensures { IfOk result (λ is. is ≡ spec.items (shown picture.now)) }
{
    let table = table_of(alloc, picture)?;
    let groups = groups(alloc, picture, table.rows.as_slice())?;
    Ok(Items::from_vec(items_of(alloc, groups.as_slice())?))
}

/// Returns the changes of the items that aren't skipped, in the order of the items, or `AllocError` when out of memory.
///
/// The changes of an item are: what goes below it, the last path first; then the item; then what comes below it, in
/// ascending order.
#[tactic(auto, using(crate::proofs::Partitions::partition_changes))]
pub fn plan(alloc: Global, picture: &Picture) -> Result<Items<Change>, AllocError>
    ensures { IfOk result (λ cs. cs ≡ spec.plan (shown picture.now)) }
{
    let table = table_of(alloc, picture)?;
    let groups = groups(alloc, picture, table.rows.as_slice())?;
    Ok(Items::from_vec(changes_of(alloc, groups.as_slice())?))
}

/// Returns the archive afterwards, or `AllocError` when out of memory. The picture's archive is unchanged.
///
/// It has the source's marks at and below the items that aren't skipped, the old marks at and below those that are, the
/// common marks at the other reached paths, and the old marks elsewhere.
pub fn next_archive(alloc: Global, picture: &Picture) -> Result<Archive, AllocError>
    ensures { IfOk result (λ a. a ≡ next_archive_of picture.now) }
{
    let table = table_of(alloc, picture)?;
    let groups = groups(alloc, picture, table.rows.as_slice())?;
    archive_of(alloc, picture, table.others.as_slice(), groups.as_slice())
}

/// Returns the items of a picture and the archive afterwards, as [`items`] and [`next_archive`] do, or `AllocError` when
/// out of memory. The Looks and the archive are gone through once for both.
#[tactic(auto, using(crate::proofs::Partitions::partition_items))]
pub fn items_and_archive(
    alloc: Global,
    picture: &Picture,
) -> Result<(Items<Item>, Archive), AllocError>
    ensures items { IfOk result (λ both. both.0 ≡ spec.items (shown picture.now)) }
    ensures archive { IfOk result (λ both. both.1 ≡ next_archive_of picture.now) }
{
    let table = table_of(alloc, picture)?;
    let groups = groups(alloc, picture, table.rows.as_slice())?;
    let items = Items::from_vec(items_of(alloc, groups.as_slice())?);
    let archive = archive_of(alloc, picture, table.others.as_slice(), groups.as_slice())?;
    Ok((items, archive))
}

/// The items of groups.
fn items_of(alloc: Global, groups: &[Group]) -> Result<Vec<Item>, AllocError>
    ensures { IfOk result (λ is. is.items ≡ flat_map parts.group_items groups.now) }
{
    let mut items = Vec::new(alloc);
    for group in groups {
        push_group(&mut items, group)?;
    }
    Ok(items)
}

/// Adds the item of a group, if it has one.
fn push_group(items: &mut Vec<Item>, group: &Group) -> Result<(), AllocError>
    ensures { OnOk result (items.new.items ≡ items.old.items ++ parts.group_items group.now) }
{
    if let Some(fate) = group.fate {
        let path = group.first.path.copy()?;
        items.push(Item { path, fate })?;
    }
    Ok(())
}

/// The changes of groups.
fn changes_of(alloc: Global, groups: &[Group]) -> Result<Vec<Change>, AllocError>
    ensures { IfOk result (λ cs. cs.items ≡ flat_map parts.group_changes groups.now) }
{
    let mut changes = Vec::new(alloc);
    for group in groups {
        push_changes(&mut changes, group)?;
    }
    Ok(changes)
}

/// Adds the changes of a group.
fn push_changes(changes: &mut Vec<Change>, group: &Group) -> Result<(), AllocError>
    ensures { OnOk result (changes.new.items ≡ changes.old.items ++ parts.group_changes group.now) }
{
    match group.fate {
        Some(Fate::To(to)) => push_item(changes, group.first, group.below, to.other()),
        Some(Fate::Skip(_)) => Ok(()),
        None => Ok(()),
    }
}

/// Adds the changes of an item that comes from this side.
fn push_item(
    changes: &mut Vec<Change>,
    item: &Row,
    below: &[Row],
    from: Side,
) -> Result<(), AllocError>
    ensures { OnOk result (changes.new.items
        ≡ changes.old.items ++ parts.row_changes from item.now below.now) }
{
    push_going(changes, below, from)?;
    push_change(changes, item, from, item.mark(from))?;
    push_coming(changes, below, from)
}

/// Adds what goes below an item, the last path first.
fn push_going(changes: &mut Vec<Change>, below: &[Row], from: Side) -> Result<(), AllocError>
    ensures { OnOk result (changes.new.items
        ≡ changes.old.items ++ parts.going_rows from below.now) }
{
    let mut left = below.len();
    while left > 0 {
        left -= 1;
        let row = &below[left];
        if row.goes(from) {
            push_change(changes, row, from, Mark::Absent)?;
        }
    }
    Ok(())
}

/// Adds what comes below an item.
fn push_coming(changes: &mut Vec<Change>, below: &[Row], from: Side) -> Result<(), AllocError>
    ensures { OnOk result (changes.new.items
        ≡ changes.old.items ++ parts.coming_rows from below.now) }
{
    for row in below {
        if row.comes(from) {
            push_change(changes, row, from, row.mark(from))?;
        }
    }
    Ok(())
}

/// Adds the change that gives a path this mark, on the side that isn't the source.
fn push_change(
    changes: &mut Vec<Change>,
    row: &Row,
    from: Side,
    mark: Mark,
) -> Result<(), AllocError>
    ensures { OnOk result
        (changes.new.items ≡ changes.old.items ++ parts.row_change from row.now mark ∷ []) }
{
    let path = row.path.copy()?;
    changes.push(Change {
        side: from.other(),
        path,
        mark,
    })?;
    Ok(())
}

/// The archive afterwards: the old marks at the paths that aren't reached, and the new ones at the groups' paths.
fn archive_of(
    alloc: Global,
    picture: &Picture,
    others: &[OldMark],
    groups: &[Group],
) -> Result<Archive, AllocError>
    requires others { AreOtherMarks picture.now others.now }
    requires groups { parts.IsPartition (shown picture.now) groups.now }
    ensures { IfOk result (λ a. a ≡ next_archive_of picture.now) }
{
    let _top = picture.archive().mark_at(&RelPath::top(alloc));
    let mut marks = ArchiveBuilder::new(alloc);
    keep_all(&mut marks, others)?;
    add_marks(&mut marks, groups)?;
    marks.build()
}

/// Adds old marks.
fn keep_all(marks: &mut ArchiveBuilder, others: &[OldMark]) -> Result<(), AllocError>
    requires { parts.HaveMarkNames (merge.told_marks others.now) }
    ensures { OnOk result (marks.new
        ≡ marks.old ++ parts.kept_marks (merge.told_marks others.now)) }
{
    let mut rest = others;
    while let [other, after @ ..] = rest {
        marks.push(other.path, other.mark)?;
        rest = after;
    }
    Ok(())
}

/// Adds the new marks of all groups' paths.
fn add_marks(marks: &mut ArchiveBuilder, groups: &[Group]) -> Result<(), AllocError>
    requires { parts.HaveAllNames groups.now }
    ensures { OnOk result (marks.new
        ≡ marks.old ++ parts.kept_marks (flat_map parts.group_marks groups.now)) }
{
    let mut rest = groups;
    while let [group, after @ ..] = rest {
        update(marks, group)?;
        rest = after;
    }
    Ok(())
}

/// Adds the new marks of a group's paths.
fn update(marks: &mut ArchiveBuilder, group: &Group) -> Result<(), AllocError>
    requires { parts.HasNames group.now }
    ensures { OnOk result (marks.new
        ≡ marks.old ++ parts.kept_marks (parts.group_marks group.now)) }
{
    marks.push(group.first.path, new_mark(group.first, group.fate))?;
    let mut rest = group.below;
    while let [row, after @ ..] = rest {
        marks.push(row.path, new_mark(row, group.fate))?;
        rest = after;
    }
    Ok(())
}

/// The mark of a row's path in the new archive.
fn new_mark(row: &Row, fate: Option<Fate>) -> Mark
    ensures { result ≡ parts.mark_fated fate row.now }
{
    match fate {
        Some(Fate::To(to)) => row.mark(to.other()),
        Some(Fate::Skip(_)) => row.old,
        None => row.left.mark,
    }
}
