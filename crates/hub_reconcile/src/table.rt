//! The rows of a picture: one for each path that counts, in the order of paths.
ghost use Rattle.std.specs.Prelude.{◌≡◌, [], ◌++◌, IfOk, OnOk, option_copied};
ghost use Rattle.std.specs.Option.{option_map};
ghost use Rattle.hub_reconcile.specs.Merge as merge;
ghost use Rattle.hub_reconcile.specs.Picture.{told_by};
ghost use Rattle.hub_reconcile.specs.Rows.{AddsOther, AreRowsOf, counted_of, is_counted};
ghost use Rattle.hub_reconcile.specs.Shown.{AreOtherMarks, shown};

use crate::look::Look;
use crate::marks::is_present;
use crate::old_mark::{OldMark, mark_of, next_mark, past_mark, path_of};
use crate::picture::Picture;
use crate::row::{Row, Seen};
use hub_path::{RelPath, Side};
use hub_profile::Profile;
use hub_reach::reaches;
use hub_tree::Mark;
use std::alloc::{AllocError, Global};

/// The rows of a picture, and the marks of its archive at the paths that the profile doesn't reach.
#[derive(Drop)]
pub(crate) struct Table<'a> {
    /// The rows, in the order of their paths.
    pub rows: Vec<Row<'a>>,
    /// The other marks, in the order of their paths.
    pub others: Vec<OldMark<'a>>,
}

/// Makes the table of a picture, by one pass over the Looks of both sides and the marks of the archive.
pub(crate) fn table_of<'a>(alloc: Global, picture: &Picture<'a>) -> Result<Table<'a>, AllocError>
    ensures rows { IfOk result (λ t. AreRowsOf (shown picture.now) t.rows.items) }
    ensures others { IfOk result (λ t. AreOtherMarks picture.now t.others.items) }
{
    let mut table = Table {
        rows: Vec::new(alloc),
        others: Vec::new(alloc),
    };
    let mut left = picture.looks(Side::Left);
    let mut right = picture.looks(Side::Right);
    let mut marks = picture.archive().iter();
    let mut old = next_mark(&mut marks);
    while let Some(path) = least_path(left, right, old) {
        let row = row_of(path, left, right, old);
        left = past_look(left, path);
        right = past_look(right, path);
        old = past_mark(old, &mut marks, path);
        add_row(&mut table, picture.profile(), row)?;
    }
    Ok(table)
}

/// Adds a row, if it counts, and else the mark of its path, if the archive has one.
fn add_row<'a>(table: &mut Table<'a>, profile: &Profile, row: Row<'a>) -> Result<(), AllocError>
    ensures rows { OnOk result
        (table.new.rows.items ≡ table.old.rows.items ++ counted_of profile.now row.entry) }
    ensures others { OnOk result
        (AddsOther profile.now row.entry table.old.others.items table.new.others.items) }
{
    if counts(profile, &row) {
        table.rows.push(row)?;
    } else if is_present(row.old) {
        table.others.push(OldMark {
            path: row.path,
            mark: row.old,
        })?;
    }
    Ok(())
}

/// The least of the first paths of both sides and of the archive.
fn least_path<'a>(
    left: &'a [Look<'a>],
    right: &'a [Look<'a>],
    old: Option<OldMark<'a>>,
) -> Option<&'a RelPath>
    ensures { option_map (λ p. p.now) result ≡ merge.least_path left.now right.now old.entry }
{
    lesser(lesser(first_path(left), first_path(right)), path_of(old))
}

/// The path of the first Look.
fn first_path<'a>(looks: &'a [Look<'a>]) -> Option<&'a RelPath>
    ensures { option_map (λ p. p.now) result
        ≡ merge.first_of (merge.seen_paths (told_by looks.now)) }
{
    match looks {
        [first, ..] => Some(first.path),
        [] => None,
    }
}

/// The lesser of two paths, if there is one.
fn lesser<'a>(a: Option<&'a RelPath>, b: Option<&'a RelPath>) -> Option<&'a RelPath>
    ensures { option_copied result ≡ merge.lesser (option_copied a.entry) (option_copied b.entry) }
{
    match (a, b) {
        (None, _) => b,
        (Some(_), None) => a,
        (Some(p), Some(q)) => { if q.cmp(p).is_lt() { b } else { a } }
    }
}

/// The row of a path, where these Looks are left and this mark is the next one of the archive. None of them is of a path
/// before it.
fn row_of<'a>(path: &'a RelPath, left: &[Look], right: &[Look], old: Option<OldMark>) -> Row<'a>
    ensures path { result.path.now ≡ path.now }
    ensures left { merge.IsSeen (merge.front_sight path.now (told_by left.now)) result.left }
    ensures right { merge.IsSeen (merge.front_sight path.now (told_by right.now)) result.right }
    ensures old { result.old ≡ merge.front_mark path.now (merge.taken old.entry) }
{
    Row {
        path,
        left: front_seen(left, path),
        right: front_seen(right, path),
        old: mark_of(old, path),
    }
}

/// What the first Look told, if it is of this path.
fn front_seen(looks: &[Look], path: &RelPath) -> Seen
    ensures { merge.IsSeen (merge.front_sight path.now (told_by looks.now)) result }
{
    match looks {
        [first, ..] if first.path == path => Seen {
            mark: first.mark,
            others: first.others,
        },
        _ => Seen {
            mark: Mark::Absent,
            others: false,
        },
    }
}

/// The Looks without the first one, if that is of this path.
fn past_look<'a>(looks: &'a [Look<'a>], path: &RelPath) -> &'a [Look<'a>]
    ensures { told_by result.now ≡ merge.past_sight path.now (told_by looks.now) }
{
    match looks {
        [first, rest @ ..] if first.path == path => rest,
        _ => looks,
    }
}

/// Returns whether a row counts: something is known of its path, and the profile reaches it.
fn counts(profile: &Profile, row: &Row) -> bool
    ensures { result ≡ is_counted profile.now row.now }
{
    row.is_known() && reaches(profile, row.path)
}
