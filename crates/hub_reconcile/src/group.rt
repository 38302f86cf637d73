//! Groups: items with what is below them, and the paths at which nothing differs.
ghost use Rattle.std.specs.Prelude.{◌≡◌, ◌∷◌, List, IfOk};
ghost use Rattle.std.specs.List.{prefix_len};
ghost use Rattle.hub_path.specs.Path.{Path, is_over};
ghost use Rattle.hub_reconcile.specs.forms.Groups.{IsCut, IsGroup, IsPartition, rows_below};
ghost use Rattle.hub_reconcile.specs.Rows.{AreRowsOf};
ghost use Rattle.hub_reconcile.specs.Shown.{shown};

use crate::fate::fate_of;
use crate::item::Fate;
use crate::picture::Picture;
use crate::row::Row;
use hub_path::RelPath;
use std::alloc::{AllocError, Global};

/// An item with all that is below it; or a path at which the sides don't differ, and which is below no item.
#[derive(Clone, Copy, Drop)]
pub(crate) struct Group<'a> {
    /// The row of the item, or of the path.
    pub first: &'a Row<'a>,
    /// The rows below the item.
    pub below: &'a [Row<'a>],
    /// What becomes of the item.
    pub fate: Option<Fate>,
}

/// Cuts the rows of a picture into groups.
pub(crate) fn groups<'a>(
    alloc: Global,
    picture: &Picture,
    rows: &'a [Row<'a>],
) -> Result<Vec<Group<'a>>, AllocError>
    requires { AreRowsOf (shown picture.now) rows.now }
    ensures { IfOk result (λ bs. IsPartition (shown picture.now) bs.items) }
{
    let mut groups = Vec::new(alloc);
    let mut rest = rows;
    while let [first, after @ ..] = rest {
        let group = group_of(picture, first, after)?;
        rest = &after[group.below.len()..];
        groups.push(group)?;
    }
    Ok(groups)
}

/// The group of a row, which is below no item of the rows before it.
fn group_of<'a>(
    picture: &Picture,
    first: &'a Row<'a>,
    after: &'a [Row<'a>],
) -> Result<Group<'a>, AllocError>
    requires { (front : List Path) × IsCut (shown picture.now) front (first.now ∷ after.now) }
    ensures group { IfOk result (λ b. IsGroup (shown picture.now) b) }
    ensures first { IfOk result (λ b. b.first.now ≡ first.now) }
    ensures below { IfOk result (λ b. b.below.now ≡ rows_below first.now after.now) }
{
    if !first.differs() {
        let below = &after[..0];
        return Ok(Group {
            first,
            below,
            fate: None,
        });
    }
    let below = &after[..count_below(first.path, after)];
    let fate = Some(fate_of(picture, first, below)?);
    Ok(Group { first, below, fate })
}

/// How many of the rows, from the first on, are of paths below this one.
fn count_below(path: &RelPath, rows: &[Row]) -> usize
    ensures { result ≡ prefix_len (λ r. is_over path.now r.path.now) rows.now }
{
    rows.iter()
        .take_while(|row| row.path.starts_with(path))
        .count()
}
