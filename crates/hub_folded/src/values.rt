//! Kept values, folded in Unicode mode.
ghost use Rattle.std.specs.Prelude.{◌≡◌, chars, codes, map, IfOk, IfSome, IsTrue, if◌then◌else◌, Some, None};
ghost use Rattle.std.specs.List.{list_all};
ghost use Rattle.hub_path.specs.Path.{name_eq};
ghost use Rattle.hub_profile.specs.Facts.{are_kept};
ghost use Rattle.hub_unison.specs.ReadingOf.{cut_value};
ghost use Rattle.hub_unison.specs.UnisonReach.{is_starred};
ghost use Rattle.hub_folded.specs.Fold as fold;
ghost use Rattle.hub_folded.specs.Lines as lines;
ghost use Rattle.hub_folded.specs.Table.{unicode};

use crate::fold::{fold_name, knows};
use crate::tops::{are_apart, highest};
use hub_path::{Name, RelPath};
use hub_text::Items;
use std::alloc::{AllocError, Global};

/// Returns what kept values fold to, if each is known, and they may be kept values when they are folded.
pub(crate) fn folded_values(
    alloc: Global,
    paths: &[RelPath],
) -> Result<Option<Items<RelPath>>, AllocError>
    ensures value { IfOk result (λ o. o ≡ (if lines.keeps_values unicode paths.now
        then Some (map (fold.fold_path unicode) paths.now) else None)) }
    ensures kept { IfOk result (λ o. IfSome o (λ values. IsTrue (are_kept values))) }
{
    let Some(folded) = folded_paths(alloc, paths)? else {
        return Ok(None);
    };
    if are_apart(folded.as_slice()) {
        return Ok(Some(folded));
    }
    Ok(None)
}

/// Returns what paths fold to, if each is known.
fn folded_paths(alloc: Global, paths: &[RelPath]) -> Result<Option<Items<RelPath>>, AllocError>
    ensures { IfOk result (λ o. o ≡ (if list_all (fold.knows_path unicode) paths.now
        then Some (map (fold.fold_path unicode) paths.now) else None)) }
{
    let mut all = Items::new(alloc);
    for path in paths {
        let Some(folded) = folded_path(alloc, path)? else {
            return Ok(None);
        };
        all.push(folded)?;
    }
    Ok(Some(all))
}

/// Returns what a path folds to, if each of its names is known.
pub(crate) fn folded_path(alloc: Global, path: &RelPath) -> Result<Option<RelPath>, AllocError>
    ensures { IfOk result (λ o. o ≡ (if fold.knows_path unicode path.now
        then Some (fold.fold_path unicode path.now) else None)) }
{
    let part = known_part(alloc, path)?;
    if part.len() == path.len() {
        return Ok(Some(part));
    }
    Ok(None)
}

/// Returns the first known names of a path, folded.
fn known_part(alloc: Global, path: &RelPath) -> Result<RelPath, AllocError>
    ensures { IfOk result (λ p. p ≡ lines.known_part unicode path.now) }
{
    let mut part = RelPath::top(alloc);
    for i in 0..path.len() {
        let Some(name) = folded_name(alloc, path.name(i))? else {
            return Ok(part);
        };
        part = part.child(name)?;
    }
    Ok(part)
}

/// Returns what a name folds to, if that is known. It is a name, too.
fn folded_name(alloc: Global, name: &Name) -> Result<Option<Name>, AllocError>
    ensures { IfOk result (λ o. o ≡ (if fold.knows unicode name.now
        then Some (fold.fold_name unicode name.now) else None)) }
{
    let text = name.text();
    if !knows(text) {
        return Ok(None);
    }
    let folded = fold_name(alloc, text)?;
    Name::from_text(alloc, folded.as_str())
}

/// Returns paths that are over all that these kept values stand for: of their first known names, folded and without a last `*`, the
/// topmost, or the whole replica if these can't be kept values.
pub(crate) fn tops_of(alloc: Global, paths: &[RelPath]) -> Result<Items<RelPath>, AllocError>
    ensures value { IfOk result (λ tops. tops ≡ lines.folded_tops unicode paths.now) }
    ensures kept { IfOk result (λ tops. IsTrue (are_kept tops)) }
{
    let tops = each_top(alloc, paths)?;
    highest(alloc, tops.as_slice())
}

fn each_top(alloc: Global, paths: &[RelPath]) -> Result<Items<RelPath>, AllocError>
    ensures { IfOk result (λ tops. tops ≡ map (lines.top_of unicode) paths.now) }
{
    let mut tops = Items::new(alloc);
    for path in paths {
        tops.push(top_of(alloc, path)?)?;
    }
    Ok(tops)
}

/// Returns the first known names of a kept value, folded, without a last `*`.
fn top_of(alloc: Global, value: &RelPath) -> Result<RelPath, AllocError>
    ensures { IfOk result (λ t. t ≡ lines.top_of unicode value.now) }
{
    let cut = cut_value(alloc, value)?;
    let part = known_part(alloc, &cut)?;
    cut_value(alloc, &part)
}

/// Copies a kept value, or its parent if its last name is `*`.
fn cut_value(alloc: Global, path: &RelPath) -> Result<RelPath, AllocError>
    ensures { IfOk result (λ cut. cut ≡ cut_value path.now) }
{
    if !is_starred(path) {
        return path.copy();
    }
    match path.parent()? {
        Some(parent) => Ok(parent),
        None => Ok(RelPath::top(alloc)),
    }
}

/// Returns whether the last name of a path is `*`.
fn is_starred(path: &RelPath) -> bool
    ensures { result ≡ is_starred path.now }
{
    path.len() > 0 && is_star(path.name(path.len() - 1).text())
}

fn is_star(text: &str) -> bool
    ensures { result ≡ name_eq (chars text.now) (codes "*") }
{
    text == "*"
}
