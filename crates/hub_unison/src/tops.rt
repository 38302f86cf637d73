//! Kept values in place of those that end with `*`.
ghost use Rattle.std.specs.Prelude.{◌≡◌, ◌&&◌, ◌||◌, not, chars, codes, map, IfOk, IsTrue};
ghost use Rattle.std.specs.List.{list_all, list_any};
ghost use Rattle.hub_path.specs.Path as path;
ghost use Rattle.hub_profile.specs.Facts.{are_kept};
ghost use Rattle.hub_unison.specs.Cautious as cautious;
ghost use Rattle.hub_unison.specs.ReadingOf as reading;
ghost use Rattle.hub_unison.specs.UnisonReach.{is_starred};

use hub_path::RelPath;
use hub_text::Items;
use std::alloc::{AllocError, Global};

/// Returns kept values that are over all that these stand for: each of these, or its parent if its last name is `*`, and of
/// those only the topmost.
pub(crate) fn top_values(alloc: Global, paths: &[RelPath]) -> Result<Items<RelPath>, AllocError>
    ensures value { IfOk result (λ tops. tops ≡ reading.top_values paths.now) }
    ensures kept { IfOk result (λ tops. IsTrue (are_kept tops)) }
{
    let cuts = cut_values(alloc, paths)?;
    let tops = topmost(alloc, cuts.as_slice())?;
    if are_tops(tops.as_slice(), paths) {
        return Ok(tops);
    }
    let mut whole = Items::new(alloc);
    whole.push(RelPath::top(alloc))?;
    Ok(whole)
}

/// Returns these values, without a last name `*`.
fn cut_values(alloc: Global, paths: &[RelPath]) -> Result<Items<RelPath>, AllocError>
    ensures { IfOk result (λ cuts. cuts ≡ map reading.cut_value paths.now) }
{
    let mut cuts = Items::new(alloc);
    for path in paths {
        cuts.push(cut_value(alloc, path)?)?;
    }
    Ok(cuts)
}

fn cut_value(alloc: Global, path: &RelPath) -> Result<RelPath, AllocError>
    ensures { IfOk result (λ cut. cut ≡ reading.cut_value path.now) }
{
    if !is_starred(path) {
        return path.copy();
    }
    match path.parent()? {
        Some(parent) => Ok(parent),
        None => Ok(RelPath::top(alloc)),
    }
}

/// Copies the values that are below no other one, each once.
fn topmost(alloc: Global, cuts: &[RelPath]) -> Result<Items<RelPath>, AllocError>
    ensures { IfOk result (λ tops. tops ≡ reading.topmost cuts.now) }
{
    let mut tops = Items::new(alloc);
    for cut in cuts {
        if lies_below(cuts, cut) || is_among(tops.as_slice(), cut) {
            continue;
        }
        tops.push(cut.copy()?)?;
    }
    Ok(tops)
}

fn lies_below(cuts: &[RelPath], cut: &RelPath) -> bool
    ensures { result ≡ reading.is_below_some cuts.now cut.now }
{
    cuts.iter()
        .any(|other| cut.starts_with(other) && other.len() < cut.len())
}

fn is_among(tops: &[RelPath], cut: &RelPath) -> bool
    ensures { result ≡ list_any (λ top. path.path_eq top cut.now) tops.now }
{
    tops.iter().any(|top| top == cut)
}

/// Returns whether these may be kept values, and are over all that the others stand for.
fn are_tops(tops: &[RelPath], paths: &[RelPath]) -> bool
    ensures { result ≡ reading.are_tops tops.now paths.now }
{
    are_apart(tops) && cover(tops, paths)
}

fn are_apart(tops: &[RelPath]) -> bool
    ensures { result ≡ are_kept tops.now }
{
    !tops.is_empty() && are_places(tops) && none_over(tops)
}

fn are_places(tops: &[RelPath]) -> bool
    ensures { result ≡ list_all path.is_place tops.now }
{
    tops.iter().all(is_place)
}

/// Returns whether each of the names is one: each is.
fn is_place(value: &RelPath) -> bool
    ensures { result ≡ path.is_place value.now }
{
    let _names = value.len();
    true
}

fn none_over(tops: &[RelPath]) -> bool
    ensures { result ≡ path.none_over tops.now }
{
    match tops {
        [top, rest @ ..] => are_beside(top, rest) && none_over(rest),
        [] => true,
    }
}

fn are_beside(top: &RelPath, rest: &[RelPath]) -> bool
    ensures { result ≡ list_all (λ q. not (path.is_over top.now q || path.is_over q top.now)) rest.now }
{
    rest.iter().all(|other| !(other.starts_with(top) || top.starts_with(other)))
}

fn cover(tops: &[RelPath], paths: &[RelPath]) -> bool
    ensures { result ≡ cautious.cover tops.now paths.now }
{
    paths.iter().all(|value| is_covered(tops, value))
}

fn is_covered(tops: &[RelPath], value: &RelPath) -> bool
    ensures { result ≡ list_any (λ top. cautious.covers_value top value.now) tops.now }
{
    tops.iter().any(|top| covers_value(top, value))
}

/// Returns whether a path is over all that a kept value stands for.
fn covers_value(top: &RelPath, value: &RelPath) -> bool
    ensures { result ≡ cautious.covers_value top.now value.now }
{
    value.starts_with(top) && (!is_starred(value) || top.len() < value.len())
}

/// Returns whether the last name of a path is `*`.
pub(crate) fn is_starred(path: &RelPath) -> bool
    ensures { result ≡ is_starred path.now }
{
    path.len() > 0 && is_star(path.name(path.len() - 1).text())
}

fn is_star(text: &str) -> bool
    ensures { result ≡ path.name_eq (chars text.now) (codes "*") }
{
    text == "*"
}
