//! The topmost of some paths.
ghost use Rattle.std.specs.Prelude.{◌≡◌, ◌&&◌, ◌||◌, not, IfOk, IsTrue};
ghost use Rattle.std.specs.List.{list_all, list_any};
ghost use Rattle.hub_path.specs.Path.{is_over, is_place, none_over, path_eq};
ghost use Rattle.hub_profile.specs.Facts.{are_kept};
ghost use Rattle.hub_unison.specs.ReadingOf as reading;
ghost use Rattle.hub_folded.specs.Lines as lines;

use hub_path::RelPath;
use hub_text::Items;
use std::alloc::{AllocError, Global};

/// Returns the topmost of these paths, or the whole replica if they can't be kept values.
pub(crate) fn highest(alloc: Global, paths: &[RelPath]) -> Result<Items<RelPath>, AllocError>
    ensures value { IfOk result (λ tops. tops ≡ lines.highest paths.now) }
    ensures kept { IfOk result (λ tops. IsTrue (are_kept tops)) }
{
    let tops = topmost(alloc, paths)?;
    if are_tops(tops.as_slice(), paths) {
        return Ok(tops);
    }
    let mut whole = Items::new(alloc);
    whole.push(RelPath::top(alloc))?;
    Ok(whole)
}

/// Copies the paths that are below no other one, each once.
fn topmost(alloc: Global, paths: &[RelPath]) -> Result<Items<RelPath>, AllocError>
    ensures { IfOk result (λ tops. tops ≡ reading.topmost paths.now) }
{
    let mut tops = Items::new(alloc);
    for path in paths {
        if lies_below(paths, path) || is_among(tops.as_slice(), path) {
            continue;
        }
        tops.push(path.copy()?)?;
    }
    Ok(tops)
}

fn lies_below(paths: &[RelPath], path: &RelPath) -> bool
    ensures { result ≡ reading.is_below_some paths.now path.now }
{
    paths.iter().any(|other| path.starts_with(other) && other.len() < path.len())
}

fn is_among(tops: &[RelPath], path: &RelPath) -> bool
    ensures { result ≡ list_any (λ top. path_eq top path.now) tops.now }
{
    tops.iter().any(|top| top == path)
}

/// Returns whether these may be kept values, and are over all of those.
fn are_tops(tops: &[RelPath], paths: &[RelPath]) -> bool
    ensures { result ≡ (are_kept tops.now && lines.are_over tops.now paths.now) }
{
    are_apart(tops) && are_over(tops, paths)
}

/// Returns whether these may be kept values.
pub(crate) fn are_apart(tops: &[RelPath]) -> bool
    ensures { result ≡ are_kept tops.now }
{
    !tops.is_empty() && are_places(tops) && none_over(tops)
}

fn are_places(tops: &[RelPath]) -> bool
    ensures { result ≡ list_all is_place tops.now }
{
    tops.iter().all(is_place)
}

/// Returns whether each of the names is one: each is.
fn is_place(value: &RelPath) -> bool
    ensures { result ≡ is_place value.now }
{
    let _names = value.len();
    true
}

fn none_over(tops: &[RelPath]) -> bool
    ensures { result ≡ none_over tops.now }
{
    match tops {
        [top, rest @ ..] => are_beside(top, rest) && none_over(rest),
        [] => true,
    }
}

fn are_beside(top: &RelPath, rest: &[RelPath]) -> bool
    ensures { result ≡ list_all (λ q. not (is_over top.now q || is_over q top.now)) rest.now }
{
    rest.iter().all(|other| !(other.starts_with(top) || top.starts_with(other)))
}

fn are_over(tops: &[RelPath], paths: &[RelPath]) -> bool
    ensures { result ≡ lines.are_over tops.now paths.now }
{
    paths.iter().all(|value| is_covered(tops, value))
}

fn is_covered(tops: &[RelPath], value: &RelPath) -> bool
    ensures { result ≡ list_any (λ top. is_over top value.now) tops.now }
{
    tops.iter().any(|top| value.starts_with(top))
}
