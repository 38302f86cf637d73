//! Roots that are spelled in two ways.
ghost use Rattle.std.specs.Prelude.{◌≡◌, IfOk, IsTrue, MatchOption};
ghost use Rattle.hub_folded.specs.FirstPlaces.{Fits, FitsAt, HasFirstPlaces, IsApart};
ghost use Rattle.hub_folded.specs.Fold.{fold_path, knows_path};
ghost use Rattle.hub_folded.specs.Roots.{AreToldApart, IsSpelledTwice};
ghost use Rattle.hub_folded.specs.Table.{unicode};

use crate::values::folded_path;
use hub_path::{RelPath, Root};
use indexmap::IndexMap;
use std::alloc::{AllocError, Global};

/// Returns the numbers of two roots of which the first is the second one, or is over it, when both are folded, but not as they are
/// spelled: as of `/srv/Hub` and `/srv/hub`, or of `/srv/hub` and `/srv/Hub/x`. A root with an unknown name is in no such pair. The only
/// error is that it is out of memory.
///
/// Unison folds no root. But where names fold, such roots may be one folder, or one may lie in the other. If there are none, known roots
/// that are one up to folding are one ([`crate::laws::roots_that_are_told_apart_are_roots_of_their_own`]).
///
/// For each root it takes two foldings and a step for each of its names, however many roots there are, since it keeps them in a hash
/// table by what they fold to.
pub fn find_spelled_twice(
    alloc: Global,
    roots: &[Root],
) -> Result<Option<(usize, usize)>, AllocError>
    ensures { IfOk result (λ o. MatchOption o (AreToldApart unicode roots.now)
        (λ pair. IsSpelledTwice unicode roots.now pair.0 pair.1)) }
{
    let places = first_places(alloc, roots)?;
    for at in 0..roots.len() {
        if let Some(first) = first_apart(alloc, &places, roots, &roots[at])? {
            return Ok(Some((first, at)));
        }
    }
    Ok(None)
}

/// Returns the number of the first root that folds to a path, for each path that some known root folds to.
fn first_places(alloc: Global, roots: &[Root]) -> Result<IndexMap<RelPath, usize>, AllocError>
    ensures { IfOk result (λ places. HasFirstPlaces unicode places roots.now) }
{
    let mut places = IndexMap::new(alloc);
    for at in (0..roots.len()).rev() {
        if let Some(folded) = folded_path(alloc, roots[at].path())? {
            places.insert(folded, at)?;
        }
    }
    Ok(places)
}

/// Returns the number of a root that is over this one when both are folded, and isn't over it as they are spelled, if there is one and
/// this one is known.
fn first_apart(
    alloc: Global,
    places: &IndexMap<RelPath, usize>,
    roots: &[Root],
    root: &Root,
) -> Result<Option<usize>, AllocError>
    requires { HasFirstPlaces unicode places.now roots.now }
    ensures { IfOk result (λ o. MatchOption o
        (IsTrue (knows_path unicode root.now)
        → Fits unicode roots.now root.now (fold_path unicode root.now))
        (λ i. IsTrue (knows_path unicode root.now)
        × IsApart unicode roots.now root.now (fold_path unicode root.now) i)) }
{
    match folded_path(alloc, root.path())? {
        Some(folded) => apart_over(places, roots, root, folded),
        None => Ok(None),
    }
}

/// Returns the number of a root that is over this path when it is folded, and isn't over the given root, if there is one.
fn apart_over(
    places: &IndexMap<RelPath, usize>,
    roots: &[Root],
    root: &Root,
    folded: RelPath,
) -> Result<Option<usize>, AllocError>
    requires { HasFirstPlaces unicode places.now roots.now }
    ensures { IfOk result (λ o. MatchOption o (Fits unicode roots.now root.now folded)
        (IsApart unicode roots.now root.now folded)) }
{
    let mut next = Some(folded);
    while let Some(path) = next {
        if let Some(first) = apart_at(places, roots, root, &path) {
            return Ok(Some(first));
        }
        next = path.parent()?;
    }
    Ok(None)
}

/// Returns the number of the first root that folds to this path, if it isn't over the given root.
fn apart_at(
    places: &IndexMap<RelPath, usize>,
    roots: &[Root],
    root: &Root,
    path: &RelPath,
) -> Option<usize>
    requires { HasFirstPlaces unicode places.now roots.now }
    ensures { MatchOption result (FitsAt unicode roots.now root.now path.now)
        (IsApart unicode roots.now root.now path.now) }
{
    let first = *places.get(path)?;
    if root.is_within(&roots[first]) {
        return None;
    }
    Some(first)
}
