//! The profiles of a bundle, each with whether the names of its host fold.
ghost use Rattle.std.specs.Prelude.{◌≡◌, IfOk};
ghost use Rattle.hub_respelled.specs.Members as spec;

use crate::case::folds_below;
use hub_bundle::{Heading, Section};
use hub_folded::Member;
use hub_profile::Profile;
use hub_text::Items;
use std::alloc::{AllocError, Global};

/// Returns of each section of a profile whether names fold by its lines.
pub(crate) fn folds_in(alloc: Global, sections: &[Section<'_>]) -> Result<Vec<bool>, AllocError>
    ensures { IfOk result (λ fs. fs.items ≡ spec.folds_in sections.now) }
{
    let mut folds = Vec::new(alloc);
    for section in sections {
        if let Heading::Profile(_) = section.heading() {
            folds.push(folds_below(section.bytes()))?;
        }
    }
    Ok(folds)
}

/// Returns the profiles, each with its own of these.
pub(crate) fn members_of(
    alloc: Global,
    folds: &[bool],
    profiles: Items<Profile>,
) -> Result<Items<Member>, AllocError>
    ensures { IfOk result (λ ms. ms ≡ spec.members_of folds.now profiles) }
{
    let mut members = Items::new(alloc);
    for parts in profiles.into_vec() {
        let folds = fold_at(folds, members.len());
        members.push(Member { folds, parts })?;
    }
    Ok(members)
}

fn fold_at(folds: &[bool], number: usize) -> bool
    ensures { result ≡ spec.fold_at folds.now number }
{
    match folds.get(number) {
        Some(own) => *own,
        None => false,
    }
}
