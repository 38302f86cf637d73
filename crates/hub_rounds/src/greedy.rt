//! Profiles of which each two clash, found by adding one after another.
//!
//! Nothing is stated of them. What is found is looked at where it is used.

use crate::colouring::{Turn, turns_by_clashes};
use crate::named::Named;
use std::alloc::{AllocError, Global};

/// Profiles in turn, and what is known of each profile while a clique grows.
#[derive(Drop)]
struct Growth {
    turns: Vec<Turn>,
    /// The place of each profile among the turns.
    places: Vec<Option<usize>>,
    /// With how many profiles of the clique each one clashes.
    met: Vec<usize>,
}

/// Returns a clique, found by adding what clashes with all so far, those with the most clashes first, once from each profile on:
/// the longest one, and of these the first. It ends at a profile with too few clashes for a longer one.
pub(crate) fn clique_by_turns(alloc: Global, named: &Named) -> Result<Vec<usize>, AllocError> {
    let mut growth = Growth::new(alloc, named)?;
    let mut longest = Vec::new(alloc);
    for place in 0..named.len() {
        let Some(first) = growth.profile_at(place) else {
            return Ok(longest);
        };
        // Those that come after it have no more clashes.
        if named.degree(first) < longest.len() {
            return Ok(longest);
        }
        let own = growth.clique_from(alloc, named, first)?;
        if own.len() > longest.len() {
            longest = own;
        }
    }
    Ok(longest)
}

impl Growth {
    /// Begins with the profiles that have no line of their own, those with the most clashes first.
    fn new(alloc: Global, named: &Named) -> Result<Growth, AllocError> {
        let turns = turns_by_clashes(alloc, named)?;
        let places = places_of(alloc, turns.as_slice(), named.len())?;
        let mut met = Vec::new(alloc);
        met.resize(named.len(), 0usize)?;
        Ok(Growth { turns, places, met })
    }

    /// Returns the profile whose turn has that place.
    fn profile_at(&self, place: usize) -> Option<usize> {
        Some(self.turns.get(place)?.profile)
    }

    /// Returns the clique of this profile and of its neighbours in turn, each added if it clashes with all so far.
    fn clique_from(
        &mut self,
        alloc: Global,
        named: &Named,
        first: usize,
    ) -> Result<Vec<usize>, AllocError> {
        let mut clique = Vec::new(alloc);
        clique.push(first)?;
        self.meet(named, first);
        let places = self.places_beside(alloc, named, first)?;
        for place in places.as_slice() {
            self.add(named, &mut clique, *place)?;
        }
        self.forget(named, clique.as_slice());
        Ok(clique)
    }

    /// Returns the places of the profile's neighbours, in their order.
    fn places_beside(
        &self,
        alloc: Global,
        named: &Named,
        first: usize,
    ) -> Result<Vec<usize>, AllocError> {
        let mut places = Vec::new(alloc);
        for other in named.neighbours_of(first) {
            if let Some(Some(place)) = self.places.get(other.profile) {
                places.push(*place)?;
            }
        }
        places.sort_unstable();
        Ok(places)
    }

    /// Adds the profile of that place, if it clashes with all of the clique.
    fn add(
        &mut self,
        named: &Named,
        clique: &mut Vec<usize>,
        place: usize,
    ) -> Result<(), AllocError> {
        let Some(profile) = self.profile_at(place) else {
            return Ok(());
        };
        if self.met.get(profile) == Some(&clique.len()) {
            clique.push(profile)?;
            self.meet(named, profile);
        }
        Ok(())
    }

    /// Counts a profile of the clique at each of its neighbours.
    fn meet(&mut self, named: &Named, profile: usize) {
        for other in named.neighbours_of(profile) {
            if let Some(count) = self.met.get_mut(other.profile) {
                *count = count.saturating_add(1);
            }
        }
    }

    /// Counts none at the neighbours of these profiles.
    fn forget(&mut self, named: &Named, clique: &[usize]) {
        for profile in clique {
            self.forget_beside(named, *profile);
        }
    }

    /// Counts none at the neighbours of this profile.
    fn forget_beside(&mut self, named: &Named, profile: usize) {
        for other in named.neighbours_of(profile) {
            if let Some(count) = self.met.get_mut(other.profile) {
                *count = 0;
            }
        }
    }
}

/// Returns the place of each of so many profiles among these turns.
fn places_of(
    alloc: Global,
    turns: &[Turn],
    profiles: usize,
) -> Result<Vec<Option<usize>>, AllocError> {
    let mut places = Vec::new(alloc);
    places.resize(profiles, None)?;
    for (place, turn) in turns.iter().enumerate() {
        if let Some(own) = places.get_mut(turn.profile) {
            *own = Some(place);
        }
    }
    Ok(places)
}
