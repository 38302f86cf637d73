//! The clashes of a few profiles, as sets of bits.
//!
//! Nothing is stated of them. What is found in them is looked at where it is used.

use crate::named::Named;
use std::alloc::{AllocError, Global};

/// The most profiles of a graph (this project's choice).
pub(crate) const VERTICES: usize = 24;

/// The most steps of a search in a graph (this project's choice). None of the graphs that were tried took half of these.
pub(crate) const STEPS: usize = 100_000;

/// Profiles that have no line of their own, and which of them clash. A vertex is a profile's number among them. A set of
/// vertices has a bit for each of them.
#[derive(Drop)]
pub(crate) struct Graph {
    profiles: Vec<usize>,
    neighbours: Vec<u32>,
}

impl Graph {
    /// Makes the graph of the profiles that have no line of their own, unless there are more than `VERTICES` of them.
    pub(crate) fn new(alloc: Global, named: &Named) -> Result<Option<Graph>, AllocError> {
        let mut profiles = Vec::new(alloc);
        for profile in 0..named.len() {
            if named.own_line(profile).is_none() {
                profiles.push(profile)?;
            }
        }
        if profiles.len() > VERTICES {
            return Ok(None);
        }
        Ok(Some(Graph::among(alloc, named, profiles)?))
    }

    /// Makes the graph of these profiles, which are in their order: `VERTICES` at most, since others would have no clashes.
    pub(crate) fn among(
        alloc: Global,
        named: &Named,
        profiles: Vec<usize>,
    ) -> Result<Graph, AllocError> {
        let neighbours = clashing_sets(alloc, named, profiles.as_slice())?;
        Ok(Graph {
            profiles,
            neighbours,
        })
    }

    /// Borrows the profiles of the vertices.
    pub(crate) fn profiles(&self) -> &[usize] {
        self.profiles.as_slice()
    }

    /// Returns the set of the vertices that clash with this one.
    pub(crate) fn neighbours(&self, vertex: usize) -> u32 {
        match self.neighbours.get(vertex) {
            Some(set) => *set,
            None => 0,
        }
    }
}

/// Returns the set of one vertex.
pub(crate) fn set_of(vertex: usize) -> u32 {
    if vertex < VERTICES { 1 << vertex } else { 0 }
}

/// Returns for each of these profiles the set of those with which it clashes.
fn clashing_sets(alloc: Global, named: &Named, profiles: &[usize]) -> Result<Vec<u32>, AllocError> {
    let mut sets = Vec::with_capacity(alloc, profiles.len())?;
    for profile in profiles {
        sets.push(clashing_set(named, profiles, *profile))?;
    }
    Ok(sets)
}

/// Returns the set of those among these profiles with which this one clashes.
fn clashing_set(named: &Named, profiles: &[usize], profile: usize) -> u32 {
    let mut set = 0;
    for (vertex, other) in profiles.iter().enumerate() {
        if named.pair_line(profile, *other).is_some() {
            set |= set_of(vertex);
        }
    }
    set
}
