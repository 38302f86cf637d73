//! The connected parts of what clashes.
//!
//! Nothing is stated of them. What is made of them is looked at where it is used.

use crate::graph::{Graph, VERTICES};
use crate::named::Named;
use std::alloc::{AllocError, Global};

/// The profiles that have no line of their own, by parts. Two profiles are in the same part if they clash, or if others between
/// them do, one with the next.
#[derive(Drop)]
pub(crate) struct Parts {
    /// The graphs of the parts that have at most `VERTICES` profiles.
    pub(crate) graphs: Vec<Graph>,
    /// The profiles of all larger parts.
    pub(crate) large: Vec<usize>,
}

/// Finds the parts. Each profile is met once, and so are its neighbours from it.
pub(crate) fn parts_of(alloc: Global, named: &Named) -> Result<Parts, AllocError> {
    let mut graphs = Vec::new(alloc);
    let mut large = Vec::new(alloc);
    let mut met = without_rounds(alloc, named)?;
    for first in 0..named.len() {
        let part = part_from(alloc, named, &mut met, first)?;
        if part.len() > VERTICES {
            large.extend_from_slice(part.as_slice())?;
        } else if !part.is_empty() {
            graphs.push(Graph::among(alloc, named, part)?)?;
        }
    }
    Ok(Parts { graphs, large })
}

/// Returns of each profile whether it has a line of its own. Such a profile is in no part.
fn without_rounds(alloc: Global, named: &Named) -> Result<Vec<bool>, AllocError> {
    let mut without = Vec::with_capacity(alloc, named.len())?;
    for profile in 0..named.len() {
        without.push(named.own_line(profile).is_some())?;
    }
    Ok(without)
}

/// Returns the part of this profile, in its order: no profile if this one was met before.
fn part_from(
    alloc: Global,
    named: &Named,
    met: &mut Vec<bool>,
    first: usize,
) -> Result<Vec<usize>, AllocError> {
    let mut part = Vec::new(alloc);
    meet(&mut part, met, first)?;
    meet_all(&mut part, met, named)?;
    part.sort_unstable();
    Ok(part)
}

/// Adds what is to be met from the profiles of a part, until nothing is left.
fn meet_all(part: &mut Vec<usize>, met: &mut Vec<bool>, named: &Named) -> Result<(), AllocError> {
    for place in 0..named.len() {
        if place >= part.len() {
            return Ok(());
        }
        let profile = part[place];
        meet_neighbours(part, met, named, profile)?;
    }
    Ok(())
}

/// Adds the neighbours of a profile that were not met before.
fn meet_neighbours(
    part: &mut Vec<usize>,
    met: &mut Vec<bool>,
    named: &Named,
    profile: usize,
) -> Result<(), AllocError> {
    for other in named.neighbours_of(profile) {
        meet(part, met, other.profile)?;
    }
    Ok(())
}

/// Adds a profile, unless it was met before.
fn meet(part: &mut Vec<usize>, met: &mut Vec<bool>, profile: usize) -> Result<(), AllocError> {
    if met.get(profile) == Some(&false) {
        met[profile] = true;
        part.push(profile)?;
    }
    Ok(())
}
