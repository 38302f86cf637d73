//! The most vertices of a graph of which each two clash, by branch and bound.
//!
//! This is the search of Carraghan and Pardalos (Operations Research Letters 9, 1990): with a vertex or without it, but not
//! where too few vertices are left for a larger clique.

use crate::graph::{Graph, set_of};
use std::alloc::{AllocError, Global};

/// A part of the search: the cliques that have all vertices of a first clique, and of the others only some that are left.
#[derive(Clone, Copy)]
struct Branch {
    clique: u32,
    left: u32,
}

impl Branch {
    /// Returns how many vertices its first clique has.
    fn size(self) -> usize {
        self.clique.count_ones() as usize
    }

    /// Returns whether a clique of this branch may have more vertices than that.
    fn may_exceed(self, size: usize) -> bool {
        (self.clique | self.left).count_ones() as usize > size
    }
}

/// Returns the profiles of a largest clique, in their order, if it has more of them than `size`, and else none. If so many steps
/// weren't enough, it is the largest clique that was found. The steps that were not taken are left.
pub(crate) fn largest_clique(
    alloc: Global,
    graph: &Graph,
    size: usize,
    steps: &mut usize,
) -> Result<Vec<usize>, AllocError> {
    let clique = largest_set(alloc, graph, size, steps)?;
    let mut profiles = Vec::new(alloc);
    for (vertex, profile) in graph.profiles().iter().enumerate() {
        if clique & set_of(vertex) != 0 {
            profiles.push(*profile)?;
        }
    }
    Ok(profiles)
}

/// Returns the set of its vertices.
fn largest_set(
    alloc: Global,
    graph: &Graph,
    size: usize,
    steps: &mut usize,
) -> Result<u32, AllocError> {
    let mut size = size;
    let mut largest = 0;
    let mut open = Vec::new(alloc);
    open.push(Branch {
        clique: 0,
        left: all_of(graph),
    })?;
    for _ in 0..*steps {
        *steps = steps.saturating_sub(1);
        let Some(branch) = open.pop() else {
            return Ok(largest);
        };
        if branch.size() > size {
            size = branch.size();
            largest = branch.clique;
        }
        if branch.left != 0 && branch.may_exceed(size) {
            split(graph, branch, &mut open)?;
        }
    }
    Ok(largest)
}

/// Opens the cliques of a branch with the first vertex that is left, and those without it. The former are searched first.
fn split(graph: &Graph, branch: Branch, open: &mut Vec<Branch>) -> Result<(), AllocError> {
    let vertex = branch.left.trailing_zeros() as usize;
    let own = set_of(vertex);
    let left = branch.left & !own;
    open.push(Branch {
        clique: branch.clique,
        left,
    })?;
    open.push(Branch {
        clique: branch.clique | own,
        left: left & graph.neighbours(vertex),
    })?;
    Ok(())
}

/// Returns the set of all vertices.
fn all_of(graph: &Graph) -> u32 {
    let mut all = 0;
    for vertex in 0..graph.profiles().len() {
        all |= set_of(vertex);
    }
    all
}
