//! A guess at which profiles may run at the same time.
//!
//! Nothing is stated of it. The profiles of one colour are checked, and what is found of clashes is looked at where it is used.

use crate::by_parts::guess_by_parts;
use crate::colouring::{colours_by_turns, count_in, turns_by_clashes};
use crate::graph::{Graph, STEPS, set_of};
use crate::largest::largest_clique;
use crate::named::Named;
use crate::painting::fewer_colours;
use std::alloc::{AllocError, Global};

/// The colours of profiles, and some of which each two clash.
#[derive(Drop)]
pub(crate) struct Guess {
    /// The colour of each profile that has no line of its own.
    pub(crate) colours: Vec<Option<usize>>,
    /// The profiles of the largest clique that a search found, if there was one.
    pub(crate) clique: Vec<usize>,
}

/// How more profiles are coloured than a graph has.
#[derive(Clone, Copy)]
pub(crate) enum Method {
    /// All together, in turn.
    InTurn,
    /// Each connected part of the clashes by itself.
    ByParts,
}

/// Colours the profiles that have no line of their own. If they have a graph, the colours are searched for, and else they are
/// found by that method.
pub(crate) fn guess_of(alloc: Global, named: &Named, method: Method) -> Result<Guess, AllocError> {
    match (Graph::new(alloc, named)?, method) {
        (Some(graph), _) => guess_by_search(alloc, named, &graph),
        (None, Method::InTurn) => guess_in_turn(alloc, named),
        (None, Method::ByParts) => guess_by_parts(alloc, named),
    }
}

/// Colours the profiles of a graph in turn. Then other colours are searched for: with fewer of them, but at least so many as a
/// largest clique has profiles.
fn guess_by_search(alloc: Global, named: &Named, graph: &Graph) -> Result<Guess, AllocError> {
    let mut steps = STEPS;
    let clique = largest_clique(alloc, graph, 0, &mut steps)?;
    let turns = turns_by_clashes(alloc, named)?;
    let mut colours = colours_by_turns(alloc, named, turns.as_slice())?;
    let count = count_in(colours.as_slice());
    let mut steps = STEPS;
    if let Some(classes) = fewer_colours(alloc, graph, clique.len(), count, &mut steps)? {
        paint(&mut colours, graph, classes.as_slice());
    }
    Ok(Guess { colours, clique })
}

/// Colours all profiles in turn, and searches for no clique.
fn guess_in_turn(alloc: Global, named: &Named) -> Result<Guess, AllocError> {
    let turns = turns_by_clashes(alloc, named)?;
    Ok(Guess {
        colours: colours_by_turns(alloc, named, turns.as_slice())?,
        clique: Vec::new(alloc),
    })
}

/// Gives the profiles of a graph these colours, where these are the vertices of each colour.
pub(crate) fn paint(colours: &mut Vec<Option<usize>>, graph: &Graph, classes: &[u32]) {
    for (vertex, profile) in graph.profiles().iter().enumerate() {
        let own = classes
            .iter()
            .position(|class| *class & set_of(vertex) != 0);
        if let Some(colour) = colours.get_mut(*profile) {
            *colour = own;
        }
    }
}
