//! Colours of profiles, part by part.
//!
//! No profiles of different parts clash. So as many colours will do as the part needs that needs the most.

use crate::colouring::{colours_by_turns, count_in, turns_among, turns_by_clashes};
use crate::graph::{Graph, STEPS};
use crate::guess::{Guess, paint};
use crate::largest::largest_clique;
use crate::named::Named;
use crate::painting::fewer_colours;
use crate::parts::{Parts, parts_of};
use std::alloc::{AllocError, Global};

/// The most steps that the searches for cliques may take in all graphs together, and as many may those for colours (this
/// project's choice). In one graph they may take `STEPS` of these.
const ALL_STEPS: usize = 20 * STEPS;

/// Colours the profiles that have no line of their own: all of them in turn, then those of the large parts again by themselves.
/// For the parts that have a graph, fewer colours are searched for. No search is made where a part needs no more colours than
/// another one needs.
pub(crate) fn guess_by_parts(alloc: Global, named: &Named) -> Result<Guess, AllocError> {
    let Parts { graphs, large } = parts_of(alloc, named)?;
    let turns = turns_by_clashes(alloc, named)?;
    let mut colours = colours_by_turns(alloc, named, turns.as_slice())?;
    colour_apart(alloc, &mut colours, named, large.as_slice())?;
    let clique = clique_among(alloc, graphs.as_slice(), colours.as_slice())?;
    let least = count_among(colours.as_slice(), large.as_slice()).max(clique.len());
    paint_all(alloc, &mut colours, graphs.as_slice(), least)?;
    Ok(Guess { colours, clique })
}

/// Colours these profiles by themselves, and gives them these colours if they are fewer.
fn colour_apart(
    alloc: Global,
    colours: &mut Vec<Option<usize>>,
    named: &Named,
    profiles: &[usize],
) -> Result<(), AllocError> {
    let turns = turns_among(alloc, named, profiles)?;
    let others = colours_by_turns(alloc, named, turns.as_slice())?;
    if count_in(others.as_slice()) < count_among(colours.as_slice(), profiles) {
        put_all(colours, others.as_slice());
    }
    Ok(())
}

/// Gives each profile the colour that it has among the others, if it has one there.
fn put_all(colours: &mut Vec<Option<usize>>, others: &[Option<usize>]) {
    for (own, other) in colours.iter_mut().zip(others) {
        if other.is_some() {
            *own = *other;
        }
    }
}

/// Returns the profiles of a largest clique of these graphs. It has at most one profile of each colour.
fn clique_among(
    alloc: Global,
    graphs: &[Graph],
    colours: &[Option<usize>],
) -> Result<Vec<usize>, AllocError> {
    let mut steps = ALL_STEPS;
    let mut largest = Vec::new(alloc);
    for graph in graphs {
        if count_among(colours, graph.profiles()) > largest.len() {
            let mut own = share_of(&mut steps);
            let clique = largest_clique(alloc, graph, largest.len(), &mut own)?;
            steps = steps.saturating_add(own);
            if !clique.is_empty() {
                largest = clique;
            }
        }
    }
    Ok(largest)
}

/// Gives the profiles of each graph as few colours as were found. Fewer than `least` aren't searched for, nor fewer than a graph
/// before has.
fn paint_all(
    alloc: Global,
    colours: &mut Vec<Option<usize>>,
    graphs: &[Graph],
    least: usize,
) -> Result<(), AllocError> {
    let mut steps = ALL_STEPS;
    let mut least = least;
    for graph in graphs {
        let mut own = share_of(&mut steps);
        paint_one(alloc, colours, graph, least, &mut own)?;
        steps = steps.saturating_add(own);
        least = least.max(count_among(colours.as_slice(), graph.profiles()));
    }
    Ok(())
}

/// Gives the profiles of a graph as few colours as were found in so many steps, but at least so many colours.
fn paint_one(
    alloc: Global,
    colours: &mut Vec<Option<usize>>,
    graph: &Graph,
    least: usize,
    steps: &mut usize,
) -> Result<(), AllocError> {
    let count = count_among(colours.as_slice(), graph.profiles());
    if let Some(classes) = fewer_colours(alloc, graph, least, count, steps)? {
        paint(colours, graph, classes.as_slice());
    }
    Ok(())
}

/// Takes the steps of one graph from those that are left.
fn share_of(steps: &mut usize) -> usize {
    let share = STEPS.min(*steps);
    *steps = steps.saturating_sub(share);
    share
}

/// Returns one more than the greatest colour that these profiles have.
fn count_among(colours: &[Option<usize>], profiles: &[usize]) -> usize {
    let mut count = 0;
    for profile in profiles {
        if let Some(Some(colour)) = colours.get(*profile) {
            count = count.max(colour.saturating_add(1));
        }
    }
    count
}
