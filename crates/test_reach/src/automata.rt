//! Questions about automata of specifications.
use crate::automaton::Automaton;
use anyhow::{Context, Result};
use hub_automaton::{SpecSet, Spots};
use std::alloc::{AllocError, Global};
use test_kit::{answer_or_fault, shown, three, two};

/// Returns whether one of the specifications matches what has been read of a text, after each of its characters.
pub(crate) fn walk(alloc: Global, fields: &str) -> Result<String> {
    let (specs, text) = two(fields)?;
    let automaton = Automaton::of_specs(alloc, specs)?;
    Ok(automaton.walk(alloc, text)?)
}

/// The same as `walk`, by states that are written over others. The first of those is a state of another automaton.
pub(crate) fn walk_in_place(alloc: Global, fields: &str) -> Result<String> {
    let (specs, text) = two(fields)?;
    let mut next = state_of(alloc, "Path a/*; BelowPath [a-c]?{x,y}", "a/b")?;
    let automaton = Automaton::of_specs(alloc, specs)?;
    Ok(automaton.walk_in_place(alloc, text, &mut next)?)
}

/// The state that a text leads to.
fn state_of(alloc: Global, specs: &str, text: &str) -> Result<Spots> {
    let automaton = Automaton::of_specs(alloc, specs)?;
    Ok(automaton.state_after(text)?)
}

/// Returns whether two texts lead to the same state.
pub(crate) fn kept(alloc: Global, fields: &str) -> Result<String> {
    let (specs, first, second) = three(fields)?;
    let automaton = Automaton::of_specs(alloc, specs)?;
    let said = compared(&automaton, first, second)?;
    shown(alloc, &said)
}

fn compared(automaton: &Automaton, first: &str, second: &str) -> Result<&'static str, AllocError> {
    let one = automaton.state_after(first)?;
    let other = automaton.state_after(second)?;
    Ok(comparison(&one, &other))
}

/// What `==` and `<` say of two states.
fn comparison(one: &Spots, other: &Spots) -> &'static str {
    match (one == other, one < other || other < one) {
        (true, false) => "the same",
        (false, true) => "not the same",
        _ => "equal and in order, or neither",
    }
}

/// How many words the start state has, and whether one of the specifications matches the empty text; or why there is no
/// automaton.
pub(crate) fn start(alloc: Global, specs: &str) -> Result<String> {
    let made = Automaton::of_specs(alloc, specs);
    answer_or_fault(
        alloc,
        &made,
        |automaton| Ok(start_text(alloc, &automaton.set)?),
    )
}

fn start_text(alloc: Global, set: &SpecSet) -> Result<String, AllocError> {
    let start = set.start()?;
    format!(in alloc; "{} {}", start.len(), set.matched(&start))
}

/// Returns whether one of the specifications matches a text, from that number on and up to that one.
pub(crate) fn range(alloc: Global, fields: &str) -> Result<String> {
    let (specs, text, numbers) = three(fields)?;
    let (from, to) = numbers_of(numbers)?;
    let automaton = Automaton::of_specs(alloc, specs)?;
    let matched = is_matched_in(&automaton, text, from, to)?;
    shown(alloc, &matched)
}

fn is_matched_in(
    automaton: &Automaton,
    text: &str,
    from: usize,
    to: usize,
) -> Result<bool, AllocError> {
    let state = automaton.state_after(text)?;
    Ok(automaton.set.matched_in(&state, from, to))
}

/// The two numbers of a range.
fn numbers_of(field: &str) -> Result<(usize, usize)> {
    let (from, to) = field.split_once(' ').context("a range has two numbers")?;
    Ok((from.parse::<usize>()?, to.parse::<usize>()?))
}
