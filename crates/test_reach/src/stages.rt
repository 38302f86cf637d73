//! Questions about the numbers of stages, and about those of specifications' states.
use crate::given::{alphabet_with, profile_ignoring, profile_of};
use crate::numbers::{Numbers, numbers_of};
use anyhow::Result;
use hub_automaton::{Alphabet, ClassSet};
use hub_reach::{SpecTable, Table};
use std::alloc::{AllocError, Global};
use test_kit::{digit, three, two};

/// For each of these texts in turn the number of its stage and what the table says of it, and then how many stages were
/// found.
pub(crate) fn stages(alloc: Global, fields: &str) -> Result<String> {
    let (lines, texts) = two(fields)?;
    let profile = profile_of(alloc, lines)?;
    numbers_of::<Table>(alloc, &profile, texts)
}

/// For each of these texts in turn the number of its state and whether it is matched, and then how many states were found.
pub(crate) fn states(alloc: Global, fields: &str) -> Result<String> {
    let (specs, texts) = two(fields)?;
    let profile = profile_ignoring(alloc, specs)?;
    numbers_of::<SpecTable>(alloc, &profile, texts)
}

/// For each of these characters whether its class may lead from the start elsewhere than class 0 does, as `0` and `1`.
pub(crate) fn distinguishing_classes(alloc: Global, fields: &str) -> Result<String> {
    let (lines, path, characters) = three(fields)?;
    let profile = profile_of(alloc, lines)?;
    let alphabet = alphabet_with(alloc, path, &profile)?;
    let mut table = Table::of_profile(alloc, &profile, &alphabet)?;
    Ok(open_text(alloc, &alphabet, &mut table, characters)?)
}

fn open_text(
    alloc: Global,
    alphabet: &Alphabet,
    table: &mut Table,
    characters: &str,
) -> Result<String, AllocError> {
    let start = table.start()?;
    let mut splits = ClassSet::new(alloc, table.walker().class_count())?;
    table.distinguishing_classes(start, &mut splits);
    let mut digits = String::new(alloc);
    for character in characters.chars() {
        digits.push(digit(is_open(alphabet, &splits, character)))?;
    }
    Ok(digits)
}

fn is_open(alphabet: &Alphabet, splits: &ClassSet, character: char) -> bool {
    match alphabet.class_of(character) {
        Some(class) => splits.has(class),
        None => false,
    }
}
