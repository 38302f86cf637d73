//! Colours of profiles: two that clash are to have different ones.
//!
//! Nothing is stated of colours. The profiles of one colour are checked.

use crate::named::Named;
use std::alloc::{AllocError, Global};

/// How many times the profiles are coloured again (this project's choice).
const PASSES: usize = 8;

/// A profile's turn to be coloured. Turns come by rank, then by colour, then by profile.
#[derive(Clone, Copy, Debug, PartialEq, Eq, PartialOrd, Ord)]
pub(crate) struct Turn {
    rank: usize,
    colour: usize,
    pub(crate) profile: usize,
}

impl Turn {
    /// Makes the turn of a profile: the greatest weights come first.
    fn new(weight: usize, colour: usize, profile: usize) -> Turn {
        Turn {
            rank: usize::MAX - weight,
            colour,
            profile,
        }
    }
}

/// Colours the profiles that have these turns, and no others, and returns the colour of each. Then they are coloured again
/// `PASSES` times, and if this takes fewer colours, the last colours are returned, else the first ones.
pub(crate) fn colours_by_turns(
    alloc: Global,
    named: &Named,
    turns: &[Turn],
) -> Result<Vec<Option<usize>>, AllocError> {
    let first = colour_in_turn(alloc, named, turns)?;
    let last = colour_again(alloc, named, first.as_slice())?;
    if count_in(last.as_slice()) < count_in(first.as_slice()) {
        Ok(last)
    } else {
        Ok(first)
    }
}

/// Colours the profiles again `PASSES` times, colour by colour: the last colour first, or the one with the most profiles, in
/// turn. No pass takes more colours than the one before it.
fn colour_again(
    alloc: Global,
    named: &Named,
    first: &[Option<usize>],
) -> Result<Vec<Option<usize>>, AllocError> {
    let mut colours = Vec::from_slice(alloc, first)?;
    for pass in 0..PASSES {
        let turns = turns_by_colours(alloc, colours.as_slice(), pass % 2 == 0)?;
        colours = colour_in_turn(alloc, named, turns.as_slice())?;
    }
    Ok(colours)
}

/// Returns how many colours there are. The colours below the greatest are all there.
pub(crate) fn count_in(colours: &[Option<usize>]) -> usize {
    let mut count = 0;
    for own in colours {
        if let Some(colour) = *own {
            count = count.max(colour.saturating_add(1));
        }
    }
    count
}

/// Returns the turns of the profiles that have no line of their own: those with the most clashes first.
pub(crate) fn turns_by_clashes(alloc: Global, named: &Named) -> Result<Vec<Turn>, AllocError> {
    let mut turns = Vec::new(alloc);
    for profile in 0..named.len() {
        if named.own_line(profile).is_none() {
            turns.push(Turn::new(named.degree(profile), 0, profile))?;
        }
    }
    turns.sort()?;
    Ok(turns)
}

/// Returns the turns of these profiles: those with the most clashes first.
pub(crate) fn turns_among(
    alloc: Global,
    named: &Named,
    profiles: &[usize],
) -> Result<Vec<Turn>, AllocError> {
    let mut turns = Vec::with_capacity(alloc, profiles.len())?;
    for profile in profiles {
        turns.push(Turn::new(named.degree(*profile), 0, *profile))?;
    }
    turns.sort()?;
    Ok(turns)
}

/// Returns the turns of the profiles that have a colour, colour by colour.
fn turns_by_colours(
    alloc: Global,
    colours: &[Option<usize>],
    is_last_first: bool,
) -> Result<Vec<Turn>, AllocError> {
    let counts = counts_of(alloc, colours)?;
    let mut turns = Vec::new(alloc);
    for (profile, own) in colours.iter().enumerate() {
        if let Some(colour) = *own {
            let weight = if is_last_first {
                colour
            } else {
                count_at(counts.as_slice(), colour)
            };
            turns.push(Turn::new(weight, colour, profile))?;
        }
    }
    turns.sort()?;
    Ok(turns)
}

/// Returns how many profiles have each colour. No colour is greater than the number of profiles.
fn counts_of(alloc: Global, colours: &[Option<usize>]) -> Result<Vec<usize>, AllocError> {
    let mut counts = Vec::new(alloc);
    counts.resize(colours.len(), 0usize)?;
    for own in colours {
        if let Some(colour) = *own {
            if let Some(count) = counts.get_mut(colour) {
                *count = count.saturating_add(1);
            }
        }
    }
    Ok(counts)
}

/// Returns how many profiles have the colour.
fn count_at(counts: &[usize], colour: usize) -> usize {
    match counts.get(colour) {
        Some(count) => *count,
        None => 0,
    }
}

/// Gives each profile in its turn the least colour that no profile has with which it clashes.
fn colour_in_turn(
    alloc: Global,
    named: &Named,
    turns: &[Turn],
) -> Result<Vec<Option<usize>>, AllocError> {
    let mut colours = Vec::new(alloc);
    colours.resize(named.len(), None)?;
    let mut taken = Vec::new(alloc);
    taken.resize(named.len(), false)?;
    for turn in turns {
        let colour = free_colour(named, colours.as_slice(), &mut taken, turn.profile);
        if turn.profile < colours.len() {
            colours[turn.profile] = Some(colour);
        }
    }
    Ok(colours)
}

/// Returns the least colour that no neighbour of the profile has. There are fewer neighbours than colours. No colour is taken
/// before, and none after.
fn free_colour(
    named: &Named,
    colours: &[Option<usize>],
    taken: &mut Vec<bool>,
    profile: usize,
) -> usize {
    set_taken(named, colours, taken, profile, true);
    let free = taken.iter().position(|is_taken| !*is_taken).unwrap_or(0);
    set_taken(named, colours, taken, profile, false);
    free
}

/// Says of each colour of the profile's neighbours whether it is taken.
fn set_taken(
    named: &Named,
    colours: &[Option<usize>],
    taken: &mut Vec<bool>,
    profile: usize,
    is_taken: bool,
) {
    for other in named.neighbours_of(profile) {
        if let Some(Some(colour)) = colours.get(other.profile) {
            if let Some(own) = taken.get_mut(*colour) {
                *own = is_taken;
            }
        }
    }
}
