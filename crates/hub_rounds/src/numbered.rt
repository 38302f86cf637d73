//! Rounds of numbers of profiles, by lines alone.
ghost use Rattle.std.specs.Prelude.{◌≡◌, IfOk};
ghost use Rattle.hub_rounds.specs.Numbered as said;
ghost use Rattle.hub_rounds.specs.Numbered.{AreRoundsOfLines};

use crate::guess::Method;
use crate::placing::{Obstacle, Placing};
use crate::standing::{Standing, standing_of};
use hub_cert::CheckFault;
use hub_text::Items;
use std::alloc::{AllocError, Global};

/// The numbers of profiles, by rounds.
#[derive(Debug, Drop)]
pub struct NumberedRounds {
    /// The numbers of each round, in their order.
    pub rounds: Items<Items<usize>>,
    /// The numbers that are in no round, in their order.
    pub left: Items<LeftOut>,
    /// The numbers of profiles of which each two clash, or were too large to decide. If none was, fewer rounds won't do. No
    /// other number could be added.
    pub rivals: Items<usize>,
}

/// The number of a profile that is in no round, and why.
#[derive(Clone, Copy, Debug, PartialEq, Eq)]
pub struct LeftOut {
    /// The profile's number.
    pub number: usize,
    /// Why it is in no round.
    pub reason: Obstacle,
}

/// Cuts the numbers below the count into rounds by these lines. The rounds aren't checked: they are as good as the lines are.
///
/// A number is left out exactly if a line is about it alone, and the first breach is reported, if there is one. Each other number
/// is in exactly one round. No line is about two numbers of a round, or about one of them alone. How many numbers a round has
/// isn't limited. What is kept while they are cut grows with the numbers and the lines.
///
/// If at most 24 numbers are in rounds, the rounds are those of [`crate::rounds_by_lines`]. If there are more, each connected part of
/// the clashes is searched by itself that has at most 24 numbers. Tests show that the rounds are the fewest, and the rivals the most,
/// where no part has more. All parts together may take 20 times the steps that one may take. So how long the searches take is
/// bounded, and with very many parts that are hard to search there may be more rounds than are needed.
pub fn rounds_of_lines(
    alloc: Global,
    count: usize,
    lines: &[CheckFault],
) -> Result<NumberedRounds, AllocError>
    ensures { IfOk result (AreRoundsOfLines count lines.now) }
{
    let Standing {
        placings,
        rounds,
        rivals,
    } = standing_of(alloc, count, lines, Method::ByParts)?;
    Ok(NumberedRounds {
        rounds: numbered(alloc, placings.as_slice(), rounds)?,
        left: left_out(alloc, placings.as_slice())?,
        rivals,
    })
}

/// Returns the numbers of each of so many rounds.
fn numbered(
    alloc: Global,
    placings: &[Placing],
    count: usize,
) -> Result<Items<Items<usize>>, AllocError>
    ensures { IfOk result (λ rs. rs ≡ said.numbered count placings.now) }
{
    let mut rounds = Items::new(alloc);
    for round in 0..count {
        let own = numbers_in_round(alloc, placings, round)?;
        rounds.push(own)?;
    }
    Ok(rounds)
}

/// Returns the numbers of a round.
fn numbers_in_round(
    alloc: Global,
    placings: &[Placing],
    round: usize,
) -> Result<Items<usize>, AllocError>
    ensures { IfOk result (λ ns. ns ≡ said.numbers_in_round round placings.now) }
{
    let mut numbers = Items::new(alloc);
    for number in 0..placings.len() {
        if placings[number].is_round(round) {
            numbers.push(number)?;
        }
    }
    Ok(numbers)
}

/// Returns the numbers that are in no round, and why.
fn left_out(alloc: Global, placings: &[Placing]) -> Result<Items<LeftOut>, AllocError>
    ensures { IfOk result (λ ls. ls ≡ said.left_out placings.now) }
{
    let mut left = Items::new(alloc);
    for number in 0..placings.len() {
        if let Placing::Unplaced(reason) = placings[number] {
            left.push(LeftOut { number, reason })?;
        }
    }
    Ok(left)
}
