//! Where profiles stand.
ghost use Rattle.std.specs.Prelude.{◌≡◌, ◌↔◌, ◌<◌, ◌≤◌, ℕ, None, Some, true, false, length, slice_get, option_map, IfOk, IfSome};
ghost use Rattle.hub_cert.specs.declared.fault.CheckFault.{CheckFault};
ghost use Rattle.std.specs.List.{find, list_any};
ghost use Rattle.hub_rounds.specs.Lines as said;
ghost use Rattle.hub_rounds.specs.Lines.{HasNoOwnLine, HasOwnLine, IsFirstReason};
ghost use Rattle.hub_rounds.specs.Named.{AreLinesOf, AreNoted, alone_at};
ghost use Rattle.hub_rounds.specs.Numbered.{AreNumbersPlaced, AreNumbersSplit, AreRoundsUsed, IsFreeFor};
ghost use Rattle.hub_rounds.specs.Numbered.{NumberStandsIn, StandsFree};
ghost use Rattle.hub_rounds.specs.Rounds.{IsPlaced, OpensRounds, is_in_round, is_in_some};
ghost use Rattle.hub_rounds.specs.declared.placing.Placing.TheVariants.{Round};

use crate::named::Named;
use crate::subject::{Subject, subject_of};
use hub_cert::CheckFault;
use hub_profile::Profile;
use std::alloc::{AllocError, Global};

/// Where a profile stands.
#[derive(Clone, Copy, Debug, PartialEq, Eq)]
pub enum Placing {
    /// In the round of this number, from 0 on.
    Round(usize),
    /// In no round.
    Unplaced(Obstacle),
}

/// Why a profile is in no round. Rules are numbered from 0 on.
#[derive(Clone, Copy, Debug, PartialEq, Eq)]
pub enum Obstacle {
    /// It may break this rule.
    Breach(usize),
    /// Whether it may break this rule has too many stages to be searched.
    TooLarge(usize),
}

/// A profile, and where it stands.
#[derive(Debug, Drop)]
pub struct Placed {
    /// The profile.
    pub profile: Profile,
    /// Where it stands.
    pub placing: Placing,
}

impl Placing {
    /// Returns whether this is the round of that number.
    pub fn is_round(self, round: usize) -> bool
        ensures { result ≡ is_in_round round self }
    {
        match self {
            Placing::Round(own) => own == round,
            Placing::Unplaced(_) => false,
        }
    }

    /// Returns whether this is a round.
    pub fn is_in_a_round(self) -> bool
        ensures { result ≡ is_in_some self }
    {
        match self {
            Placing::Round(_) => true,
            Placing::Unplaced(_) => false,
        }
    }
}

/// Says of each number below the count where it stands, and how many rounds there are. A number with a line of its own is in no
/// round. The rounds are those of the colours, in the order of their first numbers.
pub(crate) fn place_each(
    alloc: Global,
    lines: &[CheckFault],
    named: &Named,
    colours: &[Option<usize>],
    count: usize,
) -> Result<(Vec<Placing>, usize), AllocError>
    requires noted { AreNoted lines.now named.now.lists.items }
    requires count { count ≤ length named.now.lists.items }
    ensures all { IfOk result (λ r. length r.0.items ≡ count) }
    ensures told { IfOk result (λ r. AreNumbersPlaced lines.now r.1 r.0.items) }
    ensures split { IfOk result (λ r. AreNumbersSplit lines.now r.0.items) }
    ensures used { IfOk result (λ r. AreRoundsUsed r.1 r.0.items) }
{
    let mut placings = Vec::with_capacity(alloc, count)?;
    let mut seen = Vec::new(alloc);
    for number in 0..count {
        let colour = colour_at(colours, number);
        let placing = placing_of(&mut seen, lines, named, colour, placings.as_slice())?;
        placings.push(placing)?;
    }
    Ok((placings, seen.len()))
}

/// Says where the next profile stands, which has this colour, after those that are placed. These are the colours of the rounds so
/// far.
fn placing_of(
    seen: &mut Vec<usize>,
    lines: &[CheckFault],
    named: &Named,
    colour: usize,
    placed: &[Placing],
) -> Result<Placing, AllocError>
    requires noted { AreNoted lines.now named.now.lists.items }
    requires number { length placed.now < length named.now.lists.items }
    ensures told { IfOk result (IsPlaced lines.now (length seen.new.items) (length placed.now)) }
    ensures grows { length seen.old.items ≤ length seen.new.items }
    ensures opened { IfOk result (OpensRounds (length seen.old.items) (length seen.new.items)) }
    ensures free { IfOk result
        (StandsFree lines.now placed.now (length seen.old.items) (length placed.now)) }
{
    let number = placed.len();
    let own = named.lines_of(number);
    match own_reason(lines, own, number) {
        Some(reason) => Ok(Placing::Unplaced(reason)),
        None => {
            let round = round_of(seen, lines, own, placed, colour)?;
            Ok(Placing::Round(round))
        }
    }
}

/// Returns the colour of the profile of that number. One that has none gets that of the first profile.
fn colour_at(colours: &[Option<usize>], number: usize) -> usize {
    match colours.get(number) {
        Some(Some(colour)) => *colour,
        _ => 0,
    }
}

/// Returns why the profile of that number is in no round, if there is a line about it alone: the first breach, if there is one.
/// All lines are looked at if one of its own lines is about it alone.
fn own_reason(lines: &[CheckFault], own: &[usize], number: usize) -> Option<Obstacle>
    requires { AreLinesOf lines.now own.now number }
    ensures own { IfSome result (HasOwnLine lines.now number) }
    ensures first { IfSome result (IsFirstReason lines.now number) }
    ensures none { result ≡ None → HasNoOwnLine lines.now number }
{
    if !has_own_line(lines, own, number) {
        return None;
    }
    let line = first_alone(lines, number)?;
    match first_breach(lines, number) {
        Some(own) => reason_of(own, number),
        None => reason_of(line, number),
    }
}

/// Returns whether one of these lines is about the profile of that number alone.
fn has_own_line(lines: &[CheckFault], own: &[usize], number: usize) -> bool
    ensures { result ≡ list_any (alone_at lines.now number) own.now }
{
    own.iter().any(|line| is_alone_at(lines, *line, number))
}

/// Returns whether the line of that number is about the profile alone.
fn is_alone_at(lines: &[CheckFault], line: usize, number: usize) -> bool
    ensures { result ≡ alone_at lines.now number line }
{
    match lines.get(line) {
        Some(own) => is_alone(own, number),
        None => false,
    }
}

/// Returns the first line about the profile of that number alone.
fn first_alone(lines: &[CheckFault], number: usize) -> Option<&CheckFault>
    ensures { option_map (λ e. e.now) result
        ≡ find (λ e. said.names_alone number (said.subject_of e)) lines.now }
{
    lines.iter().find(|line| is_alone(line, number))
}

/// Returns whether the line is about the profile of that number alone.
fn is_alone(line: &CheckFault, number: usize) -> bool
    ensures { result ≡ said.names_alone number (said.subject_of line.now) }
{
    match subject_of(line) {
        Subject::Alone { profile, .. } => profile == number,
        _ => false,
    }
}

/// Returns the first line that says that the profile of that number may break a rule.
fn first_breach(lines: &[CheckFault], number: usize) -> Option<&CheckFault>
    ensures { option_map (λ e. e.now) result ≡ said.first_breach lines.now number }
{
    lines.iter().find(|line| tells_breach(line, number))
}

/// Returns whether the line says that the profile of that number may break a rule.
fn tells_breach(line: &CheckFault, number: usize) -> bool
    ensures { result ≡ said.tells_breach number (said.subject_of line.now) }
{
    match subject_of(line) {
        Subject::Alone {
            profile,
            reason: Obstacle::Breach(_),
        } => profile == number,
        _ => false,
    }
}

/// Returns why the profile of that number is in no round, if the line is about it alone.
fn reason_of(line: &CheckFault, number: usize) -> Option<Obstacle>
    ensures { result ≡ said.reason_in number (said.subject_of line.now) }
{
    let Subject::Alone { profile, reason } = subject_of(line) else {
        return None;
    };
    if profile == number {
        Some(reason)
    } else {
        None
    }
}

/// Returns the round of a colour for the next profile, which has these lines of its own. A colour that has none gets the next
/// one, and so does a profile that isn't free to stand in the round of its colour.
fn round_of(
    seen: &mut Vec<usize>,
    lines: &[CheckFault],
    own: &[usize],
    placed: &[Placing],
    colour: usize,
) -> Result<usize, AllocError>
    requires { AreLinesOf lines.now own.now (length placed.now) }
    ensures below { IfOk result (λ k. k < length seen.new.items) }
    ensures grows { length seen.old.items ≤ length seen.new.items }
    ensures opened { IfOk result (λ k. OpensRounds (length seen.old.items) (length seen.new.items)
        (Round k)) }
    ensures free { IfOk result (λ k. k < length seen.old.items
        → IsFreeFor lines.now placed.now k (length placed.now)) }
{
    if let Some(round) = seen.iter().position(|other| *other == colour) {
        if is_free_for(lines, own, placed, round, placed.len()) {
            return Ok(round);
        }
    }
    let round = seen.as_slice().len();
    seen.push(colour)?;
    Ok(round)
}

/// Returns whether no profile stands in the round with which that one has a line. All its lines are looked at.
fn is_free_for(
    lines: &[CheckFault],
    own: &[usize],
    placed: &[Placing],
    round: usize,
    number: usize,
) -> bool
    requires { AreLinesOf lines.now own.now number }
    ensures { result ≡ true → IsFreeFor lines.now placed.now round number }
{
    for line in own {
        if names_one_at(lines, *line, placed, round, number) {
            return false;
        }
    }
    true
}

/// Returns whether the line at that place is about that profile and one that stands in the round.
fn names_one_at(
    lines: &[CheckFault],
    line: usize,
    placed: &[Placing],
    round: usize,
    number: usize,
) -> bool
    ensures { result ≡ false → (e : CheckFault) → slice_get lines.now line ≡ Some e
        → (j : ℕ) → NumberStandsIn placed.now round j
        → said.names_pair (said.subject_of e) j number ≡ true → ⊥ }
{
    match lines.get(line) {
        Some(own) => names_one_of(own, placed, round, number),
        None => false,
    }
}

/// Returns whether the line is about that profile and one that stands in the round.
fn names_one_of(line: &CheckFault, placed: &[Placing], round: usize, number: usize) -> bool
    ensures { result ≡ false → (j : ℕ) → NumberStandsIn placed.now round j
        → said.names_pair (said.subject_of line.now) j number ≡ true → ⊥ }
{
    match other_of(line, number) {
        Some(other) => stands_in(placed, round, other),
        None => false,
    }
}

/// Returns the other profile of a line about that one and another.
fn other_of(line: &CheckFault, number: usize) -> Option<usize>
    ensures { (j : ℕ) → said.names_pair (said.subject_of line.now) j number ≡ true
        → result ≡ Some j }
{
    match subject_of(line) {
        Subject::Pair { writer, other } if writer == number => Some(other),
        Subject::Pair { writer, other } if other == number => Some(writer),
        _ => None,
    }
}

/// Returns whether the profile of that number stands in the round.
fn stands_in(placed: &[Placing], round: usize, number: usize) -> bool
    ensures { result ≡ true ↔ NumberStandsIn placed.now round number }
{
    match placed.get(number) {
        Some(own) => own.is_round(round),
        None => false,
    }
}
