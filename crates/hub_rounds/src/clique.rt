//! Profiles of which each two clash: each needs a round of its own.
ghost use Rattle.std.specs.Prelude.{◌≡◌, ◌↔◌, ◌<◌, ◌≤◌, true, length, IfOk, OnOk};
ghost use Rattle.std.specs.List.{list_any};
ghost use Rattle.hub_rounds.specs.Lines as said;
ghost use Rattle.hub_rounds.specs.Lines.{HasPair, names_pair};
ghost use Rattle.hub_rounds.specs.Named.{AreLinesOf, AreNoted, pair_at};
ghost use Rattle.hub_rounds.specs.Numbered.{AreAllRivals, AreRivalNumbers, NumberIsInRound, NumberMayJoin};

use crate::greedy::clique_by_turns;
use crate::named::Named;
use crate::placing::Placing;
use crate::subject::{Subject, subject_of};
use hub_cert::CheckFault;
use hub_text::Items;
use std::alloc::{AllocError, Global};

/// Returns profiles of rounds of which each two clash: those of `clique_by_turns`, or of the profiles that are given those that
/// clash with all before them, if these are more. Nobody else clashes with all of them.
pub(crate) fn rivals_of(
    alloc: Global,
    lines: &[CheckFault],
    named: &Named,
    placed: &[Placing],
    given: &[usize],
) -> Result<Items<usize>, AllocError>
    requires noted { AreNoted lines.now named.now.lists.items }
    requires count { length placed.now ≤ length named.now.lists.items }
    ensures rivals { IfOk result (AreRivalNumbers lines.now placed.now) }
    ensures whole { IfOk result (AreAllRivals lines.now placed.now) }
{
    let clique = clique_by_turns(alloc, named)?;
    let mut rivals = rivals_among(alloc, lines, named, placed, clique.as_slice())?;
    let others = rivals_among(alloc, lines, named, placed, given)?;
    if others.len() > rivals.len() {
        rivals = others;
    }
    join_each(&mut rivals, lines, named, placed)?;
    Ok(Items::from_vec(rivals))
}

/// Returns profiles of rounds of which each two clash: of these each that clashes with all before it.
fn rivals_among(
    alloc: Global,
    lines: &[CheckFault],
    named: &Named,
    placed: &[Placing],
    profiles: &[usize],
) -> Result<Vec<usize>, AllocError>
    ensures { IfOk result (λ v. AreRivalNumbers lines.now placed.now v.items) }
{
    let mut rivals = Vec::new(alloc);
    for profile in profiles {
        join(&mut rivals, lines, named, placed, *profile)?;
    }
    Ok(rivals)
}

/// Adds each profile that is in a round and clashes with all that are there. All lines about it are looked at.
fn join_each(
    rivals: &mut Vec<usize>,
    lines: &[CheckFault],
    named: &Named,
    placed: &[Placing],
) -> Result<(), AllocError>
    requires rivals { AreRivalNumbers lines.now placed.now rivals.old.items }
    requires noted { AreNoted lines.now named.now.lists.items }
    requires count { length placed.now ≤ length named.now.lists.items }
    ensures rivals { OnOk result (AreRivalNumbers lines.now placed.now rivals.new.items) }
    ensures whole { OnOk result (AreAllRivals lines.now placed.now rivals.new.items) }
{
    for profile in 0..placed.len() {
        if may_join_surely(rivals.as_slice(), lines, named, placed, profile) {
            rivals.push(profile)?;
        }
    }
    Ok(())
}

/// Returns whether a profile is in a round and clashes with all of these.
fn may_join_surely(
    rivals: &[usize],
    lines: &[CheckFault],
    named: &Named,
    placed: &[Placing],
    profile: usize,
) -> bool
    requires noted { AreNoted lines.now named.now.lists.items }
    requires profile { profile < length named.now.lists.items }
    ensures { result ≡ true ↔ NumberMayJoin lines.now placed.now rivals.now profile }
{
    let own = named.lines_of(profile);
    is_in_round(placed, profile)
        && rivals
            .iter()
            .all(|rival| clash_surely(lines, named, own, *rival, profile))
}

/// Returns whether a line says that both profiles clash. If none is noted, all lines about the second one are looked at: its own.
fn clash_surely(
    lines: &[CheckFault],
    named: &Named,
    own: &[usize],
    one: usize,
    other: usize,
) -> bool
    requires { AreLinesOf lines.now own.now other }
    ensures { result ≡ true ↔ HasPair lines.now one other }
{
    if clash(lines, named, one, other) {
        return true;
    }
    are_named(lines, own, one, other)
}

/// Returns whether one of these lines is about both profiles.
fn are_named(lines: &[CheckFault], own: &[usize], one: usize, other: usize) -> bool
    ensures { result ≡ list_any (pair_at lines.now one other) own.now }
{
    own.iter()
        .any(|line| names_both_at(lines, *line, one, other))
}

/// Returns whether the line of that number is about these two profiles.
fn names_both_at(lines: &[CheckFault], line: usize, one: usize, other: usize) -> bool
    ensures { result ≡ pair_at lines.now one other line }
{
    match lines.get(line) {
        Some(own) => names_both(own, one, other),
        None => false,
    }
}

/// Adds a profile, if it is in a round and clashes with all that are there.
fn join(
    rivals: &mut Vec<usize>,
    lines: &[CheckFault],
    named: &Named,
    placed: &[Placing],
    profile: usize,
) -> Result<(), AllocError>
    requires { AreRivalNumbers lines.now placed.now rivals.old.items }
    ensures { OnOk result (AreRivalNumbers lines.now placed.now rivals.new.items) }
{
    if may_join(rivals.as_slice(), lines, named, placed, profile) {
        rivals.push(profile)?;
    }
    Ok(())
}

/// Returns whether a profile is in a round and clashes with all of these.
fn may_join(
    rivals: &[usize],
    lines: &[CheckFault],
    named: &Named,
    placed: &[Placing],
    profile: usize,
) -> bool
    ensures { result ≡ true → NumberMayJoin lines.now placed.now rivals.now profile }
{
    is_in_round(placed, profile)
        && rivals
            .iter()
            .all(|rival| clash(lines, named, *rival, profile))
}

/// Returns whether the profile of that number is in a round.
fn is_in_round(placed: &[Placing], profile: usize) -> bool
    ensures { result ≡ true ↔ NumberIsInRound placed.now profile }
{
    match placed.get(profile) {
        Some(own) => own.is_in_a_round(),
        None => false,
    }
}

/// Returns whether a line says that both profiles clash.
fn clash(lines: &[CheckFault], named: &Named, one: usize, other: usize) -> bool
    ensures { result ≡ true → HasPair lines.now one other }
{
    let Some(line) = named.pair_line(one, other) else {
        return false;
    };
    let Some(own) = lines.get(line) else {
        return false;
    };
    names_both(own, one, other)
}

/// Returns whether the line is about these two profiles, either way round.
fn names_both(line: &CheckFault, one: usize, other: usize) -> bool
    ensures { result ≡ names_pair (said.subject_of line.now) one other }
{
    match subject_of(line) {
        Subject::Pair {
            writer,
            other: reached,
        } => { (writer == one && reached == other) || (writer == other && reached == one) }
        Subject::Alone { .. } | Subject::Nothing => false,
    }
}
