//! What clashes in a set, and its rounds.
use crate::faults::fault_text;
use crate::sets::{members_of, set_of};
use anyhow::{Context, Result, bail};
use hub_apart::{Apart, are_put_apart, lines_apart, lines_in_unison};
use hub_cert::{CheckFault, Goal, Place};
use hub_profile::{Profile, Rules};
use hub_rounds::{
    NumberedRounds, Obstacle, Placed, Placing, Rounds, RoundsFault, clashes_of, rounds_by_lines,
    rounds_of, rounds_of_lines,
};
use hub_text::Items;
use std::alloc::{AllocError, Global};
use test_kit::{first, joined, shown};

/// What the goals of a set show, each as a fault; or `nothing`.
pub(crate) fn clashes_answer(alloc: Global, fields: &str) -> Result<String> {
    let set = set_of(alloc, fields)?;
    let clashes = clashes_of(alloc, &set)?;
    lines_text(alloc, clashes.lines())
}

fn lines_text(alloc: Global, lines: &[CheckFault]) -> Result<String> {
    if lines.is_empty() {
        return shown(alloc, &"nothing");
    }
    joined(alloc, lines, " / ", |line| Ok(fault_text(alloc, line)?))
}

/// The profiles of each round, how many rounds are needed, and who is in none, where roots of profiles may be nested; or `not apart`
/// if none are, or something else keeps these from being a set.
pub(crate) fn apart_answer(alloc: Global, fields: &str) -> Result<String> {
    let (profiles, rules) = members_of(alloc, fields)?;
    if !are_put_apart(profiles.as_slice(), rules.as_slice()) {
        return shown(alloc, &"not apart");
    }
    apart_text(alloc, lines_apart(alloc, profiles, rules))
}

fn apart_text(alloc: Global, searched: Result<Apart, CheckFault>) -> Result<String> {
    match searched {
        Ok(
            Apart {
                profiles,
                rules,
                lines,
            },
        ) => cut_text(alloc, profiles, rules, lines.as_slice()),
        Err(fault) => Ok(fault_text(alloc, &fault)?),
    }
}

fn cut_text(
    alloc: Global,
    profiles: Items<Profile>,
    rules: Rules,
    lines: &[CheckFault],
) -> Result<String> {
    made_text(alloc, &rounds_by_lines(alloc, profiles, rules, lines))
}

/// The profiles of each round, how many rounds are needed, and who is in none.
pub(crate) fn rounds_answer(alloc: Global, fields: &str) -> Result<String> {
    let set = set_of(alloc, fields)?;
    let clashes = clashes_of(alloc, &set)?;
    made_text(alloc, &rounds_of(alloc, Box::into_inner(set), &clashes))
}

/// The numbers of each round, how many rounds are needed, and which are in none.
pub(crate) fn numbers_answer(alloc: Global, fields: &str) -> Result<String> {
    let set = set_of(alloc, fields)?;
    let clashes = clashes_of(alloc, &set)?;
    let rounds = rounds_of_lines(alloc, set.profiles().len(), clashes.lines())?;
    Ok(numbers_text(alloc, &rounds)?)
}

fn numbers_text(alloc: Global, rounds: &NumberedRounds) -> Result<String, AllocError> {
    let mut said = Vec::new(alloc);
    for round in rounds.rounds.as_slice() {
        said.push(list_text(alloc, round.as_slice())?)?;
    }
    for left in rounds.left.as_slice() {
        let number = left.number;
        let reason = left.reason;
        said.push(format!(in alloc; "{number} {reason:?}")?)?;
    }
    let rivals = list_text(alloc, rounds.rivals.as_slice())?;
    said.push(format!(in alloc; "at least {rivals}")?)?;
    said.as_slice().join(alloc, " | ")
}

fn list_text(alloc: Global, numbers: &[usize]) -> Result<String, AllocError> {
    let mut texts = Vec::new(alloc);
    for number in numbers {
        texts.push(format!(in alloc; "{number}")?)?;
    }
    texts.as_slice().join(alloc, " ")
}

/// How many rounds so many numbers have, and how many are needed, if these pairs of them clash.
pub(crate) fn pairs_answer(alloc: Global, fields: &str) -> Result<String> {
    let (count, pairs) = first(fields)?;
    let lines = lines_of_pairs(alloc, pairs)?;
    let rounds = rounds_of_lines(alloc, count.parse::<usize>()?, lines.as_slice())?;
    Ok(counts_text(alloc, &rounds)?)
}

fn lines_of_pairs(alloc: Global, pairs: &str) -> Result<Vec<CheckFault>> {
    let mut lines = Vec::new(alloc);
    for pair in pairs.split(" | ") {
        lines.push(line_of_pair(pair)?)?;
    }
    Ok(lines)
}

/// A line about two numbers. Where they meet doesn't matter to rounds.
fn line_of_pair(pair: &str) -> Result<CheckFault> {
    let (writer, other) = pair.split_once(' ').context("a pair has two numbers")?;
    Ok(CheckFault::TooLarge {
        goal: Goal::Clash {
            writer: writer.parse::<usize>()?,
            other: other.parse::<usize>()?,
            place: Place::Archive,
        },
    })
}

fn counts_text(alloc: Global, rounds: &NumberedRounds) -> Result<String, AllocError> {
    let count = rounds.rounds.len();
    let least = rounds.rivals.len();
    format!(in alloc; "{count} rounds | at least {least}")
}

/// The lines of the profiles in Unison, by who writes; or why there are none.
pub(crate) fn unison_answer(alloc: Global, fields: &str) -> Result<String> {
    let (profiles, rules) = members_of(alloc, fields)?;
    match lines_in_unison(alloc, profiles, rules) {
        Ok(found) => lines_text(alloc, found.by_writer()?.lines.as_slice()),
        Err(fault) => Ok(fault_text(alloc, &fault)?),
    }
}

fn made_text(alloc: Global, made: &Result<Rounds, RoundsFault>) -> Result<String> {
    match made {
        Ok(rounds) => Ok(rounds_text(alloc, rounds)?),
        Err(fault) => bail!("no rounds: {fault:?}"),
    }
}

fn rounds_text(alloc: Global, rounds: &Rounds) -> Result<String, AllocError> {
    let mut said = Vec::new(alloc);
    for round in rounds.rounds.as_slice() {
        said.push(names_text(alloc, round.as_slice())?)?;
    }
    for left in rounds.left.as_slice() {
        said.push(left_text(alloc, left)?)?;
    }
    let least = rounds.rivals.len();
    said.push(format!(in alloc; "at least {least}")?)?;
    said.as_slice().join(alloc, " | ")
}

fn names_text(alloc: Global, profiles: &[Profile]) -> Result<String, AllocError> {
    let mut names = Vec::new(alloc);
    for profile in profiles {
        names.push(String::from_str(alloc, profile.name().text())?)?;
    }
    names.as_slice().join(alloc, " ")
}

fn left_text(alloc: Global, left: &Placed) -> Result<String, AllocError> {
    let name = left.profile.name().text();
    match left.placing {
        Placing::Unplaced(Obstacle::Breach(rule)) => format!(in alloc; "breach {rule} {name}"),
        Placing::Unplaced(Obstacle::TooLarge(rule)) => format!(in alloc; "too large {rule} {name}"),
        Placing::Round(_) => format!(in alloc; "a round {name}"),
    }
}
