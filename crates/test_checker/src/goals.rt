//! Goals, which are written as in docs/CERTIFICATES.md: `clash 0 1 root 0`, `clash 0 1 archive`, `breach 0 1`.
use crate::sets::set_of;
use anyhow::{Context, Result, bail};
use hub_cert::{Goal, Place, ProfileSet};
use hub_path::Side;
use std::alloc::{AllocError, Global};
use test_kit::{first, list_of, yes_or_no};

/// The goals of a set, or `none`.
pub(crate) fn goals_answer(alloc: Global, fields: &str) -> Result<String> {
    let set = set_of(alloc, fields)?;
    goals_text(alloc, &set)
}

fn goals_text(alloc: Global, set: &ProfileSet) -> Result<String> {
    list_of(
        alloc,
        set.goals(alloc)?.as_slice(),
        |goal| Ok(goal_text(alloc, *goal)?),
    )
}

/// Returns whether a set has a goal.
pub(crate) fn has_answer(alloc: Global, fields: &str) -> Result<String> {
    let (goal, fields) = first(fields)?;
    let goal = goal_of(goal)?;
    let set = set_of(alloc, fields)?;
    yes_or_no(alloc, set.has(goal))
}

/// Reads a goal.
pub(crate) fn goal_of(text: &str) -> Result<Goal> {
    let (word, numbers) = text.split_once(' ').unwrap_or((text, ""));
    match word {
        "clash" => clash_of(numbers),
        "breach" => breach_of(numbers),
        _ => bail!("no goal: {text}"),
    }
}

fn clash_of(text: &str) -> Result<Goal> {
    let (writer, rest) = text.split_once(' ').context("a clash has two profiles")?;
    let (other, place) = rest.split_once(' ').context("a clash has a place")?;
    Ok(Goal::Clash {
        writer: writer.parse::<usize>()?,
        other: other.parse::<usize>()?,
        place: place_of(place)?,
    })
}

fn breach_of(text: &str) -> Result<Goal> {
    let (profile, rule) = text.split_once(' ').context("a breach has a rule")?;
    Ok(Goal::Breach {
        profile: profile.parse::<usize>()?,
        rule: rule.parse::<usize>()?,
    })
}

fn place_of(text: &str) -> Result<Place> {
    match text {
        "root 0" => Ok(Place::Replica(Side::Left)),
        "root 1" => Ok(Place::Replica(Side::Right)),
        "archive" => Ok(Place::Archive),
        _ => bail!("no place: {text}"),
    }
}

/// How a goal is written.
pub(crate) fn goal_text(alloc: Global, goal: Goal) -> Result<String, AllocError> {
    match goal {
        Goal::Clash {
            writer,
            other,
            place,
        } => format!(in alloc; "clash {writer} {other} {}", place_text(place)),
        Goal::Breach { profile, rule } => format!(in alloc; "breach {profile} {rule}"),
    }
}

fn place_text(place: Place) -> &'static str {
    match place {
        Place::Replica(Side::Left) => "root 0",
        Place::Replica(Side::Right) => "root 1",
        Place::Archive => "archive",
    }
}
