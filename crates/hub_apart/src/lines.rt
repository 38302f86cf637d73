//! Lines of one or two profiles, with the numbers that these have among all.
ghost use Rattle.std.specs.Prelude.{◌≡◌, ◌++◌, map, OnOk};
ghost use Rattle.hub_apart.specs.ApartLines as said;

use hub_cert::{CheckFault, Goal, Place};
use hub_text::Items;
use std::alloc::AllocError;

/// The numbers of two profiles among all, or twice that of one.
#[derive(Clone, Copy)]
pub(crate) struct Numbers {
    pub first: usize,
    pub second: usize,
}

/// The line of two profiles with nested roots.
pub(crate) fn nested_line(numbers: Numbers) -> CheckFault
    ensures { result ≡ said.nested_line numbers.first numbers.second }
{
    CheckFault::Missing {
        goal: Goal::Clash {
            writer: numbers.first,
            other: numbers.second,
            place: Place::Archive,
        },
    }
}

/// Appends the line of each of these pairs of numbers.
pub(crate) fn push_pairs(
    lines: &mut Items<CheckFault>,
    pairs: &[(usize, usize)],
) -> Result<(), AllocError>
    ensures { OnOk result (lines.new ≡ said.with_pairs pairs.now lines.old) }
{
    for pair in pairs {
        lines.push(pair_line(*pair))?;
    }
    Ok(())
}

/// The line of two profiles of these numbers, as if their roots were nested.
fn pair_line(pair: (usize, usize)) -> CheckFault
    ensures { result ≡ said.pair_line pair }
{
    nested_line(Numbers {
        first: pair.0,
        second: pair.1,
    })
}

/// Appends lines of a set of these profiles.
pub(crate) fn push_lines(
    lines: &mut Vec<CheckFault>,
    found: Vec<CheckFault>,
    numbers: Numbers,
) -> Result<(), AllocError>
    ensures { OnOk result (said.AddsAmong numbers found.items lines.old.items lines.new.items) }
{
    for line in found {
        lines.push(line_among(numbers, line))?;
    }
    Ok(())
}

/// The line with the numbers that the profiles have among all.
pub(crate) fn line_among(numbers: Numbers, line: CheckFault) -> CheckFault
    ensures { result ≡ said.line_among numbers.first numbers.second line }
{
    match line {
        CheckFault::Overlap {
            writer,
            other,
            place,
            held,
            path,
        } => CheckFault::Overlap {
            writer: number_of(numbers, writer),
            other: number_of(numbers, other),
            place,
            held,
            path,
        },
        CheckFault::Breach {
            profile,
            rule,
            path,
        } => CheckFault::Breach {
            profile: number_of(numbers, profile),
            rule,
            path,
        },
        CheckFault::TooLarge { goal } => CheckFault::TooLarge {
            goal: goal_among(numbers, goal),
        },
        other => other,
    }
}

/// The goal with those numbers.
fn goal_among(numbers: Numbers, goal: Goal) -> Goal
    ensures { result ≡ said.goal_among numbers.first numbers.second goal }
{
    match goal {
        Goal::Clash {
            writer,
            other,
            place,
        } => Goal::Clash {
            writer: number_of(numbers, writer),
            other: number_of(numbers, other),
            place,
        },
        Goal::Breach { profile, rule } => Goal::Breach {
            profile: number_of(numbers, profile),
            rule,
        },
    }
}

/// The number of the first or of the second profile.
pub(crate) fn number_of(numbers: Numbers, number: usize) -> usize
    ensures { result ≡ said.number_of numbers.first numbers.second number }
{
    if number == 0 {
        numbers.first
    } else {
        numbers.second
    }
}
