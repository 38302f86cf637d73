//! The lines for standard error: which two profiles count as clashing, since their goal was too large.
ghost use Rattle.std.specs.Prelude.{◌≡◌, IfOk, OnOk, string_bytes};
ghost use Rattle.hub_report.specs.Texts.{Gains};
ghost use Rattle.hub_report.specs.Undecided as lines;

use crate::pair::{Pair, are_joined};
use crate::parts::push_all;
use crate::refusal::name_at;
use hub_cert::{CheckFault, Goal};
use hub_profile::Profile;
use std::alloc::{AllocError, Global};

/// The most pairs of profiles that have a line of their own (this project's choice).
pub const NAMED: usize = 4;

/// Lines for standard error: the two profiles of each clash that was too large to be searched, who writes and who reaches, in
/// the order of these faults. No two profiles are named twice. The first `NAMED` pairs have a line each, and all others one line.
pub fn undecided_pairs(
    alloc: Global,
    profiles: &[Profile],
    faults: &[CheckFault],
) -> Result<String, AllocError>
    ensures { IfOk result (λ t. string_bytes t ≡ lines.undecided_lines profiles.now faults.now) }
{
    let mut text = String::new(alloc);
    let mut told = Vec::new(alloc);
    for fault in faults {
        push_new(&mut text, &mut told, profiles, undecided_in(fault))?;
    }
    Ok(text)
}

/// The two profiles of a fault, if it is that their clash is too large.
fn undecided_in(fault: &CheckFault) -> Option<Pair>
    ensures { result ≡ lines.undecided_in fault.now }
{
    match fault {
        CheckFault::TooLarge { goal } => pair_of_goal(*goal),
        _ => None,
    }
}

/// The two profiles of a clash.
pub(crate) fn pair_of_goal(goal: Goal) -> Option<Pair>
    ensures { result ≡ lines.clashing_pair goal }
{
    match goal {
        Goal::Clash { writer, other, .. } => Some(Pair { writer, other }),
        Goal::Breach { .. } => None,
    }
}

/// Adds the line of two profiles below those of others, if there are any and they get one.
fn push_new(
    text: &mut String,
    told: &mut Vec<Pair>,
    profiles: &[Profile],
    pair: Option<Pair>,
) -> Result<(), AllocError>
    ensures text { OnOk result (Gains text.old text.new
        (lines.new_line profiles.now told.old.items pair)) }
    ensures told { OnOk result (told.new.items ≡ lines.told_after told.old.items pair) }
{
    let Some(pair) = pair else {
        return Ok(());
    };
    if is_new(told.as_slice(), pair) {
        push_line(text, profiles, told.len(), pair)?;
        told.push(pair)?;
    }
    Ok(())
}

/// Returns whether two profiles get a line, where these have one.
fn is_new(told: &[Pair], pair: Pair) -> bool
    ensures { result ≡ lines.is_new told.now pair }
{
    if told.len() > NAMED {
        return false;
    }
    !are_joined(told, pair)
}

/// Adds the line of two profiles below so many others: it names them, or says that there are others.
fn push_line(
    text: &mut String,
    profiles: &[Profile],
    number: usize,
    pair: Pair,
) -> Result<(), AllocError>
    ensures { OnOk result (Gains text.old text.new (lines.line_after profiles.now number pair)) }
{
    if number < NAMED {
        push_pair(text, profiles, pair)
    } else {
        text.push_str(
            "hubsync: too large to decide for others, too: clashes --dot draws all of them\n",
        )
    }
}

/// Adds the line that names two profiles.
fn push_pair(text: &mut String, profiles: &[Profile], pair: Pair) -> Result<(), AllocError>
    ensures { OnOk result (Gains text.old text.new (lines.pair_line profiles.now pair)) }
{
    let writer = name_at(profiles, pair.writer);
    let other = name_at(profiles, pair.other);
    push_all(
        text,
        &[
            "hubsync: too large to decide, so in different rounds: ",
            writer,
            " and ",
            other,
            "\n",
        ],
    )
}
