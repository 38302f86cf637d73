//! What clashes in a set, its rounds, and how these are written.
ghost use Rattle.std.specs.Prelude.{◌≡◌, string_bytes, IfOk, OnOk};
ghost use Rattle.std.specs.List.{flat_map};
ghost use Rattle.hub_report.specs.Texts.{Gains};
ghost use Rattle.hub_report.specs.Rounds as lines;

use crate::parts::push_all;
use crate::refusal::name_at;
use crate::totals::Totals;
use hub_profile::Profile;
use hub_rounds::{LeftOut, NumberedRounds, Obstacle, Placed, Placing, Rounds};
use hub_text::Items;
use std::alloc::{AllocError, Global};

/// Rounds of a set.
#[derive(Drop)]
pub struct Cut {
    /// The lines of the rounds, and of the profiles that are in none.
    pub text: String,
    /// Whether each profile is in a round, and no goal was too large to be searched.
    pub decided: bool,
    /// Lines for standard error: two profiles each that count as clashing, since their goal was too large.
    pub undecided: String,
    /// The numbers of what clashes, if the profiles were judged as Unison may run them.
    pub totals: Option<Totals>,
}

/// How many rounds there are and how many are needed at least, then the profiles of each round, and those that are in none.
pub fn text_of_rounds(alloc: Global, rounds: &Rounds) -> Result<String, AllocError>
    ensures { IfOk result (λ t. string_bytes t ≡ lines.rounds_text rounds.now) }
{
    let mut text = counts_text(alloc, rounds.rounds.len(), rounds.rivals.len())?;
    push_rounds(alloc, &mut text, rounds.rounds.as_slice())?;
    push_left(alloc, &mut text, rounds.left.as_slice())?;
    Ok(text)
}

/// The lines that say how many rounds there are, and how many are needed at least.
fn counts_text(alloc: Global, found: usize, least: usize) -> Result<String, AllocError>
    ensures { IfOk result (λ t. string_bytes t ≡ lines.counts_text found least) }
{
    format!(in alloc; "rounds {found}\nat least {least}\n")
}

/// Adds the lines of rounds, of which the first has the number 1.
fn push_rounds(
    alloc: Global,
    text: &mut String,
    rounds: &[Items<Profile>],
) -> Result<(), AllocError>
    ensures { OnOk result (Gains text.old text.new (lines.lines_of_rounds 1 rounds.now)) }
{
    let mut number: usize = 0;
    for round in rounds {
        number += 1;
        let shown = format!(in alloc; "{number}")?;
        push_round(text, shown.as_str(), round.as_slice())?;
    }
    Ok(())
}

/// Adds the lines of the profiles of a round.
fn push_round(text: &mut String, number: &str, profiles: &[Profile]) -> Result<(), AllocError>
    ensures { OnOk result (Gains text.old text.new
        (flat_map (lines.line_in number.now) profiles.now)) }
{
    for profile in profiles {
        push_all(text, &["round ", number, " ", profile.name().text(), "\n"])?;
    }
    Ok(())
}

/// Adds the lines of the profiles that are in no round.
fn push_left(alloc: Global, text: &mut String, left: &[Placed]) -> Result<(), AllocError>
    ensures { OnOk result (Gains text.old text.new (flat_map lines.left_line left.now)) }
{
    for placed in left {
        push_placed(alloc, text, placed)?;
    }
    Ok(())
}

/// Adds the line of a profile that is in no round.
fn push_placed(alloc: Global, text: &mut String, placed: &Placed) -> Result<(), AllocError>
    ensures { OnOk result (Gains text.old text.new (lines.left_line placed.now)) }
{
    match placed.placing {
        Placing::Round(_) => Ok(()),
        Placing::Unplaced(reason) => push_reason(alloc, text, placed.profile.name().text(), reason),
    }
}

/// Adds the line that says why a profile of that name is in no round.
fn push_reason(
    alloc: Global,
    text: &mut String,
    name: &str,
    reason: Obstacle,
) -> Result<(), AllocError>
    ensures { OnOk result (Gains text.old text.new (lines.reason_line name.now reason)) }
{
    match reason {
        Obstacle::Breach(rule) => push_rule(alloc, text, "breach ", rule, name),
        Obstacle::TooLarge(rule) => push_rule(alloc, text, "too large ", rule, name),
    }
}

/// Adds the line that says by which rule a profile is in no round.
fn push_rule(
    alloc: Global,
    text: &mut String,
    reason: &str,
    rule: usize,
    name: &str,
) -> Result<(), AllocError>
    ensures { OnOk result (Gains text.old text.new (lines.rule_line reason.now rule name.now)) }
{
    let rule = format!(in alloc; "{rule}")?;
    push_all(text, &[reason, rule.as_str(), " ", name, "\n"])
}

/// The same of rounds of numbers of these profiles.
pub fn text_of_numbers(
    alloc: Global,
    profiles: &[Profile],
    rounds: &NumberedRounds,
) -> Result<String, AllocError>
    ensures { IfOk result (λ t. string_bytes t ≡ lines.numbers_text profiles.now rounds.now) }
{
    let mut text = counts_text(alloc, rounds.rounds.len(), rounds.rivals.len())?;
    push_numbered(alloc, &mut text, profiles, rounds.rounds.as_slice())?;
    push_left_out(alloc, &mut text, profiles, rounds.left.as_slice())?;
    Ok(text)
}

/// Adds the lines of rounds of numbers, of which the first has the number 1.
fn push_numbered(
    alloc: Global,
    text: &mut String,
    profiles: &[Profile],
    rounds: &[Items<usize>],
) -> Result<(), AllocError>
    ensures { OnOk result (Gains text.old text.new
        (lines.lines_of_numbers profiles.now 1 rounds.now)) }
{
    let mut number: usize = 0;
    for round in rounds {
        number += 1;
        let shown = format!(in alloc; "{number}")?;
        push_numbers(text, profiles, shown.as_str(), round.as_slice())?;
    }
    Ok(())
}

/// Adds the lines of the profiles of these numbers in a round.
fn push_numbers(
    text: &mut String,
    profiles: &[Profile],
    number: &str,
    round: &[usize],
) -> Result<(), AllocError>
    ensures { OnOk result (Gains text.old text.new
        (flat_map (lines.number_line profiles.now number.now) round.now)) }
{
    for own in round {
        push_all(
            text,
            &["round ", number, " ", name_at(profiles, *own), "\n"],
        )?;
    }
    Ok(())
}

/// Adds the lines of the profiles that are left out.
fn push_left_out(
    alloc: Global,
    text: &mut String,
    profiles: &[Profile],
    left: &[LeftOut],
) -> Result<(), AllocError>
    ensures { OnOk result (Gains text.old text.new
        (flat_map (lines.left_out_line profiles.now) left.now)) }
{
    for own in left {
        push_reason(alloc, text, name_at(profiles, own.number), own.reason)?;
    }
    Ok(())
}
