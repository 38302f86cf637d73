//! The lines of what clashes in Unison.
ghost use Rattle.std.specs.Prelude.{◌≡◌, IfOk, OnOk, slice_get, string_bytes};
ghost use Rattle.hub_report.specs.InUnison as lines;
ghost use Rattle.hub_report.specs.Refusal.{shown_place_of};
ghost use Rattle.hub_report.specs.Texts.{Gains};

use crate::archive::push_archives;
use crate::overlap::unison_shown;
use crate::plan::nested_why;
use crate::refusal::{name_at, place_text};
use hub_cert::{CheckFault, Goal, Place};
use hub_profile::{Profile, Rule};
use hub_search::STAGES;
use std::alloc::{AllocError, Global};

/// The lines of faults of one or two of these profiles, each as if it were the only one, and then those of profiles of these
/// numbers, which share an archive. They name profiles and no goals.
pub fn lines_in_unison(
    alloc: Global,
    profiles: &[Profile],
    rules: &[Rule],
    faults: &[CheckFault],
    archives: &[(usize, usize)],
) -> Result<String, AllocError>
    ensures { IfOk result (λ t. string_bytes t
        ≡ lines.all_lines_in profiles.now rules.now faults.now archives.now) }
{
    let mut text = String::new(alloc);
    push_lines(alloc, &mut text, profiles, rules, faults)?;
    push_archives(alloc, &mut text, profiles, archives)?;
    Ok(text)
}

/// Adds the line of each of these faults.
fn push_lines(
    alloc: Global,
    text: &mut String,
    profiles: &[Profile],
    rules: &[Rule],
    faults: &[CheckFault],
) -> Result<(), AllocError>
    ensures { OnOk result (Gains text.old text.new
        (lines.unison_lines_in profiles.now rules.now faults.now)) }
{
    for fault in faults {
        let line = line_in_unison(alloc, profiles, rules, fault)?;
        text.push_str(line.as_str())?;
    }
    Ok(())
}

/// The line of a fault of one or two of these profiles: a path that shows it, that its goal is too large, or that roots of the two
/// are nested.
pub fn line_in_unison(
    alloc: Global,
    profiles: &[Profile],
    rules: &[Rule],
    fault: &CheckFault,
) -> Result<String, AllocError>
    ensures { IfOk result (λ t. string_bytes t
        ≡ lines.unison_line_in profiles.now rules.now fault.now) }
{
    match fault {
        CheckFault::TooLarge { goal } => large_line(alloc, profiles, *goal),
        CheckFault::Missing { goal } => nested_why(alloc, profiles, *goal),
        _ => unison_shown(alloc, profiles, rules, fault),
    }
}

/// The line of a goal that has too many stages.
fn large_line(alloc: Global, profiles: &[Profile], goal: Goal) -> Result<String, AllocError>
    ensures { IfOk result (λ t. string_bytes t ≡ lines.large_line profiles.now goal) }
{
    match goal {
        Goal::Clash {
            writer,
            other,
            place,
        } => {
            let place = place_at(alloc, profiles, writer, place)?;
            large_clash_line(
                alloc,
                name_at(profiles, writer),
                place.as_str(),
                name_at(profiles, other),
                STAGES,
            )
        }
        Goal::Breach { profile, rule } => {
            large_breach_line(alloc, name_at(profiles, profile), rule, STAGES)
        }
    }
}

/// The root of the profile of that number at the place, or both roots for an archive.
fn place_at(
    alloc: Global,
    profiles: &[Profile],
    writer: usize,
    place: Place,
) -> Result<String, AllocError>
    ensures { IfOk result (λ t. string_bytes t
        ≡ shown_place_of (slice_get profiles.now writer) place) }
{
    place_text(alloc, profiles.get(writer), place)
}

/// The line of a clash that has too many stages.
fn large_clash_line(
    alloc: Global,
    writer: &str,
    place: &str,
    other: &str,
    stages: usize,
) -> Result<String, AllocError>
    ensures { IfOk result (λ t. string_bytes t
        ≡ lines.large_clash_line writer.now place.now other.now stages) }
{
    format!(in alloc;
        "too large: {writer} writes at {place}, {other} reaches: more than {stages} stages\n"
    )
}

/// The line of a breach that has too many stages.
fn large_breach_line(
    alloc: Global,
    name: &str,
    rule: usize,
    stages: usize,
) -> Result<String, AllocError>
    ensures { IfOk result (λ t. string_bytes t
        ≡ lines.large_breach_line name.now rule stages) }
{
    format!(in alloc; "too large: {name}, rule {rule}: more than {stages} stages\n")
}
