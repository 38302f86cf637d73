//! Refusals of profiles and rules, and the line of each.
ghost use Rattle.std.specs.Prelude.{◌≡◌, [], IfOk, Option, None, Some, true, string_bytes};
ghost use Rattle.hub_cert.specs.Refused.{IsRefused};
ghost use Rattle.hub_cert.specs.Set.{Members};
ghost use Rattle.hub_report.specs.Refusal as lines;
ghost use Rattle.hub_report.specs.Refusal.{OfWriter};
ghost use Rattle.hub_report.specs.Report as report;
ghost use Rattle.hub_report.specs.Rounds.{clash_lines, lines_of_all};

use crate::archive::push_archives;
use crate::parts::joined;
use crate::report::{OUT_OF_MEMORY, Report};
use crate::told::Refusal;
use hub_automaton::AutomatonFault;
use hub_cert::{CheckFault, Goal, Place, ProfileSet};
use hub_path::{RelPath, Root, Side};
use hub_profile::{Profile, Rule, Verb};
use hub_rounds::Clashes;
use hub_search::STAGES;
use std::alloc::{AllocError, Global};

impl<'a> Report<'a> {
    /// The answer that refuses a set by its fault.
    pub fn refusal(alloc: Global, set: &ProfileSet, fault: &CheckFault) -> Report<'a>
        ensures refusal { report.TellsRefusal set.now fault.now result }
        ensures read { report.unread_by result ≡ None }
    {
        let Ok(goals) = set.goals(alloc) else {
            return Report::OutOfMemory;
        };
        match fault {
            CheckFault::OutOfMemory => Report::OutOfMemory,
            fault => {
                let Ok(refusal) = Refusal::of(set.rules(), fault) else {
                    return Report::OutOfMemory;
                };
                match fault_line(alloc, set.profiles(), set.rules(), goals.as_slice(), fault) {
                    Ok(line) => Report::Refused(line, refusal),
                    Err(_) => Report::OutOfMemory,
                }
            }
        }
    }

    /// The answer if there is no set, because of that fault. Such a fault has no numbers.
    pub fn refusal_without_set(alloc: Global, fault: &CheckFault) -> Report<'a>
        ensures refusal { (S : Members) → IsRefused S fault.now
            → report.TellsRefusal S fault.now result }
        ensures line { (S : Members) → report.has_no_numbers fault.now ≡ true
            → report.TellsRefusal S fault.now result }
        ensures read { report.unread_by result ≡ None }
    {
        match fault {
            CheckFault::OutOfMemory => Report::OutOfMemory,
            fault => {
                let Ok(refusal) = Refusal::of(&[], fault) else {
                    return Report::OutOfMemory;
                };
                match fault_line(alloc, &[], &[], &[], fault) {
                    Ok(line) => Report::Refused(line, refusal),
                    Err(_) => Report::OutOfMemory,
                }
            }
        }
    }
}

/// The lines of what clashes in a set and of what breaks a rule, each as if it were the only one, and then those of profiles of
/// these numbers, which share an archive.
pub fn lines_of_clashes(
    alloc: Global,
    set: &ProfileSet,
    clashes: &Clashes,
    archives: &[(usize, usize)],
) -> Result<String, AllocError>
    ensures { IfOk result (λ t. string_bytes t
        ≡ lines_of_all set.now clashes.now archives.now) }
{
    let mut text = lines_of_faults(alloc, set, clashes)?;
    push_archives(alloc, &mut text, set.profiles(), archives)?;
    Ok(text)
}

/// The lines of what clashes in a set and of what breaks a rule.
fn lines_of_faults(alloc: Global, set: &ProfileSet, clashes: &Clashes) -> Result<String, AllocError>
    ensures { IfOk result (λ t. string_bytes t ≡ clash_lines set.now clashes.now) }
{
    let goals = set.goals(alloc)?;
    let profiles = set.profiles();
    let rules = set.rules();
    let faults = clashes.lines();
    let mut text = String::new(alloc);
    for fault in faults {
        let line = fault_line(alloc, profiles, rules, goals.as_slice(), fault)?;
        text.push_str(line.as_str())?;
    }
    Ok(text)
}

/// The line of a fault, which ends with LF. Its numbers are those of these profiles, rules and goals.
fn fault_line(
    alloc: Global,
    profiles: &[Profile],
    rules: &[Rule],
    goals: &[Goal],
    fault: &CheckFault,
) -> Result<String, AllocError>
    ensures { IfOk result (λ t. string_bytes t
        ≡ lines.line_of_fault profiles.now rules.now goals.now fault.now) }
{
    match fault {
        CheckFault::TooManyProfiles => String::from_str(alloc, "refused: TooManyProfiles\n"),
        CheckFault::SameName { name } => joined(alloc, &["refused: SameName ", name.text(), "\n"]),
        CheckFault::NestedRoots { first, second } => nested_line(alloc, first, second),
        CheckFault::Overlap { .. } | CheckFault::Breach { .. } => {
            shown_line(alloc, profiles, rules, fault)
        }
        CheckFault::Stray { certificate } => stray_line(alloc, *certificate),
        CheckFault::BadText { line } => bad_text_line(alloc, *line),
        CheckFault::AlphabetFault(fault) => alphabet_line(alloc, *fault),
        CheckFault::OutOfMemory => String::from_str(alloc, OUT_OF_MEMORY),
        _ => line_of_goal(alloc, goals, fault),
    }
}

/// The line of a fault that shows a path, or nothing for another fault.
pub(crate) fn shown_line(
    alloc: Global,
    profiles: &[Profile],
    rules: &[Rule],
    fault: &CheckFault,
) -> Result<String, AllocError>
    ensures { IfOk result (λ t. string_bytes t
        ≡ lines.line_with_path profiles.now rules.now fault.now) }
{
    match fault {
        CheckFault::Overlap {
            writer,
            other,
            place,
            held,
            path,
        } => overlap_line(alloc, profiles, *writer, *other, *place, held, path),
        CheckFault::Breach {
            profile,
            rule,
            path,
        } => breach_line(alloc, name_at(profiles, *profile), rules, *rule, path),
        _ => Ok(String::new(alloc)),
    }
}

/// The line of a fault of a goal, or nothing for another fault.
fn line_of_goal(alloc: Global, goals: &[Goal], fault: &CheckFault) -> Result<String, AllocError>
    ensures { IfOk result (λ t. string_bytes t ≡ lines.line_of_goal goals.now fault.now) }
{
    match fault {
        CheckFault::TooLarge { goal } => too_large_line(alloc, number_of(goals, *goal), STAGES),
        CheckFault::Missing { goal } => goal_line(alloc, number_of(goals, *goal), "Missing"),
        CheckFault::NoStart { goal } => goal_line(alloc, number_of(goals, *goal), "NoStart"),
        CheckFault::NotClosed { goal, stage, class } => {
            not_closed_line(alloc, number_of(goals, *goal), *stage, *class)
        }
        CheckFault::Accepting { goal, stage } => {
            accepting_line(alloc, number_of(goals, *goal), *stage)
        }
        _ => Ok(String::new(alloc)),
    }
}

fn nested_line(alloc: Global, first: &Root, second: &Root) -> Result<String, AllocError>
    ensures { IfOk result (λ t. string_bytes t ≡ lines.nested_line first.now second.now) }
{
    let first = first.text()?;
    let second = second.text()?;
    let parts = [
        "refused: NestedRoots ",
        first.as_str(),
        " and ",
        second.as_str(),
        "\n",
    ];
    joined(alloc, &parts)
}

fn overlap_line(
    alloc: Global,
    profiles: &[Profile],
    writer: usize,
    other: usize,
    place: Place,
    held: &RelPath,
    path: &RelPath,
) -> Result<String, AllocError>
    ensures { IfOk result (λ t. string_bytes t
        ≡ lines.overlap_line profiles.now writer other place held.now path.now) }
{
    let held = held.text()?;
    let place = place_text(alloc, profiles.get(writer), place)?;
    let path = path.text()?;
    let parts = [
        "overlap: ",
        name_at(profiles, writer),
        " writes ",
        held.as_str(),
        " at ",
        place.as_str(),
        ", ",
        name_at(profiles, other),
        " reaches ",
        path.as_str(),
        "\n",
    ];
    joined(alloc, &parts)
}

/// The name of the profile of that number, or nothing if there is none.
pub(crate) fn name_at(profiles: &[Profile], number: usize) -> &str
    ensures { result.now ≡ lines.name_at profiles.now number }
{
    match profiles.get(number) {
        Some(profile) => profile.name().text(),
        None => "",
    }
}

/// The writer's root at the place, or both roots for an archive.
pub(crate) fn place_text(
    alloc: Global,
    writer: Option<&Profile>,
    place: Place,
) -> Result<String, AllocError>
    ensures { OfWriter writer.entry
        (λ W. IfOk result (λ t. string_bytes t ≡ lines.shown_place_of W place)) }
{
    let Some(writer) = writer else {
        return Ok(String::new(alloc));
    };
    let roots = writer.roots();
    match place {
        Place::Replica(Side::Left) => roots[0].text(),
        Place::Replica(Side::Right) => roots[1].text(),
        Place::Archive => archive_text(alloc, &roots[0], &roots[1]),
    }
}

fn archive_text(alloc: Global, left: &Root, right: &Root) -> Result<String, AllocError>
    ensures { IfOk result (λ t. string_bytes t ≡ lines.archive_text left.now right.now) }
{
    let left = left.text()?;
    let right = right.text()?;
    joined(
        alloc,
        &["archive of ", left.as_str(), " and ", right.as_str()],
    )
}

/// The line of a breach, or nothing if there is no rule of that number.
pub(crate) fn breach_line(
    alloc: Global,
    name: &str,
    rules: &[Rule],
    number: usize,
    path: &RelPath,
) -> Result<String, AllocError>
    ensures { IfOk result (λ t. string_bytes t
        ≡ lines.breach_at name.now rules.now number path.now) }
{
    let Some(rule) = rules.get(number) else {
        return Ok(String::new(alloc));
    };
    let path = path.text()?;
    let root = rule.root.text()?;
    let number = format!(in alloc; "{number}")?;
    let parts = [
        "breach: ",
        name,
        " may ",
        verb_text(rule.verb),
        " ",
        path.as_str(),
        " at ",
        root.as_str(),
        ", rule ",
        number.as_str(),
        "\n",
    ];
    joined(alloc, &parts)
}

fn verb_text<'a>(verb: Verb) -> &'a str
    ensures { result.now ≡ lines.verb_text verb }
{
    match verb {
        Verb::Create => "create",
        Verb::Update => "update",
        Verb::Delete => "delete",
    }
}

/// The number of the goal in the list, from 0 on.
fn number_of(goals: &[Goal], goal: Goal) -> usize
    ensures { result ≡ lines.number_of goals.now goal }
{
    let mut number = 0;
    for own in goals {
        if is_same_goal(*own, goal) {
            return number;
        }
        number += 1;
    }
    number
}

fn is_same_goal(own: Goal, goal: Goal) -> bool
    ensures { result ≡ lines.is_same_goal own goal }
{
    own == goal
}

fn too_large_line(alloc: Global, goal: usize, stages: usize) -> Result<String, AllocError>
    ensures { IfOk result (λ t. string_bytes t ≡ lines.too_large_line goal stages) }
{
    format!(in alloc; "too large: goal {goal} has more than {stages} stages\n")
}

/// The line of what is wrong with the certificate of the goal of that number.
fn goal_line(alloc: Global, goal: usize, wrong: &str) -> Result<String, AllocError>
    ensures { IfOk result (λ t. string_bytes t ≡ lines.goal_line goal wrong.now) }
{
    format!(in alloc; "refused: goal {goal} {wrong}\n")
}

fn not_closed_line(
    alloc: Global,
    goal: usize,
    stage: usize,
    class: usize,
) -> Result<String, AllocError>
    ensures { IfOk result (λ t.
        string_bytes t ≡ lines.goal_line goal (lines.not_closed stage class)) }
{
    let wrong = not_closed_text(alloc, stage, class)?;
    goal_line(alloc, goal, wrong.as_str())
}

fn not_closed_text(alloc: Global, stage: usize, class: usize) -> Result<String, AllocError>
    ensures { IfOk result (λ t. string_bytes t ≡ lines.not_closed stage class) }
{
    format!(in alloc; "stage {stage} class {class} NotClosed")
}

fn accepting_line(alloc: Global, goal: usize, stage: usize) -> Result<String, AllocError>
    ensures { IfOk result (λ t. string_bytes t ≡ lines.goal_line goal (lines.accepting stage)) }
{
    let wrong = format!(in alloc; "stage {stage} Accepting")?;
    goal_line(alloc, goal, wrong.as_str())
}

fn stray_line(alloc: Global, certificate: usize) -> Result<String, AllocError>
    ensures { IfOk result (λ t. string_bytes t ≡ lines.stray_line certificate) }
{
    format!(in alloc; "refused: certificate {certificate} Stray\n")
}

fn bad_text_line(alloc: Global, line: usize) -> Result<String, AllocError>
    ensures { IfOk result (λ t. string_bytes t ≡ lines.bad_text_line line) }
{
    format!(in alloc; "fault: certificates line {line}: BadText\n")
}

fn alphabet_line(alloc: Global, fault: AutomatonFault) -> Result<String, AllocError>
    ensures { IfOk result (λ t. string_bytes t ≡ lines.alphabet_line fault) }
{
    match fault {
        AutomatonFault::TooManyCharacters => {
            String::from_str(alloc, "refused: TooManyCharacters\n")
        }
        AutomatonFault::TooManySpots => String::from_str(alloc, "refused: TooManySpots\n"),
        AutomatonFault::OutOfMemory => String::from_str(alloc, OUT_OF_MEMORY),
    }
}
