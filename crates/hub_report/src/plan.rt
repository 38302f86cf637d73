//! Plans of Unison's runs, for a program that runs it.
ghost use Rattle.std.specs.Prelude.{◌≡◌, IfOk, OnOk, string_bytes};
ghost use Rattle.hub_report.specs.Plan as lines;
ghost use Rattle.hub_report.specs.Texts.{Gains};

use crate::archive::archive_line;
use crate::faults::profile_fault_name;
use crate::overlap::unison_shown;
use crate::parts::{joined, push_all};
use crate::plan_order::{is_whole, order_line, order_of};
use crate::refusal::name_at;
use hub_cert::{CheckFault, Goal};
use hub_path::Name;
use hub_profile::{Profile, ProfileFault, Rule};
use hub_rounds::{Subject, subject_of};
use hub_search::STAGES;
use hub_text::Items;
use std::alloc::{AllocError, Global};

/// A plan: which profiles Unison may run at the same time.
#[derive(Drop)]
pub struct Plan {
    /// The lines of the plan.
    pub text: String,
    /// Whether no profile is refused.
    pub is_whole: bool,
}

/// The profiles of an input, which are numbered in its order, from 1 on.
#[derive(Drop)]
pub struct Roster {
    /// The names of all.
    pub names: Items<Name>,
    /// The numbers of those that are read, in this order.
    pub numbers: Items<usize>,
    /// Those that aren't.
    pub unread: Items<Unread>,
}

/// A profile that isn't read.
#[derive(Drop)]
pub struct Unread {
    /// Its number.
    pub number: usize,
    /// Its fault.
    pub fault: ProfileFault,
}

/// The plan of an input with these profiles. Those that are read, in their order, and the rules are these. The lines say which of
/// them clash, have nested roots, or may break a rule. The pairs share an archive. Both name profiles by their places.
pub fn plan_of(
    alloc: Global,
    roster: &Roster,
    profiles: &[Profile],
    rules: &[Rule],
    faults: &[CheckFault],
    archives: &[(usize, usize)],
) -> Result<Plan, AllocError>
    ensures text { IfOk result (λ p. string_bytes p.text
        ≡ lines.text_in roster.now profiles.now rules.now faults.now archives.now) }
    ensures whole { IfOk result (λ p. p.is_whole
        ≡ lines.is_whole roster.now rules.now faults.now) }
{
    let is_whole = is_whole(roster, rules, faults);
    let facts = facts_text(alloc, roster, profiles, rules, faults, archives)?;
    let order = order_of(alloc, roster, rules, faults)?;
    let order = order_line(alloc, order.as_slice())?;
    let text = joined(alloc, &["plan 1\n", facts.as_str(), order.as_str()])?;
    Ok(Plan { text, is_whole })
}

/// The lines between the first and the last one.
fn facts_text(
    alloc: Global,
    roster: &Roster,
    profiles: &[Profile],
    rules: &[Rule],
    faults: &[CheckFault],
    archives: &[(usize, usize)],
) -> Result<String, AllocError>
    ensures { IfOk result (λ t. string_bytes t
        ≡ lines.facts_in roster.now profiles.now rules.now faults.now archives.now) }
{
    let numbers = roster.numbers.as_slice();
    let mut text = String::new(alloc);
    push_names(alloc, &mut text, roster.names.as_slice())?;
    push_roots(alloc, &mut text, numbers, profiles)?;
    push_faults(alloc, &mut text, numbers, profiles, rules, faults)?;
    push_shared(alloc, &mut text, numbers, profiles, archives)?;
    push_unread(alloc, &mut text, rules, roster.unread.as_slice())?;
    Ok(text)
}

/// Adds the lines of the names of all profiles, of which the first has the number 1.
fn push_names(alloc: Global, text: &mut String, names: &[Name]) -> Result<(), AllocError>
    ensures { OnOk result (Gains text.old text.new (lines.name_lines 1 names.now)) }
{
    let mut number: usize = 0;
    for name in names {
        number += 1;
        let shown = format!(in alloc; "{number}")?;
        push_name(text, shown.as_str(), name)?;
    }
    Ok(())
}

/// Adds the line of a profile of that number and name.
fn push_name(text: &mut String, number: &str, name: &Name) -> Result<(), AllocError>
    ensures { OnOk result (Gains text.old text.new (lines.name_line number.now name.now)) }
{
    push_all(text, &["profile ", number, " ", name.text(), "\n"])
}

/// The number of the profile at that place, as it is written.
fn shown_number(alloc: Global, numbers: &[usize], place: usize) -> Result<String, AllocError>
    ensures { IfOk result (λ t. string_bytes t ≡ lines.shown_number numbers.now place) }
{
    let number = number_at(numbers, place);
    format!(in alloc; "{number}")
}

/// The number of the profile at that place, or 0 if there is none.
fn number_at(numbers: &[usize], place: usize) -> usize
    ensures { result ≡ lines.number_at numbers.now place }
{
    match numbers.get(place) {
        Some(number) => *number,
        None => 0,
    }
}

/// Adds the lines of the roots of these profiles, of which the first has place 0.
fn push_roots(
    alloc: Global,
    text: &mut String,
    numbers: &[usize],
    profiles: &[Profile],
) -> Result<(), AllocError>
    ensures { OnOk result (Gains text.old text.new
        (lines.root_lines numbers.now 0 profiles.now)) }
{
    for (place, profile) in profiles.iter().enumerate() {
        let number = shown_number(alloc, numbers, place)?;
        push_own_roots(text, number.as_str(), profile)?;
    }
    Ok(())
}

/// Adds the lines of the two roots of a profile of that number.
fn push_own_roots(text: &mut String, number: &str, profile: &Profile) -> Result<(), AllocError>
    ensures { OnOk result (Gains text.old text.new
        (lines.lines_of_roots number.now profile.now)) }
{
    for root in profile.roots() {
        push_all(text, &["root ", number, " ", root.as_str(), "\n"])?;
    }
    Ok(())
}

/// Adds the line of each of these faults.
fn push_faults(
    alloc: Global,
    text: &mut String,
    numbers: &[usize],
    profiles: &[Profile],
    rules: &[Rule],
    faults: &[CheckFault],
) -> Result<(), AllocError>
    ensures { OnOk result (Gains text.old text.new
        (lines.lines_in numbers.now profiles.now rules.now faults.now)) }
{
    for fault in faults {
        push_fault(alloc, text, numbers, profiles, rules, fault)?;
    }
    Ok(())
}

/// Adds the line of a fault.
fn push_fault(
    alloc: Global,
    text: &mut String,
    numbers: &[usize],
    profiles: &[Profile],
    rules: &[Rule],
    fault: &CheckFault,
) -> Result<(), AllocError>
    ensures { OnOk result (Gains text.old text.new
        (lines.line_in numbers.now profiles.now rules.now fault.now)) }
{
    let why = why_in(alloc, profiles, rules, fault)?;
    push_subject(alloc, text, numbers, subject_of(fault), why.as_str())
}

/// Adds the line of what is said of which profiles, with why.
fn push_subject(
    alloc: Global,
    text: &mut String,
    numbers: &[usize],
    subject: Subject,
    why: &str,
) -> Result<(), AllocError>
    ensures { OnOk result (Gains text.old text.new
        (lines.subject_line numbers.now subject why.now)) }
{
    match subject {
        Subject::Pair { writer, other } => {
            let first = lower(writer, other);
            push_apart(alloc, text, numbers, first, higher(writer, other), why)
        }
        Subject::Alone { profile, .. } => push_refused(alloc, text, numbers, profile, why),
        Subject::Nothing => Ok(()),
    }
}

/// The lower one of two places.
fn lower(first: usize, second: usize) -> usize
    ensures { result ≡ lines.lower first second }
{
    if first <= second { first } else { second }
}

/// The higher one of two places.
fn higher(first: usize, second: usize) -> usize
    ensures { result ≡ lines.higher first second }
{
    if first <= second { second } else { first }
}

/// Adds the line of the two profiles at these places, which may not run at the same time, with why.
fn push_apart(
    alloc: Global,
    text: &mut String,
    numbers: &[usize],
    first: usize,
    second: usize,
    why: &str,
) -> Result<(), AllocError>
    ensures { OnOk result (Gains text.old text.new
        (lines.apart_line numbers.now first second why.now)) }
{
    let first = shown_number(alloc, numbers, first)?;
    let second = shown_number(alloc, numbers, second)?;
    push_all(
        text,
        &["apart ", first.as_str(), " ", second.as_str(), " ", why],
    )
}

/// Adds the line of the profile at that place, which is not to be run, with why.
fn push_refused(
    alloc: Global,
    text: &mut String,
    numbers: &[usize],
    place: usize,
    why: &str,
) -> Result<(), AllocError>
    ensures { OnOk result (Gains text.old text.new
        (lines.refused_line numbers.now place why.now)) }
{
    let number = shown_number(alloc, numbers, place)?;
    push_all(text, &["refused ", number.as_str(), " ", why])
}

/// Why, in a line: a goal has too many stages, roots are nested, or what `clashes` says.
fn why_in(
    alloc: Global,
    profiles: &[Profile],
    rules: &[Rule],
    fault: &CheckFault,
) -> Result<String, AllocError>
    ensures { IfOk result (λ t. string_bytes t
        ≡ lines.why_in profiles.now rules.now fault.now) }
{
    match fault {
        CheckFault::TooLarge { .. } => undecided_why(alloc, STAGES),
        CheckFault::Missing { goal } => nested_why(alloc, profiles, *goal),
        _ => unison_shown(alloc, profiles, rules, fault),
    }
}

/// That a goal has too many stages.
fn undecided_why(alloc: Global, stages: usize) -> Result<String, AllocError>
    ensures { IfOk result (λ t. string_bytes t ≡ lines.undecided_why stages) }
{
    format!(in alloc; "undecided: more than {stages} stages\n")
}

/// That the roots of the two profiles of a clash are nested.
pub(crate) fn nested_why(
    alloc: Global,
    profiles: &[Profile],
    goal: Goal,
) -> Result<String, AllocError>
    ensures { IfOk result (λ t. string_bytes t ≡ lines.nested_why profiles.now goal) }
{
    match goal {
        Goal::Clash { writer, other, .. } => nested_names(
            alloc,
            name_at(profiles, writer),
            name_at(profiles, other),
        ),
        Goal::Breach { .. } => Ok(String::new(alloc)),
    }
}

/// That the roots of two profiles of these names are nested.
fn nested_names(alloc: Global, first: &str, second: &str) -> Result<String, AllocError>
    ensures { IfOk result (λ t. string_bytes t ≡ lines.nested_text first.now second.now) }
{
    joined(alloc, &["nested roots: ", first, " and ", second, "\n"])
}

/// Adds the line of each two profiles at these places, which share an archive.
fn push_shared(
    alloc: Global,
    text: &mut String,
    numbers: &[usize],
    profiles: &[Profile],
    archives: &[(usize, usize)],
) -> Result<(), AllocError>
    ensures { OnOk result (Gains text.old text.new
        (lines.shared_lines numbers.now profiles.now archives.now)) }
{
    for archive in archives {
        push_shared_two(alloc, text, numbers, profiles, *archive)?;
    }
    Ok(())
}

/// Adds the line of two profiles at these places, which share an archive.
fn push_shared_two(
    alloc: Global,
    text: &mut String,
    numbers: &[usize],
    profiles: &[Profile],
    places: (usize, usize),
) -> Result<(), AllocError>
    ensures { OnOk result (Gains text.old text.new
        (lines.shared_line numbers.now profiles.now places)) }
{
    let why = archive_line(alloc, profiles, places)?;
    push_apart(alloc, text, numbers, places.0, places.1, why.as_str())
}

/// Adds the line of each of these profiles, which aren't read.
fn push_unread(
    alloc: Global,
    text: &mut String,
    rules: &[Rule],
    unread: &[Unread],
) -> Result<(), AllocError>
    ensures { OnOk result (Gains text.old text.new (lines.unread_lines rules.now unread.now)) }
{
    for own in unread {
        push_own_unread(alloc, text, unread_word(rules), own)?;
    }
    Ok(())
}

/// What is said of a profile that isn't read: it runs alone if there are no rules. Else it may break one.
fn unread_word<'a>(rules: &[Rule]) -> &'a str
    ensures { result.now ≡ lines.unread_word rules.now }
{
    if rules.is_empty() {
        "alone "
    } else {
        "refused "
    }
}

/// Adds the line of a profile that isn't read.
fn push_own_unread(
    alloc: Global,
    text: &mut String,
    word: &str,
    own: &Unread,
) -> Result<(), AllocError>
    ensures { OnOk result (Gains text.old text.new (lines.unread_line word.now own.now)) }
{
    let number = own.number;
    let number = format!(in alloc; "{number}")?;
    let line = own.fault.line;
    let line = format!(in alloc; "{line}")?;
    let name = profile_fault_name(alloc, &own.fault.fault)?;
    push_all(
        text,
        &[
            word,
            number.as_str(),
            " line ",
            line.as_str(),
            ": ",
            name.as_str(),
            "\n",
        ],
    )
}
