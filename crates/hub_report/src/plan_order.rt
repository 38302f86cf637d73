//! The order of a plan: which profiles are to be run.
ghost use Rattle.std.specs.Prelude.{◌≡◌, ◌++◌, IfOk, OnOk, string_bytes};
ghost use Rattle.std.specs.List.{flat_map, list_any};
ghost use Rattle.hub_report.specs.Plan as lines;
ghost use Rattle.hub_report.specs.Texts.{Gains};

use crate::plan::{Roster, Unread};
use hub_cert::CheckFault;
use hub_profile::Rule;
use hub_rounds::{Subject, subject_of};
use std::alloc::{AllocError, Global};

/// The numbers of the profiles that are to be run, those that aren't read last.
pub(crate) fn order_of(
    alloc: Global,
    roster: &Roster,
    rules: &[Rule],
    faults: &[CheckFault],
) -> Result<Vec<usize>, AllocError>
    ensures { IfOk result (λ v. v.items ≡ lines.order_of roster.now rules.now faults.now) }
{
    let mut order = read_order(alloc, roster.numbers.as_slice(), faults)?;
    if rules.is_empty() {
        push_unread_numbers(&mut order, roster.unread.as_slice())?;
    }
    Ok(order)
}

/// The numbers of the profiles that are read and are to be run.
fn read_order(
    alloc: Global,
    numbers: &[usize],
    faults: &[CheckFault],
) -> Result<Vec<usize>, AllocError>
    ensures { IfOk result (λ v. v.items ≡ lines.read_order faults.now 0 numbers.now) }
{
    let mut order = Vec::new(alloc);
    for (place, number) in numbers.iter().enumerate() {
        push_unless_refused(&mut order, faults, place, *number)?;
    }
    Ok(order)
}

/// Adds the number of the profile at that place, if no line says why it is not to be run.
fn push_unless_refused(
    order: &mut Vec<usize>,
    faults: &[CheckFault],
    place: usize,
    number: usize,
) -> Result<(), AllocError>
    ensures { OnOk result (order.new.items
        ≡ order.old.items ++ lines.read_item faults.now place number) }
{
    if !is_refused(faults, place) {
        order.push(number)?;
    }
    Ok(())
}

/// Returns whether a line says why the profile at that place is not to be run.
fn is_refused(faults: &[CheckFault], place: usize) -> bool
    ensures { result ≡ lines.is_refused faults.now place }
{
    faults.iter().any(|fault| names_alone(fault, place))
}

/// Returns whether a line is about the profile at that place alone.
fn names_alone(fault: &CheckFault, place: usize) -> bool
    ensures { result ≡ lines.names_place place fault.now }
{
    match subject_of(fault) {
        Subject::Alone { profile, .. } => profile == place,
        _ => false,
    }
}

/// Adds the numbers of these profiles, which aren't read.
fn push_unread_numbers(order: &mut Vec<usize>, unread: &[Unread]) -> Result<(), AllocError>
    ensures { OnOk result (order.new.items
        ≡ order.old.items ++ lines.unread_numbers unread.now) }
{
    for own in unread {
        order.push(own.number)?;
    }
    Ok(())
}

/// The line with these numbers.
pub(crate) fn order_line(alloc: Global, numbers: &[usize]) -> Result<String, AllocError>
    ensures { IfOk result (λ t. string_bytes t ≡ lines.order_line numbers.now) }
{
    let mut text = String::from_str(alloc, "order")?;
    push_order(alloc, &mut text, numbers)?;
    text.push_str("\n")?;
    Ok(text)
}

/// Adds these numbers.
fn push_order(alloc: Global, text: &mut String, numbers: &[usize]) -> Result<(), AllocError>
    ensures { OnOk result (Gains text.old text.new (flat_map lines.order_item numbers.now)) }
{
    for number in numbers {
        let shown = format!(in alloc; " {number}")?;
        text.push_str(shown.as_str())?;
    }
    Ok(())
}

/// Returns whether no profile is refused.
pub(crate) fn is_whole(roster: &Roster, rules: &[Rule], faults: &[CheckFault]) -> bool
    ensures { result ≡ lines.is_whole roster.now rules.now faults.now }
{
    !has_refused(faults) && (rules.is_empty() || roster.unread.is_empty())
}

/// Returns whether a line says of a profile that it is not to be run.
fn has_refused(faults: &[CheckFault]) -> bool
    ensures { result ≡ list_any lines.leaves_out faults.now }
{
    faults.iter().any(leaves_out)
}

/// Returns whether a line is about one profile alone.
fn leaves_out(fault: &CheckFault) -> bool
    ensures { result ≡ lines.leaves_out fault.now }
{
    matches!(subject_of(fault), Subject::Alone { .. })
}
