//! The lines of a graph that join profiles.
ghost use Rattle.std.specs.Prelude.{◌≡◌, not, string_bytes, IfOk, OnOk, Some};
ghost use Rattle.hub_report.specs.Texts.{Gains};
ghost use Rattle.hub_report.specs.Graph as graph;
ghost use Rattle.hub_report.specs.Graph.{dashed_line, dashed_lines, joined_after, joined_by_red, joining_lines};
ghost use Rattle.hub_report.specs.Graph.{archive_edge, archive_line, archive_edges, joined_by_archives};
ghost use Rattle.hub_report.specs.Graph.{overlap_edge, overlap_in, red_edge, red_line, red_lines, undecided_line};
ghost use Rattle.hub_report.specs.Pairs as pairs;

use crate::graph::{escaped, push_edge};
use crate::pair::{Pair, are_joined};
use crate::parts::push_all;
use crate::refusal::name_at;
use crate::undecided::pair_of_goal;
use hub_cert::CheckFault;
use hub_path::RelPath;
use hub_profile::Profile;
use std::alloc::{AllocError, Global};

/// Adds a red line for each two profiles that clash, then one for each other two of these numbers, which share an archive, and
/// then a dashed one for each other two of which it wasn't decided whether they clash.
pub(crate) fn push_clashes(
    alloc: Global,
    text: &mut String,
    faults: &[CheckFault],
    archives: &[(usize, usize)],
    profiles: &[Profile],
) -> Result<(), AllocError>
    ensures { OnOk result (Gains text.old text.new
        (joining_lines profiles.now faults.now archives.now)) }
{
    let mut joined = Vec::new(alloc);
    push_red_lines(alloc, text, &mut joined, faults, profiles)?;
    push_archive_edges(alloc, text, &mut joined, archives, profiles)?;
    push_dashed_lines(alloc, text, &mut joined, faults, profiles)
}

/// Adds a red line for each two profiles that clash and aren't joined, and joins them.
fn push_red_lines(
    alloc: Global,
    text: &mut String,
    joined: &mut Vec<Pair>,
    faults: &[CheckFault],
    profiles: &[Profile],
) -> Result<(), AllocError>
    ensures text { OnOk result (Gains text.old text.new
        (red_lines profiles.now joined.old.items faults.now)) }
    ensures joined { OnOk result (joined.new.items ≡ joined_by_red joined.old.items faults.now) }
{
    for fault in faults {
        push_red_line(alloc, text, joined, profiles, fault)?;
    }
    Ok(())
}

/// Adds a red line if the fault is an overlap of two profiles that aren't joined, and joins them.
fn push_red_line(
    alloc: Global,
    text: &mut String,
    joined: &mut Vec<Pair>,
    profiles: &[Profile],
    fault: &CheckFault,
) -> Result<(), AllocError>
    ensures text { OnOk result (Gains text.old text.new
        (red_line profiles.now joined.old.items fault.now)) }
    ensures joined { OnOk result (joined.new.items
        ≡ joined_after joined.old.items (overlap_in fault.now)) }
{
    match fault {
        CheckFault::Overlap {
            writer,
            other,
            path,
            ..
        } => {
            let pair = Pair {
                writer: *writer,
                other: *other,
            };
            if join(joined, pair)? {
                push_overlap(alloc, text, profiles, pair, path)?;
            }
            Ok(())
        }
        _ => Ok(()),
    }
}

/// Adds a red line for each two profiles that share an archive and aren't joined, and joins them.
fn push_archive_edges(
    alloc: Global,
    text: &mut String,
    joined: &mut Vec<Pair>,
    archives: &[(usize, usize)],
    profiles: &[Profile],
) -> Result<(), AllocError>
    ensures text { OnOk result (Gains text.old text.new
        (archive_edges profiles.now joined.old.items archives.now)) }
    ensures joined { OnOk result (joined.new.items
        ≡ joined_by_archives joined.old.items archives.now) }
{
    for archive in archives {
        let pair = pair_of(*archive);
        push_archive_edge(alloc, text, joined, profiles, pair)?;
    }
    Ok(())
}

/// Two profiles of these numbers.
fn pair_of(numbers: (usize, usize)) -> Pair
    ensures { result ≡ graph.pair_of numbers }
{
    Pair {
        writer: numbers.0,
        other: numbers.1,
    }
}

/// Adds a red line for two profiles that share an archive, if they aren't joined, and joins them.
fn push_archive_edge(
    alloc: Global,
    text: &mut String,
    joined: &mut Vec<Pair>,
    profiles: &[Profile],
    pair: Pair,
) -> Result<(), AllocError>
    ensures text { OnOk result (Gains text.old text.new
        (archive_edge profiles.now joined.old.items pair)) }
    ensures joined { OnOk result (joined.new.items
        ≡ joined_after joined.old.items (Some pair)) }
{
    if join(joined, pair)? {
        push_archive(alloc, text, profiles, pair)?;
    }
    Ok(())
}

/// Adds a dashed line for each two profiles of which it wasn't decided whether they clash, if they aren't joined.
fn push_dashed_lines(
    alloc: Global,
    text: &mut String,
    joined: &mut Vec<Pair>,
    faults: &[CheckFault],
    profiles: &[Profile],
) -> Result<(), AllocError>
    ensures { OnOk result (Gains text.old text.new
        (dashed_lines profiles.now joined.old.items faults.now)) }
{
    for fault in faults {
        push_dashed_line(alloc, text, joined, profiles, dashed_in(fault))?;
    }
    Ok(())
}

/// The two profiles of a fault that doesn't show whether they clash.
fn dashed_in(fault: &CheckFault) -> Option<Pair>
    ensures { result ≡ graph.dashed_in fault.now }
{
    match fault {
        CheckFault::TooLarge { goal } | CheckFault::Missing { goal } => pair_of_goal(*goal),
        _ => None,
    }
}

/// Adds a dashed line if there are two profiles that aren't joined, and joins them.
fn push_dashed_line(
    alloc: Global,
    text: &mut String,
    joined: &mut Vec<Pair>,
    profiles: &[Profile],
    pair: Option<Pair>,
) -> Result<(), AllocError>
    ensures text { OnOk result (Gains text.old text.new
        (dashed_line profiles.now joined.old.items pair)) }
    ensures joined { OnOk result (joined.new.items ≡ joined_after joined.old.items pair) }
{
    match pair {
        Some(pair) => {
            if join(joined, pair)? {
                push_undecided(alloc, text, profiles, pair)?;
            }
            Ok(())
        }
        None => Ok(()),
    }
}

/// Joins two profiles. Returns whether they weren't joined before.
fn join(joined: &mut Vec<Pair>, pair: Pair) -> Result<bool, AllocError>
    ensures new { IfOk result (λ b. b ≡ not (pairs.are_joined joined.old.items pair)) }
    ensures joined { OnOk result (joined.new.items ≡ joined_after joined.old.items (Some pair)) }
{
    if are_joined(joined.as_slice(), pair) {
        Ok(false)
    } else {
        joined.push(pair)?;
        Ok(true)
    }
}

/// Adds the red line of two profiles that clash, with a path that shows it.
fn push_overlap(
    alloc: Global,
    text: &mut String,
    profiles: &[Profile],
    pair: Pair,
    path: &RelPath,
) -> Result<(), AllocError>
    ensures { OnOk result (Gains text.old text.new (overlap_edge profiles.now pair path.now)) }
{
    let writer = name_shown(alloc, profiles, pair.writer)?;
    let other = name_shown(alloc, profiles, pair.other)?;
    let path = escaped(alloc, path.as_str())?;
    push_red_edge(text, writer.as_str(), other.as_str(), path.as_str())
}

/// Adds the red line of two profiles that share an archive.
fn push_archive(
    alloc: Global,
    text: &mut String,
    profiles: &[Profile],
    pair: Pair,
) -> Result<(), AllocError>
    ensures { OnOk result (Gains text.old text.new (archive_line profiles.now pair)) }
{
    let writer = name_shown(alloc, profiles, pair.writer)?;
    let other = name_shown(alloc, profiles, pair.other)?;
    push_red_edge(text, writer.as_str(), other.as_str(), "same archive")
}

/// Adds the dashed line of two profiles of which it wasn't decided whether they clash.
fn push_undecided(
    alloc: Global,
    text: &mut String,
    profiles: &[Profile],
    pair: Pair,
) -> Result<(), AllocError>
    ensures { OnOk result (Gains text.old text.new (undecided_line profiles.now pair)) }
{
    let writer = name_shown(alloc, profiles, pair.writer)?;
    let other = name_shown(alloc, profiles, pair.other)?;
    push_edge(
        text,
        writer.as_str(),
        "profile",
        other.as_str(),
        "color = red, style = dashed",
    )
}

/// The name of the profile of that number, as it stands between quotes.
fn name_shown(alloc: Global, profiles: &[Profile], number: usize) -> Result<String, AllocError>
    ensures { IfOk result (λ t. string_bytes t ≡ graph.name_shown profiles.now number) }
{
    escaped(alloc, name_at(profiles, number))
}

/// Adds the red line that joins two profiles of these names, with a label.
#[tactic(auto, unfolding(crate::specs::Graph::red_edge))]
fn push_red_edge(
    text: &mut String,
    writer: &str,
    other: &str,
    label: &str,
) -> Result<(), AllocError>
    ensures { OnOk result (Gains text.old text.new (red_edge writer.now other.now label.now)) }
{
    push_all(
        text,
        &[
            "    \"profile ",
            writer,
            "\" -- \"profile ",
            other,
            "\" [color = red, fontcolor = red, label = \"",
            label,
            "\"];\n",
        ],
    )
}
