//! Two profiles with nested roots, searched from the upper of each two roots.
ghost use Rattle.std.specs.Prelude.{◌≡◌, ◌++◌, map, drop, IfErr, IfOk, OnOk};
ghost use Rattle.hub_nested.specs.Meeting.{meeting};
ghost use Rattle.hub_nested.specs.declared.meeting.Meeting.TheVariants as meets;
ghost use Rattle.hub_apart.specs.ApartLines.{Adds, set_of};
ghost use Rattle.hub_apart.specs.NestedLines as said;
ghost use Rattle.hub_cert.specs.Refused.{IsRefused};

use crate::apart::have_nested;
use crate::lines::{Numbers, line_among, nested_line, number_of};
use crate::searched::search_two;
use hub_cert::{CheckFault, ProfileSet};
use hub_nested::{Meeting, Together, meet};
use hub_path::{RelPath, Side};
use hub_profile::{Profile, Rules};
use hub_search::faults;
use hub_text::Items;
use std::alloc::{AllocError, Global};

/// Searches two profiles, and appends their lines. If roots of them are nested, each two roots that meet are searched by
/// themselves.
pub(crate) fn search_near(
    alloc: Global,
    first: Profile,
    second: Profile,
    numbers: Numbers,
    lines: &mut Vec<CheckFault>,
) -> Result<(Profile, Profile), CheckFault>
    ensures first { IfOk result (λ r. r.0 ≡ first) }
    ensures second { IfOk result (λ r. r.1 ≡ second) }
    ensures lines { OnOk result (Adds
        (said.AreLinesOfNear first second numbers.first numbers.second)
        lines.old.items lines.new.items) }
    ensures refused { IfErr result (said.IsRefusedNear first second) }
{
    if have_nested(&first, &second) {
        search_nested(alloc, &first, &second, numbers, lines)?;
        return Ok((first, second));
    }
    search_two(alloc, first, second, numbers, lines)
}

/// Searches two profiles at each two of their roots, and appends their lines.
fn search_nested(
    alloc: Global,
    first: &Profile,
    second: &Profile,
    numbers: Numbers,
    lines: &mut Vec<CheckFault>,
) -> Result<(), CheckFault>
    ensures lines { OnOk result (Adds
        (said.AreLinesOfNested first.now second.now numbers.first numbers.second)
        lines.old.items lines.new.items) }
    ensures refused { IfErr result (said.IsRefusedAt first.now second.now) }
{
    search_at(alloc, first, Side::Left, second, Side::Left, numbers, lines)?;
    search_at(
        alloc,
        first,
        Side::Left,
        second,
        Side::Right,
        numbers,
        lines,
    )?;
    search_at(
        alloc,
        first,
        Side::Right,
        second,
        Side::Left,
        numbers,
        lines,
    )?;
    search_at(
        alloc,
        first,
        Side::Right,
        second,
        Side::Right,
        numbers,
        lines,
    )
}

/// Searches two profiles at the roots of these sides, and appends their lines.
fn search_at(
    alloc: Global,
    first: &Profile,
    at: Side,
    second: &Profile,
    other_at: Side,
    numbers: Numbers,
    lines: &mut Vec<CheckFault>,
) -> Result<(), CheckFault>
    ensures lines { OnOk result (Adds (said.AreLinesAt (meeting first.now at second.now other_at)
        numbers.first numbers.second) lines.old.items lines.new.items) }
    ensures refused { IfErr result (said.IsRefusedAt first.now second.now) }
{
    match meet(alloc, first, at, second, other_at)? {
        Meeting::Apart => Ok(()),
        Meeting::Unsaid => Ok(lines.push(nested_line(numbers))?),
        Meeting::Counted(both) => search_together(alloc, both, numbers, lines),
    }
}

/// Searches two profiles that are counted from the upper root, and appends their lines.
fn search_together(
    alloc: Global,
    both: Together,
    numbers: Numbers,
    lines: &mut Vec<CheckFault>,
) -> Result<(), CheckFault>
    ensures lines { OnOk result (Adds
        (said.AreLinesAt (meets.Counted both) numbers.first numbers.second)
        lines.old.items lines.new.items) }
    ensures refused { IfErr result (IsRefused (said.together both)) }
{
    let Together {
        first,
        second,
        first_names,
        second_names,
    } = both;
    let below = Numbers {
        first: first_names,
        second: second_names,
    };
    let mut profiles = Items::new(alloc);
    profiles.push(first)?;
    profiles.push(second)?;
    let found = found_in(alloc, profiles, Rules::new(alloc))?;
    push_counted(alloc, lines, found, numbers, below)?;
    Ok(())
}

/// Returns what is found of the set of these profiles and rules.
pub(crate) fn found_in(
    alloc: Global,
    profiles: Items<Profile>,
    rules: Rules,
) -> Result<Vec<CheckFault>, CheckFault>
    ensures found { IfOk result (λ v. said.AreFound (set_of profiles rules) v.items) }
    ensures refused { IfErr result (IsRefused (set_of profiles rules)) }
{
    let set = ProfileSet::new(alloc, profiles, rules)?;
    let _ = set.profiles();
    let found = faults(alloc, &set)?;
    Ok(found.into_vec())
}

/// Appends lines of two profiles. Their roots lie so many names below that of the lines.
fn push_counted(
    alloc: Global,
    lines: &mut Vec<CheckFault>,
    found: Vec<CheckFault>,
    numbers: Numbers,
    below: Numbers,
) -> Result<(), AllocError>
    ensures { OnOk result (lines.new.items ≡ lines.old.items
        ++ map (said.counted_line below.first below.second numbers.first numbers.second)
        found.items) }
{
    for line in found {
        lines.push(counted(alloc, numbers, below, line)?)?;
    }
    Ok(())
}

/// The line with the numbers that the profiles have among all, counted from the root of the one that writes.
fn counted(
    alloc: Global,
    numbers: Numbers,
    below: Numbers,
    line: CheckFault,
) -> Result<CheckFault, AllocError>
    ensures { IfOk result (λ e.
        e ≡ said.counted_line below.first below.second numbers.first numbers.second line) }
{
    match line {
        CheckFault::Overlap {
            writer,
            other,
            place,
            held,
            path,
        } => {
            let names = number_of(below, writer);
            Ok(CheckFault::Overlap {
                writer: number_of(numbers, writer),
                other: number_of(numbers, other),
                place,
                held: without_first(alloc, &held, names)?,
                path: without_first(alloc, &path, names)?,
            })
        }
        other => Ok(line_among(numbers, other)),
    }
}

/// The path without so many of its first names.
pub(crate) fn without_first(
    alloc: Global,
    path: &RelPath,
    names: usize,
) -> Result<RelPath, AllocError>
    ensures { IfOk result (λ p. p ≡ drop names path.now) }
{
    let mut rest = RelPath::top(alloc);
    for i in names..path.len() {
        let name = path.name(i).copy()?;
        rest = rest.child(name)?;
    }
    Ok(rest)
}
