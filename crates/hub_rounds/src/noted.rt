//! The lines about each profile.
ghost use Rattle.std.specs.Prelude.{◌≡◌, length, IfOk, OnOk};
ghost use Rattle.hub_rounds.specs.Named.{AddsNote, AddsNotes, AreNoted};

use crate::subject::{Subject, subject_of};
use hub_cert::CheckFault;
use hub_text::Items;
use std::alloc::{AllocError, Global};

/// Lists for each of so many profiles the numbers of the lines about it, alone or with another one, in their order.
pub(crate) fn lines_of_each(
    alloc: Global,
    profiles: usize,
    lines: &[CheckFault],
) -> Result<Vec<Items<usize>>, AllocError>
    ensures long { IfOk result (λ v. length v.items ≡ profiles) }
    ensures noted { IfOk result (λ v. AreNoted lines.now v.items) }
{
    let mut lists = empty_lists(alloc, profiles)?;
    for line in 0..lines.len() {
        note(&mut lists, subject_of(&lines[line]), line)?;
    }
    Ok(lists)
}

/// Makes so many empty lists.
fn empty_lists(alloc: Global, count: usize) -> Result<Vec<Items<usize>>, AllocError>
    ensures { IfOk result (λ v. length v.items ≡ count) }
{
    let mut lists = Vec::with_capacity(alloc, count)?;
    for _ in 0..count {
        lists.push(Items::new(alloc))?;
    }
    Ok(lists)
}

/// Adds the line of that number, which says this, to the list of each profile that it is about.
fn note(lists: &mut Vec<Items<usize>>, subject: Subject, line: usize) -> Result<(), AllocError>
    ensures { OnOk result (AddsNotes lists.old.items lists.new.items subject line) }
{
    match subject {
        Subject::Pair { writer, other } => {
            add(lists, writer, line)?;
            add(lists, other, line)?;
            Ok(())
        }
        Subject::Alone { profile, .. } => {
            add(lists, profile, line)?;
            Ok(())
        }
        Subject::Nothing => Ok(()),
    }
}

/// Adds a line to the list of a profile, if there is one.
fn add(lists: &mut Vec<Items<usize>>, profile: usize, line: usize) -> Result<(), AllocError>
    ensures { OnOk result (AddsNote lists.old.items lists.new.items profile line) }
{
    if profile >= lists.len() {
        return Ok(());
    }
    lists[profile].push(line)?;
    Ok(())
}
