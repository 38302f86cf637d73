//! The lines that name a profile or a pair of profiles, by their numbers.
//!
//! Of each profile's list of lines it is stated that no line is missing. Nothing else is stated of these numbers. Who relies on a
//! line looks at it.
ghost use Rattle.std.specs.Prelude.{◌≡◌, ◌<◌, List, length, IfOk};
ghost use Rattle.hub_cert.specs.declared.fault.CheckFault.{CheckFault};
ghost use Rattle.hub_rounds.specs.Named.{AreLinesOf, AreNoted};

use crate::noted::lines_of_each;
use crate::subject::{Subject, subject_of};
use hub_cert::CheckFault;
use hub_text::Items;
use std::alloc::{AllocError, Global};

/// Another profile with which one has a line, and the first line about both.
#[derive(Clone, Copy, Debug, PartialEq, Eq, PartialOrd, Ord)]
pub(crate) struct Neighbour {
    pub(crate) profile: usize,
    line: usize,
}

/// For each profile all lines about it, the first line about it alone, and its neighbours: the profiles with which it has a line,
/// in their order.
#[derive(Drop)]
pub(crate) struct Named {
    pub(crate) lists: Vec<Items<usize>>,
    neighbours: Vec<Vec<Neighbour>>,
    own: Vec<Option<usize>>,
}

impl Named {
    /// Notes the lines about each of so many profiles, and about each two of them.
    pub(crate) fn new(
        alloc: Global,
        profiles: usize,
        lines: &[CheckFault],
    ) -> Result<Named, AllocError>
        ensures long { IfOk result (λ n. length n.lists.items ≡ profiles) }
        ensures noted { IfOk result (λ n. AreNoted lines.now n.lists.items) }
    {
        let lists = lines_of_each(alloc, profiles, lines)?;
        let neighbours = neighbours_of_each(alloc, profiles, lines)?;
        let own = own_lines(alloc, profiles, lines)?;
        Ok(Named {
            lists,
            neighbours,
            own,
        })
    }

    /// Returns the number of profiles.
    pub(crate) fn len(&self) -> usize {
        self.own.len()
    }

    /// Returns the numbers of the lines about the profile.
    pub(crate) fn lines_of(&self, profile: usize) -> &[usize]
        requires { profile < length self.now.lists.items }
        ensures { (es : List CheckFault) → AreNoted es self.now.lists.items
            → AreLinesOf es result.now profile }
    {
        self.lists[profile].as_slice()
    }

    /// Returns the number of the first line about the profile alone.
    pub(crate) fn own_line(&self, profile: usize) -> Option<usize> {
        *self.own.get(profile)?
    }

    /// Returns the number of the first line about both profiles.
    pub(crate) fn pair_line(&self, one: usize, other: usize) -> Option<usize> {
        let neighbours = self.neighbours_of(one);
        let place = neighbours
            .binary_search_by_key(&other, |own| own.profile)
            .ok()?;
        Some(neighbours.get(place)?.line)
    }

    /// Borrows the neighbours of the profile.
    pub(crate) fn neighbours_of(&self, profile: usize) -> &[Neighbour] {
        match self.neighbours.get(profile) {
            Some(own) => own.as_slice(),
            None => &[],
        }
    }

    /// Returns with how many profiles this one clashes that are in a round.
    pub(crate) fn degree(&self, profile: usize) -> usize {
        self.neighbours_of(profile)
            .iter()
            .filter(|other| self.own_line(other.profile).is_none())
            .count()
    }
}

/// Returns the first line about each of so many profiles alone.
fn own_lines(
    alloc: Global,
    profiles: usize,
    lines: &[CheckFault],
) -> Result<Vec<Option<usize>>, AllocError> {
    let mut own = Vec::new(alloc);
    own.resize(profiles, None)?;
    for (line, fault) in lines.iter().enumerate() {
        if let Subject::Alone { profile, .. } = subject_of(fault) {
            note_first(&mut own, profile, line);
        }
    }
    Ok(own)
}

/// Notes the line of a profile, unless there is an earlier one.
fn note_first(own: &mut Vec<Option<usize>>, profile: usize, line: usize) {
    if profile < own.len() && own[profile].is_none() {
        own[profile] = Some(line);
    }
}

/// Returns the neighbours of each of so many profiles.
fn neighbours_of_each(
    alloc: Global,
    profiles: usize,
    lines: &[CheckFault],
) -> Result<Vec<Vec<Neighbour>>, AllocError> {
    let mut rows = no_neighbours(alloc, profiles)?;
    for (line, fault) in lines.iter().enumerate() {
        if let Subject::Pair { writer, other } = subject_of(fault) {
            note_in(&mut rows, writer, other, line)?;
            note_in(&mut rows, other, writer, line)?;
        }
    }
    sort_each(&mut rows);
    Ok(rows)
}

/// Sorts each row, and keeps the first line about each other profile.
fn sort_each(rows: &mut Vec<Vec<Neighbour>>) {
    for own in rows.iter_mut() {
        own.sort_unstable();
        own.dedup_by_key(|neighbour| neighbour.profile);
    }
}

/// Makes so many empty rows.
fn no_neighbours(alloc: Global, profiles: usize) -> Result<Vec<Vec<Neighbour>>, AllocError> {
    let mut rows = Vec::with_capacity(alloc, profiles)?;
    for _ in 0..profiles {
        rows.push(Vec::new(alloc))?;
    }
    Ok(rows)
}

/// Notes a line with another profile in a row, if both are profiles.
fn note_in(
    rows: &mut Vec<Vec<Neighbour>>,
    row: usize,
    profile: usize,
    line: usize,
) -> Result<(), AllocError> {
    if profile < rows.len() {
        if let Some(own) = rows.get_mut(row) {
            own.push(Neighbour { profile, line })?;
        }
    }
    Ok(())
}
