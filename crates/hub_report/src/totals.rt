//! How much clashes, in numbers.

use crate::overlap::root_at_place;
use hub_cert::{CheckFault, Goal};
use hub_profile::Profile;
use std::alloc::{AllocError, Global};
use std::collections::BTreeSet;

/// How much clashes among profiles, in numbers, for a remark on a long answer.
#[derive(Clone, Copy, Debug, PartialEq, Eq)]
pub struct Totals {
    /// How many profiles there are.
    pub profiles: usize,
    /// How many pairs of them may not run at the same time.
    pub clashing: usize,
    /// At how many different places they were found to clash: a path of the one that reaches, at a root of the one that writes.
    pub places: usize,
    /// How many profiles may break a rule.
    pub breaking: usize,
    /// How many rounds there are, if the answer has rounds.
    pub rounds: Option<usize>,
}

impl Totals {
    /// Counts what these lines say of profiles, of which these pairs share an archive, beside so many rounds. Time and memory grow
    /// with the lines and pairs.
    pub fn of(
        alloc: Global,
        profiles: &[Profile],
        lines: &[CheckFault],
        archives: &[(usize, usize)],
        rounds: Option<usize>,
    ) -> Result<Totals, AllocError> {
        let mut counted = Counted::new(alloc);
        for line in lines {
            counted.put_line(profiles, line)?;
        }
        for (first, second) in archives {
            counted.put_pair(*first, *second)?;
        }
        Ok(Totals {
            profiles: profiles.len(),
            clashing: counted.pairs.len(),
            places: counted.places.len(),
            breaking: counted.breaking.len(),
            rounds,
        })
    }
}

/// What was counted, each once.
#[derive(Drop)]
struct Counted<'a> {
    /// Two profiles that may not run at the same time, the lower number first.
    pairs: BTreeSet<(usize, usize)>,
    /// A root of the one that writes, and a path that the other one reaches.
    places: BTreeSet<(&'a str, &'a str)>,
    /// The numbers of profiles that may break a rule.
    breaking: BTreeSet<usize>,
}

impl<'a> Counted<'a> {
    fn new(alloc: Global) -> Counted<'a> {
        Counted {
            pairs: BTreeSet::new(alloc),
            places: BTreeSet::new(alloc),
            breaking: BTreeSet::new(alloc),
        }
    }

    /// Counts what a line says.
    fn put_line(
        &mut self,
        profiles: &'a [Profile],
        line: &'a CheckFault,
    ) -> Result<(), AllocError> {
        match line {
            CheckFault::Overlap {
                writer,
                other,
                place,
                path,
                ..
            } => {
                let root = root_at_place(profiles.get(*writer), *place);
                self.places
                    .insert((root.map_or("", |root| root.as_str()), path.as_str()))?;
                self.put_pair(*writer, *other)
            }
            CheckFault::Breach { profile, .. } => self.put_breaking(*profile),
            CheckFault::TooLarge { goal } | CheckFault::Missing { goal } => self.put_goal(*goal),
            _ => Ok(()),
        }
    }

    /// Counts what a goal is about.
    fn put_goal(&mut self, goal: Goal) -> Result<(), AllocError> {
        match goal {
            Goal::Clash { writer, other, .. } => self.put_pair(writer, other),
            Goal::Breach { profile, .. } => self.put_breaking(profile),
        }
    }

    fn put_pair(&mut self, first: usize, second: usize) -> Result<(), AllocError> {
        self.pairs.insert((first.min(second), first.max(second)))?;
        Ok(())
    }

    fn put_breaking(&mut self, profile: usize) -> Result<(), AllocError> {
        self.breaking.insert(profile)?;
        Ok(())
    }
}
