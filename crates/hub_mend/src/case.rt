//! What is to be mended, and how that shows without a search.
use crate::shown::values_show;
use crate::subject::Subject;
use hub_cert::{CheckFault, Place};
use hub_path::RelPath;
use hub_profile::{Profile, Rule};
use hub_reach::{may_at, reaches, writes_at};
use hub_text::Items;
use std::alloc::{AllocError, Global};
use std::collections::BTreeSet;

/// What is to be mended, with the first fault that says so.
#[derive(Debug, Drop)]
pub(crate) struct Case {
    pub(crate) subject: Subject,
    pub(crate) fault: CheckFault,
}

/// What these faults say is to be mended, each once, in their order.
pub(crate) fn cases_of(alloc: Global, faults: Items<CheckFault>) -> Result<Vec<Case>, AllocError> {
    let mut cases = Vec::new(alloc);
    let mut seen = BTreeSet::new(alloc);
    for fault in faults.into_vec() {
        if let Some(subject) = Subject::of_fault(&fault) {
            if seen.insert(subject)? {
                cases.push(Case { subject, fault })?;
            }
        }
    }
    Ok(cases)
}

impl Case {
    /// Returns whether its fault's path or a kept value shows that it is unsafe, if the profiles that it is about are these now.
    pub(crate) fn is_shown(
        &self,
        alloc: Global,
        profiles: &[Profile],
        rules: &[Rule],
    ) -> Result<bool, AllocError> {
        Ok(self.is_held(profiles, rules) || values_show(alloc, profiles)?)
    }

    /// Returns whether its fault's path shows that. Where a search was given up nothing says otherwise.
    pub(crate) fn is_held(&self, profiles: &[Profile], rules: &[Rule]) -> bool {
        match (&self.fault, profiles) {
            (CheckFault::Breach { rule, path, .. }, [own]) => breaks(own, rules, *rule, path),
            (CheckFault::Overlap { .. }, [one, other]) => self.overlaps(one, other),
            _ => true,
        }
    }

    /// Returns whether the path at which two profiles clash is still one.
    fn overlaps(&self, one: &Profile, two: &Profile) -> bool {
        match &self.fault {
            CheckFault::Overlap {
                writer,
                other,
                place,
                held,
                path,
            } => {
                let [from, to] = if writer < other {
                    [one, two]
                } else {
                    [two, one]
                };
                holds(from, *place, held) && reaches(to, path)
            }
            _ => false,
        }
    }
}

/// Returns whether a profile writes a path, or reaches it if the place is an archive.
fn holds(profile: &Profile, place: Place, path: &RelPath) -> bool {
    let may_hold = match place {
        Place::Replica(side) => writes_at(profile, profile.root(side), path),
        Place::Archive => true,
    };
    may_hold && reaches(profile, path)
}

/// Returns whether a profile does at a path, which the rule of that number matches, what the rule forbids.
fn breaks(profile: &Profile, rules: &[Rule], number: usize, path: &RelPath) -> bool {
    match rules.get(number) {
        Some(rule) => reaches(profile, path) && may_at(profile, &rule.root, path, rule.verb),
        None => false,
    }
}
