//! What is asked of the profiles with the lines that are found.
use crate::below::{have_nested, is_rule_nested};
use crate::case::{Case, cases_of};
use crate::cut::{is_profile, is_rules};
use crate::office::Office;
use crate::piece::Piece;
use crate::set::{faults_in, is_searchable, read_in};
use crate::subject::Subject;
use crate::text::{mended_text, push_piece};
use hub_cert::{CheckFault, ProfileSet};
use hub_profile::{Profile, Rules};
use hub_search::faults;
use hub_text::Items;
use std::alloc::{AllocError, Global};
use std::collections::BTreeSet;

impl Office {
    /// What is still unsafe of these cases with the lines that there are, by one search of the profiles that they are about.
    pub(crate) fn unsafe_of(
        &self,
        pieces: &[Piece],
        cases: &[Case],
    ) -> Result<Vec<Case>, AllocError> {
        let profiles = profiles_of(self.alloc, cases)?;
        let text = self.text_of(pieces, profiles.as_slice(), true)?;
        match faults_in(self.alloc, text.as_slice(), self.is_for_unison())? {
            Some(faults) => {
                let left = cases_of(self.alloc, faults)?;
                Ok(with_numbers(left, profiles.as_slice()))
            }
            None => Ok(Vec::new(self.alloc)),
        }
    }

    /// Returns whether that can be read with the lines that there are, and neither its fault nor a kept value shows that it is
    /// unsafe. It searches only where the first search was given up.
    pub(crate) fn seems_mended(&self, pieces: &[Piece], case: &Case) -> Result<bool, AllocError> {
        if matches!(case.fault, CheckFault::TooLarge { .. }) || self.is_nested(case.subject) {
            return self.is_mended(pieces, case);
        }
        match self.read_with_lines(pieces, case.subject)? {
            Some((profiles, rules)) => {
                Ok(!case.is_shown(self.alloc, profiles.as_slice(), rules.as_slice())?)
            }
            None => Ok(false),
        }
    }

    /// Returns whether there is room for the lines that there are, and its fault is none any more. It searches only where the first
    /// search was given up.
    pub(crate) fn is_answered(&self, pieces: &[Piece], case: &Case) -> Result<bool, AllocError> {
        if self.is_nested(case.subject) {
            return self.is_mended(pieces, case);
        }
        let Some(set) = self.set_of(pieces, case.subject)? else {
            return Ok(false);
        };
        if matches!(case.fault, CheckFault::TooLarge { .. }) {
            return Ok(!self.is_unsafe(&set, case.subject)?);
        }
        Ok(!case.is_held(set.profiles(), set.rules()))
    }

    /// Returns whether there is room for the lines that there are, and it isn't unsafe any more with them.
    pub(crate) fn is_mended(&self, pieces: &[Piece], case: &Case) -> Result<bool, AllocError> {
        if self.is_nested(case.subject) {
            return self.is_mended_apart(pieces, case.subject);
        }
        match self.set_of(pieces, case.subject)? {
            Some(set) => Ok(!self.is_unsafe(&set, case.subject)?),
            None => Ok(false),
        }
    }

    /// Returns whether that is about nested roots. Those are no set: `hub_apart` searches them, for Unison alone.
    fn is_nested(&self, subject: Subject) -> bool {
        let profiles = self.profiles.as_slice();
        let rules = self.rules.as_slice();
        let [first, last] = subject.ends();
        match (subject, profiles.get(first), profiles.get(last)) {
            (Subject::Pair(_, _), Some(one), Some(other)) => {
                self.is_for_unison() && have_nested(one, other)
            }
            (Subject::Rule(_, number), Some(own), _) => {
                self.is_for_unison()
                    && rules
                        .get(number)
                        .is_some_and(|rule| is_rule_nested(own, rules, rule))
            }
            _ => false,
        }
    }

    /// Returns whether there is room for the lines that there are, and that is no line of the profiles that it is about.
    fn is_mended_apart(&self, pieces: &[Piece], subject: Subject) -> Result<bool, AllocError> {
        let Some((profiles, _)) = self.read_with_lines(pieces, subject)? else {
            return Ok(false);
        };
        if !self.is_taken_from(subject, profiles.as_slice()) {
            return Ok(false);
        }
        let with_rules = matches!(subject, Subject::Rule(_, _));
        let text = self.text_of(pieces, &subject.ends(), with_rules)?;
        match faults_in(self.alloc, text.as_slice(), true)? {
            Some(faults) => Ok(!has_subject(faults.as_slice(), own_subject(subject))),
            None => Ok(false),
        }
    }

    /// Returns whether there is room for the lines of all profiles: these can be searched, and only take away.
    pub(crate) fn has_room(&self, pieces: &[Piece]) -> Result<bool, AllocError> {
        let text = mended_text(self.alloc, pieces)?;
        match Office::read(self.alloc, text.as_slice(), self.is_for_unison())? {
            Some(new) => {
                Ok(
                    new.only_takes_away_from(self)
                        && is_searchable(self.alloc, text.as_slice(), self.is_for_unison())?,
                )
            }
            None => Ok(false),
        }
    }

    /// The set of the profiles that it is about, with their lines, and of the rules that it is read with. There is none if a line doesn't fit into a limit,
    /// of a profile or of a set, or keeps another one from being read as it was: then one of these profiles takes more than away.
    fn set_of(&self, pieces: &[Piece], subject: Subject) -> Result<Option<ProfileSet>, AllocError> {
        let Some((profiles, rules)) = self.read_with_lines(pieces, subject)? else {
            return Ok(None);
        };
        if !self.is_taken_from(subject, profiles.as_slice()) {
            return Ok(None);
        }
        Ok(ProfileSet::new(self.alloc, profiles, rules).ok())
    }

    /// Returns whether that is unsafe in the set of the profiles that it is about.
    fn is_unsafe(&self, set: &ProfileSet, subject: Subject) -> Result<bool, AllocError> {
        let faults = faults(self.alloc, set)?;
        Ok(has_subject(faults.as_slice(), own_subject(subject)))
    }

    /// The profiles that it is about, with their lines, and the rules. For Unison two profiles are read without them.
    fn read_with_lines(
        &self,
        pieces: &[Piece],
        subject: Subject,
    ) -> Result<Option<(Items<Profile>, Rules)>, AllocError> {
        let with_rules = match subject {
            Subject::Pair(_, _) => !self.is_for_unison(),
            Subject::Rule(_, _) => true,
        };
        let text = self.text_of(pieces, &subject.ends(), with_rules)?;
        read_in(self.alloc, text.as_slice(), self.is_for_unison())
    }

    /// The text of the profiles of these ascending numbers, with their lines, and of the rules, if these are to be there.
    fn text_of(
        &self,
        pieces: &[Piece],
        profiles: &[usize],
        with_rules: bool,
    ) -> Result<Vec<u8>, AllocError> {
        let mut text = Vec::new(self.alloc);
        let mut number: usize = 0;
        for piece in pieces {
            let is_its = if is_profile(piece) {
                profiles.binary_search(&number).is_ok()
            } else {
                with_rules && is_rules(piece)
            };
            if is_its {
                push_piece(&mut text, piece)?;
            }
            if is_profile(piece) {
                number = number.saturating_add(1);
            }
        }
        Ok(text)
    }
}

/// It, if its profiles are all that there are.
fn own_subject(subject: Subject) -> Subject {
    match subject {
        Subject::Pair(_, _) => Subject::Pair(0, 1),
        Subject::Rule(_, rule) => Subject::Rule(0, rule),
    }
}

/// Returns whether one of these faults is about that.
fn has_subject(faults: &[CheckFault], subject: Subject) -> bool {
    faults
        .iter()
        .any(|fault| Subject::of_fault(fault) == Some(subject))
}

/// The numbers of the profiles that these cases are about, ascending.
fn profiles_of(alloc: Global, cases: &[Case]) -> Result<Vec<usize>, AllocError> {
    let mut known = BTreeSet::new(alloc);
    for case in cases {
        let [first, last] = case.subject.ends();
        known.insert(first)?;
        known.insert(last)?;
    }
    let mut profiles = Vec::new(alloc);
    for profile in known.iter() {
        profiles.push(*profile)?;
    }
    Ok(profiles)
}

/// These cases, whose profiles have these numbers.
fn with_numbers(cases: Vec<Case>, numbers: &[usize]) -> Vec<Case> {
    let mut cases = cases;
    for case in cases.iter_mut() {
        case.subject = case.subject.of_profiles(numbers);
    }
    cases
}
