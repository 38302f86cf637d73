//! The profiles and the rules to which lines are added.
use crate::set::{own_in, read_in, read_without_rules};
use crate::subject::Subject;
use crate::takes_away::{only_take_away, only_takes_away};
use hub_profile::{Profile, Rules};
use hub_text::Items;
use std::alloc::{AllocError, Global};

/// The profiles and the rules to which lines are added.
#[derive(Drop)]
pub(crate) struct Office {
    pub(crate) alloc: Global,
    /// The profiles as their lines say.
    pub(crate) profiles: Items<Profile>,
    pub(crate) readings: Readings,
    pub(crate) rules: Rules,
}

/// The same profiles as they are read.
#[derive(Drop)]
pub(crate) enum Readings {
    /// As their lines say.
    Plain,
    /// For Unison.
    Unison {
        /// Where two of them are looked at: without the rules.
        of_two: Items<Profile>,
        /// Where one of them is looked at with the rules.
        beside: Items<Profile>,
    },
}

impl Office {
    /// What a bundle says, if it is one.
    pub(crate) fn read(
        alloc: Global,
        text: &[u8],
        for_unison: bool,
    ) -> Result<Option<Office>, AllocError> {
        let Some((profiles, rules)) = own_in(alloc, text, for_unison)? else {
            return Ok(None);
        };
        let readings = if for_unison {
            readings_in(alloc, text)?
        } else {
            Some(Readings::Plain)
        };
        Ok(readings.map(|readings| Office {
            alloc,
            profiles,
            readings,
            rules,
        }))
    }

    /// Whether the profiles are read for Unison.
    pub(crate) fn is_for_unison(&self) -> bool {
        match self.readings {
            Readings::Plain => false,
            Readings::Unison { .. } => true,
        }
    }

    /// The profiles as they are read where two of them are looked at.
    pub(crate) fn read_of_two(&self) -> &[Profile] {
        match &self.readings {
            Readings::Plain => self.profiles.as_slice(),
            Readings::Unison { of_two, .. } => of_two.as_slice(),
        }
    }

    /// The profiles as they are read where one of them is looked at with the rules.
    fn read_beside(&self) -> &[Profile] {
        match &self.readings {
            Readings::Plain => self.profiles.as_slice(),
            Readings::Unison { beside, .. } => beside.as_slice(),
        }
    }

    /// Returns whether the profiles that it is about, which are read so now, only take away from what they were.
    pub(crate) fn is_taken_from(&self, subject: Subject, profiles: &[Profile]) -> bool {
        let readings = match subject {
            Subject::Pair(_, _) => self.read_of_two(),
            Subject::Rule(_, _) => self.read_beside(),
        };
        let ends = subject.ends();
        for (new, number) in profiles.iter().zip(ends.iter()) {
            let is_less = match readings.get(*number) {
                Some(old) => only_takes_away(old, new),
                None => false,
            };
            if !is_less {
                return false;
            }
        }
        true
    }

    /// Returns whether the profiles only take away from those of another one, however they are read.
    pub(crate) fn only_takes_away_from(&self, old: &Office) -> bool {
        only_take_away(old.profiles.as_slice(), self.profiles.as_slice())
            && only_take_away(old.read_of_two(), self.read_of_two())
            && only_take_away(old.read_beside(), self.read_beside())
    }
}

/// How the profiles of a bundle are read for Unison, if it says some.
fn readings_in(alloc: Global, text: &[u8]) -> Result<Option<Readings>, AllocError> {
    let Some(of_two) = read_without_rules(alloc, text)? else {
        return Ok(None);
    };
    match read_in(alloc, text, true)? {
        Some((beside, _)) => Ok(Some(Readings::Unison { of_two, beside })),
        None => Ok(None),
    }
}
