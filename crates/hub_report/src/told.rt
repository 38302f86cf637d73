//! What was answered, as a value for remarks on it.
ghost use Rattle.std.specs.Prelude.{◌≡◌, IfOk, string_bytes};
ghost use Rattle.hub_report.specs.Blocks.{bytes_in};

use crate::blocks::{Blocks, block_of};
use crate::faulty_input::FaultyInput;
use crate::totals::Totals;
use hub_automaton::AutomatonFault;
use hub_cert::{CheckFault, Goal};
use hub_path::{Name, PathFault, RelPath, Root};
use hub_profile::{Rule, Verb};
use std::alloc::{AllocError, Global};

/// The text of an answer, and what it tells.
#[derive(Drop)]
pub struct Answer {
    /// The text.
    pub text: Blocks,
    /// What it tells.
    pub told: Told,
    /// Its numbers, if it is about all that clashes, or has rounds.
    pub totals: Option<Totals>,
}

impl Answer {
    /// The answer with this text.
    pub(crate) fn of_line(alloc: Global, line: &str, told: Told) -> Result<Answer, AllocError>
        ensures { IfOk result (λ a. bytes_in a.text ≡ line.now) }
    {
        let text = block_of(alloc, line)?;
        Ok(Answer {
            text,
            told,
            totals: None,
        })
    }

    /// The answer with the text of these bytes.
    pub(crate) fn of_bytes(alloc: Global, bytes: Vec<u8>, told: Told) -> Result<Answer, AllocError>
        ensures { IfOk result (λ a. bytes_in a.text ≡ bytes.items) }
    {
        let text = Blocks::new(alloc, bytes)?;
        Ok(Answer {
            text,
            told,
            totals: None,
        })
    }

    /// The answer with this text and these numbers.
    pub(crate) fn with_totals(
        alloc: Global,
        text: String,
        told: Told,
        totals: Option<Totals>,
    ) -> Result<Answer, AllocError>
        ensures { IfOk result (λ a. bytes_in a.text ≡ string_bytes text) }
    {
        let text = Blocks::new(alloc, text.into_bytes())?;
        Ok(Answer { text, told, totals })
    }
}

/// What is wrong in a set first, and how much is in all.
#[derive(Drop)]
pub struct Clashing {
    /// What the first line says.
    pub first: Refusal,
    /// The numbers of all, if the profiles were judged as Unison may run them.
    pub totals: Option<Totals>,
}

/// What an answer tells, for remarks on it.
#[derive(Drop)]
pub enum Told {
    /// Nothing to remark on, as that memory is out or that a profile reaches a path.
    Other,
    /// Nothing was answered, or with an empty bundle.
    Nothing,
    /// The profiles may run at the same time or in rounds, jobs were run, or the answer is a graph or a bundle that was read for Unison.
    Yes,
    /// The input can't be read, or it isn't a bundle.
    Faulty(FaultyInput),
    /// The profile doesn't reach the path that was asked for.
    NotReached,
    /// No profile has the name that was asked for.
    NoProfile,
    /// The path that was asked for is not a path.
    BadPath(PathFault),
    /// A run was asked for, and the bundle has no state.
    NoState,
    /// No bundle says what was read for Unison.
    NotImported,
    /// The set is refused. If the answer is all that clashes, this is its first line.
    Refused(Refusal),
    /// Lines for profiles, or the bundle with them.
    Mended(ToldMended),
    /// No jobs were run.
    NotRun(NotRun),
}

/// What an answer with lines for profiles tells.
#[derive(Drop)]
pub struct ToldMended {
    /// Whether there is a line.
    pub has_lines: bool,
    /// Why the set isn't safe with the lines, if it isn't.
    pub refusal: Option<Refusal>,
}

/// Why no jobs were run.
#[derive(Clone, Copy, Debug, PartialEq, Eq)]
pub enum NotRun {
    /// There are no workers or too many.
    BadWorkers,
    /// A thread can't be started.
    ThreadRefused,
    /// The state lacks a replica, or the jobs didn't fit. Tests show only the first.
    Unfit,
}

/// Why a set is refused. Profiles and rules are named by their numbers.
#[derive(Debug, Drop)]
pub enum Refusal {
    /// A profile writes where another one reaches a path.
    Overlap {
        /// The number of the profile that writes.
        writer: usize,
        /// The number of the profile that reaches.
        other: usize,
        /// The path that the other profile reaches.
        path: RelPath,
    },
    /// A profile may do what a rule forbids.
    Breach {
        /// The profile's number.
        profile: usize,
        /// The rule's number.
        rule: usize,
        /// What the rule forbids.
        verb: Verb,
        /// The path.
        path: RelPath,
        /// The rule's root.
        root: Root,
    },
    /// There are too many profiles.
    TooManyProfiles,
    /// Two profiles have this name.
    SameName(Name),
    /// One of these roots lies within the other.
    NestedRoots([Root; 2]),
    /// The paths and patterns have too many different characters.
    TooManyCharacters,
    /// A profile's paths and patterns have too many beginnings.
    TooManySpots,
    /// Two profiles share an archive, which two runs of Unison at once would spoil, whatever paths they reach.
    SameArchive {
        /// The number of the first profile.
        first: usize,
        /// The number of the second one.
        second: usize,
    },
    /// Two profiles have nested roots, and may reach one another's paths: they aren't searched together.
    NestedProfiles {
        /// The number of the first profile.
        first: usize,
        /// The number of the second one.
        second: usize,
    },
    /// A goal has too many stages to be searched.
    TooLarge,
    /// The certificates don't show that the set is safe.
    BadCertificates,
}

impl Refusal {
    /// Why a set with these rules is refused by a fault.
    pub fn of(rules: &[Rule], fault: &CheckFault) -> Result<Refusal, AllocError> {
        Ok(match fault {
            CheckFault::TooManyProfiles => Refusal::TooManyProfiles,
            CheckFault::SameName { name } => Refusal::SameName(name.copy()?),
            CheckFault::NestedRoots { first, second } => {
                Refusal::NestedRoots([first.copy()?, second.copy()?])
            }
            CheckFault::Overlap {
                writer,
                other,
                path,
                ..
            } => Refusal::Overlap {
                writer: *writer,
                other: *other,
                path: path.copy()?,
            },
            CheckFault::Breach {
                profile,
                rule,
                path,
            } => return breach_of(rules, *profile, *rule, path),
            CheckFault::TooLarge { .. } => Refusal::TooLarge,
            CheckFault::AlphabetFault(AutomatonFault::TooManyCharacters) => {
                Refusal::TooManyCharacters
            }
            CheckFault::AlphabetFault(AutomatonFault::TooManySpots) => Refusal::TooManySpots,
            _ => Refusal::BadCertificates,
        })
    }

    /// Why profiles are refused in Unison, where each two are searched together, and each one with these rules. A clash without a
    /// certificate is one of profiles with nested roots.
    pub fn in_unison(rules: &[Rule], fault: &CheckFault) -> Result<Refusal, AllocError> {
        match fault {
            CheckFault::Missing {
                goal: Goal::Clash { writer, other, .. },
            } => Ok(Refusal::NestedProfiles {
                first: *writer,
                second: *other,
            }),
            _ => Refusal::of(rules, fault),
        }
    }

    /// That two profiles of these numbers share an archive.
    pub fn of_archive(numbers: (usize, usize)) -> Refusal {
        Refusal::SameArchive {
            first: numbers.0,
            second: numbers.1,
        }
    }
}

/// Why a set with these rules is refused if a profile may break the rule of that number.
fn breach_of(
    rules: &[Rule],
    profile: usize,
    number: usize,
    path: &RelPath,
) -> Result<Refusal, AllocError> {
    let Some(rule) = rules.get(number) else {
        return Ok(Refusal::BadCertificates);
    };
    Ok(Refusal::Breach {
        profile,
        rule: number,
        verb: rule.verb,
        path: path.copy()?,
        root: rule.root.copy()?,
    })
}
