//! What a line says of which profiles.
ghost use Rattle.std.specs.Prelude.{◌≡◌};
ghost use Rattle.hub_rounds.specs.Lines as said;

use crate::placing::Obstacle;
use hub_cert::{CheckFault, Goal};

/// What a line of [`crate::Clashes`], or of `hub_apart`, says of which profiles, by their numbers.
#[derive(Clone, Copy, Debug, PartialEq, Eq)]
pub enum Subject {
    /// These two may not run at the same time, whether they may was not decided, or their roots are nested.
    Pair {
        /// The profile that writes.
        writer: usize,
        /// The profile that reaches.
        other: usize,
    },
    /// This one may break a rule, or whether it may was not decided. So it stands in no round.
    Alone {
        /// The profile.
        profile: usize,
        /// Why it is in no round.
        reason: Obstacle,
    },
    /// Nothing. No line of a set says that.
    Nothing,
}

/// Returns what a line says of which profiles.
pub fn subject_of(line: &CheckFault) -> Subject
    ensures { result ≡ said.subject_of line.now }
{
    match line {
        CheckFault::Overlap { writer, other, .. } => Subject::Pair {
            writer: *writer,
            other: *other,
        },
        CheckFault::Breach { profile, rule, .. } => Subject::Alone {
            profile: *profile,
            reason: Obstacle::Breach(*rule),
        },
        CheckFault::TooLarge { goal } => subject_of_goal(*goal),
        CheckFault::Missing { goal } => subject_of_missing(*goal),
        _ => Subject::Nothing,
    }
}

/// Returns what it says of which profiles that a goal is too large.
fn subject_of_goal(goal: Goal) -> Subject
    ensures { result ≡ said.subject_of_goal goal }
{
    match goal {
        Goal::Clash { writer, other, .. } => Subject::Pair { writer, other },
        Goal::Breach { profile, rule } => Subject::Alone {
            profile,
            reason: Obstacle::TooLarge(rule),
        },
    }
}

/// Returns what it says of which profiles that nothing rules a goal out.
fn subject_of_missing(goal: Goal) -> Subject
    ensures { result ≡ said.subject_of_missing goal }
{
    match goal {
        Goal::Clash { writer, other, .. } => Subject::Pair { writer, other },
        Goal::Breach { .. } => Subject::Nothing,
    }
}
