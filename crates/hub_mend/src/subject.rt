//! What lines are to mend.
use hub_cert::{CheckFault, Goal};

/// What makes a set unsafe, by the numbers of its profiles and rules.
#[derive(Clone, Copy, Debug, PartialEq, Eq, PartialOrd, Ord)]
pub(crate) enum Subject {
    /// Two profiles clash.
    Pair(usize, usize),
    /// A profile may break a rule.
    Rule(usize, usize),
}

impl Subject {
    /// What a line of a set says.
    pub(crate) fn of_fault(fault: &CheckFault) -> Option<Subject> {
        match fault {
            CheckFault::Overlap { writer, other, .. } => Some(pair_of(*writer, *other)),
            CheckFault::Breach { profile, rule, .. } => Some(Subject::Rule(*profile, *rule)),
            CheckFault::TooLarge { goal } | CheckFault::Missing { goal } => Some(Subject::of_goal(
                *goal,
            )),
            _ => None,
        }
    }

    fn of_goal(goal: Goal) -> Subject {
        match goal {
            Goal::Clash { writer, other, .. } => pair_of(writer, other),
            Goal::Breach { profile, rule } => Subject::Rule(profile, rule),
        }
    }

    /// The numbers of the first and the last profile that it is about.
    pub(crate) fn ends(self) -> [usize; 2] {
        match self {
            Subject::Pair(first, second) => [first, second],
            Subject::Rule(one, _) => [one, one],
        }
    }

    /// It, if its profiles have these numbers.
    pub(crate) fn of_profiles(self, numbers: &[usize]) -> Subject {
        match self {
            Subject::Pair(first, second) => {
                Subject::Pair(number_at(numbers, first), number_at(numbers, second))
            }
            Subject::Rule(one, rule) => Subject::Rule(number_at(numbers, one), rule),
        }
    }

    /// Returns whether it is about that profile.
    pub(crate) fn is_about(self, profile: usize) -> bool {
        self.ends().contains(&profile)
    }
}

/// The number at a place.
fn number_at(numbers: &[usize], place: usize) -> usize {
    match numbers.get(place) {
        Some(number) => *number,
        None => place,
    }
}

/// Two profiles, the earlier one first.
fn pair_of(one: usize, other: usize) -> Subject {
    if one < other {
        Subject::Pair(one, other)
    } else {
        Subject::Pair(other, one)
    }
}
