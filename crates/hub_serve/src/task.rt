//! What is to be done about a set.
ghost use Rattle.std.specs.Prelude.{◌≡◌};
ghost use Rattle.hub_serve.specs.Task as spec;

use hub_cli::{DEFAULT_WORKERS, Question, Reading};
use hub_state::State;

/// What is to be done about the set of a bundle's profiles and rules.
#[derive(Drop)]
pub enum Task {
    /// To say whether the set is safe, with its profiles read so.
    Check(Reading),
    /// And to run its jobs on this state, if it is.
    RunJobs {
        /// The number of workers.
        workers: u8,
        /// The state.
        state: State,
    },
    /// To run its rounds one after another on this state.
    RunByRounds {
        /// The number of workers.
        workers: u8,
        /// The state.
        state: State,
    },
    /// To run its jobs on this state, as if one after another.
    RunInOrder {
        /// The number of workers.
        workers: u8,
        /// The state.
        state: State,
    },
    /// To write certificates for its goals.
    Certify,
    /// To say whether the bundle's certificates show that it is safe.
    Verify,
    /// To say all that clashes in it, and all that breaks a rule.
    Clashes(Reading),
    /// To draw it and all that clashes in it.
    Graph(Reading),
    /// To cut it into rounds.
    Rounds(Reading),
}

impl Task {
    /// What a question asks to do if the bundle has that state, or none. A `None` is a run that has no state.
    pub fn for_question(question: Question, state: Option<State>) -> Option<Task>
        ensures { result ≡ spec.task_of question state }
    {
        match (question, state) {
            (Question::CheckWithState, Some(state)) => Some(Task::RunJobs {
                workers: DEFAULT_WORKERS,
                state,
            }),
            (Question::CheckWithState, None) => Some(Task::Check(Reading::Plain)),
            (Question::Check(reading), _) => Some(Task::Check(reading)),
            (Question::Run(workers), Some(state)) => Some(Task::RunJobs { workers, state }),
            (Question::RunByRounds(workers), Some(state)) => Some(Task::RunByRounds {
                workers,
                state,
            }),
            (Question::RunInOrder(workers), Some(state)) => Some(Task::RunInOrder {
                workers,
                state,
            }),
            (Question::Run(_) | Question::RunByRounds(_) | Question::RunInOrder(_), None) => None,
            (Question::Certify, _) => Some(Task::Certify),
            (Question::Verify, _) => Some(Task::Verify),
            (Question::Clashes(reading), _) => Some(Task::Clashes(reading)),
            (Question::Graph(reading), _) => Some(Task::Graph(reading)),
            (Question::Rounds(reading), _) => Some(Task::Rounds(reading)),
        }
    }
}
