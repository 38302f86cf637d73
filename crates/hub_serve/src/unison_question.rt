//! What is asked about profiles as Unison may run them.
ghost use Rattle.std.specs.Prelude.{◌≡◌};
ghost use Rattle.hub_serve.specs.InUnison as spec;

use hub_cli::{Question, Reading};

/// A question about profiles as Unison may run them, where each two are judged by themselves.
#[derive(Clone, Copy)]
pub(crate) enum UnisonQuestion {
    /// Whether they are safe together.
    Check,
    /// Every overlap and every breach.
    Clashes,
    /// The same, drawn as a graph.
    Graph,
    /// Rounds of profiles that may run at the same time.
    Rounds,
}

impl UnisonQuestion {
    /// What a question asks about them, if it is about them.
    pub(crate) fn of(question: Question) -> Option<UnisonQuestion>
        ensures { result ≡ spec.unison_question question }
    {
        match question {
            Question::Check(Reading::Unison) => Some(UnisonQuestion::Check),
            Question::Clashes(Reading::Unison) => Some(UnisonQuestion::Clashes),
            Question::Graph(Reading::Unison) => Some(UnisonQuestion::Graph),
            Question::Rounds(Reading::Unison) => Some(UnisonQuestion::Rounds),
            _ => None,
        }
    }
}
