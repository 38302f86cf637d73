//! The answer about profiles as Unison may run them.
ghost use Rattle.std.specs.Prelude.{◌≡◌, IfOk};
ghost use Rattle.hub_report.specs.Blocks.{bytes_in};
ghost use Rattle.hub_report.specs.UnisonAnswer as spec;

use crate::clashes_answer::ClashesAnswer;
use crate::told::{Answer, Refusal, Told};
use std::alloc::{AllocError, Global};

/// What is answered about profiles as Unison may run them, where each two are judged by themselves.
#[derive(Drop)]
pub enum UnisonAnswer {
    /// Nothing clashes, no rule may be broken, and no archive is shared.
    Safe,
    /// The line of the first clash or breach, and what it says.
    Refused(String, Refusal),
    /// One or two of the profiles can't be searched. The line of the fault, and what it says.
    Unsearched(String, Refusal),
    /// Two of the profiles share an archive, and nothing else is wrong. The line of the first two, and what it says.
    SameArchive(String, Refusal),
    /// All that clashes, as lines or as a graph, or rounds.
    Clashes(ClashesAnswer),
}

impl UnisonAnswer {
    /// The exit status: 0 if all is safe or in rounds, and 1 otherwise.
    pub(crate) fn status(&self) -> u8
        ensures { result ≡ spec.status_of self.now }
    {
        match self {
            UnisonAnswer::Safe => 0,
            UnisonAnswer::Refused(..)
            | UnisonAnswer::Unsearched(..)
            | UnisonAnswer::SameArchive(..) => 1,
            UnisonAnswer::Clashes(answer) => answer.status(),
        }
    }

    /// The lines that belong on standard error.
    pub(crate) fn undecided(&self) -> &str
        ensures { result.now ≡ spec.undecided_of self.now }
    {
        match self {
            UnisonAnswer::Clashes(answer) => answer.undecided(),
            _ => "",
        }
    }

    /// `safe`, the line, the lines of all that clashes, the graph, or the text of the rounds.
    pub(crate) fn into_answer(self, alloc: Global) -> Result<Answer, AllocError>
        ensures { IfOk result (λ a. bytes_in a.text ≡ spec.text_of self) }
    {
        match self {
            UnisonAnswer::Safe => Answer::of_line(alloc, "safe\n", Told::Yes),
            UnisonAnswer::Refused(line, refusal)
            | UnisonAnswer::Unsearched(line, refusal)
            | UnisonAnswer::SameArchive(line, refusal) => {
                Answer::of_bytes(alloc, line.into_bytes(), Told::Refused(refusal))
            }
            UnisonAnswer::Clashes(answer) => answer.into_answer(alloc),
        }
    }
}
