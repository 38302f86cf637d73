//! An answer to an input: its status and its text.
ghost use Rattle.std.specs.Prelude.{◌≡◌, IfOk};
ghost use Rattle.hub_report.specs.Blocks.{bytes_in};
ghost use Rattle.hub_report.specs.Report as report;

use crate::clashes_answer::ClashesAnswer;
use crate::faulty_input::FaultyInput;
use crate::mended::Mended;
use crate::plan_answer::PlanAnswer;
use crate::reach_answer::ReachAnswer;
use crate::run_answer::RunAnswer;
use crate::told::{Answer, Refusal, Told};
use crate::unison_answer::UnisonAnswer;
use crate::verdict::Verdict;
use std::alloc::{AllocError, Global};

/// The line of the answer that memory is out.
pub const OUT_OF_MEMORY: &str = "fault: out of memory\n";

/// What the program answers to an input.
#[derive(Drop)]
pub enum Report<'a> {
    /// The input can't be read, or it isn't a bundle.
    Faulty(FaultyInput),
    /// Whether a profile reaches a path.
    Reach(ReachAnswer<'a>),
    /// A run was asked for, and the bundle has no state.
    NoState,
    /// The profiles may not run at the same time, or can't be shown to. The line of the fault, and what it says.
    Refused(String, Refusal),
    /// Nothing but an archive that two profiles share keeps the profiles from running at the same time. Its line, and what it says.
    SameArchive(String, Refusal),
    /// The profiles may run at the same time.
    Verdict(Verdict),
    /// What clashes in the set, or its rounds.
    Clashes(ClashesAnswer),
    /// What came of a run.
    Run(RunAnswer),
    /// The text of a bundle of what was read for Unison.
    Imported(Vec<u8>),
    /// No bundle says what was read: it would need more lines or longer patterns than there may be.
    NotImported,
    /// A plan of Unison's runs, or rounds beside which profiles run alone.
    Planned(PlanAnswer),
    /// What is answered about profiles as Unison may run them.
    InUnison(UnisonAnswer),
    /// Lines that make a set safe, or the bundle with them.
    Mended(Mended),
    /// The bundle with the lines that were found isn't read as it was meant. Tests show none.
    NotMended,
    /// The check didn't verify a round. Tests show none.
    NotVerified,
    /// Out of memory.
    OutOfMemory,
}

impl Report<'_> {
    /// The exit status: 0 if the set is safe, also with lines that were found, if all of it is in rounds, for both answers to
    /// `reach` and for a bundle; 1 for a refusal, also with such lines, for a shared archive, for what clashes, and for rounds that leave a profile out or rest on a goal that was too large; 2 for a fault; 3 if
    /// jobs weren't run or a job was stopped.
    pub fn status(&self) -> u8
        ensures { result ≡ report.status_of self.now }
    {
        match self {
            Report::Verdict(_) | Report::Imported(_) => 0,
            Report::Refused(..) | Report::SameArchive(..) => 1,
            Report::Faulty(_)
            | Report::NoState
            | Report::NotImported
            | Report::NotMended
            | Report::NotVerified
            | Report::OutOfMemory => 2,
            Report::Reach(answer) => answer.status(),
            Report::Clashes(answer) => answer.status(),
            Report::Run(answer) => answer.status(),
            Report::Planned(answer) => answer.status(),
            Report::InUnison(answer) => answer.status(),
            Report::Mended(mended) => mended.status(),
        }
    }

    /// The lines that belong on standard error: which two profiles count as clashing, since their goal was too large.
    pub fn undecided(&self) -> &str
        ensures { result.now ≡ report.undecided_of self.now }
    {
        match self {
            Report::Clashes(answer) => answer.undecided(),
            Report::InUnison(answer) => answer.undecided(),
            Report::Planned(answer) => answer.undecided(),
            _ => "",
        }
    }

    /// The text that says the answer, and what it tells. The text is its line, the lines of clashes or of rounds, the graph, the text of
    /// certificates or of a bundle, the lines that were found, or `safe` or the number of rounds and below it what the jobs did and the
    /// text of the state that they left. It ends with LF, if it isn't the empty bundle.
    pub fn into_answer(self, alloc: Global) -> Result<Answer, AllocError>
        ensures { IfOk result (λ a. bytes_in a.text ≡ report.text_of self.entry) }
    {
        match self {
            Report::Faulty(input) => input.into_answer(alloc),
            Report::Reach(answer) => answer.into_answer(alloc),
            Report::NoState => Answer::of_line(alloc, "fault: no state\n", Told::NoState),
            Report::Refused(line, refusal) => {
                Answer::of_bytes(alloc, line.into_bytes(), Told::Refused(refusal))
            }
            Report::SameArchive(line, refusal) => {
                Answer::of_bytes(alloc, line.into_bytes(), Told::Refused(refusal))
            }
            Report::Verdict(verdict) => verdict.into_answer(alloc),
            Report::Clashes(answer) => answer.into_answer(alloc),
            Report::Run(answer) => answer.into_answer(alloc),
            Report::Imported(text) => imported(alloc, text),
            Report::NotImported => Answer::of_line(
                alloc,
                "fault: no bundle says what was read\n",
                Told::NotImported,
            ),
            Report::Planned(answer) => answer.into_answer(alloc),
            Report::InUnison(answer) => answer.into_answer(alloc),
            Report::Mended(mended) => mended.into_answer(alloc),
            Report::NotMended => Answer::of_line(
                alloc,
                "fault: the lines were not read as they were meant\n",
                Told::Other,
            ),
            Report::NotVerified => {
                Answer::of_line(alloc, "fault: a round was not verified\n", Told::Other)
            }
            Report::OutOfMemory => Answer::of_line(alloc, OUT_OF_MEMORY, Told::Other),
        }
    }
}

/// The answer with the text of a bundle of what was read for Unison.
fn imported(alloc: Global, text: Vec<u8>) -> Result<Answer, AllocError>
    ensures { IfOk result (λ a. bytes_in a.text ≡ text.items) }
{
    let told = if text.is_empty() {
        Told::Nothing
    } else {
        Told::Yes
    };
    Answer::of_bytes(alloc, text, told)
}
