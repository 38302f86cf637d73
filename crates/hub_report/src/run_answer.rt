//! The answer with what came of a run.
ghost use Rattle.std.specs.Prelude.{◌≡◌, IfOk};
ghost use Rattle.hub_report.specs.Blocks.{bytes_in};
ghost use Rattle.hub_report.specs.RunAnswer as spec;

use crate::blocks::Blocks;
use crate::rounds_run::{RoundsRun, text_of_rounds_run};
use crate::run::{Run, not_run, text_of_error, text_of_run};
use crate::told::{Answer, Told};
use hub_job::RunFault;
use std::alloc::{AllocError, Global};

/// What came of a run.
#[derive(Drop)]
pub enum RunAnswer {
    /// The profiles may run at the same time, and their jobs were run on the bundle's state.
    Ran(Run),
    /// The rounds of the set were run one after another on the bundle's state.
    RanByRounds(RoundsRun),
    /// The jobs of the set were run in order on the bundle's state.
    RanInOrder(Run),
    /// The profiles may run at the same time. Their jobs weren't run.
    NotRun(RunFault),
    /// The jobs may be run in order. They weren't.
    NotRunInOrder(RunFault),
}

/// The first line of the answer with what jobs of a safe set did.
const SAFE: &str = "safe\n";

/// That of the answer with what jobs did that were run in order.
const IN_ORDER: &str = "in order\n";

impl RunAnswer {
    /// The exit status: 0 if each job is finished, and 3 if one was stopped or jobs weren't run.
    pub(crate) fn status(&self) -> u8
        ensures { result ≡ spec.status_of self.now }
    {
        match self {
            RunAnswer::Ran(run) | RunAnswer::RanInOrder(run) => { if run.finished { 0 } else { 3 } }
            RunAnswer::RanByRounds(run) => { if run.finished { 0 } else { 3 } }
            RunAnswer::NotRun(_) | RunAnswer::NotRunInOrder(_) => 3,
        }
    }

    /// `safe`, the number of rounds or `in order`, and below it what the jobs did and the text of the state that they left, or why they
    /// weren't run.
    pub(crate) fn into_answer(self, alloc: Global) -> Result<Answer, AllocError>
        ensures { IfOk result (λ a. bytes_in a.text ≡ spec.text_of self) }
    {
        let told = self.told();
        let text = self.into_text(alloc)?;
        Ok(Answer {
            text,
            told,
            totals: None,
        })
    }

    /// The text of the answer.
    fn into_text(self, alloc: Global) -> Result<Blocks, AllocError>
        ensures { IfOk result (λ t. bytes_in t ≡ spec.text_of self) }
    {
        match self {
            RunAnswer::Ran(run) => text_of_run(alloc, SAFE, run),
            RunAnswer::RanByRounds(run) => text_of_rounds_run(alloc, run),
            RunAnswer::RanInOrder(run) => text_of_run(alloc, IN_ORDER, run),
            RunAnswer::NotRun(error) => text_of_error(alloc, SAFE, &error),
            RunAnswer::NotRunInOrder(error) => text_of_error(alloc, IN_ORDER, &error),
        }
    }

    /// What the answer tells.
    fn told(&self) -> Told {
        match self {
            RunAnswer::Ran(_) | RunAnswer::RanInOrder(_) => Told::Yes,
            RunAnswer::RanByRounds(run) => match &run.error {
                Some(error) if run.lines.is_empty() => Told::NotRun(not_run(error)),
                _ => Told::Yes,
            },
            RunAnswer::NotRun(error) | RunAnswer::NotRunInOrder(error) => {
                Told::NotRun(not_run(error))
            }
        }
    }
}
