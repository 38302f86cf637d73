//! An answer by which a faulty profile keeps no other from being read: a plan of Unison's runs, or rounds.
ghost use Rattle.std.specs.Prelude.{◌≡◌, IfOk};
ghost use Rattle.hub_report.specs.Blocks.{bytes_in};
ghost use Rattle.hub_report.specs.PlanAnswer as spec;

use crate::faulty_input::FaultyInput;
use crate::plan::Plan;
use crate::rounds::Cut;
use crate::told::{Answer, Refusal, Told};
use hub_bundle::SectionFault;
use std::alloc::{AllocError, Global};

/// A plan, or rounds of the profiles that are read, or why there are none.
#[derive(Drop)]
pub enum PlanAnswer {
    /// The plan.
    Made(Plan),
    /// The rounds of those that are read, and which others run alone.
    Cut(Cut),
    /// One or two of the profiles can't be searched. The line of the fault, and what it says.
    Refused(String, Refusal),
    /// The rules are faulty.
    BadRules(SectionFault),
}

impl PlanAnswer {
    /// The exit status: 0 if no profile is refused, or all is decided of rounds and of those that run alone, 1 if one is or can't be
    /// searched, and 2 for faulty rules.
    pub(crate) fn status(&self) -> u8
        ensures { result ≡ spec.status_of self.now }
    {
        match self {
            PlanAnswer::Made(plan) => { if plan.is_whole { 0 } else { 1 } }
            PlanAnswer::Cut(cut) => { if cut.decided { 0 } else { 1 } }
            PlanAnswer::Refused(..) => 1,
            PlanAnswer::BadRules(_) => 2,
        }
    }

    /// The lines that belong on standard error: which two profiles count as clashing, since their goal was too large.
    pub(crate) fn undecided(&self) -> &str
        ensures { result.now ≡ spec.undecided_of self.now }
    {
        match self {
            PlanAnswer::Cut(cut) => cut.undecided.as_str(),
            _ => "",
        }
    }

    /// The lines of the plan or of the rounds, or the line of the fault.
    pub(crate) fn into_answer(self, alloc: Global) -> Result<Answer, AllocError>
        ensures { IfOk result (λ a. bytes_in a.text ≡ spec.text_of self) }
    {
        match self {
            PlanAnswer::Made(plan) => Answer::of_bytes(alloc, plan.text.into_bytes(), Told::Yes),
            PlanAnswer::Cut(cut) => Answer::with_totals(alloc, cut.text, Told::Yes, cut.totals),
            PlanAnswer::Refused(line, refusal) => {
                Answer::of_bytes(alloc, line.into_bytes(), Told::Refused(refusal))
            }
            PlanAnswer::BadRules(fault) => FaultyInput::BadSection(fault).into_answer(alloc),
        }
    }
}
