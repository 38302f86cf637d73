//! The answer with what clashes in a set, or with its rounds.
ghost use Rattle.std.specs.Prelude.{◌≡◌, IfOk};
ghost use Rattle.hub_report.specs.Blocks.{bytes_in};
ghost use Rattle.hub_report.specs.ClashesAnswer as spec;

use crate::graph::Graph;
use crate::rounds::Cut;
use crate::told::{Answer, Clashing, Told};
use std::alloc::{AllocError, Global};

/// What clashes in a set, or its rounds.
#[derive(Drop)]
pub enum ClashesAnswer {
    /// The lines of all that clashes in the set, and of all that breaks a rule, what the first one says, and how many there are. There is at least one.
    Lines(String, Clashing),
    /// The same, as a graph.
    Graph(Graph),
    /// The rounds of the set.
    Cut(Cut),
}

impl ClashesAnswer {
    /// The exit status: 0 if the set is safe or all of it is in rounds, and 1 otherwise.
    pub(crate) fn status(&self) -> u8
        ensures { result ≡ spec.status_of self.now }
    {
        match self {
            ClashesAnswer::Lines(..) => 1,
            ClashesAnswer::Graph(graph) => { if graph.safe { 0 } else { 1 } }
            ClashesAnswer::Cut(cut) => { if cut.decided { 0 } else { 1 } }
        }
    }

    /// The lines that belong on standard error: which two profiles count as clashing, since their goal was too large.
    pub(crate) fn undecided(&self) -> &str
        ensures { result.now ≡ spec.undecided_of self.now }
    {
        match self {
            ClashesAnswer::Cut(cut) => cut.undecided.as_str(),
            ClashesAnswer::Lines(..) | ClashesAnswer::Graph(_) => "",
        }
    }

    /// The lines, the graph, or the text of the rounds.
    pub(crate) fn into_answer(self, alloc: Global) -> Result<Answer, AllocError>
        ensures { IfOk result (λ a. bytes_in a.text ≡ spec.text_of self) }
    {
        match self {
            ClashesAnswer::Lines(lines, clashing) => {
                let told = Told::Refused(clashing.first);
                Answer::with_totals(alloc, lines, told, clashing.totals)
            }
            ClashesAnswer::Graph(graph) => {
                Answer::of_bytes(alloc, graph.text.into_bytes(), Told::Yes)
            }
            ClashesAnswer::Cut(cut) => Answer::with_totals(alloc, cut.text, Told::Yes, cut.totals),
        }
    }
}
