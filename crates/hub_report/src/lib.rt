//! The answers of hubsync: the status and the text of each.
//!
//! - [`Report`] is an answer to an input. It has one case for each part of the program that answers: [`FaultyInput`],
//!   [`ReachAnswer`], [`Verdict`], [`ClashesAnswer`], [`UnisonAnswer`], [`PlanAnswer`] and [`RunAnswer`].
//! - [`Mended`] has lines that were found for profiles.
//! - [`Run`] is what the jobs of a safe set did and left, or those of any set that were run in order.
//! - [`RoundsRun`] is what the jobs of a set did and left that were run by rounds.
//! - [`lines_of_jobs`] are the lines that say what jobs did.
//! - [`lines_of_clashes`] are the lines of all that clashes in a set and of archives that are shared, and [`text_of_rounds`] is the text of its rounds.
//! - [`lines_in_unison`] are those of all that clashes in Unison, where each two profiles are judged by themselves, [`line_in_unison`]
//!   is the one of a fault, and [`text_of_numbers`] is the text of rounds of numbers of profiles.
//! - [`graph_of_clashes`] is the text of a [`Graph`] of profiles with their faults, for Graphviz.
//! - [`plan_of`] is the [`Plan`] of Unison's runs for a program that runs it, by the [`Roster`] of an input's profiles.
//! - [`lines_of_alone`] are the lines of the profiles that aren't read, beside which no other may run.
//! - [`undecided_pairs`] are the lines for standard error: which two profiles were too large to decide.
//! - [`Blocks`] is the text of an answer, in blocks. [`Told`] is what the answer tells, as a value for remarks on it, and
//!   [`Totals`] are its numbers.
//!
//! ```rust
//! let report = report_on(rt, alloc, asked, input, progress);
//! progress.over();
//! let status = report.status();
//! name_undecided(rt, report.undecided());
//! match report.into_answer(alloc) {
//!     Ok(answer) => Served {
//!         status: write_text(&answer.text, status, output),
//!         told: answer.told,
//!         totals: answer.totals,
//!     },
//!     Err(_) => Served {
//!         status: write_out_of_memory(output),
//!         told: Told::Other,
//!         totals: None,
//!     },
//! }
//! ```
//!
//! From `hub_serve/src/program.rt`.
//!
//! The contracts use the words of `specs/Report` (the text and the status of each answer; `specs/FaultyInput`, `ReachAnswer`,
//! `Verdict`, `ClashesAnswer`, `UnisonAnswer`, `PlanAnswer` and `RunAnswer` have those of its cases), `specs/Blocks` (the bytes of a text in blocks),
//! `specs/Jobs` (the lines of jobs), `specs/Rounds` (those of clashes and rounds), `specs/InUnison` (those of what clashes in Unison),
//! `specs/Plan` (those of plans), `specs/Alone` (those of profiles that run alone), `specs/RoundsRun` (the text of a run by
//! rounds), `specs/Graph` (that of a graph), `specs/Undecided` (the lines for standard error), `specs/Run` (the line of why jobs
//! weren't run), `specs/Refusal` (the lines of refusals), `specs/Archive` (those of archives that are shared) and `specs/Faults` (the names of faults and their lines). When an answer
//! is right is said in `hub_serve`.
//!
//! Only functions that return a `Result` or a `Report` allocate.
//!
//! # What is proved
//!
//! `status` and `into_answer` return the defined status and text of each answer, and each text ends with LF. The name of a fault is
//! written by a case for each fault, so no line goes on after it.
//!
//! # What is not
//!
//! When an answer is right is said in `hub_serve`. What [`Told`] and [`Totals`] say is only tested. What `undecided_pairs` gives goes to standard error, which no contract sees.
#![tactic(auto)]

mod alone;
mod archive;
mod blocks;
mod clashes_answer;
mod edges;
mod faults;
mod faulty_input;
mod graph;
mod in_unison;
mod jobs;
mod mended;
mod overlap;
mod pair;
mod parts;
mod plan;
mod plan_answer;
mod plan_order;
mod reach_answer;
mod refusal;
mod report;
mod rounds;
mod rounds_run;
mod run;
mod run_answer;
mod told;
mod totals;
mod undecided;
mod unison_answer;
mod verdict;

pub use alone::lines_of_alone;
pub use archive::archive_line;
pub use blocks::Blocks;
pub use clashes_answer::ClashesAnswer;
pub use faulty_input::FaultyInput;
pub use graph::{Graph, graph_of_clashes};
pub use in_unison::{line_in_unison, lines_in_unison};
pub use jobs::lines_of_jobs;
pub use mended::Mended;
pub use plan::{Plan, Roster, Unread, plan_of};
pub use plan_answer::PlanAnswer;
pub use reach_answer::ReachAnswer;
pub use refusal::lines_of_clashes;
pub use report::{OUT_OF_MEMORY, Report};
pub use rounds::{Cut, text_of_numbers, text_of_rounds};
pub use rounds_run::RoundsRun;
pub use run::Run;
pub use run_answer::RunAnswer;
pub use told::{Answer, Clashing, NotRun, Refusal, Told, ToldMended};
pub use totals::Totals;
pub use undecided::undecided_pairs;
pub use unison_answer::UnisonAnswer;
pub use verdict::Verdict;
