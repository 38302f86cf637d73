//! What the jobs of a set did and left, when they were run by rounds.
ghost use Rattle.std.specs.Prelude.{◌≡◌, string_bytes, IfOk};
ghost use Rattle.hub_report.specs.Blocks.{bytes_in};
ghost use Rattle.hub_report.specs.RoundsRun as spec;

use crate::blocks::Blocks;
use crate::run::{error_line, with_state};
use hub_job::RunFault;
use hub_state::State;
use std::alloc::{AllocError, Global};

/// What the jobs of the rounds of a set did, and what they left.
#[derive(Drop)]
pub struct RoundsRun {
    /// How many rounds there are.
    pub rounds: usize,
    /// The lines of the jobs of each round that was run, round by round.
    pub lines: String,
    /// The state that they left. The rounds that weren't run would go on from it.
    pub state: State,
    /// Whether all rounds were run and all jobs are finished.
    pub finished: bool,
    /// Why a round wasn't run, if that is so.
    pub error: Option<RunFault>,
}

/// How many rounds there are, the lines of the jobs of those that were run, why the next one wasn't, and the state that they left.
pub fn text_of_rounds_run(alloc: Global, run: RoundsRun) -> Result<Blocks, AllocError>
    ensures { IfOk result (λ t. bytes_in t ≡ spec.rounds_run_text run) }
{
    let RoundsRun {
        rounds,
        lines,
        state,
        error,
        ..
    } = run;
    let reason = error_text(alloc, &error)?;
    let above = text_above(alloc, rounds, lines, reason.as_str())?;
    let text = with_state(alloc, above.into_bytes(), &state)?;
    Ok(text)
}

/// The lines above the state, in the memory of those of the jobs.
fn text_above(
    alloc: Global,
    rounds: usize,
    lines: String,
    reason: &str,
) -> Result<String, AllocError>
    ensures { IfOk result (λ t. string_bytes t
        ≡ spec.text_above rounds (string_bytes lines) reason.now) }
{
    let count = format!(in alloc; "rounds {rounds}\n")?;
    let mut text = lines;
    text.insert_str(0, count.as_str())?;
    text.push_str(reason)?;
    Ok(text)
}

/// The line that says why a round wasn't run, if that is so.
fn error_text(alloc: Global, error: &Option<RunFault>) -> Result<String, AllocError>
    ensures { IfOk result (λ t. string_bytes t ≡ spec.error_text error.now) }
{
    match error {
        Some(error) => error_line(alloc, error),
        None => Ok(String::new(alloc)),
    }
}
