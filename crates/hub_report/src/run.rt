//! What jobs did and left, or why they weren't run, and how this is written.
ghost use Rattle.std.specs.Prelude.{◌≡◌, ◌++◌, string_bytes, IfOk};
ghost use Rattle.hub_state.specs.Writing.{state_text};
ghost use Rattle.hub_report.specs.Blocks.{bytes_in};
ghost use Rattle.hub_report.specs.Run as runs;

use crate::blocks::Blocks;
use crate::parts::joined;
use crate::told::NotRun;
use hub_job::RunFault;
use hub_path::Root;
use hub_state::{State, write_state};
use hub_text::Watched;
use std::alloc::{AllocError, Global};

/// What the jobs of a set did, and what they left.
#[derive(Drop)]
pub struct Run {
    /// A line for each job, and below that of a finished job a line for each of its items.
    pub lines: String,
    /// The state that they left.
    pub state: State,
    /// Whether each of them is finished.
    pub finished: bool,
}

/// What it tells that jobs weren't run for this reason.
pub(crate) fn not_run(fault: &RunFault) -> NotRun {
    match fault {
        RunFault::NoWorkers | RunFault::TooManyWorkers => NotRun::BadWorkers,
        RunFault::ThreadRefused => NotRun::ThreadRefused,
        _ => NotRun::Unfit,
    }
}

/// The first line, and below it what the jobs did and the text of the state that they left.
pub fn text_of_run(alloc: Global, first: &str, run: Run) -> Result<Blocks, AllocError>
    ensures { IfOk result (λ t. bytes_in t
        ≡ first.now ++ (string_bytes run.lines ++ state_text run.state)) }
{
    let Run { lines, state, .. } = run;
    with_state(alloc, below(first, lines)?, &state)
}

/// These bytes, and below them the text of a state.
pub(crate) fn with_state(alloc: Global, above: Vec<u8>, state: &State) -> Result<Blocks, AllocError>
    ensures { IfOk result (λ t. bytes_in t ≡ above.items ++ state_text state.now) }
{
    let mut output = Watched::new(Blocks::new(alloc, above)?);
    match write_state(alloc, &mut output, state) {
        Ok(()) => Ok(output.into_inner()),
        Err(_) => Err(AllocError),
    }
}

/// The first line, and below it these, in their own memory.
fn below(first: &str, lines: String) -> Result<Vec<u8>, AllocError>
    ensures { IfOk result (λ t. t.items ≡ first.now ++ string_bytes lines) }
{
    let mut text = lines;
    text.insert_str(0, first)?;
    Ok(text.into_bytes())
}

/// The first line, and below it the line that says why the jobs weren't run.
pub fn text_of_error(alloc: Global, first: &str, fault: &RunFault) -> Result<Blocks, AllocError>
    ensures { IfOk result (λ t. bytes_in t ≡ first.now ++ runs.error_line fault.now) }
{
    let line = error_line(alloc, fault)?;
    Blocks::new(alloc, below(first, line)?)
}

/// The line that says why jobs weren't run.
pub(crate) fn error_line(alloc: Global, fault: &RunFault) -> Result<String, AllocError>
    ensures { IfOk result (λ t. string_bytes t ≡ runs.error_line fault.now) }
{
    match fault {
        RunFault::NoWorkers => String::from_str(alloc, "run fault: NoWorkers\n"),
        RunFault::TooManyWorkers => String::from_str(alloc, "run fault: TooManyWorkers\n"),
        RunFault::MissingReplica { root } => missing_line(alloc, root),
        RunFault::Mismatch { .. } => String::from_str(alloc, "run fault: Mismatch\n"),
        RunFault::BadTurn { .. } => String::from_str(alloc, "run fault: BadTurn\n"),
        RunFault::ThreadRefused => String::from_str(alloc, "run fault: ThreadRefused\n"),
        RunFault::Stranger { .. } => String::from_str(alloc, "run fault: Stranger\n"),
        RunFault::OutOfMemory => String::from_str(alloc, "run fault: OutOfMemory\n"),
    }
}

/// The line that a root's replica is missing.
fn missing_line(alloc: Global, root: &Root) -> Result<String, AllocError>
    ensures { IfOk result (λ t. string_bytes t ≡ runs.missing_line root.now) }
{
    joined(alloc, &["run fault: MissingReplica ", root.as_str(), "\n"])
}
