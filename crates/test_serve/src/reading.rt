//! Inputs that come in pieces, that fail, and that don't end.

use crate::devices::{Blanks, CALLS, Kept, Pieces};
use crate::shown::{served, shown};
use anyhow::{Result, bail};
use std::io::Eprint;
use std::sync::Wait;
use std::thread::Threads;

/// How many bytes of an input come at a time. `serve` asks for 4,096.
const SIZES: [usize; 5] = [1, 2, 7, 100, 4_096];

/// What is written for an input, whatever the size of its pieces is.
pub(crate) fn answer<R: AllocGlobal + Eprint + Threads + Wait + Sync>(
    rt: &R,
    words: &str,
    text: &[u8],
) -> Result<String> {
    let whole = in_pieces(rt, words, &mut Pieces::new(text, usize::MAX, 0))?;
    for size in SIZES {
        let other = in_pieces(rt, words, &mut Pieces::new(text, size, 0))?;
        if other != whole {
            bail!("by {size} bytes: another answer");
        }
    }
    shown_answer(rt, &whole)
}

/// A status, and what was written.
#[derive(Drop, PartialEq)]
struct Written {
    status: u8,
    text: Vec<u8>,
}

/// What is written for an input that comes in pieces.
fn in_pieces<R: AllocGlobal + Eprint + Threads + Wait + Sync>(
    rt: &R,
    words: &str,
    input: &mut Pieces<'_>,
) -> Result<Written> {
    let mut output = Kept::new(rt.alloc());
    let status = served(rt, words, input, &mut output)?;
    let text = output.text;
    Ok(Written { status, text })
}

fn shown_answer<R: AllocGlobal>(rt: &R, answer: &Written) -> Result<String> {
    shown(rt.alloc(), answer.status, answer.text.as_slice())
}

/// How many reads of so many bytes there are, and what is written if any one of them fails. An error if an answer is another one,
/// or if there is a read after the one that failed.
pub(crate) fn failing<R: AllocGlobal + Eprint + Threads + Wait + Sync>(
    rt: &R,
    size: usize,
    words: &str,
    text: &[u8],
) -> Result<String> {
    let mut first = String::new(rt.alloc());
    for call in 1..CALLS {
        let mut input = Pieces::new(text, size, call);
        let answer = in_pieces_shown(rt, words, &mut input)?;
        if input.calls < call {
            return Ok(format!(in rt.alloc(); "{} reads, failing: {first}", call - 1)?);
        }
        if input.calls > call {
            bail!("read {call} failed, and another one followed");
        }
        if call == 1 {
            first = answer;
        } else if answer != first {
            bail!("read {call} failed: {answer}");
        }
    }
    bail!("more than {CALLS} reads")
}

fn in_pieces_shown<R: AllocGlobal + Eprint + Threads + Wait + Sync>(
    rt: &R,
    words: &str,
    input: &mut Pieces<'_>,
) -> Result<String> {
    let answer = in_pieces(rt, words, input)?;
    shown_answer(rt, &answer)
}

/// How often so many blanks are read, if they come in pieces of that size, and what is written.
pub(crate) fn blanks<R: AllocGlobal + Eprint + Threads + Wait + Sync>(
    rt: &R,
    left: usize,
    size: usize,
) -> Result<String> {
    let calls = 0;
    let mut input = Blanks { left, size, calls };
    let mut output = Kept::new(rt.alloc());
    let status = served(rt, "hubsync", &mut input, &mut output)?;
    let text = shown(rt.alloc(), status, output.text.as_slice())?;
    Ok(format!(in rt.alloc(); "{} reads, {text}", input.calls)?)
}
