//! Outputs that take little at a time, nothing, or fail.

use crate::devices::{CALLS, Failure, Kept, Pieces};
use crate::shown::served;
use anyhow::{Context, Result, bail, ensure};
use std::io::Eprint;
use std::sync::Wait;
use std::thread::Threads;

/// How many calls an output gets that takes so many bytes at a time, the flush among them, and the status if any one of them fails.
/// An error if the calls are others for another kind of failure.
pub(crate) fn failing<R: AllocGlobal + Eprint + Threads + Wait + Sync>(
    rt: &R,
    size: usize,
    words: &str,
    text: &[u8],
) -> Result<String> {
    let mut whole = Kept::new(rt.alloc());
    served(rt, words, &mut Pieces::new(text, usize::MAX, 0), &mut whole)?;
    let whole = whole.text.as_slice();
    let calls = calls_of(rt, size, words, text, whole, Failure::Error)?;
    for failure in [Failure::Interrupted, Failure::Full] {
        let others = calls_of(rt, size, words, text, whole, failure)?;
        ensure!(others == calls, "{others} calls");
    }
    Ok(format!(in rt.alloc(); "{calls} calls, failing: 2")?)
}

/// How many calls an output gets. Each of them is made to fail in turn. An error if an answer is wrong.
fn calls_of<R: AllocGlobal + Eprint + Threads + Wait + Sync>(
    rt: &R,
    size: usize,
    words: &str,
    text: &[u8],
    whole: &[u8],
    failure: Failure,
) -> Result<usize> {
    for call in 1..CALLS {
        let mut output = Kept::failing(rt.alloc(), size, call, failure);
        let status = served(
            rt,
            words,
            &mut Pieces::new(text, usize::MAX, 0),
            &mut output,
        )?;
        if output.calls < call {
            ensure!(output.text.as_slice() == whole, "another answer");
            return Ok(call - 1);
        }
        judge(&output, size, call, status, whole).context(format_args!("call {call}"))?;
    }
    bail!("more than {CALLS} calls")
}

/// An error if the status isn't 2 after a call that failed, if another call followed it, or if something else was written before it
/// than the start of the answer, so many bytes a call.
fn judge(output: &Kept, size: usize, call: usize, status: u8, whole: &[u8]) -> Result<()> {
    let text = output.text.as_slice();
    let written = size.saturating_mul(call.saturating_sub(1)).min(whole.len());
    ensure!(status == 2, "status {status}");
    ensure!(output.calls == call, "{} calls", output.calls);
    ensure!(text.len() == written, "{} bytes", text.len());
    ensure!(whole.starts_with(text), "another answer");
    Ok(())
}
