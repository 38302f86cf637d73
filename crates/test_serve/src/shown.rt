//! How answers are shown, and how they come about.

use anyhow::Result;
use hub_serve::{NoProgress, serve};
use hub_text::Watched;
use std::alloc::Global;
use std::io::{Eprint, Read, Write};
use std::str::from_utf8;
use std::sync::Wait;
use std::thread::Threads;

/// How many lines of an answer are shown.
const LINES: usize = 3;

/// Has these words served. They are separated by spaces, and the first one is the program's name. Returns the status.
pub(crate) fn served<T: AllocGlobal + Eprint + Threads + Wait + Sync, R: Read, W: Write>(
    rt: &T,
    words: &str,
    input: &mut R,
    output: &mut W,
) -> Result<u8> {
    let words: Vec<&str> = words.split(' ').collect(rt.alloc())?;
    let mut input = Watched::new(input);
    let mut output = Watched::new(output);
    Ok(serve(rt, words.as_slice(), &mut input, &mut output, &NoProgress))
}

/// Shows an answer: its status and its first lines.
pub(crate) fn shown(alloc: Global, status: u8, text: &[u8]) -> Result<String> {
    let mut shown = format!(in alloc; "{status} ")?;
    for (number, line) in from_utf8(text)?.split_inclusive('\n').enumerate() {
        if number == LINES {
            shown.push_str("..")?;
            break;
        }
        push_line(&mut shown, line)?;
    }
    Ok(shown)
}

/// Adds a line, and `\n` for its end.
fn push_line(shown: &mut String, line: &str) -> Result<()> {
    match line.strip_suffix('\n') {
        Some(line) => write!(shown, "{line}\\n")?,
        None => shown.push_str(line)?,
    }
    Ok(())
}
