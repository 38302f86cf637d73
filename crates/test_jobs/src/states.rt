//! State texts: what is read of them, and what is written of the states that they say.

use crate::devices::{Failing, Kept, Pieces};
use anyhow::{Result, bail};
use hub_state::{State, StateFault, read_bytes, read_state, write_state};
use hub_text::Watched;
use std::alloc::Global;
use std::io::Read;
use std::str::from_utf8;
use test_kit::{bytes_of, cut, in_one_line, list_text, outcome_text, word_of};

/// The first line of a state text of version 1, which is read.
const HEADER: &str = "hubsync state 1\n";

/// The first line of a state text of version 2, which is written.
const WRITTEN_HEADER: &str = "hubsync state 2\n";

/// What stands between the first line and a line: nothing, a replica, half an archive, an archive, and an `end`.
const PLACES: [&str; 5] = [
    "",
    "replica /a\ndir d\nfile 61 f\n",
    "archive /a\n",
    "archive /a\nwith /b\ndir d\n\
     file 00112233445566778899aabbccddeeffFFEEDDCCBBAA99887766554433221100 f\n",
    "end\n",
];

/// How many bytes of a text come at a time.
const SIZES: [usize; 4] = [1, 2, 7, 100];

/// What is read of a text with this line at each place: `ok` or its fault. An `end` stands below the line.
pub(crate) fn line_answer(alloc: Global, field: &str) -> Result<String> {
    let line = bytes_of(alloc, field)?;
    let mut answers = Vec::new(alloc);
    for place in PLACES {
        answers.push(place_answer(alloc, place, line.as_slice())?)?;
    }
    list_text(alloc, answers.as_slice())
}

/// What is read of a text with this line at a place.
fn place_answer(alloc: Global, place: &str, line: &[u8]) -> Result<String> {
    let text = text_at(alloc, place, line)?;
    let answer = bytes_answer(alloc, text.as_slice())?;
    if answer.starts_with(WRITTEN_HEADER) {
        return Ok(String::from_str(alloc, "ok")?);
    }
    Ok(answer)
}

/// The text with this line at a place.
fn text_at(alloc: Global, place: &str, line: &[u8]) -> Result<Vec<u8>> {
    let mut text = HEADER.as_bytes().to_vec(alloc)?;
    for part in [place.as_bytes(), line, b"\nend\n"] {
        text.extend_from_slice(part)?;
    }
    Ok(text)
}

/// The text of the state that a text says, or its fault. If it comes in pieces, the answer should be the same.
pub(crate) fn text_answer(alloc: Global, field: &str) -> Result<String> {
    let text = bytes_of(alloc, field)?;
    let answer = bytes_answer(alloc, text.as_slice())?;
    try_pieces(alloc, text.as_slice(), answer.as_str())?;
    in_one_line(alloc, answer.as_str())
}

/// An error if the answer to a text that comes in pieces is another one.
fn try_pieces(alloc: Global, text: &[u8], answer: &str) -> Result<()> {
    for size in SIZES {
        let mut pieces = Pieces { left: text, size };
        let other = reader_answer(alloc, &mut pieces)?;
        if other.as_str() != answer {
            bail!("by {size} bytes: {other}");
        }
    }
    Ok(())
}

/// The text of the state that bytes say, or the fault.
fn bytes_answer(alloc: Global, text: &[u8]) -> Result<String> {
    let state = read_bytes(alloc, text);
    state_text(alloc, &state)
}

/// The text of the state that a reader gives, or the fault.
fn reader_answer<R: Read>(alloc: Global, reader: &mut R) -> Result<String> {
    let state = read_state(alloc, &mut Watched::new(reader));
    state_text(alloc, &state)
}

/// The text of a state, or the fault.
fn state_text(alloc: Global, state: &Result<State, StateFault>) -> Result<String> {
    match state {
        Ok(state) => written(alloc, state),
        Err(fault) => Ok(format!(in alloc; "{fault}")?),
    }
}

/// The text of a state.
pub(crate) fn written(alloc: Global, state: &State) -> Result<String> {
    let mut output = Kept::new(alloc, usize::MAX);
    write_state(alloc, &mut Watched::new(&mut output), state)?;
    Ok(String::from_str(alloc, from_utf8(output.text.as_slice())?)?)
}

/// How many reads a text takes that is there at once. The last one meets its end.
pub(crate) fn reads_answer(alloc: Global, field: &str) -> Result<String> {
    let text = bytes_of(alloc, field)?;
    let mut input = Watched::new(text.as_slice());
    let _state = read_state(alloc, &mut input);
    Ok(format!(in alloc; "{}", input.reads())?)
}

/// What is read if the reader fails behind a text, and whether that was seen.
pub(crate) fn failing_reader_answer(alloc: Global, field: &str) -> Result<String> {
    let text = bytes_of(alloc, field)?;
    let left = text.as_slice();
    let mut input = Watched::new(Failing { left });
    let state = read_state(alloc, &mut input);
    failed_text(alloc, state_text(alloc, &state)?, input.failed())
}

fn failed_text(alloc: Global, answer: String, failed: bool) -> Result<String> {
    Ok(format!(in alloc; "{answer}, failed: {}", word_of(failed))?)
}

/// What comes of writing a state if the writer fails after so many writes, and whether that was seen.
pub(crate) fn failing_writer_answer(alloc: Global, fields: &str) -> Result<String> {
    let (count, field) = cut(fields);
    let writes = count.parse::<usize>()?;
    let text = bytes_of(alloc, field)?;
    let state = read_bytes(alloc, text.as_slice())?;
    writer_answer(alloc, &state, writes)
}

fn writer_answer(alloc: Global, state: &State, writes: usize) -> Result<String> {
    let mut output = Watched::new(Kept::new(alloc, writes));
    let answer = outcome_text(alloc, write_state(alloc, &mut output, state))?;
    failed_text(alloc, answer, output.failed())
}
