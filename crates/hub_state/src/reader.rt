ghost use Rattle.std.specs.Prelude.{◌≡◌, ◌+◌, ◌*◌, ◌^◌, ◌<◌, ◌≤◌, ◌++◌, [], length, false, true, Ok, Err};
ghost use Rattle.std.specs.Prelude.{IfOk, IfErr, IsErrOf, OnOk, vec_len};
ghost use Rattle.std.specs.Option.{option_map};
ghost use Rattle.hub_text.specs.Fails.{Fails};
ghost use Rattle.hub_text.specs.Lines.{line_text};
ghost use Rattle.hub_text.specs.Takes.{of_bytes};
ghost use Rattle.hub_state.specs.Blocks.{bytes_taken, taken_line_text, Leaves, Stops, ReadsOn, Stands};
ghost use Rattle.hub_state.specs.Blocks.{IsWithin, IsReading, EndsReading, OfReadOn, OfTaken, StandsAtEnd, StopsReading};
ghost use Rattle.hub_state.specs.Blocks.{most_after, out_of_memory};
ghost use Rattle.hub_state.specs.Devices.{is_not_of_text, is_read_failed, is_turns_spent, says, reports};
ghost use Rattle.hub_state.specs.Reading.{FailsReading, state_reading};
ghost use Rattle.hub_state.specs.Taking as taking;
ghost use Rattle.hub_state.specs.Taking.{IsApart, TellsLine};

use crate::draft::Draft;
use crate::fault::{Fault, StateFault};
use crate::state::State;
use hub_text::{Line, Lines, Watched};
use std::alloc::{AllocError, Global};
use std::io::Read;
use std::mem::replace;

/// How many reads one input may take. The read that meets its end counts too.
pub const READ_TURNS: usize = 1_000_000;

/// How many bytes one read of the input asks for at most.
const READ_BYTES: usize = 4_096;

/// Reads all of an input, and the state that it is the text of.
///
/// Returns `ReadFailed` exactly when a read failed, and reads no further then. Returns `TurnsSpent` only if `READ_TURNS` reads
/// were made and none of them met the end: such an input has at least `READ_TURNS` bytes. Otherwise this is `read_bytes`, and
/// the state or the fault of the text is returned only if a read met the end. So for an input that never ends, the result is
/// one of `ReadFailed`, `TurnsSpent` and `OutOfMemory`, which have line 0.
///
/// The text is read in blocks. In memory are one block and the line that is not complete, and not the whole text.
pub fn read_state<R: Read>(alloc: Global, input: &mut Watched<R>) -> Result<State, StateFault>
    requires { input.old.failed ≡ false }
    ensures ok { IfOk result (IsReading (R.remaining input.old.device)) }
    ensures err { IfErr result (EndsReading (R.remaining input.old.device)) }
    ensures failed { input.new.failed ≡ reports is_read_failed result }
    ensures whole { reports is_not_of_text result ≡ false → input.new.at_end ≡ true }
    ensures turns_spent { reports is_turns_spent result ≡ true
        → input.new.reads ≡ input.old.reads + READ_TURNS }
    ensures no_end { reports is_turns_spent result ≡ true → input.new.at_end ≡ input.old.at_end }
{
    let mut prefix = Prefix::new(alloc);
    read_after(alloc, input, &mut prefix)
}

/// Reads the input like [`read_state`], into a prefix that has no bytes yet.
fn read_after<R: Read>(
    alloc: Global,
    input: &mut Watched<R>,
    prefix: &mut Prefix,
) -> Result<State, StateFault>
    requires unfailed { input.old.failed ≡ false }
    requires continues { ReadsOn [] prefix.old }
    requires within { IsWithin prefix.old 1 }
    ensures ok { IfOk result (IsReading (R.remaining input.old.device)) }
    ensures err { IfErr result (EndsReading (R.remaining input.old.device)) }
    ensures failed { input.new.failed ≡ reports is_read_failed result }
    ensures whole { reports is_not_of_text result ≡ false → input.new.at_end ≡ true }
    ensures turns_spent { reports is_turns_spent result ≡ true
        → input.new.reads ≡ input.old.reads + READ_TURNS }
    ensures no_end { reports is_turns_spent result ≡ true → input.new.at_end ≡ input.old.at_end }
{
    match read_blocks(alloc, input, prefix, READ_TURNS) {
        Ok(taken) => finish(alloc, prefix, taken),
        Err(fault) => Err(StateFault { line: 0, fault }),
    }
}

/// Reads the state that bytes are the text of, or the first fault of the text with its line.
///
/// `OutOfMemory` has line 0, and may come in place of the state or of a fault.
pub fn read_bytes(alloc: Global, bytes: &[u8]) -> Result<State, StateFault>
    ensures ok { IfOk result (λ s. state_reading bytes.now ≡ Ok s) }
    ensures err { IfErr result (λ e. Fails out_of_memory (state_reading bytes.now) e) }
    ensures no_read { reports is_read_failed result ≡ false }
{
    let _len = bytes.len();
    let mut draft = Draft::new(alloc);
    read_rest(alloc, &mut draft, 1, bytes)
}

/// What is kept of the bytes of a text that have come.
#[derive(Drop)]
struct Prefix {
    /// What the lines say that were taken.
    draft: Draft,
    /// The number of the next line.
    number: usize,
    /// The bytes from the next line on.
    rest: Vec<u8>,
}

impl Prefix {
    /// Returns the prefix before the first byte.
    fn new(alloc: Global) -> Prefix
        ensures continues { ReadsOn [] result }
        ensures within { IsWithin result 1 }
    {
        Prefix {
            draft: Draft::new(alloc),
            number: 1,
            rest: Vec::new(alloc),
        }
    }
}

/// Reads blocks of the input up to its end, in at most this many reads, and takes their lines up to the first fault.
///
/// The inner result has the fault, if a line has one.
fn read_blocks<R: Read>(
    alloc: Global,
    input: &mut Watched<R>,
    prefix: &mut Prefix,
    turns: usize,
) -> Result<Result<(), StateFault>, Fault>
    requires unfailed { input.old.failed ≡ false }
    requires turns { turns ≤ READ_TURNS }
    requires continues { ReadsOn [] prefix.old }
    requires within { IsWithin prefix.old 1 }
    ensures whole { IfOk result
        (λ taken. StandsAtEnd (R.remaining input.old.device) prefix.new taken) }
    ensures within { IfOk result (λ taken. OnOk taken (IsWithin prefix.new (2 ^ 62))) }
    ensures faults { IfErr result (λ e. StopsReading (R.remaining input.old.device) turns e) }
    ensures failed { input.new.failed ≡ says is_read_failed result }
    ensures at_end { OnOk result (input.new.at_end ≡ true) }
    ensures turns_spent { IsErrOf result Fault.TurnsSpent
        → input.new.reads ≡ input.old.reads + turns }
    ensures no_end { IsErrOf result Fault.TurnsSpent → input.new.at_end ≡ input.old.at_end }
{
    let mut taken = Ok(());
    let mut buffer = [0; READ_BYTES];
    for _ in 0..turns {
        let Ok(count) = input.read(&mut buffer) else {
            return Err(Fault::ReadFailed);
        };
        if count == 0 {
            return Ok(taken);
        }
        taken = take_block(alloc, prefix, taken, &buffer[..count]);
    }
    Err(Fault::TurnsSpent)
}

/// Takes one more block, if the bytes before have no fault.
fn take_block(
    alloc: Global,
    prefix: &mut Prefix,
    taken: Result<(), StateFault>,
    block: &[u8],
) -> Result<(), StateFault>
    requires { OnOk taken (IsWithin prefix.old (2 ^ 62)) }
    ensures stands { OfTaken prefix.old taken
        (λ bytes. Stands (bytes ++ block.now) prefix.new result) }
    ensures within { OnOk result
        (OnOk taken (IsWithin prefix.new (most_after prefix.old block.now))) }
    ensures stopped { IfErr taken (λ e. result ≡ Err e) }
{
    match taken {
        Ok(()) => take_bytes(alloc, prefix, block),
        Err(fault) => Err(fault),
    }
}

/// Takes more bytes.
fn take_bytes(alloc: Global, prefix: &mut Prefix, bytes: &[u8]) -> Result<(), StateFault>
    requires { IsWithin prefix.old (2 ^ 62) }
    ensures stands { OfReadOn prefix.old
        (λ before. Stands (before ++ bytes.now) prefix.new result) }
    ensures within { OnOk result (IsWithin prefix.new
        (prefix.old.number + vec_len prefix.old.rest + length bytes.now)) }
{
    prefix.rest.extend_from_slice(bytes)?;
    if !has_line_end(bytes) {
        return Ok(());
    }
    take_whole_lines(alloc, prefix)
}

/// Returns whether a line ends in these bytes.
fn has_line_end(bytes: &[u8]) -> bool {
    match Lines::new(bytes).next() {
        Some(line) => line.is_ended,
        None => false,
    }
}

/// Takes all lines but the last, which what follows may be a part of.
fn take_whole_lines(alloc: Global, prefix: &mut Prefix) -> Result<(), StateFault>
    requires apart { IsApart prefix.old.draft.current }
    requires room { prefix.old.number + vec_len prefix.old.rest < 2 ^ 64 }
    ensures stands { OfReadOn prefix.old (λ bytes. Stands bytes prefix.new result) }
    ensures within { OnOk result
        (IsWithin prefix.new (prefix.old.number + vec_len prefix.old.rest)) }
{
    let Prefix {
        draft,
        number,
        rest,
    } = prefix;
    let last = take_lines(alloc, draft, number, rest.as_slice())?;
    let left = bytes_of(alloc, last)?;
    *rest = left;
    Ok(())
}

/// Copies the bytes of a line, if there is one.
fn bytes_of(alloc: Global, line: Option<Line<&[u8]>>) -> Result<Vec<u8>, AllocError>
    ensures { IfOk result (λ v. v.items ≡ taken_line_text (option_map of_bytes line.entry)) }
{
    let mut bytes = Vec::new(alloc);
    if let Some(line) = line {
        push_line(&mut bytes, line)?;
    }
    Ok(bytes)
}

/// Appends a line, with its LF if it has one.
fn push_line(bytes: &mut Vec<u8>, line: Line<&[u8]>) -> Result<(), AllocError>
    ensures { OnOk result
        (bytes.new.items ≡ bytes.old.items ++ line_text (of_bytes line.entry)) }
{
    bytes.extend_from_slice(line.text)?;
    if line.is_ended {
        bytes.push(b'\n')?;
    }
    Ok(())
}

/// Reads the state of the whole text, whose bytes have all come.
fn finish(
    alloc: Global,
    prefix: &mut Prefix,
    taken: Result<(), StateFault>,
) -> Result<State, StateFault>
    requires { OnOk taken (IsWithin prefix.old (2 ^ 62)) }
    ensures ok { OfTaken prefix.old taken (λ bytes. IfOk result (λ s. state_reading bytes ≡ Ok s)) }
    ensures err { OfTaken prefix.old taken
        (λ bytes. IfErr result (Fails out_of_memory (state_reading bytes))) }
{
    match taken {
        Ok(()) => {
            let number = prefix.number;
            read_rest(alloc, &mut prefix.draft, number, prefix.rest.as_slice())
        }
        Err(fault) => Err(fault),
    }
}

/// Takes the lines of these bytes, which begin with the line of that number, and returns the state.
fn read_rest(
    alloc: Global,
    draft: &mut Draft,
    number: usize,
    bytes: &[u8],
) -> Result<State, StateFault>
    requires apart { IsApart draft.old.current }
    requires room { number + length bytes.now < 2 ^ 64 }
    ensures ok { IfOk result (λ s. bytes_taken number draft.old bytes.now ≡ Ok s) }
    ensures err { IfErr result
        (Fails out_of_memory (bytes_taken number draft.old bytes.now)) }
{
    let mut number = number;
    let last = take_lines(alloc, draft, &mut number, bytes)?;
    match last {
        Some(line) => take_last_at(alloc, draft, number, line),
        None => Err(StateFault {
            line: 1,
            fault: Fault::Truncated,
        }),
    }
}

/// Takes all lines of these bytes but the last, which it returns.
fn take_lines<'a>(
    alloc: Global,
    draft: &mut Draft,
    number: &mut usize,
    bytes: &'a [u8],
) -> Result<Option<Line<&'a [u8]>>, StateFault>
    requires apart { IsApart draft.old.current }
    requires room { number.old + length bytes.now < 2 ^ 64 }
    ensures left { IfOk result (λ line. Leaves number.old draft.old bytes.now
        number.new draft.new (option_map of_bytes line)) }
    ensures apart { OnOk result (IsApart draft.new.current) }
    ensures err { IfErr result (λ e. Stops number.old draft.old bytes.now e) }
{
    let mut lines = Lines::new(bytes);
    let Some(first) = lines.next() else {
        return Ok(None);
    };
    let mut line = first;
    for next in lines {
        take_line_at(alloc, draft, *number, line.text)?;
        line = next;
        *number += 1;
    }
    Ok(Some(line))
}

/// The fault of a line. Out of memory has line 0.
fn placed(line: usize, fault: Fault) -> StateFault
    ensures { result ≡ taking.placed line fault }
{
    match fault {
        Fault::OutOfMemory => StateFault { line: 0, fault },
        _ => StateFault { line, fault },
    }
}

/// Takes a line, and reports its fault with its number.
fn take_line_at(
    alloc: Global,
    draft: &mut Draft,
    number: usize,
    line: &[u8],
) -> Result<(), StateFault>
    requires { IsApart draft.old.current }
    ensures ok { OnOk result (taking.numbered_taken number draft.old line.now ≡ Ok draft.new) }
    ensures err { IfErr result
        (λ e. TellsLine number (taking.numbered_taken number draft.old line.now) e) }
    ensures apart { OnOk result (IsApart draft.new.current) }
{
    match take_line(alloc, draft, number, line) {
        Ok(()) => Ok(()),
        Err(fault) => {
            let stop = placed(number, fault);
            Err(stop)
        }
    }
}

/// Takes the last line, and returns the state or reports the fault with the line's number.
fn take_last_at(
    alloc: Global,
    draft: &mut Draft,
    number: usize,
    line: Line<&[u8]>,
) -> Result<State, StateFault>
    requires { IsApart draft.old.current }
    ensures ok { IfOk result (λ s. taking.last_line_taken number draft.old line.entry ≡ Ok s) }
    ensures err { IfErr result
        (λ e. TellsLine number (taking.last_line_taken number draft.old line.entry) e) }
{
    match take_end(alloc, draft, number, line) {
        Ok(()) => Ok(take_state(alloc, draft)),
        Err(fault) => {
            let last = placed(number, fault);
            Err(last)
        }
    }
}

/// Takes a line, of which the first is the header.
fn take_line(alloc: Global, draft: &mut Draft, number: usize, line: &[u8]) -> Result<(), Fault>
    requires { IsApart draft.old.current }
    ensures ok { OnOk result (taking.numbered_taken number draft.old line.now ≡ Ok draft.new) }
    ensures err { IfErr result (FailsReading (taking.numbered_taken number draft.old line.now)) }
    ensures apart { OnOk result (IsApart draft.new.current) }
{
    if number == 1 {
        return draft.take_header(alloc, line);
    }
    draft.take(alloc, line)
}

/// Takes the state out of a draft.
fn take_state(alloc: Global, draft: &mut Draft) -> State
    ensures { result ≡ draft.old.state }
{
    replace(&mut draft.state, State::new(alloc))
}

/// Takes the last line. A text that is cut off is reported first.
fn take_end(alloc: Global, draft: &mut Draft, number: usize, line: Line<&[u8]>) -> Result<(), Fault>
    requires { IsApart draft.old.current }
    ensures ok { OnOk result
        (taking.last_line_taken number draft.old line.entry ≡ Ok draft.new.state) }
    ensures err { IfErr result (FailsReading (taking.last_line_taken number draft.old line.entry)) }
{
    let is_end = line.text == b"end".as_slice();
    if !is_end && !(line.is_ended && draft.ended) {
        return Err(Fault::Truncated);
    }
    take_line(alloc, draft, number, line.text)?;
    draft.close()?;
    Ok(())
}
