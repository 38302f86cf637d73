//! What the program does, over any reader and writer.
ghost use Rattle.std.specs.Prelude.{◌≡◌, ℕ, false, is_err, map, string_bytes, take, IfErr, IfOk, OnOk};
ghost use Rattle.std.specs.IoError.{error_kind};
ghost use Rattle.std.specs.declared.io.ErrorKind.TheVariants as io_kind;
ghost use Rattle.hub_report.specs.Blocks.{bytes_in};
ghost use Rattle.hub_cli.specs.ClapWords.{kind_of};
ghost use Rattle.hub_cli.specs.Words.{asked_of};
ghost use Rattle.hub_serve.specs.Serves.{Serves, ServesOver};
ghost use Rattle.hub_serve.specs.Serves.{AnswersNothingTo, AnswersQuery, AppendsTo, WritesMemory, WritesTextTo};

use crate::answer::report_on;
use crate::laws::what_is_shown_is_not_safe;
use crate::progress::Progress;
use hub_cli::{Error, ErrorKind, Query, read_words};
use hub_report::{Blocks, OUT_OF_MEMORY, Told, Totals};
use hub_text::Watched;
use std::alloc::Global;
use std::convert::AsStr;
use std::io;
use std::io::{Eprint, Read, Write};
use std::sync::Wait;
use std::thread::Threads;

/// Does what the process does, by the words that it was started with, and returns its exit status.
///
/// If the words can't be read, as when one is not UTF-8, nothing is written to the output but that memory is out, and the
/// status is 2. Otherwise this is `serve`.
pub fn serve_process<
    T: AllocGlobal + Eprint + Threads + Wait + Sync,
    R: Read,
    W: Write,
    P: Progress + Sync,
>(
    rt: &T,
    words: io::Result<Vec<String>>,
    input: &mut Watched<R>,
    output: &mut Watched<W>,
    progress: &P,
) -> u8
    requires input { input.old.failed ≡ false }
    requires output { output.old.failed ≡ false }
    ensures first { IfOk words (λ v. Serves (asked_of (map string_bytes v.items))
        (R.remaining input.old.device) (W.contents output.old.device) (W.contents output.new.device)
        output.new.failed result) }
    ensures read { IfOk words (λ v. ServesOver input.old input.new output.old output.new
        R.remaining W.contents (asked_of (map string_bytes v.items)) result) }
    ensures unread { IfErr words (λ _. AnswersNothingTo output.old output.new W.contents result) }
{
    match words {
        Ok(words) => serve(rt, words.as_slice(), input, output, progress),
        Err(error) => refuse_unread(rt, &error, output),
    }
}

/// Does what the words on the command line ask for: reads all of the input, and writes one line, certificates, or `safe`
/// and below it what the jobs did and the text of the state that they left.
///
/// The first word is the program's name. The status is
/// - 0 if the profiles and rules of the bundle are a safe set, and each job that was run is finished; if all of it is in
///   rounds; for both answers to `reach`; and if a bundle was written of it;
/// - 1 if they are refused, or something clashes; if a profile is in no round, or a goal was too large;
/// - 2 for a fault, if a write or the flush of the output failed, and if the words ask for nothing. In the last case the
///   input isn't read, and `clap`'s text goes to standard error: help, the version, or what is wrong with the words;
/// - 3 if a job was stopped, or the jobs weren't run: there are no workers or too many, the bundle's state has no replica of
///   a root, or a thread can't be started.
///
/// The answer says that a read failed exactly when one did, unless memory is out. It says that the reads were spent only after
/// `READ_TURNS` reads none of which met the end of the input. Each other answer, but that memory is out, is given only if a
/// read met the end.
///
/// `Serves` says what the first line means, `ServesInFull` all that is written. What they say of bytes holds for readers and
/// writers whose bytes a contract can name.
pub fn serve<
    'a,
    S: AsStr,
    T: AllocGlobal + Eprint + Threads + Wait + Sync,
    R: Read,
    W: Write,
    P: Progress + Sync,
>(rt: &T, words: &'a [S], input: &mut Watched<R>, output: &mut Watched<W>, progress: &P) -> u8
    requires input { input.old.failed ≡ false }
    requires output { output.old.failed ≡ false }
    ensures first { Serves (asked_of (map S.text words.entry.now)) (R.remaining input.old.device)
        (W.contents output.old.device) (W.contents output.new.device) output.new.failed result }
    ensures full { ServesOver input.old input.new output.old output.new R.remaining W.contents
        (asked_of (map S.text words.entry.now)) result }
{
    serve_and_tell(rt, words, input, output, progress).status
}

/// The exit status of the process, and what was answered.
#[derive(Drop)]
pub struct Served {
    /// The status.
    pub status: u8,
    /// What was answered, as a value for remarks on it.
    pub told: Told,
    /// The numbers of what clashes, if the answer is about all of that or has rounds, of profiles as Unison may run them.
    pub totals: Option<Totals>,
}

/// Does what `serve` does, and also returns what was answered.
pub fn serve_and_tell<
    'a,
    S: AsStr,
    T: AllocGlobal + Eprint + Threads + Wait + Sync,
    R: Read,
    W: Write,
    P: Progress + Sync,
>(rt: &T, words: &'a [S], input: &mut Watched<R>, output: &mut Watched<W>, progress: &P) -> Served
    requires input { input.old.failed ≡ false }
    requires output { output.old.failed ≡ false }
    ensures first { Serves (asked_of (map S.text words.entry.now)) (R.remaining input.old.device)
        (W.contents output.old.device) (W.contents output.new.device) output.new.failed
        result.status }
    ensures full { ServesOver input.old input.new output.old output.new R.remaining W.contents
        (asked_of (map S.text words.entry.now)) result.status }
{
    what_is_shown_is_not_safe();
    let alloc = rt.alloc();
    match read_words(alloc, words) {
        Ok(asked) => answer(rt, alloc, asked, input, output, progress),
        Err(error) => refuse(rt, &error, output),
    }
}

/// Tells the user why the words ask for nothing, or that memory is out.
fn refuse<T: Eprint, W: Write>(rt: &T, error: &Error, output: &mut Watched<W>) -> Served
    requires { output.old.failed ≡ false }
    ensures nothing { AnswersNothingTo output.old output.new W.contents result.status }
    ensures memory { kind_of error.now ≡ ErrorKind.OutOfMemory
        → WritesMemory output.old output.new W.contents result.status }
{
    if error.kind() == ErrorKind::OutOfMemory {
        return Served {
            status: write_out_of_memory(output),
            told: Told::Other,
            totals: None,
        };
    }
    // if standard error fails too, there is nobody left to tell
    let _ = rt.eprint(error);
    Served {
        status: 2,
        told: Told::Nothing,
        totals: None,
    }
}

/// Tells the user why the words on the command line can't be read, or that memory is out.
pub fn refuse_unread<T: Eprint, W: Write>(rt: &T, error: &io::Error, output: &mut Watched<W>) -> u8
    requires { output.old.failed ≡ false }
    ensures nothing { AnswersNothingTo output.old output.new W.contents result }
    ensures memory { error_kind error.now ≡ io_kind.OutOfMemory
        → WritesMemory output.old output.new W.contents result }
{
    if error.kind() == io::ErrorKind::OutOfMemory {
        return write_out_of_memory(output);
    }
    // if standard error fails too, there is nobody left to tell
    let _ = eprintln!(rt; "error: the words on the command line can't be read: {error}");
    2
}

/// Reads all of an input, and writes the answer to what was asked of it.
fn answer<T: Eprint + Threads + Wait + Sync, R: Read, W: Write, P: Progress + Sync>(
    rt: &T,
    alloc: Global,
    asked: Query<'_>,
    input: &mut Watched<R>,
    output: &mut Watched<W>,
    progress: &P,
) -> Served
    requires input { input.old.failed ≡ false }
    requires output { output.old.failed ≡ false }
    ensures { AnswersQuery input.old input.new output.old output.new R.remaining W.contents
        asked.entry result.status }
{
    let report = report_on(rt, alloc, asked, input, progress);
    progress.over();
    let status = report.status();
    name_undecided(rt, report.undecided());
    match report.into_answer(alloc) {
        Ok(answer) => Served {
            status: write_text(&answer.text, status, output),
            told: answer.told,
            totals: answer.totals,
        },
        Err(_) => Served {
            status: write_out_of_memory(output),
            told: Told::Other,
            totals: None,
        },
    }
}

/// Names on standard error the profiles of which it wasn't decided whether they clash.
fn name_undecided<T: Eprint>(rt: &T, pairs: &str) {
    if !pairs.is_empty() {
        // if standard error fails too, there is nobody left to tell
        let _ = rt.eprint(pairs);
    }
}

/// Writes that memory is out, and returns the status of a fault.
fn write_out_of_memory<W: Write>(output: &mut Watched<W>) -> u8
    requires { output.old.failed ≡ false }
    ensures { WritesMemory output.old output.new W.contents result }
{
    write_line(OUT_OF_MEMORY.as_bytes(), 2, output)
}

/// Writes a line and returns its status, or 2 if a write or the flush failed.
fn write_line<W: Write>(line: &[u8], status: u8, output: &mut Watched<W>) -> u8
    requires { output.old.failed ≡ false }
    ensures { WritesTextTo output.old output.new W.contents line.now status result }
{
    if output.write_all(line).is_err() || output.flush().is_err() {
        return 2;
    }
    status
}

/// Writes a text and returns its status, or 2 if a write or the flush failed.
fn write_text<W: Write>(text: &Blocks, status: u8, output: &mut Watched<W>) -> u8
    requires { output.old.failed ≡ false }
    ensures { WritesTextTo output.old output.new W.contents (bytes_in text.now) status result }
{
    if write_blocks(text, output).is_err() || output.flush().is_err() {
        return 2;
    }
    status
}

/// Writes all blocks of a text, or a prefix of it up to the first call that fails.
fn write_blocks<W: Write>(text: &Blocks, output: &mut Watched<W>) -> io::Result<()>
    requires { output.old.failed ≡ false }
    ensures bytes { OnOk result (AppendsTo output.old output.new W.contents (bytes_in text.now)) }
    ensures prefix { (n : ℕ) × AppendsTo output.old output.new W.contents
        (take n (bytes_in text.now)) }
    ensures failed { output.new.failed ≡ is_err result }
{
    let blocks = text.as_slice();
    for block in blocks {
        output.write_all(block.as_slice())?;
    }
    Ok(())
}
