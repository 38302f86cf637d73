//! The program: reads a bundle of profiles and rules, and says on standard output whether the profiles may run at the same time
//! and keep the rules. If the bundle has a state, it runs the jobs of a safe set on it, in threads. Standard error says which lines
//! an answer is about, and what to do.
//!
//! `serve` of `hub_serve` does all that the process does between its arguments and its exit status, over any reader and writer; its
//! contract says what is written. `serve_with_remarks` adds the remarks of `hub_remarks` under the same contract: it keeps a copy
//! of the first bytes of the input (`captured`). The input is standard input, or the bundle that is made of the files
//! that the words name (`files` reads them, `untaken` says what is wrong with one, and `bundled` answers over them).
#![tactic(auto)]

mod bundled;
mod captured;
mod files;
mod folders;
mod hosts;
mod left_out;
mod reader;
mod served;
mod sources;
mod spelled;
mod terminal;
mod untaken;

ghost use Rattle.std.specs.Prelude.{◌≡◌, false, IfErr, IfOk};
ghost use Rattle.std.specs.Process.{exit_status};
ghost use Rattle.hubsync.specs.Process.{AnswersOver};
ghost use Rattle.hubsync.specs.Strict.{strict_status_of};
ghost use Rattle.hubsync.specs.Written.{AnswersNothingTo};

use crate::bundled::write_memory;
use crate::captured::Captured;
use crate::files::serve_files;
use crate::reader::SystemFiles;
use crate::served::{Answered, Capture, serve_with_remarks};
use hub_cli::{ErrorKind, read_options};
use hub_folder::FileReader;
use hub_serve::{NoProgress, serve_process};
use hub_text::Watched;
use std::io::{Eprint, IsTerminal, Read, Write};
use std::process::ExitCode;
use std::rt::Env;
use std::sync::Wait;
use std::thread::Threads;
use std::time::Clock;
use std::{env, io};

fn main(rt: HostRuntime) -> ExitCode {
    let capture = Capture::new(rt.alloc(), rt.stderr().is_terminal());
    let mut input = Watched::new(Captured::new(rt.reader(), &capture.input));
    let mut output = Watched::new(Captured::new(io::writer(&rt), &capture.output));
    let is_terminal = rt.stdin().is_terminal();
    run(
        &rt,
        arguments(&rt),
        is_terminal,
        &SystemFiles::new(&rt, current_folder(&rt)),
        &mut input,
        &mut output,
        &capture,
    )
}

/// The path of the current folder, if the system tells it.
fn current_folder<R: AllocGlobal + Env>(rt: &R) -> Option<String> {
    let folder = env::current_dir(rt).ok()?;
    let path = folder.as_path().to_str()?;
    String::from_str(rt.alloc(), path).ok()
}

/// The words that the process was started with, of which the first is the program's name.
fn arguments<R: AllocGlobal + Env>(rt: &R) -> io::Result<Vec<String>> {
    Ok(env::args(rt)?.collect(rt.alloc())?)
}

/// Does what the process does between its words and its exit status, over any files, reader and writer.
fn run<T: AllocGlobal + Clock + Eprint + Threads + Wait + Sync, F: FileReader, R: Read, W: Write>(
    rt: &T,
    words: io::Result<Vec<String>>,
    is_terminal: bool,
    reader: &F,
    input: &mut Watched<Captured<'_, R>>,
    output: &mut Watched<Captured<'_, W>>,
    capture: &Capture,
) -> ExitCode
    requires input { input.old.failed ≡ false }
    requires output { output.old.failed ≡ false }
    ensures read { IfOk words (λ v. AnswersOver input.old input.new output.old output.new
        R.remaining W.contents F.reads F.lists F.folders reader.now v.items (exit_status result)) }
    ensures unread { IfErr words (λ _. AnswersNothingTo output.old output.new W.contents
        (exit_status result)) }
{
    let status = match words {
        Ok(words) => answer(
            rt,
            words.as_slice(),
            is_terminal,
            reader,
            input,
            output,
            capture,
        ),
        Err(error) => serve_process(rt, Err(error), input, output, &NoProgress),
    };
    ExitCode::from(status)
}

/// Answers over the files that the words name, or over standard input if they name none. If the words ask for it by `--strict`,
/// a yes that may mislead has the status 1.
fn answer<
    T: AllocGlobal + Clock + Eprint + Threads + Wait + Sync,
    F: FileReader,
    R: Read,
    W: Write,
>(
    rt: &T,
    words: &[String],
    is_terminal: bool,
    reader: &F,
    input: &mut Watched<Captured<'_, R>>,
    output: &mut Watched<Captured<'_, W>>,
    capture: &Capture,
) -> u8
    requires input { input.old.failed ≡ false }
    requires output { output.old.failed ≡ false }
    ensures { AnswersOver input.old input.new output.old output.new R.remaining W.contents F.reads
        F.lists F.folders reader.now words.now result }
{
    match read_options(rt.alloc(), words) {
        Ok(options) => {
            if !options.files.is_empty() {
                let answered = serve_files(rt, words, &options, reader, output, capture);
                return strict_status(answered, options.is_strict);
            }
            say_waiting(rt, is_terminal);
            let answered = serve_with_remarks(rt, words, &[], input, output, capture);
            strict_status(answered, options.is_strict)
        }
        Err(error) => {
            if error.kind() == ErrorKind::OutOfMemory {
                return write_memory(output);
            }
            serve_with_remarks(rt, words, &[], input, output, capture).status
        }
    }
}

/// The status of an answer: if strictness is asked for, 1 for a yes that may mislead.
fn strict_status(answered: Answered, is_strict: bool) -> u8
    ensures { result ≡ strict_status_of is_strict answered.may_mislead answered.status }
{
    if answered.may_mislead && is_strict && answered.status == 0 {
        return 1;
    }
    answered.status
}

/// Says on a terminal that an input is awaited there.
fn say_waiting<T: Eprint>(rt: &T, is_terminal: bool) {
    if is_terminal {
        let _ = eprintln!(rt;
            "hubsync: reads a bundle from the terminal, up to Ctrl-D: see hubsync --help"
        );
    }
}
