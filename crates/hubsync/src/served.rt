//! An answer, and remarks on it.
ghost use Rattle.std.specs.Prelude.{◌≡◌, false};
ghost use Rattle.hubsync.specs.Written.{ServesFor};

use crate::captured::{Captured, Prefix};
use crate::terminal::Terminal;
use hub_remarks::{Answers, Questions, Remarks, Reply, remark, what_to_ask};
use hub_report::Totals;
use hub_serve::{NoProgress, Served, serve_and_tell};
use hub_source::SourceFile;
use hub_text::Watched;
use std::alloc::{AllocError, Global};
use std::cell::RefCell;
use std::io;
use std::io::{Eprint, Read, Write};
use std::sync::Wait;
use std::thread::Threads;
use std::time::Clock;

/// How many bytes of the input are kept for remarks.
const INPUT_BYTES: usize = 1_048_576;

/// How many bytes of the output are kept for remarks on lines that it has for profiles.
const OUTPUT_BYTES: usize = 262_144;

/// What is kept of the input and of the output, and who reads standard error.
#[derive(Drop)]
pub struct Capture {
    /// Of the input.
    pub input: RefCell<Prefix>,
    /// Of the output.
    pub output: RefCell<Prefix>,
    /// Whether standard error is a terminal.
    pub by_terminal: bool,
}

impl Capture {
    /// Nothing was read and nothing was written. It doesn't allocate.
    pub fn new(alloc: Global, by_terminal: bool) -> Capture {
        Capture {
            input: RefCell::new(Prefix::new(alloc, INPUT_BYTES)),
            output: RefCell::new(Prefix::new(alloc, OUTPUT_BYTES)),
            by_terminal,
        }
    }
}

/// What an answer says to the process.
#[derive(Clone, Copy)]
pub struct Answered {
    /// Its status.
    pub status: u8,
    /// Whether a yes may mislead, or nothing could be looked at.
    pub may_mislead: bool,
}

impl Answered {
    /// An answer of this status, on which there is no remark.
    pub fn plain(status: u8) -> Answered
        ensures { result.status ≡ status }
    {
        Answered {
            status,
            may_mislead: false,
        }
    }
}

/// Does what `serve_and_tell` does, and then says on standard error what belongs to the answer. On a terminal it says how far it is, too.
///
/// The remarks change neither the output nor the status, also if they can't be made or written. They are made of what is kept in
/// `capture`. If the sections of the input were made of files, these are the files in their order.
pub fn serve_with_remarks<
    T: AllocGlobal + Clock + Eprint + Threads + Wait + Sync,
    R: Read,
    W: Write,
>(
    rt: &T,
    words: &[String],
    files: &[SourceFile<'_>],
    input: &mut Watched<Captured<'_, R>>,
    output: &mut Watched<Captured<'_, W>>,
    capture: &Capture,
) -> Answered
    requires input { input.old.failed ≡ false }
    requires output { output.old.failed ≡ false }
    ensures { ServesFor input.old input.new output.old output.new R.remaining W.contents words.now
        result.status }
{
    let progress = Terminal::new(rt, capture.by_terminal);
    let served = serve_and_tell(rt, words, input, output, &progress);
    let may_mislead = say_remarks(rt, words, files, capture, output.failed(), &served);
    Answered {
        status: served.status,
        may_mislead,
    }
}

/// Says what belongs to an answer, and returns whether a yes may mislead. It also may where nothing could be looked at. If standard
/// error fails too, there is nobody left to tell.
fn say_remarks<T: AllocGlobal + Clock + Eprint + Threads + Wait + Sync>(
    rt: &T,
    words: &[String],
    files: &[SourceFile<'_>],
    capture: &Capture,
    is_cut: bool,
    served: &Served,
) -> bool {
    let (Ok(input), Ok(output)) = (capture.input.try_borrow(), capture.output.try_borrow()) else {
        return true;
    };
    if is_cut {
        say_cut(rt, output.error());
        return true;
    }
    if let Some(error) = input.error() {
        let _ = eprintln!(rt; "hubsync: standard input can't be read: {error}");
    }
    match remarks_on(rt, words, files, &input, &output, served) {
        Ok(remarks) => {
            let text = remarks.text.as_str();
            let _ = eprint!(rt; "{text}");
            remarks.may_mislead
        }
        Err(AllocError) => true,
    }
}

/// What is to be said about an answer, once hubsync has answered what has to be known for that.
fn remarks_on<T: AllocGlobal + Clock + Eprint + Threads + Wait + Sync>(
    rt: &T,
    words: &[String],
    files: &[SourceFile<'_>],
    input: &Prefix,
    output: &Prefix,
    served: &Served,
) -> Result<Remarks, AllocError> {
    let input = input.first_bytes()?;
    let told = &served.told;
    let asked = what_to_ask(rt.alloc(), words, files, input, told)?;
    let mend = reply_on_mend(rt, &asked)?;
    let check = reply_on_check(rt, &asked, input.bytes)?;
    let output = output.first_bytes()?;
    let answers = answers_of(&mend, &check, output.bytes, served.totals);
    let remarks = remark(rt.alloc(), words, files, input, told, answers)?;
    Ok(remarks)
}

/// What was answered to each question that was asked, the first bytes of the answer, and its numbers.
fn answers_of<'a>(
    mend: &'a Option<Reply>,
    check: &'a Option<Reply>,
    output: &'a [u8],
    totals: Option<Totals>,
) -> Answers<'a> {
    Answers {
        mend: mend.as_ref(),
        check: check.as_ref(),
        output,
        totals,
    }
}

/// What hubsync answers about the profiles of a clash, if that is asked.
fn reply_on_mend<T: AllocGlobal + Clock + Eprint + Threads + Wait + Sync>(
    rt: &T,
    asked: &Questions,
) -> Result<Option<Reply>, AllocError> {
    if asked.mend.is_empty() {
        return Ok(None);
    }
    let reply = reply_to(rt, &["mend", "--unison"], asked.mend.as_slice())?;
    Ok(Some(reply))
}

/// What hubsync answers about an input by its own reading, if that is asked.
fn reply_on_check<T: AllocGlobal + Clock + Eprint + Threads + Wait + Sync>(
    rt: &T,
    asked: &Questions,
    input: &[u8],
) -> Result<Option<Reply>, AllocError> {
    if !asked.check {
        return Ok(None);
    }
    let reply = reply_to(rt, &["check"], input)?;
    Ok(Some(reply))
}

/// What hubsync answers to these words, which don't begin with its name, and this input.
fn reply_to<T: AllocGlobal + Clock + Eprint + Threads + Wait + Sync>(
    rt: &T,
    words: &[&str],
    input: &[u8],
) -> Result<Reply, AllocError> {
    let alloc = rt.alloc();
    let mut all = Vec::new(alloc);
    all.push(String::from_str(alloc, "hubsync")?)?;
    for word in words {
        all.push(String::from_str(alloc, *word)?)?;
    }
    let mut input = Watched::new(input);
    let mut output = Watched::new(Vec::new(alloc));
    let served = serve_and_tell(rt, all.as_slice(), &mut input, &mut output, &NoProgress);
    let Served { told, .. } = served;
    Ok(Reply {
        text: output.into_inner(),
        told,
    })
}

/// Says that the answer isn't whole.
fn say_cut<T: Eprint>(rt: &T, error: Option<io::Error>) {
    let _ = match error {
        Some(error) => eprintln!(rt; "hubsync: the answer could not be written: {error}"),
        None => eprintln!(rt; "hubsync: the answer could not be written"),
    };
}
