//! Finds the answer to an input.
ghost use Rattle.std.specs.Prelude.{◌≡◌, ◌⊎◌, false, true, IfErr, IfOk, IfSome, None, Some};
ghost use Rattle.hub_bundle.specs.Bundle as bundle;
ghost use Rattle.hub_bundle.specs.Sections.{Spells};
ghost use Rattle.hub_cli.specs.Words.{about, reading_for, request_of};
ghost use Rattle.hub_report.specs.Report.{says_read_failed, unread_by};
ghost use Rattle.hub_serve.specs.Reads.{AreSpent, reads_between};
ghost use Rattle.hub_serve.specs.InUnison.{unison_question};
ghost use Rattle.hub_serve.specs.Told as told;
ghost use Rattle.hub_serve.specs.Unison.{IsReadAs, SpellsAs, SpellsCounted};

use crate::import::report_on_import;
use crate::mend::report_on_mend;
use crate::plan::report_on_plan;
use crate::plan_question::PlanQuestion;
use crate::progress::Progress;
use crate::reach::report_on_reach;
use crate::reading::{counted_as, read_as};
use crate::unison::report_on_unison;
use crate::unison_question::UnisonQuestion;
use crate::verdict::report_on_set;
use hub_bundle::{
    BundleContents, BundleFault, BundleLineFault, InputFault, ReadError, read_bundle, read_input,
    read_sections,
};
use hub_cli::{Query, Question, Reading};
use hub_report::{FaultyInput, Report};
use hub_text::Watched;
use std::alloc::{AllocError, Global};
use std::io::Read;
use std::sync::Wait;
use std::thread::Threads;

/// The answer to what was asked of an input. It says that a read failed exactly when one did, and that the reads were spent
/// only after `READ_TURNS` reads without an end. Each other answer, but that memory is out, is given only if a read met the
/// end.
pub fn report_on<'a, T: Threads + Wait + Sync, R: Read, P: Progress + Sync>(
    rt: &T,
    alloc: Global,
    asked: Query<'a>,
    input: &mut Watched<R>,
    progress: &P,
) -> Report<'a>
    requires { input.old.failed ≡ false }
    ensures holds { IfSome (R.remaining input.old.device) (λ bytes.
        told.Holds (request_of asked.entry) bytes result) }
    ensures failed { input.new.failed ≡ says_read_failed result }
    ensures spent { unread_by result ≡ Some InputFault.TurnsSpent
        → AreSpent (reads_between input.old input.new) }
    ensures whole { unread_by result ≡ None
        → (input.new.at_end ≡ true) ⊎ (result ≡ Report.OutOfMemory) }
{
    match read_input(alloc, input) {
        Ok(bytes) => report_on_bytes(rt, alloc, asked, bytes, progress),
        Err(InputFault::OutOfMemory) => Report::OutOfMemory,
        Err(fault) => Report::Faulty(FaultyInput::Unread(fault)),
    }
}

/// The answer to what was asked of an input's bytes.
fn report_on_bytes<'a, T: Threads + Wait + Sync, P: Progress + Sync>(
    rt: &T,
    alloc: Global,
    asked: Query<'a>,
    bytes: Vec<u8>,
    progress: &P,
) -> Report<'a>
    ensures holds { told.Holds (request_of asked.entry) bytes.items result }
    ensures read { unread_by result ≡ None }
{
    match asked {
        Query::About(question) => match UnisonQuestion::of(question) {
            Some(asked) => report_on_unison(alloc, asked, bytes),
            None => report_on_question(rt, alloc, question, bytes, progress),
        },
        Query::Plan => report_on_plan(alloc, PlanQuestion::Plan, bytes),
        Query::RoundsAlone => report_on_plan(alloc, PlanQuestion::Rounds, bytes),
        Query::Mend { reading, as_bundle } => {
            report_on_mend(rt, alloc, reading, as_bundle, bytes, progress)
        }
        Query::Reach {
            reading,
            profile,
            path,
        } => match contents_in(alloc, asked, bytes) {
            Ok(contents) => report_on_reach(alloc, &contents, reading, profile, path),
            Err(report) => report,
        },
        Query::Import => match contents_in(alloc, asked, bytes) {
            Ok(contents) => report_on_import(alloc, &contents),
            Err(report) => report,
        },
    }
}

/// The answer to a question about the set of an input's bytes, which isn't about its profiles as Unison may run them. They are
/// dropped as soon as they are read, before anything is done.
fn report_on_question<'a, T: Threads + Wait + Sync, P: Progress + Sync>(
    rt: &T,
    alloc: Global,
    question: Question,
    bytes: Vec<u8>,
    progress: &P,
) -> Report<'a>
    requires { unison_question question ≡ None }
    ensures holds { told.Holds (about question) bytes.items result }
    ensures read { unread_by result ≡ None }
{
    match contents_in(alloc, Query::About(question), bytes) {
        Ok(contents) => report_on_set(rt, alloc, question, contents, progress),
        Err(report) => report,
    }
}

/// What a bundle says with its profiles read as it was asked for, or the answer if it can't be read. Its bytes are dropped.
pub(crate) fn contents_in<'a>(
    alloc: Global,
    asked: Query<'a>,
    bytes: Vec<u8>,
) -> Result<BundleContents, Report<'a>>
    ensures spelled { IfOk result (SpellsAs (reading_for (request_of asked.entry)) bytes.items) }
    ensures faulty { IfErr result (told.Holds (request_of asked.entry) bytes.items) }
    ensures read { IfErr result (λ r. unread_by r ≡ None) }
{
    let reading = asked.reading();
    match counted_as(alloc, reading, bytes) {
        Ok(counted) => counted_contents(alloc, reading, counted),
        Err(AllocError) => Err(Report::OutOfMemory),
    }
}

/// What the bytes of a bundle that count say with its profiles read so, or the answer if they can't be read.
fn counted_contents<'a>(
    alloc: Global,
    reading: Reading,
    counted: Vec<u8>,
) -> Result<BundleContents, Report<'a>>
    ensures spelled { IfOk result (SpellsCounted reading counted.items) }
    ensures faulty { IfErr result (told.IsUnspelled counted.items) }
    ensures read { IfErr result (λ r. unread_by r ≡ None) }
{
    match own_contents(alloc, counted) {
        Ok(own) => contents_as(alloc, reading, own),
        Err(report) => Err(report),
    }
}

/// What a bundle says with its profiles read so, or the answer that memory is out.
fn contents_as<'a>(
    alloc: Global,
    reading: Reading,
    own: BundleContents,
) -> Result<BundleContents, Report<'a>>
    ensures ok { IfOk result (IsReadAs reading own) }
    ensures err { IfErr result (λ r. r ≡ Report.OutOfMemory) }
{
    match read_as(alloc, reading, own) {
        Ok(contents) => Ok(contents),
        Err(AllocError) => Err(Report::OutOfMemory),
    }
}

/// What a bundle says with all of its sections, or the answer if it can't be read. Its bytes are dropped.
pub(crate) fn own_contents<'a>(alloc: Global, bytes: Vec<u8>) -> Result<BundleContents, Report<'a>>
    ensures spelled { IfOk result (λ c. Spells bytes.items c) }
    ensures faulty { IfErr result (told.IsUnspelled bytes.items) }
    ensures read { IfErr result (λ r. unread_by r ≡ None) }
{
    let sections = match read_bundle(alloc, bytes.as_slice()) {
        Ok(sections) => sections,
        Err(fault) => return Err(bad_bundle(fault)),
    };
    match read_sections(alloc, sections.as_slice()) {
        Ok(contents) => Ok(contents),
        Err(ReadError::Faulty(fault)) => { Err(Report::Faulty(FaultyInput::BadSection(fault))) }
        Err(ReadError::OutOfMemory) => Err(Report::OutOfMemory),
    }
}

/// The answer if the bundle is read with that fault.
pub(crate) fn bad_bundle<'a>(fault: BundleLineFault) -> Report<'a>
    ensures memory { fault ≡ bundle.out_of_memory → result ≡ Report.OutOfMemory }
    ensures fault { (result ≡ Report.OutOfMemory)
        ⊎ (result ≡ Report.Faulty (FaultyInput.BadBundle fault)) }
    ensures read { unread_by result ≡ None }
{
    match fault.fault {
        BundleFault::OutOfMemory => Report::OutOfMemory,
        _ => Report::Faulty(FaultyInput::BadBundle(fault)),
    }
}
