//! Lines that make the set of a bundle's profiles and rules safe.
ghost use Rattle.std.specs.Prelude.{◌≡◌, false, true, IfErr, IfOk, None};
ghost use Rattle.hub_cli.specs.Words.{mended};
ghost use Rattle.hub_bundle.specs.Sections.{members};
ghost use Rattle.hub_cert.specs.Set.{IsSafeSet};
ghost use Rattle.hub_mend.specs.Additions.{line_count, safe_line};
ghost use Rattle.hub_mend.specs.TakesAway.{AllTakeAway};
ghost use Rattle.hub_report.specs.Report.{unread_by};
ghost use Rattle.hub_serve.specs.Mended as spec;
ghost use Rattle.hub_serve.specs.forms.Mending as form;
ghost use Rattle.hub_serve.specs.Told as told;

use crate::answer::{contents_in, own_contents};
use crate::mend_in_unison::report_in_unison;
use crate::progress::Progress;
use crate::verdict::report_on_set;
use hub_bundle::BundleContents;
use hub_cli::{Query, Question, Reading};
use hub_import::are_same_rules;
use hub_mend::{
    Piece, is_cut_into, line_count, mended_text, only_take_away, pieces_with_lines, safe_line,
    shown_lines,
};
use hub_report::{Mended, Refusal, Report, ToldMended, Verdict};
use std::alloc::{AllocError, Global};
use std::sync::Wait;
use std::thread::Threads;

/// The answer with lines that make the set safe, or with the bundle that has them in place. The bundle with the lines is read
/// again and checked, so nobody has to trust what found them.
pub fn report_on_mend<'a, T: Threads + Wait + Sync, P: Progress + Sync>(
    rt: &T,
    alloc: Global,
    reading: Reading,
    as_bundle: bool,
    bytes: Vec<u8>,
    progress: &P,
) -> Report<'a>
    ensures holds { told.Holds (mended reading as_bundle) bytes.items result }
    ensures read { unread_by result ≡ None }
{
    let Ok(pieces) = pieces_with_lines(alloc, bytes.as_slice(), is_for_unison(reading)) else {
        return Report::OutOfMemory;
    };
    if !is_cut_into(bytes.as_slice(), pieces.as_slice()) {
        return Report::NotMended;
    }
    match reading {
        Reading::Plain => report_on_set_with(rt, alloc, as_bundle, bytes, pieces, progress),
        Reading::Unison => {
            report_in_unison(alloc, as_bundle, bytes.as_slice(), pieces.as_slice())
        }
    }
}

/// Returns whether the profiles are to be read for Unison.
fn is_for_unison(reading: Reading) -> bool {
    match reading {
        Reading::Plain => false,
        Reading::Unison => true,
    }
}

/// The answer with these lines, where all of the bundle with them is checked as one set.
fn report_on_set_with<'a, T: Threads + Wait + Sync, P: Progress + Sync>(
    rt: &T,
    alloc: Global,
    as_bundle: bool,
    bytes: Vec<u8>,
    pieces: Vec<Piece>,
    progress: &P,
) -> Report<'a>
    ensures holds { form.HoldsOfParts Reading.Plain as_bundle bytes.items pieces.items result }
    ensures read { unread_by result ≡ None }
{
    let reading = Reading::Plain;
    let old = match contents_in(alloc, Query::Mend { reading, as_bundle }, bytes) {
        Ok(old) => old,
        Err(report) => return report,
    };
    match new_contents(alloc, &old, pieces.as_slice()) {
        Ok(new) => {
            let said = report_on_set(rt, alloc, Question::Check(reading), new, progress);
            report_on_said(alloc, as_bundle, pieces.as_slice(), said)
        }
        Err(report) => report,
    }
}

/// What the bundle with these lines says, if each of its profiles only takes away from an old one.
fn new_contents<'a>(
    alloc: Global,
    old: &BundleContents,
    pieces: &[Piece],
) -> Result<BundleContents, Report<'a>>
    ensures mends { IfOk result (form.MendsTextOf old.now pieces.now) }
    ensures unmended { IfErr result form.IsUnmended }
{
    let Ok(text) = mended_text(alloc, pieces) else {
        return Err(Report::OutOfMemory);
    };
    match own_contents(alloc, text) {
        Ok(new) => {
            if takes_away(old, &new) {
                Ok(new)
            } else {
                Err(Report::NotMended)
            }
        }
        Err(report) => Err(unmended(&report)),
    }
}

/// The answer that no lines mend a bundle, where the bundle with lines has this one instead of what it says; or that memory is out.
pub(crate) fn unmended<'a>(report: &Report<'_>) -> Report<'a>
    ensures { form.IsUnmended result }
{
    match report {
        Report::OutOfMemory => Report::OutOfMemory,
        _ => Report::NotMended,
    }
}

/// Returns whether each profile only takes away from an old one, and the rules are the same.
pub(crate) fn takes_away(old: &BundleContents, new: &BundleContents) -> bool
    ensures profiles { result ≡ true → AllTakeAway old.now.profiles new.now.profiles }
    ensures rules { result ≡ true → new.now.rules ≡ old.now.rules }
{
    only_take_away(old.profiles.as_slice(), new.profiles.as_slice())
        && are_same_rules(new.rules.as_slice(), old.rules.as_slice())
}

/// The answer with these lines, where that is said of the bundle with them.
fn report_on_said<'a>(
    alloc: Global,
    as_bundle: bool,
    pieces: &[Piece],
    said: Report<'a>,
) -> Report<'a>
    ensures told { form.HoldsIf pieces.now as_bundle (form.CheckTells said.entry) result }
    ensures read { unread_by result ≡ None }
{
    match said {
        Report::Verdict(verdict) => report_on_verdict(alloc, as_bundle, pieces, verdict),
        Report::Refused(line, refusal) => {
            report_on_unsafe(alloc, as_bundle, pieces, line.as_str(), refusal)
        }
        Report::OutOfMemory => Report::OutOfMemory,
        _ => Report::NotMended,
    }
}

/// The answer with these lines, where that is the verdict on the bundle with them.
fn report_on_verdict<'a>(
    alloc: Global,
    as_bundle: bool,
    pieces: &[Piece],
    verdict: Verdict,
) -> Report<'a>
    ensures told { form.HoldsIf pieces.now as_bundle
        (form.CheckTells (Report.Verdict verdict)) result }
    ensures read { unread_by result ≡ None }
{
    match verdict {
        Verdict::Safe => report_on_safe(alloc, as_bundle, pieces),
        _ => Report::NotMended,
    }
}

/// The answer with these lines, if the bundle with them is safe.
pub(crate) fn report_on_safe<'a>(alloc: Global, as_bundle: bool, pieces: &[Piece]) -> Report<'a>
    ensures told { form.HoldsWith pieces.now as_bundle true
        (safe_line (line_count pieces.now)) result }
    ensures read { unread_by result ≡ None }
{
    let Some(count) = line_count(pieces) else {
        return Report::OutOfMemory;
    };
    match safe_line(alloc, count) {
        Ok(line) => {
            let told = told_of(pieces, None);
            report_with(alloc, as_bundle, pieces, line.as_str(), true, told)
        }
        Err(AllocError) => Report::OutOfMemory,
    }
}

/// The answer with these lines, if the bundle with them is refused with this line.
pub(crate) fn report_on_unsafe<'a>(
    alloc: Global,
    as_bundle: bool,
    pieces: &[Piece],
    line: &str,
    refusal: Refusal,
) -> Report<'a>
    ensures told { form.HoldsWith pieces.now as_bundle false line.now result }
    ensures read { unread_by result ≡ None }
{
    let told = told_of(pieces, Some(refusal));
    report_with(alloc, as_bundle, pieces, line, false, told)
}

/// The answer with these lines and with what is said of the bundle with them, which is safe or not.
fn report_with<'a>(
    alloc: Global,
    as_bundle: bool,
    pieces: &[Piece],
    line: &str,
    safe: bool,
    told: ToldMended,
) -> Report<'a>
    ensures told { form.HoldsWith pieces.now as_bundle safe line.now result }
    ensures read { unread_by result ≡ None }
{
    match text_with(alloc, as_bundle, pieces, line) {
        Ok(text) => Report::Mended(Mended { text, safe, told }),
        Err(AllocError) => Report::OutOfMemory,
    }
}

/// What these lines tell, where the set with them is refused so or isn't.
fn told_of(pieces: &[Piece], refusal: Option<Refusal>) -> ToldMended {
    ToldMended {
        has_lines: pieces.iter().any(|piece| !piece.lines.is_empty()),
        refusal,
    }
}

/// The bundle with the lines, or the lines and what is said of it.
fn text_with(
    alloc: Global,
    as_bundle: bool,
    pieces: &[Piece],
    line: &str,
) -> Result<Vec<u8>, AllocError>
    ensures { IfOk result (λ text. text.items ≡ spec.mend_text as_bundle pieces.now line.now) }
{
    if as_bundle {
        return mended_text(alloc, pieces);
    }
    let mut text = shown_lines(alloc, pieces)?;
    text.extend_from_slice(line.as_bytes())?;
    Ok(text)
}
