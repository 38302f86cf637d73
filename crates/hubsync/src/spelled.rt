//! Answers over what stands in the place of a bundle of profiles by which names fold.
ghost use Rattle.std.specs.Prelude.{◌≡◌, ◌⊎◌, ◌++◌, IfOk, Some, codes, false, map, string_bytes};
ghost use Rattle.hub_cli.specs.Words.{asked_of, request_of};
ghost use Rattle.hub_path.specs.Path.{root_bytes};
ghost use Rattle.hubsync.specs.Bundled.{memory_line};
ghost use Rattle.hubsync.specs.Bundled as bundled;
ghost use Rattle.hubsync.specs.Written.{ReportsFault, ServesBundleTo, ServesFoldedTo, ServesSpelledTo, ServesTextTo, WritesTextTo};

use crate::bundled::{serve_bundle, write_fault, write_held, write_memory};
use crate::captured::Captured;
use crate::served::{Answered, Capture};
use crate::sources::roots_alone;
use hub_bundle::Part;
use hub_cli::{ErrorKind, Query, read_words};
use hub_path::Root;
use hub_remarks::remark_on_lines;
use hub_respelled::{RespellFault, Spelling, caseless, respelled};
use hub_source::SourceFile;
use hub_text::Watched;
use std::alloc::{AllocError, Global};
use std::io::{Eprint, Write};
use std::sync::Wait;
use std::thread::Threads;
use std::time::Clock;

/// Does what `serve_with_remarks` does over a bundle, that of these files. If its profiles are read for Unison, and names fold by some
/// of them, it does so over their folded lines. Then it is said, and the remarks show these. If a rule doesn't hold where names fold, or
/// such a profile doesn't keep out archives in one of the folders, a fault says so, and the status is 2.
pub fn serve_spelled<T: AllocGlobal + Clock + Eprint + Threads + Wait + Sync, W: Write>(
    rt: &T,
    words: &[String],
    is_for_unison: bool,
    files: &[SourceFile<'_>],
    folders: &[Root],
    parts: &[Part<'_>],
    bundle: &[u8],
    output: &mut Watched<Captured<'_, W>>,
    capture: &Capture,
) -> Answered
    requires { output.old.failed ≡ false }
    ensures { ServesSpelledTo output.old output.new W.contents words.now is_for_unison folders.now
        parts.now bundle.now result.status }
{
    if is_for_unison {
        serve_folded(rt, words, files, folders, parts, bundle, output, capture)
    } else {
        serve_bundle(rt, words, files, bundle, output, capture)
    }
}

/// Does the same of profiles that are read for Unison.
fn serve_folded<T: AllocGlobal + Clock + Eprint + Threads + Wait + Sync, W: Write>(
    rt: &T,
    words: &[String],
    files: &[SourceFile<'_>],
    folders: &[Root],
    parts: &[Part<'_>],
    bundle: &[u8],
    output: &mut Watched<Captured<'_, W>>,
    capture: &Capture,
) -> Answered
    requires { output.old.failed ≡ false }
    ensures { ServesFoldedTo output.old output.new W.contents words.now folders.now parts.now
        bundle.now result.status }
{
    match respelled(rt.alloc(), bundle, folders) {
        Ok(Spelling::Same) => serve_bundle(rt, words, files, bundle, output, capture),
        Ok(Spelling::Folded(text)) => {
            serve_text(rt, words, files, bundle, text.as_slice(), output, capture)
        }
        Ok(Spelling::Held(held)) => Answered::plain(write_held(rt, folders, parts, &held, output)),
        Ok(Spelling::Unread) => serve_bundle(rt, words, files, bundle, output, capture),
        Err(RespellFault::OutOfMemory) => Answered::plain(write_memory(output)),
        Err(fault) => Answered::plain(write_unrespelled(rt, &fault, output)),
    }
}

/// Does the same over a text of folded profiles and rules, which stands in the place of the bundle, unless the words ask for lines: then a
/// fault says that names fold. A line that makes folded profiles safe may not make the profiles so.
fn serve_text<T: AllocGlobal + Clock + Eprint + Threads + Wait + Sync, W: Write>(
    rt: &T,
    words: &[String],
    files: &[SourceFile<'_>],
    bundle: &[u8],
    text: &[u8],
    output: &mut Watched<Captured<'_, W>>,
    capture: &Capture,
) -> Answered
    requires { output.old.failed ≡ false }
    ensures { ServesTextTo output.old output.new W.contents words.now text.now result.status }
{
    match asks_for_lines(rt.alloc(), words) {
        Ok(false) => serve_as_roots(rt, words, files, bundle, text, output, capture),
        Ok(true) => Answered::plain(write_no_lines(rt, output)),
        Err(AllocError) => Answered::plain(write_memory(output)),
    }
}

/// Returns whether the words ask for lines that make a set safe.
fn asks_for_lines(alloc: Global, words: &[String]) -> Result<bool, AllocError>
    ensures { IfOk result (λ b. b ≡ bundled.is_mending (asked_of (map string_bytes words.now))) }
{
    match read_words(alloc, words) {
        Ok(query) => Ok(is_for_lines(query)),
        Err(error) => {
            if error.kind() == ErrorKind::OutOfMemory {
                return Err(AllocError);
            }
            Ok(false)
        }
    }
}

/// Returns whether a query is one for such lines.
fn is_for_lines(query: Query<'_>) -> bool
    ensures { result ≡ bundled.is_mending (Some (request_of query.entry)) }
{
    matches!(query, Query::Mend { .. })
}

/// Gives the answer over the folded text. Remarks show its lines, but roots as the files have them.
fn serve_as_roots<T: AllocGlobal + Clock + Eprint + Threads + Wait + Sync, W: Write>(
    rt: &T,
    words: &[String],
    files: &[SourceFile<'_>],
    bundle: &[u8],
    text: &[u8],
    output: &mut Watched<Captured<'_, W>>,
    capture: &Capture,
) -> Answered
    requires { output.old.failed ≡ false }
    ensures { ServesBundleTo output.old output.new W.contents words.now text.now result.status
        ⊎ WritesTextTo output.old output.new W.contents memory_line 2 result.status }
{
    match roots_alone(rt.alloc(), files) {
        Ok(roots) => {
            say_folded(rt, words, files, bundle);
            serve_bundle(rt, words, roots.as_slice(), text, output, capture)
        }
        Err(AllocError) => Answered::plain(write_memory(output)),
    }
}

/// Says that names fold, so no lines are given.
fn write_no_lines<T: AllocGlobal + Eprint, W: Write>(
    rt: &T,
    output: &mut Watched<Captured<'_, W>>,
) -> u8
    requires { output.old.failed ≡ false }
    ensures { ReportsFault output.old output.new W.contents (codes "profiles") (codes "NamesFold")
        result }
{
    let status = write_fault(rt.alloc(), b"profiles", "NamesFold", output);
    let _ = eprintln!(rt;
        "hubsync: names fold by ignorecase, fat, folds-names or a drive of Windows, and no lines are known that hold then: clashes says what clashes"
    );
    status
}

/// Says on standard error that names fold, and what belongs to the lines of the bundle. If that fails, there is nobody left to tell.
fn say_folded<T: AllocGlobal + Eprint>(
    rt: &T,
    words: &[String],
    files: &[SourceFile<'_>],
    bundle: &[u8],
) {
    let _ = eprintln!(rt;
        "hubsync: names fold by ignorecase, fat, folds-names or a drive of Windows: Docs and docs are one, and lines are shown as Unison folds them"
    );
    if let Ok(text) = remarks_on_lines(rt.alloc(), words, files, bundle) {
        let text = text.as_str();
        let _ = eprint!(rt; "{text}");
    }
}

/// What belongs to the lines of a bundle but for those by which names fold.
fn remarks_on_lines(
    alloc: Global,
    words: &[String],
    files: &[SourceFile<'_>],
    bundle: &[u8],
) -> Result<String, AllocError> {
    let caseless = caseless(alloc, bundle)?;
    remark_on_lines(alloc, words, files, caseless.as_slice())
}

/// Says why nothing stands in the place of a bundle.
fn write_unrespelled<T: AllocGlobal + Eprint, W: Write>(
    rt: &T,
    fault: &RespellFault,
    output: &mut Watched<Captured<'_, W>>,
) -> u8
    requires { output.old.failed ≡ false }
    ensures { ReportsFault output.old output.new W.contents (bundled.respell_place fault.now)
        (bundled.respell_word fault.now) result }
{
    match respell_word(rt.alloc(), fault) {
        Ok(word) => {
            say_unrespelled(rt, fault);
            write_fault(rt.alloc(), respell_place(fault), word.as_str(), output)
        }
        Err(AllocError) => write_memory(output),
    }
}

/// What is wrong, as the answer names it.
fn respell_place(fault: &RespellFault) -> &'static [u8]
    ensures { result.now ≡ bundled.respell_place fault.now }
{
    match fault {
        RespellFault::SpelledTwice { .. } => b"roots",
        _ => b"rules",
    }
}

/// The same as a word of the answer.
fn respell_word(alloc: Global, fault: &RespellFault) -> Result<String, AllocError>
    ensures { IfOk result (λ w. string_bytes w ≡ bundled.respell_word fault.now) }
{
    match fault {
        RespellFault::UnknownRule(number) => format!(in alloc; "UnknownRule {number}"),
        RespellFault::SpelledTwice { first, second } => spelled_word(alloc, first, second),
        RespellFault::Unwritten => String::from_str(alloc, "NotReadBack"),
        RespellFault::OutOfMemory => Ok(String::new(alloc)),
    }
}

/// The word for two roots that are spelled in two ways.
fn spelled_word(alloc: Global, first: &Root, second: &Root) -> Result<String, AllocError>
    ensures { IfOk result (λ w. string_bytes w
        ≡ codes "SpelledTwice " ++ root_bytes first.now ++ codes " " ++ root_bytes second.now) }
{
    let mut word = String::from_str(alloc, "SpelledTwice ")?;
    word.push_str(first.as_str())?;
    word.push_str(" ")?;
    word.push_str(second.as_str())?;
    Ok(word)
}

/// Says on standard error what to do. If that fails, there is nobody left to tell.
fn say_unrespelled<T: Eprint>(rt: &T, fault: &RespellFault) {
    let _ = match fault {
        RespellFault::UnknownRule(_) => eprintln!(rt;
            "hubsync: names fold by ignorecase, fat, folds-names or a drive of Windows, and this rule wouldn't hold for each spelling: write it without ?, with sets of ASCII alone, and with known characters"
        ),
        RespellFault::SpelledTwice { .. } => eprintln!(rt;
            "hubsync: names fold by ignorecase, fat, folds-names or a drive of Windows, and these roots may be one folder, or one may lie in the other: spell it alike in all profiles and rules, or rename one"
        ),
        _ => eprintln!(rt;
            "hubsync: names fold by ignorecase, fat, folds-names or a drive of Windows, and no line can say what a pattern folds to: shorten it"
        ),
    };
}
