//! Answers over a bundle that is made of files.
ghost use Rattle.std.specs.Prelude.{◌≡◌, IfOk, MatchOption, codes, false};
ghost use Rattle.hub_archives.specs.Found.{AreKeptOut, IsHeld};
ghost use Rattle.hub_bundle.specs.Files.{bundle_of};
ghost use Rattle.hub_respelled.specs.Caseless.{caseless_bundle};
ghost use Rattle.hubsync.specs.Written.{ReportsFault, ServesBundleTo, ServesPartsTo, WritesTextTo};
ghost use Rattle.hubsync.specs.Bundled as bundled;
ghost use Rattle.hubsync.specs.Bundled.{file_fault_line, file_at, memory_line, reason_at, reason_for};

use crate::captured::Captured;
use crate::served::{Answered, Capture, serve_with_remarks};
use crate::spelled::serve_spelled;
use hub_archives::{HeldArchives, find_archives};
use hub_bundle::{FilesFault, Part, PartFault, bundle_of, part_fault};
use hub_path::Root;
use hub_respelled::caseless;
use hub_source::SourceFile;
use hub_text::Watched;
use std::alloc::{AllocError, Global};
use std::io::{Eprint, Write};
use std::sync::Wait;
use std::thread::Threads;
use std::time::Clock;

/// Does what `serve_with_remarks` does over the bundle that is made of these parts, whose files these are. If none can be made of
/// them, a fault says why: the first file that can't be a section, or that memory is out. So it does if a profile doesn't keep out
/// Unison's archives in one of these folders. Then the status is 2.
pub fn serve_parts<T: AllocGlobal + Clock + Eprint + Threads + Wait + Sync, W: Write>(
    rt: &T,
    words: &[String],
    is_for_unison: bool,
    files: &[SourceFile<'_>],
    folders: &[Root],
    parts: &[Part<'_>],
    output: &mut Watched<Captured<'_, W>>,
    capture: &Capture,
) -> Answered
    requires { output.old.failed ≡ false }
    ensures { ServesPartsTo output.old output.new W.contents words.now is_for_unison folders.now
        parts.now result.status }
{
    let alloc = rt.alloc();
    match bundle_of(alloc, parts) {
        Ok(bundle) => match held_archives(alloc, bundle.as_slice(), folders) {
            Ok(None) => {
                let bundle = bundle.as_slice();
                serve_spelled(
                    rt,
                    words,
                    is_for_unison,
                    files,
                    folders,
                    parts,
                    bundle,
                    output,
                    capture,
                )
            }
            Ok(Some(held)) => Answered::plain(write_held(rt, folders, parts, &held, output)),
            Err(AllocError) => Answered::plain(write_memory(output)),
        },
        Err(FilesFault::File(i)) => Answered::plain(write_part_fault(rt, parts, i, output)),
        Err(FilesFault::OutOfMemory) => Answered::plain(write_memory(output)),
    }
}

/// Finds the first profile of a bundle that doesn't keep out the archives in one of these folders, whether names fold by it or not.
fn held_archives(
    alloc: Global,
    bundle: &[u8],
    folders: &[Root],
) -> Result<Option<HeldArchives>, AllocError>
    ensures { IfOk result (λ o. MatchOption o (AreKeptOut folders.now (caseless_bundle bundle.now))
        (IsHeld folders.now (caseless_bundle bundle.now))) }
{
    let caseless = caseless(alloc, bundle)?;
    find_archives(alloc, caseless.as_slice(), folders)
}

/// Does what `serve_with_remarks` does over a bundle, that of these files.
pub fn serve_bundle<T: AllocGlobal + Clock + Eprint + Threads + Wait + Sync, W: Write>(
    rt: &T,
    words: &[String],
    files: &[SourceFile<'_>],
    bundle: &[u8],
    output: &mut Watched<Captured<'_, W>>,
    capture: &Capture,
) -> Answered
    requires { output.old.failed ≡ false }
    ensures { ServesBundleTo output.old output.new W.contents words.now bundle.now result.status }
{
    let mut input = Watched::new(Captured::new(bundle, &capture.input));
    serve_with_remarks(rt, words, files, &mut input, output, capture)
}

/// Says that a profile doesn't keep out Unison's archives in one of these folders.
pub fn write_held<T: AllocGlobal + Eprint, W: Write>(
    rt: &T,
    folders: &[Root],
    parts: &[Part<'_>],
    held: &HeldArchives,
    output: &mut Watched<Captured<'_, W>>,
) -> u8
    requires { output.old.failed ≡ false }
    ensures { ReportsFault output.old output.new W.contents (file_at parts.now held.now.section)
        (codes "ArchivesInRoot") result }
{
    let file = file_at(parts, held.section);
    let status = write_fault(rt.alloc(), file.as_bytes(), "ArchivesInRoot", output);
    if let Some(folder) = folders.get(held.folder) {
        say_held(rt, file, folder.as_str(), held.path.as_str());
    }
    status
}

/// The file of that number.
fn file_at<'a>(parts: &[Part<'a>], number: usize) -> &'a str
    ensures { result.now ≡ bundled.file_at parts.now number }
{
    match parts.get(number) {
        Some(part) => part.file,
        None => "",
    }
}

/// Says the same on standard error, and what to do. If that fails too, there is nobody left to tell.
fn say_held<T: Eprint>(rt: &T, file: &str, folder: &str, path: &str) {
    let _ = eprintln!(rt;
        "hubsync: {folder} is in a root of {file}: Unison would synchronize its own archives, while it writes them"
    );
    let _ = if path.is_empty() {
        eprintln!(rt; "hubsync: it is the root: synchronize another folder")
    } else if path.contains(has_meaning) {
        eprintln!(rt; "hubsync: add an ignore line for {path}")
    } else {
        eprintln!(rt; "hubsync: add ignore = Path {path}, and keep nothing there by a path line")
    };
}

/// Returns whether a character means something in a pattern.
fn has_meaning(c: char) -> bool {
    matches!(c, '*' | '?' | '[' | ']' | '{' | '}' | ',' | '\\')
}

/// Says why the file of this number can't be a section.
fn write_part_fault<T: AllocGlobal + Eprint, W: Write>(
    rt: &T,
    parts: &[Part<'_>],
    i: usize,
    output: &mut Watched<Captured<'_, W>>,
) -> u8
    requires { output.old.failed ≡ false }
    ensures { ReportsFault output.old output.new W.contents (file_at parts.now i)
        (reason_at parts.now i) result }
{
    match parts.get(i) {
        Some(part) => write_why(rt, part, output),
        None => write_fault(rt.alloc(), b"", "", output),
    }
}

/// Says why a file can't be a section.
fn write_why<T: AllocGlobal + Eprint, W: Write>(
    rt: &T,
    part: &Part<'_>,
    output: &mut Watched<Captured<'_, W>>,
) -> u8
    requires { output.old.failed ≡ false }
    ensures { ReportsFault output.old output.new W.contents part.now.file.now
        (reason_for part.now) result }
{
    let fault = part_fault(part);
    let status = write_fault(rt.alloc(), part.file.as_bytes(), reason_of(fault), output);
    say_part_fault(rt, part.file, fault);
    status
}

/// Why a file can't be a section, as a word of the answer.
fn reason_of(fault: Option<PartFault>) -> &'static str
    ensures { result.now ≡ bundled.reason_of fault }
{
    match fault {
        Some(PartFault::BadName) => "BadName",
        Some(PartFault::HasHeading(_)) => "HasHeading",
        None => "",
    }
}

/// Says the same on standard error, and what to do. If that fails too, there is nobody left to tell.
fn say_part_fault<T: Eprint>(rt: &T, file: &str, fault: Option<PartFault>) {
    let _ = match fault {
        Some(PartFault::BadName) => {
            eprintln!(rt; "hubsync: the name of a profile's file has no line end: rename it")
        }
        Some(PartFault::HasHeading(line)) => {
            eprintln!(rt;
                "hubsync: {file} line {line} begins with %, as only a line of a bundle does"
            )
        }
        None => Ok(()),
    };
}

/// Says what is wrong with a file.
pub fn write_fault<W: Write>(
    alloc: Global,
    file: &[u8],
    reason: &str,
    output: &mut Watched<Captured<'_, W>>,
) -> u8
    requires { output.old.failed ≡ false }
    ensures { ReportsFault output.old output.new W.contents file.now reason.now result }
{
    match fault_line(alloc, file, reason) {
        Ok(line) => write_text(line.as_slice(), 2, output),
        Err(_) => write_memory(output),
    }
}

/// The line that says what is wrong with a file.
fn fault_line(alloc: Global, file: &[u8], reason: &str) -> Result<Vec<u8>, AllocError>
    ensures { IfOk result (λ l. l.items ≡ file_fault_line file.now reason.now) }
{
    let mut line = Vec::new(alloc);
    line.extend_from_slice(b"fault: ")?;
    line.extend_from_slice(file)?;
    line.extend_from_slice(b": ")?;
    line.extend_from_slice(reason.as_bytes())?;
    line.push(b'\n')?;
    Ok(line)
}

/// Says that memory is out.
pub fn write_memory<W: Write>(output: &mut Watched<Captured<'_, W>>) -> u8
    requires { output.old.failed ≡ false }
    ensures { WritesTextTo output.old output.new W.contents memory_line 2 result }
{
    write_text(b"fault: out of memory\n", 2, output)
}

/// Writes a text and returns its status, or 2 if a write or the flush failed.
fn write_text<W: Write>(text: &[u8], status: u8, output: &mut Watched<Captured<'_, W>>) -> u8
    requires { output.old.failed ≡ false }
    ensures { WritesTextTo output.old output.new W.contents text.now status result }
{
    if output.write_all(text).is_err() || output.flush().is_err() {
        return 2;
    }
    status
}
