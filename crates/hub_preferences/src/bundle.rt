//! A bundle without the lines that a cautious reading leaves out.
ghost use Rattle.std.specs.Prelude.{◌≡◌, IfOk, OnOk};
ghost use Rattle.hub_preferences.specs.Counted as spec;
ghost use Rattle.hub_preferences.specs.Counted.{AddsLine, comment, line_of, spelled};

use crate::place::roots_in;
use crate::section::{NO_PROFILE, Section};
use hub_path::Root;
use hub_text::Lines;
use std::alloc::{AllocError, Global};

/// The bundle with a comment in place of each line of a profile that a cautious reading leaves out, and with each `path` line in the
/// plain reader's spelling that only Unison reads: `./a`, `a//b` and `a/.` are `a`, `a/b` and `a`. In place of a `logfile` line whose
/// file may lie in a root of one of the profiles there is a line that the plain reader refuses as [`LOGFILE_IN_ROOT`].
///
/// It takes time in proportion to the bytes, but for the search for names, and for each `logfile` line that for roots above its file.
/// The numbers of all lines stay. Out of memory is the only error.
///
/// [`LOGFILE_IN_ROOT`]: crate::LOGFILE_IN_ROOT
pub fn counted(alloc: Global, bundle: &[u8]) -> Result<Vec<u8>, AllocError>
    ensures { IfOk result (λ v. v.items ≡ spec.counted_bundle bundle.now) }
{
    let roots = roots_in(alloc, bundle)?;
    let mut counted = Vec::new(alloc);
    let mut section = NO_PROFILE;
    let mut lines = Lines::new(bundle);
    while let Some(line) = lines.next() {
        section = section.at(alloc, roots.as_slice(), line.text, lines.rest())?;
        if section.leaves_out(alloc, roots.as_slice(), line.text, lines.rest())? {
            push_comment(&mut counted, line.text, line.is_ended)?;
        } else {
            push_spelled(
                alloc,
                roots.as_slice(),
                &mut counted,
                section,
                line.text,
                line.is_ended,
            )?;
        }
    }
    Ok(counted)
}

/// Adds a comment of the length of a line.
fn push_comment(bytes: &mut Vec<u8>, text: &[u8], is_ended: bool) -> Result<(), AllocError>
    ensures { OnOk result (AddsLine bytes.old bytes.new (comment (line_of text.now is_ended))) }
{
    bytes.push(b'#')?;
    push_line(bytes, text.get(1..).unwrap_or(&[]), is_ended)
}

/// Adds a line of a section in the plain reader's spelling.
fn push_spelled(
    alloc: Global,
    roots: &[Root],
    bytes: &mut Vec<u8>,
    section: Section,
    text: &[u8],
    is_ended: bool,
) -> Result<(), AllocError>
    ensures { OnOk result (AddsLine bytes.old bytes.new
        (spelled roots.now section (line_of text.now is_ended))) }
{
    match section.spelling(alloc, roots, text)? {
        Some(line) => push_line(bytes, line.as_bytes(), is_ended),
        None => push_line(bytes, text, is_ended),
    }
}

/// Adds a line.
fn push_line(bytes: &mut Vec<u8>, text: &[u8], is_ended: bool) -> Result<(), AllocError>
    ensures { OnOk result (AddsLine bytes.old bytes.new (line_of text.now is_ended)) }
{
    bytes.extend_from_slice(text)?;
    if is_ended {
        bytes.push(b'\n')?;
    }
    Ok(())
}
