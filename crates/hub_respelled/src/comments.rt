//! A bundle without the lines that say that names fold.
ghost use Rattle.std.specs.Prelude.{◌≡◌, IfOk, OnOk};
ghost use Rattle.hub_text.specs.Lines.{lines_of};
ghost use Rattle.hub_preferences.specs.Counted.{AddsLine, comment, line_of};
ghost use Rattle.hub_respelled.specs.Caseless as spec;

use crate::case::{case_of, folds_below};
use hub_bundle::is_heading;
use hub_text::Lines;
use std::alloc::{AllocError, Global};

/// Returns whether the names of one of the profiles of a bundle fold.
pub(crate) fn says_folding(bundle: &[u8]) -> bool
    ensures { result ≡ spec.says_folding bundle.now }
{
    let mut lines = Lines::new(bundle);
    while let Some(line) = lines.next() {
        if folds_at(false, line.text, lines.rest()) {
            return true;
        }
    }
    false
}

/// The bundle with a comment in place of each line by which the names of a profile fold: `ignorecase = true` and `fat = true`, unless a
/// line beside it makes unclear whether or how they do (`unicode = false`, or another value). `unicode = true` goes, too. The numbers of all lines stay. It takes time in
/// proportion to the bytes. Out of memory is the only error.
pub fn caseless(alloc: Global, bundle: &[u8]) -> Result<Vec<u8>, AllocError>
    ensures { IfOk result (λ v. v.items ≡ spec.caseless_bundle bundle.now) }
{
    let mut caseless = Vec::new(alloc);
    let mut folds = false;
    let mut lines = Lines::new(bundle);
    while let Some(line) = lines.next() {
        folds = folds_at(folds, line.text, lines.rest());
        if is_left_out(folds, line.text) {
            push_comment(&mut caseless, line.text, line.is_ended)?;
        } else {
            push_line(&mut caseless, line.text, line.is_ended)?;
        }
    }
    Ok(caseless)
}

/// Returns whether a line is below the heading of a profile whose names fold, where the line above it is below such a one or not.
fn folds_at(folds: bool, line: &[u8], below: &[u8]) -> bool
    ensures { result ≡ spec.folds_at folds line.now (lines_of below.now) }
{
    if !is_heading(line) {
        return folds;
    }
    line.starts_with(b"%profile ") && folds_below(below)
}

fn is_left_out(folds: bool, line: &[u8]) -> bool
    ensures { result ≡ spec.is_left_out folds line.now }
{
    folds && !is_heading(line) && case_of(line).is_known()
}

/// Adds a comment of the length of a line.
fn push_comment(bytes: &mut Vec<u8>, text: &[u8], is_ended: bool) -> Result<(), AllocError>
    ensures { OnOk result (AddsLine bytes.old bytes.new (comment (line_of text.now is_ended))) }
{
    bytes.push(b'#')?;
    push_line(bytes, text.get(1..).unwrap_or(&[]), is_ended)
}

/// Adds a line.
fn push_line(bytes: &mut Vec<u8>, text: &[u8], is_ended: bool) -> Result<(), AllocError>
    ensures { OnOk result (AddsLine bytes.old bytes.new (line_of text.now is_ended)) }
{
    bytes.extend_from_slice(text)?;
    if is_ended {
        bytes.push(b'\n')?;
    }
    Ok(())
}
