//! The text of a profile that a bundle has.
ghost use Rattle.std.specs.Prelude.{◌≡◌, ◌≤◌, ◌+◌, ◌∷◌, ◌++◌, [], length, map, is_some, IfOk, OnOk};
ghost use Rattle.hub_include.specs.Bundle as bundle;
ghost use Rattle.hub_include.specs.Includes.{of_line};
ghost use Rattle.hub_include.specs.Words as words;
ghost use Rattle.hub_text.specs.Lines as lines;

use crate::lines::FileLine;
use crate::word::asked_by;
use hub_text::without_last_cr;
use std::alloc::{AllocError, Global};

/// The text of these lines, as a section of a bundle has it. Line n of the text, from 1 on, is that of the line n - 1, so a remark
/// on it can name the line's file and number.
///
/// A line that includes a file becomes a comment, by `# ` before it. A blank is put before a line that begins with `%`, which would begin
/// another section. (Both are this project's choice.)
pub fn text_of(alloc: Global, lines: &[FileLine<&str, &[u8]>]) -> Result<Vec<u8>, AllocError>
    ensures { IfOk result (λ v. v.items ≡ bundle.text_of (map of_line lines.now)) }
{
    let mut text = Vec::new(alloc);
    for line in lines {
        push_line(&mut text, line.text)?;
    }
    Ok(text)
}

/// How many bytes there are with those of the text of these lines, which isn't made. `None` if they are more than this limit.
pub fn bytes_with(limit: usize, bytes: usize, lines: &[FileLine<&str, &[u8]>]) -> Option<usize>
    requires { bytes ≤ limit }
    ensures { result ≡ bundle.bytes_with limit bytes (map of_line lines.now) }
{
    let mut sum = bytes;
    for line in lines {
        sum = bytes_with_line(limit, sum, line.text)?;
    }
    Some(sum)
}

/// How many bytes there are with those of a line in the text. `None` if they are more than this limit.
fn bytes_with_line(limit: usize, bytes: usize, line: &[u8]) -> Option<usize>
    requires { bytes ≤ limit }
    ensures { result ≡ bundle.if_at_most limit
        (bytes + length (bundle.before line.now ++ line.now ++ 10 ∷ [])) }
{
    let with_line = bytes
        .checked_add(before(line).len())?
        .checked_add(line.len())?
        .checked_add(1)?;
    if with_line <= limit {
        Some(with_line)
    } else {
        None
    }
}

/// Adds a line to a text.
fn push_line(text: &mut Vec<u8>, line: &[u8]) -> Result<(), AllocError>
    ensures { OnOk result (text.new.items
        ≡ text.old.items ++ (bundle.before line.now ++ line.now ++ 10 ∷ [])) }
{
    text.extend_from_slice(before(line))?;
    text.extend_from_slice(line)?;
    text.push(b'\n')?;
    Ok(())
}

/// What stands before a line in the text.
fn before(line: &[u8]) -> &'static [u8]
    ensures { result.now ≡ bundle.before line.now }
{
    if includes_file(line) {
        b"# "
    } else if is_heading(line) {
        b" "
    } else {
        b""
    }
}

/// Returns whether a line includes a file.
fn includes_file(line: &[u8]) -> bool
    ensures { result ≡ is_some (words.asked_by (lines.without_last_cr line.now)) }
{
    asked_by(without_last_cr(line)).is_some()
}

/// Returns whether a line would begin another section.
fn is_heading(line: &[u8]) -> bool
    ensures { result ≡ bundle.is_heading line.now }
{
    match line {
        [first, ..] => *first == b'%',
        [] => false,
    }
}
