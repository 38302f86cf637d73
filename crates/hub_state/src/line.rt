ghost use Rattle.std.specs.Prelude.{◌≡◌, false, Ok, Err, Some, None, IfOk, IfErr, IsTrue, MatchOption};
ghost use Rattle.std.specs.List.{list_any};
ghost use Rattle.hub_path.specs.Path.{is_path};
ghost use Rattle.hub_path.specs.Reading.{names_fault};
ghost use Rattle.hub_state.specs.Reading.{FailsReading, AreFields, HasForm, line_of, line_among, words, inner_words};
ghost use Rattle.hub_state.specs.Reading.{path_field, root_field, bytes_field, digest_field};
ghost use Rattle.hub_text.specs.Blanks.{is_space};

use crate::digits::decoded;
use crate::fault::Fault;
use crate::form::Form;
use hex::FromHex;
use hub_path::{PathFault, RelPath, Root};
use std::alloc::Global;

/// The form of a line, and what follows its word, if it has one.
pub fn form_of(line: &str) -> Option<(Form, &str)>
    ensures { MatchOption result (line_of line.now ≡ None)
        (λ x. HasForm (line_of line.now) x.0 x.1.now) }
{
    if line == "end" {
        return Some((Form::End, ""));
    }
    word_of(line)
}

/// The form of a line whose word a space follows, and what follows that.
fn word_of(line: &str) -> Option<(Form, &str)>
    ensures { MatchOption result (line_among words line.now ≡ None)
        (λ x. HasForm (line_among words line.now) x.0 x.1.now) }
{
    if let Some(rest) = line.strip_prefix("blob ") {
        return Some((Form::Blob, rest));
    }
    if let Some(rest) = line.strip_prefix("replica ") {
        return Some((Form::Replica, rest));
    }
    if let Some(rest) = line.strip_prefix("archive ") {
        return Some((Form::Archive, rest));
    }
    inner_word_of(line)
}

/// The same of a line within a section.
fn inner_word_of(line: &str) -> Option<(Form, &str)>
    ensures { MatchOption result (line_among inner_words line.now ≡ None)
        (λ x. HasForm (line_among inner_words line.now) x.0 x.1.now) }
{
    if let Some(rest) = line.strip_prefix("with ") {
        return Some((Form::With, rest));
    }
    if let Some(rest) = line.strip_prefix("dir ") {
        return Some((Form::Dir, rest));
    }
    if let Some(rest) = line.strip_prefix("file ") {
        return Some((Form::File, rest));
    }
    None
}

/// The path in a field.
pub fn path_in(alloc: Global, field: &str) -> Result<RelPath, Fault>
    ensures ok { IfOk result (λ p. path_field field.now ≡ Ok p) }
    ensures valid { IfOk result (λ p. IsTrue (is_path p)) }
    ensures names { IfOk result (λ p. names_fault 0 p ≡ None) }
    ensures err { IfErr result (FailsReading (path_field field.now)) }
{
    match RelPath::read(alloc, field) {
        Ok(path) => Ok(path),
        Err(PathFault::OutOfMemory) => Err(Fault::OutOfMemory),
        Err(_) => Err(Fault::BadPath),
    }
}

/// The root in a field.
pub fn root_in(alloc: Global, field: &str) -> Result<Root, Fault>
    ensures ok { IfOk result (λ r. root_field field.now ≡ Ok r) }
    ensures err { IfErr result (FailsReading (root_field field.now)) }
{
    match Root::read(alloc, field) {
        Ok(root) => Ok(root),
        Err(PathFault::OutOfMemory) => Err(Fault::OutOfMemory),
        Err(_) => Err(Fault::BadPath),
    }
}

/// The bytes in a field of hexadecimal digits; `-` stands for none.
pub fn bytes_in(alloc: Global, field: &str) -> Result<Vec<u8>, Fault>
    ensures ok { IfOk result (λ v. bytes_field field.now ≡ Ok v.items) }
    ensures err { IfErr result (FailsReading (bytes_field field.now)) }
{
    if field == "-" {
        return Ok(Vec::new(alloc));
    }
    if field.is_empty() {
        return Err(Fault::BadHex);
    }
    match decoded(alloc, field.as_bytes())? {
        Some(bytes) => Ok(bytes),
        None => Err(Fault::BadHex),
    }
}

/// The digest in a field. It takes no memory.
pub fn digest_in(field: &str) -> Result<[u8; 32], Fault>
    ensures ok { IfOk result (λ d. digest_field field.now ≡ Ok d) }
    ensures err { IfErr result (λ e. digest_field field.now ≡ Err e) }
{
    match <[u8; 32] as FromHex>::from_hex(field) {
        Ok(digest) => Ok(digest),
        Err(_) => Err(Fault::BadHex),
    }
}

/// What is before the first space and what follows it, if there is one.
pub fn fields_of(text: &str) -> Option<(&str, &str)>
    ensures { MatchOption result (list_any is_space text.now ≡ false)
        (λ x. AreFields text.now x.0.now x.1.now) }
{
    text.split_once(' ')
}
