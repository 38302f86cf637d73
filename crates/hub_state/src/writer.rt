ghost use Rattle.std.specs.Prelude.{◌≡◌, ◌+◌, ◌*◌, ◌++◌, ◌∷◌, [], false, length, take};
ghost use Rattle.std.specs.Prelude.{ℕ, List, IfErr, IfSome, OnOk, is_err};
ghost use Rattle.std.specs.FinMap as fin;
ghost use Rattle.std.specs.List.{flat_map};
ghost use Rattle.std.specs.BTreeMap.{IsOrdered};
ghost use Rattle.std.specs.String.{string_cmp};
ghost use Rattle.hex.specs.Hex.{encode_lower};
ghost use Rattle.hub_state.specs.Devices.{AppendsOver, EndsWriting, StopsWriting, is_write_failed, says, reports, PassesOver, PassesLines};
ghost use Rattle.hub_state.specs.View.{by_text, pairs_in, pairs_at};
ghost use Rattle.hub_state.specs.Writing.{dir_line, file_line, hex_field, file_field, pair_lines, archives_lines, replicas_lines};
ghost use Rattle.hub_state.specs.Writing.{contents_lines, mark_lines};
ghost use Rattle.hub_state.specs.Writing.{state_header, blob_line, state_files, version_of};
ghost use Rattle.hub_state.specs.Writing.{joined_lines, state_text, entry_lines, AddsLine, AddsLines, HasBlobsOf};

use crate::blobs::{Head, head_of};
use crate::digits::encode_into;
use crate::fault::{Fault, StateFault};
use crate::form::Version;
use crate::state::State;
use hub_path::RelPath;
use hub_text::Watched;
use hub_tree::{Archive, Blob, Mark, Place, Stored, Tree};
use std::alloc::{AllocError, Global};
use std::collections::BTreeMap;
use std::collections::btree_map::Iter;
use std::io::Write;

/// How many bytes of text are kept before they are passed on to the writer.
const BLOCK_BYTES: usize = 65_536;

/// Writes the text of a state, of version 2: the blobs that its files name, each once, in the order of their digests;
/// replicas in the order of their roots' texts, then archives in the order of both texts, the smaller text first; the entries
/// of each in the order of paths; digits in lower case. If two files of one digest have different bytes, it writes version 1,
/// which has the bytes of each file in place of the blobs.
///
/// Returns `WriteFailed` exactly when a write failed, and writes no further then. Both of its faults have line 0, and after
/// either the writer may hold a part of the text. The text is written in blocks, of which only one is in memory.
pub fn write_state<W: Write>(
    alloc: Global,
    output: &mut Watched<W>,
    state: &State,
) -> Result<(), StateFault>
    requires { output.old.failed ≡ false }
    ensures whole { OnOk result
        (AppendsOver output.old output.new W.contents (state_text state.now)) }
    ensures faults { IfErr result (λ e. EndsWriting e) }
    ensures failed { output.new.failed ≡ reports is_write_failed result }
{
    match write_parts(alloc, output, state) {
        Ok(()) => Ok(()),
        Err(fault) => Err(StateFault { line: 0, fault }),
    }
}

/// Writes the text of a state.
fn write_parts<W: Write>(alloc: Global, output: &mut Watched<W>, state: &State) -> Result<(), Fault>
    requires { output.old.failed ≡ false }
    ensures whole { OnOk result
        (AppendsOver output.old output.new W.contents (state_text state.now)) }
    ensures faults { IfErr result StopsWriting }
    ensures failed { output.new.failed ≡ says is_write_failed result }
{
    let head = head_of(alloc, state.replicas())?;
    let mut text = Vec::new(alloc);
    write_sections(output, &mut text, &head, state)
}

/// Writes the text of a state. The head says how its files are written.
fn write_sections<W: Write>(
    output: &mut Watched<W>,
    text: &mut Vec<u8>,
    head: &Head,
    state: &State,
) -> Result<(), Fault>
    requires works { output.old.failed ≡ false }
    requires version { head.now.version ≡ version_of (state_files state.now) }
    requires blobs { HasBlobsOf head.now (state_files state.now) }
    ensures whole { OnOk result
        (AppendsOver output.old output.new W.contents (text.old.items ++ state_text state.now)) }
    ensures faults { IfErr result StopsWriting }
    ensures failed { output.new.failed ≡ says is_write_failed result }
{
    push_header(text, head.version)?;
    write_lines(output, text, head.blobs.iter())?;
    write_replicas(output, text, head.version, state.replicas())?;
    write_archives(output, text, state.archives())?;
    push(text, "end\n")?;
    pass_on(output, text)
}

/// Writes the lines of the replicas.
fn write_replicas<W: Write>(
    output: &mut Watched<W>,
    text: &mut Vec<u8>,
    version: Version,
    replicas: &BTreeMap<String, Tree>,
) -> Result<(), Fault>
    requires { output.old.failed ≡ false }
    ensures ok { OnOk result
        (PassesLines output.old output.new W.contents text.old.items text.new.items
        (replicas_lines version (by_text replicas.now.entries))) }
    ensures faults { IfErr result StopsWriting }
    ensures failed { output.new.failed ≡ says is_write_failed result }
{
    for (root, tree) in replicas.iter() {
        push_root(text, "replica ", root.as_str())?;
        write_tree(output, text, version, tree)?;
    }
    Ok(())
}

/// Writes the lines of the archives.
fn write_archives<W: Write>(
    output: &mut Watched<W>,
    text: &mut Vec<u8>,
    archives: &BTreeMap<String, BTreeMap<String, Archive>>,
) -> Result<(), Fault>
    requires { output.old.failed ≡ false }
    ensures ok { OnOk result
        (PassesLines output.old output.new W.contents text.old.items text.new.items
        (archives_lines (fin.entries (pairs_in archives.now.entries)))) }
    ensures faults { IfErr result StopsWriting }
    ensures failed { output.new.failed ≡ says is_write_failed result }
{
    for (first, others) in archives.iter() {
        write_pairs(output, text, first.as_str(), others)?;
    }
    Ok(())
}

/// Writes the lines of the archives whose first text is this one.
fn write_pairs<W: Write>(
    output: &mut Watched<W>,
    text: &mut Vec<u8>,
    first: &str,
    others: &BTreeMap<String, Archive>,
) -> Result<(), Fault>
    requires { output.old.failed ≡ false }
    ensures ok { OnOk result
        (PassesLines output.old output.new W.contents text.old.items text.new.items
        (archives_lines (pairs_at first.now others.now.entries))) }
    ensures faults { IfErr result StopsWriting }
    ensures failed { output.new.failed ≡ says is_write_failed result }
    ensures ordered { IsOrdered string_cmp others.now }
{
    for (second, archive) in others.iter() {
        push_pair(text, first, second.as_str())?;
        write_lines(output, text, archive.iter())?;
    }
    Ok(())
}

/// Writes the lines of a replica's entries.
fn write_tree<W: Write>(
    output: &mut Watched<W>,
    text: &mut Vec<u8>,
    version: Version,
    tree: &Tree,
) -> Result<(), Fault>
    requires { output.old.failed ≡ false }
    ensures ok { OnOk result
        (PassesLines output.old output.new W.contents text.old.items text.new.items
        (flat_map (contents_lines version) (fin.entries tree.now))) }
    ensures faults { IfErr result StopsWriting }
    ensures failed { output.new.failed ≡ says is_write_failed result }
{
    for entry in tree.entries()? {
        let (path, stored) = entry?;
        write_entry(output, text, version, &path, stored)?;
    }
    Ok(())
}

/// Writes the line of what a replica has at a path.
fn write_entry<W: Write>(
    output: &mut Watched<W>,
    text: &mut Vec<u8>,
    version: Version,
    path: &Place<'_>,
    stored: Stored<'_>,
) -> Result<(), Fault>
    requires { output.old.failed ≡ false }
    ensures ok { OnOk result
        (PassesLines output.old output.new W.contents text.old.items text.new.items
        (entry_lines version path.now stored.entry)) }
    ensures faults { IfErr result StopsWriting }
    ensures failed { output.new.failed ≡ says is_write_failed result }
{
    push_entry(text, version, path, stored)?;
    pass_block(output, text)
}

/// Writes the lines of each of these entries of a map.
fn write_lines<W: Write, K, V: HasLines<K>>(
    output: &mut Watched<W>,
    text: &mut Vec<u8>,
    entries: Iter<'_, K, V>,
) -> Result<(), Fault>
    requires { output.old.failed ≡ false }
    ensures ok { OnOk result
        (PassesOver output.old output.new W.contents text.old.items text.new.items
        (joined_lines (flat_map V.lines entries.entry))) }
    ensures faults { IfErr result StopsWriting }
    ensures failed { output.new.failed ≡ says is_write_failed result }
{
    for (key, value) in entries {
        value.push_lines(text, key)?;
        pass_block(output, text)?;
    }
    Ok(())
}

/// A value of a map that is written in the text of a state, together with its key.
trait HasLines<K> {
    ghost lines: { K × Self → List (List ℕ) };

    /// Appends the lines of this value and its key.
    fn push_lines(&self, text: &mut Vec<u8>, key: &K) -> Result<(), AllocError>
        ensures { OnOk result (text.new.items
            ≡ text.old.items ++ joined_lines (lines (key.now, self.now))) };
}

/// A blob has one line. Its key is its digest.
impl HasLines<[u8; 32]> for Blob {
    ghost lines = { λ entry. blob_line entry ∷ [] };

    fn push_lines(&self, text: &mut Vec<u8>, digest: &[u8; 32]) -> Result<(), AllocError> {
        push(text, "blob ")?;
        push_digits(text, digest.as_slice())?;
        push(text, " ")?;
        push_hex(text, self.bytes())?;
        push(text, "\n")
    }
}

/// A mark of an archive has at most one line. Its key is its path.
impl HasLines<RelPath> for Mark {
    ghost lines = { mark_lines };

    fn push_lines(&self, text: &mut Vec<u8>, path: &RelPath) -> Result<(), AllocError> {
        match self {
            Mark::File(digest) => push_old_file(text, digest, path),
            Mark::Directory => push_old_dir(text, path),
            Mark::Absent => Ok(()),
        }
    }
}

/// Passes the text on if there is a block of it.
fn pass_block<W: Write>(output: &mut Watched<W>, text: &mut Vec<u8>) -> Result<(), Fault>
    requires { output.old.failed ≡ false }
    ensures ok { OnOk result
        (PassesOver output.old output.new W.contents text.old.items text.new.items []) }
    ensures faults { IfErr result (λ e. e ≡ Fault.WriteFailed) }
    ensures failed { output.new.failed ≡ is_err result }
{
    if text.len() < BLOCK_BYTES {
        return Ok(());
    }
    pass_on(output, text)
}

/// Passes all of the text on, and empties it.
fn pass_on<W: Write>(output: &mut Watched<W>, text: &mut Vec<u8>) -> Result<(), Fault>
    requires { output.old.failed ≡ false }
    ensures ok { OnOk result (AppendsOver output.old output.new W.contents text.old.items) }
    ensures empty { OnOk result (text.new.items ≡ []) }
    ensures faults { IfErr result (λ e. e ≡ Fault.WriteFailed) }
    ensures failed { output.new.failed ≡ is_err result }
{
    match output.write_all(text.as_slice()) {
        Ok(()) => {
            text.clear();
            Ok(())
        }
        Err(_) => Err(Fault::WriteFailed),
    }
}

/// Appends a text.
fn push(text: &mut Vec<u8>, more: &str) -> Result<(), AllocError>
    ensures { OnOk result (text.new.items ≡ text.old.items ++ more.now) }
{
    text.extend_from_slice(more.as_bytes())
}

/// Appends the header.
fn push_header(text: &mut Vec<u8>, version: Version) -> Result<(), AllocError>
    ensures { OnOk result
        (text.new.items ≡ text.old.items ++ (state_header version ++ 10 ∷ [])) }
{
    match version {
        Version::One => push(text, "hubsync state 1\n"),
        Version::Two => push(text, "hubsync state 2\n"),
    }
}

/// Appends the line of a root, after a word.
fn push_root(text: &mut Vec<u8>, word: &str, root: &str) -> Result<(), AllocError>
    ensures { OnOk result
        (text.new.items ≡ text.old.items ++ (word.now ++ root.now ++ 10 ∷ [])) }
{
    push(text, word)?;
    push(text, root)?;
    push(text, "\n")
}

/// Appends the lines of the two roots of a pair.
fn push_pair(text: &mut Vec<u8>, first: &str, second: &str) -> Result<(), AllocError>
    ensures { OnOk result
        (AddsLines text.old.items text.new.items (pair_lines (first.now ∷ second.now ∷ []))) }
{
    push_root(text, "archive ", first)?;
    push_root(text, "with ", second)
}

/// Appends the line of what a replica has at a path.
fn push_entry(
    text: &mut Vec<u8>,
    version: Version,
    path: &Place<'_>,
    stored: Stored<'_>,
) -> Result<(), AllocError>
    ensures { OnOk result
        (AddsLines text.old.items text.new.items (entry_lines version path.now stored.entry)) }
{
    match stored {
        Stored::File(blob) => push_file(text, version, blob, path),
        Stored::Directory => push_dir(text, path),
    }
}

/// Appends the line of a directory of a replica.
fn push_dir(text: &mut Vec<u8>, path: &Place<'_>) -> Result<(), AllocError>
    ensures { OnOk result (AddsLine text.old.items text.new.items (dir_line path.now)) }
{
    push(text, "dir ")?;
    path.push_to(text)?;
    push(text, "\n")
}

/// Appends the line of a directory of an archive.
fn push_old_dir(text: &mut Vec<u8>, path: &RelPath) -> Result<(), AllocError>
    ensures { OnOk result (AddsLine text.old.items text.new.items (dir_line path.now)) }
{
    push(text, "dir ")?;
    push(text, path.as_str())?;
    push(text, "\n")
}

/// Appends the digits of bytes.
fn push_digits(text: &mut Vec<u8>, bytes: &[u8]) -> Result<(), AllocError>
    ensures { OnOk result (text.new.items ≡ text.old.items ++ encode_lower bytes.now) }
{
    let start = text.len();
    let Some(end) = digits_end(start, bytes.len()) else {
        return Err(AllocError);
    };
    text.resize(end, 0)?;
    write_digits(text.as_mut_slice(), start, bytes);
    Ok(())
}

/// Where the digits of so many bytes end, if they begin at `start` and a `usize` is large enough.
fn digits_end(start: usize, count: usize) -> Option<usize>
    ensures { IfSome result (λ end. end ≡ start + 2 * count) }
{
    count.checked_mul(2)?.checked_add(start)
}

/// Writes the digits of bytes over what is there from `start` on.
fn write_digits(text: &mut [u8], start: usize, bytes: &[u8])
    requires { length text.old ≡ start + 2 * length bytes.now }
    ensures { text.new ≡ take start text.old ++ encode_lower bytes.now }
{
    encode_into(bytes, &mut text[start..]);
}

/// Appends the field of bytes.
fn push_hex(text: &mut Vec<u8>, bytes: &[u8]) -> Result<(), AllocError>
    ensures { OnOk result (text.new.items ≡ text.old.items ++ hex_field bytes.now) }
{
    if bytes.is_empty() {
        return push(text, "-");
    }
    push_digits(text, bytes)
}

/// Appends the field of a file of a replica.
fn push_field(text: &mut Vec<u8>, version: Version, blob: &Blob) -> Result<(), AllocError>
    ensures { OnOk result
        (text.new.items ≡ text.old.items ++ file_field version blob.now) }
{
    match version {
        Version::One => push_hex(text, blob.bytes()),
        Version::Two => push_digits(text, blob.digest().as_slice()),
    }
}

/// Appends the line of a file of a replica.
fn push_file(
    text: &mut Vec<u8>,
    version: Version,
    blob: &Blob,
    path: &Place<'_>,
) -> Result<(), AllocError>
    ensures { OnOk result
        (AddsLine text.old.items text.new.items
        (file_line (file_field version blob.now) path.now)) }
{
    push(text, "file ")?;
    push_field(text, version, blob)?;
    push(text, " ")?;
    path.push_to(text)?;
    push(text, "\n")
}

/// Appends the line of a file of an archive.
fn push_old_file(text: &mut Vec<u8>, digest: &[u8; 32], path: &RelPath) -> Result<(), AllocError>
    ensures { OnOk result
        (AddsLine text.old.items text.new.items (file_line (encode_lower digest.now) path.now)) }
{
    push(text, "file ")?;
    push_digits(text, digest.as_slice())?;
    push(text, " ")?;
    push(text, path.as_str())?;
    push(text, "\n")
}
