//! Entries that are put into replicas and archives.
ghost use Rattle.std.specs.Prelude.{◌≡◌, ◌<◌, None, Some, Ok, Err, false, is_some, nat_le, option_copied, IfErr, IfOk, IsTrue, OnOk};
ghost use Rattle.std.specs.FinMap as fin;
ghost use Rattle.hub_state.specs.Reading.{FailsReading};
ghost use Rattle.hub_path.specs.Path.{is_path};
ghost use Rattle.hub_tree.specs.Tree.{is_absent, kept_mark};
ghost use Rattle.hub_state.specs.Taking as taking;
ghost use Rattle.hub_state.specs.Taking.{shared_put};

use crate::blobs::Blobs;
use crate::fault::Fault;
use crate::line::{bytes_in, digest_in};
use crate::marks::Marks;
use crate::near::Near;
use crate::state::State;
use crate::{ENTRIES, FILE_BYTES};
use hub_path::RelPath;
use hub_tree::{Blob, Contents, Mark, SetFault, Tree};
use std::alloc::{AllocError, Global};

/// Puts a file into a replica after this many entries, and after the replicas before. In a text of version 2 it names a blob.
pub fn put_file(
    alloc: Global,
    near: &mut Near,
    tree: &mut Tree,
    blobs: &Option<Blobs>,
    before: &State,
    entries: usize,
    field: &str,
    text: &str,
) -> Result<(), Fault>
    ensures ok { OnOk result
        (taking.file_put blobs.now entries tree.old field.now text.now ≡ Ok tree.new) }
    ensures err { IfErr result
        (FailsReading (taking.file_put blobs.now entries tree.old field.now text.now)) }
    ensures room { OnOk result (entries < ENTRIES) }
{
    match blobs {
        None => put_bytes(alloc, near, tree, before, entries, field, text),
        Some(blobs) => put_named(near, tree, blobs, entries, field, text),
    }
}

/// Puts a file that names a blob into a replica after this many entries.
fn put_named(
    near: &mut Near,
    tree: &mut Tree,
    blobs: &Blobs,
    entries: usize,
    field: &str,
    text: &str,
) -> Result<(), Fault>
    ensures ok { OnOk result
        (taking.digest_put blobs.now entries tree.old field.now text.now ≡ Ok tree.new) }
    ensures err { IfErr result
        (FailsReading (taking.digest_put blobs.now entries tree.old field.now text.now)) }
    ensures room { OnOk result (entries < ENTRIES) }
{
    let digest = digest_in(field)?;
    let path = near.read(text)?;
    put_shared(tree, blobs.get(&digest), entries, &path)
}

/// Puts a file into a replica after this many entries. It shares the bytes of a blob, if there is one.
fn put_shared(
    tree: &mut Tree,
    blob: Option<&Blob>,
    entries: usize,
    path: &RelPath,
) -> Result<(), Fault>
    requires { IsTrue (is_path path.now) }
    ensures ok { OnOk result
        (shared_put entries tree.old path.now (option_copied blob.entry) ≡ Ok tree.new) }
    ensures err { IfErr result
        (FailsReading (shared_put entries tree.old path.now (option_copied blob.entry))) }
    ensures room { OnOk result (entries < ENTRIES) }
{
    let Some(blob) = blob else {
        return Err(fault_without_blob(tree, entries, path));
    };
    put_contents(tree, entries, path, Contents::File(blob.copy()?))
}

/// Why a file can't be put after this many entries that names a blob which the text doesn't have.
fn fault_without_blob(tree: &Tree, entries: usize, path: &RelPath) -> Fault
    requires { IsTrue (is_path path.now) }
    ensures { shared_put entries tree.now path.now None ≡ Err result }
{
    if is_full(entries) {
        return Fault::TooLarge;
    }
    if has_entry(tree, path) {
        return Fault::Repeated;
    }
    Fault::UnknownBlob
}

/// Puts a file with these bytes into a replica after this many entries.
fn put_bytes(
    alloc: Global,
    near: &mut Near,
    tree: &mut Tree,
    before: &State,
    entries: usize,
    field: &str,
    text: &str,
) -> Result<(), Fault>
    ensures ok { OnOk result (taking.bytes_put entries tree.old field.now text.now ≡ Ok tree.new) }
    ensures err { IfErr result
        (FailsReading (taking.bytes_put entries tree.old field.now text.now)) }
    ensures room { OnOk result (entries < ENTRIES) }
{
    let bytes = bytes_in(alloc, field)?;
    let path = near.read(text)?;
    if bytes.len() > FILE_BYTES {
        return Err(Fault::TooLarge);
    }
    let blob = blob_of(before, &path, bytes)?;
    put_contents(tree, entries, &path, Contents::File(blob))
}

/// Makes the blob of the file at a path. If the first of the replicas before has the same file there, it is shared, and its
/// digest is not computed again.
fn blob_of(before: &State, path: &RelPath, bytes: Vec<u8>) -> Result<Blob, AllocError>
    ensures { IfOk result (λ b. b ≡ bytes.items) }
{
    if let Some(known) = known_at(before, path) {
        if known.bytes() == bytes.as_slice() {
            return known.copy();
        }
    }
    Blob::new(bytes)
}

/// Borrows the file that the first replica has at a path, if there is one.
fn known_at<'a>(before: &'a State, path: &RelPath) -> Option<&'a Blob> {
    let (_root, tree) = before.replicas().first_key_value()?;
    tree.blob_at(path)
}

/// Returns whether no more entries are allowed after this many.
fn is_full(entries: usize) -> bool
    ensures { result ≡ nat_le ENTRIES entries }
{
    entries >= ENTRIES
}

/// Puts contents, which are not `Absent`, into a replica after this many entries.
pub fn put_contents(
    tree: &mut Tree,
    entries: usize,
    path: &RelPath,
    contents: Contents,
) -> Result<(), Fault>
    requires path { IsTrue (is_path path.now) }
    requires some { is_absent contents ≡ false }
    ensures ok { OnOk result
        (taking.contents_entered entries tree.old path.now contents ≡ Ok tree.new) }
    ensures err { IfErr result
        (FailsReading (taking.contents_entered entries tree.old path.now contents)) }
    ensures room { OnOk result (entries < ENTRIES) }
{
    if is_full(entries) {
        return Err(Fault::TooLarge);
    }
    match tree.put_new(path, contents) {
        Ok(false) => Ok(()),
        Ok(true) => Err(Fault::Repeated),
        Err(SetFault::OutOfMemory) => Err(Fault::OutOfMemory),
        Err(_) => Err(Fault::NoParent),
    }
}

/// Returns whether a replica has an entry at the path.
fn has_entry(tree: &Tree, path: &RelPath) -> bool
    requires { IsTrue (is_path path.now) }
    ensures { result ≡ is_some (fin.get tree.now path.now) }
{
    match tree.mark_at(path) {
        Mark::Absent => false,
        Mark::File(_) => true,
        Mark::Directory => true,
    }
}

/// Puts the digest of a file into an archive after this many entries.
pub fn put_old_file(
    near: &mut Near,
    marks: &mut Marks,
    entries: usize,
    field: &str,
    text: &str,
) -> Result<(), Fault>
    ensures ok { OnOk result
        (taking.old_file_put entries marks.old field.now text.now ≡ Ok marks.new) }
    ensures err { IfErr result
        (FailsReading (taking.old_file_put entries marks.old field.now text.now)) }
    ensures room { OnOk result (entries < ENTRIES) }
{
    let digest = digest_in(field)?;
    let path = near.read(text)?;
    put_mark(marks, entries, &path, Mark::File(digest))
}

/// Puts a mark, which is not `Absent`, into an archive after this many entries.
pub fn put_mark(marks: &mut Marks, entries: usize, path: &RelPath, mark: Mark) -> Result<(), Fault>
    requires path { IsTrue (is_path path.now) }
    requires some { kept_mark mark ≡ Some mark }
    ensures ok { OnOk result
        (taking.mark_entered entries marks.old path.now mark ≡ Ok marks.new) }
    ensures err { IfErr result
        (FailsReading (taking.mark_entered entries marks.old path.now mark)) }
    ensures room { OnOk result (entries < ENTRIES) }
{
    if is_full(entries) {
        return Err(Fault::TooLarge);
    }
    match marks.replace(path, mark)? {
        Mark::Absent => Ok(()),
        Mark::File(_) => Err(Fault::Repeated),
        Mark::Directory => Err(Fault::Repeated),
    }
}
