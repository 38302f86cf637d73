ghost use Rattle.std.specs.Prelude.{◌≡◌, ◌≢◌, Ok, Err, IfOk, IfErr, OnOk};
ghost use Rattle.hub_state.specs.Reading.{FailsReading};
ghost use Rattle.hub_state.specs.Reading.{may_stand};
ghost use Rattle.hub_state.specs.State as spec;
ghost use Rattle.hub_state.specs.Taking as taking;
ghost use Rattle.hub_state.specs.Taking.{IsApart};

use crate::blobs::Blobs;
use crate::entry::{put_contents, put_file, put_mark, put_old_file};
use crate::fault::Fault;
use crate::form::Form;
use crate::line::{bytes_in, digest_in, fields_of, form_of, root_in};
use crate::marks::Marks;
use crate::near::Near;
use crate::state::State;
use crate::{BLOBS, FILE_BYTES};
use hub_path::{RelPath, Root};
use hub_tree::{Blob, Contents, Mark, Tree};
use std::alloc::{AllocError, Global};
use std::mem::replace;
use std::str::from_utf8;

/// The section that the entries below belong to. It isn't in the draft's state yet.
#[derive(Drop)]
pub enum Open {
    /// No section has begun.
    Nothing,
    /// The replica of a root.
    Replica(Root, Tree),
    /// An archive of this root; its other root follows.
    HalfArchive(Root),
    /// The archive of two roots.
    Archive(Root, Root, Marks),
}

/// What the lines above say.
#[derive(Drop)]
pub struct Draft {
    /// The blobs, if the text is of version 2.
    pub blobs: Option<Blobs>,
    /// The sections that have ended.
    pub state: State,
    /// The section that hasn't.
    pub current: Open,
    /// How many entries there were.
    pub entries: usize,
    /// Whether there was an `end`.
    pub ended: bool,
    /// What reads the paths.
    pub near: Near,
}

impl Draft {
    /// The draft before the first line.
    pub fn new(alloc: Global) -> Draft
        ensures { result ≡ taking.nothing_taken spec.empty_state }
    {
        Draft {
            blobs: None,
            state: State::new(alloc),
            current: Open::Nothing,
            entries: 0,
            ended: false,
            near: Near::new(alloc),
        }
    }

    /// Takes the header.
    pub fn take_header(&mut self, alloc: Global, line: &[u8]) -> Result<(), Fault>
        requires { IsApart self.old.current }
        ensures ok { OnOk result (taking.header_taken self.old line.now ≡ Ok self.new) }
        ensures err { IfErr result (λ f. taking.header_taken self.old line.now ≡ Err f) }
        ensures apart { OnOk result (IsApart self.new.current) }
    {
        if line == b"hubsync state 1".as_slice() {
            return Ok(());
        }
        if line != b"hubsync state 2".as_slice() {
            return Err(Fault::BadHeader);
        }
        self.blobs = Some(Blobs::new(alloc));
        Ok(())
    }

    /// Takes a line below the header. After a fault nothing is known of the draft.
    pub fn take(&mut self, alloc: Global, line: &[u8]) -> Result<(), Fault>
        requires { IsApart self.old.current }
        ensures ok { OnOk result (taking.line_taken self.old line.now ≡ Ok self.new) }
        ensures err { IfErr result (FailsReading (taking.line_taken self.old line.now)) }
        ensures apart { OnOk result (IsApart self.new.current) }
    {
        let Ok(line) = from_utf8(line) else {
            return Err(Fault::BadLine);
        };
        let Some((form, rest)) = form_of(line) else {
            return Err(Fault::BadLine);
        };
        if self.ended {
            return Err(Fault::BadLine);
        }
        if !self.current.allows(form) {
            return Err(Fault::BadLine);
        }
        self.take_form(alloc, form, rest)
    }

    /// Takes what follows the word of a line.
    fn take_form(&mut self, alloc: Global, form: Form, rest: &str) -> Result<(), Fault>
        requires { IsApart self.old.current }
        ensures ok { OnOk result (taking.form_taken self.old form rest.now ≡ Ok self.new) }
        ensures err { IfErr result (FailsReading (taking.form_taken self.old form rest.now)) }
        ensures apart { OnOk result (IsApart self.new.current) }
    {
        match form {
            Form::Blob => self.take_blob(alloc, rest),
            Form::Replica => self.begin_replica(alloc, root_in(alloc, rest)?),
            Form::Archive => Ok(self.begin_archive(root_in(alloc, rest)?)?),
            Form::With => self.begin_pair(alloc, root_in(alloc, rest)?),
            Form::Dir => self.take_dir(rest),
            Form::File => self.take_file(alloc, rest),
            Form::End => {
                self.ended = true;
                Ok(())
            }
        }
    }

    /// Puts the section that is open into the state.
    pub fn close(&mut self) -> Result<(), AllocError>
        requires { IsApart self.old.current }
        ensures { OnOk result (self.new ≡ taking.shut self.old) }
    {
        let current = replace(&mut self.current, Open::Nothing);
        match current {
            Open::Replica(root, tree) => self.state.put_replica(&root, tree),
            Open::Archive(first, second, marks) => {
                self.state.put_archive(&first, &second, marks.archive()?)
            }
            Open::HalfArchive(_root) => Ok(()),
            Open::Nothing => Ok(()),
        }
    }

    /// Takes the blob in two fields, if the text is of version 2.
    fn take_blob(&mut self, alloc: Global, fields: &str) -> Result<(), Fault>
        requires { IsApart self.old.current }
        ensures ok { OnOk result
            (taking.form_taken self.old Form.Blob fields.now ≡ Ok self.new) }
        ensures err { IfErr result
            (FailsReading (taking.form_taken self.old Form.Blob fields.now)) }
        ensures apart { OnOk result (IsApart self.new.current) }
    {
        let Some(blobs) = &mut self.blobs else {
            return Err(Fault::BadLine);
        };
        let Some((field, text)) = fields_of(fields) else {
            return Err(Fault::BadLine);
        };
        put_blob(alloc, blobs, field, text)
    }

    /// Begins the replica of a root.
    fn begin_replica(&mut self, alloc: Global, root: Root) -> Result<(), Fault>
        requires { IsApart self.old.current }
        ensures ok { OnOk result (taking.replica_begun self.old root ≡ Ok self.new) }
        ensures err { IfErr result (FailsReading (taking.replica_begun self.old root)) }
        ensures apart { OnOk result (IsApart self.new.current) }
    {
        self.close()?;
        if self.state.replica(&root).is_some() {
            return Err(Fault::Repeated);
        }
        self.current = Open::Replica(root, Tree::new(alloc));
        Ok(())
    }

    /// Begins an archive of a root.
    fn begin_archive(&mut self, root: Root) -> Result<(), AllocError>
        requires { IsApart self.old.current }
        ensures { OnOk result (self.new ≡ taking.with_half_open self.old root) }
    {
        self.close()?;
        self.current = Open::HalfArchive(root);
        Ok(())
    }

    /// Takes the other root of an archive.
    fn begin_pair(&mut self, alloc: Global, second: Root) -> Result<(), Fault>
        ensures ok { OnOk result (taking.other_root_taken self.old second ≡ Ok self.new) }
        ensures err { IfErr result (FailsReading (taking.other_root_taken self.old second)) }
        ensures apart { OnOk result (IsApart self.new.current) }
    {
        let first = self.first_root(&second)?;
        self.current = Open::Archive(first, second, Marks::new(alloc));
        Ok(())
    }

    /// Returns the root that the archive has already, if this may be its other root.
    fn first_root(&self, second: &Root) -> Result<Root, Fault>
        ensures ok { IfOk result (λ first. taking.OpensPair self.now first second.now) }
        ensures err { IfErr result (FailsReading (taking.other_root_taken self.now second.now)) }
        ensures apart { IfOk result (λ first. first ≢ second.now) }
    {
        let Open::HalfArchive(first) = &self.current else {
            return Err(Fault::BadLine);
        };
        if *first == *second {
            return Err(Fault::BadLine);
        }
        if self.state.archive(first, second).is_some() {
            return Err(Fault::Repeated);
        }
        Ok(first.copy()?)
    }

    /// Takes the directory at the path in a field.
    fn take_dir(&mut self, field: &str) -> Result<(), Fault>
        requires { IsApart self.old.current }
        ensures ok { OnOk result
            (taking.form_taken self.old Form.Dir field.now
            ≡ Ok self.new) }
        ensures err { IfErr result (FailsReading (taking.form_taken self.old Form.Dir field.now)) }
        ensures apart { OnOk result (IsApart self.new.current) }
    {
        let path = self.near.read(field)?;
        let entries = self.entries;
        match &mut self.current {
            Open::Replica(_, tree) => put_contents(tree, entries, &path, Contents::Directory)?,
            Open::Archive(_, _, marks) => put_mark(marks, entries, &path, Mark::Directory)?,
            Open::Nothing => return Err(Fault::BadLine),
            Open::HalfArchive(_) => return Err(Fault::BadLine),
        }
        self.entries = entries + 1;
        Ok(())
    }

    /// Takes the file in two fields.
    fn take_file(&mut self, alloc: Global, fields: &str) -> Result<(), Fault>
        requires { IsApart self.old.current }
        ensures ok { OnOk result (taking.form_taken self.old Form.File fields.now ≡ Ok self.new) }
        ensures err { IfErr result
            (FailsReading (taking.form_taken self.old Form.File fields.now)) }
        ensures apart { OnOk result (IsApart self.new.current) }
    {
        let Some((field, text)) = fields_of(fields) else {
            return Err(Fault::BadLine);
        };
        let entries = self.entries;
        let near = &mut self.near;
        let blobs = &self.blobs;
        let before = &self.state;
        match &mut self.current {
            Open::Replica(_, tree) => {
                put_file(alloc, near, tree, blobs, before, entries, field, text)?
            }
            Open::Archive(_, _, marks) => put_old_file(near, marks, entries, field, text)?,
            Open::Nothing => return Err(Fault::BadLine),
            Open::HalfArchive(_) => return Err(Fault::BadLine),
        }
        self.entries = entries + 1;
        Ok(())
    }
}

impl Open {
    /// Returns whether a line of this form may follow.
    fn allows(&self, form: Form) -> bool
        ensures { result ≡ may_stand (taking.section_of self.now) form }
    {
        match self {
            Open::HalfArchive(_) => form == Form::With,
            Open::Nothing => form != Form::With && form != Form::Dir && form != Form::File,
            Open::Replica(_, _) => form != Form::With && form != Form::Blob,
            Open::Archive(_, _, _) => form != Form::With && form != Form::Blob,
        }
    }
}

/// Puts the blob in two fields to the others.
fn put_blob(alloc: Global, blobs: &mut Blobs, field: &str, text: &str) -> Result<(), Fault>
    ensures ok { OnOk result (taking.blob_fields_put blobs.old field.now text.now ≡ Ok blobs.new) }
    ensures err { IfErr result
        (FailsReading (taking.blob_fields_put blobs.old field.now text.now)) }
{
    let digest = digest_in(field)?;
    let bytes = bytes_in(alloc, text)?;
    if blobs.len() >= BLOBS || bytes.len() > FILE_BYTES {
        return Err(Fault::TooLarge);
    }
    let blob = Blob::new(bytes)?;
    if blob.digest() != digest {
        return Err(Fault::WrongDigest);
    }
    if blobs.get(&digest).is_some() {
        return Err(Fault::Repeated);
    }
    blobs.insert(blob)?;
    Ok(())
}
