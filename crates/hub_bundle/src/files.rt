//! A bundle of files.
ghost use Rattle.std.specs.Prelude.{◌≡◌, ◌++◌, ◌⊎◌, IfErr, IfOk, None, OnOk};
ghost use Rattle.hub_bundle.specs.Files as files;
ghost use Rattle.hub_bundle.specs.declared.files.FilesFault.TheVariants.{OutOfMemory};

use crate::part::{Part, heading_word, part_fault, push_heading_name};
use std::alloc::{AllocError, Global};

/// Why no bundle is made of some files.
#[derive(Clone, Copy, Debug, PartialEq, Eq)]
pub enum FilesFault {
    /// The file of this number, from 0 on, can't be a section: `part_fault` says why.
    File(usize),
    /// Out of memory.
    OutOfMemory,
}

impl From<AllocError> for FilesFault {
    ghost use Rattle.hub_bundle.specs.declared.files.FilesFault.TheVariants.{OutOfMemory};
    ghost use Rattle.std.specs.Prelude.{◌≡◌};

    ghost from_gives = { λ _ e. e ≡ OutOfMemory };

    fn from(_: AllocError) -> Self {
        FilesFault::OutOfMemory
    }
}

/// Makes a bundle of files: for each its heading, and below it its lines. A last line without an LF gets one.
///
/// The fault is that of the first file that can't be a section: its profile's name has an LF or a CR, or else a line begins with
/// `%`. Any call may instead report `OutOfMemory`.
pub fn bundle_of(alloc: Global, parts: &[Part<'_>]) -> Result<Vec<u8>, FilesFault>
    ensures bytes { IfOk result (λ b. b.items ≡ files.bundle_of parts.now) }
    ensures ok { IfOk result (λ _. files.first_faulty parts.now ≡ None) }
    ensures err { IfErr result (λ e. (e ≡ OutOfMemory)
        ⊎ (files.first_faulty parts.now ≡ files.faulty_of e)) }
{
    if let Some(file) = first_faulty(parts) {
        return Err(FilesFault::File(file));
    }
    let mut bundle = Vec::new(alloc);
    for part in parts {
        push_part(&mut bundle, part)?;
    }
    Ok(bundle)
}

/// The number of the first file that can't be a section.
fn first_faulty(parts: &[Part<'_>]) -> Option<usize>
    ensures { result ≡ files.first_faulty parts.now }
{
    parts.iter().position(|part| part_fault(part).is_some())
}

/// Adds a section to a bundle.
fn push_part(bundle: &mut Vec<u8>, part: &Part<'_>) -> Result<(), AllocError>
    ensures { OnOk result (bundle.new.items ≡ bundle.old.items ++ files.part_text part.now) }
{
    bundle.extend_from_slice(heading_word(part.kind))?;
    push_heading_name(bundle, part)?;
    bundle.push(b'\n')?;
    bundle.extend_from_slice(part.bytes)?;
    if lacks_end(part.bytes) {
        bundle.push(b'\n')?;
    }
    Ok(())
}

/// Returns whether there is a last line without an LF.
fn lacks_end(bytes: &[u8]) -> bool
    ensures { result ≡ files.lacks_end bytes.now }
{
    !bytes.is_empty() && !bytes.ends_with(b"\n")
}
