ghost use Rattle.std.specs.Prelude.{◌≡◌, Some, None, IfOk, OnOk, if◌then◌else◌};
ghost use Rattle.std.specs.FinMap as fin;
ghost use Rattle.std.specs.Option.{option_map};
ghost use Rattle.sha2.specs.Sha256.{sha256};
ghost use Rattle.hub_state.specs.forms.Adding.{AreAdded, file_added, files_added};
ghost use Rattle.hub_state.specs.View.{files_in};
ghost use Rattle.hub_state.specs.Writing.{HasBlobsOf, contents_files, files_of, version_of};
ghost use Rattle.hub_tree.specs.Stored.{stored_contents};

use crate::form::Version;
use hub_tree::{Blob, Stored, Tree};
use std::alloc::{AllocError, Global};
use std::collections::BTreeMap;
use std::collections::btree_map::Iter;
use std::marker::Model;

/// Blobs by their digests.
///
/// It is an ordered map. It shares the bytes of its blobs with those that were put in.
#[derive(Drop)]
pub struct Blobs {
    blobs: BTreeMap<[u8; 32], Blob>,
}

impl Model for Blobs {
    ghost use Rattle.std.specs.Prelude.{List, ℕ};
    ghost use Rattle.std.specs.FinMap as fin;
    ghost use Rattle.std.specs.Coded.{coded_ℕ, coded_list};
    ghost use Rattle.hub_path.specs.Path.{name_cmp};

    ghost Value = { fin.FinMap name_cmp (List ℕ) };

    ghost coded = { fin.code (coded_list coded_ℕ) (coded_list coded_ℕ) };

    ghost view = { λ a. fin.from_entries a.blobs.entries };
}

impl Blobs {
    /// No blobs. It doesn't allocate.
    pub fn new(alloc: Global) -> Blobs
        ensures { result ≡ fin.empty }
    {
        Blobs {
            blobs: BTreeMap::new(alloc),
        }
    }

    /// How many blobs there are.
    pub fn len(&self) -> usize
        ensures { result ≡ fin.len self.now }
    {
        self.blobs.len()
    }

    /// Borrows the blob with a digest, if there is one.
    pub fn get(&self, digest: &[u8; 32]) -> Option<&Blob>
        ensures { option_map (λ b. b.now) result ≡ fin.get self.now digest.now }
    {
        self.blobs.get(digest)
    }

    /// Puts a blob in the place of that of its digest.
    pub fn insert(&mut self, blob: Blob) -> Result<(), AllocError>
        ensures { OnOk result (self.new ≡ fin.insert self.old (sha256 blob) blob) }
    {
        let _old = self.replace(blob)?;
        Ok(())
    }

    /// Puts a blob in the place of that of its digest, and returns that one, if there was one.
    fn replace(&mut self, blob: Blob) -> Result<Option<Blob>, AllocError>
        ensures old { IfOk result (λ old. old ≡ fin.get self.old (sha256 blob)) }
        ensures new { OnOk result (self.new ≡ fin.insert self.old (sha256 blob) blob) }
    {
        let digest = blob.digest();
        let old = self.blobs.insert(digest, blob)?;
        Ok(old)
    }

    /// Goes through the blobs in the order of their digests.
    pub fn iter(&self) -> Iter<'_, [u8; 32], Blob>
        ensures { result ≡ fin.entries self.now }
    {
        self.blobs.iter()
    }

    /// Adds a blob. Returns `false` if there was another one with its digest, whose place it then has.
    fn add(&mut self, blob: &Blob) -> Result<bool, AllocError>
        ensures { IfOk result
            (λ b. (if b then Some self.new else None) ≡ file_added self.old blob.now) }
    {
        match self.replace(blob.copy()?)? {
            Some(known) => Ok(known == *blob),
            None => Ok(true),
        }
    }

    /// Adds the blob of what a replica has at a path, if that is a file. Returns `false` if there is another one with its
    /// digest.
    fn add_stored(&mut self, stored: Stored<'_>) -> Result<bool, AllocError>
        ensures { IfOk result
            (λ b. AreAdded b self.old self.new (contents_files (stored_contents stored.entry))) }
    {
        match stored {
            Stored::File(blob) => self.add(blob),
            Stored::Directory => Ok(true),
        }
    }

    /// Adds the blobs of a replica's files. Returns `false` if two of all these have one digest and different bytes.
    fn add_files(&mut self, tree: &Tree) -> Result<bool, AllocError>
        ensures { IfOk result (λ b. AreAdded b self.old self.new (files_of tree.now)) }
    {
        for entry in tree.entries()? {
            let (_place, stored) = entry?;
            let added = self.add_stored(stored)?;
            if !added {
                return Ok(false);
            }
        }
        Ok(true)
    }
}

/// How the files of a state are written.
#[derive(Drop)]
pub struct Head {
    /// The version of the text.
    pub version: Version,
    /// The blobs of the text. Version 1 has none.
    pub blobs: Blobs,
}

/// The version in which the files of these replicas are written, and the blobs that they name.
pub fn head_of(alloc: Global, replicas: &BTreeMap<String, Tree>) -> Result<Head, AllocError>
    ensures version { IfOk result (λ h. h.version ≡ version_of (files_in replicas.now.entries)) }
    ensures blobs { IfOk result (λ h. HasBlobsOf h (files_in replicas.now.entries)) }
{
    let found = blobs_in(alloc, replicas)?;
    match found {
        Some(blobs) => Ok(Head {
            version: Version::Two,
            blobs,
        }),
        None => Ok(Head {
            version: Version::One,
            blobs: Blobs::new(alloc),
        }),
    }
}

/// The blobs of the files of these replicas, if no two of them have one digest and different bytes.
fn blobs_in(alloc: Global, replicas: &BTreeMap<String, Tree>) -> Result<Option<Blobs>, AllocError>
    ensures { IfOk result (λ o. o ≡ files_added (Some fin.empty) (files_in replicas.now.entries)) }
{
    let mut blobs = Blobs::new(alloc);
    for (_root, tree) in replicas.iter() {
        let added = blobs.add_files(tree)?;
        if !added {
            return Ok(None);
        }
    }
    Ok(Some(blobs))
}
