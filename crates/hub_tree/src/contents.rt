ghost use Rattle.std.specs.Prelude.{◌≡◌, IfOk, List, ℕ};
ghost use Rattle.hub_tree.specs.Tree.{IsBytes, IsDigest, mark_of};

use crate::blob::Blob;
use hub_text::Exact;
use std::alloc::AllocError;

/// The contents of a path of a replica.
#[derive(Debug, Drop, PartialEq, Eq)]
pub enum Contents {
    /// A file with these bytes.
    File(Blob),
    /// A directory.
    Directory,
    /// Nothing.
    Absent,
}

/// A summary of contents: a digest in place of a file's bytes.
#[derive(Clone, Copy, Debug, PartialEq, Eq)]
pub enum Mark {
    /// A file whose bytes have this SHA-256 digest (FIPS 180-4).
    File([u8; 32]),
    /// A directory.
    Directory,
    /// Nothing.
    Absent,
}

impl Contents {
    /// The mark of the contents.
    pub fn mark(&self) -> Mark
        ensures { result ≡ mark_of self.now }
    {
        match self {
            Contents::File(blob) => Mark::File(blob.digest()),
            Contents::Directory => Mark::Directory,
            Contents::Absent => Mark::Absent,
        }
    }

    /// Copies the contents. The bytes of a file are shared with the copy.
    pub fn copy(&self) -> Result<Contents, AllocError>
        ensures { IfOk result (λ c. c ≡ self.now) }
    {
        match self {
            Contents::File(blob) => Ok(Contents::File(blob.copy()?)),
            Contents::Directory => Ok(Contents::Directory),
            Contents::Absent => Ok(Contents::Absent),
        }
    }

    /// Does nothing: the bytes of a file are below 256.
    pub(crate) fn has_bytes(&self)
        ensures { (bytes : List ℕ) → self.now ≡ Contents.File bytes → IsBytes bytes }
    {
        if let Contents::File(blob) = self {
            are_bytes(blob.bytes());
        }
    }
}

impl Mark {
    /// Does nothing: the digest of a file has 32 bytes.
    pub(crate) fn has_digest(&self)
        ensures { (digest : List ℕ) → self.now ≡ Mark.File digest → IsDigest digest }
    {
        if let Mark::File(digest) = self {
            is_digest(digest);
        }
    }
}

impl Exact for Contents {
    ghost use Rattle.hub_text.specs.laws.Exact.{variants_exact, no_field, last_field, items_exact, nat_exact};
    ghost use Rattle.hub_tree.specs.contracts.contents.Contents.{enum};

    ghost exact = { variants_exact enum _
        (last_field (items_exact nat_exact), (no_field, (no_field, tt))) };
}

impl Exact for Mark {
    ghost use Rattle.hub_text.specs.laws.Exact.{variants_exact, no_field, last_field, items_exact, nat_exact};
    ghost use Rattle.hub_tree.specs.contracts.contents.Mark.{enum};

    ghost exact = { variants_exact enum _
        (last_field (items_exact nat_exact), (no_field, (no_field, tt))) };
}

/// Does nothing: bytes are below 256.
fn are_bytes(bytes: &[u8])
    ensures { IsBytes bytes.now }
{}

/// Does nothing: an array of 32 bytes is a digest.
fn is_digest(digest: &[u8; 32])
    ensures { IsDigest digest.now }
{
    are_bytes(digest.as_slice());
}
