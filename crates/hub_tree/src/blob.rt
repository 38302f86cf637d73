ghost use Rattle.std.specs.Prelude.{◌≡◌, IfOk};
ghost use Rattle.sha2.specs.Sha256.{sha256};

use hub_text::Exact;
use sha2::{Digest, Sha256};
use std::alloc::AllocError;
use std::marker::Model;
use std::sync::Arc;

/// The bytes of a file, with their digest. Contracts see the bytes alone.
///
/// The digest is SHA-256 (FIPS 180-4). It is computed once, when the blob is made. A blob and its copies share one place in
/// memory, which is freed with the last of them.
#[derive(Debug, Drop)]
pub struct Blob {
    shared: Arc<Digested>,
}

/// Bytes, and their digest.
#[derive(Debug, Drop)]
struct Digested {
    bytes: Vec<u8>,
    digest: [u8; 32],
}

impl Model for Blob {
    ghost use Rattle.std.specs.Prelude.{List, ℕ};
    ghost use Rattle.std.specs.Arc.{arc_value};

    ghost Value = { List ℕ };

    ghost view = { λ a. arc_value a.shared };
}

impl Model for Digested {
    ghost use Rattle.std.specs.Prelude.{◌≡◌, List, ℕ};
    ghost use Rattle.sha2.specs.Sha256.{sha256};

    ghost Value = { List ℕ };

    ghost view = { λ a. a.bytes.items };

    ghost invariant = { λ a. a.digest ≡ sha256 a.bytes.items };
}

impl Blob {
    /// A file with these bytes. Its time grows with them, since their digest is computed.
    pub fn new(bytes: Vec<u8>) -> Result<Blob, AllocError>
        ensures { IfOk result (λ b. b ≡ bytes.items) }
    {
        let alloc = *bytes.allocator();
        let digest = Sha256::digest(bytes.as_slice());
        let shared = Arc::new(alloc, Digested { bytes, digest })?;
        Ok(Blob { shared })
    }

    /// The bytes.
    pub fn bytes(&self) -> &[u8]
        ensures { result.now ≡ self.now }
    {
        self.shared.bytes()
    }

    /// The SHA-256 digest of the bytes, in constant time.
    pub fn digest(&self) -> [u8; 32]
        ensures { result ≡ sha256 self.now }
    {
        self.shared.digest()
    }

    /// Another owner of the bytes and of their digest, in constant time. It allocates nothing, and fails only where they
    /// have more owners than can be counted.
    pub fn copy(&self) -> Result<Blob, AllocError>
        ensures { IfOk result (λ b. b ≡ self.now) }
    {
        let shared = Arc::try_clone(&self.shared)?;
        Ok(Blob { shared })
    }
}

/// Blobs are equal if their bytes are. The digests aren't compared.
impl PartialEq for Blob {
    ghost use Rattle.std.specs.Prelude.{nat_eq};
    ghost use Rattle.std.proofs.Common.{rules};
    ghost use Rattle.std.specs.Cmp.Rules.{comparing};
    ghost use Rattle.std.specs.Cmp.Lexicographic.{pointwise};

    ghost eq = { pointwise nat_eq };

    ghost laws = { Prim.search (comparing, rules) };

    fn eq(&self, other: &Blob) -> bool {
        self.bytes() == other.bytes()
    }
}

impl Eq for Blob {
    ghost use Rattle.std.proofs.Common.{rules};
    ghost use Rattle.std.specs.Cmp.Rules.{comparing};

    ghost laws = { Prim.search (comparing, rules) };
}

impl Exact for Blob {
    ghost use Rattle.hub_text.specs.laws.Exact.{items_exact, nat_exact};

    ghost exact = { items_exact nat_exact };
}

impl Digested {
    /// The bytes.
    fn bytes(&self) -> &[u8]
        ensures { result.now ≡ self.now }
    {
        self.bytes.as_slice()
    }

    /// Their digest.
    fn digest(&self) -> [u8; 32]
        ensures { result ≡ sha256 self.now }
    {
        self.digest
    }
}
