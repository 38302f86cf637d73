ghost use Rattle.std.specs.Prelude.{◌≡◌, Ok, IfOk, IfErr, IsTrue, chars, string_bytes};
ghost use Rattle.hub_path.specs.Path as path;
ghost use Rattle.hub_path.specs.Reading.{FailsAs, root_reading};

use crate::fault::PathFault;
use crate::rel_path::{RelPath, read_place};
use crate::text::{after_slash, is_remote, without_last_slash};
use hub_text::{Exact, is_empty};
use std::alloc::{AllocError, Global};
use std::hash::{Hash, Hasher};
use std::marker::Model;

/// The root of a replica on this machine: an absolute path. `/` has no names.
///
/// Roots are equal if their names are. The file system isn't asked. A root keeps its text beside its names.
#[derive(Debug, Drop)]
pub struct Root {
    path: RelPath,
    text: String,
}

impl Model for Root {
    ghost use Rattle.std.specs.Prelude.{◌≡◌, List, ℕ, string_bytes};
    ghost use Rattle.hub_path.specs.Path.{root_bytes};

    ghost Value = { List (List ℕ) };

    ghost view = { λ a. a.path };

    ghost invariant = { λ a. string_bytes a.text ≡ root_bytes a.path };
}

impl Root {
    /// Reads a root: `/` and the names of a path, with or without one `/` at the end.
    ///
    /// The fault is `Empty` for no characters, `RemoteRoot` for a text that begins with `//` or with one or more ASCII
    /// letters and `://` (the forms of remote roots in the Unison manual; that no other text is remote is this project's
    /// choice), `NotAbsolute` for another text that doesn't begin with `/`, else the fault of the first name from the
    /// left that has one, as `RelPath::read` returns it: so `/srv//` has an `EmptyName`. `OutOfMemory` may come in place
    /// of the root or of a fault.
    pub fn read(alloc: Global, text: &str) -> Result<Root, PathFault>
        ensures ok { IfOk result (λ r. root_reading (chars text.now) ≡ Ok r) }
        ensures err { IfErr result (FailsAs (root_reading (chars text.now))) }
        ensures valid { IfOk result (λ r. IsTrue (path.is_place r)) }
    {
        if is_empty(text) {
            return Err(PathFault::Empty);
        }
        if is_remote(text) {
            return Err(PathFault::RemoteRoot);
        }
        let Some(rest) = after_slash(text) else {
            return Err(PathFault::NotAbsolute);
        };
        Ok(with_path(read_place(alloc, without_last_slash(rest))?)?)
    }

    /// Returns whether this root is the other one or lies below it, by names: `/srv/hub2` isn't within `/srv/hub`, and
    /// each root is within `/`.
    pub fn is_within(&self, other: &Root) -> bool
        ensures { result ≡ path.is_over other.now self.now }
    {
        self.path.starts_with(&other.path)
    }

    /// Borrows the names of the root, as a path from `/`.
    pub fn path(&self) -> &RelPath
        ensures { result.now ≡ self.now }
    {
        &self.path
    }

    /// Borrows the text of the root: a `/`, and its names joined by `/`. It is the text that the root was read from,
    /// without one `/` after its names.
    pub fn as_str(&self) -> &str
        ensures { result.now ≡ path.root_bytes self.now }
    {
        self.text.as_str()
    }

    /// Copies the text of the root, which `as_str` borrows.
    pub fn text(&self) -> Result<String, AllocError>
        ensures { IfOk result (λ t. string_bytes t ≡ path.root_bytes self.now) }
    {
        self.text.clone()
    }

    /// Copies the root.
    pub fn copy(&self) -> Result<Root, AllocError>
        ensures { IfOk result (λ r. r ≡ self.now) }
    {
        Ok(Root {
            path: self.path.copy()?,
            text: self.text.clone()?,
        })
    }
}

/// Makes the root with these names.
fn with_path(path: RelPath) -> Result<Root, AllocError>
    ensures { IfOk result (λ r. r ≡ path) }
{
    let mut text = path.text()?;
    text.insert(0, '/')?;
    Ok(Root { path, text })
}

/// A root is hashed as the list of its names is.
impl Hash for Root {
    ghost use Rattle.std.specs.Prelude.{encode_utf8_all};
    ghost use Rattle.std.specs.Hash as fed;
    ghost use Rattle.hub_path.specs.laws.Hashes.{path_hashed};

    ghost hash_input = { fed.slice (λ n. fed.str (encode_utf8_all n)) };

    ghost respects_eq = { path_hashed };

    fn hash<H: Hasher>(&self, state: &mut H) {
        self.path.hash(state);
    }
}

impl PartialEq for Root {
    ghost use Rattle.std.specs.Prelude.{nat_eq};
    ghost use Rattle.std.proofs.Common.{rules};
    ghost use Rattle.std.specs.Cmp.Rules.{comparing};
    ghost use Rattle.std.specs.Cmp.Lexicographic.{pointwise};

    ghost eq = { pointwise (pointwise nat_eq) };

    ghost laws = { Prim.search (comparing, rules) };

    fn eq(&self, other: &Root) -> bool {
        self.path == other.path
    }
}

impl Eq for Root {
    ghost use Rattle.std.proofs.Common.{rules};
    ghost use Rattle.std.specs.Cmp.Rules.{comparing};

    ghost laws = { Prim.search (comparing, rules) };
}

impl Exact for Root {
    ghost use Rattle.hub_text.specs.laws.Exact.{items_exact, nat_exact};

    ghost exact = { items_exact (items_exact nat_exact) };
}
