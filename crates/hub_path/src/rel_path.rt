ghost use Rattle.std.specs.Prelude.{◌≡◌, ◌<◌, ◌↔◌, [], ◌∷◌, ◌++◌, length, slice_get, Some, Ok, IfOk, IfErr, IfSome, IsNone, IsTrue, chars, string_bytes, encode_utf8_all};
ghost use Rattle.hub_path.specs.Path as path;
ghost use Rattle.hub_path.specs.Reading.{FailsAs, path_reading, names_reading, place_of};
ghost use Rattle.hub_path.specs.forms.Texts.{HasChildText};

use crate::fault::PathFault;
use crate::name::Name;
use crate::text::begins_with_slash;
use hub_text::{Exact, is_empty};
use std::alloc::{AllocError, Global};
use std::cmp::Ordering;
use std::hash::{Hash, Hasher};
use std::marker::Model;
use std::sync::Arc;

/// How many names a path or a root may have that `read` reads (this project's choice).
pub const PATH_NAMES: usize = 64;

/// A path inside a replica: its names, from the top down. The path without names stands for the whole replica.
///
/// Paths are compared name by name, and a prefix comes first: `a/b` is before `a-b`. Copies of a path share its names and
/// its text.
#[derive(Debug, Drop)]
pub struct RelPath {
    alloc: Global,
    shared: Option<Arc<Stored>>,
}

impl Model for RelPath {
    ghost use Rattle.std.specs.Prelude.{List, ℕ, IsTrue};
    ghost use Rattle.hub_path.specs.Path.{is_place};
    ghost use Rattle.hub_path.specs.Shared.{shared_names};

    ghost Value = { List (List ℕ) };

    ghost view = { λ a. shared_names a.shared };

    ghost invariant = { λ a. IsTrue (is_place (shared_names a.shared)) };
}

/// The names of a path, and its text.
#[derive(Debug, Drop)]
struct Stored {
    names: Vec<Name>,
    text: String,
}

impl Model for Stored {
    ghost use Rattle.std.specs.Prelude.{◌≡◌, List, ℕ, string_bytes, encode_utf8_all};
    ghost use Rattle.hub_path.specs.Path.{text_of};

    ghost Value = { List (List ℕ) };

    ghost view = { λ a. a.names.items };

    ghost invariant = { λ a. string_bytes a.text ≡ encode_utf8_all (text_of a.names.items) };
}

impl Stored {
    /// Borrows the names.
    fn names(&self) -> &[Name]
        ensures { result.now ≡ self.now }
    {
        self.names.as_slice()
    }

    /// Borrows the text.
    fn text(&self) -> &str
        ensures { result.now ≡ encode_utf8_all (path.text_of self.now) }
    {
        self.text.as_str()
    }
}

impl RelPath {
    /// Returns the path of the whole replica. It doesn't allocate.
    pub fn top(alloc: Global) -> RelPath
        ensures { result ≡ [] }
    {
        RelPath {
            alloc,
            shared: None,
        }
    }

    /// Reads a path: at most `PATH_NAMES` names of at most `NAME_BYTES` bytes each, joined by `/`.
    ///
    /// The fault is `Empty` for no characters, `LeadingSlash` if the first one is `/`, else the fault of the first name
    /// from the left that has one, as `Name::read` returns it: so `a/` and `a//b` have an `EmptyName`. A name after
    /// `PATH_NAMES` others is `TooDeep`, whatever it is. `OutOfMemory` may come in place of the path or of a fault.
    pub fn read(alloc: Global, text: &str) -> Result<RelPath, PathFault>
        ensures ok { IfOk result (λ p. path_reading (chars text.now) ≡ Ok p) }
        ensures err { IfErr result (FailsAs (path_reading (chars text.now))) }
        ensures valid { IfOk result (λ p. IsTrue (path.is_path p)) }
    {
        if is_empty(text) {
            return Err(PathFault::Empty);
        }
        if begins_with_slash(text) {
            return Err(PathFault::LeadingSlash);
        }
        Ok(with_text(alloc, read_names(alloc, text)?, text)?)
    }

    /// Returns the path whose text this is, whatever its length, or `None` if the text is not the text of a path.
    ///
    /// A path has one or more names, so the empty text is not the text of a path.
    pub fn from_text(alloc: Global, text: &str) -> Result<Option<RelPath>, AllocError>
        ensures path { IfOk result (λ o. o ≡ path.path_in (chars text.now)) }
        ensures valid { IfOk result (λ o. IfSome o (λ p. IsTrue (path.is_path p))) }
    {
        let mut names = Vec::new(alloc);
        for part in text.split('/') {
            match Name::from_text(alloc, part)? {
                Some(name) => names.push(name)?,
                None => return Ok(None),
            }
        }
        Ok(Some(with_text(alloc, names, text)?))
    }

    /// Writes the text of the path: its names joined by `/`, which is the text that the path was read from. The whole
    /// replica has the empty text.
    pub fn text(&self) -> Result<String, AllocError>
        ensures { IfOk result (λ t. string_bytes t ≡ encode_utf8_all (path.text_of self.now)) }
    {
        String::from_str(self.alloc, self.as_str())
    }

    /// Borrows the text of the path, as `text` copies it.
    pub fn as_str(&self) -> &str
        ensures text { result.now ≡ encode_utf8_all (path.text_of self.now) }
        ensures valid { IsTrue (path.is_place self.now) }
    {
        match &self.shared {
            Some(shared) => shared.text(),
            None => "",
        }
    }

    /// Returns the number of names. The whole replica has 0.
    pub fn len(&self) -> usize
        ensures len { result ≡ length self.now }
        ensures valid { IsTrue (path.is_place self.now) }
    {
        self.names().len()
    }

    /// Borrows the name at this place, counted from 0.
    pub fn name(&self, i: usize) -> &Name
        requires { i < length self.now }
        ensures name { slice_get self.now i ≡ Some result.now }
        ensures valid { IsTrue (path.is_place self.now) }
    {
        &self.names()[i]
    }

    /// Returns whether the given path is a prefix of this one, by names. Each path is a prefix of itself.
    ///
    /// It compares no more names than the prefix has.
    pub fn starts_with(&self, prefix: &RelPath) -> bool
        ensures { result ≡ path.is_over prefix.now self.now }
    {
        self.names().starts_with(prefix.names())
    }

    /// Copies the path without its last name. The parent of a path of one name is the whole replica, and the whole
    /// replica has no parent.
    pub fn parent(&self) -> Result<Option<RelPath>, AllocError>
        ensures none { IfOk result (λ p. IsNone p ↔ (self.now ≡ [])) }
        ensures parent { IfOk result (λ p. IfSome p (λ q. q ≡ path.parent self.now)) }
    {
        match self.names() {
            [] => Ok(None),
            [front @ .., _] => {
                let text = joined(self.alloc, front)?;
                let names = copies(self.alloc, front, front.len())?;
                Ok(Some(sharing(self.alloc, Stored { names, text })?))
            }
        }
    }

    /// Copies the path, with one more name at its end. It may have any number of names. If it is out of memory, the
    /// new name is dropped.
    pub fn child(&self, name: Name) -> Result<RelPath, AllocError>
        ensures { IfOk result (λ p. p ≡ self.now ++ name ∷ []) }
    {
        let text = longer(self.alloc, self, name.text())?;
        let mut names = copies(self.alloc, self.names(), self.len() + 1)?;
        names.push(name)?;
        sharing(self.alloc, Stored { names, text })
    }

    /// Copies the path.
    pub fn copy(&self) -> Result<RelPath, AllocError>
        ensures { IfOk result (λ p. p ≡ self.now) }
    {
        match &self.shared {
            Some(shared) => Ok(RelPath {
                alloc: self.alloc,
                shared: Some(Arc::try_clone(shared)?),
            }),
            None => Ok(RelPath::top(self.alloc)),
        }
    }

    /// Borrows the names.
    fn names(&self) -> &[Name]
        ensures names { result.now ≡ self.now }
        ensures valid { IsTrue (path.is_place self.now) }
    {
        match &self.shared {
            Some(shared) => shared.names(),
            None => &[],
        }
    }
}

/// Makes the path of these names.
fn sharing(alloc: Global, stored: Stored) -> Result<RelPath, AllocError>
    requires { IsTrue (path.is_place stored) }
    ensures { IfOk result (λ p. p ≡ stored) }
{
    let shared = Arc::new(alloc, stored)?;
    Ok(RelPath {
        alloc,
        shared: Some(shared),
    })
}

/// Makes the path of these names, which are those of the text.
fn with_text(alloc: Global, names: Vec<Name>, text: &str) -> Result<RelPath, AllocError>
    requires place { IsTrue (path.is_place names.items) }
    requires text { names.items ≡ path.path_of (chars text.now) }
    ensures { IfOk result (λ p. p ≡ names.items) }
{
    let text = String::from_str(alloc, text)?;
    sharing(alloc, Stored { names, text })
}

/// Makes the text of a path with one more name.
fn longer(alloc: Global, front: &RelPath, name: &str) -> Result<String, AllocError>
    ensures { (n : path.Name) → name.now ≡ encode_utf8_all n
        → IfOk result (λ t. HasChildText t front.now n) }
{
    let text = front.as_str();
    let capacity = text.len().saturating_add(name.len()).saturating_add(1);
    let mut longer = String::with_capacity(alloc, capacity)?;
    if front.len() > 0 {
        longer.push_str(text)?;
        longer.push('/')?;
    }
    longer.push_str(name)?;
    Ok(longer)
}

/// Copies names into a vector with room for this many.
fn copies(alloc: Global, names: &[Name], capacity: usize) -> Result<Vec<Name>, AllocError>
    ensures { IfOk result (λ v. v.items ≡ names.now) }
{
    let mut copies = Vec::with_capacity(alloc, capacity)?;
    for name in names {
        copies.push(name.copy()?)?;
    }
    Ok(copies)
}

/// Reads the path of a text, which may be empty: then it is that of the whole replica.
pub(crate) fn read_place(alloc: Global, text: &str) -> Result<RelPath, PathFault>
    ensures ok { IfOk result (λ p. names_reading (place_of (chars text.now)) ≡ Ok p) }
    ensures err { IfErr result (FailsAs (names_reading (place_of (chars text.now)))) }
    ensures valid { IfOk result (λ p. IsTrue (path.is_place p)) }
{
    if is_empty(text) {
        return Ok(RelPath::top(alloc));
    }
    Ok(with_text(alloc, read_names(alloc, text)?, text)?)
}

/// Reads the names of a text, which are joined by `/`.
fn read_names(alloc: Global, text: &str) -> Result<Vec<Name>, PathFault>
    ensures ok { IfOk result (λ v. names_reading (path.path_of (chars text.now)) ≡ Ok v.items) }
    ensures err { IfErr result (FailsAs (names_reading (path.path_of (chars text.now)))) }
    ensures valid { IfOk result (λ v. IsTrue (path.is_place v.items)) }
{
    let mut names = Vec::new(alloc);
    for part in text.split('/') {
        if names.len() == PATH_NAMES {
            return Err(PathFault::TooDeep);
        }
        let name = Name::read(alloc, part)?;
        names.push(name)?;
    }
    Ok(names)
}

/// A path is hashed as the list of its names is.
impl Hash for RelPath {
    ghost use Rattle.std.specs.Prelude.{encode_utf8_all};
    ghost use Rattle.std.specs.Hash as fed;
    ghost use Rattle.hub_path.specs.laws.Hashes.{path_hashed};

    ghost hash_input = { fed.slice (λ n. fed.str (encode_utf8_all n)) };

    ghost respects_eq = { path_hashed };

    fn hash<H: Hasher>(&self, state: &mut H) {
        self.names().hash(state);
    }
}

impl PartialEq for RelPath {
    ghost use Rattle.std.specs.Prelude.{nat_eq};
    ghost use Rattle.std.proofs.Common.{rules};
    ghost use Rattle.std.specs.Cmp.Rules.{comparing};
    ghost use Rattle.std.specs.Cmp.Lexicographic.{pointwise};

    ghost eq = { pointwise (pointwise nat_eq) };

    ghost laws = { Prim.search (comparing, rules) };

    fn eq(&self, other: &RelPath) -> bool {
        self.as_str() == other.as_str()
    }
}

impl Eq for RelPath {
    ghost use Rattle.std.proofs.Common.{rules};
    ghost use Rattle.std.specs.Cmp.Rules.{comparing};

    ghost laws = { Prim.search (comparing, rules) };
}

impl Exact for RelPath {
    ghost use Rattle.hub_text.specs.laws.Exact.{items_exact, nat_exact};

    ghost exact = { items_exact (items_exact nat_exact) };
}

impl PartialOrd for RelPath {
    ghost use Rattle.std.proofs.Common.{rules};
    ghost use Rattle.std.specs.Cmp.Rules.{comparing};
    ghost use Rattle.std.specs.Cmp.{partial_order_from_own_ties};
    ghost use Rattle.std.specs.Ordering.{nat_cmp, as_partial_cmp};
    ghost use Rattle.std.specs.Cmp.Lexicographic.{slice_cmp, lists_ties, texts_ties};

    ghost partial_cmp = { as_partial_cmp (slice_cmp (slice_cmp nat_cmp)) };

    ghost laws = { partial_order_from_own_ties
        (Prim.search (comparing, rules))
        (λ x y. lists_ties (slice_cmp nat_cmp) texts_ties x y) };

    fn partial_cmp(&self, other: &RelPath) -> Option<Ordering> {
        Some(self.cmp(other))
    }
}

impl Ord for RelPath {
    ghost use Rattle.std.proofs.Common.{rules};
    ghost use Rattle.std.specs.Cmp.Rules.{comparing};
    ghost use Rattle.std.specs.Ordering.{nat_cmp};
    ghost use Rattle.std.specs.Cmp.Lexicographic.{slice_cmp, lists_ties, texts_ties};

    ghost cmp = { slice_cmp (slice_cmp nat_cmp) };

    ghost total = { Prim.search (comparing, rules) };

    ghost matches_partial_cmp = { Prim.search (comparing, rules) };

    ghost matches_eq = { λ x y. lists_ties (slice_cmp nat_cmp) texts_ties x y };

    fn cmp(&self, other: &RelPath) -> Ordering {
        self.names().cmp(other.names())
    }
}

/// Joins names by `/`.
fn joined(alloc: Global, names: &[Name]) -> Result<String, AllocError>
    ensures { IfOk result (λ t. string_bytes t ≡ encode_utf8_all (path.text_of names.now)) }
{
    let mut text = String::new(alloc);
    for (i, name) in names.iter().enumerate() {
        if i > 0 {
            text.push('/')?;
        }
        text.push_str(name.text())?;
    }
    Ok(text)
}
