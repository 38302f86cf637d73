ghost use Rattle.std.specs.Prelude.{◌≡◌, ◌==◌, ◌&&◌, nat_lt, sum_by, Ok, IfOk, IfErr, IfSome, IsTrue, chars, encode_utf8_all};
ghost use Rattle.std.specs.List.{list_any};
ghost use Rattle.std.specs.Char.{len_utf8};
ghost use Rattle.hub_path.specs.Path as path;
ghost use Rattle.hub_path.specs.forms.Texts as texts;
ghost use Rattle.hub_path.specs.Reading.{FailsAs, name_reading, name_fault};

use crate::fault::PathFault;
use hub_text::{Exact, compare, is_empty};
use std::alloc::{AllocError, Global};
use std::cmp::Ordering;
use std::fmt;
use std::hash::{Hash, Hasher};
use std::marker::Model;
use std::sync::ArcStr;

/// How many bytes of UTF-8 a name may have that `Name::read` reads: what common file systems allow (`NAME_MAX` of POSIX
/// systems).
pub const NAME_BYTES: usize = 255;

/// A name of a path: one or more characters, none of them NUL, CR, LF or `/`, and neither `.` nor `..`.
///
/// POSIX allows no NUL and no `/` in a file's name, and `.` and `..` name directories that are there already. CR and LF
/// are excluded because names are written in lines (this project's choice). Names are compared by their characters, as
/// numbers (Unicode scalar values), which is the order of their UTF-8 bytes. Copies of a name share its text.
#[derive(Debug, Drop)]
pub struct Name {
    text: ArcStr,
}

impl Model for Name {
    ghost use Rattle.std.specs.Prelude.{List, ℕ, chars, IsTrue};
    ghost use Rattle.std.specs.Arc.{arc_str_bytes};
    ghost use Rattle.hub_path.specs.Path.{is_name};

    ghost Value = { List ℕ };

    ghost view = { λ a. chars (arc_str_bytes a.text) };

    ghost invariant = { λ a. IsTrue (is_name (chars (arc_str_bytes a.text))) };
}

impl Name {
    /// Reads a name of at most `NAME_BYTES` bytes. The whole text is the name.
    ///
    /// The fault is the first that applies of `EmptyName` for no characters, `DotName` for `.` and `..`,
    /// `BadCharacter` for a NUL, CR, LF or `/` anywhere, and `NameTooLong`. `OutOfMemory` may come in place of
    /// the name or of a fault.
    pub fn read(alloc: Global, text: &str) -> Result<Name, PathFault>
        ensures ok { IfOk result (λ n. name_reading (chars text.now) ≡ Ok n) }
        ensures err { IfErr result (FailsAs (name_reading (chars text.now))) }
        ensures valid { IfOk result (λ n. IsTrue (path.is_name n)) }
    {
        match fault_of_name(text) {
            Some(fault) => Err(fault),
            None => Ok(with_text(alloc, text)?),
        }
    }

    /// Returns the name that this text is, whatever its length, or `None` if the text is not a name.
    pub fn from_text(alloc: Global, text: &str) -> Result<Option<Name>, AllocError>
        ensures name { IfOk result (λ o. o ≡ path.name_in (chars text.now)) }
        ensures valid { IfOk result (λ o. IfSome o (λ n. IsTrue (path.is_name n))) }
    {
        if is_name(text) {
            Ok(Some(with_text(alloc, text)?))
        } else {
            Ok(None)
        }
    }

    /// Borrows the text of the name.
    pub fn text(&self) -> &str
        ensures text { result.now ≡ encode_utf8_all self.now }
        ensures valid { IsTrue (path.is_name self.now) }
    {
        self.text.as_str()
    }

    /// Copies the name.
    pub fn copy(&self) -> Result<Name, AllocError>
        ensures { IfOk result (λ n. n ≡ self.now) }
    {
        Ok(Name {
            text: self.text.clone()?,
        })
    }
}

/// Makes the name with this text.
fn with_text(alloc: Global, text: &str) -> Result<Name, AllocError>
    requires { IsTrue (path.is_name (chars text.now)) }
    ensures name { IfOk result (λ n. n ≡ chars text.now) }
    ensures valid { IfOk result (λ n. IsTrue (path.is_name n)) }
{
    Ok(Name {
        text: ArcStr::from_str(alloc, text)?,
    })
}

/// Returns what is wrong with the text of a name that is to be read.
fn fault_of_name(text: &str) -> Option<PathFault>
    ensures { result ≡ name_fault (chars text.now) }
{
    if is_empty(text) {
        Some(PathFault::EmptyName)
    } else if is_dots(text) {
        Some(PathFault::DotName)
    } else if has_forbidden(text) {
        Some(PathFault::BadCharacter)
    } else if is_long(text) {
        Some(PathFault::NameTooLong)
    } else {
        None
    }
}

/// Returns whether a text is a name, whatever its length.
fn is_name(text: &str) -> bool
    ensures { result ≡ path.is_name (chars text.now) }
{
    passes_tests(text)
}

/// Returns whether a text passes the tests of a name, in the order of `read`.
fn passes_tests(text: &str) -> bool
    ensures { result ≡ texts.passes_tests (chars text.now) }
{
    !is_empty(text) && !is_dots(text) && !has_forbidden(text)
}

fn is_dots(text: &str) -> bool
    ensures { result ≡ path.is_dots (chars text.now) }
{
    text == "." || text == ".."
}

fn has_forbidden(text: &str) -> bool
    ensures { result ≡ list_any path.is_forbidden (chars text.now) }
{
    text.chars().any(is_forbidden)
}

fn is_long(text: &str) -> bool
    ensures { result ≡ nat_lt NAME_BYTES (sum_by len_utf8 (chars text.now)) }
{
    text.len() > NAME_BYTES
}

/// Returns whether no name has this character.
fn is_forbidden(c: char) -> bool
    ensures { result ≡ path.is_forbidden c }
{
    matches!(c, '\0' | '\n' | '\r' | '/')
}

/// A name is hashed as its text is.
impl Hash for Name {
    ghost use Rattle.std.specs.Prelude.{encode_utf8_all};
    ghost use Rattle.std.specs.Hash as fed;
    ghost use Rattle.hub_path.specs.laws.Hashes.{name_hashed};

    ghost hash_input = { λ n. fed.str (encode_utf8_all n) };

    ghost respects_eq = { name_hashed };

    fn hash<H: Hasher>(&self, state: &mut H) {
        self.text().hash(state);
    }
}

impl fmt::Display for Name {
    ghost use Rattle.std.specs.Prelude.{Some, encode_utf8_all};

    ghost output = { λ n. Some (encode_utf8_all n) };

    fn fmt<W: fmt::Write>(&self, f: &mut fmt::Formatter<W>) -> fmt::Result {
        f.write_str(self.text())
    }
}

impl PartialEq for Name {
    ghost use Rattle.std.specs.Prelude.{nat_eq};
    ghost use Rattle.std.proofs.Common.{rules};
    ghost use Rattle.std.specs.Cmp.Rules.{comparing};
    ghost use Rattle.std.specs.Cmp.Lexicographic.{pointwise};

    ghost eq = { pointwise nat_eq };

    ghost laws = { Prim.search (comparing, rules) };

    fn eq(&self, other: &Name) -> bool {
        self.text() == other.text()
    }
}

impl Eq for Name {
    ghost use Rattle.std.proofs.Common.{rules};
    ghost use Rattle.std.specs.Cmp.Rules.{comparing};

    ghost laws = { Prim.search (comparing, rules) };
}

impl Exact for Name {
    ghost use Rattle.hub_text.specs.laws.Exact.{items_exact, nat_exact};

    ghost exact = { items_exact nat_exact };
}

impl PartialOrd for Name {
    ghost use Rattle.std.proofs.Common.{rules};
    ghost use Rattle.std.specs.Cmp.Rules.{comparing};
    ghost use Rattle.std.specs.Cmp.{partial_order_from_own_ties};
    ghost use Rattle.std.specs.Ordering.{nat_cmp, as_partial_cmp};
    ghost use Rattle.std.specs.Cmp.Lexicographic.{slice_cmp};

    ghost partial_cmp = { as_partial_cmp (slice_cmp nat_cmp) };

    ghost laws = { partial_order_from_own_ties
        (Prim.search (comparing, rules))
        (Prim.search (comparing, rules)) };

    fn partial_cmp(&self, other: &Name) -> Option<Ordering> {
        Some(self.cmp(other))
    }
}

impl Ord for Name {
    ghost use Rattle.std.proofs.Common.{rules};
    ghost use Rattle.std.specs.Cmp.Rules.{comparing};
    ghost use Rattle.std.specs.Ordering.{nat_cmp};
    ghost use Rattle.std.specs.Cmp.Lexicographic.{slice_cmp};

    ghost cmp = { slice_cmp nat_cmp };

    ghost total = { Prim.search (comparing, rules) };

    ghost matches_partial_cmp = { Prim.search (comparing, rules) };

    ghost matches_eq = { Prim.search (comparing, rules) };

    fn cmp(&self, other: &Name) -> Ordering {
        compare(self.text.as_str(), other.text.as_str())
    }
}
