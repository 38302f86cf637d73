ghost use Rattle.std.specs.Prelude.{◌≡◌, ◌<◌, ◌≤◌, ◌⊎◌, true, length, take, chars, string_bytes, encode_utf8_all, Ok, Err, IfOk, IfErr};
ghost use Rattle.std.specs.List.{list_any};
ghost use Rattle.hub_path.specs.Path.{last_name, text_of, prefixes};
ghost use Rattle.hub_glob.specs.Glob as glob;
ghost use Rattle.hub_glob.specs.Specification.{pattern_size};
ghost use Rattle.hub_glob.specs.Readable.{IsReadable, ReadsBack};
ghost use Rattle.hub_glob.specs.Reading.{spec_reading};
ghost use Rattle.hub_glob.specs.Writing.{spec_text};

use crate::choosing::choices_of;
use crate::fault::GlobFault;
use crate::piece::{PATTERN_CHARACTERS, Part, Piece};
use crate::reading::{read_kind, read_pattern, split_kind};
use crate::sweep::Walk;
use crate::writing::text_of;
use hub_path::RelPath;
use hub_text::{Exact, Items};
use std::alloc::{AllocError, Global};
use std::marker::Model;

/// Which text of a path a pattern is matched with.
#[derive(Clone, Copy, Debug, PartialEq, Eq)]
pub enum Kind {
    /// The last name.
    Name,
    /// The whole text.
    Path,
    /// The text of the path, and of each path above it: one of them must match.
    BelowPath,
}

/// A path specification: a kind, and a pattern of at most `PATTERN_CHARACTERS` pieces that stands for at most
/// `PATTERN_CHOICES` choices.
///
/// What else holds of each specification is in `specs/Readable`.
#[derive(Debug, Drop)]
pub struct PathSpec {
    kind: Kind,
    pattern: Vec<Part>,
}

impl Model for PathSpec {
    ghost use Rattle.hub_glob.specs.Readable.{IsReadable};
    ghost use Rattle.hub_glob.specs.Specification.{Specification};

    ghost Value = { Specification };

    ghost view = { λ s. record { kind = s.kind; pattern = s.pattern.items } };

    ghost invariant = { λ s. IsReadable (record { kind = s.kind; pattern = s.pattern.items }) };
}

impl PathSpec {
    /// Reads a specification: `Name`, `Path` or `BelowPath`, one or more spaces or tabs, and the pattern, which is the
    /// rest of the text and has at most `PATTERN_CHARACTERS` characters, as written.
    ///
    /// In a pattern `?` is one character except `/`, `*` a sequence without `/`, `[ab-d]` one character of the set,
    /// `{a,bb}` any one of the choices, and `\` makes one of `* ? [ ] { } , \` literal (Unison manual, "Path
    /// Specification"; the escapes, and the limits, are this project's choice).
    ///
    /// The fault is the first that applies of `RegexLeftOut` or `NoKind`, `EmptyPattern`, `TooLong`,
    /// `LeadingSlash`, then the first from the left of `BadEscape`, `NegatedSet`, `BadRange`, `SlashInSet`,
    /// `SlashInName` and `NestedBraces`, with `OpenBracket`, or else `OpenBrace`, at the end of the text; at last
    /// `TooManyChoices`, where the numbers of choices of all braces multiply to more than `PATTERN_CHOICES`.
    /// Any call may instead report `OutOfMemory`.
    pub fn read(alloc: Global, text: &str) -> Result<PathSpec, GlobFault>
        ensures ok { IfOk result (λ s. spec_reading (chars text.now) ≡ Ok s) }
        ensures err { IfErr result (λ e. (e ≡ GlobFault.OutOfMemory)
            ⊎ (spec_reading (chars text.now) ≡ Err e)) }
    {
        let (word, rest) = split_kind(text);
        let kind = read_kind(word)?;
        let pattern = read_pattern(alloc, kind, rest)?.into_vec();
        Ok(PathSpec { kind, pattern })
    }

    /// Returns which text of a path the pattern is matched with.
    pub fn kind(&self) -> Kind
        ensures { result ≡ self.now.kind }
    {
        self.kind
    }

    /// Every specification can be written and read again.
    pub(crate) fn is_readable(&self)
        ensures { IsReadable self.now }
    {
        let _ = &self.pattern;
    }

    /// Returns the parts of the pattern.
    pub fn pattern(&self) -> &[Part]
        ensures { result.now ≡ self.now.pattern }
    {
        self.pattern.as_slice()
    }

    /// Returns the text of the specification: the kind, one space and the pattern, with a `\` before each literal of
    /// `* ? [ ] { } , \`. `PathSpec::read` reads it as the same specification if its pattern has at most
    /// `PATTERN_CHARACTERS` characters. It may have more, since the set `[a-c]` is written `[abc]`.
    ///
    /// A member of a set that is followed by `-` and a further member is written as a range of itself (`a-a`).
    pub fn text(&self) -> Result<String, AllocError>
        ensures written { IfOk result (λ t. string_bytes t ≡ encode_utf8_all (spec_text self.now)) }
        ensures read_back { IfOk result (λ t. ReadsBack self.now (chars (string_bytes t))) }
    {
        let alloc = *self.pattern.allocator();
        text_of(alloc, self.kind, self.pattern.as_slice())
    }

    /// Returns the lists of pieces that the pattern stands for: one for each combination of the braces' choices, the
    /// leftmost brace varying slowest. A text matches the pattern exactly when it matches one of them.
    pub fn choices(&self) -> Result<Items<Items<Piece>>, AllocError>
        ensures { IfOk result (λ cs. cs ≡ glob.choices self.now.pattern) }
    {
        choices_of(*self.pattern.allocator(), self.pattern.as_slice())
    }

    /// Returns whether the specification matches a path. No specification matches the path without names.
    ///
    /// The pattern is matched character by character (`Walk`). The time is at most the number of its pieces times the
    /// number of characters, and the characters after which no match is possible cost no look at the pattern.
    pub fn matches(&self, path: &RelPath) -> bool
        ensures { result ≡ glob.matches self.now path.now }
    {
        self.matches_front(path, path.len())
    }

    /// Returns whether the specification matches the path of the first `len` names.
    pub fn matches_front(&self, path: &RelPath, len: usize) -> bool
        requires { len ≤ length path.now }
        ensures { result ≡ glob.matches self.now (take len path.now) }
    {
        if len == 0 {
            return false;
        }
        let parts = self.pattern.as_slice();
        match self.kind {
            Kind::Name => matches_name(parts, path, len),
            Kind::Path => matches_text(parts, path, len),
            Kind::BelowPath => matches_above(parts, path, len),
        }
    }
}

impl Exact for Kind {
    ghost use Rattle.hub_text.specs.laws.Exact.{tags_exact};
    ghost use Rattle.hub_glob.specs.contracts.path_spec.Kind.{enum};

    ghost exact = { tags_exact enum tt };
}

/// Specifications are equal if their kinds and their patterns are.
impl PartialEq for PathSpec {
    ghost use Rattle.std.specs.Prelude.{◌&&◌};
    ghost use Rattle.std.specs.Cmp.{decided, partial_equiv_from_equiv};
    ghost use Rattle.std.specs.Cmp.Lexicographic.{pointwise};
    ghost use Rattle.hub_glob.specs.laws.Exact.{specification_exact};
    ghost use Rattle.hub_glob.specs.contracts.path_spec.KindExact.TheImpl.Laws as kind;
    ghost use Rattle.hub_glob.specs.contracts.piece.PartExact.TheImpl.Laws as part;

    ghost eq = { λ s t. ⟦<Kind as PartialEq>⟧.eq s.kind t.kind
        && pointwise ⟦<Part as PartialEq>⟧.eq s.pattern t.pattern };

    ghost laws = { partial_equiv_from_equiv
        (decided _ (specification_exact kind.exact-law part.exact-law)) };

    fn eq(&self, other: &PathSpec) -> bool {
        self.kind == other.kind && self.pattern == other.pattern
    }
}

impl Eq for PathSpec {
    ghost use Rattle.std.specs.Cmp.{decided};
    ghost use Rattle.hub_glob.specs.laws.Exact.{specification_exact};
    ghost use Rattle.hub_glob.specs.contracts.path_spec.KindExact.TheImpl.Laws as kind;
    ghost use Rattle.hub_glob.specs.contracts.piece.PartExact.TheImpl.Laws as part;

    ghost laws = { decided _ (specification_exact kind.exact-law part.exact-law) };
}

impl Exact for PathSpec {
    ghost use Rattle.hub_glob.specs.laws.Exact.{specification_exact};
    ghost use Rattle.hub_glob.specs.contracts.path_spec.KindExact.TheImpl.Laws as kind;
    ghost use Rattle.hub_glob.specs.contracts.piece.PartExact.TheImpl.Laws as part;

    ghost exact = { specification_exact kind.exact-law part.exact-law };
}

/// Returns whether a pattern matches the last of the first `len` names.
fn matches_name(parts: &[Part], path: &RelPath, len: usize) -> bool
    requires small { pattern_size parts.now ≤ PATTERN_CHARACTERS }
    requires some { 0 < len }
    requires within { len ≤ length path.now }
    ensures { result ≡ glob.glob parts.now true (last_name (take len path.now)) }
{
    Walk::new().push_name(parts, path.name(len - 1).text())
}

/// Returns whether a pattern matches the text of the first `len` names.
fn matches_text(parts: &[Part], path: &RelPath, len: usize) -> bool
    requires small { pattern_size parts.now ≤ PATTERN_CHARACTERS }
    requires some { 0 < len }
    requires within { len ≤ length path.now }
    ensures { result ≡ glob.glob parts.now true (text_of (take len path.now)) }
{
    let mut walk = Walk::new();
    let mut matched = false;
    for i in 0..len {
        matched = walk.push_name(parts, path.name(i).text());
    }
    matched
}

/// Returns whether a pattern matches the text of the first names, up to `len` of them.
fn matches_above(parts: &[Part], path: &RelPath, len: usize) -> bool
    requires small { pattern_size parts.now ≤ PATTERN_CHARACTERS }
    requires within { len ≤ length path.now }
    ensures { result
        ≡ list_any (λ q. glob.glob parts.now true (text_of q)) (prefixes (take len path.now)) }
{
    let mut walk = Walk::new();
    for i in 0..len {
        if walk.push_name(parts, path.name(i).text()) {
            return true;
        }
    }
    false
}
