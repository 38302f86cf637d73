//! Questions about a text, answered by its characters.
ghost use Rattle.std.specs.Prelude.{◌≡◌, ◌==◌, ◌∷◌, [], ◌<◌, length, nat_eq, chars};
ghost use Rattle.std.specs.List.{starts_with};
ghost use Rattle.std.specs.Ordering.{nat_cmp};
ghost use Rattle.std.specs.Cmp.Lexicographic.{slice_cmp};
ghost use Rattle.hub_text.specs.Lines as lines;

use std::cmp::Ordering;

/// Compares two texts by their characters, as numbers. A prefix comes first.
///
/// It compares the UTF-8 bytes, whose order is the same (RFC 3629, section 1).
pub fn compare(a: &str, b: &str) -> Ordering
    ensures { result ≡ slice_cmp nat_cmp (chars a.now) (chars b.now) }
{
    a.cmp(b)
}

/// Returns whether a text has no characters.
pub fn is_empty(text: &str) -> bool
    ensures { result ≡ (length (chars text.now) == 0) }
{
    text.is_empty()
}

/// Returns whether a text begins with this ASCII character, which isn't NUL.
pub fn begins_with(text: &str, c: char) -> bool
    requires nonzero { 0 < c }
    requires ascii { c < 128 }
    ensures { result ≡ starts_with nat_eq (chars text.now) (c ∷ []) }
{
    text.starts_with(c)
}

/// Borrows a text without the ASCII character `c` at its end, if it ends with one. Only one is dropped.
pub fn without_last(text: &str, c: char) -> &str
    requires ascii { c < 128 }
    ensures { chars result.now ≡ lines.without_last c (chars text.now) }
{
    text.strip_suffix(c).unwrap_or(text)
}
