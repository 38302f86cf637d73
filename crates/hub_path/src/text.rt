ghost use Rattle.std.specs.Prelude.{◌≡◌, ◌∷◌, false, nat_eq, codes, chars, MatchOption};
ghost use Rattle.std.specs.List.{starts_with};
ghost use Rattle.hub_path.specs.Reading as reading;

use hub_text::{begins_with, without_last};

/// Returns whether a text begins with `/`.
pub(crate) fn begins_with_slash(text: &str) -> bool
    ensures { result ≡ reading.begins_with_slash (chars text.now) }
{
    begins_with(text, '/')
}

/// Returns what follows a `/` at the start of a text, if there is one.
pub(crate) fn after_slash(text: &str) -> Option<&str>
    ensures { MatchOption result (reading.begins_with_slash (chars text.now) ≡ false)
        (λ rest. chars text.now ≡ 47 ∷ chars rest.now) }
{
    text.strip_prefix('/')
}

/// Borrows a text without the `/` at its end, if it ends with one.
///
/// Only one slash is dropped (this project's choice): `a//` gives `a/`, and `/` the empty text.
pub fn without_last_slash(text: &str) -> &str
    ensures { chars result.now ≡ reading.without_last_slash (chars text.now) }
{
    without_last(text, '/')
}

/// Returns whether a root is remote: it begins with `//`, or with letters and `://`.
pub(crate) fn is_remote(text: &str) -> bool
    ensures { result ≡ reading.is_remote (chars text.now) }
{
    begins_with_slashes(text) || has_scheme(text)
}

fn begins_with_slashes(text: &str) -> bool
    ensures { result ≡ starts_with nat_eq (chars text.now) (codes "//") }
{
    text.starts_with("//")
}

fn has_scheme(text: &str) -> bool
    ensures { result ≡ reading.has_scheme (chars text.now) }
{
    is_scheme_first(text.as_bytes())
}

fn is_scheme_first(bytes: &[u8]) -> bool
    ensures { result ≡ reading.has_scheme bytes.now }
{
    match bytes {
        [first, rest @ ..] => is_letter(*first) && after_letters(rest).starts_with(b"://"),
        [] => false,
    }
}

/// Borrows the bytes from the first one on that is not a letter.
fn after_letters(bytes: &[u8]) -> &[u8]
    ensures { result.now ≡ reading.after_letters bytes.now }
{
    let mut rest = bytes;
    while let [first, more @ ..] = rest {
        if !is_letter(*first) {
            break;
        }
        rest = more;
    }
    rest
}

fn is_letter(byte: u8) -> bool
    ensures { result ≡ reading.is_letter byte }
{
    byte.is_ascii_alphabetic()
}
