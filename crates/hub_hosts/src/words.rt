//! The parts of a text of bytes.
ghost use Rattle.std.specs.Prelude.{◌≡◌};
ghost use Rattle.std.specs.Option.{option_map};
ghost use Rattle.hub_hosts.specs.Words as words;

/// Spaces and tabs.
pub(crate) const BLANKS: &[u8] = b" \t";

/// Returns whether a byte is among these.
pub(crate) fn is_one_of(these: &[u8], byte: u8) -> bool
    ensures { result ≡ words.is_one_of these.now byte }
{
    these.iter().any(|one| *one == byte)
}

/// A text from the first byte on that is none of these.
pub(crate) fn skip<'a>(these: &[u8], text: &'a [u8]) -> &'a [u8]
    ensures { result.now ≡ words.skip these.now text.now }
{
    let mut rest = text;
    while let Some((first, others)) = rest.split_first() {
        if !is_one_of(these, *first) {
            return rest;
        }
        rest = others;
    }
    rest
}

/// A text up to the last byte that is none of these.
pub(crate) fn skip_end<'a>(these: &[u8], text: &'a [u8]) -> &'a [u8]
    ensures { result.now ≡ words.skip_end these.now text.now }
{
    let mut rest = text;
    while let Some((last, others)) = rest.split_last() {
        if !is_one_of(these, *last) {
            return rest;
        }
        rest = others;
    }
    rest
}

/// A text from the first byte on that is one of these.
pub(crate) fn from_first<'a>(these: &[u8], text: &'a [u8]) -> &'a [u8]
    ensures { result.now ≡ words.from_first these.now text.now }
{
    let mut rest = text;
    while let Some((first, others)) = rest.split_first() {
        if is_one_of(these, *first) {
            return rest;
        }
        rest = others;
    }
    rest
}

/// What precedes the end of a text.
pub(crate) fn before<'a>(text: &'a [u8], end: &[u8]) -> &'a [u8]
    ensures { result.now ≡ words.before text.now end.now }
{
    let len = text.len().saturating_sub(end.len());
    text.get(..len).unwrap_or(text)
}

/// What follows the beginning of a text.
pub(crate) fn behind<'a>(text: &'a [u8], front: &[u8]) -> &'a [u8]
    ensures { result.now ≡ words.behind text.now front.now }
{
    text.get(front.len()..).unwrap_or(&[])
}

/// What follows the last `@`; the whole name, if it has none.
pub(crate) fn host_in(name: &[u8]) -> &[u8]
    ensures { result.now ≡ words.host_in name.now }
{
    let mut host = name;
    let mut rest = name;
    while let Some((first, others)) = rest.split_first() {
        if *first == b'@' {
            host = others;
        }
        rest = others;
    }
    host
}

/// What follows the last `->`, if there is one.
pub(crate) fn behind_last_arrow(text: &[u8]) -> Option<&[u8]>
    ensures { option_map (λ t. t.now) result ≡ words.behind_last_arrow text.now }
{
    let mut found = None;
    let mut rest = text;
    while let Some((_, others)) = rest.split_first() {
        if let Some(end) = rest.strip_prefix(b"->") {
            found = Some(end);
        }
        rest = others;
    }
    found
}
