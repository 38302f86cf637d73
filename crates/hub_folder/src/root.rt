//! Which lines set a root, and which say something.
ghost use Rattle.std.specs.Prelude.{◌≡◌};
ghost use Rattle.hub_folder.specs.Folders as folders;

use hub_text::without_last_cr;

/// Returns whether a line sets a root: it begins with this word and `=`, maybe with blanks before each.
pub(crate) fn sets_root(line: &[u8]) -> bool
    ensures { result ≡ folders.sets_root line.now }
{
    match without_blanks(line).strip_prefix(b"root") {
        Some(rest) => is_equals(without_blanks(rest)),
        None => false,
    }
}

/// Returns whether a line says something: it isn't blank, and doesn't begin with `#` after blanks.
pub(crate) fn says_something(line: &[u8]) -> bool
    ensures { result ≡ folders.says_something line.now }
{
    begins_setting(without_blanks(without_last_cr(line)))
}

/// Returns whether a text isn't empty and doesn't begin with `#`.
fn begins_setting(text: &[u8]) -> bool
    ensures { result ≡ folders.begins_setting text.now }
{
    match text {
        [first, ..] => *first != b'#',
        [] => false,
    }
}

/// Returns whether a text begins with `=`.
fn is_equals(text: &[u8]) -> bool
    ensures { result ≡ folders.begins_with_equals text.now }
{
    matches!(text, [b'=', ..])
}

/// What follows the blanks and tabs at the beginning.
fn without_blanks(text: &[u8]) -> &[u8]
    ensures { result.now ≡ folders.without_blanks text.now }
{
    let mut rest = text;
    while let [b' ' | b'\t', others @ ..] = rest {
        rest = others;
    }
    rest
}
