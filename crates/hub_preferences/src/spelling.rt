//! Lines in another spelling.
ghost use Rattle.std.specs.Prelude.{◌≡◌, ◌++◌, ◌&&◌, ◌||◌, ◌∷◌, [], false, codes, chars, string_bytes, IfOk, MatchOption, Some, None};
ghost use Rattle.hub_path.specs.Path.{is_place};
ghost use Rattle.hub_profile.specs.Lines.{is_one_of};
ghost use Rattle.hub_preferences.specs.Spellings as spec;

use crate::kind::{LineKind, kind_of};
use hub_path::{Name, Root, without_last_slash};
use hub_profile::{is_setting, line_text, name_and_value};
use hub_text::begins_with;
use std::alloc::{AllocError, Global};

/// The name by which the plain reader refuses a line that names a file which may lie in a root of a profile: it stands in place of
/// `logfile`.
pub const LOGFILE_IN_ROOT: &str = "logfile in a root";

/// The line in place of another one, if it has another spelling, where these are the roots of the bundle.
pub(crate) fn other_spelling(
    alloc: Global,
    roots: &[Root],
    line: &[u8],
) -> Result<Option<String>, AllocError>
    ensures { IfOk result (λ o. MatchOption o (spec.other_spelling roots.now line.now ≡ None)
        (λ t. spec.other_spelling roots.now line.now ≡ Some (string_bytes t))) }
{
    let kind = kind_of(alloc, roots, line)?;
    spelling_as(alloc, kind, line)
}

/// The line in place of one of that kind.
fn spelling_as(alloc: Global, kind: LineKind, line: &[u8]) -> Result<Option<String>, AllocError>
    ensures { IfOk result (λ o. MatchOption o (spec.spelling_as kind line.now ≡ None)
        (λ t. spec.spelling_as kind line.now ≡ Some (string_bytes t))) }
{
    if kind.is_in_root() {
        return Ok(Some(refused_line(alloc)?));
    }
    spelling(alloc, line)
}

/// The line in place of one that names a file which may lie in a root.
fn refused_line(alloc: Global) -> Result<String, AllocError>
    ensures { IfOk result (λ t. string_bytes t ≡ spec.refused_line) }
{
    let mut line = String::from_str(alloc, LOGFILE_IN_ROOT)?;
    line.push_str(" =")?;
    Ok(line)
}

/// The line in place of one that Unison reads in another spelling: a `path` line with names that are empty or `.`, which count
/// for nothing there.
fn spelling(alloc: Global, line: &[u8]) -> Result<Option<String>, AllocError>
    ensures { IfOk result (λ o. MatchOption o (spec.spelling line.now ≡ None)
        (λ t. spec.spelling line.now ≡ Some (string_bytes t))) }
{
    match str::from_utf8(line) {
        Ok(text) => spelling_of_text(alloc, line_text(text)),
        Err(_) => Ok(None),
    }
}

/// The other spelling of a line without blanks around it.
fn spelling_of_text(alloc: Global, text: &str) -> Result<Option<String>, AllocError>
    ensures { IfOk result (λ o. MatchOption o (spec.spelling_of_text (chars text.now) ≡ None)
        (λ t. spec.spelling_of_text (chars text.now) ≡ Some (string_bytes t))) }
{
    if !is_setting(text) {
        return Ok(None);
    }
    match name_and_value(text) {
        Some((name, value)) => spelling_of_pair(alloc, name, value),
        None => Ok(None),
    }
}

/// The other spelling of a line that sets that name to that value.
fn spelling_of_pair(alloc: Global, name: &str, value: &str) -> Result<Option<String>, AllocError>
    ensures { IfOk result (λ o. MatchOption o
        (spec.spelling_of_pair (chars name.now, chars value.now) ≡ None)
        (λ t. spec.spelling_of_pair (chars name.now, chars value.now) ≡ Some (string_bytes t))) }
{
    if !is_path(name) {
        return Ok(None);
    }
    spelling_of_value(alloc, value)
}

fn is_path(name: &str) -> bool
    ensures { result ≡ is_one_of (codes "path" ∷ []) (chars name.now) }
{
    ["path"].contains(&name)
}

/// The other spelling of a `path` line with that value.
fn spelling_of_value(alloc: Global, value: &str) -> Result<Option<String>, AllocError>
    ensures { IfOk result (λ o. MatchOption o (spec.spelling_of_value (chars value.now) ≡ None)
        (λ t. spec.spelling_of_value (chars value.now) ≡ Some (string_bytes t))) }
{
    if begins_with(value, '/') {
        return Ok(None);
    }
    let Some(names) = names_of(alloc, value)? else {
        return Ok(None);
    };
    if !can_stand_for(names.as_str(), value) {
        return Ok(None);
    }
    Ok(Some(path_line(alloc, names.as_str())?))
}

fn path_line(alloc: Global, value: &str) -> Result<String, AllocError>
    ensures { IfOk result (λ t. string_bytes t ≡ codes "path = " ++ value.now) }
{
    let mut line = String::from_str(alloc, "path = ")?;
    line.push_str(value)?;
    Ok(line)
}

/// The names of a value that count, with a slash after each, if all are names.
fn names_of(alloc: Global, value: &str) -> Result<Option<String>, AllocError>
    ensures { let names = spec.names_of (chars value.now) in IfOk result
        (λ o. MatchOption o (is_place names ≡ false) (λ t. spec.HaveSlashes names (string_bytes t))) }
{
    let mut names = String::new(alloc);
    for part in value.split('/') {
        if is_nothing(part) {
            continue;
        }
        let Some(name) = Name::from_text(alloc, part)? else {
            return Ok(None);
        };
        names.push_str(name.text())?;
        names.push('/')?;
    }
    Ok(Some(names))
}

/// Returns whether Unison takes a name for nothing.
fn is_nothing(name: &str) -> bool
    ensures { result ≡ spec.is_nothing (chars name.now) }
{
    ["", "."].contains(&name)
}

/// Returns whether this value can be read in place of that one, and has to be.
fn can_stand_for(value: &str, other: &str) -> bool
    ensures { result ≡ spec.can_stand_for (chars value.now) (chars other.now) }
{
    !begins_with_blank(value) && !is_same_value(value, other)
}

fn begins_with_blank(text: &str) -> bool
    ensures { result ≡ spec.begins_with_blank (chars text.now) }
{
    begins_with(text, ' ') || begins_with(text, '\t')
}

fn is_same_value(value: &str, other: &str) -> bool
    ensures { result ≡ spec.is_same_value (chars value.now) (chars other.now) }
{
    without_last_slash(value) == without_last_slash(other)
}
