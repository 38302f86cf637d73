//! The roots of a bundle, and files that lie in none of them.
ghost use Rattle.std.specs.Prelude.{◌≡◌, codes, ◌∷◌, [], IfOk, chars};
ghost use Rattle.std.specs.List.{list_any};
ghost use Rattle.hub_profile.specs.Lines.{is_one_of};
ghost use Rattle.hub_preferences.specs.Places as spec;

use hub_path::{Name, PathFault, Root};
use hub_profile::{is_setting, line_text, name_and_value};
use hub_text::Lines;
use std::alloc::{AllocError, Global};

/// How many roots are compared with a place at most, so that each line takes bounded time. 128 profiles, as many as may be certified,
/// have 256.
pub const PLACE_ROOTS: usize = 1024;

/// The roots that the lines of a bundle set, in their order. A line whose root the plain reader can't read has none: it refuses the
/// line.
pub(crate) fn roots_in(alloc: Global, bundle: &[u8]) -> Result<Vec<Root>, AllocError>
    ensures { IfOk result (λ v. v.items ≡ spec.roots_in bundle.now) }
{
    let mut roots = Vec::new(alloc);
    let mut lines = Lines::new(bundle);
    while let Some(line) = lines.next() {
        if let Some(root) = root_on(alloc, line.text)? {
            roots.push(root)?;
        }
    }
    Ok(roots)
}

/// The root that a line sets.
fn root_on(alloc: Global, line: &[u8]) -> Result<Option<Root>, AllocError>
    ensures { IfOk result (λ o. o ≡ spec.root_on line.now) }
{
    match str::from_utf8(line) {
        Ok(text) => root_in_text(alloc, line_text(text)),
        Err(_) => Ok(None),
    }
}

/// The root that a line without blanks around it sets.
fn root_in_text(alloc: Global, text: &str) -> Result<Option<Root>, AllocError>
    ensures { IfOk result (λ o. o ≡ spec.root_in_text (chars text.now)) }
{
    if !is_setting(text) {
        return Ok(None);
    }
    match name_and_value(text) {
        Some((name, value)) => root_of_pair(alloc, name, value),
        None => Ok(None),
    }
}

/// The root that a line sets to whose name and value these are.
fn root_of_pair(alloc: Global, name: &str, value: &str) -> Result<Option<Root>, AllocError>
    ensures { IfOk result (λ o. o ≡ spec.root_of_pair (chars name.now, chars value.now)) }
{
    if !is_root(name) {
        return Ok(None);
    }
    place_of(alloc, value)
}

fn is_root(name: &str) -> bool
    ensures { result ≡ is_one_of (codes "root" ∷ []) (chars name.now) }
{
    ["root"].contains(&name)
}

/// The absolute path of a value, in the spelling of a root.
fn place_of(alloc: Global, value: &str) -> Result<Option<Root>, AllocError>
    ensures { IfOk result (λ o. o ≡ spec.place_of (chars value.now)) }
{
    match Root::read(alloc, value) {
        Ok(place) => Ok(Some(place)),
        Err(PathFault::OutOfMemory) => Err(AllocError),
        Err(_) => Ok(None),
    }
}

/// Returns whether the file of a value surely lies in none of these roots: a file in Unison's own folder, which a relative value is
/// in, or one whose absolute path is not at or below one of them.
pub(crate) fn is_apart(alloc: Global, roots: &[Root], value: &str) -> Result<bool, AllocError>
    ensures { IfOk result (λ b. b ≡ spec.is_apart roots.now (chars value.now)) }
{
    if is_own_name(alloc, value)? {
        return Ok(true);
    }
    match place_of(alloc, value)? {
        Some(place) => Ok(is_outside(roots, &place)),
        None => Ok(false),
    }
}

/// Returns whether a place is known to be neither one of these roots nor in one. Of more than `PLACE_ROOTS` roots nothing is known.
fn is_outside(roots: &[Root], place: &Root) -> bool
    ensures { result ≡ spec.is_outside roots.now place.now }
{
    roots.len() <= PLACE_ROOTS && !is_in_one(roots, place)
}

/// Returns whether a place is one of these roots or in one.
fn is_in_one(roots: &[Root], place: &Root) -> bool
    ensures { result ≡ spec.is_in_one roots.now place.now }
{
    roots.iter().any(|root| place.is_within(root))
}

/// Returns whether a value is the name of a file in Unison's own folder.
fn is_own_name(alloc: Global, value: &str) -> Result<bool, AllocError>
    ensures { IfOk result (λ b. b ≡ spec.is_own_name (chars value.now)) }
{
    if !is_part_of_name(value) {
        return Ok(false);
    }
    let name = Name::from_text(alloc, value)?;
    Ok(name.is_some())
}

/// Returns whether a value can be a part of a name, on each host.
pub(crate) fn is_part_of_name(value: &str) -> bool
    ensures { result ≡ spec.is_part_of_name (chars value.now) }
{
    !has_separator(value)
}

fn has_separator(value: &str) -> bool
    ensures { result ≡ list_any spec.is_separator (chars value.now) }
{
    value.chars().any(is_separator)
}

/// Returns whether this character separates names on some host.
fn is_separator(c: char) -> bool
    ensures { result ≡ spec.is_separator c }
{
    c == '/' || c == '\\' || c == ':'
}
