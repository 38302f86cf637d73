//! Names, folded in Unicode mode.
ghost use Rattle.std.specs.Prelude.{◌≡◌, ◌==◌, ◌||◌, [], ◌∷◌, ◌++◌, IfOk, IfSome, IfNone, chars, string_bytes, encode_utf8_all};
ghost use Rattle.std.specs.List.{list_any};
ghost use Rattle.hub_glob.specs.Writing.{AppendsText};
ghost use Rattle.hub_folded.specs.Fold as fold;
ghost use Rattle.hub_folded.specs.Table as table;
ghost use Rattle.hub_folded.specs.declared.high.TheConstants.{HIGH_RANGES};
ghost use Rattle.hub_folded.specs.declared.ranges.TheConstants.{RANGES};
ghost use Rattle.hub_folded.specs.declared.table.TheConstants.{CHARACTERS};
ghost use Rattle.hub_folded.specs.Table.{folded_character, image_in, shown, table_image, unicode};

use crate::high::HIGH_RANGES;
use crate::marks::{FOURTH, SECOND, THIRD};
use crate::ranges::RANGES;
use crate::table::{CHARACTERS, FIRST};
use hub_text::Items;
use std::alloc::{AllocError, Global};

/// Returns what a name folds to in Unicode mode. If it is known, Unison with `ignorecase = true` takes two names for one exactly when
/// they fold to the same (observed with Unison 2.52.1).
pub fn fold_name(alloc: Global, name: &str) -> Result<String, AllocError>
    ensures { IfOk result
        (λ t. string_bytes t ≡ encode_utf8_all (fold.fold_name unicode (chars name.now))) }
{
    let mut folded = String::new(alloc);
    for c in name.chars() {
        push_folded(&mut folded, c)?;
    }
    Ok(folded)
}

fn push_folded(text: &mut String, c: char) -> Result<(), AllocError>
    ensures { IfOk result (λ _. AppendsText text.old text.new (folded_character c)) }
{
    if c.is_ascii() {
        return text.push(c.to_ascii_lowercase());
    }
    match image_of(c) {
        Some(image) => push_image(text, &image),
        None => text.push(c),
    }
}

/// Appends what a character folds to.
pub(crate) fn push_characters(list: &mut Items<char>, c: char) -> Result<(), AllocError>
    ensures { IfOk result (λ _. list.new ≡ list.old ++ folded_character c) }
{
    if c.is_ascii() {
        return Ok(list.push(c.to_ascii_lowercase())?);
    }
    match image_of(c) {
        Some(image) => push_all_shown(list, &image),
        None => Ok(list.push(c)?),
    }
}

fn push_all_shown(list: &mut Items<char>, image: &[char]) -> Result<(), AllocError>
    ensures { IfOk result (λ _. list.new ≡ list.old ++ image_in image.now) }
{
    for c in image {
        if *c != '\0' {
            list.push(*c)?;
        }
    }
    Ok(())
}

/// What the table has a character fold to, where each `\0` stands for none, if it has a row for it.
fn image_of(c: char) -> Option<[char; 4]>
    ensures row { IfSome result (λ ds. table_image c ≡ image_in ds) }
    ensures none { IfNone result (table_image c ≡ c ∷ []) }
{
    match CHARACTERS.binary_search(&c) {
        Ok(i) => Some([FIRST[i], SECOND[i], THIRD[i], FOURTH[i]]),
        Err(_) => None,
    }
}

fn push_image(text: &mut String, image: &[char]) -> Result<(), AllocError>
    ensures { IfOk result (λ _. AppendsText text.old text.new (image_in image.now)) }
{
    for c in image {
        push_shown(text, *c)?;
    }
    Ok(())
}

fn push_shown(text: &mut String, c: char) -> Result<(), AllocError>
    ensures { IfOk result (λ _. AppendsText text.old text.new (shown c)) }
{
    if c == '\0' {
        return Ok(());
    }
    text.push(c)
}

/// Returns whether it is known what a name folds to in Unicode mode. It goes through the table for each character past ASCII.
pub fn knows(name: &str) -> bool
    ensures { result ≡ fold.knows unicode (chars name.now) }
{
    let mut bare = false;
    for c in name.chars() {
        if !stands(c, bare) {
            return false;
        }
        bare = is_bare_letter(c);
    }
    true
}

/// Returns whether a character is known, and follows a bare letter if it is a mark.
pub(crate) fn stands(c: char, bare: bool) -> bool
    ensures { result ≡ table.stands c bare }
{
    is_known(c) && (!is_combining(c) || bare)
}

pub(crate) fn is_known(c: char) -> bool
    ensures { result ≡ table.knows_character c }
{
    if c.is_ascii() {
        return true;
    }
    is_any(has_row(c), is_in_low_range(c), is_in_high_range(c))
}

fn is_any(row: bool, low: bool, high: bool) -> bool
    ensures { result ≡ (row || (low || high)) }
{
    row || low || high
}

fn has_row(c: char) -> bool
    ensures { result ≡ list_any (λ d. d == c) CHARACTERS }
{
    CHARACTERS.iter().any(|d| *d == c)
}

fn is_in_low_range(c: char) -> bool
    ensures { result ≡ list_any (λ g. table.is_within g c) RANGES }
{
    RANGES.iter().any(|g| g.0 <= c && c <= g.1)
}

fn is_in_high_range(c: char) -> bool
    ensures { result ≡ list_any (λ g. table.is_within g c) HIGH_RANGES }
{
    HIGH_RANGES.iter().any(|g| g.0 <= c && c <= g.1)
}

fn is_combining(c: char) -> bool
    ensures { result ≡ table.is_combining c }
{
    '\u{300}' <= c && c <= '\u{36F}'
}

/// Returns whether a character is no mark, and folds to one character.
pub(crate) fn is_bare_letter(c: char) -> bool
    ensures { result ≡ table.is_bare_letter c }
{
    !is_combining(c) && is_single(c)
}

fn is_single(c: char) -> bool
    ensures { result ≡ table.is_single c }
{
    if c.is_ascii() {
        return true;
    }
    match CHARACTERS.binary_search(&c) {
        Ok(i) => SECOND[i] == '\0',
        Err(_) => true,
    }
}
