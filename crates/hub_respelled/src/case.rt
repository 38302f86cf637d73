//! What the lines of a profile say of how names fold.
ghost use Rattle.std.specs.Prelude.{◌≡◌, ◌∷◌, [], codes, chars};
ghost use Rattle.std.specs.List.{list_any};
ghost use Rattle.hub_profile.specs.Lines.{is_one_of};
ghost use Rattle.hub_text.specs.Lines.{lines_of};
ghost use Rattle.hub_respelled.specs.Case as spec;

use hub_bundle::is_heading;
use hub_profile::{is_setting, line_text, name_and_value};
use hub_text::Lines;

/// What a line says of how names fold.
#[derive(Clone, Copy, Debug, PartialEq, Eq)]
pub(crate) enum LineCase {
    /// They fold.
    Folds,
    /// If they fold, they do so by Unicode, as they do without this line.
    Agrees,
    /// Beside it, it isn't known whether or how they fold.
    Unclear,
    /// Nothing.
    Other,
}

impl LineCase {
    /// Returns whether it says that names fold.
    pub(crate) fn is_folding(self) -> bool
        ensures { result ≡ spec.is_folding self }
    {
        matches!(self, LineCase::Folds)
    }

    /// Returns whether it says this, or how they fold, as is known.
    pub(crate) fn is_known(self) -> bool
        ensures { result ≡ spec.is_known self }
    {
        matches!(self, LineCase::Folds | LineCase::Agrees)
    }

    /// Returns whether it makes that unclear.
    fn is_unclear(self) -> bool
        ensures { result ≡ spec.is_unclear self }
    {
        matches!(self, LineCase::Unclear)
    }
}

/// What a line says.
pub(crate) fn case_of(line: &[u8]) -> LineCase
    ensures { result ≡ spec.case_of line.now }
{
    match str::from_utf8(line) {
        Ok(text) => case_of_text(line_text(text)),
        Err(_) => LineCase::Other,
    }
}

/// What a line without blanks around it says.
fn case_of_text(text: &str) -> LineCase
    ensures { result ≡ spec.case_of_text (chars text.now) }
{
    if !is_setting(text) {
        return LineCase::Other;
    }
    match name_and_value(text) {
        Some((name, value)) => case_of_pair(name, value),
        None => LineCase::Other,
    }
}

/// What a line says that sets that name to that value.
fn case_of_pair(name: &str, value: &str) -> LineCase
    ensures { result ≡ spec.case_of_pair (chars name.now, chars value.now) }
{
    if sets_encoding(name) {
        return encoding_of(value);
    }
    if !sets_case(name) {
        return LineCase::Other;
    }
    if is_true(value) {
        LineCase::Folds
    } else {
        LineCase::Unclear
    }
}

/// What the value of `unicode` says.
fn encoding_of(value: &str) -> LineCase
    ensures { result ≡ spec.encoding_of (chars value.now) }
{
    if is_unicode(value) {
        LineCase::Agrees
    } else {
        LineCase::Unclear
    }
}

fn is_unicode(value: &str) -> bool
    ensures { result ≡ spec.is_unicode (chars value.now) }
{
    ["true", "default"].contains(&value)
}

fn sets_encoding(name: &str) -> bool
    ensures { result ≡ spec.sets_encoding (chars name.now) }
{
    ["unicode"].contains(&name)
}

fn sets_case(name: &str) -> bool
    ensures { result ≡ spec.sets_case (chars name.now) }
{
    ["ignorecase", "fat"].contains(&name)
}

fn is_true(value: &str) -> bool
    ensures { result ≡ spec.is_true (chars value.now) }
{
    ["true"].contains(&value)
}

/// Returns whether names fold by these lines, up to the next heading.
pub(crate) fn folds_below(bytes: &[u8]) -> bool
    ensures { result ≡ spec.folds_below (lines_of bytes.now) }
{
    has_folding(bytes) && !has_unclear(bytes)
}

/// Returns whether one of these lines, up to the next heading, says that names fold.
fn has_folding(bytes: &[u8]) -> bool
    ensures { result ≡ list_any spec.is_folding (spec.cases_below (lines_of bytes.now)) }
{
    let mut lines = Lines::new(bytes);
    while let Some(line) = lines.next() {
        if is_heading(line.text) {
            return false;
        }
        if case_of(line.text).is_folding() {
            return true;
        }
    }
    false
}

/// Returns whether one of these lines, up to the next heading, makes that unclear.
fn has_unclear(bytes: &[u8]) -> bool
    ensures { result ≡ list_any spec.is_unclear (spec.cases_below (lines_of bytes.now)) }
{
    let mut lines = Lines::new(bytes);
    while let Some(line) = lines.next() {
        if is_heading(line.text) {
            return false;
        }
        if case_of(line.text).is_unclear() {
            return true;
        }
    }
    false
}
