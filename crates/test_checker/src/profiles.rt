//! Questions about profiles. Each has the name `p`.
use crate::paths::path_of;
use anyhow::{Result, bail};
use hub_glob::PathSpec;
use hub_path::{Name, RelPath, Side};
use hub_profile::{Bars, Partial, Profile, ProfileFault, read_profile};
use std::alloc::{AllocError, Global};
use test_kit::{bytes_of, quoted, shown, two};

/// The lines of two roots.
pub(crate) const ROOTS: &str = "root = /srv/hub\nroot = /srv/s1\n";

/// Answers a question about the profile of lines that follow those of the roots, or reports a fault:
///
/// - `kept`: its name, its roots and its kept values.
/// - `protects`: the sides that `force` and `prefer` name, and the changes that aren't made at each root.
/// - `partial`: the changes that aren't made on some paths of a root: the side, the changes and the specification.
/// - `ignores`: which of the `ignore` lines, and which of the `ignorenot` lines, match the path of the second field.
pub(crate) fn answer(alloc: Global, roots: &str, question: &str, fields: &str) -> Result<String> {
    match question {
        "kept" | "protects" | "partial" => answer_on_lines(alloc, roots, question, fields),
        "ignores" => answer_on_path(alloc, roots, fields),
        _ => bail!("an unknown question"),
    }
}

fn answer_on_lines(alloc: Global, roots: &str, question: &str, lines: &str) -> Result<String> {
    let text = profile_text(alloc, roots, lines)?;
    let name = Name::read(alloc, "p")?;
    answer_on_reading(alloc, question, &read_profile(alloc, name, text.as_slice()))
}

fn answer_on_reading(
    alloc: Global,
    question: &str,
    reading: &Result<Profile, ProfileFault>,
) -> Result<String> {
    match reading {
        Ok(profile) => answer_on_profile(alloc, question, profile),
        Err(fault) => quoted(alloc, shown(alloc, fault)?.as_str()),
    }
}

fn answer_on_profile(alloc: Global, question: &str, profile: &Profile) -> Result<String> {
    match question {
        "kept" => kept(alloc, profile),
        "partial" => partial(alloc, profile),
        _ => protected(alloc, profile),
    }
}

fn answer_on_path(alloc: Global, roots: &str, fields: &str) -> Result<String> {
    let (lines, path) = two(fields)?;
    let text = profile_text(alloc, roots, lines)?;
    let path = path_of(alloc, path)?;
    ignored_in(alloc, text.as_slice(), &path)
}

fn ignored_in(alloc: Global, text: &[u8], path: &RelPath) -> Result<String> {
    let profile = read_profile(alloc, Name::read(alloc, "p")?, text)?;
    ignored(alloc, &profile, path)
}

/// The bytes of the roots and the lines.
fn profile_text(alloc: Global, roots: &str, lines: &str) -> Result<Vec<u8>> {
    let mut text = Vec::from_slice(alloc, roots.as_bytes())?;
    text.extend_from_slice(bytes_of(alloc, lines)?.as_slice())?;
    Ok(text)
}

/// The name and the roots of a profile, and its kept values in brackets.
fn kept(alloc: Global, profile: &Profile) -> Result<String> {
    let [left, right] = profile.roots();
    let left = left.as_str();
    let right = right.as_str();
    let mut text = format!(in alloc; "{}: {left} {right}", profile.name())?;
    for path in profile.paths() {
        write!(text, " [{}]", path.text()?)?;
    }
    quoted(alloc, text.as_str())
}

fn protected(alloc: Global, profile: &Profile) -> Result<String> {
    let force = side_word(profile.force());
    let prefer = side_word(profile.prefer());
    let [left, right] = profile.bars();
    let left = bars_word(left);
    let right = bars_word(right);
    Ok(format!(in alloc; "{force} {prefer} {left} {right}")?)
}

/// The partial bars in their order, each followed by `; `.
fn partial(alloc: Global, profile: &Profile) -> Result<String> {
    let mut text = String::new(alloc);
    for bar in profile.partial() {
        push_partial(&mut text, bar)?;
    }
    quoted(alloc, text.as_str())
}

fn push_partial(text: &mut String, bar: &Partial) -> Result<(), AllocError> {
    let side = side_word(Some(bar.side));
    let bars = bars_word(&bar.bars);
    let spec = bar.spec.text()?;
    write!(text, "{side} {bars} {spec}; ")
}

fn side_word(side: Option<Side>) -> &'static str {
    match side {
        Some(Side::Left) => "left",
        Some(Side::Right) => "right",
        None => "-",
    }
}

/// The first letters of the changes that aren't made at a root.
fn bars_word(bars: &Bars) -> &'static str {
    match (bars.create, bars.update, bars.delete) {
        (false, false, false) => "-",
        (true, false, false) => "c",
        (false, false, true) => "d",
        (false, true, true) => "ud",
        (true, true, true) => "cud",
        _ => "?",
    }
}

fn ignored(alloc: Global, profile: &Profile, path: &RelPath) -> Result<String> {
    let ignore = matches_word(alloc, profile.ignore(), path)?;
    let ignorenot = matches_word(alloc, profile.ignorenot(), path)?;
    Ok(format!(in alloc; "{ignore} {ignorenot}")?)
}

/// Which of the specifications match a path: a `1` for each that does, else a `0`.
fn matches_word(alloc: Global, specs: &[PathSpec], path: &RelPath) -> Result<String, AllocError> {
    let mut word = String::new(alloc);
    for spec in specs {
        let letter = if spec.matches(path) { '1' } else { '0' };
        word.push(letter)?;
    }
    Ok(word)
}
