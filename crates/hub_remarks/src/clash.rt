//! What hubsync says of the profiles that an overlap or a breach names.

use crate::input::FirstBytes;
use crate::mend::{is_bundle, is_mend};
use crate::refusal::{broken_rule, named_profiles};
use crate::unison::is_for_unison;
use hub_notes::wider_notes;
use hub_report::{Refusal, Told, Totals};
use hub_source::{Said, Source, SourceFile, SourceLine};
use hub_text::Lines;
use std::alloc::{AllocError, Global};

/// What hubsync is to be asked before it is known what to say of an overlap or a breach.
#[derive(Drop)]
pub struct Questions {
    /// The bundle that `mend --unison` is asked about: the profiles that are named, and the rules, of which a breach has its own alone.
    /// Nothing is asked if it is empty.
    pub mend: Vec<u8>,
    /// Whether `check` is asked about the input.
    pub check: bool,
}

/// What hubsync answered to such a question.
#[derive(Drop)]
pub struct Reply {
    /// The text.
    pub text: Vec<u8>,
    /// What it tells.
    pub told: Told,
}

/// What hubsync answered, and what it answered to these questions, if they were asked.
#[derive(Clone, Copy)]
pub struct Answers<'a> {
    /// To `mend --unison`.
    pub mend: Option<&'a Reply>,
    /// To `check`.
    pub check: Option<&'a Reply>,
    /// The first bytes of the answer itself.
    pub output: &'a [u8],
    /// The numbers of the answer itself, if it has any.
    pub totals: Option<Totals>,
}

/// What is to be asked on an answer. The arguments are those of `remark`.
pub fn what_to_ask(
    alloc: Global,
    words: &[String],
    files: &[SourceFile<'_>],
    input: FirstBytes<'_>,
    told: &Told,
) -> Result<Questions, AllocError> {
    let mut asked = Questions {
        mend: Vec::new(alloc),
        check: false,
    };
    let Some(clash) = first_clash(words, told) else {
        return Ok(asked);
    };
    if are_folded(files) {
        return Ok(asked);
    }
    asked.check = is_for_unison(words) && input.is_whole;
    if input.is_whole && !is_mend(words) {
        let source = Source::read(alloc, input.bytes, input.is_whole, files)?;
        asked.mend = named_bundle(&source, clash)?;
    }
    Ok(asked)
}

/// Returns whether the lines of the sections are folded ones. A plain answer is about lines as they stand, and a line that makes folded
/// profiles safe may not make the profiles so.
fn are_folded(files: &[SourceFile<'_>]) -> bool {
    files.iter().any(|file| file.path.is_none())
}

/// The overlap or the breach that an answer begins with, if it begins with one.
pub(crate) fn first_clash<'t>(words: &[String], told: &'t Told) -> Option<&'t Refusal> {
    let refusal = match told {
        Told::Refused(refusal) => refusal,
        Told::Mended(mended) if !mended.has_lines && !is_bundle(words) => mended.refusal.as_ref()?,
        _ => return None,
    };
    match refusal {
        Refusal::Overlap { .. } | Refusal::Breach { .. } => Some(refusal),
        _ => None,
    }
}

/// What is known of lines that keep the profiles of a clash apart, or a rule.
#[derive(Clone, Copy)]
pub(crate) enum Mending<'a> {
    /// These do it, for Unison too, each behind the name of its profile.
    Lines(&'a [u8]),
    /// None were found in the whole set.
    NotFound,
    /// None help: the profiles share an archive.
    SameArchive,
    /// Nothing is known.
    Unknown,
}

/// What the answer of `mend --unison` about the profiles of a clash says of lines, or `mend` itself.
pub(crate) fn mending_in<'a>(words: &[String], answer: Option<&'a Reply>) -> Mending<'a> {
    if is_mend(words) {
        return Mending::NotFound;
    }
    match answer {
        Some(reply) => lines_in(reply),
        None => Mending::Unknown,
    }
}

/// What an answer of `mend` says of lines: all lines but the last, if they make the set safe.
fn lines_in(reply: &Reply) -> Mending<'_> {
    let Told::Mended(mended) = &reply.told else {
        return Mending::Unknown;
    };
    match &mended.refusal {
        None if mended.has_lines => Mending::Lines(above_last(reply.text.as_slice())),
        Some(Refusal::SameArchive { .. }) => Mending::SameArchive,
        _ => Mending::Unknown,
    }
}

/// A text without its last line.
fn above_last(text: &[u8]) -> &[u8] {
    let mut end = 0usize;
    let mut next = 0usize;
    for line in Lines::new(text) {
        end = next;
        next = next.saturating_add(line.text.len()).saturating_add(1);
    }
    text.get(..end).unwrap_or(text)
}

/// A bundle of the profiles that an overlap or a breach names, and below a breach of the rule that may be broken: rules have no part in
/// an overlap. It is empty if not all lines of the input are there.
fn named_bundle(source: &Source<'_>, clash: &Refusal) -> Result<Vec<u8>, AllocError> {
    let mut bundle = Vec::new(source.alloc());
    if !source.is_whole() {
        return Ok(bundle);
    }
    for heading in named_profiles(source, clash)? {
        push_lines(&mut bundle, source.section_lines(heading.section))?;
    }
    if let Some((root, rule)) = broken_rule(source, clash) {
        bundle.extend_from_slice(b"%rules\n")?;
        push_line(&mut bundle, root)?;
        push_line(&mut bundle, rule)?;
    }
    Ok(bundle)
}

/// Adds these lines to a bundle.
fn push_lines(bundle: &mut Vec<u8>, lines: &[SourceLine<'_>]) -> Said {
    for line in lines {
        push_line(bundle, *line)?;
    }
    Ok(())
}

/// Adds this line to a bundle.
fn push_line(bundle: &mut Vec<u8>, line: SourceLine<'_>) -> Said {
    bundle.extend_from_slice(line.bytes)?;
    bundle.push(b'\n')?;
    Ok(())
}

/// Says that an overlap or a breach may come of the wider reading alone, and to compare the answer by hubsync's own reading, unless that
/// is a fault, or names fold.
pub(crate) fn say_wider(out: &mut String, source: &Source<'_>, answer: Option<&Reply>) -> Said {
    out.push_str("hubsync: more counts with --unison than may happen")?;
    let has_none = match answer {
        Some(plain) => has_no_plain_answer(&plain.told),
        None => source.is_folded(),
    };
    out.push_str(if has_none {
        "\n"
    } else {
        ": compare the answer without it\n"
    })
}

/// Returns whether hubsync has no answer by its own reading: a line is a fault there, or roots are nested.
fn has_no_plain_answer(told: &Told) -> bool {
    matches!(
        told,
        Told::Faulty(_) | Told::Refused(Refusal::NestedRoots(_))
    )
}

/// Says what `check` answered by hubsync's own reading, where the reading for Unison has an overlap or a breach. If that is `safe`,
/// it says which lines of the profiles that are named make the reading for Unison wider. Nothing is said if it wasn't asked.
pub(crate) fn say_plain_answer(
    out: &mut String,
    source: &Source<'_>,
    clash: Option<&Refusal>,
    answer: Option<&Reply>,
) -> Said {
    let (Some(clash), Some(plain)) = (clash, answer) else {
        return Ok(());
    };
    let line = first_line(plain.text.as_slice());
    if line.is_empty() || matches!(plain.told, Told::Refused(Refusal::NestedRoots(_))) {
        return Ok(());
    }
    writeln!(out, "hubsync: without --unison: {line}")?;
    let Told::Yes = &plain.told else {
        return Ok(());
    };
    let named = named_profiles(source, clash)?;
    let more = wider_notes(source, named.as_slice())?;
    out.push_str(more.as_str())
}

/// The text of the first line, or nothing if it is no text.
fn first_line(bytes: &[u8]) -> &str {
    match Lines::new(bytes).next() {
        Some(line) => str::from_utf8(line.text).unwrap_or(""),
        None => "",
    }
}
