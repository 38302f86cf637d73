//! Remarks on answers about what Unison may do by the profiles.

use crate::elsewhere::{say_elsewhere, writes_elsewhere};
use crate::input::profile_section;
use crate::limit::cut_lines;
use crate::setting::{fault_line, say_fault_on};
use hub_bundle::SectionFault;
use hub_glob::PATTERN_CHARACTERS;
use hub_preferences::{Finding, Outcome, findings};
use hub_profile::Fault;
use hub_report::{FaultyInput, Refusal, Told};
use hub_source::{Said, Source, SourceFile, shown};
use std::alloc::{AllocError, Global};
use std::collections::BTreeSet;

/// What an answer for Unison assumes.
const ASSUMED: &str = "\
hubsync: for Unison 2.51 to 2.53 with -batch and no preference on its command line, where only these runs write,
hubsync: no symbolic link is followed, each folder and host has one name, names differ as their bytes do,
hubsync: and the folders above path lines exist
";

/// The same where names fold.
const ASSUMED_OF_FOLDED: &str = "\
hubsync: for Unison 2.51 to 2.53 with -batch and no preference on its command line, where only these runs write,
hubsync: no symbolic link is followed, each folder and host has one name, no name folds to nothing or to dots,
hubsync: no disk takes two names for one that Unison takes for two, macOS copies no resource forks (rsrc = false),
hubsync: and the folders above path lines exist
";

/// How many refused lines are listed at most, besides the one that the answer names, if not all lines are asked for.
const LISTED: usize = 10;

/// Which lines are listed.
#[derive(Clone, Copy, Debug, PartialEq, Eq)]
pub(crate) enum Listing {
    /// So many of those that are refused, and the first of those that don't count.
    Few,
    /// All.
    All,
}

impl Listing {
    /// Which lines these words ask for.
    pub(crate) fn asked_for(words: &[String]) -> Listing {
        if has_word(words, "--verbose") {
            Listing::All
        } else {
            Listing::Few
        }
    }

    /// How many refused lines are listed at most.
    fn most_refused(self) -> usize {
        match self {
            Listing::Few => LISTED,
            Listing::All => usize::MAX,
        }
    }
}

/// Returns whether the profiles are read for Unison.
pub(crate) fn is_for_unison(words: &[String]) -> bool {
    is_always_for_unison(words) || has_word(words, "--unison")
}

/// Returns whether the command reads the profiles for Unison, whatever the other words are.
fn is_always_for_unison(words: &[String]) -> bool {
    words.get(1).is_some_and(|word| word.as_str() == "import" || word.as_str() == "plan")
}

/// Returns whether this is one of the words.
pub(crate) fn has_word(words: &[String], asked: &str) -> bool {
    words.iter().any(|word| word.as_str() == asked)
}

/// What an answer for Unison assumes over these lines.
fn assumed(source: &Source<'_>) -> &'static str {
    if source.is_folded() {
        ASSUMED_OF_FOLDED
    } else {
        ASSUMED
    }
}

/// Says what a yes for Unison assumes, and which lines don't count.
pub(crate) fn say_yes(
    out: &mut String,
    source: &Source<'_>,
    input: &[u8],
    listing: Listing,
) -> Said {
    out.push_str(assumed(source))?;
    say_elsewhere(out, source)?;
    say_uncounted(out, source, input, listing)
}

/// What is said of the lines of a bundle for Unison in whose place another one is answered about: where Unison may write by them, and
/// which of them don't count. The bundle is made of these files. It takes the time of reading the bundle. Out of memory is the only error.
pub fn remark_on_lines(
    alloc: Global,
    words: &[String],
    files: &[SourceFile<'_>],
    bundle: &[u8],
) -> Result<String, AllocError> {
    let source = Source::read(alloc, bundle, true, files)?;
    let mut text = String::new(alloc);
    say_elsewhere(&mut text, &source)?;
    say_uncounted(&mut text, &source, bundle, Listing::asked_for(words))?;
    Ok(text)
}

/// Says which lines don't count.
fn say_uncounted(out: &mut String, source: &Source<'_>, input: &[u8], listing: Listing) -> Said {
    let findings = findings_once(source, input, 0)?;
    say_left_out(out, source, findings.as_slice(), listing)?;
    say_cut(out, source, input, listing)
}

/// Says what more belongs to another answer for Unison, which may begin with an overlap or a breach. Of a fault of a profile, that is what to do about all other lines that are refused. Both get which lines don't count.
pub(crate) fn say_more(
    out: &mut String,
    source: &Source<'_>,
    input: &[u8],
    told: &Told,
    clash: Option<&Refusal>,
    listing: Listing,
) -> Said {
    if clash.is_some() {
        return say_uncounted(out, source, input, listing);
    }
    match told {
        Told::Faulty(FaultyInput::BadSection(fault)) if source.is_whole() => {
            say_all(out, source, input, fault, listing)
        }
        _ => Ok(()),
    }
}

/// Says what to do about the lines that are refused, but for the one that a fault of a profile is of, and which lines don't count.
fn say_all(
    out: &mut String,
    source: &Source<'_>,
    input: &[u8],
    fault: &SectionFault,
    listing: Listing,
) -> Said {
    let SectionFault::OfProfile { profile, fault } = fault else {
        return Ok(());
    };
    let named = match profile_section(source, profile.text()) {
        Some(section) => fault_line(source, section, fault).map_or(0, |line| line.at),
        None => 0,
    };
    let findings = findings_once(source, input, named)?;
    say_refused(out, source, findings.as_slice(), listing)?;
    say_left_out(out, source, findings.as_slice(), listing)
}

/// The findings of an input, but for the line of that number. A line of a file that several profiles include is found once.
fn findings_once(
    source: &Source<'_>,
    input: &[u8],
    named: usize,
) -> Result<Vec<Finding>, AllocError> {
    let alloc = source.alloc();
    let mut places = BTreeSet::new(alloc);
    note_place(&mut places, source, named)?;
    let mut once = Vec::new(alloc);
    for finding in findings(alloc, input)? {
        if note_place(&mut places, source, finding.line)? {
            once.push(finding)?;
        }
    }
    Ok(once)
}

/// Notes where the line of that number stands. Returns whether it wasn't noted before.
fn note_place(
    places: &mut BTreeSet<String>,
    source: &Source<'_>,
    number: usize,
) -> Result<bool, AllocError> {
    let Some(line) = source.line_at(number) else {
        return Ok(false);
    };
    let place = line.place();
    let text = format!(in source.alloc(); "{place}")?;
    match places.insert(text) {
        Ok(is_new) => Ok(is_new),
        Err(_) => Err(AllocError),
    }
}

/// Says what to do about the lines that are refused, and how many more there are than are listed.
fn say_refused(
    out: &mut String,
    source: &Source<'_>,
    findings: &[Finding],
    listing: Listing,
) -> Said {
    let most = listing.most_refused();
    let mut count = 0usize;
    for finding in findings {
        if let Outcome::Refused(fault) = &finding.outcome {
            if count < most {
                say_refused_line(out, source, finding.line, fault)?;
            }
            count = count.saturating_add(1);
        }
    }
    match count.saturating_sub(most) {
        0 => Ok(()),
        more => writeln!(
            out,
            "hubsync: more lines that are refused: {more}: --verbose lists them"
        ),
    }
}

/// Says what to do about the line of that number, which is refused for this fault.
fn say_refused_line(out: &mut String, source: &Source<'_>, number: usize, fault: &Fault) -> Said {
    match source.line_at(number) {
        Some(line) => say_fault_on(out, source, &line, fault, false),
        None => Ok(()),
    }
}

/// Says how many lines don't count since Unison does no less without them, and which is the first, or which they are. Nothing is said if
/// there are none. Those by which Unison writes elsewhere are not among them.
fn say_left_out(
    out: &mut String,
    source: &Source<'_>,
    findings: &[Finding],
    listing: Listing,
) -> Said {
    let left_out = left_out_in(source, findings)?;
    let Some((first, others)) = left_out.as_slice().split_first() else {
        return Ok(());
    };
    let count = left_out.len();
    write!(
        out,
        "hubsync: lines that don't count, as Unison does no less without them: {count}, first "
    )?;
    say_line(out, source, *first)?;
    match listing {
        Listing::Few => Ok(()),
        Listing::All => say_each(out, source, others),
    }
}

/// Says which `ignore` lines don't count since a pattern would be too long.
fn say_cut(out: &mut String, source: &Source<'_>, input: &[u8], listing: Listing) -> Said {
    let cut = cut_once(source, input)?;
    let Some((first, others)) = cut.as_slice().split_first() else {
        return Ok(());
    };
    let count = cut.len();
    write!(
        out,
        "hubsync: ignore lines that don't count, as a pattern would be too long: {count}, first "
    )?;
    say_line(out, source, *first)?;
    if listing == Listing::All {
        say_each(out, source, others)?;
    }
    writeln!(
        out,
        "hubsync: a pattern has at most {PATTERN_CHARACTERS} characters, and so has the one for a dot at a name's start"
    )
}

/// The numbers of these lines. A line of a file that several profiles include is found once.
fn cut_once(source: &Source<'_>, input: &[u8]) -> Result<Vec<usize>, AllocError> {
    let mut places = BTreeSet::new(source.alloc());
    let mut once = Vec::new(source.alloc());
    for number in cut_lines(source, input)? {
        if note_place(&mut places, source, number)? {
            once.push(number)?;
        }
    }
    Ok(once)
}

/// The numbers of the lines that don't count, but for those by which Unison writes elsewhere.
fn left_out_in(source: &Source<'_>, findings: &[Finding]) -> Result<Vec<usize>, AllocError> {
    let mut numbers = Vec::new(source.alloc());
    for finding in findings {
        if matches!(finding.outcome, Outcome::LeftOut) && !is_elsewhere(source, finding.line) {
            numbers.push(finding.line)?;
        }
    }
    Ok(numbers)
}

/// Returns whether Unison writes elsewhere by the line of that number.
fn is_elsewhere(source: &Source<'_>, number: usize) -> bool {
    source
        .line_at(number)
        .is_some_and(|line| writes_elsewhere(&line))
}

/// Says that each of these lines doesn't count.
fn say_each(out: &mut String, source: &Source<'_>, numbers: &[usize]) -> Said {
    for number in numbers {
        out.push_str("hubsync: nor does ")?;
        say_line(out, source, *number)?;
    }
    Ok(())
}

/// Says where the line of that number stands, and what it is.
fn say_line(out: &mut String, source: &Source<'_>, number: usize) -> Said {
    let Some(line) = source.line_at(number) else {
        return out.push_str("a line\n");
    };
    let place = line.place();
    let text = shown(source.alloc(), line.bytes)?;
    writeln!(out, "{place}: {text}")
}
