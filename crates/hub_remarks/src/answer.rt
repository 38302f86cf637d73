//! What is said about an answer.

use crate::asked::{say_asked_path, say_not_reached, say_profiles, say_run_fault};
use crate::bundle::{say_bundle_fault, say_unread};
use crate::clash::{Answers, Mending, first_clash, mending_in, say_plain_answer, say_wider};
use crate::folded::say_folded;
use crate::hosts::say_hosts;
use crate::input::{FirstBytes, profile_section};
use crate::mend::{is_bundle, lines_found};
use crate::proposed::{say_alone, say_taken_away};
use crate::refusal::say_refusal;
use crate::setting::say_setting_fault;
use crate::text::{say_certificates_fault, say_state_fault};
use crate::totals::say_totals;
use crate::unison::{Listing, has_word, is_for_unison, say_more, say_yes};
use crate::words::say_words;
use hub_bundle::SectionFault;
use hub_notes::notes;
use hub_report::{FaultyInput, Told};
use hub_source::{Proposal, Said, Source, SourceFile, say};
use std::alloc::{AllocError, Global};

/// Said of lines that make a set safe by hubsync's own reading.
const PLAIN_LINES: &str = "\
hubsync: note: Unison may read these lines otherwise: those of mend --unison hold for it, too
";

/// Said where a run is asked for without a state.
const NO_STATE: &str =
    "run needs a section %state, as docs/REFERENCE.md shows, and check needs none";

/// Said where no bundle says what was read for Unison.
const NOT_IMPORTED: &str =
    "a profile would have over 64 ignore and ignorenot lines (join them as *.{a,b}), or a rule's pattern over 200 characters (write two rules)";

/// Said where an option is given that changes nothing.
const NOT_LISTED: &str = "--verbose has an effect with --unison alone";

/// Said where a bundle with lines isn't safe.
const MENDED_BUNDLE: &str = "not safe: mend without --bundle says why";

/// What is said about an answer.
#[derive(Drop)]
pub struct Remarks {
    /// Lines that begin with `hubsync: `, or nothing.
    pub text: String,
    /// Whether a note among them says that a yes may mislead.
    pub may_mislead: bool,
}

/// What is to be said about an answer.
///
/// The words are those of the command line, the program's name first. If the sections of the input were made of files, these
/// are the files in the order of the sections. The text is free: no clause says what it is. If the input goes on behind these
/// bytes, only faults get remarks, and a yes gets a note that it may mislead. The answers are those to what `what_to_ask` gives.
pub fn remark(
    alloc: Global,
    words: &[String],
    files: &[SourceFile<'_>],
    input: FirstBytes<'_>,
    told: &Told,
    answers: Answers<'_>,
) -> Result<Remarks, AllocError> {
    if let Told::Nothing = told {
        return remarks_on_words(alloc, words);
    }
    let source = Source::read(alloc, input.bytes, input.is_whole, files)?;
    let exchange = Exchange {
        words,
        input: input.bytes,
        told,
        answers,
    };
    if is_yes(told) {
        return remarks_on_yes(&source, exchange);
    }
    remarks_on_no(&source, exchange)
}

/// What was asked and what was answered.
#[derive(Clone, Copy)]
struct Exchange<'a> {
    words: &'a [String],
    input: &'a [u8],
    told: &'a Told,
    answers: Answers<'a>,
}

impl Exchange<'_> {
    /// Returns whether the answer has lines for profiles by hubsync's own reading.
    fn has_plain_lines(&self) -> bool {
        lines_found(self.told) && !is_for_unison(self.words)
    }

    /// Says how profiles write the lines of the answer, and what these take away, if it has lines and isn't a bundle.
    fn say_lines(&self, out: &mut String, source: &Source<'_>) -> Said {
        if !lines_found(self.told) || is_bundle(self.words) {
            return Ok(());
        }
        let proposals = Proposal::all_in(source, self.answers.output)?;
        say_alone(out, source, proposals.as_slice())?;
        for proposal in proposals.iter() {
            if proposal.is_rewritten(source) {
                proposal.say(out, source, "in the profiles write: ")?;
            }
        }
        say_taken_away(out, source, proposals.as_slice())
    }

    /// Says which option changes nothing, if there is one.
    fn say_unused(&self, out: &mut String) -> Said {
        if has_word(self.words, "--verbose") && !is_for_unison(self.words) {
            say(out, NOT_LISTED)?;
        }
        Ok(())
    }
}

/// Returns whether an answer says that profiles may run at the same time or in rounds, or is a bundle.
fn is_yes(told: &Told) -> bool {
    match told {
        Told::Yes => true,
        Told::Mended(mended) => mended.refusal.is_none(),
        _ => false,
    }
}

/// What is said about words that were not answered.
fn remarks_on_words(alloc: Global, words: &[String]) -> Result<Remarks, AllocError> {
    let mut text = String::new(alloc);
    say_words(&mut text, alloc, words)?;
    Ok(Remarks {
        text,
        may_mislead: false,
    })
}

/// What is said about a yes, which may be plain lines that make a set safe. Where the profiles are read for Unison, that is also what is
/// assumed, and which lines don't count.
fn remarks_on_yes(source: &Source<'_>, exchange: Exchange<'_>) -> Result<Remarks, AllocError> {
    let is_for_unison = is_for_unison(exchange.words);
    let mut text = notes(source, is_for_unison)?;
    if is_for_unison {
        say_folded(&mut text, source)?;
    }
    if exchange.has_plain_lines() {
        text.push_str(PLAIN_LINES)?;
    }
    let may_mislead = !text.is_empty();
    exchange.say_lines(&mut text, source)?;
    if is_for_unison {
        let listing = Listing::asked_for(exchange.words);
        say_yes(&mut text, source, exchange.input, listing)?;
    }
    exchange.say_unused(&mut text)?;
    say_totals(&mut text, source.alloc(), exchange.answers.totals)?;
    Ok(Remarks { text, may_mislead })
}

/// What is said about an answer that is no yes.
fn remarks_on_no(source: &Source<'_>, exchange: Exchange<'_>) -> Result<Remarks, AllocError> {
    let mut text = String::new(source.alloc());
    if exchange.has_plain_lines() {
        text.push_str(PLAIN_LINES)?;
    }
    exchange.say_lines(&mut text, source)?;
    say_no(&mut text, source, exchange)?;
    exchange.say_unused(&mut text)?;
    say_totals(&mut text, source.alloc(), exchange.answers.totals)?;
    Ok(Remarks {
        text,
        may_mislead: false,
    })
}

/// Says what belongs to an answer that is no yes.
fn say_no(out: &mut String, source: &Source<'_>, exchange: Exchange<'_>) -> Said {
    let words = exchange.words;
    let mending = mending_in(words, exchange.answers.mend);
    say_answer(out, source, words, exchange.told, mending)?;
    if is_for_unison(words) {
        let listing = Listing::asked_for(words);
        let clash = first_clash(words, exchange.told);
        if clash.is_some() {
            say_wider(out, source, exchange.answers.check)?;
        }
        say_more(out, source, exchange.input, exchange.told, clash, listing)?;
        say_plain_answer(out, source, clash, exchange.answers.check)?;
    }
    say_hosts(out, source, words, exchange.told)
}

/// Says what belongs to an answer, by what is known of lines that mend it.
fn say_answer(
    out: &mut String,
    source: &Source<'_>,
    words: &[String],
    told: &Told,
    mending: Mending<'_>,
) -> Said {
    match told {
        Told::Nothing | Told::Other | Told::Yes => Ok(()),
        Told::Faulty(fault) => say_faulty(out, source, fault),
        Told::NoProfile => say_profiles(out, source, words),
        Told::BadPath(fault) => say_asked_path(out, source, words, *fault),
        Told::NoState => say(out, NO_STATE),
        Told::NotImported => say(out, NOT_IMPORTED),
        Told::Mended(_) if is_bundle(words) => say(out, MENDED_BUNDLE),
        _ => say_of_whole(out, source, words, told, mending),
    }
}

/// Says what belongs to an answer about what stands in the input, if that is there to its end.
fn say_of_whole(
    out: &mut String,
    source: &Source<'_>,
    words: &[String],
    told: &Told,
    mending: Mending<'_>,
) -> Said {
    if !source.is_whole() {
        return Ok(());
    }
    match told {
        Told::Refused(refusal) => say_refusal(out, source, refusal, mending),
        Told::Mended(mended) => match &mended.refusal {
            Some(refusal) => say_refusal(out, source, refusal, mending),
            None => Ok(()),
        },
        Told::NotReached => say_not_reached(out, source, words),
        Told::NotRun(why) => say_run_fault(out, source, *why),
        _ => Ok(()),
    }
}

/// Says what to do about an input that can't be read or isn't a bundle.
fn say_faulty(out: &mut String, source: &Source<'_>, fault: &FaultyInput) -> Said {
    match fault {
        FaultyInput::Unread(fault) => say_unread(out, *fault),
        FaultyInput::BadBundle(fault) => say_bundle_fault(out, source, *fault),
        FaultyInput::BadSection(fault) => say_section_fault(out, source, fault),
    }
}

/// Says what to do about a fault of a section.
fn say_section_fault(out: &mut String, source: &Source<'_>, fault: &SectionFault) -> Said {
    match fault {
        SectionFault::OfProfile { profile, fault } => {
            match profile_section(source, profile.text()) {
                Some(section) => say_setting_fault(out, source, section, fault, false),
                None => Ok(()),
            }
        }
        SectionFault::OfRules(fault) => match source.section("%rules") {
            Some(section) => say_setting_fault(out, source, section, fault, true),
            None => Ok(()),
        },
        SectionFault::OfState(fault) => match source.section("%state") {
            Some(section) => say_state_fault(out, source, section, *fault),
            None => Ok(()),
        },
        SectionFault::OfCertificates { line } => match source.section("%certificates") {
            Some(section) => say_certificates_fault(out, source, section, *line),
            None => Ok(()),
        },
    }
}
