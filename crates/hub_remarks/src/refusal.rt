//! Remarks on sets that are refused: the lines that make it so.

use crate::clash::Mending;
use crate::nested::say_other_nested;
use crate::proposed::{say_alone, say_taken_away};
use hub_notes::{has_no_path, is_rule, is_same_root, line_above};
use hub_profile::Verb;
use hub_report::Refusal;
use hub_source::{Proposal, Said, Source, SourceLine, name_of, say, say_placed};
use std::alloc::AllocError;

/// Said of two profiles that share an archive.
const SAME_ARCHIVE: &str =
    "run one after the other: Unison has one archive for both, and two runs at once bring deleted files back";

/// Said of two profiles with nested roots.
const NESTED_PROFILES: &str =
    "run one after the other, as rounds does: a pattern is too long for hubsync with the names between their roots before it";

/// Says which lines a refusal is about, and what to do.
pub(crate) fn say_refusal(
    out: &mut String,
    source: &Source<'_>,
    refusal: &Refusal,
    mending: Mending<'_>,
) -> Said {
    match refusal {
        Refusal::Overlap { path, .. } => {
            say_named(out, source, refusal, path.as_str())?;
            say_parting(out, source, mending)
        }
        Refusal::Breach { rule, path, .. } => {
            say_rule(out, source, *rule)?;
            say_named(out, source, refusal, path.as_str())?;
            say_keeping(out, source, refusal, mending)
        }
        _ => say_refused(out, source, refusal),
    }
}

/// Says what to do about a set that is refused for no path.
fn say_refused(out: &mut String, source: &Source<'_>, refusal: &Refusal) -> Said {
    match refusal {
        Refusal::TooManyProfiles => say_too_many_profiles(out, source),
        Refusal::SameName(name) => say_same_name(out, source, name.text()),
        Refusal::NestedRoots([first, second]) => {
            say_nested(out, source, first.as_str(), second.as_str())
        }
        Refusal::TooManyCharacters => {
            say(out, "paths and patterns may have 512 different characters")
        }
        Refusal::TooManySpots => say(
            out,
            "a profile's paths and patterns have at most 4,096 beginnings",
        ),
        Refusal::SameArchive { .. } => say(out, SAME_ARCHIVE),
        Refusal::NestedProfiles { .. } => say(out, NESTED_PROFILES),
        Refusal::TooLarge => say(out, "nothing is known: fewer * in patterns would help"),
        _ => say_certificates(out, source),
    }
}

/// Says what keeps two profiles apart that overlap.
fn say_parting(out: &mut String, source: &Source<'_>, mending: Mending<'_>) -> Said {
    match mending {
        Mending::Lines(lines) => say_parting_lines(out, source, lines),
        Mending::SameArchive => say(out, SAME_ARCHIVE),
        Mending::Unknown => say(
            out,
            "run one after the other, or give one other paths, an ignore or a bar",
        ),
        _ => say(
            out,
            "run one after the other, as rounds does, or give one other paths",
        ),
    }
}

/// Says these lines for profiles, and what they take away.
fn say_parting_lines(out: &mut String, source: &Source<'_>, lines: &[u8]) -> Said {
    let proposals = Proposal::all_in(source, lines)?;
    let has_alone = say_alone(out, source, proposals.as_slice())?;
    say(
        out,
        if has_alone {
            "or add these lines, which hold for Unison too:"
        } else {
            "run one after the other, or add these lines, which hold for Unison too:"
        },
    )?;
    say_proposals(out, source, proposals.as_slice())
}

/// Says these lines, and what they take away.
fn say_proposals(out: &mut String, source: &Source<'_>, proposals: &[Proposal<'_>]) -> Said {
    for proposal in proposals {
        proposal.say(out, source, "")?;
    }
    say_taken_away(out, source, proposals)
}

/// Says which lines give a path to the profiles that a refusal names.
fn say_named(out: &mut String, source: &Source<'_>, refusal: &Refusal, path: &str) -> Said {
    for heading in named_profiles(source, refusal)? {
        say_kept(out, source, heading.section, path)?;
    }
    Ok(())
}

/// The headings of the profiles that a refusal names, in the order of the input.
pub(crate) fn named_profiles<'a>(
    source: &Source<'a>,
    refusal: &Refusal,
) -> Result<Vec<SourceLine<'a>>, AllocError> {
    let mut named = Vec::new(source.alloc());
    for (number, heading) in source.profiles()?.iter().enumerate() {
        if is_named(refusal, number) {
            named.push(*heading)?;
        }
    }
    Ok(named)
}

/// Returns whether a refusal names the profile of that number.
fn is_named(refusal: &Refusal, number: usize) -> bool {
    match refusal {
        Refusal::Overlap { writer, other, .. } => number == *writer || number == *other,
        Refusal::Breach { profile, .. } => number == *profile,
        _ => false,
    }
}

/// Says which line gives a profile a path.
pub(crate) fn say_kept(out: &mut String, source: &Source<'_>, section: usize, path: &str) -> Said {
    if has_no_path(source, section) {
        let name = name_of(source, section);
        return writeln!(
            out,
            "hubsync: {name} has no line path, so it has all of its roots"
        );
    }
    match line_above(source, section, path) {
        Some(line) => say_placed(out, source, line),
        None => Ok(()),
    }
}

/// Says which lines would keep a rule that a breach is of.
fn say_keeping(
    out: &mut String,
    source: &Source<'_>,
    breach: &Refusal,
    mending: Mending<'_>,
) -> Said {
    match mending {
        Mending::Lines(lines) => {
            let proposals = Proposal::all_in(source, lines)?;
            say(out, "these lines would keep the rule, for Unison too:")?;
            say_proposals(out, source, proposals.as_slice())
        }
        Mending::NotFound | Mending::SameArchive => Ok(()),
        Mending::Unknown => say_bar(out, source, breach),
    }
}

/// Says which line is the rule of that number.
fn say_rule(out: &mut String, source: &Source<'_>, number: usize) -> Said {
    match rule_line(source, number) {
        Some(line) => say_placed(out, source, &line),
        None => Ok(()),
    }
}

/// Says which bar forbids the change that a breach is of.
fn say_bar(out: &mut String, source: &Source<'_>, breach: &Refusal) -> Said {
    let Refusal::Breach { verb, root, .. } = breach else {
        return Ok(());
    };
    let bar = match verb {
        Verb::Create => "nocreation",
        Verb::Update => "noupdate",
        Verb::Delete => "nodeletion",
    };
    for heading in named_profiles(source, breach)? {
        let root = source
            .root_written(heading.section, root.as_str())
            .unwrap_or(root.as_str());
        writeln!(
            out,
            "hubsync: a line {bar} = {root} in the profile would keep the rule"
        )?;
    }
    Ok(())
}

/// The rule that a breach names, and the line of its root.
pub(crate) fn broken_rule<'a>(
    source: &Source<'a>,
    refusal: &Refusal,
) -> Option<(SourceLine<'a>, SourceLine<'a>)> {
    let rule = match refusal {
        Refusal::Breach { rule, .. } => rule_line(source, *rule)?,
        _ => return None,
    };
    Some((root_above(source, rule)?, rule))
}

/// The last line of a root above a rule.
fn root_above<'a>(source: &Source<'a>, rule: SourceLine<'a>) -> Option<SourceLine<'a>> {
    let mut root = None;
    for line in source.section_lines(rule.section) {
        if line.at < rule.at && line.value_of("root").is_some() {
            root = Some(*line);
        }
    }
    root
}

/// The line of the rule of that number, from 0 on.
fn rule_line<'a>(source: &Source<'a>, number: usize) -> Option<SourceLine<'a>> {
    let section = source.section("%rules")?;
    let mut left = number;
    for line in source.section_lines(section) {
        if is_rule(line) {
            if left == 0 {
                return Some(*line);
            }
            left = left.saturating_sub(1);
        }
    }
    None
}

/// Says which headings, or which files, have the same name.
fn say_same_name(out: &mut String, source: &Source<'_>, name: &str) -> Said {
    out.push_str("hubsync: give each profile a name of its own:")?;
    if !source.has_files() {
        out.push_str(" bundle lines")?;
    }
    for line in source.lines() {
        if line.profile() == Some(name) {
            push_heading(out, line)?;
        }
    }
    out.push_str("\n")
}

/// Adds the number or the file of a heading to a list.
fn push_heading(out: &mut String, heading: &SourceLine<'_>) -> Said {
    let at = heading.at;
    match heading.file {
        Some(file) => write!(out, " {file}"),
        None => write!(out, " {at}"),
    }
}

/// Says how many profiles there are.
fn say_too_many_profiles(out: &mut String, source: &Source<'_>) -> Said {
    let count = source.profiles()?.len();
    writeln!(
        out,
        "hubsync: a bundle may have 128 profiles, and this one has {count}"
    )
}

/// Says where two roots stand of which one lies within the other, and what to do about them.
fn say_nested(out: &mut String, source: &Source<'_>, first: &str, second: &str) -> Said {
    say_root(out, source, first)?;
    say_root(out, source, second)?;
    say_other_nested(out, source, first, second)?;
    if is_of_rule(source, first) || is_of_rule(source, second) {
        return say(
            out,
            "write the rule at the profile's own root, and in its pattern the paths below that",
        );
    }
    say(
        out,
        "rounds puts two such profiles into different rounds; or move both roots of one up alike: a path is below both",
    )
}

/// Returns whether only rules have a root.
fn is_of_rule(source: &Source<'_>, root: &str) -> bool {
    let rules = source.section("%rules");
    !source.lines().iter().any(|line| {
        Some(line.section) != rules
            && line
                .value_of("root")
                .is_some_and(|value| is_same_root(value, root))
    })
}

/// Says which line has a root, the first one.
fn say_root(out: &mut String, source: &Source<'_>, root: &str) -> Said {
    for line in source.lines() {
        if line
            .value_of("root")
            .is_some_and(|value| is_same_root(value, root))
        {
            return say_placed(out, source, line);
        }
    }
    Ok(())
}

/// Says what to do about certificates that don't show that the set is safe.
fn say_certificates(out: &mut String, source: &Source<'_>) -> Said {
    match source.section("%certificates") {
        Some(_) => say(
            out,
            "the certificates are of another bundle: hubsync certify makes new ones",
        ),
        None => say(
            out,
            "there is no section %certificates: hubsync certify writes its text",
        ),
    }
}
