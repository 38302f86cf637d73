//! Remarks on preferences that hubsync doesn't read.

use crate::remedy::say_nearest;
use hub_preferences::{Outcome, effect_of, findings};
use hub_source::{Said, SourceLine, say};
use std::alloc::{AllocError, Global};

/// The preferences of a profile that hubsync reads.
pub(crate) const PREFERENCES: &[&str] = &[
    "root",
    "path",
    "ignore",
    "ignorenot",
    "force",
    "prefer",
    "nodeletion",
    "noupdate",
    "nocreation",
    "nodeletionpartial",
    "noupdatepartial",
    "nocreationpartial",
    "auto",
    "batch",
    "confirmbigdel",
    "contactquietly",
    "fastcheck",
    "group",
    "key",
    "label",
    "log",
    "logfile",
    "owner",
    "perms",
    "silent",
    "terse",
    "times",
];

/// The preferences of rules.
pub(crate) const RULE_NAMES: &[&str] = &["root", "nolose", "nochange", "nonew"];

/// Preferences that hubsync refuses, and that change nothing that is synchronized.
const WITHOUT_EFFECT: &str = "\
    addprefsto addversionno backup backupcurr backupcurrent backupcurrentnot \
    backupcurrnot backupnot backupprefix backupsuffix backupversions color confirmmerge \
    copymax copyprog copyprogrest copyquoterem copythreshold debug diff dontchmod \
    dumbtty halfduplex height ignoreinodenumbers killserver maxbackups maxthreads \
    numericids repeat retry rsync servercmd showarchive sortbysize sortfirst sortlast \
    sortnewfirst sshargs sshcmd stream watch xferbycopying";

/// Preferences by which Unison writes where a value with a `/` says, and what to do about such a line.
const PLACES: [(&str, &str); 4] = [
    (
        "addprefsto",
        "leave the line out if this file lies in no root of any profile",
    ),
    (
        "backupdir",
        "leave the line out if this folder lies in no root of any profile",
    ),
    (
        "backupprefix",
        "leave the line out if no backup lies in a root of any profile",
    ),
    (
        "backupsuffix",
        "leave the line out if no backup lies in a root of any profile",
    ),
];

/// Preferences that Unison refuses in a profile, too.
const REFUSED_BY_UNISON: [&str; 9] = [
    "doc",
    "dumparchives",
    "i",
    "listen",
    "selftest",
    "socket",
    "testserver",
    "ui",
    "version",
];

/// Said of a line of which hubsync doesn't know what Unison may change by it.
const NO_ANSWER: &str = "\
hubsync has no answer for a profile with this line: let it run by itself, when no other profile runs, also by hand";

/// Says what to do about a line that sets a preference which isn't known.
pub(crate) fn say_unknown(
    out: &mut String,
    alloc: Global,
    line: &SourceLine<'_>,
    is_of_rules: bool,
) -> Said {
    let name = line.name();
    if name == "logfile" && !is_of_rules {
        return say(
            out,
            "the log may lie in a root of a profile: write the absolute path of a file that lies in none",
        );
    }
    if let Some(remedy) = place_remedy(name) {
        return say_place(out, alloc, line, remedy);
    }
    if WITHOUT_EFFECT.split(' ').any(|word| word == name) {
        return say_without_effect(out, name);
    }
    if is_of_rules {
        say_unknown_rule(out, alloc, name)
    } else {
        say_unknown_preference(out, alloc, line)
    }
}

/// Says that a preference changes nothing that is synchronized.
fn say_without_effect(out: &mut String, name: &str) -> Said {
    writeln!(
        out,
        "hubsync: {name} changes nothing that is synchronized: leave it out"
    )
}

/// Says what an unknown rule may mean.
fn say_unknown_rule(out: &mut String, alloc: Global, name: &str) -> Said {
    if PREFERENCES.contains(&name) {
        return writeln!(
            out,
            "hubsync: {name} is for profiles: the rules are nolose, nochange, nonew"
        );
    }
    say_nearest(
        out,
        alloc,
        name,
        RULE_NAMES,
        "rules are nolose, nochange and nonew, each below a line root = ..",
    )
}

/// Says what to do about a line of a profile that sets a preference which isn't known.
fn say_unknown_preference(out: &mut String, alloc: Global, line: &SourceLine<'_>) -> Said {
    let name = line.name();
    if RULE_NAMES.contains(&name) {
        return writeln!(
            out,
            "hubsync: {name} is a rule: a line %rules is missing above it"
        );
    }
    if REFUSED_BY_UNISON.contains(&name) {
        return say(out, "Unison refuses it in a profile, too: leave it out");
    }
    if effect_of(name).is_none() {
        return say_nearest(
            out,
            alloc,
            name,
            PREFERENCES,
            "no Unison from 2.51 to 2.53 has a preference of this name that hubsync knows",
        );
    }
    if is_left_out(alloc, line)? {
        return say(out, "with --unison this line doesn't count");
    }
    say(out, NO_ANSWER)
}

/// What to do about a line by which Unison writes where its value says, if the preference of that name is one for that.
fn place_remedy(name: &str) -> Option<&'static str> {
    for (place, remedy) in PLACES {
        if place == name {
            return Some(remedy);
        }
    }
    None
}

/// Says what to do about such a line. It has no effect if its value is no place.
fn say_place(out: &mut String, alloc: Global, line: &SourceLine<'_>, remedy: &str) -> Said {
    if is_left_out(alloc, line)? {
        say_without_effect(out, line.name())
    } else {
        say(out, remedy)
    }
}

/// Returns whether a line of a profile doesn't count where the profile is read for Unison.
fn is_left_out(alloc: Global, line: &SourceLine<'_>) -> Result<bool, AllocError> {
    let mut bundle = Vec::new(alloc);
    bundle.extend_from_slice(b"%profile p\n")?;
    bundle.extend_from_slice(line.bytes)?;
    for finding in findings(alloc, bundle.as_slice())? {
        if let Outcome::LeftOut = finding.outcome {
            return Ok(true);
        }
    }
    Ok(false)
}
