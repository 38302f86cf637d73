//! The preferences by which Unison writes outside what it synchronizes.

use crate::table::{Effect, Preference, Rule, Source};

/// The preferences by which Unison writes outside what it synchronizes: copies, a log, other lines, and what a program writes that it starts.
pub const ELSEWHERE: [(&str, Preference); 23] = [
    (
        "addprefsto",
        Preference {
            rule: Rule::LeftOutIfName,
            effect: Effect::WritesElsewhere,
            reason: "with a name alone it is a file in Unison's own folder",
            source: Source::Trial,
        },
    ),
    (
        "backup",
        Preference {
            rule: Rule::LeftOut,
            effect: Effect::WritesElsewhere,
            reason: "its copies are in one folder, whose place the lines backupdir and backuploc name",
            source: Source::Trial,
        },
    ),
    (
        "backupcurr",
        Preference {
            rule: Rule::LeftOut,
            effect: Effect::WritesElsewhere,
            reason: "its copies are in one folder, whose place the lines backupdir and backuploc name",
            source: Source::Trial,
        },
    ),
    (
        "backupcurrent",
        Preference {
            rule: Rule::LeftOut,
            effect: Effect::WritesElsewhere,
            reason: "its copies are in one folder, whose place the lines backupdir and backuploc name",
            source: Source::Trial,
        },
    ),
    (
        "backupcurrentnot",
        Preference {
            rule: Rule::LeftOut,
            effect: Effect::WritesElsewhere,
            reason: "it takes back some copies",
            source: Source::Trial,
        },
    ),
    (
        "backupcurrnot",
        Preference {
            rule: Rule::LeftOut,
            effect: Effect::WritesElsewhere,
            reason: "it takes back some copies",
            source: Source::Manual,
        },
    ),
    (
        "backupdir",
        Preference {
            rule: Rule::Stays,
            effect: Effect::WritesElsewhere,
            reason: "the folder may lie in a root of this or another host",
            source: Source::Trial,
        },
    ),
    (
        "backuploc",
        Preference {
            rule: Rule::LeftOutIfCentral,
            effect: Effect::WritesElsewhere,
            reason: "local backups lie beside the files",
            source: Source::Trial,
        },
    ),
    (
        "backuplocation",
        Preference {
            rule: Rule::LeftOutIfCentral,
            effect: Effect::WritesElsewhere,
            reason: "local backups lie beside the files",
            source: Source::Trial,
        },
    ),
    (
        "backupnot",
        Preference {
            rule: Rule::LeftOut,
            effect: Effect::WritesElsewhere,
            reason: "it takes back some copies",
            source: Source::Manual,
        },
    ),
    (
        "backupprefix",
        Preference {
            rule: Rule::LeftOutIfName,
            effect: Effect::WritesElsewhere,
            reason: "with a / the copies may be anywhere",
            source: Source::Trial,
        },
    ),
    (
        "backups",
        Preference {
            rule: Rule::LeftOutIfOff,
            effect: Effect::WritesElsewhere,
            reason: "the copies may lie beside the files",
            source: Source::Trial,
        },
    ),
    (
        "backupsuffix",
        Preference {
            rule: Rule::LeftOutIfName,
            effect: Effect::WritesElsewhere,
            reason: "with a / the copies may be anywhere",
            source: Source::Trial,
        },
    ),
    (
        "backupversions",
        Preference {
            rule: Rule::LeftOut,
            effect: Effect::WritesElsewhere,
            reason: "it says how many copies are kept",
            source: Source::Trial,
        },
    ),
    (
        "copyprog",
        Preference {
            rule: Rule::LeftOut,
            effect: Effect::WritesElsewhere,
            reason: "it starts a program that copies a file",
            source: Source::Manual,
        },
    ),
    (
        "copyprogrest",
        Preference {
            rule: Rule::LeftOut,
            effect: Effect::WritesElsewhere,
            reason: "it starts a program that copies a file",
            source: Source::Manual,
        },
    ),
    (
        "copythreshold",
        Preference {
            rule: Rule::LeftOut,
            effect: Effect::WritesElsewhere,
            reason: "by it the program of copyprog is started",
            source: Source::Manual,
        },
    ),
    (
        "logfile",
        Preference {
            rule: Rule::LeftOutIfApart,
            effect: Effect::WritesElsewhere,
            reason: "the log lies in no root of a profile",
            source: Source::Trial,
        },
    ),
    (
        "maxbackups",
        Preference {
            rule: Rule::LeftOut,
            effect: Effect::WritesElsewhere,
            reason: "it says how many copies are kept",
            source: Source::Trial,
        },
    ),
    (
        "mirror",
        Preference {
            rule: Rule::LeftOut,
            effect: Effect::WritesElsewhere,
            reason: "its copies are in one folder, whose place the lines backupdir and backuploc name",
            source: Source::Trial,
        },
    ),
    (
        "servercmd",
        Preference {
            rule: Rule::LeftOut,
            effect: Effect::WritesElsewhere,
            reason: "it starts a program on the other host",
            source: Source::Trial,
        },
    ),
    (
        "sshargs",
        Preference {
            rule: Rule::LeftOut,
            effect: Effect::WritesElsewhere,
            reason: "they are the words of a program that it starts",
            source: Source::Manual,
        },
    ),
    (
        "sshcmd",
        Preference {
            rule: Rule::LeftOut,
            effect: Effect::WritesElsewhere,
            reason: "it starts a program for the connection",
            source: Source::Trial,
        },
    ),
];
