//! The preferences whose lines stay.

use crate::table::{Effect, Preference, Rule, Source};

/// The preferences whose lines stay, but for `backupdir`.
pub const STAYING: [(&str, Preference); 34] = [
    (
        "atomic",
        Preference {
            rule: Rule::Stays,
            effect: Effect::AddsChanges,
            reason: "a directory is replaced as a whole, also where a bar forbids a change in it",
            source: Source::Trial,
        },
    ),
    (
        "auto",
        Preference {
            rule: Rule::Stays,
            effect: Effect::NoInfluence,
            reason: "hubsync accepts it without effect",
            source: Source::Manual,
        },
    ),
    (
        "batch",
        Preference {
            rule: Rule::Stays,
            effect: Effect::NoInfluence,
            reason: "hubsync accepts it without effect",
            source: Source::Manual,
        },
    ),
    (
        "confirmbigdel",
        Preference {
            rule: Rule::Stays,
            effect: Effect::NoInfluence,
            reason: "hubsync accepts it without effect",
            source: Source::Manual,
        },
    ),
    (
        "contactquietly",
        Preference {
            rule: Rule::Stays,
            effect: Effect::NoInfluence,
            reason: "hubsync accepts it without effect",
            source: Source::Manual,
        },
    ),
    (
        "doc",
        Preference {
            rule: Rule::Stays,
            effect: Effect::HoldsBack,
            reason: "Unison refuses it in a profile",
            source: Source::Trial,
        },
    ),
    (
        "dumparchives",
        Preference {
            rule: Rule::Stays,
            effect: Effect::HoldsBack,
            reason: "Unison refuses it in a profile",
            source: Source::Trial,
        },
    ),
    (
        "fastcheck",
        Preference {
            rule: Rule::Stays,
            effect: Effect::NoInfluence,
            reason: "hubsync accepts it without effect",
            source: Source::Manual,
        },
    ),
    (
        "follow",
        Preference {
            rule: Rule::Stays,
            effect: Effect::AddsChanges,
            reason: "Unison changes what the links lead to",
            source: Source::Trial,
        },
    ),
    (
        "group",
        Preference {
            rule: Rule::Stays,
            effect: Effect::NoInfluence,
            reason: "hubsync accepts it without effect",
            source: Source::Manual,
        },
    ),
    (
        "i",
        Preference {
            rule: Rule::Stays,
            effect: Effect::HoldsBack,
            reason: "Unison refuses it in a profile",
            source: Source::Trial,
        },
    ),
    (
        "include",
        Preference {
            rule: Rule::Stays,
            effect: Effect::AddsChanges,
            reason: "the lines of another file take its place",
            source: Source::Trial,
        },
    ),
    (
        "key",
        Preference {
            rule: Rule::Stays,
            effect: Effect::NoInfluence,
            reason: "hubsync accepts it without effect",
            source: Source::Trial,
        },
    ),
    (
        "label",
        Preference {
            rule: Rule::Stays,
            effect: Effect::NoInfluence,
            reason: "hubsync accepts it without effect",
            source: Source::Trial,
        },
    ),
    (
        "listen",
        Preference {
            rule: Rule::Stays,
            effect: Effect::HoldsBack,
            reason: "Unison refuses it in a profile",
            source: Source::Trial,
        },
    ),
    (
        "log",
        Preference {
            rule: Rule::Stays,
            effect: Effect::NoInfluence,
            reason: "hubsync accepts it without effect",
            source: Source::Trial,
        },
    ),
    (
        "merge",
        Preference {
            rule: Rule::Stays,
            effect: Effect::AddsChanges,
            reason: "a program writes at both roots, also where a bar forbids a change",
            source: Source::Trial,
        },
    ),
    (
        "nocreation",
        Preference {
            rule: Rule::Stays,
            effect: Effect::HoldsBack,
            reason: "it forbids changes at a root",
            source: Source::Trial,
        },
    ),
    (
        "nodeletion",
        Preference {
            rule: Rule::Stays,
            effect: Effect::HoldsBack,
            reason: "it forbids changes at a root",
            source: Source::Trial,
        },
    ),
    (
        "noupdate",
        Preference {
            rule: Rule::Stays,
            effect: Effect::HoldsBack,
            reason: "it forbids changes at a root",
            source: Source::Trial,
        },
    ),
    (
        "owner",
        Preference {
            rule: Rule::Stays,
            effect: Effect::NoInfluence,
            reason: "hubsync accepts it without effect",
            source: Source::Manual,
        },
    ),
    (
        "path",
        Preference {
            rule: Rule::Stays,
            effect: Effect::AddsChanges,
            reason: "it names what is synchronized",
            source: Source::Trial,
        },
    ),
    (
        "perms",
        Preference {
            rule: Rule::Stays,
            effect: Effect::NoInfluence,
            reason: "hubsync accepts it without effect",
            source: Source::Trial,
        },
    ),
    (
        "root",
        Preference {
            rule: Rule::Stays,
            effect: Effect::AddsChanges,
            reason: "it names a root",
            source: Source::Trial,
        },
    ),
    (
        "rootalias",
        Preference {
            rule: Rule::Stays,
            effect: Effect::AddsChanges,
            reason: "two names of a root are one",
            source: Source::Manual,
        },
    ),
    (
        "selftest",
        Preference {
            rule: Rule::Stays,
            effect: Effect::HoldsBack,
            reason: "Unison refuses it in a profile",
            source: Source::Trial,
        },
    ),
    (
        "silent",
        Preference {
            rule: Rule::Stays,
            effect: Effect::NoInfluence,
            reason: "hubsync accepts it without effect",
            source: Source::Manual,
        },
    ),
    (
        "socket",
        Preference {
            rule: Rule::Stays,
            effect: Effect::HoldsBack,
            reason: "Unison refuses it in a profile",
            source: Source::Trial,
        },
    ),
    (
        "source",
        Preference {
            rule: Rule::Stays,
            effect: Effect::AddsChanges,
            reason: "the lines of another file take its place",
            source: Source::Manual,
        },
    ),
    (
        "terse",
        Preference {
            rule: Rule::Stays,
            effect: Effect::NoInfluence,
            reason: "hubsync accepts it without effect",
            source: Source::Manual,
        },
    ),
    (
        "testserver",
        Preference {
            rule: Rule::Stays,
            effect: Effect::HoldsBack,
            reason: "Unison refuses it in a profile",
            source: Source::Trial,
        },
    ),
    (
        "times",
        Preference {
            rule: Rule::Stays,
            effect: Effect::NoInfluence,
            reason: "hubsync accepts it without effect",
            source: Source::Trial,
        },
    ),
    (
        "ui",
        Preference {
            rule: Rule::Stays,
            effect: Effect::HoldsBack,
            reason: "Unison refuses it in a profile",
            source: Source::Trial,
        },
    ),
    (
        "version",
        Preference {
            rule: Rule::Stays,
            effect: Effect::HoldsBack,
            reason: "Unison refuses it in a profile",
            source: Source::Trial,
        },
    ),
];
