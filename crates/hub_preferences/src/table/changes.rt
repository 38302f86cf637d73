//! The preferences by which Unison changes less, or with some values more.

use crate::table::{Effect, Preference, Rule, Source};

/// The preferences by which Unison changes less, or with some values more. As in all tables here, each has the name that Unison 2.52.1 takes.
pub const CHANGES: [(&str, Preference); 22] = [
    (
        "copyonconflict",
        Preference {
            rule: Rule::LeftOutIfOff,
            effect: Effect::AddsChanges,
            reason: "it writes copies beside the files, at each root",
            source: Source::Trial,
        },
    ),
    (
        "fat",
        Preference {
            rule: Rule::LeftOutIfOff,
            effect: Effect::AddsChanges,
            reason: "two spellings of a name are one",
            source: Source::Trial,
        },
    ),
    (
        "force",
        Preference {
            rule: Rule::Force,
            effect: Effect::HoldsBack,
            reason: "its root is not written; newer, older and an empty value name no root",
            source: Source::Trial,
        },
    ),
    (
        "forcepartial",
        Preference {
            rule: Rule::OverridesForce,
            effect: Effect::AddsChanges,
            reason: "it overrides force where its pattern matches: the force lines are left out as well",
            source: Source::Trial,
        },
    ),
    (
        "ignore",
        Preference {
            rule: Rule::Ignore,
            effect: Effect::HoldsBack,
            reason: "what it matches is not synchronized",
            source: Source::Trial,
        },
    ),
    (
        "ignorearchives",
        Preference {
            rule: Rule::LeftOut,
            effect: Effect::HoldsBack,
            reason: "without it, Unison resolves more differences",
            source: Source::Trial,
        },
    ),
    (
        "ignorecase",
        Preference {
            rule: Rule::LeftOutIfOff,
            effect: Effect::AddsChanges,
            reason: "two spellings of a name are one",
            source: Source::Trial,
        },
    ),
    (
        "ignorelocks",
        Preference {
            rule: Rule::LeftOutIfOff,
            effect: Effect::AddsChanges,
            reason: "two runs may change one root at the same time",
            source: Source::Trial,
        },
    ),
    (
        "ignorenot",
        Preference {
            rule: Rule::IgnoreNot,
            effect: Effect::AddsChanges,
            reason: "what it matches is not ignored",
            source: Source::Trial,
        },
    ),
    (
        "immutable",
        Preference {
            rule: Rule::LeftOut,
            effect: Effect::HoldsBack,
            reason: "without it, all changes are looked for",
            source: Source::Trial,
        },
    ),
    (
        "immutablenot",
        Preference {
            rule: Rule::LeftOut,
            effect: Effect::NoInfluence,
            reason: "what it takes back is left out",
            source: Source::Trial,
        },
    ),
    (
        "links",
        Preference {
            rule: Rule::LeftOut,
            effect: Effect::HoldsBack,
            reason: "without it, links are synchronized too",
            source: Source::Trial,
        },
    ),
    (
        "maxerrors",
        Preference {
            rule: Rule::LeftOut,
            effect: Effect::HoldsBack,
            reason: "without it, Unison transfers more",
            source: Source::Trial,
        },
    ),
    (
        "maxsizethreshold",
        Preference {
            rule: Rule::LeftOut,
            effect: Effect::HoldsBack,
            reason: "without it, Unison transfers more",
            source: Source::Trial,
        },
    ),
    (
        "mountpoint",
        Preference {
            rule: Rule::LeftOut,
            effect: Effect::HoldsBack,
            reason: "without it, Unison doesn't stop",
            source: Source::Trial,
        },
    ),
    (
        "nocreationpartial",
        Preference {
            rule: Rule::PartialBar,
            effect: Effect::HoldsBack,
            reason: "it forbids changes at some paths of a root",
            source: Source::Trial,
        },
    ),
    (
        "nodeletionpartial",
        Preference {
            rule: Rule::PartialBar,
            effect: Effect::HoldsBack,
            reason: "it forbids changes at some paths of a root",
            source: Source::Trial,
        },
    ),
    (
        "noupdatepartial",
        Preference {
            rule: Rule::PartialBar,
            effect: Effect::HoldsBack,
            reason: "it forbids changes at some paths of a root",
            source: Source::Trial,
        },
    ),
    (
        "prefer",
        Preference {
            rule: Rule::LeftOut,
            effect: Effect::NoInfluence,
            reason: "it decides conflicts alone",
            source: Source::Trial,
        },
    ),
    (
        "preferpartial",
        Preference {
            rule: Rule::OverridesForce,
            effect: Effect::AddsChanges,
            reason: "it overrides force where its pattern matches: the force lines are left out as well",
            source: Source::Trial,
        },
    ),
    (
        "rsrc",
        Preference {
            rule: Rule::LeftOutIfOff,
            effect: Effect::AddsChanges,
            reason: "it writes more files than it names",
            source: Source::Trial,
        },
    ),
    (
        "unicode",
        Preference {
            rule: Rule::LeftOutIfOff,
            effect: Effect::AddsChanges,
            reason: "two spellings of a name are one",
            source: Source::Trial,
        },
    ),
];
