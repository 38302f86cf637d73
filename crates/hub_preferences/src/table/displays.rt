//! The preferences on what is shown and asked, on when Unison runs, and on how it finds changes.

use crate::table::{Effect, Preference, Rule, Source};

/// The preferences on what is shown and asked, on when Unison runs, and on how it finds changes.
pub const DISPLAYS: [(&str, Preference); 20] = [
    (
        "color",
        Preference {
            rule: Rule::LeftOut,
            effect: Effect::NoInfluence,
            reason: "it is about what is shown",
            source: Source::Manual,
        },
    ),
    (
        "confirmbigdeletes",
        Preference {
            rule: Rule::LeftOut,
            effect: Effect::NoInfluence,
            reason: "it is about what is asked",
            source: Source::Trial,
        },
    ),
    (
        "confirmmerge",
        Preference {
            rule: Rule::LeftOut,
            effect: Effect::NoInfluence,
            reason: "it is about what is asked",
            source: Source::Manual,
        },
    ),
    (
        "debug",
        Preference {
            rule: Rule::LeftOut,
            effect: Effect::NoInfluence,
            reason: "it is about what is shown",
            source: Source::Trial,
        },
    ),
    (
        "diff",
        Preference {
            rule: Rule::LeftOut,
            effect: Effect::NoInfluence,
            reason: "it is about what is shown",
            source: Source::Trial,
        },
    ),
    (
        "dontchmod",
        Preference {
            rule: Rule::LeftOut,
            effect: Effect::NoInfluence,
            reason: "it is about times, owners or permissions, and forbidden changes include those",
            source: Source::Trial,
        },
    ),
    (
        "dumbtty",
        Preference {
            rule: Rule::LeftOut,
            effect: Effect::NoInfluence,
            reason: "it is about what is shown",
            source: Source::Manual,
        },
    ),
    (
        "fastercheckUNSAFE",
        Preference {
            rule: Rule::LeftOut,
            effect: Effect::NoInfluence,
            reason: "it is about how changes are found",
            source: Source::Trial,
        },
    ),
    (
        "height",
        Preference {
            rule: Rule::LeftOut,
            effect: Effect::NoInfluence,
            reason: "it is about what is shown",
            source: Source::Manual,
        },
    ),
    (
        "ignoreinodenumbers",
        Preference {
            rule: Rule::LeftOut,
            effect: Effect::NoInfluence,
            reason: "it is about how changes are found",
            source: Source::Trial,
        },
    ),
    (
        "numericids",
        Preference {
            rule: Rule::LeftOut,
            effect: Effect::NoInfluence,
            reason: "it is about times, owners or permissions, and forbidden changes include those",
            source: Source::Trial,
        },
    ),
    (
        "pretendwin",
        Preference {
            rule: Rule::LeftOut,
            effect: Effect::NoInfluence,
            reason: "it is about how changes are found",
            source: Source::Trial,
        },
    ),
    (
        "repeat",
        Preference {
            rule: Rule::LeftOut,
            effect: Effect::NoInfluence,
            reason: "it is about when Unison runs, and how often",
            source: Source::Trial,
        },
    ),
    (
        "retry",
        Preference {
            rule: Rule::LeftOut,
            effect: Effect::NoInfluence,
            reason: "it is about when Unison runs, and how often",
            source: Source::Manual,
        },
    ),
    (
        "showarchive",
        Preference {
            rule: Rule::LeftOut,
            effect: Effect::NoInfluence,
            reason: "it is about what is shown",
            source: Source::Trial,
        },
    ),
    (
        "sortbysize",
        Preference {
            rule: Rule::LeftOut,
            effect: Effect::NoInfluence,
            reason: "it is about what is shown",
            source: Source::Manual,
        },
    ),
    (
        "sortfirst",
        Preference {
            rule: Rule::LeftOut,
            effect: Effect::NoInfluence,
            reason: "it is about what is shown",
            source: Source::Manual,
        },
    ),
    (
        "sortlast",
        Preference {
            rule: Rule::LeftOut,
            effect: Effect::NoInfluence,
            reason: "it is about what is shown",
            source: Source::Manual,
        },
    ),
    (
        "sortnewfirst",
        Preference {
            rule: Rule::LeftOut,
            effect: Effect::NoInfluence,
            reason: "it is about what is shown",
            source: Source::Manual,
        },
    ),
    (
        "watch",
        Preference {
            rule: Rule::LeftOut,
            effect: Effect::NoInfluence,
            reason: "it is about when Unison runs, and how often",
            source: Source::Trial,
        },
    ),
];
