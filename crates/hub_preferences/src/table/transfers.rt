//! The preferences on connections, and on how files are copied. Unison 2.52 has no `host`, which 2.51 has, and neither `acl` nor
//! `xattrs`, `xattrignore` and `xattrignorenot`, which 2.53 has.

use crate::table::{Effect, Preference, Rule, Source};

/// The preferences on connections, and on how files are copied.
pub const TRANSFERS: [(&str, Preference); 15] = [
    (
        "acl",
        Preference {
            rule: Rule::LeftOut,
            effect: Effect::NoInfluence,
            reason: "it is about attributes of files",
            source: Source::Trial,
        },
    ),
    (
        "addversionno",
        Preference {
            rule: Rule::LeftOut,
            effect: Effect::NoInfluence,
            reason: "it is about the connection",
            source: Source::Trial,
        },
    ),
    (
        "clientHostName",
        Preference {
            rule: Rule::LeftOut,
            effect: Effect::NoInfluence,
            reason: "it is about the connection",
            source: Source::Trial,
        },
    ),
    (
        "copymax",
        Preference {
            rule: Rule::LeftOut,
            effect: Effect::NoInfluence,
            reason: "it is about how a file is copied",
            source: Source::Manual,
        },
    ),
    (
        "copyquoterem",
        Preference {
            rule: Rule::LeftOut,
            effect: Effect::NoInfluence,
            reason: "it is about how a file is copied",
            source: Source::Manual,
        },
    ),
    (
        "halfduplex",
        Preference {
            rule: Rule::LeftOut,
            effect: Effect::NoInfluence,
            reason: "it is about the connection",
            source: Source::Trial,
        },
    ),
    (
        "host",
        Preference {
            rule: Rule::LeftOut,
            effect: Effect::NoInfluence,
            reason: "it is about the connection",
            source: Source::Manual,
        },
    ),
    (
        "killserver",
        Preference {
            rule: Rule::LeftOut,
            effect: Effect::NoInfluence,
            reason: "it is about the connection",
            source: Source::Trial,
        },
    ),
    (
        "maxthreads",
        Preference {
            rule: Rule::LeftOut,
            effect: Effect::NoInfluence,
            reason: "it is about how a file is copied",
            source: Source::Manual,
        },
    ),
    (
        "rsync",
        Preference {
            rule: Rule::LeftOut,
            effect: Effect::NoInfluence,
            reason: "it is about how a file is copied",
            source: Source::Manual,
        },
    ),
    (
        "stream",
        Preference {
            rule: Rule::LeftOut,
            effect: Effect::NoInfluence,
            reason: "it is about how a file is copied",
            source: Source::Trial,
        },
    ),
    (
        "xattrignore",
        Preference {
            rule: Rule::LeftOut,
            effect: Effect::NoInfluence,
            reason: "it is about attributes of files",
            source: Source::Manual,
        },
    ),
    (
        "xattrignorenot",
        Preference {
            rule: Rule::LeftOut,
            effect: Effect::NoInfluence,
            reason: "it is about attributes of files",
            source: Source::Manual,
        },
    ),
    (
        "xattrs",
        Preference {
            rule: Rule::LeftOut,
            effect: Effect::NoInfluence,
            reason: "it is about attributes of files",
            source: Source::Trial,
        },
    ),
    (
        "xferbycopying",
        Preference {
            rule: Rule::LeftOut,
            effect: Effect::NoInfluence,
            reason: "it is about how a file is copied",
            source: Source::Manual,
        },
    ),
];
