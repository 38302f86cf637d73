//! The preferences that a profile may set.
ghost use Rattle.std.specs.Prelude.{◌≡◌, chars};
ghost use Rattle.hub_profile.specs.LineByLine.{look_up};
ghost use Rattle.hub_profile.specs.Reading.{keys};

use crate::bars::Bars;
use crate::line_by_line::named;
use crate::protection::Protection;

/// A preference of a profile.
#[derive(Clone, Copy, Debug, PartialEq, Eq)]
pub(crate) enum Key {
    Root,
    Path,
    Ignore,
    IgnoreNot,
    Protect(Protection),
    Partial(Bars),
    /// The line is accepted and says nothing (this project's choice).
    NoEffect,
}

/// No deletions.
const NO_DELETION: Bars = Bars {
    create: false,
    update: false,
    delete: true,
};

/// No updates and no deletions.
const NO_UPDATE: Bars = Bars {
    create: false,
    update: true,
    delete: true,
};

/// No creations.
const NO_CREATION: Bars = Bars {
    create: true,
    update: false,
    delete: false,
};

/// Each preference by its name (Unison manual, "Preferences").
const KEYS: [(&str, Key); 27] = [
    ("root", Key::Root),
    ("path", Key::Path),
    ("ignore", Key::Ignore),
    ("ignorenot", Key::IgnoreNot),
    ("force", Key::Protect(Protection::Force)),
    ("prefer", Key::Protect(Protection::Prefer)),
    ("nodeletion", Key::Protect(Protection::Bar(NO_DELETION))),
    ("noupdate", Key::Protect(Protection::Bar(NO_UPDATE))),
    ("nocreation", Key::Protect(Protection::Bar(NO_CREATION))),
    ("nodeletionpartial", Key::Partial(NO_DELETION)),
    ("noupdatepartial", Key::Partial(NO_UPDATE)),
    ("nocreationpartial", Key::Partial(NO_CREATION)),
    ("auto", Key::NoEffect),
    ("batch", Key::NoEffect),
    ("confirmbigdel", Key::NoEffect),
    ("contactquietly", Key::NoEffect),
    ("fastcheck", Key::NoEffect),
    ("group", Key::NoEffect),
    ("key", Key::NoEffect),
    ("label", Key::NoEffect),
    ("log", Key::NoEffect),
    ("logfile", Key::NoEffect),
    ("owner", Key::NoEffect),
    ("perms", Key::NoEffect),
    ("silent", Key::NoEffect),
    ("terse", Key::NoEffect),
    ("times", Key::NoEffect),
];

/// The preference of that name, if there is one.
pub(crate) fn key_named(name: &str) -> Option<Key>
    ensures { result ≡ look_up (chars name.now) keys }
{
    named(&KEYS, name)
}
