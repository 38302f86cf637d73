//! What a cautious reading leaves out of the profiles of a bundle, line by line.
//!
//! - [`counted`] puts a comment in place of each line that is left out, and spells paths as the plain reader does. All else stays,
//!   byte for byte.
//! - [`findings`] returns each line that is left out, and each other one that the plain reader refuses by itself.
//! - [`CHANGES`], [`ELSEWHERE`], [`TRANSFERS`], [`DISPLAYS`] and [`STAYING`] have the preferences of Unison 2.52.1, each with what
//!   becomes of its lines, what Unison may do by them ([`Effect`]), why, and where that is from. [`effect_of`] looks one up.
//!
//! A line is left out if by the other lines Unison may change at least what it may change with it at the roots of all profiles: of
//! such a bundle a `safe` also holds with the line. The contracts use the words of `specs/Kinds`, `specs/Places`, `specs/Spellings`,
//! `specs/Counted` and `specs/Findings`. Only functions that return a `Result` allocate.
//!
//! These lines are left out:
//!
//! - `prefer`, which decides conflicts alone, and preferences that only hold changes back, as `links`, `mountpoint`,
//!   `maxsizethreshold`.
//! - Preferences without influence on what is synchronized, which the plain reader doesn't know, as `height` or `halfduplex`.
//! - Preferences by which Unison writes elsewhere, if that is in its own folder or at a place outside of all roots: `backup` and
//!   others, whose copies are in its own folder; `backupprefix`, `backupsuffix` and `addprefsto` with a value that can be a part of
//!   a name; `logfile` with a name alone, or with an absolute path that is in no root of a profile of the bundle. And those that start
//!   programs, as `servercmd`: what a program writes is assumed to be nothing but Unison's.
//! - `forcepartial` and `preferpartial`, and then all `force` lines of the profile too, which they override.
//! - `force = newer`, `force = older` and `force =`, and of several `force` lines all but the last one, which counts.
//! - `ignore` lines whose pattern the plain reader can't read. If it can't read the pattern of an `ignorenot` line, this line and
//!   all `ignore` lines.
//! - Bars on some paths whose pattern the plain reader can't read, or whose arrow Unison doesn't see: it wants a space on both
//!   sides, and with two arrows it bars nothing.
//! - With the value `false` or `default`: preferences that would otherwise add writes or names, as `rsrc` or `ignorecase`. With
//!   the value `central`: `backuplocation`.
//!
//! A `path` line with names that are empty or `.`, as `./a`, `a//b` or `a/.`, gets the plain reader's spelling: to Unison such
//! names count for nothing. Each other `logfile` line gets the name [`LOGFILE_IN_ROOT`], which the plain reader refuses: its file is
//! in a root, or that can't be known, as of `../l` or of names that are `.`, `..` or empty.
//!
//! All other lines stay. Those that add writes or names, as `follow`, `merge` or `copyonconflict = true`, the plain reader then
//! refuses, with its own fault and line. So it does with `backupdir`: each side writes there, and what lies below a root of another
//! host can't be told from a root's path here, which the user chooses.
//!
//! # What is proved
//!
//! [`counted`] returns exactly `counted_bundle` of the bytes. A line that counts and has no other spelling stands as it was; only lines
//! of profiles change; a bundle without a line to change is as it was; the lines keep their numbers; of what counts all counts; of
//! another spelling the plain reader reads the names that count ([`laws`]).
//!
//! [`findings`] returns exactly `findings_of` the bytes: all findings, in the order of the lines. [`effect_of`] returns exactly what
//! the tables say.
//!
//! # What is not
//!
//! That Unison changes no more without such a line. It is from trials with Unison 2.52.1 and from its manual: the tables say
//! which. A trial of many preferences shows only that Unison takes the line.
//! Nor that Unison takes both spellings of a path for the same one, which is from such trials, too.
#![tactic(auto)]

mod bundle;
mod finding;
mod kind;
pub mod laws;
mod place;
mod section;
mod spelling;
mod table;

pub use bundle::counted;
pub use finding::{Finding, Outcome, findings};
pub use place::PLACE_ROOTS;
pub use spelling::LOGFILE_IN_ROOT;
pub use table::{
    CHANGES, DISPLAYS, ELSEWHERE, Effect, Preference, Rule, STAYING, Source, TRANSFERS, effect_of,
};
