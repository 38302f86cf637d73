//! What Unison may do with a profile where it reads a line otherwise than hubsync.
//!
//! Unison 2.52 reads some lines of a profile otherwise than hubsync. [`cautious`] makes of a profile one that reaches and
//! writes, for hubsync, at least what the first reaches and writes for Unison. [`read_set`] makes such readings of the
//! profiles of a set; beside rules they are wider still. [`lines_cut`] says which lines are left out since a pattern would be
//! too long, and [`shared_archives`] which profiles have the same two roots. If the readings are a safe set, and no two have
//! the same two roots, no two of the profiles clash in Unison, and by none of them Unison breaks a rule: see [`laws`].
//!
//! [`copy_of`] copies a specification, and [`spec_of_choices`] makes one of choices, if their text is read so.
//!
//! Only functions that return a `Result` allocate. The contracts are in the words of `specs/Lines` (what a line spells),
//! `specs/Matching` (what Unison matches by the text of a line for certain, and what it may match), `specs/Written` (a profile as
//! its lines say it to Unison), `specs/UnisonReach` (what Unison may reach and write), `specs/Rules` (what it may do that a rule
//! forbids), `specs/Shared` (the same two roots) and `specs/ReadingOf` (the readings, as functions of the profiles).
//!
//! # What is proved
//!
//! - [`cautious`] returns `cautious_of` its profile, and [`read_set`] the `reading_of` each profile beside the rules of a set: what
//!   becomes of each line is said, and all else stays. A profile that hubsync and Unison read alike stays as it is.
//! - The one `IsCautious`, and the others `AreReadForUnison`, of all lines that spell what hubsync read. The lines of a profile's
//!   bytes that set `ignore`, `ignorenot` and the bars on some paths do, as they stand, with blanks, escapes, braces and each CR
//!   (law `profiles_are_written_in_their_lines`).
//! - If these and the rules are a safe set, and no two have the same two roots, no two different roots of the profiles are nested,
//!   no two of the profiles clash in Unison, and by none of them Unison breaks a rule (law `safe_readings_are_safe_in_unison`).
//!   Two profiles are run by two runs of Unison: each may match the texts of lines in its own way within the bounds. hubsync's own
//!   matching lies between the bounds, too (`hubsync_matches_as_unison_may`).
//! - [`shared_archives`] returns all pairs of profiles with the same two roots. Without one no two have them (law
//!   `no_shared_pair_shares_no_archive`).
//! - An `ignore` line stays where Unison matches what hubsync matches; a pattern that differs by a dot at the start of a name
//!   gets an `ignorenot` for it, unless another `ignore` or `ignorenot` line has just that pattern; one with `?`, ` -> `, a control
//!   character or a set of other than ASCII characters is left out. An `ignorenot` with `?` or such a set gets a `*` in their place;
//!   if one has ` -> ` or a control character, each `ignore` and `ignorenot` line is left out. A bar stays if Unison matches its
//!   pattern in the same way. `path = docs/*` becomes `path = docs` without `ignore` and `ignorenot` lines.
//! - So a reading may have twice as many `ignore` and `ignorenot` lines as may be read: it is a value, and no text. A line
//!   that only ignores more never makes a reading wider (law `ignoring_more_reaches_less`).
//! - Beside rules each `ignore` line and each bar on a pattern is left out, since Unison tests a bar at the path of an item
//!   alone, and takes ignored files away with their folder; and `nocreation` too, unless there is `noupdate` of the same root.
//!
//! # What is not
//!
//! That Unison's matching lies between the bounds, and that it does what `UnisonReach.antt` and `Rules.antt` say: that was
//! observed. Of a line that bars changes on some paths the bounds are true only if Unison sees its arrow, which wants a space on
//! both sides; `hub_preferences` leaves the others out. That Unison reads the roots, the `path` lines and the other preferences as
//! hubsync does. Anything of runs in which someone chooses a direction by hand, and of missing parents of a `path`, which Unison
//! creates.
#![tactic(auto)]

mod copies;
mod kept;
pub mod laws;
mod owned;
mod reading;
mod set;
mod shared;
mod simple;
mod spare;
mod spares;
mod stars;
mod tops;

pub use reading::{cautious, lines_cut};
pub use set::read_set;
pub use shared::shared_archives;
pub use spare::{copy_of, spec_of_choices};
