//! What clashes in profiles, found of one and two profiles at a time.
//!
//! Two profiles may not run at the same time if a root of one lies within a root of the other. So they are no set, but they may
//! run one after another. For Unison only near profiles are searched together, and rules have no part in that. There nested roots
//! are searched, too: each two of them as a set of its own, counted from the upper one (`hub_nested`).
//!
//! - [`are_put_apart`] says whether nested roots are all that keeps profiles and rules from being a set.
//! - [`lines_apart`] returns the lines of [`Apart`] profiles: each profile is searched with the rules, and each two together. Two
//!   with nested roots aren't searched, and have one line.
//! - [`lines_in_unison`] returns the lines of profiles as Unison may run them. Each two near profiles are searched by their
//!   cautious readings and without rules; each profile is searched with the rules by its reading beside them. How many profiles
//!   there are isn't limited, and each part has an alphabet of its own. In a line of two with nested roots, paths are counted from
//!   the root of the one that writes; in one of a rule, from the rule's root.
//! - [`Apart::with_pairs`] adds a line for each two that may not run at the same time for another reason, as an archive of Unison
//!   that they share.
//! - [`Apart::by_writer`] puts the lines in the order of a set's: clashes by who writes, then what is about one profile alone.
//!
//! ```rust
//! if !are_put_apart(profiles.as_slice(), rules.as_slice()) {
//!     return shown(alloc, &"not apart");
//! }
//! apart_text(alloc, lines_apart(alloc, profiles, rules))
//! ```
//!
//! From `test_checker/src/rounds.rt`.
//!
//! Two profiles keep folders of `/srv/hub` and of `/srv/hub/home`: their line says that the clash of 0 and 1 has no
//! certificate. A third one, of `/srv/s1`, has no line with them. By these lines `hub_rounds::rounds_by_lines` cuts the
//! profiles into rounds, here two. Each round is a set again.
//!
//! The cost of [`lines_apart`] is that of a set for each two profiles, so it grows with the square of their number. That of
//! [`lines_in_unison`] is that of a set for each two near profiles and, if there are rules, of one for each profile.
//!
//! Two profiles keep `docs` and `mail` of one hub, each beside a folder of its own, and a rule forbids deletions in `mail`. The
//! two aren't near, so they have no line in Unison. A third one keeps `docs/a`: it is searched with the first one, by lines that
//! Unison surely reads as hubsync does. With the rule each is searched alone, as if it ignored nothing.
//!
//! The contracts use the words of `specs/Apart` (which profiles have nested roots), `specs/ApartLines` (which lines they have),
//! `specs/UnisonLines` (which lines they have in Unison), `specs/NestedLines` (those at nested roots), `specs/WithoutLines` (what it
//! says that a line isn't there), `specs/UnsafeParts` (what it says that a line shows a path) and `specs/Ordered` (the order of lines).
//! Only functions that return a `Result` allocate.
//!
//! # What is proved
//!
//! - `are_put_apart`, `has_nested` and `has_namesakes` return what their definitions say. Without nested roots of two profiles no
//!   two different roots of all are nested (law `profiles_without_nested_roots_are_apart`).
//! - `lines_apart` returns exactly the lines of each profile and of each two (`AreLinesApart`), or why there are none: too many
//!   characters are mentioned, or a profile or rule has too many spots.
//! - `lines_in_unison` returns exactly the lines of each near pair and of each profile with the rules (`AreLinesInUnison`), or the
//!   fault by which one of these is no set (`IsRefusedInUnison`).
//! - Two profiles that no such line is about don't clash in Unison, wherever their roots lie, if they don't have the same two
//!   roots. A profile that no line is about alone keeps all rules in Unison, also those of roots above and below its own (law
//!   `profiles_without_lines_are_safe_in_unison`). So the profiles of a round are safe in Unison (`rounds_without_lines_are_safe_in_unison`), and so are all if there is no line
//!   (`profiles_and_rules_without_lines_are_safe_in_unison`).
//! - A line in Unison with a path shows two profiles by their cautious readings, or one with the rules by its reading beside them,
//!   that make no safe set, if need be counted from an upper root (law `lines_show_unsafe_parts`).
//! - `with_pairs` appends exactly the lines of these pairs.
//! - `by_writer` returns the same lines, by the number of who writes, and then those about no two profiles. Lines of one writer
//!   keep their order, and so do those.
//!
//! # What is not
//!
//! That paths that are too long to be counted from an upper root clash: such two have a line without a path, and such a rule one as
//! if it were too large. In Unison it is asked of near profiles alone whether they have one name: [`has_namesakes`] asks it of all. Whether two have the same two roots is asked of `hub_unison::shared_archives`. How long it takes
//! isn't proved.
#![tactic(auto)]

mod apart;
mod beside;
pub mod laws;
mod lines;
mod nested;
mod ordered;
mod pairs;
mod ruled;
mod searched;
mod unison;

pub use apart::{are_put_apart, has_namesakes, has_nested};
pub use searched::{Apart, lines_apart};
pub use unison::lines_in_unison;
