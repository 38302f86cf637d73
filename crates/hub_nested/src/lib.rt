//! Profiles and rules whose roots are nested, as sets that are searched like any other.
//!
//! One profile keeps `/srv/hub`, another `/srv/hub/home/al`. Where they meet, all paths are counted from the upper root,
//! `/srv/hub`. The lower profile is said from there: its kept values, and the patterns of its `Path` and `BelowPath` lines,
//! get `home/al/` in front. What `Name` lines match is the same from every root. Each profile of the set has this root alone
//! in common with the other; its second root is one with which nothing is nested.
//!
//! - [`meet`] returns how two profiles meet at a root of each: as a set of both ([`Together`]), which clashes if they do.
//! - [`meet_rule`] returns how a profile and a rule meet ([`Under`]). A rule whose root lies below is said from the profile's
//!   root, and the profile keeps only what is at or below that of the rule.
//!
//! A profile that keeps its whole replica gets the kept value `home/al`. It reaches what is below, and only passes through
//! `home/al` itself: so `ignorenot = Path home/al` spares that from lines as `ignore = Name al`, and bars of both roots forbid
//! changes there. Said by longer kept values alone, a profile may reach too little, and the search would miss clashes
//! (`hub_parts`, `specs/examples/NestedRoots`).
//!
//! `Apart` says that no path is below both roots, or that the profile keeps nothing below the rule's. `Unsaid` says that a
//! pattern can't be written: it has too many characters with the names in front, or by itself, since all patterns are copied
//! by writing and reading them. A rule at `/` is `Unsaid` too: all roots are nested with it.
//!
//! Both allocate, and return an error only if there is no memory.
//!
//! The contracts use the words of `specs/Meeting` (what is returned), `specs/Lifted` (profiles and rules said from above),
//! `specs/Placed` (the second root), and `specs/Through` (clashes with what a profile passes through). `specs/Said` has those
//! of the parts of a profile that is said from above, and `specs/examples/LiftedProfiles` worked values.
//!
//! # What is proved
//!
//! - [`meet`] and [`meet_rule`] return what their definitions say, if there is memory.
//! - Profiles that are `Apart` don't clash at these roots. Those that clash there also clash in the set, the first with the
//!   second or the second with the first (law `clashes_are_counted_from_the_upper_root`).
//! - The set says little more: where it clashes, one profile writes over what the other reaches, or over a root at which the
//!   other keeps its whole replica (`counted_clashes_are_at_the_roots`).
//! - A profile and a rule that are `Apart` breach nothing at this root. If the profile ignores nothing, each breach there is
//!   one of the set (`breaches_are_counted_from_the_upper_root`).
//!
//! # What is not
//!
//! Which patterns are `Unsaid` is said by `hub_unison`'s `is_read_back`, not by a count of characters. Nothing here says which
//! roots of two profiles are nested, nor searches: `hub_search` does, with what is returned.
#![tactic(auto)]

mod below;
pub mod laws;
mod meeting;
mod pieces;
mod placed;
mod rule_meeting;
mod said;

pub use meeting::{Meeting, Together, meet};
pub use rule_meeting::{RuleMeeting, Under, meet_rule};
