//! Sets of any size, judged part by part.
//!
//! A set is safe exactly when no different roots are nested, each two of its profiles are safe, and each profile is safe with the
//! rules. Each part can be searched by itself, with the characters and the limits of its own. Most pairs of profiles need no
//! search: two can only clash if they are near, that is if a kept value of one is over one of the other, or is the same.
//!
//! [`pairs_of_profiles`] returns the pairs of near profiles. A kept value at a root is one path from the top of the file system,
//! so values at equal and at nested roots are compared alike. All values are sorted and swept once, with a stack of those over the
//! last one. The cost is n log n comparisons of paths for n values, and m log m steps for m near pairs of values.
//!
//! Three profiles keep all of `/srv/hub` (number 0), `/srv/hub/docs` (1), and all of `/srv/hub/home` (2), each beside a folder of
//! its own. Then 0 and 1 are near, and 0 and 2, whatever the roots are. 1 and 2 are not: they can't clash.
//!
//! Where roots are nested, paths are counted from the upper root, and the lower profile is asked about its own paths. Reading it
//! there with longer kept values would be wrong: `specs/examples/NestedRoots` has such a case.
//!
//! The contracts use the words of `specs/Whole` (parts of a set), `specs/InUnison` (the same in Unison), `specs/Values` and
//! `specs/Near` (the sweep), `specs/Clashing` and `specs/Listed` (lists of pairs, and what they are enough for), `specs/Nested`
//! and `specs/Anywhere` (clashes and breaches where roots may be nested). Only functions that return a `Result` allocate.
//!
//! # What is proved
//!
//! - [`pairs_of_profiles`] returns the pairs of all near profiles, once each and in ascending order (`AreNearPairs`).
//! - Where no different roots are nested, a set is safe exactly when its parts are, with all rules or with one at a time (law
//!   `a_set_is_safe_by_its_parts`). Whether different roots are nested is a matter of parts, too (`roots_are_apart_by_parts`).
//! - Only near profiles clash, also at nested roots (`only_near_profiles_clash`). So of all pairs the near ones are enough
//!   (`listed_pairs_are_enough`).
//! - In Unison no two profiles clash and no rule is broken if each part has safe readings of its own: two profiles cautious ones,
//!   a profile one for each rule (`parts_are_safe_in_unison`). Of the pairs, those whose cautious readings are near are enough.
//! - The same holds wherever the roots lie (`listed_pairs_are_enough_at_any_roots`, `readings_keep_rules_at_any_roots`). For a
//!   set this is the safety of a set (`a_set_is_safe_anywhere`).
//!
//! # What is not
//!
//! No search of a clash at nested roots: `hub_search` compares paths of one root. That no two profiles have the same two roots is
//! asked of all pairs: `hub_unison::shared_archives` says which do.
#![tactic(auto)]

mod kept_value;
pub mod laws;
mod pairs;
mod sweep;
mod values;

pub use pairs::pairs_of_profiles;
