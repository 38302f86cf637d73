//! What Unison may do with profiles where names that differ in case or accents are one name.
//!
//! On Windows and macOS, and with `ignorecase = true`, Unison 2.52 takes `Docs` and `docs` for one folder: it folds the names of
//! paths, and the lines of profiles. [`folded_set`] returns the profiles of a set with folded lines, and [`folded_rules`] its rules
//! with folded patterns, where the names of some hosts fold. [`fold_name`] folds a name, [`fold_spec`] a specification, and [`knows`]
//! says whether it is known what a name folds to. [`find_spelled_twice`] finds roots that may be one folder. The [`laws`] are theorems
//! about profiles that are read by folded lines.
//!
//! ```rust
//! let members = members_of(alloc, text.as_str(), folds, other_folds)?;
//! let set = folded_set(alloc, members)?;
//! ```
//!
//! From `test_folded/src/profiles.rt`.
//!
//! A `Folding` (`specs/Fold`) says what characters fold to, as far as it is known. `unicode` (`specs/Table`) is that of Unicode mode,
//! and `latin` that of `unicode = false`. `specs/Lines` says what becomes of the lines of a profile, `specs/Rules` which rules a set
//! can't have, `specs/InUnison` what Unison reaches and writes at names up to folding, `specs/Read` what readings show, and `specs/Roots`
//! which roots are spelled in two ways.
//!
//! - `safe_folded_readings_are_safe_in_unison`: if the readings of the folded lines are a safe set, no two of the profiles clash at
//!   names up to folding, and by none of them Unison breaks a rule.
//! - `readings_of_folded_lines_hold_in_unison`: the readings that `hub_unison` makes of folded lines are such readings.
//! - `what_is_safe_folded_is_safe_as_seen`: the same of names that are one, of rules as they stand, and of roots that may be one
//!   folder.
//! - `what_holds_of_folded_lines_holds_up_to_folding`, `what_is_safe_folded_is_safe_anywhere`: both, of the readings that
//!   `hub_unison::read_set` returns if it is given the folded profiles and rules of a set.
//! - `without_folded_names_nothing_changes`: a set in which no names fold is read as it is.
//! - `roots_that_are_told_apart_are_roots_of_their_own`: if no root of a set is spelled in two ways, the known roots of its profiles and
//!   rules that are one up to folding are one, so no two profiles clash at such roots, and rules hold at them.
//!
//! Of a kept value with an unknown name only the part before it is kept, and nothing is ignored. An unknown `ignore` line, or bar
//! on paths, is left out, and with an unknown `ignorenot` line nothing is ignored. A profile of a host whose names don't fold, in a
//! set with others, ignores nothing: each path of it is one of several spellings.
//!
//! Only functions that return a `Result` allocate.
//!
//! # What is proved
//!
//! - [`fold_name`] returns what `unicode` makes of a name, or is out of memory. [`knows`] returns whether `unicode` knows the name.
//!   [`fold_spec`] returns what `unicode` makes of a specification, if that is known and a line can say it.
//! - [`folded_set`] returns `folded_set unicode` of the members, or is out of memory: each kept value, `ignore` and `ignorenot` line, and
//!   bar on paths is as `specs/Lines` says, and all else of a profile stays. If no names fold, the profiles stay as they are.
//! - [`folded_rules`] returns `folded_rules unicode` of the rules. If some names fold, all of these are known, and hold for each spelling.
//!   A fault comes only if some names fold: `UnknownRule` names the first rule that isn't known or foldable, and `UnwrittenRules` comes
//!   only if there is no such rule, but no line can say one of the folded ones (`IsRefused`).
//! - If some names fold, the readings of the folded profiles beside the folded rules hold for the set up to folding. If they are a safe set
//!   and no two have the same two roots, no two of the profiles clash in Unison, and by none of them Unison breaks a rule, as it is folded or
//!   as it stands (`IsSafeWhereRead`).
//! - [`find_spelled_twice`] returns two known roots of which the first is the second one, or is over it, when both are folded, but not as
//!   they are spelled (`IsSpelledTwice`). If there are none (`AreToldApart`), no two profiles of a safe set clash at known roots that are
//!   one up to folding, and no rule is broken at a spelling of its root that a profile has.
//! - [`read_folded_set`] returns readings that hold for a set, if it is given the folded profiles and rules of the set.
//! - What Unison folds by is any function of names and any function of the texts of lines. No more is assumed of them than what
//!   they make of known names and of known lines (`IsNormOf`). The folding itself is such a one (`a_folding_is_met`), so no law
//!   is empty.
//! - Folded lines are lines of a profile (`folded_lines_are_lines_of_a_profile`). In both modes patterns fold as names do
//!   (`both_modes_fold_texts`), so a rule without `?` holds for each spelling of a path that it matches
//!   (`rules_hold_for_each_spelling`).
//! - Wrong readings are refused by worked values (`specs/examples`): an unknown `ignore` line that is kept, the known part of a
//!   kept value with its `ignore` lines, a profile whose names don't fold read as if they did, a rule with `?`.
//!
//! # What is not
//!
//! Latin-1 mode has no code: `latin` is a definition. Which hosts' names fold: a [`Member`] says so.
//! That Unison folds so: that was observed with Unison 2.52.1, name by name for all characters below U+20000. Anything of names
//! that fold to nothing, to dots or to a forbidden character, of roots with an unknown name, and of disks that take two names as one
//! that Unison takes as two.
//! That the text of a folded pattern spells the folded specification. The table is data, which `tools/fold-table` writes.
#![tactic(auto)]

mod fault;
mod fold;
mod foldable;
mod high;
pub mod laws;
mod line;
mod lines;
mod marks;
mod member;
mod pattern;
mod pieces;
mod profile;
mod ranges;
mod roots;
mod rules;
mod set;
mod table;
mod tops;
mod values;

pub use fault::FoldFault;
pub use fold::{fold_name, knows};
pub use lines::fold_spec;
pub use member::{Member, folded_set, some_fold};
pub use roots::find_spelled_twice;
pub use rules::folded_rules;
pub use set::read_folded_set;
