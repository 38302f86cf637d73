//! Lines by which a set of profiles and rules becomes safe. They only take away.
//!
//! - [`pieces_with_lines`] cuts a bundle into [`Piece`]s, and finds lines that are to follow them: an `ignore` line, a bar on a
//!   path, or a bar.
//! - [`mended_text`] is the bundle with these lines, and [`shown_lines`] are the lines, each behind the name of its profile.
//! - [`only_take_away`] says whether the profiles of that bundle only take away from those of the first one.
//!
//! ```rust
//! if !is_cut_into(bytes.as_slice(), pieces.as_slice()) {
//!     return Report::NotMended;
//! }
//! ```
//!
//! From `hub_serve/src/mend.rt`.
//!
//! What finds lines isn't trusted: its caller reads the bundle with them, compares the profiles, and checks the set. For Unison
//! two profiles are looked at without the rules, and one beside them, as `hub_apart` does; how many there are isn't limited. A profile has
//! `docs`, and another one `docs/lists`: the first gets `ignore = Path docs/lists`, and `noupdatepartial` and `nocreationpartial`
//! of `docs` at the root that both have.
//!
//! The contracts use the words of `specs/TakesAway` (when a profile only takes away from another one), `specs/Additions` (the
//! texts with lines) and `specs/Placed` (lines in the section of their profile).
//!
//! Only functions that return a `Result` allocate.
//!
//! # What is proved
//!
//! - If `only_take_away` returns true, each new profile has the name, the roots, the kept values, `force` and `prefer` of the old
//!   one, and reaches no path, writes no path and makes no change at a path that the old one doesn't.
//! - The texts are what their definitions say, and `is_cut_into` returns true only if the pieces are the whole bundle, each piece with
//!   lines is the section of the profile of its name, and each line is one line, an `ignore` line or a bar.
//!
//! # What is not
//!
//! Which lines are found, that each is needed, and that a `false` of `only_take_away` comes only where a profile takes more than
//! away: these are tested.
#![tactic(auto)]

mod asked;
mod below;
mod case;
mod cut;
mod find;
mod hidden;
mod line;
mod needless;
mod office;
mod piece;
mod placed;
mod proposals;
mod set;
mod shown;
mod subject;
mod takes_away;
mod text;

pub use find::pieces_with_lines;
pub use piece::Piece;
pub use takes_away::only_take_away;
pub use text::{is_cut_into, line_count, mended_text, safe_line, shown_lines};
