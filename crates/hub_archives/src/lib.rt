//! Profiles by which Unison would synchronize its own archives.
//!
//! Unison keeps its archives in the folder of the profiles, and writes them while it runs. If that folder lies in a root of a
//! profile, and the profile reaches it, two runs change what the third one reads: nothing is safe then.
//!
//! - [`find_archives`] returns the first profile of a bundle that may reach something in one of these folders.
//! - [`find_folded_archives`] returns the first profile of a set by which names fold that may reach something there under another
//!   spelling: by `path = .UNISON`, say. It takes the folded profiles of the set.
//!
//! ```rust
//! find_archives(alloc, caseless.as_slice(), folders)
//! ```
//!
//! From `hubsync/src/bundled.rt`.
//!
//! The profile of `/home/eva` and `/srv/backup/eva` has the folder `/home/eva/.unison` in a root. With `ignore = Path .unison`, or
//! with `path` lines for other folders alone, it keeps the archives out.
//!
//! The contracts use the words of `specs/KeptOut` (which profiles keep a folder out), `specs/Found` (the same of a bundle) and
//! `specs/Folded` (the same where names fold). Only functions that return a `Result` allocate.
//!
//! # What is proved
//!
//! - Where `find_archives` finds none, Unison reaches nothing at or below these folders by any profile of the bundle that can be
//!   read, however it matches paths within the bounds of hub_unison.
//! - What it finds is true: the folder is in that root of that profile, and the cautious reading reaches it, or keeps a value at or
//!   below it.
//! - Where `find_folded_archives` finds none, Unison reaches nothing that is at or below these folders up to folding, by any profile of
//!   the set by which names fold. It may fold unknown names and lines to anything (`IsNormOf` of hub_folded).
//! - What that finds is true, too: the names of that profile's host fold, the folder is in a root of it, and the cautious reading of the
//!   folded lines reaches the folded path, or keeps a value at or below it. Or it isn't known that each name of the path folds to a name.
//!
//! # What is not
//!
//! That Unison keeps its archives there: it does unless the variable `UNISON` names another folder (Unison manual, "The .unison
//! Directory"). Nothing is said of archives on other machines.
//!
//! Whether a folder lies in a root is seen by their names as they stand: `/home/eva/.unison` isn't in the root `/home/EVA`, also where
//! names fold. `find_folded_archives` says nothing of a profile by which names don't fold, and `find_archives` nothing of folded names.
#![tactic(auto)]

mod folded;
mod found;
mod held;
mod names;

pub use folded::find_folded_archives;
pub use found::{HeldArchives, find_archives};
