//! Bundles of profiles by which names fold, as `Docs` and `docs` are one name on Windows and macOS.
//!
//! - [`respelled`] returns what stands in the place of a bundle that is read for Unison ([`Spelling`]): if names fold by some of its
//!   profiles, one with folded lines, of which the answers for Unison hold up to folding.
//! - [`caseless`] returns the bundle without the lines by which names fold.
//!
//! ```rust
//! match respelled(rt.alloc(), bundle, folders) {
//! ```
//!
//! From `hubsync/src/spelled.rt`.
//!
//! By `ignorecase = true` or `fat = true` the names of a profile fold, unless a line beside it makes that unclear: another value, or
//! `unicode = false`. Such a profile keeps its lines, so whoever reads it refuses it.
//!
//! The contracts use the words of `specs/Case` (what a line says), `specs/Caseless` (the bundle without such lines), `specs/Members` (the
//! profiles, each with whether its names fold) and `specs/Respelled`. Only functions that return a `Result` allocate.
//!
//! # What is proved
//!
//! - A folded bundle says the folded profiles and rules of what the other lines of the bundle say that count, as `hub_folded` folds
//!   them, and all its lines count. By none of the profiles by which names fold Unison reaches its archives in the folders.
//! - If the profiles of a folded bundle are safe in Unison, no two of those of the bundle clash in Unison at names up to folding, and if
//!   they keep its rules, none of them breaks a rule ([`laws`]).
//! - The same holds at roots that are one up to folding, if all their names are known.
//! - A fault comes only if names fold, `UnknownRule` only with the first rule that isn't known or foldable, and `SpelledTwice` only with
//!   two roots of which one is over the other up to folding alone.
//!
//! # What is not
//!
//! Why no bundle says what is folded: `Unwritten` may come at any bundle by which names fold. That a bundle by which no names fold has a
//! profile of a host whose names fold: its lines must say so.
#![tactic(auto)]

mod case;
mod comments;
mod fault;
mod folded;
pub mod laws;
mod members;
mod roots;

pub use comments::caseless;
pub use fault::RespellFault;
pub use folded::{Spelling, respelled};
