//! Reconciliation: what two replicas differ in, and what one synchronization changes. docs/RECONCILIATION.md has the
//! rules.
//!
//! - [`Picture`]: what a profile knows of two replicas and of their archive: the [`Look`]s at each side.
//! - [`items`]: the least paths at which the sides differ, each with its [`Fate`]: the side that it goes to, or the
//!   [`Reason`] for skipping it.
//! - [`plan`]: the [`Change`]s of the items that aren't skipped, in the order in which they can be made.
//! - [`next_archive`]: the archive after these changes. [`items_and_archive`] is both at the cost of one.
//! - [`laws`]: what the crates above may conclude.
//!
//! The contracts use the words of `specs/Items` (items and their changes), `specs/Sync` (what one synchronization
//! leaves) and `specs/Shown` (the `specs/View` that a picture shows).
//!
//! Each of these calls goes once through the Looks of both sides and the marks of the archive, in the order of paths, and
//! copies no contents. Only functions that return a `Result` allocate. No crate above calls [`next_archive`] and
//! [`are_rising`]: they are for other programs.
//!
//! ```rust
//! looks.push(Look {
//!     path: &seen.path,
//!     mark: seen.mark,
//!     names: &[],
//!     others: seen.others,
//! })?;
//! ```
//!
//! From `test_jobs/src/reconciliation.rt`.
//!
//! # What is proved
//!
//! - The calls return the defined values of what the picture shows, whatever its Looks say.
//! - If all needed Looks at two replicas are made, in whatever order, they show the view of these replicas (law
//!   `looks_tell_the_view`). Then each change of the plan is carried out, and leaves what one synchronization leaves (laws
//!   `a_plan_synchronizes`, `a_new_archive_has_the_synced_marks`). There are at most as many changes as entries
//!   (`a_plan_is_within_its_replicas`).
//! - An item is `Blocked` exactly if its changes are allowed and one takes away a directory with a child that isn't reached (law
//!   `unreached_children_block_an_item`).
//!
//! # What is not
//!
//! That Unison does the same: docs/UNISON.md has what was seen.
#![tactic(auto)]

mod change;
mod fate;
mod group;
mod item;
pub mod laws;
mod look;
mod marks;
mod old_mark;
mod parent;
mod picture;
mod reconcile;
mod row;
mod table;

pub use change::Change;
pub use item::{Fate, Item, Reason};
pub use look::{Look, are_rising};
pub use picture::Picture;
pub use reconcile::{items, items_and_archive, next_archive, plan};
