//! Which known word was meant.

use hub_source::{Said, nearest, say};
use std::alloc::Global;

/// Says which of the known words was meant, or else these words.
pub(crate) fn say_nearest(
    out: &mut String,
    alloc: Global,
    word: &str,
    known: &[&str],
    otherwise: &str,
) -> Said {
    match nearest(alloc, word, known)? {
        Some(near) => writeln!(out, "hubsync: did you mean {near}?"),
        None => say(out, otherwise),
    }
}
