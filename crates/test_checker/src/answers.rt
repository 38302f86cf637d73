//! Answers of more than one word, and hashes.
use anyhow::Result;
use std::alloc::Global;
use std::hash::{DefaultHasher, Hash, Hasher};
use test_kit::word_of;

/// The answers to whether two things hold.
pub(crate) fn both(alloc: Global, holds: bool, other: bool) -> Result<String> {
    let first = word_of(holds);
    let second = word_of(other);
    Ok(format!(in alloc; "{first}, {second}")?)
}

/// Returns whether two values are hashed alike.
pub(crate) fn hash_alike<T: Hash, U: Hash>(value: &T, other: &U) -> bool {
    hash_of(value) == hash_of(other)
}

fn hash_of<T: Hash>(value: &T) -> u64 {
    let mut state = DefaultHasher::new();
    value.hash(&mut state);
    state.finish()
}
