//! Remarks on roots that lie within each other.

use hub_source::{Said, Source};
use std::alloc::AllocError;
use std::collections::BTreeSet;

/// How many pairs of roots are listed at most, besides the one that the answer names.
const LISTED: usize = 10;

/// Pairs of roots that are said.
#[derive(Drop)]
struct Pairs<'a> {
    /// The roots of the pair that the answer names.
    named: [&'a str; 2],
    /// How many others there were.
    count: usize,
}

/// Says which roots lie within which others, but for the two that the answer names.
pub(crate) fn say_other_nested(
    out: &mut String,
    source: &Source<'_>,
    first: &str,
    second: &str,
) -> Said {
    let roots = roots_in(source)?;
    let mut pairs = Pairs {
        named: [first, second],
        count: 0,
    };
    for root in roots.iter() {
        say_roots_over(out, &roots, *root, &mut pairs)?;
    }
    match pairs.count.saturating_sub(LISTED) {
        0 => Ok(()),
        more => writeln!(out, "hubsync: more pairs of nested roots: {more}"),
    }
}

/// The roots that lines set, each once, without a `/` at the end.
fn roots_in<'a>(source: &Source<'a>) -> Result<BTreeSet<&'a str>, AllocError> {
    let mut roots = BTreeSet::new(source.alloc());
    for line in source.lines() {
        if let Some(root) = line.value_of("root") {
            roots.insert(without_slash(root))?;
        }
    }
    Ok(roots)
}

/// A root's text without a `/` at the end, if it is longer than that.
fn without_slash(root: &str) -> &str {
    match root.strip_suffix('/') {
        Some("") | None => root,
        Some(shorter) => shorter,
    }
}

/// Says which of these roots lie over that one.
fn say_roots_over(
    out: &mut String,
    roots: &BTreeSet<&str>,
    root: &str,
    pairs: &mut Pairs<'_>,
) -> Said {
    for (at, byte) in root.bytes().enumerate() {
        if byte == b'/' {
            let outer = root.get(..at.max(1)).unwrap_or("");
            if outer != root && roots.contains(outer) {
                say_pair(out, outer, root, pairs)?;
            }
        }
    }
    Ok(())
}

/// Says that one root lies within another one, unless that was said or enough are.
fn say_pair(out: &mut String, outer: &str, inner: &str, pairs: &mut Pairs<'_>) -> Said {
    let [first, second] = pairs.named;
    if [first, second] == [outer, inner] || [second, first] == [outer, inner] {
        return Ok(());
    }
    pairs.count = pairs.count.saturating_add(1);
    if pairs.count > LISTED {
        return Ok(());
    }
    writeln!(out, "hubsync: nested, too: {outer} and {inner}")
}
