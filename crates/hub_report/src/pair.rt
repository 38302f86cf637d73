//! Two profiles, by their numbers.
ghost use Rattle.std.specs.Prelude.{◌≡◌};
ghost use Rattle.hub_report.specs.Pairs as pairs;

/// Two profiles, by their numbers.
#[derive(Clone, Copy)]
pub(crate) struct Pair {
    pub(crate) writer: usize,
    pub(crate) other: usize,
}

/// Returns whether these two profiles are among the pairs, in either order.
pub(crate) fn are_joined(joined: &[Pair], pair: Pair) -> bool
    ensures { result ≡ pairs.are_joined joined.now pair }
{
    for own in joined {
        if is_same(*own, pair) {
            return true;
        }
    }
    false
}

/// Returns whether these are the same two profiles, in either order.
fn is_same(own: Pair, pair: Pair) -> bool
    ensures { result ≡ pairs.is_same own pair }
{
    (own.writer == pair.writer && own.other == pair.other)
        || (own.writer == pair.other && own.other == pair.writer)
}
