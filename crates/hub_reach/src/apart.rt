//! Kept values that lie over one another.
ghost use Rattle.std.specs.Prelude.{◌≡◌};
ghost use Rattle.hub_reach.specs.Apart as apart;

use hub_path::RelPath;

/// Returns whether one of these paths is over one of those, or the other way round.
pub fn are_near(these: &[RelPath], those: &[RelPath]) -> bool
    ensures { result ≡ apart.are_near these.now those.now }
{
    these.iter().any(|path| is_near_one(path, those))
}

/// Returns whether the path is over one of those, or one of them is over it.
fn is_near_one(path: &RelPath, those: &[RelPath]) -> bool
    ensures { result ≡ apart.is_near_one path.now those.now }
{
    those.iter().any(|other| is_near(path, other))
}

/// Returns whether one of the two paths is over the other one.
fn is_near(one: &RelPath, other: &RelPath) -> bool
    ensures { result ≡ apart.is_near one.now other.now }
{
    other.starts_with(one) || one.starts_with(other)
}
