ghost use Rattle.std.specs.Prelude.{◌≡◌};
ghost use Rattle.hub_reconcile.specs.Picture as spec;

use hub_path::{Name, RelPath};
use hub_tree::Mark;

/// What a profile sees at a path of a replica.
#[derive(Clone, Copy, Debug, Drop)]
pub struct Look<'a> {
    /// The path.
    pub path: &'a RelPath,
    /// The names of the children that the profile reaches. Nothing in this crate depends on them.
    pub names: &'a [Name],
    /// The mark of the path.
    pub mark: Mark,
    /// Whether the path has children that the profile doesn't reach. It is reported only if the profile writes the path.
    pub others: bool,
}

/// Returns whether Looks are in the order of their paths, each path once.
pub fn are_rising(looks: &[Look]) -> bool
    ensures { result ≡ spec.are_rising (spec.told_by looks.now) }
{
    let mut rest = looks;
    while let [first, after @ ..] = rest {
        if !is_before(first.path, after) {
            return false;
        }
        rest = after;
    }
    true
}

/// Returns whether the path is before that of the first Look, if there is one.
fn is_before(path: &RelPath, looks: &[Look]) -> bool
    ensures { result ≡ spec.is_before_looks path.now (spec.told_by looks.now) }
{
    match looks {
        [next, ..] => path.cmp(next.path).is_lt(),
        [] => true,
    }
}
