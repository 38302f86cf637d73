//! The value of a line that bars changes on some paths: `PATHSPEC -> ROOT`.
ghost use Rattle.std.specs.Prelude.{◌≡◌, false, chars, MatchOption};
ghost use Rattle.hub_profile.specs.Arrow as arrow;

use crate::line::trimmed;

/// What stands before the last arrow of a value, and what after it, where it has one.
pub fn parts_at_arrow(value: &str) -> Option<(&str, &str)>
    ensures { MatchOption result (arrow.has_arrow (chars value.now) ≡ false)
        (arrow.HasTextsAtArrow value.now) }
{
    value.rsplit_once("->")
}

/// The text of the specification and that of the root, where the value has an `->`. The last one separates them.
pub(crate) fn spec_and_root(value: &str) -> Option<(&str, &str)>
    ensures { MatchOption result (arrow.has_arrow (chars value.now) ≡ false)
        (arrow.CutsTextAtArrow value.now) }
{
    let (spec, root) = parts_at_arrow(value)?;
    Some((trimmed(spec), trimmed(root)))
}
