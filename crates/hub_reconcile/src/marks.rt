//! Marks, as paths are compared by them.
ghost use Rattle.std.specs.Prelude.{◌≡◌};
ghost use Rattle.hub_reconcile.specs.View as view;
ghost use Rattle.hub_reconcile.specs.Items as spec;

use hub_profile::Verb;
use hub_tree::Mark;

/// Returns whether two marks are the same. Files have the same mark if their digests are equal.
pub(crate) fn is_same(a: Mark, b: Mark) -> bool
    ensures { result ≡ view.mark_eq a b }
{
    a == b
}

/// Returns whether something is there.
pub(crate) fn is_present(mark: Mark) -> bool
    ensures { result ≡ view.is_present mark }
{
    match mark {
        Mark::File(_) => true,
        Mark::Directory => true,
        Mark::Absent => false,
    }
}

/// Returns whether it is a directory.
pub(crate) fn is_folder(mark: Mark) -> bool
    ensures { result ≡ view.is_folder mark }
{
    match mark {
        Mark::File(_) => false,
        Mark::Directory => true,
        Mark::Absent => false,
    }
}

/// Returns what a change does that replaces the old mark by the new one.
pub(crate) fn verb_of(old: Mark, new: Mark) -> Verb
    ensures { result ≡ spec.verb_of old new }
{
    if !is_present(old) {
        return Verb::Create;
    }
    if is_present(new) {
        Verb::Update
    } else {
        Verb::Delete
    }
}
