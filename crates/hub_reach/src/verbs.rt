//! Which changes a profile may make, and where it writes.
ghost use Rattle.std.specs.Prelude.{◌≡◌, ◌||◌, Some};
ghost use Rattle.std.specs.Option.{option_map};
ghost use Rattle.hub_profile.specs.Parts.{some_passes, at_side, is_root_at};
ghost use Rattle.hub_profile.specs.declared.verb.Verb.TheVariants.{Create, Update, Delete};
ghost use Rattle.hub_reach.specs.Bars as spec;
ghost use Rattle.hub_reach.specs.Reach as reach;

use hub_path::{RelPath, Root, Side};
use hub_profile::{Bars, Partial, Profile, Verb};

/// Returns whether a profile may make a change of that kind at a root.
///
/// It may not if its `force` names the root, or if one of its bars on the root forbids the change. Its `prefer` forbids
/// nothing, and its partial bars forbid nothing here; see [`may_at`]. At a root that isn't one of its two, nothing is
/// forbidden; see [`writes`]. (Unison manual, "Preferences".)
pub fn may(profile: &Profile, root: &Root, verb: Verb) -> bool
    ensures { result ≡ reach.may profile.now root.now verb }
{
    !(is_forced_root(profile, root) || is_barred(profile, root, verb))
}

/// Returns whether a profile may make a change of that kind at a path of a root.
///
/// It may not if it may not at the root, nor if one of its partial bars on the root forbids the change and matches the path.
/// None matches the whole replica. (This project's choice.)
pub fn may_at(profile: &Profile, root: &Root, path: &RelPath, verb: Verb) -> bool
    ensures { result ≡ reach.may_at profile.now root.now path.now verb }
{
    may(profile, root, verb) && !is_partly_barred(profile, root, path, verb)
}

/// Returns whether a profile writes at a root: the root is one of its roots, and some change is allowed there, whatever its
/// partial bars.
pub fn writes(profile: &Profile, root: &Root) -> bool
    ensures { result ≡ reach.writes profile.now root.now }
{
    profile.has_root(root) && may_change(profile, root)
}

/// Returns whether a profile writes at a path of a root: the root is one of its roots, and some change is allowed at the path.
pub fn writes_at(profile: &Profile, root: &Root, path: &RelPath) -> bool
    ensures { result ≡ reach.writes_at profile.now root.now path.now }
{
    profile.has_root(root) && may_change_at(profile, root, path)
}

/// Returns whether some change is allowed at the root.
fn may_change(profile: &Profile, root: &Root) -> bool
    ensures { result ≡ (reach.may profile.now root.now Create
        || reach.may profile.now root.now Update
        || reach.may profile.now root.now Delete) }
{
    may(profile, root, Verb::Create)
        || may(profile, root, Verb::Update)
        || may(profile, root, Verb::Delete)
}

/// Returns whether some change is allowed at the path of the root.
fn may_change_at(profile: &Profile, root: &Root, path: &RelPath) -> bool
    ensures { result ≡ (reach.may_at profile.now root.now path.now Create
        || reach.may_at profile.now root.now path.now Update
        || reach.may_at profile.now root.now path.now Delete) }
{
    may_at(profile, root, path, Verb::Create)
        || may_at(profile, root, path, Verb::Update)
        || may_at(profile, root, path, Verb::Delete)
}

/// Returns whether partial bars on the root forbid the change at the path.
fn is_partly_barred(profile: &Profile, root: &Root, path: &RelPath, verb: Verb) -> bool
    ensures { result ≡ reach.is_partly_barred profile.now root.now path.now verb }
{
    profile
        .partial()
        .iter()
        .any(|bar| is_partly_barred_by(profile, root, verb, path, bar))
}

/// Returns whether a partial bar is on the root, forbids the change and matches the path.
fn is_partly_barred_by(
    profile: &Profile,
    root: &Root,
    verb: Verb,
    path: &RelPath,
    bar: &Partial,
) -> bool
    ensures { result ≡ reach.is_partly_barred_by profile.now root.now verb path.now bar.now }
{
    is_root_at(profile, root, bar.side) && covers(verb, bar.bars) && bar.spec.matches(path)
}

/// The changes that aren't made at any path of the root of that side.
pub(crate) fn root_bars(profile: &Profile, side: Side) -> Bars
    ensures { Some result
        ≡ option_map (spec.root_bars profile.now) (at_side profile.now.roots side) }
{
    let root = profile.root(side);
    Bars {
        create: !may(profile, root, Verb::Create),
        update: !may(profile, root, Verb::Update),
        delete: !may(profile, root, Verb::Delete),
    }
}

/// Returns whether all differences are resolved in favour of the root.
fn is_forced_root(profile: &Profile, root: &Root) -> bool
    ensures { result ≡ reach.is_forced_root profile.now root.now }
{
    match profile.force() {
        Some(side) => is_root_at(profile, root, side),
        None => false,
    }
}

/// Returns whether bars on the root forbid the change.
fn is_barred(profile: &Profile, root: &Root, verb: Verb) -> bool
    ensures { result ≡ reach.is_barred profile.now root.now verb }
{
    is_barred_at(profile, root, verb, Side::Left) || is_barred_at(profile, root, verb, Side::Right)
}

/// Returns whether this is the root of that side, and the bars on it forbid the change.
fn is_barred_at(profile: &Profile, root: &Root, verb: Verb, side: Side) -> bool
    ensures { result ≡ reach.is_barred_at profile.now root.now verb side }
{
    is_root_at(profile, root, side) && is_covered_at(profile, verb, side)
}

/// Returns whether this is the profile's root of that side.
fn is_root_at(profile: &Profile, root: &Root, side: Side) -> bool
    ensures { result ≡ is_root_at profile.now root.now side }
{
    root == profile.root(side)
}

/// Returns whether the bars of that side forbid the change.
fn is_covered_at(profile: &Profile, verb: Verb, side: Side) -> bool
    ensures { result ≡ some_passes (reach.covers verb) (at_side profile.now.bars side) }
{
    match bars_at(profile, side) {
        Some(bars) => covers(verb, bars),
        None => false,
    }
}

/// Returns the bars of that side: each side has some.
fn bars_at(profile: &Profile, side: Side) -> Option<Bars>
    ensures { result ≡ at_side profile.now.bars side }
{
    match side {
        Side::Left => profile.bars().get(0).copied(),
        Side::Right => profile.bars().get(1).copied(),
    }
}

/// Returns whether bars forbid a change of that kind.
pub(crate) fn covers(verb: Verb, bars: Bars) -> bool
    ensures { result ≡ reach.covers verb bars }
{
    match verb {
        Verb::Create => bars.create,
        Verb::Update => bars.update,
        Verb::Delete => bars.delete,
    }
}
