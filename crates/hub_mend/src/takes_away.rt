//! Whether profiles only take away from others.
ghost use Rattle.std.specs.Prelude.{◌≡◌, ◌∷◌, true};
ghost use Rattle.hub_path.specs.declared.side.Side.{Side as SideValue};
ghost use Rattle.hub_profile.specs.Parts.{some_passes, at_side};
ghost use Rattle.hub_profile.specs.declared.verb.Verb.{Verb};
ghost use Rattle.hub_reach.specs.Reach.{covers};
ghost use Rattle.hub_mend.specs.TakesAway as said;

use hub_profile::{Bars, Profile};
use hub_text::{Exact, are_equal, is_equal};

/// Returns whether each of the new profiles only takes away from the old one in its place. A `false` may also come where one
/// lacks an `ignore` line or a bar of the old one, has an `ignorenot` line that this one lacks, or has lines in another order.
///
/// It takes time linear in the profiles.
pub fn only_take_away(old: &[Profile], new: &[Profile]) -> bool
    ensures { result ≡ true → said.AllTakeAway old.now new.now }
{
    let mut olds = old;
    let mut news = new;
    while let Some((one, later_olds)) = olds.split_first() {
        let Some((other, later_news)) = news.split_first() else {
            return false;
        };
        if !only_takes_away(one, other) {
            return false;
        }
        olds = later_olds;
        news = later_news;
    }
    news.is_empty()
}

/// Returns whether the new profile only takes away, as far as its lines show.
pub(crate) fn only_takes_away(old: &Profile, new: &Profile) -> bool
    ensures { result ≡ true → said.TakesAway old.now new.now }
{
    holds_more(old, new)
}

/// Returns whether the new profile ignores and bars all that the old one does by the same lines, and is the same in all else.
fn holds_more(old: &Profile, new: &Profile) -> bool
    ensures { result ≡ true → said.HoldsMore old.now new.now }
{
    is_alike(old, new)
        && holds_all(new.ignore(), old.ignore())
        && holds_all(old.ignorenot(), new.ignorenot())
        && bars_hold(old, new)
        && holds_all(new.partial(), old.partial())
}

/// Returns whether the bars of the new profile on both roots forbid all that those of the old one do.
fn bars_hold(old: &Profile, new: &Profile) -> bool
    ensures { result ≡ true → said.BarsHold old.now new.now }
{
    let others = old.bars();
    let own = new.bars();
    hold_all(own, others)
}

/// Returns whether name, roots, kept values, `force` and `prefer` are the same.
fn is_alike(old: &Profile, new: &Profile) -> bool
    ensures { result ≡ true → said.IsAlike old.now new.now }
{
    is_equal(new.name(), old.name())
        && are_equal(new.roots().as_slice(), old.roots().as_slice())
        && are_equal(new.paths(), old.paths())
        && is_equal(&new.force(), &old.force())
        && is_equal(&new.prefer(), &old.prefer())
}

/// Returns whether a list has all items of another one, in the same order.
fn holds_all<T: Exact>(items: &[T], others: &[T]) -> bool
    ensures { result ≡ true → said.HoldsAll items.now others.now }
{
    let mut left = items;
    let mut rest = others;
    while let Some((item, later)) = left.split_first() {
        rest = rest_behind(rest, item);
        left = later;
    }
    rest.is_empty()
}

/// Returns a list without its first item, if that is this one, or else all of it.
fn rest_behind<'a, T: Exact>(items: &'a [T], item: &T) -> &'a [T]
    ensures { said.HoldsAll (item.now ∷ result.now) items.now }
{
    match items.split_first() {
        Some((first, rest)) if is_equal(first, item) => rest,
        _ => items,
    }
}

/// Returns whether bars on both roots forbid all that others do.
fn hold_all(bars: &[Bars; 2], others: &[Bars; 2]) -> bool
    ensures { result ≡ true → (side : SideValue) (verb : Verb)
        → some_passes (covers verb) (at_side others.now side) ≡ true
        → some_passes (covers verb) (at_side bars.now side) ≡ true }
{
    hold(bars[0], others[0]) && hold(bars[1], others[1])
}

/// Returns whether bars forbid all that others do.
fn hold(bars: Bars, others: Bars) -> bool
    ensures { result ≡ true → (verb : Verb) → covers verb others ≡ true → covers verb bars ≡ true }
{
    (bars.create || !others.create)
        && (bars.update || !others.update)
        && (bars.delete || !others.delete)
}
