//! Which two profiles of a set have kept values over one another.
ghost use Rattle.std.specs.Prelude.{◌≡◌, ◌<◌, IfOk, length, take};
ghost use Rattle.hub_cert.specs.Apart as values;
ghost use Rattle.hub_cert.specs.Nearness as near;
ghost use Rattle.hub_cert.specs.Set.{OfMembers};
ghost use Rattle.hub_cert.specs.declared.goal.Goal.TheVariants.{Breach, Clash};
ghost use Rattle.hub_cert.specs.declared.goal.Place.{Place};

use crate::goal::Goal;
use crate::set::kept_values::KeptValues;
use crate::set::{ProfileSet, profile_and_rule};
use hub_fronts::may_meet_one;
use hub_profile::{Profile, Rule};
use hub_text::Items;
use std::alloc::{AllocError, Global};
use std::marker::Model;

/// Which two profiles of a set are near: a kept value of one is over one of the other, or the other way round.
///
/// It is made once for a set, so that kept values are compared once for each two profiles and not for each goal.
#[derive(Drop)]
pub struct Nearness<'a> {
    set: &'a ProfileSet,
    /// For each profile, whether it is near each profile.
    rows: Items<Items<bool>>,
}

impl<'a> Model for Nearness<'a> {
    ghost use Rattle.std.specs.Prelude.{◌≡◌};
    ghost use Rattle.hub_cert.specs.Set.{Members};
    ghost use Rattle.hub_cert.specs.Nearness.{kept_values, near_rows};

    ghost Value = { Members };

    ghost view = { λ n. n.set.now };

    ghost invariant = { λ n. n.rows
        ≡ near_rows (kept_values n.set.now.profiles) (kept_values n.set.now.profiles) };
}

impl<'a> Nearness<'a> {
    /// Compares the kept values of each two profiles of a set. The error comes when memory runs out.
    ///
    /// It sorts the kept values of each profile once. Then two profiles take as many steps as they have kept values together, and a
    /// step compares two paths.
    pub fn of(alloc: Global, set: &'a ProfileSet) -> Result<Nearness<'a>, AllocError>
        ensures { IfOk result (λ n. n ≡ set.now) }
    {
        let lists = lists_of(alloc, set.profiles())?;
        let rows = rows_of(alloc, lists.as_slice())?;
        Ok(Nearness { set, rows })
    }

    /// Borrows the set.
    pub(crate) fn set(&self) -> &'a ProfileSet
        ensures { result.now ≡ self.now }
    {
        self.set
    }

    /// Returns whether kept values alone rule out the goal, as [`safe_by_values`](crate::safe_by_values) says. A clash takes two
    /// look-ups.
    pub fn is_apart(&self, goal: Goal) -> bool
        ensures { result ≡ values.is_apart_goal self.now goal }
    {
        match goal {
            Goal::Clash { writer, other, .. } => self.is_apart_clash(writer, other),
            Goal::Breach { profile, rule } => {
                is_apart_breach(self.set.profiles(), self.set.rules(), profile, rule)
            }
        }
    }

    /// Returns whether kept values alone rule out the clashes of that writer with that other profile.
    fn is_apart_clash(&self, writer: usize, other: usize) -> bool
        ensures { (place : Place) → result
            ≡ values.is_apart_goal self.now (Clash writer other place) }
    {
        if writer == other {
            return false;
        }
        match entry_at(self.rows.as_slice(), writer, other) {
            Some(is_near) => !is_near,
            None => false,
        }
    }
}

/// Returns whether kept values alone rule out that breach.
fn is_apart_breach(profiles: &[Profile], rules: &[Rule], profile: usize, rule: usize) -> bool
    ensures { OfMembers profiles.now rules.now
        (λ S. result ≡ values.is_apart_goal S (Breach profile rule)) }
{
    match profile_and_rule(profiles, rules, profile, rule) {
        Some((profile, rule)) => !may_meet_one(&rule.spec, profile.paths()),
        None => false,
    }
}

/// Returns the entry of that row at that place, if there is one.
fn entry_at(rows: &[Items<bool>], row: usize, place: usize) -> Option<bool>
    ensures { result ≡ near.entry_at rows.now row place }
{
    match rows.get(row) {
        Some(row) => row.as_slice().get(place).copied(),
        None => None,
    }
}

/// Returns the kept values of each profile.
fn lists_of<'a>(alloc: Global, profiles: &'a [Profile]) -> Result<Items<KeptValues<'a>>, AllocError>
    ensures { IfOk result (λ ls. ls ≡ near.kept_values profiles.now) }
{
    let mut lists = Vec::with_capacity(alloc, profiles.len())?;
    for profile in profiles {
        lists.push(KeptValues::of(alloc, profile.paths())?)?;
    }
    Ok(Items::from_vec(lists))
}

/// Returns for each of the lists whether it is near each of them.
fn rows_of(alloc: Global, lists: &[KeptValues<'_>]) -> Result<Items<Items<bool>>, AllocError>
    ensures { IfOk result (λ rows. rows ≡ near.near_rows lists.now lists.now) }
{
    let mut rows = Vec::with_capacity(alloc, lists.len())?;
    for first in 0..lists.len() {
        let row = row_of(alloc, lists, rows.as_slice(), first)?;
        rows.push(row)?;
    }
    Ok(Items::from_vec(rows))
}

/// Returns for each of the lists whether it is near that list. These are the rows of the lists before that one.
fn row_of(
    alloc: Global,
    lists: &[KeptValues<'_>],
    rows: &[Items<bool>],
    first: usize,
) -> Result<Items<bool>, AllocError>
    requires first { first < length lists.now }
    requires rows { rows.now ≡ near.near_rows lists.now (take first lists.now) }
    ensures { IfOk result (λ row. near.IsRowAt lists.now first row) }
{
    let mut row = Vec::with_capacity(alloc, lists.len())?;
    for second in 0..lists.len() {
        row.push(are_near_at(lists, rows, first, second))?;
    }
    Ok(Items::from_vec(row))
}

/// Returns whether two lists are near. These are the rows of the lists before the first one: if they tell it, nothing is compared.
fn are_near_at(lists: &[KeptValues<'_>], rows: &[Items<bool>], first: usize, second: usize) -> bool
    requires first { first < length lists.now }
    requires second { second < length lists.now }
    requires rows { rows.now ≡ near.near_rows lists.now (take first lists.now) }
    ensures { near.AreNearAt lists.now first second result }
{
    match entry_at(rows, second, first) {
        Some(is_near) => is_near,
        None => lists[first].are_near(&lists[second]),
    }
}
