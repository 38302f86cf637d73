//! The places that profiles of a set share, by the numbers of their roots.
ghost use Rattle.std.specs.Prelude.{◌≡◌, ◌∷◌, [], Some, IfOk, OnOk, slice_get};
ghost use Rattle.hub_reach.specs.Numbering.{IsEachOnce};
ghost use Rattle.hub_cert.specs.Goals as of_goals;
ghost use Rattle.hub_cert.specs.Goals.{AddsGoals, clashes_between, clashes_by};
ghost use Rattle.hub_cert.specs.Places as numbered;
ghost use Rattle.hub_cert.specs.declared.goal.Goal.TheVariants.{Clash};

use crate::goal::{Goal, Place};
use crate::set::ProfileSet;
use hub_path::{Root, Side};
use hub_profile::Profile;
use hub_reach::writes;
use indexmap::IndexSet;
use std::alloc::{AllocError, Global};
use std::marker::Model;

/// The numbers of a profile's roots, and at which of them it writes.
#[derive(Clone, Copy)]
pub(crate) struct RootNumbers {
    pub(crate) left: usize,
    pub(crate) right: usize,
    pub(crate) writes_left: bool,
    pub(crate) writes_right: bool,
}

/// The profiles of a set, and the numbers of their roots: equal roots have one number, and different roots have different numbers.
///
/// It is made once for a list of goals, so that each root is looked up once. Then two profiles are compared by numbers.
#[derive(Drop)]
pub(crate) struct SharedPlaces<'a> {
    set: &'a ProfileSet,
    numbers: Vec<RootNumbers>,
}

impl<'a> Model for SharedPlaces<'a> {
    ghost use Rattle.hub_cert.specs.Set.{Members};
    ghost use Rattle.hub_cert.specs.Places.{AreNumbered};

    ghost Value = { Members };

    ghost view = { λ p. p.set.now };

    ghost invariant = { λ p. AreNumbered p.set.now.profiles p.numbers.items };
}

impl<'a> SharedPlaces<'a> {
    /// Numbers the roots of the profiles of a set. The error comes when memory runs out.
    pub(crate) fn of(alloc: Global, set: &'a ProfileSet) -> Result<SharedPlaces<'a>, AllocError>
        ensures { IfOk result (λ p. p ≡ set.now) }
    {
        let numbers = numbers_of(alloc, set.profiles())?;
        Ok(SharedPlaces { set, numbers })
    }

    /// Appends the clashes of that writer.
    pub(crate) fn push_clashes(
        &self,
        goals: &mut Vec<Goal>,
        writer: usize,
    ) -> Result<(), AllocError>
        ensures { OnOk result
            (AddsGoals self.now goals.old.items goals.new.items (clashes_by self.now writer)) }
    {
        for other in 0..self.set.profiles().len() {
            self.push_places(goals, writer, other)?;
        }
        Ok(())
    }

    /// Appends the clashes of that writer with that other profile.
    fn push_places(
        &self,
        goals: &mut Vec<Goal>,
        writer: usize,
        other: usize,
    ) -> Result<(), AllocError>
        ensures { OnOk result
            (AddsGoals self.now goals.old.items goals.new.items (clashes_between writer other)) }
    {
        self.push_clash(goals, writer, other, Place::Replica(Side::Left))?;
        self.push_clash(goals, writer, other, Place::Replica(Side::Right))?;
        self.push_clash(goals, writer, other, Place::Archive)
    }

    /// Appends the clash at that place, if it is a goal of the set.
    fn push_clash(
        &self,
        goals: &mut Vec<Goal>,
        writer: usize,
        other: usize,
        place: Place,
    ) -> Result<(), AllocError>
        ensures { OnOk result
            (AddsGoals self.now goals.old.items goals.new.items (Clash writer other place ∷ [])) }
    {
        if self.has_clash(writer, other, place) {
            goals.push(Goal::Clash {
                writer,
                other,
                place,
            })?;
        }
        Ok(())
    }

    /// Returns whether that clash is a goal of the set, as `ProfileSet::has` does. It compares numbers alone.
    fn has_clash(&self, writer: usize, other: usize, place: Place) -> bool
        ensures { result ≡ of_goals.is_goal self.now (Clash writer other place) }
    {
        if writer == other {
            return false;
        }
        let Some(first) = self.numbers.get(writer) else {
            return false;
        };
        let Some(second) = self.numbers.get(other) else {
            return false;
        };
        share_by(first, second, place)
    }
}

/// Returns whether the profiles with these numbers share the place.
fn share_by(writer: &RootNumbers, other: &RootNumbers, place: Place) -> bool
    ensures { result ≡ numbered.shares_by writer.now other.now place }
{
    match place {
        Place::Replica(Side::Left) => writer.writes_left && has_number(other, writer.left),
        Place::Replica(Side::Right) => writer.writes_right && has_number(other, writer.right),
        Place::Archive => has_number(other, writer.left) && has_number(other, writer.right),
    }
}

/// Returns whether one of the roots has that number.
fn has_number(own: &RootNumbers, number: usize) -> bool
    ensures { result ≡ numbered.has_number own.now number }
{
    own.left == number || own.right == number
}

/// Returns the numbers of the roots of each profile.
fn numbers_of(alloc: Global, profiles: &[Profile]) -> Result<Vec<RootNumbers>, AllocError>
    ensures { IfOk result (λ ns. numbered.AreNumbered profiles.now ns.items) }
{
    let mut roots = IndexSet::new(alloc);
    let mut numbers = Vec::with_capacity(alloc, profiles.len())?;
    for profile in profiles {
        numbers.push(root_numbers(&mut roots, profile)?)?;
    }
    Ok(numbers)
}

/// Returns the numbers of a profile's roots. A root that has no number yet gets the next one.
fn root_numbers(roots: &mut IndexSet<Root>, profile: &Profile) -> Result<RootNumbers, AllocError>
    ensures numbers { IfOk result (numbered.AreNumbersOf roots.new.keys profile.now) }
    ensures kept { OnOk result (numbered.KeepPlaces roots.old.keys roots.new.keys) }
    ensures once { OnOk result (IsEachOnce roots.new.keys) }
{
    let left = profile.root(Side::Left);
    let right = profile.root(Side::Right);
    let first = number_of(roots, left)?;
    let second = number_of(roots, right)?;
    Ok(RootNumbers {
        left: first,
        right: second,
        writes_left: writes(profile, left),
        writes_right: writes(profile, right),
    })
}

/// Returns the number of a root. A root that has none yet gets the next one.
fn number_of(roots: &mut IndexSet<Root>, root: &Root) -> Result<usize, AllocError>
    ensures number { IfOk result (λ n. slice_get roots.new.keys n ≡ Some root.now) }
    ensures kept { OnOk result (numbered.KeepPlaces roots.old.keys roots.new.keys) }
    ensures once { OnOk result (IsEachOnce roots.new.keys) }
{
    let (number, _) = roots.insert_full(root.copy()?)?;
    Ok(number)
}
