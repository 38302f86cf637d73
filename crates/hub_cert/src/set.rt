//! Profiles and rules that are checked together, and their goals.
ghost use Rattle.std.specs.Prelude.{◌≡◌, ◌↔◌, ◌∷◌, [], ◌&&◌, IsTrue, Contains, IfOk, IfErr, OnOk, option_map};
ghost use Rattle.hub_cert.specs.Aim.{shares, Breaching, Clashing};
ghost use Rattle.hub_reach.specs.Reach.{has_root, writes};
ghost use Rattle.hub_cert.specs.declared.goal.Goal.TheVariants.{Clash, Breach};
ghost use Rattle.hub_cert.specs.declared.goal.Place.{Place};
ghost use Rattle.hub_cert.specs.Set as of_set;
ghost use Rattle.hub_cert.specs.Goals as of_goals;
ghost use Rattle.hub_cert.specs.Refused as refused;
ghost use Rattle.hub_cert.specs.Set.{OfMembers, OfProfiles};
ghost use Rattle.hub_cert.specs.Goals.{AddsGoals, breaches_by};

pub(crate) mod apart;
pub(crate) mod forbidden;
pub(crate) mod kept_values;
pub(crate) mod nearness;
pub(crate) mod places;
pub(crate) mod refusals;

use crate::fault::CheckFault;
use crate::goal::{Goal, Place};
use crate::set::places::SharedPlaces;
use crate::set::refusals::alphabet_for;
use hub_automaton::Alphabet;
use hub_path::Root;
use hub_profile::{Profile, Rule, Rules};
use hub_reach::{may, writes};
use hub_text::Items;
use std::alloc::{AllocError, Global};
use std::marker::Model;

/// How many profiles a set may have (this project's choice).
pub const PROFILES: usize = 128;

/// Profiles and rules that may be checked together: at most `PROFILES` profiles with different names, and at most `RULES`
/// rules, no two different roots of them nested.
///
/// A set keeps the alphabet of the characters that they mention. Each profile has a walker over it, and each rule's
/// specification a `SpecSet`: none has too many spots.
#[derive(Debug, Drop)]
pub struct ProfileSet {
    profiles: Items<Profile>,
    rules: Rules,
    alphabet: Alphabet,
}

impl Model for ProfileSet {
    ghost use Rattle.hub_cert.specs.Set.{Members, IsSet};

    ghost Value = { Members };

    ghost view = { λ s. record { profiles = s.profiles; rules = s.rules } };

    ghost invariant = { λ s. IsSet (record { profiles = s.profiles; rules = s.rules }) s.alphabet };
}

impl ProfileSet {
    /// Makes the set of these profiles and rules. They are dropped if there is a fault.
    ///
    /// The fault is the first of these that applies:
    /// - `TooManyProfiles` for more than `PROFILES` profiles;
    /// - `SameName` with the first name that an earlier profile has too;
    /// - `NestedRoots` with the first two different roots of which one lies within the other. Roots come in the order of
    ///   the profiles, the left one first, and then of the rules; pairs by their earlier root and then by their later one;
    /// - `AlphabetFault` with `TooManyCharacters` if more than `MENTIONED_CHARACTERS` characters are mentioned;
    /// - `AlphabetFault` with `TooManySpots` if a profile or a rule has more than `SPOTS` spots, even if no goal names it.
    ///
    /// Any call may instead report `OutOfMemory`.
    pub fn new(
        alloc: Global,
        profiles: Items<Profile>,
        rules: Rules,
    ) -> Result<ProfileSet, CheckFault>
        ensures ok { IfOk result (λ s. s ≡ record { profiles = profiles; rules = rules }) }
        ensures err { IfErr result
            (refused.IsRefused (record { profiles = profiles; rules = rules })) }
    {
        let alphabet = alphabet_for(alloc, profiles.as_slice(), rules.as_slice())?;
        Ok(ProfileSet {
            profiles,
            rules,
            alphabet,
        })
    }

    /// Borrows the profiles. A profile's number is its place, from 0 on.
    pub fn profiles(&self) -> &[Profile]
        ensures value { result.now ≡ self.now.profiles }
        ensures valid { of_set.HasValidProfiles self.now }
        ensures apart { of_set.AreApart self.now }
    {
        self.profiles.as_slice()
    }

    /// Borrows the rules. A rule's number is its place, from 0 on.
    pub fn rules(&self) -> &[Rule]
        ensures { result.now ≡ self.now.rules }
    {
        self.rules.as_slice()
    }

    /// Takes the set apart into its profiles and its rules. Nothing is copied.
    pub fn into_members(self) -> (Items<Profile>, Rules)
        ensures profiles { result.0 ≡ self.profiles }
        ensures rules { result.1 ≡ self.rules }
    {
        let ProfileSet {
            profiles,
            rules,
            ..
        } = self;
        (profiles, rules)
    }

    /// Borrows the alphabet of all characters that the profiles and the rules mention.
    ///
    /// Its contract says what holds of every set: at most `PROFILES` valid profiles with different names, at most `RULES` rules,
    /// no two different roots nested, and few characters and spots.
    pub fn alphabet(&self) -> &Alphabet
        ensures value { result.now ≡ of_set.alphabet_of self.now }
        ensures set { of_set.IsSet self.now result.now }
    {
        &self.alphabet
    }

    /// Returns whether this is a goal of the set: two different profiles share the place, and the writer writes there; or
    /// the profile may do at the rule's root what the rule forbids.
    pub fn has(&self, goal: Goal) -> bool
        ensures value { result ≡ of_goals.is_goal self.now goal }
        ensures member { IsTrue result ↔ Contains (of_goals.goals self.now) goal }
    {
        match goal {
            Goal::Clash {
                writer,
                other,
                place,
            } => has_clash(self.profiles.as_slice(), writer, other, place),
            Goal::Breach { profile, rule } => {
                has_breach(
                    self.profiles.as_slice(),
                    self.rules.as_slice(),
                    profile,
                    rule,
                )
            }
        }
    }

    /// Returns the goals of the set: clashes by writer, other and place, then breaches by profile and rule.
    pub fn goals(&self, alloc: Global) -> Result<Items<Goal>, AllocError>
        ensures { IfOk result (λ gs. gs ≡ of_goals.goals self.now) }
    {
        let places = SharedPlaces::of(alloc, self)?;
        let mut goals = Vec::new(alloc);
        for writer in 0..self.profiles.len() {
            places.push_clashes(&mut goals, writer)?;
        }
        for profile in 0..self.profiles.len() {
            self.push_breaches(&mut goals, profile)?;
        }
        Ok(Items::from_vec(goals))
    }

    /// Appends the breaches of that profile.
    fn push_breaches(&self, goals: &mut Vec<Goal>, profile: usize) -> Result<(), AllocError>
        ensures { OnOk result
            (AddsGoals self.now goals.old.items goals.new.items (breaches_by self.now profile)) }
    {
        for rule in 0..self.rules.as_slice().len() {
            self.push_goal(goals, Goal::Breach { profile, rule })?;
        }
        Ok(())
    }

    /// Appends this, if it is a goal of the set.
    fn push_goal(&self, goals: &mut Vec<Goal>, goal: Goal) -> Result<(), AllocError>
        ensures { OnOk result
            (AddsGoals self.now goals.old.items goals.new.items (goal ∷ [])) }
    {
        if self.has(goal) {
            goals.push(goal)?;
        }
        Ok(())
    }
}

/// Returns whether two different profiles share that place.
fn has_clash(profiles: &[Profile], writer: usize, other: usize, place: Place) -> bool
    ensures { OfProfiles profiles.now
        (λ S. result ≡ of_goals.is_goal S (Clash writer other place)) }
{
    match two_of(profiles, writer, other) {
        Some((writer, other)) => share_place(writer, other, place),
        None => false,
    }
}

/// Returns whether the profile may do at the rule's root what the rule forbids.
fn has_breach(profiles: &[Profile], rules: &[Rule], profile: usize, rule: usize) -> bool
    ensures { OfMembers profiles.now rules.now
        (λ S. result ≡ of_goals.is_goal S (Breach profile rule)) }
{
    match profile_and_rule(profiles, rules, profile, rule) {
        Some((profile, rule)) => profile.has_root(&rule.root)
            && may(profile, &rule.root, rule.verb),
        None => false,
    }
}

/// Borrows two different profiles by their numbers. Returns `None` if the numbers are the same, or if one has no profile.
fn two_of(profiles: &[Profile], writer: usize, other: usize) -> Option<(&Profile, &Profile)>
    ensures { OfProfiles profiles.now
        (λ S. (place : Place) → option_map (λ two. Clashing two.0.now two.1.now place) result
        ≡ of_goals.aim_of S (Clash writer other place)) }
{
    if writer == other {
        return None;
    }
    profiles.get(writer).zip(profiles.get(other))
}

/// Borrows a profile and a rule by their numbers. Returns `None` if there is no such profile or no such rule.
fn profile_and_rule<'a>(
    profiles: &'a [Profile],
    rules: &'a [Rule],
    profile: usize,
    rule: usize,
) -> Option<(&'a Profile, &'a Rule)>
    ensures { OfMembers profiles.now rules.now
        (λ S. option_map (λ both. Breaching both.0.now both.1.now) result
        ≡ of_goals.aim_of S (Breach profile rule)) }
{
    profiles.get(profile).zip(rules.get(rule))
}

/// Returns whether both profiles have the place, and the writer writes there if it is a replica.
fn share_place(writer: &Profile, other: &Profile, place: Place) -> bool
    ensures { result ≡ shares writer.now other.now place }
{
    match place {
        Place::Replica(side) => shares_root(writer, other, writer.root(side)),
        Place::Archive => writer.roots().iter().all(|root| other.has_root(root)),
    }
}

/// Returns whether the writer writes at that root, and the other profile has it.
fn shares_root(writer: &Profile, other: &Profile, root: &Root) -> bool
    ensures { result ≡ (writes writer.now root.now && has_root other.now root.now) }
{
    writes(writer, root) && other.has_root(root)
}
