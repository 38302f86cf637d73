//! Rounds of a set.
ghost use Rattle.std.specs.Prelude.{◌≡◌, not, filter, IfErr, IfOk, OnOk};
ghost use Rattle.hub_cert.specs.Set.{IsSafeSet, Members};
ghost use Rattle.hub_rounds.specs.Rounds.{AreRounds, is_in_round, is_outside, profiles_in_round, AreSafeRounds, rounds_of};
ghost use Rattle.hub_rounds.specs.Unverified as unverified;
ghost use Rattle.hub_rounds.specs.Unverified.{IsFaultBelow, IsFaultOf, IsRoundsFault, RefusesRound};

use crate::clashes::Clashes;
use crate::fault::RoundsFault;
use crate::guess::Method;
use crate::placing::Placed;
use crate::standing::{Standing, placed_so, standing_of};
use hub_cert::{CheckFault, ProfileSet};
use hub_profile::{Profile, Rules};
use hub_search::check;
use hub_text::Items;
use std::alloc::{AllocError, Global};

/// The profiles of a set, by rounds.
#[derive(Debug, Drop)]
pub struct Rounds {
    /// The profiles of each round, in their order.
    pub rounds: Items<Items<Profile>>,
    /// The profiles that are in no round, in their order.
    pub left: Items<Placed>,
    /// The numbers of profiles of which each two clash, or were too large to decide. If none was, fewer rounds won't do. No
    /// other profile could be added.
    pub rivals: Items<usize>,
    /// The rules of the set.
    pub rules: Rules,
}

/// Cuts a set into rounds, by what clashes in it. The profiles and rules of a round are a safe set, which the check has verified.
///
/// A profile is left out exactly if a line says that it breaks a rule by itself, or that the rule's goal is too large; the first
/// breach is reported, if there is one. Each other profile is in exactly one round. Two profiles that a line names are in different rounds,
/// also if their goal is too large. Tests show that the rounds, in the order of their first profiles, are the fewest, and the
/// rivals the most, if at most 24 profiles are in rounds.
///
/// The set is taken apart, and nothing of it is copied. It is lost if there is a fault: `NotVerified` only if the check refuses a
/// round, as it may if the lines are those of another set; or `OutOfMemory`.
pub fn rounds_of(alloc: Global, set: ProfileSet, clashes: &Clashes) -> Result<Rounds, RoundsFault>
    ensures rounds { IfOk result (AreRounds set clashes.now) }
    ensures refused { IfErr result (IsRoundsFault set clashes.now) }
{
    let lines = clashes.lines();
    let (profiles, rules) = set.into_members();
    rounds_by_lines(alloc, profiles, rules, lines)
}

/// Cuts profiles into rounds by these lines, as [`rounds_of`] cuts a set. They need not be one: it is each round with all rules that
/// the check verifies as a set.
pub fn rounds_by_lines(
    alloc: Global,
    profiles: Items<Profile>,
    rules: Rules,
    lines: &[CheckFault],
) -> Result<Rounds, RoundsFault>
    ensures rounds { IfOk result
        (AreRounds (record { profiles = profiles; rules = rules }) lines.now) }
    ensures refused { IfErr result
        (IsRoundsFault (record { profiles = profiles; rules = rules }) lines.now) }
{
    let Standing {
        placings,
        rounds: count,
        rivals,
    } = standing_of(alloc, profiles.len(), lines, Method::InTurn)?;
    let placed = placed_so(alloc, profiles.into_vec(), placings.as_slice())?;
    let (rounds, left, rules) = cut(alloc, placed, count, rules)?;
    Ok(Rounds {
        rounds,
        left,
        rivals,
        rules,
    })
}

/// Cuts the profiles into so many rounds, each of which is checked. Returns the rounds, who is in none of them, and the rules.
fn cut(
    alloc: Global,
    placed: Vec<Placed>,
    count: usize,
    rules: Rules,
) -> Result<(Items<Items<Profile>>, Items<Placed>, Rules), RoundsFault>
    ensures rounds { IfOk result (λ r. r.0 ≡ rounds_of count placed.items) }
    ensures left { IfOk result
        (λ r. r.1 ≡ filter (λ p. is_outside count p.placing) placed.items) }
    ensures rules { IfOk result (λ r. r.2 ≡ rules) }
    ensures safe { IfOk result (λ r. AreSafeRounds count placed.items rules) }
    ensures refused { IfErr result (IsFaultBelow count placed.items rules) }
{
    let mut rest = placed;
    let mut rules = rules;
    let mut rounds = Vec::with_capacity(alloc, count)?;
    for round in 0..count {
        let (own, others) = take_round(alloc, rest, round)?;
        let (own, kept) = verified(alloc, own, rules, round)?;
        rounds.push(own)?;
        rest = others;
        rules = kept;
    }
    Ok((Items::from_vec(rounds), Items::from_vec(rest), rules))
}

/// Takes the profiles of a round, and returns them and the others, both in their order.
fn take_round(
    alloc: Global,
    placed: Vec<Placed>,
    round: usize,
) -> Result<(Items<Profile>, Vec<Placed>), AllocError>
    ensures own { IfOk result (λ r. r.0 ≡ profiles_in_round round placed.items) }
    ensures others { IfOk result (λ r.
        r.1.items ≡ filter (λ p. not (is_in_round round p.placing)) placed.items) }
{
    let mut own = Items::new(alloc);
    let mut others = Vec::new(alloc);
    for one in placed {
        if one.placing.is_round(round) {
            let Placed { profile, .. } = one;
            own.push(profile)?;
        } else {
            others.push(one)?;
        }
    }
    Ok((own, others))
}

/// Checks that these profiles and rules are a safe set, and returns them.
fn verified(
    alloc: Global,
    profiles: Items<Profile>,
    rules: Rules,
    round: usize,
) -> Result<(Items<Profile>, Rules), RoundsFault>
    ensures profiles { IfOk result (λ r. r.0 ≡ profiles) }
    ensures rules { IfOk result (λ r. r.1 ≡ rules) }
    ensures safe { IfOk result (λ r. IsSafeSet (record { profiles = profiles; rules = rules })) }
    ensures refused { IfErr result
        (IsFaultOf round (record { profiles = profiles; rules = rules })) }
{
    match ProfileSet::new(alloc, profiles, rules) {
        Ok(set) => {
            check_round(alloc, &set, round)?;
            Ok(set.into_members())
        }
        Err(fault) => Err(fault_of(&fault, round)),
    }
}

/// Checks the set of a round.
fn check_round(alloc: Global, set: &ProfileSet, round: usize) -> Result<(), RoundsFault>
    ensures safe { OnOk result (IsSafeSet set.now) }
    ensures refused { IfErr result (IsFaultOf round set.now) }
{
    match check(alloc, set) {
        Ok(verified) => {
            // Its type says that the set is safe.
            let _ = verified.set();
            Ok(())
        }
        Err(fault) => Err(fault_of(&fault, round)),
    }
}

/// Returns why a round isn't verified.
fn fault_of(fault: &CheckFault, round: usize) -> RoundsFault
    ensures { (S : Members) → RefusesRound S fault.now → IsFaultOf round S result }
{
    if is_memory(fault) {
        RoundsFault::OutOfMemory
    } else {
        RoundsFault::NotVerified { round }
    }
}

/// Returns whether memory is out.
fn is_memory(fault: &CheckFault) -> bool
    ensures { result ≡ unverified.is_memory fault.now }
{
    matches!(fault, CheckFault::OutOfMemory)
}
