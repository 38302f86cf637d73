//! Profiles that are searched one and two at a time.
ghost use Rattle.std.specs.Prelude.{◌≡◌, ◌++◌, ◌∷◌, [], IfErr, IfOk, OnOk};
ghost use Rattle.hub_automaton.specs.Alphabet.{RefusesCharacters, plain};
ghost use Rattle.hub_profile.specs.Parts.{Parts};
ghost use Rattle.hub_cert.specs.Refused.{IsRefused};
ghost use Rattle.hub_cert.specs.Set.{OfMembers, mentioned_in};
ghost use Rattle.hub_cert.specs.declared.fault.CheckFault.{CheckFault as Fault};
ghost use Rattle.hub_apart.specs.ApartLines as said;

use crate::apart::have_nested;
use crate::lines::{Numbers, nested_line, push_lines, push_pairs};
use hub_automaton::{Alphabet, AutomatonFault};
use hub_cert::{CheckFault, ProfileSet};
use hub_profile::{Profile, Rule, Rules};
use hub_reach::mention_each;
use hub_search::faults;
use hub_text::Items;
use std::alloc::{AllocError, Global};

/// Profiles and rules, and what clashes in them.
#[derive(Debug, Drop)]
pub struct Apart {
    /// The profiles; or their readings beside the rules ([`crate::lines_in_unison`]).
    pub profiles: Items<Profile>,
    /// The rules.
    pub rules: Rules,
    /// For each profile the lines of the set of it and the rules. For each two the lines of the set of both; or one, if roots of
    /// them are nested: that their clash has no certificate. All with the numbers that the profiles have among all. In Unison
    /// ([`crate::lines_in_unison`]) only near profiles are searched together, and by other readings than with the rules.
    pub lines: Items<CheckFault>,
}

impl Apart {
    ghost use Rattle.std.specs.Prelude.{◌≡◌, IfOk};
    ghost use Rattle.hub_apart.specs.ApartLines as said;

    /// Appends a line for each two profiles of these numbers, which may not run at the same time for another reason than their
    /// paths: as if their roots were nested.
    pub fn with_pairs(self, pairs: &[(usize, usize)]) -> Result<Apart, AllocError>
        ensures profiles { IfOk result (λ a. a.profiles ≡ self.profiles) }
        ensures rules { IfOk result (λ a. a.rules ≡ self.rules) }
        ensures lines { IfOk result (λ a. a.lines ≡ said.with_pairs pairs.now self.lines) }
    {
        let Apart {
            profiles,
            rules,
            lines,
        } = self;
        let mut lines = lines;
        push_pairs(&mut lines, pairs)?;
        Ok(Apart {
            profiles,
            rules,
            lines,
        })
    }
}

/// Searches each profile with the rules, and each two profiles together if no roots of them are nested. Nothing is copied: the
/// profiles and rules are given back, in their order.
///
/// They are lost if there is a fault: `AlphabetFault` if all together mention too many characters, or if a profile or a rule has
/// too many spots; or `OutOfMemory`. For profiles that [`crate::are_put_apart`] accepts, tests show no other fault.
pub fn lines_apart(
    alloc: Global,
    profiles: Items<Profile>,
    rules: Rules,
) -> Result<Apart, CheckFault>
    ensures profiles { IfOk result (λ a. a.profiles ≡ profiles) }
    ensures rules { IfOk result (λ a. a.rules ≡ rules) }
    ensures lines { IfOk result (λ a. said.AreLinesApart (said.set_of profiles rules) a.lines) }
    ensures refused { IfErr result (said.IsRefusedApart (said.set_of profiles rules)) }
{
    check_characters(alloc, profiles.as_slice(), rules.as_slice())?;
    let (profiles, rules, lines) = search_each(alloc, profiles.into_vec(), rules)?;
    Ok(Apart {
        profiles: Items::from_vec(profiles),
        rules,
        lines: Items::from_vec(lines),
    })
}

/// Returns `TooManyCharacters` if all profiles and rules together mention too many.
fn check_characters(alloc: Global, profiles: &[Profile], rules: &[Rule]) -> Result<(), CheckFault>
    ensures { OfMembers profiles.now rules.now
        (λ S. IfErr result (said.IsRefusedApart S)) }
{
    match mention_all(alloc, profiles, rules) {
        Err(AutomatonFault::TooManyCharacters) => {
            Err(CheckFault::AlphabetFault(AutomatonFault::TooManyCharacters))
        }
        Err(AutomatonFault::OutOfMemory) => Err(CheckFault::OutOfMemory),
        _ => Ok(()),
    }
}

/// Mentions the characters of all profiles and rules, if they aren't too many.
fn mention_all(alloc: Global, profiles: &[Profile], rules: &[Rule]) -> Result<(), AutomatonFault>
    ensures { OfMembers profiles.now rules.now
        (λ S. IfErr result (RefusesCharacters plain (mentioned_in S))) }
{
    let mut alphabet = Alphabet::new(alloc)?;
    mention_each(&mut alphabet, profiles)?;
    mention_each(&mut alphabet, rules)
}

/// Searches each profile alone, and with each one before it. Returns the profiles and the rules, and all lines.
fn search_each(
    alloc: Global,
    profiles: Vec<Profile>,
    rules: Rules,
) -> Result<(Vec<Profile>, Rules, Vec<CheckFault>), CheckFault>
    ensures profiles { IfOk result (λ r. r.0.items ≡ profiles.items) }
    ensures rules { IfOk result (λ r. r.1 ≡ rules) }
    ensures lines { IfOk result
        (λ r. said.AreLinesApart (said.set_of profiles.items rules) r.2.items) }
    ensures refused { IfErr result (said.IsRefusedApart (said.set_of profiles.items rules)) }
{
    let mut lines = Vec::new(alloc);
    let mut before = Vec::new(alloc);
    let mut rules = rules;
    for profile in profiles {
        let (profile, kept) = search_one(alloc, profile, rules, before.len(), &mut lines)?;
        before = search_with_each(alloc, before, profile, &mut lines)?;
        rules = kept;
    }
    Ok((before, rules, lines))
}

/// Searches a profile with the rules, where that is its number, and appends its lines.
pub(crate) fn search_one(
    alloc: Global,
    profile: Profile,
    rules: Rules,
    number: usize,
    lines: &mut Vec<CheckFault>,
) -> Result<(Profile, Rules), CheckFault>
    ensures profile { IfOk result (λ r. r.0 ≡ profile) }
    ensures rules { IfOk result (λ r. r.1 ≡ rules) }
    ensures lines { OnOk result
        (said.AddsLinesOfOne profile rules number lines.old.items lines.new.items) }
    ensures refused { IfErr result (IsRefused (said.set_of_one profile rules)) }
{
    let mut own = Items::new(alloc);
    own.push(profile)?;
    let numbers = Numbers {
        first: number,
        second: number,
    };
    let (profiles, rules) = search_set(alloc, own, rules, numbers, lines)?;
    match profiles.into_vec().pop() {
        Some(profile) => Ok((profile, rules)),
        None => Err(CheckFault::OutOfMemory),
    }
}

/// Searches the last profile with each one before it, and appends their lines. Returns all of them.
fn search_with_each(
    alloc: Global,
    before: Vec<Profile>,
    last: Profile,
    lines: &mut Vec<CheckFault>,
) -> Result<Vec<Profile>, CheckFault>
    ensures profiles { IfOk result (λ r. r.items ≡ before.items ++ last ∷ []) }
    ensures lines { OnOk result
        (said.AddsLinesWithEach before.items last lines.old.items lines.new.items) }
    ensures refused { IfErr result (said.IsRefusedWithEach before.items last) }
{
    let number = before.len();
    let mut last = last;
    let mut all = Vec::with_capacity(alloc, number)?;
    for profile in before {
        let numbers = Numbers {
            first: all.len(),
            second: number,
        };
        let (profile, kept) = search_two(alloc, profile, last, numbers, lines)?;
        all.push(profile)?;
        last = kept;
    }
    all.push(last)?;
    Ok(all)
}

/// Searches two profiles together, unless they have nested roots, and appends their lines.
pub(crate) fn search_two(
    alloc: Global,
    first: Profile,
    second: Profile,
    numbers: Numbers,
    lines: &mut Vec<CheckFault>,
) -> Result<(Profile, Profile), CheckFault>
    ensures first { IfOk result (λ r. r.0 ≡ first) }
    ensures second { IfOk result (λ r. r.1 ≡ second) }
    ensures lines { OnOk result
        (said.AddsLinesOfTwo first second numbers lines.old.items lines.new.items) }
    ensures refused { IfErr result (said.IsRefusedTwo first second) }
{
    if have_nested(&first, &second) {
        lines.push(nested_line(numbers))?;
        return Ok((first, second));
    }
    let mut both = Items::new(alloc);
    both.push(first)?;
    both.push(second)?;
    let (profiles, _) = search_set(alloc, both, Rules::new(alloc), numbers, lines)?;
    two_of(profiles)
}

/// The first two profiles of a list.
fn two_of(profiles: Items<Profile>) -> Result<(Profile, Profile), CheckFault>
    ensures first { (P Q : Parts) → profiles ≡ P ∷ Q ∷ [] → IfOk result (λ r. r.0 ≡ P) }
    ensures second { (P Q : Parts) → profiles ≡ P ∷ Q ∷ [] → IfOk result (λ r. r.1 ≡ Q) }
    ensures memory { IfErr result (λ e. e ≡ Fault.OutOfMemory) }
{
    let mut profiles = profiles.into_vec();
    let (Some(second), Some(first)) = (profiles.pop(), profiles.pop()) else {
        return Err(CheckFault::OutOfMemory);
    };
    Ok((first, second))
}

/// Searches the set of these profiles and rules, and appends its lines. Returns the profiles and the rules.
fn search_set(
    alloc: Global,
    profiles: Items<Profile>,
    rules: Rules,
    numbers: Numbers,
    lines: &mut Vec<CheckFault>,
) -> Result<(Items<Profile>, Rules), CheckFault>
    ensures profiles { IfOk result (λ r. r.0 ≡ profiles) }
    ensures rules { IfOk result (λ r. r.1 ≡ rules) }
    ensures lines { OnOk result
        (said.AddsLinesOf (said.set_of profiles rules) numbers lines.old.items lines.new.items) }
    ensures refused { IfErr result (IsRefused (said.set_of profiles rules)) }
{
    let set = ProfileSet::new(alloc, profiles, rules)?;
    let found = faults(alloc, &set)?;
    push_lines(lines, found.into_vec(), numbers)?;
    Ok(set.into_members())
}
