//! What clashes in a set.
ghost use Rattle.std.specs.Prelude.{◌≡◌, [], List, Contains, IfOk};
ghost use Rattle.hub_cert.specs.Set.{IsSafeSet};
ghost use Rattle.hub_cert.specs.declared.fault.CheckFault.{CheckFault};
ghost use Rattle.hub_search.specs.Faults.{AreFaults};
ghost use Rattle.hub_search.specs.Search.{Disproves, IsSearched};
ghost use Rattle.hub_rounds.specs.Lines.{BeginWithFirstFault, DecideEachGoal};

use hub_cert::laws::{certificates_make_a_set_safe, goals_are_listed_once};
use hub_cert::{CheckFault, ProfileSet};
use hub_search::faults;
use hub_search::laws::faults_say_what_is_unsafe;
use hub_text::Items;
use std::alloc::{AllocError, Global};
use std::marker::Model;

/// What the goals of a set show, in the order of the goals: an overlap or a breach, each with a path, or that a goal is too
/// large to be searched. A goal that is ruled out has no line.
///
/// A line is the fault by which `check` would refuse the set if it were the first. Two profiles may have up to six lines: each
/// may be the writer, at each replica and in the archive.
#[derive(Debug, Drop)]
pub struct Clashes {
    lines: Items<CheckFault>,
}

impl Model for Clashes {
    ghost use Rattle.std.specs.Prelude.{List};
    ghost use Rattle.hub_cert.specs.declared.fault.CheckFault.{CheckFault};

    ghost Value = { List CheckFault };

    ghost view = { λ c. c.lines };
}

impl Clashes {
    /// Borrows the lines.
    pub fn lines(&self) -> &[CheckFault]
        ensures { result.now ≡ self.now }
    {
        self.lines.as_slice()
    }
}

/// Searches for each goal of the set, and returns what they show, in the order of the goals.
///
/// The first line is one by which `check` may refuse the set. Without a line the set is safe. A set with an overlap or a
/// breach isn't. A goal that is too large may be ruled out or not, and kept values alone don't rule it out.
pub fn clashes_of(alloc: Global, set: &ProfileSet) -> Result<Clashes, AllocError>
    ensures lines { IfOk result (AreFaults set.now) }
    ensures disproved { IfOk result (λ es. (e : CheckFault) → Contains es e
        → Disproves set.now e) }
    ensures searched { IfOk result (λ es. (e : CheckFault) → Contains es e
        → IsSearched set.now e) }
    ensures rest { IfOk result (DecideEachGoal set.now) }
    ensures first { IfOk result (BeginWithFirstFault set.now) }
    ensures safe { IfOk result (λ es. es ≡ [] → IsSafeSet set.now) }
{
    goals_are_listed_once();
    faults_say_what_is_unsafe();
    certificates_make_a_set_safe();
    // Its contract says that the profiles are valid and the roots apart.
    let _ = set.profiles();
    let lines = faults(alloc, set)?;
    Ok(Clashes { lines })
}
