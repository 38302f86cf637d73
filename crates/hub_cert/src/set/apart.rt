//! Sets whose goals kept values alone rule out.
ghost use Rattle.std.specs.Prelude.{◌≡◌, ◌↔◌, IsSome, IfSome, IsTrue};
ghost use Rattle.std.specs.List.{list_all};
ghost use Rattle.hub_cert.specs.Apart as values;
ghost use Rattle.hub_cert.specs.Goals as listed;
ghost use Rattle.hub_cert.specs.Set.{IsSafeSet};

use crate::goal::Goal;
use crate::laws::kept_values_rule_out;
use crate::set::nearness::Nearness;
use crate::verifier::verified::{Verified, silent_set};

/// Returns the set as one that is safe if kept values alone rule out each of its goals, else `None`. They rule out a clash if no
/// kept value of the writer is over one of the other profile, or the other way round; and a breach if the literal characters with
/// which the rule's pattern begins differ from each kept value ([`may_meet_one`](hub_fronts::may_meet_one)). Then no certificate is
/// needed, whatever is ignored. The goals are those of [`ProfileSet::goals`](crate::ProfileSet::goals). It compares no kept values
/// for a clash: [`Nearness::of`] did.
pub fn safe_by_values<'a>(nearness: &Nearness<'a>, goals: &[Goal]) -> Option<Verified<'a>>
    requires { goals.now ≡ listed.goals nearness.now }
    ensures set { IfSome result (λ v. v ≡ nearness.now) }
    ensures safe { IfSome result (λ v. IsSafeSet v) }
    ensures apart { IsSome result ↔ IsTrue (values.is_apart_set nearness.now) }
{
    kept_values_rule_out();
    if !are_apart(nearness, goals) {
        return None;
    }
    Some(silent_set(nearness.set()))
}

/// Returns whether kept values alone rule out each of the goals.
fn are_apart(nearness: &Nearness<'_>, goals: &[Goal]) -> bool
    ensures { result ≡ list_all (values.is_apart_goal nearness.now) goals.now }
{
    goals.iter().all(|goal| nearness.is_apart(*goal))
}
