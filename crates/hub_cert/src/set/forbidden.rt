//! What a rule forbids a profile.
ghost use Rattle.std.specs.Prelude.{◌≡◌, Some, IfSome, IsSome, IsTrue};
ghost use Rattle.hub_profile.specs.Parts.{at_side};
ghost use Rattle.hub_reach.specs.Reach.{has_root};
ghost use Rattle.hub_cert.specs.Product.{Forbids};
ghost use Rattle.hub_cert.specs.Set.{OfProfileAndRule};

use crate::set::{ProfileSet, profile_and_rule};
use hub_path::{Root, Side};
use hub_profile::{Profile, Rule, Verb};

/// What a rule forbids a profile that has the rule's root: changes of one kind at one of the profile's roots.
#[derive(Clone, Copy, Debug)]
pub struct Forbidden {
    /// The side of the root.
    pub side: Side,
    /// The kind of change.
    pub verb: Verb,
}

/// Returns what a rule of the set forbids a profile of the set, or `None` if there is no such profile or rule, or the
/// profile doesn't have the rule's root.
pub fn forbidden_to(set: &ProfileSet, profile: usize, rule: usize) -> Option<Forbidden>
    ensures forbids { OfProfileAndRule set.now profile rule (λ P R. IfSome result (Forbids P R)) }
    ensures some { OfProfileAndRule set.now profile rule
        (λ P R. IsTrue (has_root P R.root) → IsSome result) }
{
    let (profile, rule) = profile_and_rule(set.profiles(), set.rules(), profile, rule)?;
    forbidden_by(profile, rule)
}

/// Returns what a rule forbids a profile, or `None` if the profile doesn't have the rule's root.
fn forbidden_by(profile: &Profile, rule: &Rule) -> Option<Forbidden>
    ensures forbids { IfSome result (Forbids profile.now rule.now) }
    ensures some { IsTrue (has_root profile.now rule.now.root) → IsSome result }
{
    match side_of(profile, &rule.root) {
        Some(side) => Some(Forbidden {
            side,
            verb: rule.verb,
        }),
        None => None,
    }
}

/// Returns the side at which a profile has a root.
fn side_of(profile: &Profile, root: &Root) -> Option<Side>
    ensures side { IfSome result (λ side. at_side profile.now.roots side ≡ Some root.now) }
    ensures some { IsTrue (has_root profile.now root.now) → IsSome result }
{
    let roots = profile.roots();
    if root == &roots[0] {
        return Some(Side::Left);
    }
    if root == &roots[1] {
        return Some(Side::Right);
    }
    None
}
