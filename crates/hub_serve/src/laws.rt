//! What follows from the definitions: each law is the contract of a function that does nothing.
ghost use Rattle.std.specs.Prelude.{ℕ};
ghost use Rattle.hub_path.specs.Path.{Path};
ghost use Rattle.hub_cert.specs.Set.{Members};
ghost use Rattle.hub_cert.specs.declared.fault.CheckFault.TheVariants as fault;
ghost use Rattle.hub_cert.specs.declared.goal.Place.{Place};
ghost use Rattle.hub_serve.specs.Told.{IsUnsafeIfFirst};

use hub_cert::laws::goals_are_listed_once;
use hub_search::laws::shown_paths_make_a_set_unsafe;

/// A set for which the check tells an overlap or a breach is not safe. So a safe set is never refused for one of these.
pub fn what_is_shown_is_not_safe()
    ensures overlap { (S : Members) (w o : ℕ) (place : Place) (held path : Path)
        → IsUnsafeIfFirst S (fault.Overlap w o place held path) }
    ensures breach { (S : Members) (p k : ℕ) (path : Path)
        → IsUnsafeIfFirst S (fault.Breach p k path) }
{
    goals_are_listed_once();
    shown_paths_make_a_set_unsafe();
}
