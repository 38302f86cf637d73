//! The readings of a set in which names fold.
ghost use Rattle.std.specs.Prelude.{◌≡◌, IfOk, List, map, true};
ghost use Rattle.hub_profile.specs.declared.rule.Rule.{Rule};
ghost use Rattle.hub_unison.specs.ReadingOf as reading;
ghost use Rattle.hub_folded.specs.Fold.{Folding};
ghost use Rattle.hub_folded.specs.InUnison.{AreSpelled, Lined, member_of};
ghost use Rattle.hub_folded.specs.Lines.{folded_rules, folded_set, some_fold};
ghost use Rattle.hub_folded.specs.Read.{AreReadFolded};

use crate::laws::readings_of_folded_lines_hold_in_unison;
use hub_profile::{Profile, Rules};
use hub_text::Items;
use hub_unison::read_set;
use std::alloc::{AllocError, Global};

/// Returns the readings of profiles whose lines are folded, beside folded rules, in their order.
///
/// If some names of a set fold, and these are its folded profiles and rules, the readings hold for it. So if they and the rules are a
/// safe set, no two profiles of the set clash in Unison at names up to folding ([`crate::laws`]).
pub fn read_folded_set(
    alloc: Global,
    folded: Items<Profile>,
    rules: &Rules,
) -> Result<Items<Profile>, AllocError>
    ensures value { IfOk result (λ rs. rs ≡ map (reading.reading_of rules.now) folded) }
    ensures wide { IfOk result (λ rs. (F : Folding) (Vs : List Lined) (Rs : List Rule)
        → some_fold (map member_of Vs) ≡ true → AreSpelled Vs
        → folded ≡ folded_set F (map member_of Vs)
        → rules.now ≡ folded_rules F (map member_of Vs) Rs → AreReadFolded F Vs Rs rs) }
{
    readings_of_folded_lines_hold_in_unison();
    read_set(alloc, folded, rules)
}
