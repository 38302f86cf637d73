//! What holds of a bundle of folded lines: each law is the contract of an empty function.
ghost use Rattle.std.specs.Prelude.{◌≡◌, ℕ, List, map};
ghost use Rattle.hub_bundle.specs.Sections.{Spells};
ghost use Rattle.hub_bundle.specs.declared.sections.BundleContents.{BundleContents};
ghost use Rattle.hub_folded.specs.InUnison.{AreSpelled, IsSafeFolded, KeepsRulesFolded, Lined, member_of};
ghost use Rattle.hub_folded.specs.Roots.{IsSafeAtKnownRoots, KeepsRulesAtKnownRoots};
ghost use Rattle.hub_folded.specs.Table.{unicode};
ghost use Rattle.hub_preferences.specs.Counted.{counted_bundle};
ghost use Rattle.hub_unison.specs.Rules.{KeepsRulesInUnison};
ghost use Rattle.hub_unison.specs.UnisonReach.{IsSafeInUnison};
ghost use Rattle.hub_unison.specs.Written.{AreWrittenAs, Written};
ghost use Rattle.hub_respelled.specs.Respelled.{IsFoldedBundle, folded_contents, said_members};

use hub_folded::laws::{
    roots_that_are_told_apart_are_roots_of_their_own, what_is_safe_in_unison_folded_is_safe,
};

/// The lines of a bundle of folded lines that count say the folded profiles and rules, and nothing else.
pub fn all_lines_of_a_folded_bundle_count()
    ensures { (bundle text : List ℕ) (f : IsFoldedBundle bundle text) (own : BundleContents)
        → Spells (counted_bundle text) own → own ≡ folded_contents f.said }
{}

/// If the profiles of a bundle of folded lines are safe in Unison, whatever lines say them, no two of the profiles that it stands for
/// clash in Unison at names up to folding. If they keep its rules, by none of these profiles Unison breaks a rule.
pub fn what_is_safe_of_a_folded_bundle_is_safe()
    ensures clashes { (bundle text : List ℕ) (f : IsFoldedBundle bundle text) (Vs : List Lined)
        → map member_of Vs ≡ said_members f.said → AreSpelled Vs
        → ((Ws : List Written) → AreWrittenAs Ws (folded_contents f.said).profiles
        → IsSafeInUnison Ws) → IsSafeFolded unicode Vs }
    ensures kept { (bundle text : List ℕ) (f : IsFoldedBundle bundle text) (Vs : List Lined)
        → map member_of Vs ≡ said_members f.said → AreSpelled Vs
        → ((Ws : List Written) → AreWrittenAs Ws (folded_contents f.said).profiles
        → KeepsRulesInUnison Ws (folded_contents f.said).rules)
        → KeepsRulesFolded unicode Vs f.said.own.rules }
{
    what_is_safe_in_unison_folded_is_safe();
}

/// The same holds at known roots that are one up to folding.
pub fn what_is_safe_of_a_folded_bundle_is_safe_at_its_roots()
    ensures clashes { (bundle text : List ℕ) (f : IsFoldedBundle bundle text) (Vs : List Lined)
        → map member_of Vs ≡ said_members f.said → AreSpelled Vs
        → ((Ws : List Written) → AreWrittenAs Ws (folded_contents f.said).profiles
        → IsSafeInUnison Ws) → IsSafeAtKnownRoots unicode Vs }
    ensures kept { (bundle text : List ℕ) (f : IsFoldedBundle bundle text) (Vs : List Lined)
        → map member_of Vs ≡ said_members f.said → AreSpelled Vs
        → ((Ws : List Written) → AreWrittenAs Ws (folded_contents f.said).profiles
        → KeepsRulesInUnison Ws (folded_contents f.said).rules)
        → KeepsRulesAtKnownRoots unicode Vs f.said.own.rules }
{
    roots_that_are_told_apart_are_roots_of_their_own();
    what_is_safe_of_a_folded_bundle_is_safe();
}
