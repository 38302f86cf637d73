//! What follows from lines in Unison: each law is the contract of an empty function.
ghost use Rattle.std.specs.Prelude.{◌≡◌, ◌≢◌, ℕ, List, [], ◌∷◌, Contains, false, true, slice_get, Some};
ghost use Rattle.hub_profile.specs.Parts.{Parts};
ghost use Rattle.hub_profile.specs.declared.rule.Rule.{Rule};
ghost use Rattle.hub_reach.specs.Safe.{share_archive};
ghost use Rattle.hub_cert.specs.declared.fault.CheckFault.{CheckFault};
ghost use Rattle.hub_parts.specs.Anywhere.{IsSafeAnywhereInUnison, KeepsRulesAnywhereInUnison};
ghost use Rattle.hub_parts.specs.InUnison.{parts_read};
ghost use Rattle.hub_parts.specs.Whole.{AreRootsApart};
ghost use Rattle.hub_rounds.specs.Lines.{HasNoOwnLine, HasPair};
ghost use Rattle.hub_unison.specs.Shared.{ShareNoArchive};
ghost use Rattle.hub_unison.specs.UnisonReach.{IsSafeInUnison};
ghost use Rattle.hub_unison.specs.Written.{Written};
ghost use Rattle.hub_apart.specs.Apart.{any_two, have_nested};
ghost use Rattle.hub_apart.specs.UnisonLines.{AreLinesInUnison, AreValid};
ghost use Rattle.hub_apart.specs.UnsafeParts.{HasUnsafePart, shows_path};
ghost use Rattle.hub_apart.specs.WithoutLines.{AreSome, HaveLinesInUnison, HaveNoOwnLine, HaveNoPair, NeverClash};

use hub_cert::laws::certificates_make_a_set_safe;
use hub_nested::laws::{
    breaches_are_counted_from_the_upper_root, clashes_are_counted_from_the_upper_root,
};
use hub_parts::laws::{
    a_set_is_safe_anywhere, only_near_profiles_clash, readings_keep_rules_at_any_roots,
    roots_are_apart_by_parts,
};
use hub_search::laws::faults_say_what_is_unsafe;

/// Two profiles that no line in Unison is about never clash in Unison, wherever their roots lie, if they don't have the same two
/// roots. By a profile that no line is about alone Unison keeps all rules, also those of roots above and below its own.
pub fn profiles_without_lines_are_safe_in_unison()
    ensures pair { (Ws : List Written) (Rs : List Rule) (es : List CheckFault) (i j : ℕ)
        (V W : Written) → HaveLinesInUnison Ws Rs es → i ≢ j → slice_get Ws i ≡ Some V
        → slice_get Ws j ≡ Some W → share_archive V.parts W.parts ≡ false → ¬ (HasPair es i j)
        → NeverClash V W }
    ensures one { (Ws : List Written) (Rs : List Rule) (es : List CheckFault) (i : ℕ)
        (W : Written) → HaveLinesInUnison Ws Rs es → slice_get Ws i ≡ Some W
        → HasNoOwnLine es i → KeepsRulesAnywhereInUnison (W ∷ []) Rs }
{
    a_set_is_safe_anywhere();
    only_near_profiles_clash();
    faults_say_what_is_unsafe();
    certificates_make_a_set_safe();
    clashes_are_counted_from_the_upper_root();
    breaches_are_counted_from_the_upper_root();
    readings_keep_rules_at_any_roots();
}

/// The same of some profiles, as those of a round: if no line is about two of them, and no two have the same two roots, no two of
/// them clash in Unison, wherever their roots lie. If no line is about one of them alone, Unison breaks no rule by them, wherever its
/// root lies.
pub fn rounds_without_lines_are_safe_in_unison()
    ensures anywhere { (Ws Vs : List Written) (Rs : List Rule) (es : List CheckFault)
        (numbers : List ℕ) → HaveLinesInUnison Ws Rs es → AreSome Ws Vs numbers
        → HaveNoPair es numbers → ShareNoArchive (parts_read Vs) → IsSafeAnywhereInUnison Vs }
    ensures safe { (Ws Vs : List Written) (Rs : List Rule) (es : List CheckFault)
        (numbers : List ℕ) → HaveLinesInUnison Ws Rs es → AreSome Ws Vs numbers
        → HaveNoPair es numbers → ShareNoArchive (parts_read Vs)
        → AreRootsApart (parts_read Vs) [] → IsSafeInUnison Vs }
    ensures kept { (Ws Vs : List Written) (Rs : List Rule) (es : List CheckFault)
        (numbers : List ℕ) → HaveLinesInUnison Ws Rs es → AreSome Ws Vs numbers
        → HaveNoOwnLine es numbers → KeepsRulesAnywhereInUnison Vs Rs }
{
    a_set_is_safe_anywhere();
    profiles_without_lines_are_safe_in_unison();
}

/// If profiles and rules have no lines in Unison, and no two profiles have the same two roots, no two clash in Unison, and no rule is
/// broken by them, wherever the roots lie.
pub fn profiles_and_rules_without_lines_are_safe_in_unison()
    ensures anywhere { (Ws : List Written) (Rs : List Rule) → HaveLinesInUnison Ws Rs []
        → ShareNoArchive (parts_read Ws) → IsSafeAnywhereInUnison Ws }
    ensures safe { (Ws : List Written) (Rs : List Rule) → HaveLinesInUnison Ws Rs []
        → ShareNoArchive (parts_read Ws) → AreRootsApart (parts_read Ws) []
        → IsSafeInUnison Ws }
    ensures kept { (Ws : List Written) (Rs : List Rule) → HaveLinesInUnison Ws Rs []
        → KeepsRulesAnywhereInUnison Ws Rs }
{
    a_set_is_safe_anywhere();
    profiles_without_lines_are_safe_in_unison();
}

/// A line in Unison that shows a path shows that a part of the profiles isn't safe: two of them by their cautious readings, or one
/// with the rules by its reading beside them. Where roots are nested, it is counted from the upper one.
pub fn lines_show_unsafe_parts()
    ensures { (Ps : List Parts) (Rs : List Rule) (es : List CheckFault) (e : CheckFault)
        → AreLinesInUnison Ps Rs es → Contains es e → shows_path e ≡ true
        → HasUnsafePart Ps Rs }
{
    faults_say_what_is_unsafe();
}

/// If no two profiles have nested roots ([`crate::has_nested`]), no two different roots of them all are nested.
pub fn profiles_without_nested_roots_are_apart()
    ensures { (Ps : List Parts) → AreValid Ps → any_two have_nested Ps ≡ false
        → AreRootsApart Ps [] }
{
    roots_are_apart_by_parts();
}
