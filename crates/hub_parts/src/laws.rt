//! Parts of a set: each law is the contract of an empty function.
ghost use Rattle.std.specs.Prelude.{◌≡◌, ◌↔◌, ℕ, List, [], ◌∷◌, ◌++◌, map, slice_get, Some, IsTrue, false};
ghost use Rattle.std.specs.Ordering.{is_lt};
ghost use Rattle.hub_path.specs.Path.{Path, is_over, path_cmp};
ghost use Rattle.hub_profile.specs.Facts.{are_roots};
ghost use Rattle.hub_profile.specs.Parts.{Parts};
ghost use Rattle.hub_profile.specs.declared.rule.Rule.{Rule};
ghost use Rattle.hub_reach.specs.Safe as safe;
ghost use Rattle.hub_reach.specs.Safe.{Clash, IsSafe};
ghost use Rattle.hub_unison.specs.ReadingOf.{cautious_of};
ghost use Rattle.hub_unison.specs.Rules.{KeepsRulesInUnison};
ghost use Rattle.hub_unison.specs.Shared.{ShareNoArchive};
ghost use Rattle.hub_unison.specs.UnisonReach.{IsSafeInUnison};
ghost use Rattle.hub_unison.specs.Written.{AreWrittenAs, Written};
ghost use Rattle.hub_parts.specs.Anywhere.{IsSafeAnywhereInUnison, KeepsRulesAnywhereInUnison};
ghost use Rattle.hub_parts.specs.Clashing.{AreNear, AreNearPairs, HasAllClashing, HaveRoots};
ghost use Rattle.hub_parts.specs.InUnison.{HaveSafeParts, parts_read};
ghost use Rattle.hub_parts.specs.Listed.{AreSafeListedParts, AreSafeListedReadings, HasNoBreach, HasNoClash, HasNoReadBreach};
ghost use Rattle.hub_parts.specs.Near.{AreAllNear, AreInOrder, HasEachNear, near_pairs};
ghost use Rattle.hub_parts.specs.Nested.{ClashAt, IsSafeAnywhere, LowerClash, UpperClash, WideClash};
ghost use Rattle.hub_parts.specs.Whole.{ArePartsApart, AreRootsApart, AreSafeParts, AreSafePartsByRule};
ghost use Rattle.hub_parts.specs.declared.kept_value.KeptValue.{KeptValue};

/// A set is safe exactly when no different roots are nested, each two profiles alone are safe, and each profile alone is safe with
/// the rules. The rules may be taken one at a time.
pub fn a_set_is_safe_by_its_parts()
    ensures parts { (Ps : List Parts) (Rs : List safe.Rule) → IsSafe Ps Rs ↔ AreSafeParts Ps Rs }
    ensures rules { (Ps : List Parts) (Rs : List safe.Rule)
        → IsSafe Ps Rs ↔ AreSafePartsByRule Ps Rs }
{}

/// No different roots are nested exactly when this holds in each part: of each two profiles, of each profile with the rules, and
/// of the rules.
pub fn roots_are_apart_by_parts()
    ensures { (Ps : List Parts) (Rs : List safe.Rule) → AreRootsApart Ps Rs ↔ ArePartsApart Ps Rs }
{}

/// In Unison no two profiles clash and no rule is broken, if each part has safe readings of its own: each two profiles have
/// cautious ones, and each profile has one for each rule.
pub fn parts_are_safe_in_unison()
    ensures safe { (Ws : List Written) (Rs : List Rule) → HaveSafeParts Ws Rs
        → IsSafeInUnison Ws }
    ensures kept { (Ws : List Written) (Rs : List Rule) → HaveSafeParts Ws Rs
        → KeepsRulesInUnison Ws Rs }
{}

/// In the order of paths, only paths below a path come between it and one below it.
pub fn what_is_between_is_below()
    ensures { (p q r : Path) → is_lt (path_cmp q p) ≡ false → is_lt (path_cmp r q) ≡ false
        → IsTrue (is_over p r) → IsTrue (is_over p q) }
{}

/// The sweep over values in order finds each pair of which one is over the other. It finds no other pairs.
pub fn the_sweep_finds_all_near_pairs()
    ensures complete { (ks : List KeptValue) → AreInOrder ks → HasEachNear ks (near_pairs ks) }
    ensures exact { (ks : List KeptValue) → AreAllNear ks (near_pairs ks) }
{}

/// Profiles that clash are near, also where their roots are nested. So the pairs of near profiles have all that clash. Where no
/// different roots of two profiles are nested, the clash is that of a set.
pub fn only_near_profiles_clash()
    ensures near { (Ps : List Parts) (i j : ℕ) (P Q : Parts) → slice_get Ps i ≡ Some P
        → slice_get Ps j ≡ Some Q → IsTrue (are_roots P.roots) → WideClash P Q → AreNear Ps i j }
    ensures listed { (Ps : List Parts) (ps : List (ℕ × ℕ)) → AreNearPairs Ps ps
        → HasAllClashing Ps ps }
    ensures wide { (P Q : Parts) → Clash P Q → WideClash P Q }
    ensures plain { (P Q : Parts) → AreRootsApart (P ∷ Q ∷ []) [] → WideClash P Q → Clash P Q }
{}

/// Of the pairs of profiles only those of a list need be judged, if it has all that clash. In Unison it is to have those whose
/// cautious readings clash.
pub fn listed_pairs_are_enough()
    ensures safe { (Ps : List Parts) (Rs : List safe.Rule) (ps : List (ℕ × ℕ)) → HaveRoots Ps
        → HasAllClashing Ps ps → IsSafe Ps Rs ↔ AreSafeListedParts Ps Rs ps }
    ensures read { (Ws : List Written) (Ps : List Parts) (Rs : List Rule) (ps : List (ℕ × ℕ))
        → AreWrittenAs Ws Ps → HaveRoots Ps → HasAllClashing (map cautious_of Ps) ps
        → AreSafeListedReadings Ps Rs ps → HaveSafeParts Ws Rs }
{}

/// Where one root is above the other, a clash is one of paths below the upper root: what the lower profile reaches or writes is
/// counted from there.
pub fn nested_clashes_are_counted_from_the_upper_root()
    ensures upper { (P Q : Parts) (r x : Path) → ClashAt P Q r (r ++ x) ↔ UpperClash P r Q x }
    ensures lower { (P Q : Parts) (s x : Path)
        → ClashAt P Q (s ++ x) s ↔ LowerClash P (s ++ x) x Q }
{}

/// Wherever the roots lie, profiles are safe exactly when no pair of the list clashes and no profile breaches a rule.
pub fn listed_pairs_are_enough_at_any_roots()
    ensures safe { (Ps : List Parts) (Rs : List safe.Rule) (ps : List (ℕ × ℕ)) → HaveRoots Ps
        → HasAllClashing Ps ps → HasNoClash Ps ps → HasNoBreach Ps Rs → IsSafeAnywhere Ps Rs }
    ensures needed { (Ps : List Parts) (Rs : List safe.Rule) (ps : List (ℕ × ℕ))
        → IsSafeAnywhere Ps Rs → HasNoClash Ps ps × HasNoBreach Ps Rs }
    ensures unison { (Ws : List Written) (Ps : List Parts) (ps : List (ℕ × ℕ))
        → AreWrittenAs Ws Ps → HaveRoots Ps → ShareNoArchive Ps
        → HasAllClashing (map cautious_of Ps) ps → HasNoClash (map cautious_of Ps) ps
        → IsSafeAnywhereInUnison Ws }
{}

/// Where no different roots are nested, this is the same as the safety of a set.
pub fn a_set_is_safe_anywhere()
    ensures safe { (Ps : List Parts) (Rs : List safe.Rule)
        → IsSafe Ps Rs ↔ (AreRootsApart Ps Rs × IsSafeAnywhere Ps Rs) }
    ensures unison { (Ws : List Written) → AreRootsApart (parts_read Ws) []
        → IsSafeAnywhereInUnison Ws → IsSafeInUnison Ws }
    ensures kept { (Ws : List Written) (Rs : List Rule) → KeepsRulesAnywhereInUnison Ws Rs
        → KeepsRulesInUnison Ws Rs }
{}

/// In Unison no rule is broken, wherever the roots lie, if no profile's reading for a rule breaches it.
pub fn readings_keep_rules_at_any_roots()
    ensures { (Ws : List Written) (Ps : List Parts) (Rs : List Rule) → AreWrittenAs Ws Ps
        → HasNoReadBreach Ps Rs → KeepsRulesAnywhereInUnison Ws Rs }
{}
