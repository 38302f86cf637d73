//! What holds where names fold: each law is the contract of an empty function.
ghost use Rattle.std.specs.Prelude.{◌≡◌, IsTrue, Bool, List, map, true, false};
ghost use Rattle.hub_path.specs.Path.{Name, Path, is_over};
ghost use Rattle.hub_glob.specs.Glob.{matches};
ghost use Rattle.hub_glob.specs.Specification.{Specification};
ghost use Rattle.hub_profile.specs.Facts.{are_kept};
ghost use Rattle.hub_profile.specs.declared.rule.Rule.{Rule};
ghost use Rattle.hub_profile.specs.Parts.{Parts};
ghost use Rattle.hub_reach.specs.Safe.{IsSafe};
ghost use Rattle.hub_unison.specs.Rules.{AreReadForUnison, KeepsRulesInUnison, forbidden};
ghost use Rattle.hub_unison.specs.Shared.{ShareNoArchive};
ghost use Rattle.hub_unison.specs.UnisonReach.{IsSafeInUnison};
ghost use Rattle.hub_unison.specs.Written.{AreWrittenAs, Written};
ghost use Rattle.hub_folded.specs.Fold.{Folding, IsTextual, knows_path, latin};
ghost use Rattle.hub_folded.specs.Table.{unicode};
ghost use Rattle.hub_folded.specs.declared.member.Member.{Member};
ghost use Rattle.hub_folded.specs.Lines.{fold_rule, fold_spec, folded_member, folded_rules, folded_set, is_foldable, know_rules, some_fold, IsWithinLines};
ghost use Rattle.hub_folded.specs.InUnison.{AreSpelled, IsNormOf, IsSafeFolded, KeepsRulesFolded, Lined, Norm, member_of, norm_of, norm_path, over_up_to};
ghost use Rattle.hub_folded.specs.Read.{AreReadAsWritten, AreReadFolded, IsSafeWhereRead, readings_of};
ghost use Rattle.hub_folded.specs.Roots.{AreKnownRootsApart, AreToldApart, HaveRootsIn, HoldAtRootsIn, IsSafeAtKnownRoots, KeepsRulesAtKnownRoots};
ghost use Rattle.hub_folded.specs.Seen.{AreRootsApart, FoldTogether, IsSafeAsOne, IsSafeAtRoots, KeepsRulesAsSeen, over_as_one};

/// If the readings of the folded lines of some profiles beside folded rules are a safe set with these, by none of the profiles
/// Unison breaks a rule. If no two of the readings have the same two roots, either, no two of the profiles clash in Unison at names
/// up to folding, whatever Unison folds by, and however the run of each matches paths by the texts of its lines.
pub fn safe_folded_readings_are_safe_in_unison()
    ensures safe { (F : Folding) (Vs : List Lined) (Rs : List Rule) (Cs : List Parts)
        → AreReadFolded F Vs Rs Cs → IsSafe Cs (map forbidden (map (fold_rule F) Rs))
        → ShareNoArchive Cs → IsSafeFolded F Vs }
    ensures kept { (F : Folding) (Vs : List Lined) (Rs : List Rule) (Cs : List Parts)
        → AreReadFolded F Vs Rs Cs → IsSafe Cs (map forbidden (map (fold_rule F) Rs))
        → KeepsRulesFolded F Vs Rs }
{}

/// If some names fold, the readings of the folded lines hold for the profiles: what Unison reaches and writes at a path, they reach
/// and write at the folded path, and they breach each folded rule that it may break.
pub fn readings_of_folded_lines_hold_in_unison()
    ensures { (F : Folding) (Vs : List Lined) (Rs : List Rule) (Cs : List Parts)
        → some_fold (map member_of Vs) ≡ true → AreSpelled Vs
        → AreReadAsWritten (folded_set F (map member_of Vs))
        (folded_rules F (map member_of Vs) Rs) Cs
        → AreReadFolded F Vs Rs Cs }
{}

/// If some names fold, the readings of the folded profiles of a set beside its folded rules hold for it up to folding. If no names
/// fold, they are readings for Unison as it is.
pub fn what_holds_of_folded_lines_holds_up_to_folding()
    ensures folded { (F : Folding) (Vs : List Lined) (Rs : List Rule)
        → some_fold (map member_of Vs) ≡ true → AreSpelled Vs
        → AreReadFolded F Vs Rs (readings_of F (map member_of Vs) Rs) }
    ensures plain { (F : Folding) (Ms : List Member) (Rs : List Rule) (Ws : List Written)
        → some_fold Ms ≡ false → AreWrittenAs Ws (map (λ M. M.parts) Ms)
        → AreReadForUnison Ws Rs (readings_of F Ms Rs) }
{}

/// If some names fold, and the readings of the folded profiles of a set are safe beside its folded rules, the set is safe: by none of
/// the profiles Unison breaks a rule, and if no two of the readings have the same two roots, no two of the profiles clash. That holds up
/// to folding, at names that are one, at paths that a rule's own pattern matches, and at roots that may be one folder.
pub fn what_is_safe_folded_is_safe_anywhere()
    ensures { (F : Folding) (Vs : List Lined) (Rs : List Rule)
        → some_fold (map member_of Vs) ≡ true → AreSpelled Vs
        → IsSafeWhereRead F Vs Rs (readings_of F (map member_of Vs) Rs)
        (folded_rules F (map member_of Vs) Rs) }
{}

/// No two of the profiles clash at names that are one, by any relation of names of which no more is asked than that names that are
/// one fold to one. No rule is broken at a known path that its own pattern matches. And no two clash at roots that are one up to
/// folding, if the roots are apart up to folding.
pub fn what_is_safe_folded_is_safe_as_seen()
    ensures one { (F : Folding) (Vs : List Lined) → IsSafeFolded F Vs → IsSafeAsOne F Vs }
    ensures seen { (F : Folding) (Vs : List Lined) (Rs : List Rule) → IsTextual F
        → know_rules F Rs ≡ true → KeepsRulesFolded F Vs Rs → KeepsRulesAsSeen F Vs Rs }
    ensures roots { (F : Folding) (Vs : List Lined) → AreRootsApart F Vs → IsSafeFolded F Vs
        → IsSafeAtRoots F Vs }
{}

/// If the names of no host fold, lines and rules stay as they are.
pub fn without_folded_names_nothing_changes()
    ensures lines { (F : Folding) (Ms : List Member) → some_fold Ms ≡ false
        → folded_set F Ms ≡ map (λ M. M.parts) Ms }
    ensures rules { (F : Folding) (Ms : List Member) (Rs : List Rule) → some_fold Ms ≡ false
        → folded_rules F Ms Rs ≡ Rs }
{}

/// A path over another one is over it up to folding, also if names count as one that fold to one.
pub fn paths_that_are_one_are_one_up_to_folding()
    ensures same { (N : Norm) (p q : Path) → IsTrue (is_over p q) → IsTrue (over_up_to N p q) }
    ensures one { (N : Norm) (one : Name → Name → Bool) (p q : Path) → FoldTogether one N
        → IsTrue (over_as_one one p q) → IsTrue (over_up_to N p q) }
{}

/// Unison may fold as a folding does, so what is assumed of Unison can be met.
pub fn a_folding_is_met()
    ensures { (F : Folding) → IsNormOf F (norm_of F) }
{}

/// In both modes patterns fold as names do.
pub fn both_modes_fold_texts()
    ensures by_table { IsTextual unicode }
    ensures by_ascii { IsTextual latin }
{}

/// A rule without `?` and without sets past ASCII holds for each spelling: if it matches a known path, the folded rule matches the
/// path as Unison folds it.
pub fn rules_hold_for_each_spelling()
    ensures { (F : Folding) (N : Norm) (s : Specification) (q : Path) → IsTextual F → IsNormOf F N
        → IsTrue (is_foldable s) → IsTrue (knows_path F q) → IsTrue (matches s q)
        → IsTrue (matches (fold_spec F s) (norm_path N q)) }
{}

/// Folded lines are the lines of a profile: its kept values may be kept values, its roots stay, and it has no more `ignore` and
/// `ignorenot` lines than may be read.
pub fn folded_lines_are_lines_of_a_profile()
    ensures kept { (F : Folding) (M : Member) → are_kept (folded_member F M).paths ≡ true }
    ensures roots { (F : Folding) (M : Member) → (folded_member F M).roots ≡ M.parts.roots }
    ensures within { (F : Folding) (M : Member) → IsWithinLines M.parts
        → IsWithinLines (folded_member F M) }
{}

/// If some names fold, and the folded profiles of a set are safe in Unison, whatever lines say them, so is the set up to folding. If they
/// keep the folded rules, by none of its profiles Unison breaks a rule.
pub fn what_is_safe_in_unison_folded_is_safe()
    ensures clashes { (F : Folding) (Vs : List Lined) → some_fold (map member_of Vs) ≡ true
        → AreSpelled Vs → ((Ws : List Written) → AreWrittenAs Ws (folded_set F (map member_of Vs))
        → IsSafeInUnison Ws) → IsSafeFolded F Vs }
    ensures kept { (F : Folding) (Vs : List Lined) (Rs : List Rule)
        → some_fold (map member_of Vs) ≡ true → AreSpelled Vs
        → ((Ws : List Written) → AreWrittenAs Ws (folded_set F (map member_of Vs))
        → KeepsRulesInUnison Ws (folded_rules F (map member_of Vs) Rs)) → KeepsRulesFolded F Vs Rs }
{}

/// Where the known roots of the profiles and of the rules are told apart as they are spelled, two of them that are one up to folding
/// are one. So no two different known roots of profiles that are safe are nested up to folding, no two of the profiles clash at known
/// roots that are one up to folding, and what a rule forbids at its root stays undone at each spelling of it that a profile has.
pub fn roots_that_are_told_apart_are_roots_of_their_own()
    ensures roots { (F : Folding) (rs : List Path) (Vs : List Lined) → HaveRootsIn rs Vs
        → AreToldApart F rs → IsSafeFolded F Vs → AreKnownRootsApart F Vs }
    ensures clashes { (F : Folding) (rs : List Path) (Vs : List Lined) → HaveRootsIn rs Vs
        → AreToldApart F rs → IsSafeFolded F Vs → IsSafeAtKnownRoots F Vs }
    ensures kept { (F : Folding) (rs : List Path) (Vs : List Lined) (Rs : List Rule)
        → HaveRootsIn rs Vs → HoldAtRootsIn rs Rs → AreToldApart F rs → KeepsRulesFolded F Vs Rs
        → KeepsRulesAtKnownRoots F Vs Rs }
{}
