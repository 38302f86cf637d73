//! What follows from literal prefixes: the law is the contract of an empty function.
ghost use Rattle.std.specs.Prelude.{◌≡◌, IsTrue, true, false};
ghost use Rattle.hub_path.specs.Path.{Path};
ghost use Rattle.hub_glob.specs.Glob.{matches};
ghost use Rattle.hub_glob.specs.Specification.{Specification};
ghost use Rattle.hub_profile.specs.Parts.{Parts};
ghost use Rattle.hub_reach.specs.Reach.{reach};
ghost use Rattle.hub_fronts.specs.Fronts.{may_meet_one};

/// Where the literal characters with which a specification of whole texts begins differ from each kept value of a profile, it
/// matches nothing that the profile reaches.
pub fn fronts_apart_match_nothing()
    ensures { (P : Parts) (s : Specification) (p : Path) → may_meet_one s P.paths ≡ false
        → IsTrue (reach P p) → matches s p ≡ true → ⊥ }
{}
