//! What meetings say: each law is the contract of an empty function.
ghost use Rattle.std.specs.Prelude.{◌≡◌, ◌++◌, [], Some, IsTrue};
ghost use Rattle.hub_path.specs.Path.{Path};
ghost use Rattle.hub_path.specs.declared.side.Side.{Side};
ghost use Rattle.hub_profile.specs.Parts.{IsProfile, Parts, at_side};
ghost use Rattle.hub_profile.specs.declared.rule.Rule.{Rule};
ghost use Rattle.hub_reach.specs.Reach.{may_at, reach};
ghost use Rattle.hub_reach.specs.Safe.{Breach, Clash};
ghost use Rattle.hub_glob.specs.Glob.{matches};
ghost use Rattle.hub_parts.specs.Nested.{ClashAt};
ghost use Rattle.hub_unison.specs.Rules.{forbidden};
ghost use Rattle.hub_nested.specs.Meeting as said;
ghost use Rattle.hub_nested.specs.Through.{WritesOverAt};
ghost use Rattle.hub_nested.specs.declared.meeting.Meeting.TheVariants as meets;
ghost use Rattle.hub_nested.specs.declared.meeting.Together.{Together};
ghost use Rattle.hub_nested.specs.declared.rule_meeting.RuleMeeting.TheVariants as meets_rule;
ghost use Rattle.hub_nested.specs.declared.rule_meeting.Under.{Under};

/// Where two profiles meet at no path, they don't clash at these roots. Where they meet counted from the upper root, the set
/// of both clashes if they do: the first with the second, or the second with the first.
pub fn clashes_are_counted_from_the_upper_root()
    ensures apart { (P Q : Parts) (a b : Side) (r s : Path) → at_side P.roots a ≡ Some r
        → at_side Q.roots b ≡ Some s → said.meeting P a Q b ≡ meets.Apart → ¬ (ClashAt P Q r s) }
    ensures apart_second { (P Q : Parts) (a b : Side) (r s : Path) → at_side P.roots a ≡ Some r
        → at_side Q.roots b ≡ Some s → said.meeting P a Q b ≡ meets.Apart → ¬ (ClashAt Q P s r) }
    ensures first { (P Q : Parts) (a b : Side) (r s : Path) (t : Together) → IsProfile P
        → IsProfile Q → at_side P.roots a ≡ Some r → at_side Q.roots b ≡ Some s
        → said.meeting P a Q b ≡ meets.Counted t → ClashAt P Q r s → Clash t.first t.second }
    ensures second { (P Q : Parts) (a b : Side) (r s : Path) (t : Together) → IsProfile P
        → IsProfile Q → at_side P.roots a ≡ Some r → at_side Q.roots b ≡ Some s
        → said.meeting P a Q b ≡ meets.Counted t → ClashAt Q P s r → Clash t.second t.first }
{}

/// Where the set of both clashes, one of them writes over what the other reaches, or over a root at which the other keeps its
/// whole replica. It need not reach anything there, if its lines ignore all of it.
pub fn counted_clashes_are_at_the_roots()
    ensures first { (P Q : Parts) (a b : Side) (r s : Path) (t : Together) → IsProfile P
        → IsProfile Q → at_side P.roots a ≡ Some r → at_side Q.roots b ≡ Some s
        → said.meeting P a Q b ≡ meets.Counted t → Clash t.first t.second → WritesOverAt P Q r s }
    ensures second { (P Q : Parts) (a b : Side) (r s : Path) (t : Together) → IsProfile P
        → IsProfile Q → at_side P.roots a ≡ Some r → at_side Q.roots b ≡ Some s
        → said.meeting P a Q b ≡ meets.Counted t → Clash t.second t.first → WritesOverAt Q P s r }
{}

/// Where a profile and a rule meet at no path, the profile doesn't breach the rule at that root. Where they meet counted from
/// the upper root, and the profile ignores nothing, the set of both has a breach if the profile breaches the rule.
pub fn breaches_are_counted_from_the_upper_root()
    ensures apart { (P : Parts) (a : Side) (r p q : Path) (R : Rule)
        → at_side P.roots a ≡ Some r → said.rule_meeting P a R ≡ meets_rule.Apart
        → r ++ p ≡ R.root ++ q → IsTrue (reach P p) → IsTrue (matches R.spec q) → ⊥ }
    ensures breach { (P : Parts) (a : Side) (r p q : Path) (R : Rule) (u : Under)
        → IsProfile P → P.ignore ≡ [] → at_side P.roots a ≡ Some r
        → said.rule_meeting P a R ≡ meets_rule.Counted u
        → r ++ p ≡ R.root ++ q → IsTrue (reach P p) → IsTrue (may_at P r p R.verb)
        → IsTrue (matches R.spec q) → Breach u.profile (forbidden u.rule) }
{}
