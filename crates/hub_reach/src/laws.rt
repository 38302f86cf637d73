//! What follows from the definitions of reach and of stages: each law is the contract of an empty function.
ghost use Rattle.std.specs.Prelude.{◌≡◌, ◌↔◌, ◌++◌, ◌∷◌, [], ℕ, List, Some, None, IsTrue, false};
ghost use Rattle.std.specs.List.{list_all};
ghost use Rattle.std.specs.Str.{all_scalars};
ghost use Rattle.std.specs.declared.cmp.Ordering.TheVariants.{Equal};
ghost use Rattle.hub_path.specs.Path.{Path, is_path, path_of};
ghost use Rattle.hub_automaton.specs.Alphabet.{IsAlphabet, class_of, is_path_character};
ghost use Rattle.hub_profile.specs.Parts.{Parts, IsProfile};
ghost use Rattle.hub_reach.specs.Apart.{are_near, ReachApart};
ghost use Rattle.hub_reach.specs.Mention.{Mentions};
ghost use Rattle.hub_profile.specs.declared.verb.Verb.{Verb};
ghost use Rattle.hub_reach.specs.Reach.{reach};
ghost use Rattle.hub_reach.specs.Shape.{is_broken, is_named, is_text_character, shape_of};
ghost use Rattle.hub_reach.specs.Stage.{is_broken_stage, stage_of, GoAlike, OfOneStage, LeadToOneStage};
ghost use Rattle.hub_reach.specs.Walk.{is_walked, OfPathBetween};
ghost use Rattle.hub_reach.specs.Bars.{AllowsAlike};
ghost use Rattle.hub_reach.specs.Hashed.{EqualHashAlike};

use crate::shape::Shape;
use crate::stage::Stage;
use hub_automaton::laws::{
    choices_match_what_their_specification_does, choices_mention_what_their_specification_does,
    classes_are_alike, paths_match_their_text, paths_mention_their_characters,
    spots_compare_exactly, texts_mention_what_their_names_do, what_is_kept_goes_on_alike,
    what_is_kept_tells_each_match,
};
use std::hash::Hash;

/// A profile reaches a path exactly when it is reached by going down to it name by name: no path above it, at or below a
/// kept value, is ignored; nor is the path itself; and it is a kept value, or one is above it.
#[tactic(auto, using(crate::specs::laws::Walk::walks))]
pub fn walks_are_reach()
    ensures { (P : Parts) (p : Path) → IsProfile P → IsTrue (is_path p)
        → reach P p ≡ is_walked P p }
{}

/// A path between a kept value and a reached path is reached.
pub fn what_is_between_is_reached()
    ensures { (P : Parts) (x y : Path) → IsProfile P
        → OfPathBetween P x y (IsTrue (is_path x) → IsTrue (reach P x)) }
{}

/// Where no kept value of one profile is over one of another, or the other way round, nothing that the first one reaches is over
/// something that the other one reaches, whatever is ignored.
pub fn values_apart_reach_apart()
    ensures { (P Q : Parts) (p q : Path) → are_near P.paths Q.paths ≡ false
        → ReachApart P Q p q }
{}

/// The path of a text is a path exactly when the text's shape is `Named`.
pub fn named_texts_are_paths()
    ensures { (t : List ℕ) → is_path (path_of t) ≡ is_named (shape_of t) }
{}

/// A broken text stays broken, whatever character is appended. A character that may not stand in a path's text breaks
/// every text. So each character of a text that isn't broken may stand in a path's text. A path's text isn't broken, and
/// nothing is reached by a broken one.
pub fn broken_texts_stay_broken()
    ensures longer { (t : List ℕ) (x : ℕ) → IsTrue (is_broken t)
        → IsTrue (is_broken (t ++ x ∷ [])) }
    ensures foreign { (t : List ℕ) (x : ℕ) → is_text_character x ≡ false
        → IsTrue (is_broken (t ++ x ∷ [])) }
    ensures whole { (t : List ℕ) → is_broken t ≡ false → IsTrue (list_all is_text_character t) }
    ensures path { (t : List ℕ) → IsTrue (is_path (path_of t)) → is_broken t ≡ false }
    ensures reached { (P : Parts) (t : List ℕ) → IsTrue (is_broken t)
        → reach P (path_of t) ≡ false }
{}

/// A stage says whether its text is broken. So texts with equal stages are equally broken.
pub fn stages_tell_broken_texts()
    ensures stage { (P : Parts) (t : List ℕ) → is_broken_stage (stage_of P t) ≡ is_broken t }
    ensures alike { (P : Parts) (t u : List ℕ) → stage_of P t ≡ stage_of P u
        → is_broken t ≡ is_broken u }
{}

/// If two texts lead to the same stage, they still do after any text is appended to both, their paths are reached
/// alike, and the same changes are allowed there. Characters of one class lead to the same stage, if the alphabet mentions what the profile does.
pub fn stages_go_on_alike()
    ensures same { (P : Parts) (t u : List ℕ) (x : ℕ)
        → OfOneStage P t u (LeadToOneStage P t u (x ∷ [])) }
    ensures followed { (P : Parts) (t u v : List ℕ) → OfOneStage P t u (LeadToOneStage P t u v) }
    ensures reached { (P : Parts) (t u : List ℕ)
        → OfOneStage P t u (reach P (path_of t) ≡ reach P (path_of u)) }
    ensures allowed { (P : Parts) (t u : List ℕ) (r : Path) (verb : Verb) → IsProfile P
        → stage_of P t ≡ stage_of P u → IsTrue (is_path (path_of t))
        → AllowsAlike P r verb (path_of t) (path_of u) }
    ensures classes { (P : Parts) (ms t : List ℕ) (x y k : ℕ) → IsAlphabet ms → Mentions ms P
        → class_of ms x ≡ Some k → class_of ms y ≡ Some k → GoAlike P t x y }
{
    choices_match_what_their_specification_does();
    choices_mention_what_their_specification_does();
    classes_are_alike();
    paths_match_their_text();
    paths_mention_their_characters();
    texts_mention_what_their_names_do();
    what_is_kept_goes_on_alike();
    what_is_kept_tells_each_match();
}

/// The characters that may stand in a path's text are those that may stand in a path, and these have classes. A character
/// that has no class breaks every text.
pub fn text_characters_have_classes()
    ensures same { (x : ℕ) → is_text_character x ≡ is_path_character x }
    ensures classed { (ms : List ℕ) (x k : ℕ) → IsTrue (all_scalars (x ∷ []))
        → class_of ms x ≡ Some k → IsTrue (is_text_character x) }
    ensures unclassed { (ms : List ℕ) (x : ℕ) → class_of ms x ≡ None → is_text_character x ≡ false }
{}

/// `==` holds of two shapes exactly when they are equal, and the order says `Equal` exactly then. Equal shapes have
/// equal hashes.
pub fn shapes_compare_exactly()
    ensures equal { (x y : Shape) → IsTrue (⟦<Shape as PartialEq>⟧.eq x y) ↔ (x ≡ y) }
    ensures tied { (x y : Shape) → (⟦<Shape as Ord>⟧.cmp x y ≡ Equal) ↔ (x ≡ y) }
    ensures hashed { EqualHashAlike ⟦<Shape as PartialEq>⟧.eq ⟦<Shape as Hash>⟧.hash_input }
{}

/// `==` holds of two stages exactly when their values are equal, and the order says `Equal` exactly then.
/// Equal ones have equal hashes.
pub fn stages_compare_exactly()
    ensures equal { (x y : Stage) → IsTrue (⟦<Stage as PartialEq>⟧.eq x y) ↔ (x ≡ y) }
    ensures tied { (x y : Stage) → (⟦<Stage as Ord>⟧.cmp x y ≡ Equal) ↔ (x ≡ y) }
    ensures hashed { EqualHashAlike ⟦<Stage as PartialEq>⟧.eq ⟦<Stage as Hash>⟧.hash_input }
{
    spots_compare_exactly();
}
