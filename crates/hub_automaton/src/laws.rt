//! Laws of alphabets and of the states that texts lead to: each is the contract of an empty function.
ghost use Rattle.std.specs.Prelude.{◌≡◌, ◌↔◌, ◌<◌, ◌+◌, ◌∷◌, [], length, ℕ, List, Some, IsTrue, true, false};
ghost use Rattle.std.specs.declared.cmp.Ordering.TheVariants.{Equal};
ghost use Rattle.hub_path.specs.Path.{Path, text_of, path_of, name_eq, path_eq, is_path};
ghost use Rattle.hub_glob.specs.Glob.{matches, any_matches};
ghost use Rattle.hub_glob.specs.Specification.{Specification};
ghost use Rattle.hub_automaton.specs.Spots.{PackedState, alternatives_of, path_alternatives, is_covered, is_matched, spots_count, HaveOneState, LeadToOneState, AreCovered, LeadToSame, LeadToSameWith, MatchInParts, row_length, each_matched, ChoicesAreCovered};
ghost use Rattle.hub_automaton.specs.declared.alternatives.Alternatives.{Alternatives};
ghost use Rattle.hub_automaton.specs.Alphabet.{IsAlphabet, class_of, class_count, sample, with_characters, mentions, path_characters, is_never_mentioned, is_mentioned, is_path_character, MentionsEach, IfOfOneClass, CompareAlike, is_mentioned_or_added};

use crate::spec_set::Spots;
use std::hash::Hash;

/// A class is below the number of classes.
pub fn classes_are_below_their_count()
    ensures { (ms : List ℕ) (x k : ℕ) → class_of ms x ≡ Some k → k < class_count ms }
{}

/// Every character but NUL, LF and CR has a class, and they have none.
pub fn all_characters_of_paths_have_classes()
    ensures some { (ms : List ℕ) (x : ℕ) → is_never_mentioned x ≡ false → (k : ℕ)
        × (class_of ms x ≡ Some k) }
    ensures none { (ms : List ℕ) (x k : ℕ) → class_of ms x ≡ Some k → is_never_mentioned x ≡ false }
{}

/// Mentioned characters and samples are characters that may stand in a path.
pub fn samples_may_stand_in_paths()
    ensures mentioned { (ms : List ℕ) (x : ℕ) → IsAlphabet ms → is_mentioned ms x ≡ true
        → IsTrue (is_path_character x) }
    ensures sample { (ms : List ℕ) (k : ℕ) → IsAlphabet ms → k < class_count ms
        → IsTrue (is_path_character (sample ms k)) }
{}

/// The sample of a class is of that class.
pub fn samples_are_of_their_class()
    ensures { (ms : List ℕ) (k : ℕ) → IsAlphabet ms → k < class_count ms
        → class_of ms (sample ms k) ≡ Some k }
{}

/// Two characters of one class are equal, or neither is mentioned. So no comparison with a mentioned character
/// distinguishes them.
pub fn classes_are_alike()
    ensures { (ms : List ℕ) (x y k c : ℕ) → IfOfOneClass ms k x y (CompareAlike ms c x y) }
{}

/// What is added is mentioned, and what was mentioned stays so.
pub fn what_is_added_is_mentioned()
    ensures added { (ms cs : List ℕ) → IsTrue (mentions (with_characters ms cs) cs) }
    ensures kept { (ms cs ds : List ℕ) → IsTrue (mentions ms ds)
        → IsTrue (mentions (with_characters ms cs) ds) }
{}

/// Exactly those characters are mentioned that were mentioned or are added, but for NUL, LF and CR.
pub fn nothing_else_is_mentioned()
    ensures { (ms cs : List ℕ) (x : ℕ) → is_mentioned (with_characters ms cs) x
        ≡ is_mentioned_or_added ms cs x }
{}

/// `Spots` are equal exactly when their values are, and tie in the order exactly then. Equal ones hash alike.
pub fn spots_compare_exactly()
    ensures equal { (a b : PackedState) → (⟦<Spots as PartialEq>⟧.eq a b ≡ true) ↔ (a ≡ b) }
    ensures tied { (a b : PackedState) → (⟦<Spots as Ord>⟧.cmp a b ≡ Equal) ↔ (a ≡ b) }
    ensures hashed { (a b : PackedState) → ⟦<Spots as PartialEq>⟧.eq a b ≡ true
        → ⟦<Spots as Hash>⟧.hash_input a ≡ ⟦<Spots as Hash>⟧.hash_input b }
{}

/// If two texts lead to the same state, they still do after any character is appended to both. Characters of one class
/// lead to the same state.
pub fn what_is_kept_goes_on_alike()
    ensures same { (ls : List Alternatives) (t u : List ℕ) (x : ℕ)
        → LeadToSame ls t u → LeadToSameWith ls t u x }
    ensures classes { (ms : List ℕ) (ls : List Alternatives) (t : List ℕ) (x y k : ℕ)
        → IsAlphabet ms → AreCovered ms ls
        → IfOfOneClass ms k x y (LeadToOneState ls t x y) }
{}

/// Two texts lead to the same state exactly when the following agree: for each specification, how many pieces of each
/// choice match, and whether a path above matches; and whether the text ends where a component starts.
pub fn the_same_is_kept_of_each_specification()
    ensures { (ls : List Alternatives) (t u : List ℕ) → LeadToSame ls t u ↔ MatchInParts ls t u }
{}

/// If two paths lead to the same state, the same specifications match them.
pub fn what_is_kept_tells_what_matches()
    ensures { (specs : List Specification) (p q : Path) → IsTrue (is_path p) → IsTrue (is_path q)
        → HaveOneState specs p q → any_matches specs p ≡ any_matches specs q }
{}

/// All states of one set have equally many words.
pub fn rows_are_equally_long()
    ensures { (ls : List Alternatives) (t u : List ℕ) → row_length ls t ≡ row_length ls u }
{}

/// If two texts lead to the same state, each specification matches both or neither.
pub fn what_is_kept_tells_each_match()
    ensures { (ls : List Alternatives) (t u : List ℕ) → LeadToSame ls t u
        → each_matched ls t ≡ each_matched ls u }
{}

/// The choices of a specification mention what it mentions.
pub fn choices_mention_what_their_specification_does()
    ensures { (ms : List ℕ) (specs : List Specification) → MentionsEach ms specs
        → ChoicesAreCovered ms specs }
{}

/// The choices of a specification match the text of a path exactly when the specification matches the path.
pub fn choices_match_what_their_specification_does()
    ensures { (s : Specification) (p : Path) → IsTrue (is_path p)
        → is_matched (alternatives_of s) (text_of p) ≡ matches s p }
{}

/// The choice of a path matches its own text alone.
pub fn paths_match_their_text()
    ensures text { (s t : List ℕ) → is_matched (path_alternatives s) t ≡ name_eq s t }
    ensures path { (s : Path) (t : List ℕ) → IsTrue (is_path s)
        → is_matched (path_alternatives (text_of s)) t ≡ path_eq s (path_of t) }
{}

/// The choice of a path mentions the characters of its text.
pub fn paths_mention_their_characters()
    ensures { (ms s : List ℕ) → mentions ms s ≡ true → is_covered ms (path_alternatives s) ≡ true }
{}

/// An alphabet that mentions the names of a path mentions its text.
pub fn texts_mention_what_their_names_do()
    ensures { (ms : List ℕ) (p : Path) → IsAlphabet ms → mentions ms (path_characters p) ≡ true
        → mentions ms (text_of p) ≡ true }
{}

/// A path has a position more than its text has characters.
pub fn paths_have_a_spot_more()
    ensures { (s : List ℕ) → spots_count (path_alternatives s ∷ []) ≡ length s + 1 }
{}
