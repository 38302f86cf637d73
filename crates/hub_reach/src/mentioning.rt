//! Values that mention characters.
ghost use Rattle.std.specs.Prelude.{◌≡◌, IfErr, OnOk, OnErr};
ghost use Rattle.std.specs.List.{flat_map};
ghost use Rattle.hub_automaton.specs.Alphabet.{path_characters, spec_characters, with_characters, RefusesCharacters};
ghost use Rattle.hub_reach.specs.Mention.{mentioned_by, partial_characters, rule_characters, IsPartly};

use crate::mentions::mention;
use hub_automaton::{Alphabet, AutomatonFault};
use hub_glob::PathSpec;
use hub_path::RelPath;
use hub_profile::{Partial, Profile, Rule};

/// Values that mention characters: a path those of its names, a specification those of its pattern.
pub trait Mentioning {
    ghost use Rattle.std.specs.Prelude.{List, ℕ};

    /// The characters that a value mentions.
    ghost characters: { Self → List ℕ };

    /// Adds the characters that a value mentions to an alphabet.
    ///
    /// The fault is `TooManyCharacters` if more than `MENTIONED_CHARACTERS` would be mentioned then, or `OutOfMemory`.
    /// After either some of the characters may have been added.
    fn add_characters(&self, alphabet: &mut Alphabet) -> Result<(), AutomatonFault>
        ensures ok { OnOk result (alphabet.new
            ≡ with_characters alphabet.old (characters self.now)) }
        ensures err { IfErr result (RefusesCharacters alphabet.old (characters self.now)) }
        ensures partly { OnErr result (IsPartly alphabet.old
            (characters self.now) alphabet.new) };
}

/// Adds the characters that some values mention to an alphabet, in the order of the values.
///
/// The fault is `TooManyCharacters` if more than `MENTIONED_CHARACTERS` would be mentioned then, or `OutOfMemory`. After
/// either some of the characters may have been added: those of the first values first.
pub fn mention_each<T: Mentioning>(
    alphabet: &mut Alphabet,
    values: &[T],
) -> Result<(), AutomatonFault>
    ensures ok { OnOk result (alphabet.new
        ≡ with_characters alphabet.old (flat_map T.characters values.now)) }
    ensures err { IfErr result (RefusesCharacters alphabet.old (flat_map T.characters values.now)) }
    ensures partly { OnErr result (IsPartly alphabet.old
        (flat_map T.characters values.now) alphabet.new) }
{
    for value in values {
        value.add_characters(alphabet)?;
    }
    Ok(())
}

impl Mentioning for RelPath {
    ghost characters = { path_characters };

    #[tactic(auto, using(crate::proofs::Grows::partly_none))]
    fn add_characters(&self, alphabet: &mut Alphabet) -> Result<(), AutomatonFault> {
        alphabet.add_path(self)
    }
}

impl Mentioning for PathSpec {
    ghost characters = { spec_characters };

    #[tactic(auto, using(crate::proofs::Grows::partly_none))]
    fn add_characters(&self, alphabet: &mut Alphabet) -> Result<(), AutomatonFault> {
        alphabet.add_spec(self)
    }
}

impl Mentioning for Partial {
    ghost characters = { partial_characters };

    #[tactic(auto, using(crate::proofs::Grows::partly_none))]
    fn add_characters(&self, alphabet: &mut Alphabet) -> Result<(), AutomatonFault> {
        alphabet.add_spec(&self.spec)
    }
}

impl Mentioning for Rule {
    ghost characters = { rule_characters };

    #[tactic(auto, using(crate::proofs::Grows::partly_none))]
    fn add_characters(&self, alphabet: &mut Alphabet) -> Result<(), AutomatonFault> {
        alphabet.add_spec(&self.spec)
    }
}

impl Mentioning for Profile {
    ghost characters = { mentioned_by };

    fn add_characters(&self, alphabet: &mut Alphabet) -> Result<(), AutomatonFault> {
        mention(alphabet, self)
    }
}
