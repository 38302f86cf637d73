//! The characters that paths and specifications mention, added to a list in ascending order.
ghost use Rattle.std.specs.Prelude.{◌≡◌, [], ◌∷◌, IfErr, OnOk};
ghost use Rattle.std.specs.List.{flat_map};
ghost use Rattle.hub_automaton.specs.Alphabet as alphabet;
ghost use Rattle.hub_automaton.specs.Alphabet.{Adds, RefusesCharacters};

use crate::alphabet::MENTIONED_CHARACTERS;
use crate::fault::AutomatonFault;
use hub_glob::{Part, PathSpec, Piece};
use hub_path::{Name, RelPath};
use hub_text::Items;

/// Values that mention characters.
pub(crate) trait Mentioning {
    ghost use Rattle.std.specs.Prelude.{List, ℕ};

    /// The characters that a value mentions.
    ghost characters: { Self → List ℕ };

    /// Puts the characters that a value mentions in their places.
    fn put_in(&self, mentioned: &mut Vec<char>) -> Result<(), AutomatonFault>
        requires { alphabet.IsAlphabet mentioned.old.items }
        ensures ok { OnOk result
            (Adds mentioned.old.items mentioned.new.items (characters self.now)) }
        ensures err { IfErr result (RefusesCharacters mentioned.old.items (characters self.now)) }
        ensures alphabet { OnOk result (alphabet.IsAlphabet mentioned.new.items) };
}

/// Puts the characters of some values in their places.
fn put_each<T: Mentioning>(mentioned: &mut Vec<char>, values: &[T]) -> Result<(), AutomatonFault>
    requires { alphabet.IsAlphabet mentioned.old.items }
    ensures ok { OnOk result (Adds mentioned.old.items mentioned.new.items
        (flat_map T.characters values.now)) }
    ensures err { IfErr result (RefusesCharacters mentioned.old.items
        (flat_map T.characters values.now)) }
    ensures alphabet { OnOk result (alphabet.IsAlphabet mentioned.new.items) }
{
    for value in values {
        value.put_in(mentioned)?;
    }
    Ok(())
}

impl Mentioning for PathSpec {
    ghost characters = { alphabet.spec_characters };

    fn put_in(&self, mentioned: &mut Vec<char>) -> Result<(), AutomatonFault> {
        put_each(mentioned, self.pattern())
    }
}

impl Mentioning for Part {
    ghost characters = { alphabet.part_characters };

    fn put_in(&self, mentioned: &mut Vec<char>) -> Result<(), AutomatonFault> {
        match self {
            Part::One(piece) => piece.put_in(mentioned),
            Part::Brace(choices) => choices.put_in(mentioned),
        }
    }
}

impl<T: Mentioning> Mentioning for Items<T> {
    ghost characters = { flat_map T.characters };

    fn put_in(&self, mentioned: &mut Vec<char>) -> Result<(), AutomatonFault> {
        put_each(mentioned, self.as_slice())
    }
}

impl Mentioning for Piece {
    ghost characters = { alphabet.piece_characters };

    fn put_in(&self, mentioned: &mut Vec<char>) -> Result<(), AutomatonFault> {
        match self {
            Piece::Lit(character) => character.put_in(mentioned),
            Piece::Any | Piece::Run => Ok(()),
            Piece::OneOf(set) => set.put_in(mentioned),
        }
    }
}

impl Mentioning for RelPath {
    ghost characters = { alphabet.path_characters };

    fn put_in(&self, mentioned: &mut Vec<char>) -> Result<(), AutomatonFault> {
        for i in 0..self.len() {
            self.name(i).put_in(mentioned)?;
        }
        Ok(())
    }
}

impl Mentioning for Name {
    ghost characters = { λ n. n };

    fn put_in(&self, mentioned: &mut Vec<char>) -> Result<(), AutomatonFault> {
        for character in self.text().chars() {
            character.put_in(mentioned)?;
        }
        Ok(())
    }
}

impl Mentioning for char {
    ghost characters = { λ c. c ∷ [] };

    fn put_in(&self, mentioned: &mut Vec<char>) -> Result<(), AutomatonFault> {
        mention(mentioned, *self)
    }
}

/// Puts a character in its place, unless it is there already or is left out.
fn mention(mentioned: &mut Vec<char>, character: char) -> Result<(), AutomatonFault>
    requires { alphabet.IsAlphabet mentioned.old.items }
    ensures ok { OnOk result (Adds mentioned.old.items mentioned.new.items (character ∷ [])) }
    ensures err { IfErr result (RefusesCharacters mentioned.old.items (character ∷ [])) }
    ensures alphabet { OnOk result (alphabet.IsAlphabet mentioned.new.items) }
{
    if is_left_out(character) {
        return Ok(());
    }
    match mentioned.binary_search(&character) {
        Ok(_) => Ok(()),
        Err(place) => {
            if mentioned.len() >= MENTIONED_CHARACTERS {
                return Err(AutomatonFault::TooManyCharacters);
            }
            mentioned.insert(place, character)?;
            Ok(())
        }
    }
}

/// A character that stands in no path.
pub(crate) fn is_left_out(character: char) -> bool
    ensures { result ≡ alphabet.is_never_mentioned character }
{
    matches!(character, '\0' | '\n' | '\r')
}
