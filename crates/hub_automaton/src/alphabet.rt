ghost use Rattle.std.specs.Prelude.{◌≡◌, ◌↔◌, ◌+◌, ◌<◌, ◌≤◌, [], ◌∷◌, length, map, true, IfOk, IfErr, IfSome, OnOk, OnErr};
ghost use Rattle.hub_automaton.specs.Alphabet as alphabet;

use crate::class::Class;
use crate::fault::AutomatonFault;
use crate::mentions::{Mentioning, is_left_out};
use hub_glob::PathSpec;
use hub_path::RelPath;
use std::alloc::{AllocError, Global};
use std::marker::Model;

/// How many characters an alphabet may mention (this project's choice).
pub const MENTIONED_CHARACTERS: usize = 512;

/// The characters that some paths and specifications mention, and `.` and `/`, which are always among them.
///
/// No path or specification that was added distinguishes two characters that aren't mentioned. So all those form one
/// class, and each mentioned character is a class of its own. NUL, CR and LF can't occur in a path: they are never
/// mentioned and have no class. The mentioned characters are in ascending order.
#[derive(Debug, Drop)]
pub struct Alphabet {
    mentioned: Vec<char>,
}

impl Model for Alphabet {
    ghost use Rattle.std.specs.Prelude.{List, ℕ};
    ghost use Rattle.hub_automaton.specs.Alphabet.{IsAlphabet};

    ghost Value = { List ℕ };

    ghost view = { λ a. a.mentioned.items };

    ghost invariant = { λ a. IsAlphabet a.mentioned.items };
}

impl Alphabet {
    /// Returns the alphabet that mentions only `.` and `/`. The only fault is `OutOfMemory`.
    pub fn new(alloc: Global) -> Result<Alphabet, AutomatonFault>
        ensures ok { IfOk result (λ a. a ≡ alphabet.plain) }
        ensures err { IfErr result (λ e. e ≡ AutomatonFault.OutOfMemory) }
    {
        let mentioned = Vec::from_slice(alloc, &['.', '/'])?;
        Ok(Alphabet { mentioned })
    }

    /// Mentions the characters of a path.
    ///
    /// The fault is `TooManyCharacters` where more than `MENTIONED_CHARACTERS` would be mentioned then, or `OutOfMemory`.
    /// After either the alphabet is as it was.
    pub fn add_path(&mut self, path: &RelPath) -> Result<(), AutomatonFault>
        ensures ok { OnOk result (self.new
            ≡ alphabet.with_characters self.old (alphabet.path_characters path.now)) }
        ensures few { OnOk result (length self.new ≤ MENTIONED_CHARACTERS) }
        ensures err { IfErr result (alphabet.RefusesCharacters self.old (alphabet.path_characters path.now)) }
        ensures kept { OnErr result (self.new ≡ self.old) }
    {
        self.add(path)
    }

    /// Mentions the characters of a specification: its literals, and the members of its sets. NUL, CR and LF, which
    /// match nothing in a path, aren't mentioned.
    ///
    /// The fault is `TooManyCharacters` where more than `MENTIONED_CHARACTERS` would be mentioned then, or `OutOfMemory`.
    /// After either the alphabet is as it was.
    pub fn add_spec(&mut self, spec: &PathSpec) -> Result<(), AutomatonFault>
        ensures ok { OnOk result (self.new
            ≡ alphabet.with_characters self.old (alphabet.spec_characters spec.now)) }
        ensures few { OnOk result (length self.new ≤ MENTIONED_CHARACTERS) }
        ensures err { IfErr result (alphabet.RefusesCharacters self.old (alphabet.spec_characters spec.now)) }
        ensures kept { OnErr result (self.new ≡ self.old) }
    {
        self.add(spec)
    }

    /// Mentions the characters of a value.
    fn add<T: Mentioning>(&mut self, value: &T) -> Result<(), AutomatonFault>
        ensures ok { OnOk result (self.new
            ≡ alphabet.with_characters self.old (T.characters value.now)) }
        ensures few { OnOk result (length self.new ≤ MENTIONED_CHARACTERS) }
        ensures err { IfErr result (alphabet.RefusesCharacters self.old (T.characters value.now)) }
        ensures kept { OnErr result (self.new ≡ self.old) }
    {
        let mut mentioned = Vec::from_slice(
            *self.mentioned.allocator(),
            self.mentioned.as_slice(),
        )?;
        value.put_in(&mut mentioned)?;
        self.mentioned = mentioned;
        Ok(())
    }

    /// Returns the number of classes. The classes are the numbers below it.
    pub fn count(&self) -> usize
        ensures count { result ≡ alphabet.class_count self.now }
        ensures valid { alphabet.IsAlphabet self.now }
    {
        self.mentioned.len() + 1
    }

    /// Returns the class of a character, or `None` for NUL, CR and LF.
    pub fn class_of(&self, character: char) -> Option<Class>
        ensures class { result ≡ alphabet.class_of self.now character }
        ensures below { IfSome result (λ k. k < alphabet.class_count self.now) }
        ensures none { (result ≡ None) ↔ (alphabet.is_never_mentioned character ≡ true) }
    {
        if is_left_out(character) {
            return None;
        }
        let number = match self.mentioned.binary_search(&character) {
            Ok(place) => place + 1,
            Err(_) => 0,
        };
        Some(Class::new(number))
    }

    /// Returns a representative of each class, in the order of their numbers.
    pub fn samples(&self, alloc: Global) -> Result<Vec<char>, AllocError>
        ensures items { IfOk result (λ v. v.items
            ≡ alphabet.first_unmentioned self.now ∷ self.now) }
        ensures alphabet { OnOk result (alphabet.IsAlphabet self.now) }
    {
        let mut samples = Vec::with_capacity(alloc, self.count())?;
        samples.push(first_unmentioned(self.mentioned.as_slice()))?;
        samples.extend_from_slice(self.mentioned.as_slice())?;
        Ok(samples)
    }

    /// Returns a representative of the class: for class 0 the first character from `a` on that isn't mentioned, and for
    /// every other class its only character.
    pub fn sample(&self, class: Class) -> char
        requires { class < alphabet.class_count self.now }
        ensures { result ≡ alphabet.sample self.now class }
    {
        let number = class.number();
        if number == 0 {
            first_unmentioned(self.mentioned.as_slice())
        } else {
            self.mentioned[number - 1]
        }
    }
}

/// The first character from `a` on that isn't mentioned. As so few are, it comes long before the numbers that are no
/// characters.
fn first_unmentioned(mentioned: &[char]) -> char
    requires { alphabet.IsAlphabet mentioned.now }
    ensures { result ≡ alphabet.first_unmentioned mentioned.now }
{
    let mut code: u32 = 97;
    for character in mentioned {
        if u32::from(*character) == code {
            code += 1;
        }
    }
    char::from_u32(code).unwrap_or('a')
}
