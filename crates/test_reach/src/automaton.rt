//! An automaton together with its alphabet.
use crate::given::{alphabet_of, profile_ignoring};
use anyhow::Result;
use hub_automaton::{Alphabet, Class, SpecSet, Spots};
use hub_profile::Profile;
use std::alloc::{AllocError, Global};
use test_kit::digit;

/// An automaton, and the alphabet that it is over.
#[derive(Drop)]
pub(crate) struct Automaton {
    /// The alphabet.
    pub(crate) alphabet: Alphabet,
    /// The automaton of specifications, or of a path.
    pub(crate) set: SpecSet,
}

impl Automaton {
    /// Makes the automaton of specifications, with `; ` between them.
    pub(crate) fn of_specs(alloc: Global, specs: &str) -> Result<Box<Automaton>> {
        let profile = profile_ignoring(alloc, specs)?;
        Automaton::ignoring(alloc, &profile)
    }

    /// Makes the automaton of what a profile ignores.
    fn ignoring(alloc: Global, profile: &Profile) -> Result<Box<Automaton>> {
        let alphabet = alphabet_of(alloc, profile)?;
        let set = SpecSet::build(alloc, &alphabet, profile.ignore())?;
        Ok(Box::new(alloc, Automaton { alphabet, set })?)
    }

    /// The state after a text.
    pub(crate) fn state_after(&self, text: &str) -> Result<Spots, AllocError> {
        let mut state = self.set.start()?;
        for character in text.chars() {
            if let Some(class) = self.alphabet.class_of(character) {
                state = self.advance(state, class)?;
            }
        }
        Ok(state)
    }

    /// Returns whether one of the specifications matches what has been read of a text, after each of its characters, as `0` and `1`.
    pub(crate) fn walk(&self, alloc: Global, text: &str) -> Result<String, AllocError> {
        let mut state = self.set.start()?;
        let mut matched = String::new(alloc);
        for character in text.chars() {
            if let Some(class) = self.alphabet.class_of(character) {
                state = self.advance(state, class)?;
                matched.push(digit(self.set.matched(&state)))?;
            }
        }
        Ok(matched)
    }

    /// The next state. A class that the automaton doesn't have changes nothing.
    fn advance(&self, state: Spots, class: Class) -> Result<Spots, AllocError> {
        if class.number() < self.set.class_count() {
            return self.set.advance(&state, class);
        }
        Ok(state)
    }

    /// The same as `walk`, by states that are written over `next`.
    pub(crate) fn walk_in_place(
        &self,
        alloc: Global,
        text: &str,
        next: &mut Spots,
    ) -> Result<String, AllocError> {
        let mut state = self.set.start()?;
        let mut matched = String::new(alloc);
        for character in text.chars() {
            if let Some(class) = self.alphabet.class_of(character) {
                self.advance_in_place(&mut state, class, next)?;
                matched.push(digit(self.set.matched(next)))?;
            }
        }
        Ok(matched)
    }

    /// Writes the next state over `next`, and a copy of it over `state`. A class that the automaton doesn't have changes
    /// nothing.
    fn advance_in_place(
        &self,
        state: &mut Spots,
        class: Class,
        next: &mut Spots,
    ) -> Result<(), AllocError> {
        if class.number() < self.set.class_count() {
            self.set.advance_into(state, class, next)?;
            next.copy_into(state)?;
        }
        Ok(())
    }
}
