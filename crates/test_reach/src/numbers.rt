//! Tables that number what texts lead to.
ghost use Rattle.hub_reach.specs.Mention.{Mentions};

use crate::given::alphabet_of;
use anyhow::Result;
use hub_automaton::{Alphabet, Class, SpecSet};
use hub_profile::Profile;
use hub_reach::{SpecTable, Table, Walker};
use std::alloc::{AllocError, Global};

/// A table that numbers what texts lead to.
pub(crate) trait Numbers {
    /// Makes the table of a profile.
    fn of_profile(alloc: Global, profile: &Profile, alphabet: &Alphabet) -> Result<Box<Self>>
        requires { Mentions alphabet.now profile.now };

    /// The number of the empty text.
    fn first_number(&mut self) -> Result<usize, AllocError>;

    /// The next number. A class that the table doesn't have changes nothing.
    fn next_number(&mut self, number: usize, class: Class) -> Result<usize, AllocError>;

    /// The number, and what the table says of its texts.
    fn number_text(&self, alloc: Global, number: usize) -> Result<String, AllocError>;

    /// How many numbers there are.
    fn count(&self) -> usize;
}

/// For each of these texts in turn its number and what the table of a profile says of it, and then how many numbers there are.
pub(crate) fn numbers_of<N: Numbers + Drop>(
    alloc: Global,
    profile: &Profile,
    texts: &str,
) -> Result<String> {
    let alphabet = alphabet_of(alloc, profile)?;
    let mut table = N::of_profile(alloc, profile, &alphabet)?;
    Ok(numbers_text(alloc, &alphabet, &mut *table, texts)?)
}

fn numbers_text<N: Numbers>(
    alloc: Global,
    alphabet: &Alphabet,
    table: &mut N,
    texts: &str,
) -> Result<String, AllocError> {
    let mut numbers = Vec::new(alloc);
    for text in texts.split("; ") {
        let number = number_after(alphabet, table, text)?;
        numbers.push(table.number_text(alloc, number)?)?;
    }
    let numbers = numbers.as_slice().join(alloc, ", ")?;
    format!(in alloc; "{numbers} of {}", table.count())
}

/// The number of a text.
pub(crate) fn number_after<N: Numbers>(
    alphabet: &Alphabet,
    table: &mut N,
    text: &str,
) -> Result<usize, AllocError> {
    let mut number = table.first_number()?;
    for character in text.chars() {
        if let Some(class) = alphabet.class_of(character) {
            number = table.next_number(number, class)?;
        }
    }
    Ok(number)
}

impl Numbers for Table {
    /// Makes the table of a profile's walker.
    fn of_profile(alloc: Global, profile: &Profile, alphabet: &Alphabet) -> Result<Box<Table>> {
        let walker = Walker::new(alloc, profile, alphabet)?;
        Ok(Box::new(alloc, Table::new(alloc, walker))?)
    }

    fn first_number(&mut self) -> Result<usize, AllocError> {
        self.start()
    }

    fn next_number(&mut self, number: usize, class: Class) -> Result<usize, AllocError> {
        if number < self.len() && class.number() < self.walker().class_count() {
            return self.next(number, class);
        }
        Ok(number)
    }

    /// The number, whether the path of its stage is reached, and whether its texts are broken.
    fn number_text(&self, alloc: Global, number: usize) -> Result<String, AllocError> {
        if number >= self.len() {
            return format!(in alloc; "{number}");
        }
        let reached = if self.reached(number) { " reached" } else { "" };
        let broken = if self.stage(number).is_broken() {
            " broken"
        } else {
            ""
        };
        format!(in alloc; "{number}{reached}{broken}")
    }

    fn count(&self) -> usize {
        self.len()
    }
}

impl Numbers for SpecTable {
    /// Makes the table of what a profile ignores.
    fn of_profile(alloc: Global, profile: &Profile, alphabet: &Alphabet) -> Result<Box<SpecTable>> {
        let set = SpecSet::build(alloc, alphabet, profile.ignore())?;
        Ok(Box::new(alloc, SpecTable::new(alloc, set))?)
    }

    fn first_number(&mut self) -> Result<usize, AllocError> {
        self.start()
    }

    fn next_number(&mut self, number: usize, class: Class) -> Result<usize, AllocError> {
        if number < self.len() && class.number() < self.set().class_count() {
            return self.next(number, class);
        }
        Ok(number)
    }

    /// The number, and whether its texts are matched.
    fn number_text(&self, alloc: Global, number: usize) -> Result<String, AllocError> {
        if number < self.len() && self.matched(number) {
            return format!(in alloc; "{number} matched");
        }
        format!(in alloc; "{number}")
    }

    fn count(&self) -> usize {
        self.len()
    }
}
