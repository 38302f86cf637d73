//! Sets of classes.
ghost use Rattle.std.specs.Prelude.{◌≡◌, ◌<◌, ◌≤◌, ◌||◌, ◌==◌, ◌+◌, ◌*◌, ◌/◌, ℕ, true, false, length, IfOk, MatchOption};
ghost use Rattle.hub_automaton.specs.ClassSets.{AllBelow, Grown, HasNone, IsListed, IsLowest, IsNextClass, IsNextBelow, has, room, HasNoneFrom};

use crate::class::Class;
use crate::words::{WORD_BITS, is_set};
use std::alloc::{AllocError, Global};
use std::marker::Model;

/// A set of classes. Only [`ClassSet::new`] allocates.
#[derive(Debug, Drop)]
pub struct ClassSet {
    words: Vec<u64>,
}

impl Model for ClassSet {
    ghost use Rattle.std.specs.Prelude.{◌≤◌, ◌*◌, ◌^◌, List, ℕ, length};

    ghost Value = { List ℕ };

    ghost view = { λ a. a.words.items };

    ghost invariant = { λ a. 64 * length a.words.items ≤ 2 ^ 64 };
}

impl ClassSet {
    /// Returns the empty set, with room for that many classes.
    pub fn new(alloc: Global, count: usize) -> Result<ClassSet, AllocError>
        ensures room { IfOk result (λ s. count ≤ room s) }
        ensures words { IfOk result (λ s. length s ≡ count / 64 + 1) }
        ensures empty { IfOk result (λ s. (k : ℕ) → has s k ≡ false) }
    {
        Ok(ClassSet {
            words: vec![in alloc; 0u64; count / WORD_BITS + 1]?,
        })
    }

    /// Makes the set empty.
    pub fn clear(&mut self)
        ensures room { length self.new ≡ length self.old }
        ensures empty { (k : ℕ) → has self.new k ≡ false }
    {
        for word in self.words.iter_mut() {
            *word = 0;
        }
    }

    /// Returns whether the class is in the set.
    pub fn has(&self, class: Class) -> bool
        ensures { result ≡ has self.now class }
    {
        is_set(self.words.as_slice(), class.number())
    }

    /// Puts a class into the set.
    pub fn insert(&mut self, class: Class)
        requires { class < room self.old }
        ensures room { length self.new ≡ length self.old }
        ensures has { (k : ℕ) → has self.new k ≡ (has self.old k || k == class) }
    {
        self.words[class.number() / WORD_BITS] |= 1 << (class.number() % WORD_BITS);
    }

    /// Puts those of the classes into the set that stand between two places.
    pub(crate) fn insert_between(&mut self, classes: &[Class], from: usize, to: usize)
        requires { AllBelow (room self.old) classes.now }
        ensures grown { (n : ℕ) → AllBelow n classes.now → Grown self.old self.new n }
        ensures all { (k : ℕ) → IsListed classes.now from to k → has self.new k ≡ true }
    {
        for i in from..to.min(classes.len()) {
            self.insert(classes[i]);
        }
    }

    /// Puts the classes of another set into this one.
    pub fn join(&mut self, other: &ClassSet)
        requires { length other.now ≡ length self.old }
        ensures room { length self.new ≡ length self.old }
        ensures has { (k : ℕ) → has self.new k ≡ (has self.old k || has other.now k) }
    {
        for i in 0..self.words.len() {
            self.words[i] |= other.words[i];
        }
    }

    /// Returns the least class in the set from that one on.
    pub fn next_from(&self, class: Class) -> Option<Class>
        ensures { MatchOption result (HasNoneFrom self.now class) (IsNextClass self.now class) }
    {
        let first = class.number() / WORD_BITS;
        if first >= self.words.len() {
            return None;
        }
        let rest = self.words[first] >> (class.number() % WORD_BITS);
        if rest != 0 {
            return Some(Class::new(class.number() + lowest(rest)));
        }
        self.next_in_words(first + 1)
    }

    /// Returns the number of the least class in the set from the number `from` on, if it is below `classes`.
    pub fn next_below(&self, from: usize, classes: usize) -> Option<usize>
        requires { classes ≤ room self.now }
        ensures { MatchOption result (HasNone self.now from classes)
            (IsNextBelow self.now from classes) }
    {
        let Some(class) = self.next_from(Class::new(from)) else {
            return None;
        };
        let number = class.number();
        if number >= classes {
            return None;
        }
        Some(number)
    }

    /// The least class in the set whose bit is in a word from that one on.
    fn next_in_words(&self, first: usize) -> Option<Class>
        ensures { MatchOption result (HasNoneFrom self.now (64 * first))
            (IsNextClass self.now (64 * first)) }
    {
        for i in first..self.words.len() {
            if self.words[i] != 0 {
                return Some(Class::new(WORD_BITS * i + lowest(self.words[i])));
            }
        }
        None
    }
}

/// The place of the lowest bit that is set.
pub(crate) fn lowest(word: u64) -> usize
    requires { 0 < word }
    ensures { IsLowest word result }
{
    word.trailing_zeros() as usize
}
