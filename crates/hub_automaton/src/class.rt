ghost use Rattle.std.specs.Prelude.{◌≡◌};

use std::marker::Model;

/// A class of characters, by its number in an alphabet: 0 is the class of all characters that the alphabet doesn't mention,
/// and the others are those of the mentioned characters, in ascending order.
#[derive(Clone, Copy, Debug, PartialEq, Eq, PartialOrd, Ord)]
pub struct Class {
    number: usize,
}

impl Model for Class {
    ghost use Rattle.std.specs.Prelude.{ℕ};

    ghost Value = { ℕ };

    ghost view = { λ a. a.number };

    ghost inverse = { λ n. record { number = n } };
}

impl Class {
    /// Returns the class with that number.
    pub fn new(number: usize) -> Class
        ensures { result ≡ number }
    {
        Class { number }
    }

    /// Returns the number of the class.
    pub fn number(self) -> usize
        ensures { result ≡ self }
    {
        self.number
    }
}
