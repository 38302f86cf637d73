ghost use Rattle.std.specs.Prelude.{◌≡◌};

use hub_text::Exact;
use std::marker::Model;

/// A borrowed value. Contracts see the value.
#[derive(Drop)]
pub(crate) struct Borrowed<'a, T> {
    item: &'a T,
}

impl<'a, T> Model for Borrowed<'a, T> {
    ghost Value = { T };

    ghost view = { λ a. a.item.now };
}

impl<'a, T> Borrowed<'a, T> {
    /// Lends a value.
    pub(crate) fn new(item: &'a T) -> Borrowed<'a, T>
        ensures { result ≡ item.now }
    {
        Borrowed { item }
    }

    /// Borrows the value.
    pub(crate) fn item(&self) -> &'a T
        ensures { result.now ≡ self.now }
    {
        self.item
    }
}

impl<T: PartialEq> PartialEq for Borrowed<'_, T> {
    ghost eq = { T.eq };

    ghost laws = { T.PartialEq.laws };

    fn eq(&self, other: &Borrowed<'_, T>) -> bool {
        self.item == other.item
    }
}

impl<T: Eq> Eq for Borrowed<'_, T> {
    ghost laws = { T.Eq.laws };
}

impl<T: Exact> Exact for Borrowed<'_, T> {
    ghost exact = { T.exact };
}
