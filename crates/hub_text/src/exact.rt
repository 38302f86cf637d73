ghost use Rattle.std.specs.Prelude.{◌≡◌, ◌↔◌, IsTrue};

use crate::items::Items;

/// Types whose `==` is exact: it is true exactly when what contracts see of both values is the same.
///
/// Equality need not be exact in general: a type may compare less than contracts see. `specs/Exact` has what the law of a
/// derived `==` follows from.
pub trait Exact: PartialEq {
    ghost use Rattle.hub_text.specs.Exact.{IsExact};

    ghost exact: { IsExact Self.eq };
}

/// Returns whether both values are the same.
pub fn is_equal<T: Exact>(x: &T, y: &T) -> bool
    ensures { IsTrue result ↔ (x.now ≡ y.now) }
{
    x == y
}

/// Returns whether both lists have the same items in the same order.
pub fn are_equal<T: Exact>(xs: &[T], ys: &[T]) -> bool
    ensures { IsTrue result ↔ (xs.now ≡ ys.now) }
{
    xs == ys
}

impl<T: Exact> Exact for Items<T> {
    ghost use Rattle.hub_text.specs.laws.Exact.{items_exact};

    ghost exact = { items_exact T.exact };
}

impl<T: Exact> Exact for Option<T> {
    ghost use Rattle.hub_text.specs.laws.Exact.{option_exact};

    ghost exact = { option_exact T.exact };
}

impl Exact for bool {
    ghost use Rattle.hub_text.specs.laws.Exact.{bool_exact};

    ghost exact = { bool_exact };
}

impl Exact for char {
    ghost use Rattle.hub_text.specs.laws.Exact.{nat_exact};

    ghost exact = { nat_exact };
}

impl Exact for usize {
    ghost use Rattle.hub_text.specs.laws.Exact.{nat_exact};

    ghost exact = { nat_exact };
}
