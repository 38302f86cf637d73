ghost use Rattle.std.specs.Prelude.{◌≡◌};
ghost use Rattle.hub_path.specs.Sides as sides;

use hub_text::Exact;

/// One of the two replicas of a profile, in the order of its `root` lines. The left one is less.
#[derive(Clone, Copy, Debug, PartialEq, Eq, PartialOrd, Ord)]
pub enum Side {
    /// The first root.
    Left,
    /// The second root.
    Right,
}

impl Side {
    /// Returns the other side.
    pub fn other(self) -> Side
        ensures { result ≡ sides.other self }
    {
        match self {
            Side::Left => Side::Right,
            Side::Right => Side::Left,
        }
    }
}

impl Exact for Side {
    ghost use Rattle.hub_text.specs.laws.Exact.{tags_exact};
    ghost use Rattle.hub_path.specs.contracts.side.Side.{enum};

    ghost exact = { tags_exact enum tt };
}
