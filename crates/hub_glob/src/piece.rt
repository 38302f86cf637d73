ghost use Rattle.std.specs.Prelude.{◌≡◌};
ghost use Rattle.hub_glob.specs.Taking as taking;

use hub_text::{Exact, Items};

/// The most characters of a pattern that is read from a text, and so the most pieces (this project's choice).
pub const PATTERN_CHARACTERS: usize = 200;

/// The most choices that a pattern stands for that is read from a text (this project's choice).
pub const PATTERN_CHOICES: usize = 64;

/// One step of a pattern: what it takes of a text.
#[derive(Debug, Drop, PartialEq, Eq)]
pub enum Piece {
    /// This character.
    Lit(char),
    /// Any one character except `/`.
    Any,
    /// A sequence without `/`, possibly empty. At the start of a component its first character is not `.`.
    Run,
    /// One character of the set.
    OneOf(Items<char>),
}

/// A character of a text, and where it stands.
#[derive(Clone, Copy, Debug)]
pub struct NextCharacter {
    /// The character.
    pub character: char,
    /// Whether it stands at the start of a component: at the start of the text, or after a `/`.
    pub first: bool,
}

impl Piece {
    /// Returns whether the piece takes this character next.
    pub fn takes(&self, next: NextCharacter) -> bool
        ensures { result ≡ taking.takes next self.now }
    {
        match self {
            Piece::Lit(c) => next.character == *c,
            Piece::Any => next.character != '/',
            Piece::Run => next.character != '/' && !(next.first && next.character == '.'),
            Piece::OneOf(set) => set.as_slice().contains(&next.character),
        }
    }

    /// Returns whether the piece is a `*`, which may take any number of characters, or none.
    pub fn is_star(&self) -> bool
        ensures { result ≡ taking.is_star self.now }
    {
        matches!(self, Piece::Run)
    }
}

impl Exact for Piece {
    ghost use Rattle.hub_text.specs.laws.Exact.{variants_exact, no_field, last_field, items_exact, nat_exact};
    ghost use Rattle.hub_glob.specs.contracts.piece.Piece.{enum};

    ghost exact = { variants_exact enum _
        (last_field nat_exact, (no_field, (no_field, (last_field (items_exact nat_exact), tt)))) };
}

/// A part of a pattern.
#[derive(Debug, Drop, PartialEq, Eq)]
pub enum Part {
    /// A piece outside braces.
    One(Piece),
    /// A brace: any one of its choices, each a list of pieces.
    Brace(Items<Items<Piece>>),
}

impl Exact for Part {
    ghost use Rattle.hub_text.specs.laws.Exact.{variants_exact, last_field, items_exact};
    ghost use Rattle.hub_glob.specs.contracts.piece.Part.{enum};
    ghost use Rattle.hub_glob.specs.contracts.piece.PieceExact.TheImpl.Laws as piece;

    ghost exact = { variants_exact enum _ (
      last_field piece.exact-law,
      (last_field (items_exact (items_exact piece.exact-law)), tt),
    ) };
}
