//! The shape of a text's last component.
ghost use Rattle.std.specs.Prelude.{◌≡◌, ◌++◌, ◌∷◌, [], ℕ, List, IsTrue};
ghost use Rattle.hub_path.specs.Path.{path_of, is_path};
ghost use Rattle.hub_reach.specs.Shape as shape;

/// The shape of a text's last component: whether the text is the text of a path, or may become one.
#[derive(Clone, Copy, Debug, PartialEq, Eq, PartialOrd, Ord, Hash)]
pub enum Shape {
    /// A name begins: the text is empty, or ends with `/`.
    Start,
    /// The last component is `.`.
    Dot,
    /// The last component is `..`.
    DotDot,
    /// The last component is a name, and the text is that of a path.
    Named,
    /// No path's text begins with the text.
    Broken,
}

impl Shape {
    /// Returns whether the text is that of a path.
    pub(crate) fn is_named(self) -> bool
        ensures { result ≡ shape.is_named self }
    {
        matches!(self, Shape::Named)
    }

    /// Returns whether no path's text begins so.
    pub(crate) fn is_broken(self) -> bool
        ensures { result ≡ shape.is_broken_shape self }
    {
        matches!(self, Shape::Broken)
    }

    /// The shape of the text with one more character, which may stand in a path's text.
    pub(crate) fn push(self, character: char) -> Shape
        requires { IsTrue (shape.is_text_character character) }
        ensures { (t : List ℕ) → self ≡ shape.shape_of t
            → result ≡ shape.shape_of (t ++ character ∷ []) }
    {
        self.pushed(character == '/', character == '.')
    }

    /// The same, where the character is a `/`, a `.` or another one.
    pub(crate) fn pushed(self, slash: bool, dot: bool) -> Shape
        ensures { result ≡ shape.pushed_by self slash dot }
    {
        match self {
            Shape::Broken => Shape::Broken,
            Shape::Named if slash => Shape::Start,
            Shape::Start | Shape::Dot | Shape::DotDot if slash => Shape::Broken,
            Shape::Start if dot => Shape::Dot,
            Shape::Dot if dot => Shape::DotDot,
            _ => Shape::Named,
        }
    }
}
