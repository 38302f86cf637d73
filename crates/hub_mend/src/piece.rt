use hub_text::Items;

/// A part of a bundle's text, and lines that are to follow it.
#[derive(Debug, Drop)]
pub struct Piece {
    /// The part.
    pub text: Vec<u8>,
    /// The name of the profile whose section the part is, or the empty text.
    pub name: String,
    /// The lines.
    pub lines: Vec<String>,
}
