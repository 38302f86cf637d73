//! The words that stand for texts.

/// The text that a word stands for: `-` is the empty one, and every other word is the text itself.
pub(crate) fn text_of(word: &str) -> &str {
    if word == "-" { "" } else { word }
}

/// The word that stands for a text.
pub(crate) fn word_of(text: &str) -> &str {
    if text.is_empty() { "-" } else { text }
}
