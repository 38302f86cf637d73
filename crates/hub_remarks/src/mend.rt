//! Answers that are lines for profiles.

use crate::unison::has_word;
use hub_report::Told;

/// Returns whether lines are asked for that make a set safe.
pub(crate) fn is_mend(words: &[String]) -> bool {
    words.get(1).is_some_and(|word| word.as_str() == "mend")
}

/// Returns whether these lines are asked for in the bundle.
pub(crate) fn is_bundle(words: &[String]) -> bool {
    has_word(words, "--bundle")
}

/// Returns whether there are such lines in an answer.
pub(crate) fn lines_found(told: &Told) -> bool {
    match told {
        Told::Mended(mended) => mended.has_lines,
        _ => false,
    }
}
