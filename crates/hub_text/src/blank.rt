//! Blanks, which are spaces and tabs.
ghost use Rattle.std.specs.Prelude.{◌≡◌, chars};
ghost use Rattle.std.specs.List.{before_first, after_first};
ghost use Rattle.hub_text.specs.Blanks as blanks;

/// The blanks.
pub const BLANKS: [char; 2] = [' ', '\t'];

/// Splits a text at its first blank, which is dropped. Without a blank, returns the whole text and the empty text.
pub fn first_word(text: &str) -> (&str, &str)
    ensures word { chars result.0.now ≡ before_first blanks.is_blank (chars text.now) }
    ensures rest { chars result.1.now ≡ after_first blanks.is_blank (chars text.now) }
{
    text.split_once(BLANKS).unwrap_or((text, ""))
}

/// Returns a text without its leading blanks.
pub fn skip_blanks(text: &str) -> &str
    ensures { chars result.now ≡ blanks.skip_blanks (chars text.now) }
{
    text.trim_start_matches(BLANKS)
}
