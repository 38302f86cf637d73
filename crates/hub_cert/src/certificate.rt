//! Certificates: lists of texts that rule goals out.
ghost use Rattle.std.specs.Prelude.{◌≡◌, IsTrue, chars};
ghost use Rattle.std.specs.Str.{all_scalars};

pub(crate) mod draft;
pub(crate) mod reading;
pub(crate) mod row;
pub(crate) mod writing;

use crate::goal::Goal;
use crate::verifier::stage_texts::StageTexts;
use std::marker::Model;

/// A text that leads to a stage: that of the goal's product after it.
#[derive(Debug, Drop)]
pub struct StageText {
    text: String,
}

impl Model for StageText {
    ghost use Rattle.std.specs.Prelude.{List, ℕ, chars, string_bytes};

    ghost Value = { List ℕ };

    ghost use Rattle.std.specs.Prelude.{IsTrue};
    ghost use Rattle.std.specs.Str.{all_scalars};

    ghost view = { λ a. chars (string_bytes a.text) };

    ghost invariant = { λ a. IsTrue (all_scalars (chars (string_bytes a.text))) };
}

impl StageText {
    ghost use Rattle.std.specs.Prelude.{string_bytes};

    /// Makes the stage's text of a string.
    pub fn new(text: String) -> StageText
        ensures { result ≡ chars (string_bytes text) }
    {
        StageText { text }
    }

    /// Borrows the text.
    pub fn as_str(&self) -> &str
        ensures text { chars result.now ≡ self.now }
        ensures valid { IsTrue (all_scalars self.now) }
    {
        self.text.as_str()
    }
}

/// A goal and texts, which rule it out if they are inductive for it: one of them has the stage of the empty text; for each
/// of them and every character that may stand in a path's text, one of them has the stage of the text followed by that
/// character; and the goal accepts none of them.
#[derive(Debug, Drop)]
pub struct Certificate {
    /// The goal.
    pub goal: Goal,
    /// A text for each stage. A stage's number is its place, from 0 on.
    pub stages: StageTexts,
}
