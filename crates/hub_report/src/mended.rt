//! The answer with lines that make a set safe.
ghost use Rattle.std.specs.Prelude.{◌≡◌, IfOk};
ghost use Rattle.hub_report.specs.Blocks.{bytes_in};
ghost use Rattle.hub_report.specs.Report.{mended_status};

use crate::told::{Answer, Told, ToldMended};
use std::alloc::{AllocError, Global};

/// Lines that were found for profiles, and whether the set is safe with them.
#[derive(Drop)]
pub struct Mended {
    /// The lines and what is said of the set with them, or the bundle with the lines in place.
    pub text: Vec<u8>,
    /// Whether the set with the lines is safe.
    pub safe: bool,
    /// What the lines tell.
    pub told: ToldMended,
}

impl Mended {
    /// The exit status: 0 if the set is safe, else 1.
    pub(crate) fn status(&self) -> u8
        ensures { result ≡ mended_status self.now.safe }
    {
        if self.safe { 0 } else { 1 }
    }

    /// The text, and what it tells.
    pub(crate) fn into_answer(self, alloc: Global) -> Result<Answer, AllocError>
        ensures { IfOk result (λ a. bytes_in a.text ≡ self.text.items) }
    {
        Answer::of_bytes(alloc, self.text, Told::Mended(self.told))
    }
}
