//! The answer that a set is safe.
ghost use Rattle.std.specs.Prelude.{◌≡◌, IfOk};
ghost use Rattle.hub_report.specs.Blocks.{bytes_in};
ghost use Rattle.hub_report.specs.Verdict as spec;

use crate::told::{Answer, Told};
use std::alloc::{AllocError, Global};

/// That the profiles may run at the same time.
#[derive(Drop)]
pub enum Verdict {
    /// They may.
    Safe,
    /// The bundle's certificates show that they may.
    Verified,
    /// The text of certificates that they may.
    Certified(String),
}

impl Verdict {
    /// The verdict in a word, or the text of the certificates.
    pub(crate) fn into_answer(self, alloc: Global) -> Result<Answer, AllocError>
        ensures { IfOk result (λ a. bytes_in a.text ≡ spec.text_of self) }
    {
        match self {
            Verdict::Safe => Answer::of_line(alloc, "safe\n", Told::Yes),
            Verdict::Verified => Answer::of_line(alloc, "verified\n", Told::Yes),
            Verdict::Certified(text) => Answer::of_bytes(alloc, text.into_bytes(), Told::Yes),
        }
    }
}
