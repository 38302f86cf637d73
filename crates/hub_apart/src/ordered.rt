//! Lines in the order of a set's.
ghost use Rattle.std.specs.Prelude.{◌≡◌};
ghost use Rattle.hub_apart.specs.Ordered as said;

use crate::searched::Apart;
use hub_cert::CheckFault;
use hub_rounds::{Subject, subject_of};
use hub_text::Items;
use std::alloc::AllocError;

impl Apart {
    ghost use Rattle.std.specs.Prelude.{◌≡◌, IfOk};
    ghost use Rattle.std.specs.List.Sorted.{IsPermutation};
    ghost use Rattle.hub_apart.specs.Ordered as said;

    /// Returns the lines in the order of a set's: clashes by who writes, then what is about one profile alone. Lines of one writer
    /// keep their order, and so do those about one profile.
    pub fn by_writer(self) -> Result<Apart, AllocError>
        ensures profiles { IfOk result (λ a. a.profiles ≡ self.profiles) }
        ensures rules { IfOk result (λ a. a.rules ≡ self.rules) }
        ensures lines { IfOk result (λ a. IsPermutation self.lines a.lines) }
        ensures order { IfOk result (λ a. said.AreByWriter a.lines) }
        ensures kept { IfOk result (λ a. said.KeepTheirOrder self.lines a.lines) }
    {
        let Apart {
            profiles,
            rules,
            lines,
        } = self;
        let mut lines = lines.into_vec();
        lines.sort_by_key(|line| writer_of(line))?;
        Ok(Apart {
            profiles,
            rules,
            lines: Items::from_vec(lines),
        })
    }
}

/// The number of the profile that writes, or one that no profile has if the line is about no two.
fn writer_of(line: &CheckFault) -> usize
    ensures { result ≡ said.writer_of line.now }
{
    match subject_of(line) {
        Subject::Pair { writer, .. } => writer,
        _ => usize::MAX,
    }
}
