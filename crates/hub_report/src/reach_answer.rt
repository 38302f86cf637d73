//! The answer to whether a profile reaches a path.
ghost use Rattle.std.specs.Prelude.{◌≡◌, IfOk};
ghost use Rattle.hub_report.specs.Blocks.{bytes_in};
ghost use Rattle.hub_report.specs.ReachAnswer as spec;

use crate::blocks::{Blocks, block_of};
use crate::faults::{fault_line, path_fault_name};
use crate::parts::joined;
use crate::told::{Answer, Told};
use hub_path::PathFault;
use std::alloc::{AllocError, Global};

/// Whether a profile reaches a path.
#[derive(Drop)]
pub enum ReachAnswer<'a> {
    /// The profile reaches the path.
    Reached,
    /// The profile doesn't reach the path.
    NotReached,
    /// No profile has the name that was asked for, which is given as it was written.
    NoProfile(&'a str),
    /// The path that was asked for is not a path.
    BadPath(PathFault),
}

impl ReachAnswer<'_> {
    /// The exit status: 0 for both answers, 2 for a fault.
    pub(crate) fn status(&self) -> u8
        ensures { result ≡ spec.status_of self.now }
    {
        match self {
            ReachAnswer::Reached | ReachAnswer::NotReached => 0,
            ReachAnswer::NoProfile(_) | ReachAnswer::BadPath(_) => 2,
        }
    }

    /// The answer in words, or the line of the fault, and what it tells.
    pub(crate) fn into_answer(self, alloc: Global) -> Result<Answer, AllocError>
        ensures { IfOk result (λ a. bytes_in a.text ≡ spec.text_of self.entry) }
    {
        let text = self.text(alloc)?;
        let told = self.told();
        Ok(Answer {
            text,
            told,
            totals: None,
        })
    }

    /// The answer in words, or the line of the fault.
    fn text(&self, alloc: Global) -> Result<Blocks, AllocError>
        ensures { IfOk result (λ t. bytes_in t ≡ spec.text_of self.now) }
    {
        match self {
            ReachAnswer::Reached => block_of(alloc, "reached\n"),
            ReachAnswer::NotReached => block_of(alloc, "not reached\n"),
            ReachAnswer::NoProfile(name) => no_profile_line(alloc, *name),
            ReachAnswer::BadPath(fault) => fault_line(alloc, "path", path_fault_name(*fault)),
        }
    }

    /// What the answer tells.
    fn told(&self) -> Told {
        match self {
            ReachAnswer::Reached => Told::Other,
            ReachAnswer::NotReached => Told::NotReached,
            ReachAnswer::NoProfile(_) => Told::NoProfile,
            ReachAnswer::BadPath(fault) => Told::BadPath(*fault),
        }
    }
}

/// The line that no profile has that name.
fn no_profile_line(alloc: Global, name: &str) -> Result<Blocks, AllocError>
    ensures { IfOk result (λ t. bytes_in t ≡ spec.no_profile_line name.now) }
{
    let line = joined(alloc, &["fault: no profile ", name, "\n"])?;
    Blocks::new(alloc, line.into_bytes())
}
