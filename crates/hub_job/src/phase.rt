//! How far a job is.
ghost use Rattle.std.specs.Prelude.{◌≡◌, ◌<◌, ℕ, [], IfOk, IsOk, OnOk};
ghost use Rattle.hub_job.specs.Job as spec;
ghost use Rattle.hub_job.specs.Phase.{Follows, IsNext, is_stopped};
ghost use Rattle.hub_job.specs.Run.{Runs};

use crate::log::Logged;
use crate::looks::Looks;
use crate::op::Next;
use crate::planned::steps_after;
use crate::steps::Steps;
use hub_profile::Profile;
use hub_tree::Archive;
use std::alloc::{AllocError, Global};

/// How far a job is.
#[derive(Drop)]
pub(crate) enum Phase {
    /// It makes Looks.
    Looking(Looks),
    /// It has made all Looks.
    Making(Steps),
    /// It was stopped, or found no memory.
    Stopped,
}

/// Returns what a job does after this log, and goes on to the phase where it does. After the first step of its plan it
/// allocates only to ask. Out of memory may leave any phase.
pub(crate) fn next_of(
    alloc: Global,
    profile: &Profile,
    archive: &Archive,
    log: &[Logged],
    phase: &mut Phase,
) -> Result<Next, AllocError>
    requires follows { Follows profile.now archive.now log.now phase.old }
    requires run { (j : ℕ) × Runs profile.now archive.now j [] log.now }
    ensures next { IfOk result (IsNext profile.now archive.now log.now phase.new) }
    ensures stopped { OnOk result (is_stopped phase.new ≡ is_stopped phase.old) }
    ensures memory { spec.IfAsksNoMore profile.now archive.now log.now (IsOk result) }
{
    match phase {
        Phase::Looking(looks) => {
            looks.tell(log)?;
            if let Some(next) = looks.next()? {
                return Ok(next);
            }
            let steps = steps_after(alloc, profile, archive, log)?;
            let next = steps.next(log)?;
            *phase = Phase::Making(steps);
            Ok(next)
        }
        Phase::Making(steps) => steps.next(log),
        Phase::Stopped => Ok(Next::Stopped),
    }
}
