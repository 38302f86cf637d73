//! Why a table of hosts can't be read.

use std::alloc::{AllocError, AllocFailed};

/// Why a table of hosts can't be read.
#[derive(Clone, Copy, Debug, PartialEq, Eq)]
pub enum HostsFault {
    /// The line of this number, from 1 on, isn't `HOST PATH` with an absolute path.
    BadLine(usize),
    /// The line of this number is a second one for its host.
    SecondLine(usize),
    /// Out of memory.
    OutOfMemory,
}

impl From<AllocError> for HostsFault {
    ghost use Rattle.hub_hosts.specs.declared.fault.HostsFault.TheVariants.{OutOfMemory};
    ghost use Rattle.std.specs.Prelude.{◌≡◌};

    ghost from_gives = { λ _ e. e ≡ OutOfMemory };

    fn from(_: AllocError) -> Self {
        HostsFault::OutOfMemory
    }
}

impl<T: Drop> From<AllocFailed<T>> for HostsFault {
    ghost use Rattle.hub_hosts.specs.declared.fault.HostsFault.TheVariants.{OutOfMemory};
    ghost use Rattle.std.specs.Prelude.{◌≡◌};

    ghost from_gives = { λ _ e. e ≡ OutOfMemory };

    fn from(_: AllocFailed<T>) -> Self {
        HostsFault::OutOfMemory
    }
}
