//! Kept values of profiles, as paths from the top of the file system.
ghost use Rattle.std.specs.Prelude.{◌≡◌, IfOk};

use hub_path::RelPath;
use std::alloc::AllocError;

/// A kept value of a profile at one of its roots, as a path from the top of the file system, and the profile's number. They are
/// ordered by path, then by number.
#[derive(Debug, Drop, PartialEq, Eq, PartialOrd, Ord)]
pub(crate) struct KeptValue {
    pub path: RelPath,
    pub profile: usize,
}

impl KeptValue {
    /// Copies the value.
    pub fn copy(&self) -> Result<KeptValue, AllocError>
        ensures { IfOk result (λ k. k ≡ self.now) }
    {
        Ok(KeptValue {
            path: self.path.copy()?,
            profile: self.profile,
        })
    }
}
