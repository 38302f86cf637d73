//! Profiles whose names fold by the hosts of their roots.
ghost use Rattle.std.specs.Prelude.{◌≡◌, IfOk};
ghost use Rattle.std.specs.List.{list_any};
ghost use Rattle.hub_hosts.specs.Folding as folding;
ghost use Rattle.hub_hosts.specs.Remotes.{machine_in};

use crate::host::{Host, Hosts};
use crate::profile::root_of;
use crate::remote::{is_local, is_own};
use hub_text::{Items, Lines};
use std::alloc::{AllocError, Global};

impl Hosts {
    /// The text of a profile as [`Hosts::text_for`] gives it. If names fold at a root of it, the line `ignorecase = true` stands behind
    /// all others: without such a line Unison reads the profile as with it, if a root is on Windows or macOS (observed with Unison
    /// 2.52.1; Unison manual, "Case sensitivity").
    ///
    /// It takes the time of `text_for`, and for each root that of comparing it with the rows. Out of memory is the only error.
    pub fn profile_for(
        &self,
        alloc: Global,
        machine: Option<&str>,
        text: &[u8],
    ) -> Result<Vec<u8>, AllocError>
        ensures { IfOk result (λ v. v.items
            ≡ folding.profile_for self.now (machine_in machine.entry) text.now) }
    {
        let mut changed = self.text_for(alloc, machine, text)?;
        if self.folds_text(machine, text) {
            changed.extend_from_slice(b"\nignorecase = true\n")?;
        }
        Ok(changed)
    }

    /// Returns whether names fold at a root of a profile: it is on a drive of Windows, or a row marks its host ([`Hosts::folds_names`]), or
    /// it is one of this machine, which a row with the path `/` marks.
    pub fn folds_text(&self, machine: Option<&str>, text: &[u8]) -> bool
        ensures { result ≡ folding.folds_text self.now (machine_in machine.entry) text.now }
    {
        let mut lines = Lines::new(text);
        while let Some(line) = lines.next() {
            if self.folds_line(machine, line.text) {
                return true;
            }
        }
        false
    }

    /// Returns whether a line sets a root at which names fold.
    fn folds_line(&self, machine: Option<&str>, line: &[u8]) -> bool
        ensures { result ≡ folding.folds_line self.now (machine_in machine.entry) line.now }
    {
        match root_of(line) {
            Some(root) => self.folds_names(machine, root) || self.folds_here(machine, root),
            None => false,
        }
    }

    /// Returns whether a root is one of this machine, and names fold here.
    fn folds_here(&self, machine: Option<&str>, root: &[u8]) -> bool
        ensures { result ≡ folding.folds_here self.now (machine_in machine.entry) root.now }
    {
        match machine {
            Some(_) => false,
            None => is_local(root) && marks_one(self.rows()),
        }
    }
}

/// Returns whether one of these rows is for this machine, and marks it as one that folds names.
fn marks_one(rows: &[Host<Items<u8>>]) -> bool
    ensures { result ≡ list_any folding.marks_own rows.now }
{
    rows.iter().any(marks_own)
}

/// Returns whether a row is for this machine, and marks it as one that folds names.
fn marks_own(row: &Host<Items<u8>>) -> bool
    ensures { result ≡ folding.marks_own row.now }
{
    is_own(row) && row.folds_names
}
