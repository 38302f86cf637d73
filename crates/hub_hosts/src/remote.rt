//! Roots on other machines, and the paths that stand for them.
ghost use Rattle.std.specs.Prelude.{◌≡◌, ◌++◌, IfOk, OnOk};
ghost use Rattle.std.specs.Option.{option_map};
ghost use Rattle.std.specs.List.{find};
ghost use Rattle.hub_hosts.specs.Remotes as remotes;
ghost use Rattle.hub_hosts.specs.Table.{is_for};
ghost use Rattle.hub_hosts.specs.Remotes.{machine_in, of_local, of_remote};

use crate::drive::{Below, begins_with_drive, below_of};
use crate::host::{Host, Hosts, is_for, is_same_name};
use crate::words::{before, behind, from_first, host_in, skip_end};
use hub_text::Items;
use std::alloc::{AllocError, Global};

/// A root on another machine.
#[derive(Clone, Copy, Debug, PartialEq, Eq)]
pub(crate) struct Remote<T> {
    /// `HOST` or `USER@HOST`.
    pub(crate) name: T,
    /// Whether its path is relative to a home.
    pub(crate) is_in_home: bool,
    /// Where its path leads.
    pub(crate) below: Below<T>,
}

/// A path below another one.
#[derive(Clone, Copy, Debug, PartialEq, Eq)]
pub(crate) struct Local<T> {
    /// The path of a host, without slashes at its end.
    pub(crate) base: T,
    /// What follows it.
    pub(crate) below: Below<T>,
}

/// The root on another machine that a text is.
fn remote_of(root: &[u8]) -> Option<Remote<&[u8]>>
    ensures { option_map of_remote result ≡ remotes.remote_of root.now }
{
    if let Some(text) = root.strip_prefix(b"ssh://") {
        return Some(remote_in(text));
    }
    match root.strip_prefix(b"socket://") {
        Some(text) => Some(remote_in(text)),
        None => None,
    }
}

/// The root that follows `://`.
fn remote_in(text: &[u8]) -> Remote<&[u8]>
    ensures { of_remote result ≡ remotes.remote_in text.now }
{
    let path = from_first(b"/", text);
    remote_at(before(text, path), path)
}

/// The root of this name and this path, which a slash precedes.
fn remote_at<'a>(name: &'a [u8], path: &'a [u8]) -> Remote<&'a [u8]>
    ensures { of_remote result ≡ remotes.remote_at name.now path.now }
{
    let path = behind(path, b"/");
    Remote {
        name: without_port(name),
        is_in_home: !is_absolute(path),
        below: below_of(path),
    }
}

/// Returns whether a path of a host is absolute: it begins with a slash or a drive.
fn is_absolute(path: &[u8]) -> bool
    ensures { result ≡ remotes.is_absolute path.now }
{
    path.starts_with(b"/") || begins_with_drive(path)
}

/// A name without its port.
fn without_port(name: &[u8]) -> &[u8]
    ensures { result.now ≡ remotes.without_port name.now }
{
    skip_end(b"0123456789", name)
        .strip_suffix(b":")
        .unwrap_or(name)
}

/// Returns whether a root is one here: a path that begins with one slash or a drive.
pub(crate) fn is_local(root: &[u8]) -> bool
    ensures { result ≡ remotes.is_local root.now }
{
    (root.starts_with(b"/") && !root.starts_with(b"//")) || begins_with_drive(root)
}

/// Returns whether a root is one here, and on a drive.
fn is_local_drive(root: &[u8]) -> bool
    ensures { result ≡ remotes.is_local_drive root.now }
{
    is_local(root) && below_of(root).is_on_drive()
}

/// The root that this one of a profile of the machine is.
fn remote_on<'a>(machine: &'a [u8], root: &'a [u8]) -> Remote<&'a [u8]>
    ensures { of_remote result ≡ remotes.remote_on machine.now root.now }
{
    Remote {
        name: without_port(machine),
        is_in_home: false,
        below: below_of(root),
    }
}

/// The root on another machine that the root of a profile of this machine is.
fn remote_for<'a>(machine: Option<&'a str>, root: &'a [u8]) -> Option<Remote<&'a [u8]>>
    ensures { option_map of_remote result ≡ remotes.remote_for (machine_in machine.entry) root.now }
{
    match machine {
        Some(machine) => {
            if is_local(root) {
                Some(remote_on(machine.as_bytes(), root))
            } else {
                remote_of(root)
            }
        }
        None => remote_of(root),
    }
}

/// The path of a root, if it is one here on a drive.
fn local_drive(root: &[u8]) -> Option<Local<&[u8]>>
    ensures { option_map of_local result ≡ remotes.local_drive root.now }
{
    if is_local_drive(root) {
        Some(Local {
            base: b"",
            below: below_of(root),
        })
    } else {
        None
    }
}

impl Hosts {
    /// The path of a root of a profile of this machine, if it is one on another machine and the table has its host, or one here on a drive.
    pub(crate) fn local_of<'a>(
        &'a self,
        machine: Option<&'a str>,
        root: &'a [u8],
    ) -> Option<Local<&'a [u8]>>
        ensures { option_map of_local result ≡ remotes.local_of self.now root.now
            (remotes.remote_for (machine_in machine.entry) root.now) }
    {
        let Some(remote) = remote_for(machine, root) else {
            return local_drive(root);
        };
        let base = base_for(self.rows(), remote)?;
        Some(Local {
            base,
            below: remote.below,
        })
    }
}

impl Hosts {
    /// The path that stands for a root of a profile, if it is one on another machine and the table has its host. The roots here of a
    /// profile of another machine are on that one. A path stands for a root of this machine, too, if it is on a drive of Windows.
    /// ([`Hosts::text_for`] says which path.)
    pub fn path_of(
        &self,
        alloc: Global,
        machine: Option<&str>,
        root: &[u8],
    ) -> Result<Option<Vec<u8>>, AllocError>
        ensures { IfOk result (λ p. option_map (λ v. v.items) p
            ≡ remotes.path_of self.now (machine_in machine.entry) root.now) }
    {
        let Some(local) = self.local_of(machine, root) else {
            return Ok(None);
        };
        let mut path = Vec::new(alloc);
        local.push_to(&mut path)?;
        Ok(Some(path))
    }

    /// Returns whether the table has a row for the roots here of profiles of this machine: one for its name with the user or for its
    /// host, and not one for a home. (This is this project's choice.)
    pub fn has_machine(&self, machine: &str) -> bool
        ensures { result ≡ remotes.has_machine self.now machine.now }
    {
        base_for(self.rows(), remote_on(machine.as_bytes(), b"/")).is_some()
    }

    /// Returns whether the table has a row for this machine itself, by the name that others call it: one whose path is `/`, and not one
    /// for a home. (This is this project's choice.)
    pub fn has_own_row(&self) -> bool
        ensures { result ≡ remotes.has_own_row self.now }
    {
        self.rows().iter().any(is_own)
    }

    /// Returns whether the host of a row of the table is this machine: a row for it, with the same user or not, has the path `/`.
    pub fn is_here(&self, row: &Host<Items<u8>>) -> bool
        ensures { result ≡ remotes.is_here self.now row.now }
    {
        let host = host_in(row.name.as_slice());
        self.rows().iter().any(|own| is_own_of(own, host))
    }

    /// Returns whether a root of a profile of this machine is on a machine that takes names that differ in case alone for one name: a
    /// row marks its host, be it for another user, or for roots in a home. So does Windows: the root is on a drive.
    pub fn folds_names(&self, machine: Option<&str>, root: &[u8]) -> bool
        ensures { result ≡ remotes.folds_names self.now (machine_in machine.entry) root.now }
    {
        match remote_for(machine, root) {
            Some(remote) => folds_there(self.rows(), remote),
            None => is_local_drive(root),
        }
    }
}

/// Returns whether names fold at a root on another machine.
fn folds_there(rows: &[Host<Items<u8>>], remote: Remote<&[u8]>) -> bool
    ensures { result ≡ remotes.folds_there rows.now (of_remote remote.entry) }
{
    remote.below.is_on_drive() || folds_at(rows, host_in(remote.name))
}

/// Returns whether a row is for this machine itself.
pub(crate) fn is_own(row: &Host<Items<u8>>) -> bool
    ensures { result ≡ remotes.is_own row.now }
{
    !row.is_for_home && row.path.is_empty()
}

/// Returns whether a row is for this machine itself, which it calls by this name.
fn is_own_of(row: &Host<Items<u8>>, host: &[u8]) -> bool
    ensures { result ≡ remotes.is_own_of host.now row.now }
{
    is_own(row) && is_same_name(host_in(row.name.as_slice()), host)
}

impl Host<Items<u8>> {
    /// Returns whether the host of a row is that of a machine, which an operand may name with a user and a port.
    pub fn is_of(&self, machine: &str) -> bool
        ensures { result ≡ remotes.is_of machine.now self.now }
    {
        let host = host_in(without_port(machine.as_bytes()));
        is_same_name(host_in(self.name.as_slice()), host)
    }
}

/// Returns whether a row marks this host as one that folds names.
fn folds_at(rows: &[Host<Items<u8>>], host: &[u8]) -> bool
    ensures { result ≡ remotes.folds_at rows.now host.now }
{
    rows.iter().any(|row| marks(row, host))
}

/// Returns whether a row marks this host as one that folds names.
fn marks(row: &Host<Items<u8>>, host: &[u8]) -> bool
    ensures { result ≡ remotes.marks host.now row.now }
{
    row.folds_names && is_same_name(host_in(row.name.as_slice()), host)
}

/// The path for a root: that of its name with the user, or that of its host.
fn base_for<'a>(rows: &'a [Host<Items<u8>>], remote: Remote<&[u8]>) -> Option<&'a [u8]>
    ensures { option_map (λ p. p.now) result ≡ remotes.base_for rows.now (of_remote remote.entry) }
{
    match path_for(rows, remote.name, remote.is_in_home) {
        Some(path) => Some(path),
        None => path_for(rows, host_in(remote.name), remote.is_in_home),
    }
}

/// The path of the row for this name.
fn path_for<'a>(rows: &'a [Host<Items<u8>>], name: &[u8], in_home: bool) -> Option<&'a [u8]>
    ensures { option_map (λ p. p.now) result ≡ remotes.path_for rows.now name.now in_home }
{
    match row_for(rows, name, in_home) {
        Some(row) => Some(row.path.as_slice()),
        None => None,
    }
}

/// The row for this name.
fn row_for<'a>(
    rows: &'a [Host<Items<u8>>],
    name: &[u8],
    in_home: bool,
) -> Option<&'a Host<Items<u8>>>
    ensures { option_map (λ r. r.now) result ≡ find (is_for name.now in_home) rows.now }
{
    rows.iter().find(|row| is_for(*row, name, in_home))
}

impl<'a> Local<&'a [u8]> {
    /// Adds the path to a text.
    pub(crate) fn push_to(self, text: &mut Vec<u8>) -> Result<(), AllocError>
        ensures { OnOk result
            (text.new.items ≡ text.old.items ++ remotes.path_of_local (of_local self.entry)) }
    {
        if self.below.is_top() {
            return text.extend_from_slice(folder_path(self.base));
        }
        text.extend_from_slice(self.base)?;
        text.push(b'/')?;
        self.below.push_to(text)
    }
}

/// The path of a folder, which is `/` if it is empty.
fn folder_path(base: &[u8]) -> &[u8]
    ensures { result.now ≡ remotes.folder_path base.now }
{
    if base.is_empty() { b"/" } else { base }
}
