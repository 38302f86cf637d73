//! Roots on other machines, and the table of hosts that they need.

use crate::source::{Source, SourceLine};
use std::alloc::{AllocError, Global};
use std::collections::BTreeSet;

/// A root on another machine.
#[derive(Clone, Copy)]
pub struct RemoteRoot<'a> {
    /// The user there, if one is named.
    pub user: Option<&'a str>,
    /// The machine, without a port.
    pub machine: &'a str,
    /// The path there.
    pub path: &'a str,
    /// From where the path leads.
    pub start: PathStart,
}

/// From where the path of a root on another machine leads.
#[derive(Clone, Copy, Debug, PartialEq, Eq)]
pub enum PathStart {
    /// From the machine's `/`.
    Top,
    /// From a drive of Windows, with whose letter it begins.
    Drive,
    /// From the home of the user.
    Home,
}

impl<'a> RemoteRoot<'a> {
    /// The root on another machine that a text is: `ssh://USER@HOST:PORT//PATH`, or `socket://..`. (Unison manual, "Roots".)
    pub fn read(text: &'a str) -> Option<RemoteRoot<'a>> {
        let rest = match text.strip_prefix("ssh://") {
            Some(rest) => rest,
            None => text.strip_prefix("socket://")?,
        };
        let (name, path) = rest.split_once('/').unwrap_or((rest, ""));
        let (user, machine) = match name.rsplit_once('@') {
            Some((user, machine)) => (Some(user), machine),
            None => (None, name),
        };
        Some(RemoteRoot {
            user,
            machine: without_port(machine),
            path,
            start: start_of(path),
        })
    }

    /// Adds the name of its machine. Capitals don't count.
    pub fn push_machine(self, out: &mut String) -> Result<(), AllocError> {
        for c in self.machine.chars() {
            out.push(c.to_ascii_lowercase())?;
        }
        Ok(())
    }
}

/// From where a path leads that follows the `/` behind a machine.
fn start_of(path: &str) -> PathStart {
    if path.starts_with('/') {
        PathStart::Top
    } else if begins_with_drive(path) {
        PathStart::Drive
    } else {
        PathStart::Home
    }
}

/// Returns whether a path begins with the letter of a drive and `:`.
fn begins_with_drive(path: &str) -> bool {
    match path.split_once(':') {
        Some((letter, rest)) => {
            is_letter(letter) && (rest.is_empty() || rest.starts_with(['/', '\\']))
        }
        None => false,
    }
}

/// Returns whether a text is one ASCII letter.
pub fn is_letter(text: &str) -> bool {
    text.len() == 1 && text.bytes().all(|byte| byte.is_ascii_alphabetic())
}

/// A host without the number of a port behind it.
fn without_port(host: &str) -> &str {
    match host.rsplit_once(':') {
        Some((machine, port)) if port.bytes().all(|byte| byte.is_ascii_digit()) => machine,
        _ => host,
    }
}

/// A table of hosts for the roots on other machines that the files of an input name.
#[derive(Drop)]
pub struct HostTable {
    /// Its rows `HOST PATH`, in the order of their bytes.
    pub rows: BTreeSet<String>,
    /// The machines with a root on a drive of Windows and one in a home.
    pub mixed: BTreeSet<String>,
    /// Whether a row has the path of a home.
    pub has_home: bool,
}

impl HostTable {
    /// Makes the table of an input. A drive is below the path of its machine, and a home is `/home/USER` there, or `/home/NAME`.
    pub fn of(source: &Source<'_>) -> Result<HostTable, AllocError> {
        let alloc = source.alloc();
        let drives = drives_in(source)?;
        let mut table = HostTable {
            rows: BTreeSet::new(alloc),
            mixed: BTreeSet::new(alloc),
            has_home: false,
        };
        for line in source.lines() {
            if let Some(root) = remote_root(line) {
                table.push(alloc, &drives, root)?;
            }
        }
        Ok(table)
    }

    /// Adds the row for a root. These are the machines with a root on a drive.
    fn push(
        &mut self,
        alloc: Global,
        drives: &BTreeSet<String>,
        root: RemoteRoot<'_>,
    ) -> Result<(), AllocError> {
        let mut machine = String::new(alloc);
        root.push_machine(&mut machine)?;
        let name = machine.as_str();
        let is_on_drive = drives.contains(name);
        let is_in_home = root.start == PathStart::Home;
        let row = if is_in_home {
            home_row(alloc, root.user, name)?
        } else {
            format!(in alloc; "{name} /hosts/{name}")?
        };
        insert(&mut self.rows, row)?;
        if is_in_home && is_on_drive {
            insert(&mut self.mixed, machine)?;
        }
        self.has_home = self.has_home || is_in_home;
        Ok(())
    }
}

/// The row for the home of a user, or of one whose name isn't known.
fn home_row(alloc: Global, user: Option<&str>, machine: &str) -> Result<String, AllocError> {
    match user {
        Some(user) => { format!(in alloc; "{user}@{machine}~ /hosts/{machine}/home/{user}") }
        None => format!(in alloc; "{machine}~ /hosts/{machine}/home/NAME"),
    }
}

/// The machines with a root on a drive of Windows.
fn drives_in(source: &Source<'_>) -> Result<BTreeSet<String>, AllocError> {
    let mut machines = BTreeSet::new(source.alloc());
    for line in source.lines() {
        if let Some(root) = remote_root(line) {
            if root.start == PathStart::Drive {
                let mut machine = String::new(source.alloc());
                root.push_machine(&mut machine)?;
                insert(&mut machines, machine)?;
            }
        }
    }
    Ok(machines)
}

/// The root on another machine that a line of a file sets.
fn remote_root<'a>(line: &SourceLine<'a>) -> Option<RemoteRoot<'a>> {
    if line.file.is_none() {
        return None;
    }
    RemoteRoot::read(line.value_of("root")?)
}

/// Adds a text to a set.
fn insert(texts: &mut BTreeSet<String>, text: String) -> Result<(), AllocError> {
    match texts.insert(text) {
        Ok(_) => Ok(()),
        Err(_) => Err(AllocError),
    }
}
