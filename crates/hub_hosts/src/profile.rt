//! The text of a profile, with paths in place of roots on other machines.
ghost use Rattle.std.specs.Prelude.{◌≡◌, ◌++◌, IfOk, OnOk};
ghost use Rattle.std.specs.Option.{option_map};
ghost use Rattle.hub_text.specs.Lines.{line_text};
ghost use Rattle.hub_hosts.specs.Profiles as profiles;
ghost use Rattle.std.specs.List.{list_any};
ghost use Rattle.hub_hosts.specs.Remotes.{machine_in, of_local, path_of_local};

use crate::host::Hosts;
use crate::remote::Local;
use crate::words::{BLANKS, before, behind, behind_last_arrow, from_first, skip, skip_end};
use hub_text::{Lines, without_last_cr};
use std::alloc::{AllocError, Global};

/// The preferences whose value is a root.
const ROOT_NAMES: [&[u8]; 6] = [
    b"root",
    b"force",
    b"prefer",
    b"nocreation",
    b"noupdate",
    b"nodeletion",
];

/// The preferences whose value ends with `-> ROOT`.
const ARROW_NAMES: [&[u8]; 5] = [
    b"nocreationpartial",
    b"noupdatepartial",
    b"nodeletionpartial",
    b"forcepartial",
    b"preferpartial",
];

impl Hosts {
    /// The text of a profile or of rules, with a path in place of each root of a host that the table has, and of each root of this machine
    /// on a drive of Windows. All other bytes stay.
    ///
    /// A root is the value of `root`, `force`, `prefer`, `nocreation`, `noupdate` and `nodeletion`, and what follows the last `->` of the
    /// value of `nocreationpartial`, `noupdatepartial`, `nodeletionpartial`, `forcepartial` and `preferpartial`. One on another machine
    /// is `ssh://NAME//PATH` or `socket://NAME//PATH`, where NAME is `HOST` or `USER@HOST`, maybe with `:PORT`; with one slash or none
    /// PATH is relative to a home. (Unison manual, "Roots".)
    ///
    /// The row for `USER@HOST` comes first, then the one for `HOST`. The path is that of the row, `/` and PATH. The port and slashes
    /// around PATH go. (This is this project's choice.)
    ///
    /// If it is the profile of a machine, a root that begins with one slash is there, as `ssh://MACHINE/` and it are. A root that begins
    /// with two slashes, and one that isn't absolute, stay. (This is this project's choice.)
    ///
    /// A path that begins with a drive of Windows is absolute, also right behind `ssh://NAME/`. A drive is an ASCII letter and `:`, at
    /// the end or before `/` or `\`. (Unison manual, "Roots".) Below `/cygdrive/c` are the same folders as below `c:/`. (Cygwin user's
    /// guide, "The cygdrive path prefix".) A drive stands for a folder right below the `/` of its host, as `C:`, with a capital. On a
    /// drive each `\` is a slash, since no name on Windows has one. A root of this machine on a drive becomes such a path, as `/C:/a`.
    /// (This is this project's choice.)
    ///
    /// It takes time in proportion to the bytes, and for each root to the rows. Out of memory is the only error.
    pub fn text_for(
        &self,
        alloc: Global,
        machine: Option<&str>,
        text: &[u8],
    ) -> Result<Vec<u8>, AllocError>
        ensures { IfOk result (λ v. v.items
            ≡ profiles.text_for self.now (machine_in machine.entry) text.now) }
    {
        let mut changed = Vec::new(alloc);
        let mut lines = Lines::new(text);
        while let Some(line) = lines.next() {
            self.push_line(&mut changed, machine, line.text)?;
            if line.is_ended {
                changed.push(b'\n')?;
            }
        }
        Ok(changed)
    }

    /// Adds a line of a profile of this machine.
    fn push_line(
        &self,
        text: &mut Vec<u8>,
        machine: Option<&str>,
        line: &[u8],
    ) -> Result<(), AllocError>
        ensures { OnOk result (text.new.items ≡ text.old.items
            ++ profiles.line_for self.now (machine_in machine.entry) line.now) }
    {
        let Some(end) = from_root(line) else {
            return text.extend_from_slice(line);
        };
        match self.local_of(machine, root_in(end)) {
            Some(path) => push_with(text, line, end, path),
            None => text.extend_from_slice(line),
        }
    }
}

/// Adds a line with a path in the place of the root at the end of the line.
fn push_with(
    text: &mut Vec<u8>,
    line: &[u8],
    end: &[u8],
    path: Local<&[u8]>,
) -> Result<(), AllocError>
    ensures { OnOk result (text.new.items ≡ text.old.items
        ++ profiles.with_root line.now end.now (path_of_local (of_local path.entry))) }
{
    text.extend_from_slice(before(line, end))?;
    path.push_to(text)?;
    text.extend_from_slice(behind(end, root_in(end)))
}

/// The value of a line `root`, without blanks around it and without a CR at the end of the line.
pub fn root_of(line: &[u8]) -> Option<&[u8]>
    ensures { option_map (λ t. t.now) result ≡ profiles.own_root line.now }
{
    if sets(line, b"root") {
        Some(root_in(skip(BLANKS, value_of(line))))
    } else {
        None
    }
}

/// A line from its root on, if it has one.
fn from_root(line: &[u8]) -> Option<&[u8]>
    ensures { option_map (λ t. t.now) result ≡ profiles.from_root line.now }
{
    if sets_root(line) {
        Some(skip(BLANKS, value_of(line)))
    } else if sets_arrow(line) {
        from_arrow(value_of(line))
    } else {
        None
    }
}

/// A value from the root behind its last `->` on.
fn from_arrow(value: &[u8]) -> Option<&[u8]>
    ensures { option_map (λ t. t.now) result ≡ profiles.from_arrow value.now }
{
    match behind_last_arrow(value) {
        Some(end) => Some(skip(BLANKS, end)),
        None => None,
    }
}

/// Returns whether the value of a line is a root.
fn sets_root(line: &[u8]) -> bool
    ensures { result ≡ profiles.sets_root line.now }
{
    sets_one_of(line, &ROOT_NAMES)
}

/// Returns whether the value of a line ends with `-> ROOT`.
fn sets_arrow(line: &[u8]) -> bool
    ensures { result ≡ profiles.sets_arrow line.now }
{
    sets_one_of(line, &ARROW_NAMES)
}

/// Returns whether a line sets one of these preferences.
fn sets_one_of(line: &[u8], names: &[&[u8]]) -> bool
    ensures { result ≡ list_any (λ n. profiles.sets line.now n.now) names.now }
{
    names.iter().any(|name| sets(line, *name))
}

/// Returns whether a line sets this preference.
fn sets(line: &[u8], name: &[u8]) -> bool
    ensures { result ≡ profiles.sets line.now name.now }
{
    match skip(BLANKS, line).strip_prefix(name) {
        Some(rest) => skip(BLANKS, rest).starts_with(b"="),
        None => false,
    }
}

/// The value of a line, and all that follows it.
fn value_of(line: &[u8]) -> &[u8]
    ensures { result.now ≡ profiles.value_of line.now }
{
    behind(from_first(b"=", line), b"=")
}

/// The root at the beginning of a text.
fn root_in(text: &[u8]) -> &[u8]
    ensures { result.now ≡ profiles.root_in text.now }
{
    skip_end(BLANKS, without_last_cr(text))
}
