//! A file of a folder and its lines.
ghost use Rattle.std.specs.Prelude.{◌≡◌, ◌≤◌, ◌+◌, ◌&&◌, not, bytes_eq, IfErr, IfOk};
ghost use Rattle.std.specs.List.{list_any};
ghost use Rattle.hub_folder.specs.Folders as folders;
ghost use Rattle.hub_folder.specs.Told as told_as;
ghost use Rattle.hub_folder.specs.Told.{IsOverLimit, bytes_told, includes_told};
ghost use Rattle.hub_folder.specs.declared.shelf.TheConstants.{INCLUDED_BYTES};

use crate::fault::Untaken;
use crate::reader::FileReader;
use crate::root::{says_something, sets_root};
use crate::shelf::{INCLUDED_BYTES, Place};
use hub_include::{FileLine, bytes_with};

/// A file and its lines, with those of what it includes.
#[derive(Drop)]
pub(crate) struct Told<'a> {
    pub(crate) name: &'a str,
    pub(crate) lines: Vec<FileLine<&'a str, &'a [u8]>>,
}

impl<'a, F: FileReader> Place<'a, F> {
    /// How many bytes of texts there are with that of this file.
    pub(crate) fn bytes_with(&self, bytes: usize, told: &Told<'_>) -> Result<usize, Untaken>
        requires { bytes ≤ INCLUDED_BYTES }
        ensures sum { IfOk result (λ n. n ≡ bytes + bytes_told told.now) }
        ensures within { IfOk result (λ n. n ≤ INCLUDED_BYTES) }
        ensures err { IfErr result (IsOverLimit self.now.path.now bytes told.now) }
    {
        match bytes_with(INCLUDED_BYTES, bytes, told.lines.as_slice()) {
            Some(bytes) => Ok(bytes),
            None => Err(Untaken::TooLong(self.path_of(told.name)?)),
        }
    }
}

/// Returns whether a file is a profile, among all of these.
pub(crate) fn is_profile(one: &Told<'_>, told: &[Told<'_>]) -> bool
    ensures { result ≡ told_as.is_profile_told told.now one.now }
{
    has_root(one.lines.as_slice()) && !is_included(one.name, told)
}

/// Returns whether a file sets no root and says something else, and no other one of these includes it.
pub(crate) fn is_rootless(one: &Told<'_>, told: &[Told<'_>]) -> bool
    ensures { result ≡ told_as.is_rootless_told told.now one.now }
{
    is_without_root(one.lines.as_slice()) && !is_included(one.name, told)
}

/// Returns whether a file leaves out another one: that sets a root, and this one includes it.
pub(crate) fn leaves_out(one: &Told<'_>, other: &Told<'_>) -> bool
    ensures { result ≡ told_as.leaves_out_told one.now other.now }
{
    has_root(other.lines.as_slice()) && includes(one, other.name)
}

/// Returns whether lines set no root, and one of them says something.
fn is_without_root(lines: &[FileLine<&str, &[u8]>]) -> bool
    ensures { result ≡ (not (list_any (λ l. folders.sets_root l.text.now) lines.now)
        && list_any (λ l. folders.says_something l.text.now) lines.now) }
{
    !has_root(lines) && says(lines)
}

/// Returns whether lines set a root.
fn has_root(lines: &[FileLine<&str, &[u8]>]) -> bool
    ensures { result ≡ list_any (λ l. folders.sets_root l.text.now) lines.now }
{
    lines.iter().any(|line| sets_root(line.text))
}

/// Returns whether one of these lines says something.
fn says(lines: &[FileLine<&str, &[u8]>]) -> bool
    ensures { result ≡ list_any (λ l. folders.says_something l.text.now) lines.now }
{
    lines.iter().any(|line| says_something(line.text))
}

/// Returns whether one of these files other than that includes it.
fn is_included(name: &str, told: &[Told<'_>]) -> bool
    ensures { result ≡ list_any (includes_told name.now) told.now }
{
    told.iter().any(|other| includes(other, name))
}

/// Returns whether a file is another one than that, and includes it.
fn includes(other: &Told<'_>, name: &str) -> bool
    ensures { result ≡ includes_told name.now other.now }
{
    other.name != name && has_file(other.lines.as_slice(), name)
}

/// Returns whether some of these lines are from that file.
fn has_file(lines: &[FileLine<&str, &[u8]>], name: &str) -> bool
    ensures { result ≡ list_any (λ l. bytes_eq l.file.now name.now) lines.now }
{
    lines.iter().any(|line| line.file == name)
}
