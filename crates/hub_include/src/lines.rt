//! The lines of a profile, with those of the files that it includes.
ghost use Rattle.std.specs.Prelude.{◌≡◌, ◌⊎◌, ◌+◌, [], map, Ok, Err, IfOk, IfErr, OnOk, bytes_eq};
ghost use Rattle.std.specs.List.{list_any};
ghost use Rattle.hub_include.specs.Files.{known_of, of_file};
ghost use Rattle.hub_include.specs.Includes as includes;
ghost use Rattle.hub_include.specs.Includes.{Gives, IsFault, add_file_by, add_line_by, lines_in, of_line, of_lines, take_by};
ghost use Rattle.hub_include.specs.declared.fault.LinesFault.TheVariants.{OutOfMemory};

use crate::fault::{LineFault, LinesFault, Why};
use crate::folder::{File, Folder, Found};
use crate::target::{HeldFile, Target, target_of};
use hub_text::{Items, Lines};
use std::alloc::{AllocError, Global};

/// The most files that are open at once, the profile's own among them. (This project's choice: Unison was seen to follow 5,000.)
pub const MOST_OPEN: usize = 100;

/// The most lines of a profile, with what it includes. (This project's choice.)
pub const MOST_LINES: usize = 100_000;

/// A line with its place.
#[derive(Clone, Copy, Debug, PartialEq, Eq)]
pub struct FileLine<N, T> {
    /// The name of its file.
    pub file: N,
    /// Its number in the file, from 1 on.
    pub number: usize,
    /// Its bytes, without the LF, and without a byte order mark at the beginning of the file.
    pub text: T,
}

/// A line of a file of a folder.
pub(crate) type HeldLine<'a> = FileLine<&'a str, &'a [u8]>;

/// What the lines are read from.
#[derive(Clone, Copy)]
struct Walk<'a> {
    alloc: Global,
    folder: &'a Folder,
}

/// The lines of the profile in the file of this name: those of the file, in their order, and below each line that includes a file
/// the lines of that file, likewise. The including line itself stays.
///
/// The fault is the first one in this order: a line that can't be followed, or a file that nobody has looked for. Any call may
/// instead report `OutOfMemory`. A file that is included twice is no fault. (What is included, and where, was observed with Unison
/// 2.52.1.)
pub fn lines_of<'a>(
    alloc: Global,
    folder: &'a Folder,
    name: &'a str,
) -> Result<Vec<FileLine<&'a str, &'a [u8]>>, LinesFault>
    ensures ok { IfOk result
        (λ v. includes.lines_of (known_of folder.now) name.now ≡ Ok (map of_line v.items)) }
    ensures err { IfErr result (IsFault (includes.lines_of (known_of folder.now) name.now)) }
{
    match folder.find(name) {
        Found::There(file) => lines_of_file(alloc, folder, name, file),
        Found::Absent => Err(LinesFault::NoProfile),
        Found::Unread => Err(LinesFault::Unread(bytes_of(alloc, name)?)),
    }
}

/// The lines of a profile in this file.
fn lines_of_file<'a>(
    alloc: Global,
    folder: &'a Folder,
    name: &'a str,
    file: HeldFile<'a>,
) -> Result<Vec<HeldLine<'a>>, LinesFault>
    ensures ok { IfOk result (λ v. lines_in folder.now name.now (of_file file.entry)
        ≡ Ok (of_lines v.items)) }
    ensures err { IfErr result (IsFault (lines_in folder.now name.now (of_file file.entry))) }
{
    let mut lines = Vec::new(alloc);
    let at = FileLine {
        file: name,
        number: 0,
        text: b"".as_slice(),
    };
    let walk = Walk { alloc, folder };
    walk.push_file(&mut lines, &[], at, file, MOST_OPEN)?;
    Ok(lines)
}

impl<'a> Walk<'a> {
    /// Adds the lines of a file that the line `at` includes. `left` more files may be open.
    #[cycle(lines)]
    fn push_file(
        &self,
        lines: &mut Vec<HeldLine<'a>>,
        opened: &[&'a str],
        at: HeldLine<'a>,
        file: HeldFile<'a>,
        left: usize,
    ) -> Result<(), LinesFault>
        ensures ok { OnOk result (Gives lines.new
            (take_by self.now left opened.now at.entry file.entry lines.old)) }
        ensures err { IfErr result (IsFault
            (take_by self.now left opened.now at.entry file.entry lines.old)) }
    {
        if left == 0 {
            return Err(fault_at(self.alloc, at, Why::TooDeep));
        }
        let mut within = Vec::from_slice(self.alloc, opened)?;
        within.push(file.name)?;
        self.push_lines(lines, within.as_slice(), file, left - 1)
    }

    /// Adds the lines of a file that is open.
    #[cycle(lines)]
    fn push_lines(
        &self,
        lines: &mut Vec<HeldLine<'a>>,
        opened: &[&'a str],
        file: HeldFile<'a>,
        left: usize,
    ) -> Result<(), LinesFault>
        ensures ok { OnOk result (Gives lines.new
            (add_file_by self.now left opened.now file.entry lines.old)) }
        ensures err { IfErr result (IsFault
            (add_file_by self.now left opened.now file.entry lines.old)) }
    {
        let mut rest = Lines::new(without_mark(file.bytes));
        let mut number = 1;
        while let Some(line) = rest.next() {
            let at = FileLine {
                file: file.name,
                number,
                text: line.text,
            };
            self.push_line(lines, opened, at, left)?;
            number += 1;
        }
        Ok(())
    }

    /// Adds a line, and what it takes in.
    #[cycle(lines)]
    fn push_line(
        &self,
        lines: &mut Vec<HeldLine<'a>>,
        opened: &[&'a str],
        at: HeldLine<'a>,
        left: usize,
    ) -> Result<(), LinesFault>
        ensures ok { OnOk result (Gives lines.new
            (add_line_by self.now left opened.now lines.old at.entry)) }
        ensures err { IfErr result (IsFault
            (add_line_by self.now left opened.now lines.old at.entry)) }
    {
        if lines.len() >= MOST_LINES {
            return Err(fault_at(self.alloc, at, Why::TooLong));
        }
        lines.push(at)?;
        match target_of(self.alloc, self.folder, at.text)? {
            Target::Nothing => Ok(()),
            Target::Taken(file) if is_open(opened, file.name) => Err(fault_at(
                self.alloc,
                at,
                Why::Cycle,
            )),
            Target::Taken(file) => self.push_file(lines, opened, at, file, left),
            Target::Wrong(why) => Err(fault_at(self.alloc, at, why)),
            Target::Unread(name) => Err(LinesFault::Unread(name)),
        }
    }
}

/// Returns whether a file of this name is open.
fn is_open(opened: &[&str], name: &str) -> bool
    ensures { result ≡ includes.is_open (map (λ o. o.now) opened.now) name.now }
{
    has_name(opened, name)
}

/// Returns whether a file of this name is among these.
fn has_name(opened: &[&str], name: &str) -> bool
    ensures { result ≡ list_any (λ o. bytes_eq o.now name.now) opened.now }
{
    opened.iter().any(|other| *other == name)
}

/// Bytes without a byte order mark at their beginning.
fn without_mark(bytes: &[u8]) -> &[u8]
    ensures { result.now ≡ includes.without_mark bytes.now }
{
    bytes.strip_prefix(b"\xef\xbb\xbf").unwrap_or(bytes)
}

/// The fault of a line.
fn fault_at(alloc: Global, line: HeldLine<'_>, why: Why) -> LinesFault
    ensures { (result ≡ OutOfMemory) ⊎ (result ≡ includes.fault_at (of_line line.entry) why) }
{
    match line_fault(alloc, line, why) {
        Ok(fault) => LinesFault::Line(fault),
        Err(AllocError) => LinesFault::OutOfMemory,
    }
}

/// What is wrong with a line.
fn line_fault(alloc: Global, line: HeldLine<'_>, why: Why) -> Result<LineFault, AllocError>
    ensures { IfOk result (λ f. LinesFault.Line f ≡ includes.fault_at (of_line line.entry) why) }
{
    Ok(LineFault {
        file: bytes_of(alloc, line.file)?,
        number: line.number,
        text: Items::from_vec(Vec::from_slice(alloc, line.text)?),
        why,
    })
}

/// The bytes of a name.
fn bytes_of(alloc: Global, name: &str) -> Result<Items<u8>, AllocError>
    ensures { IfOk result (λ bytes. bytes ≡ name.now) }
{
    Ok(Items::from_vec(Vec::from_slice(alloc, name.as_bytes())?))
}
