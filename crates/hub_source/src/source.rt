//! The lines of an input, each with its place in its section.
ghost use Rattle.std.specs.Prelude.{◌≡◌};
ghost use Rattle.std.specs.List.{list_any};
ghost use Rattle.hub_source.specs.LineText as line_text;
ghost use Rattle.hub_source.specs.Places as places;

use crate::file::{SourceFile, WrittenRoot, origin_of};
use crate::said::covers;
use hub_text::{BLANKS, Lines, without_last_cr};
use std::alloc::{AllocError, Global};
use std::fmt;

/// How many lines of an input are known at most.
const LINES: usize = 50_000;

/// A line of an input.
#[derive(Clone, Copy)]
pub struct SourceLine<'a> {
    /// The number of its section, from 1 on. It is 0 before the first heading.
    pub section: usize,
    /// Its number in its section. The heading is line 0.
    pub number: usize,
    /// Its number in the input, from 1 on.
    pub at: usize,
    /// The line without its LF.
    pub bytes: &'a [u8],
    /// The path of the file that it came from, if its section was made of one.
    pub file: Option<&'a str>,
    /// Its number there. The heading is line 0.
    pub file_number: usize,
}

/// Where a line is, as a remark names it: `bundle line 4`, or `docs.prf line 3`.
#[derive(Clone, Copy)]
pub struct LinePlace<'a> {
    file: Option<&'a str>,
    number: usize,
}

impl<'a> fmt::Display for LinePlace<'a> {
    fn fmt<W: fmt::Write>(&self, f: &mut fmt::Formatter<W>) -> fmt::Result {
        let number = self.number;
        match self.file {
            Some(file) if number == 0 => write!(f, "{file}"),
            Some(file) => write!(f, "{file} line {number}"),
            None => write!(f, "bundle line {number}"),
        }
    }
}

impl<'a> SourceLine<'a> {
    /// The line's text without a CR at its end. It is empty if the line is not UTF-8.
    pub fn text(&self) -> &'a str
        ensures { result.now ≡ line_text.text_shown self.now.bytes.now }
    {
        utf8_or_empty(without_last_cr(self.bytes))
    }

    /// Where it is: its number in its file, or in the input.
    pub fn place(&self) -> LinePlace<'a>
        ensures { result ≡ places.line_place self.now }
    {
        let file = self.file;
        let number = if file.is_some() {
            self.file_number
        } else {
            self.at
        };
        LinePlace { file, number }
    }

    /// Returns whether it is the heading of a section.
    pub fn is_heading(&self) -> bool
        ensures { result ≡ places.heads_section self.now }
    {
        self.section > 0 && self.number == 0
    }

    /// The name of the profile whose heading it is.
    pub fn profile(&self) -> Option<&'a str> {
        if !self.is_heading() {
            return None;
        }
        self.text().strip_prefix("%profile ")
    }

    /// The name and the value that it sets.
    pub fn setting(&self) -> Option<(&'a str, &'a str)> {
        let text = trimmed(self.text());
        if self.is_heading() || text.starts_with('#') {
            return None;
        }
        let (name, value) = text.split_once('=')?;
        Some((trimmed(name), trimmed(value)))
    }

    /// The name that it sets, or nothing.
    pub fn name(&self) -> &'a str {
        match self.setting() {
            Some((name, _)) => name,
            None => "",
        }
    }

    /// The value that it sets, or nothing.
    pub fn value(&self) -> &'a str {
        match self.setting() {
            Some((_, value)) => value,
            None => "",
        }
    }

    /// The value that it sets, if it sets the preference of that name.
    pub fn value_of(&self, wanted: &str) -> Option<&'a str> {
        let (name, value) = self.setting()?;
        if name == wanted { Some(value) } else { None }
    }
}

/// The text of these bytes. It is empty if they are not UTF-8.
fn utf8_or_empty(bytes: &[u8]) -> &str
    ensures { result.now ≡ line_text.utf8_or_empty bytes.now }
{
    match str::from_utf8(bytes) {
        Ok(text) => text,
        Err(_) => "",
    }
}

/// A text without blanks around it.
pub fn trimmed(text: &str) -> &str {
    text.trim_start_matches(BLANKS).trim_end_matches(BLANKS)
}

/// The first lines of an input.
#[derive(Drop)]
pub struct Source<'a> {
    alloc: Global,
    lines: Vec<SourceLine<'a>>,
    /// Where each heading stands among the lines.
    headings: Vec<usize>,
    /// The roots of the sections that were made of files.
    roots: Vec<&'a [WrittenRoot<'a>]>,
    is_whole: bool,
    is_folded: bool,
}

impl<'a> Source<'a> {
    /// Finds the lines of an input, of which these are the first bytes, or all. If its sections were made of files, these are
    /// the files in the order of the sections; else there are none.
    pub fn read(
        alloc: Global,
        bytes: &'a [u8],
        is_whole: bool,
        files: &[SourceFile<'a>],
    ) -> Result<Source<'a>, AllocError> {
        let mut source = Source {
            alloc,
            lines: Vec::new(alloc),
            headings: Vec::new(alloc),
            roots: Vec::new(alloc),
            is_whole,
            is_folded: files.iter().any(|file| file.path.is_none()),
        };
        for file in files {
            source.roots.push(file.roots)?;
        }
        for line in Lines::new(bytes) {
            if source.lines.len() >= LINES || (!is_whole && !line.is_ended) {
                source.is_whole = false;
                return Ok(source);
            }
            source.push(line.text, files)?;
        }
        Ok(source)
    }

    /// Adds the next line of the input.
    fn push(&mut self, bytes: &'a [u8], files: &[SourceFile<'a>]) -> Result<(), AllocError> {
        let before = self.lines.len();
        if bytes.starts_with(b"%") {
            self.headings.push(before)?;
        }
        let section = self.headings.len();
        let number = match self.headings.last() {
            Some(heading) => before.saturating_sub(*heading),
            None => before.saturating_add(1),
        };
        let (file, file_number) = origin_of(files, section, number);
        self.lines.push(SourceLine {
            section,
            number,
            at: before.saturating_add(1),
            bytes,
            file,
            file_number,
        })?;
        Ok(())
    }

    /// The allocator.
    pub fn alloc(&self) -> Global
        ensures { result ≡ self.now.alloc }
    {
        self.alloc
    }

    /// Returns whether these are all lines of the input.
    pub fn is_whole(&self) -> bool
        ensures { result ≡ self.now.is_whole }
    {
        self.is_whole
    }

    /// Returns whether its sections have folded lines, in the place of those of files.
    pub fn is_folded(&self) -> bool
        ensures { result ≡ self.now.is_folded }
    {
        self.is_folded
    }

    /// Returns whether its sections have the lines of files.
    pub fn has_files(&self) -> bool
        ensures { result ≡ list_any places.has_file self.now.lines.items }
    {
        self.lines().iter().any(|line| line.file.is_some())
    }

    /// The lines, in their order.
    pub fn lines(&self) -> &[SourceLine<'a>]
        ensures { result.now ≡ self.now.lines.items }
    {
        self.lines.as_slice()
    }

    /// The line of that number in the input.
    pub fn line_at(&self, at: usize) -> Option<SourceLine<'a>>
        ensures { result ≡ places.line_at self.now.lines.items at }
    {
        let line = self.lines().get(at.checked_sub(1)?)?;
        Some(*line)
    }

    /// The lines of a section, its heading first.
    pub fn section_lines(&self, section: usize) -> &[SourceLine<'a>] {
        let lines = self.lines();
        let start = match section.checked_sub(1) {
            Some(before) => self.headings.get(before).copied().unwrap_or(lines.len()),
            None => 0,
        };
        let end = self.headings.get(section).copied().unwrap_or(lines.len());
        lines.get(start..end).unwrap_or(&lines[..0])
    }

    /// The line of that number in a section.
    pub fn line(&self, section: usize, number: usize) -> Option<SourceLine<'a>> {
        for line in self.section_lines(section) {
            if line.number == number {
                return Some(*line);
            }
        }
        None
    }

    /// The number of the first section whose heading has this text.
    pub fn section(&self, heading: &str) -> Option<usize> {
        for line in self.lines() {
            if line.is_heading() && line.text() == heading {
                return Some(line.section);
            }
        }
        None
    }

    /// The roots of a section and how its profile has them, if the section was made of a file.
    pub fn written_roots(&self, section: usize) -> Option<&'a [WrittenRoot<'a>]> {
        self.roots.get(section.checked_sub(1)?).copied()
    }

    /// A root of a section, as Unison knows it: the value of the line for it, in the profile that the section was made of.
    ///
    /// It is nothing if no line of the section sets this root. A `/` at the end of a root doesn't count. (That Unison compares a root in
    /// the value of a preference with the text of the root's line was observed with Unison 2.52.1.)
    pub fn root_written(&self, section: usize, root: &str) -> Option<&'a str> {
        for line in self.section_lines(section) {
            if let Some(value) = line.value_of("root") {
                if is_one_root(value, root) {
                    return Some(written_as(self.written_roots(section), value));
                }
            }
        }
        None
    }

    /// The headings of the profiles.
    pub fn profiles(&self) -> Result<Vec<SourceLine<'a>>, AllocError> {
        let mut found = Vec::new(self.alloc);
        for line in self.lines() {
            if line.profile().is_some() {
                found.push(*line)?;
            }
        }
        Ok(found)
    }
}

/// Returns whether two texts are one root.
fn is_one_root(one: &str, other: &str) -> bool {
    covers(one, other) && covers(other, one)
}

/// How a profile with these roots has the root of this text.
fn written_as<'a>(roots: Option<&'a [WrittenRoot<'a>]>, root: &'a str) -> &'a str {
    for other in roots.unwrap_or(&[]) {
        if other.path == root.as_bytes() {
            let written = utf8_or_empty(other.written);
            return if written.is_empty() { root } else { written };
        }
    }
    root
}
