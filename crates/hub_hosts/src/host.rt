//! A table of hosts.
ghost use Rattle.std.specs.Prelude.{◌≡◌, ◌⊎◌, [], Ok, Err, Some, IfOk, IfErr, OnOk};
ghost use Rattle.std.specs.Option.{option_map};
ghost use Rattle.hub_hosts.specs.Table as table;
ghost use Rattle.hub_hosts.specs.Table.{of_bytes};
ghost use Rattle.hub_hosts.specs.declared.fault.HostsFault.TheVariants.{OutOfMemory};

use crate::fault::HostsFault;
use crate::words::{BLANKS, before, from_first, is_one_of, skip, skip_end};
use hub_text::{Items, Lines, without_last_cr};
use std::alloc::{AllocError, Global};
use std::marker::Model;

/// A host, or a user of it, and the path that stands for its `/`, or for a home there.
#[derive(Clone, Copy, Debug, PartialEq, Eq)]
pub struct Host<T> {
    /// `HOST` or `USER@HOST`.
    pub name: T,
    /// Whether it is for roots that are relative to a home.
    pub is_for_home: bool,
    /// The path, without slashes at its end: that of `/` is empty.
    pub path: T,
    /// Whether it takes names that differ in case alone for one name.
    pub folds_names: bool,
}

/// The paths that stand for hosts. Contracts see the rows, in the order of their lines.
#[derive(Debug, Drop)]
pub struct Hosts {
    rows: Items<Host<Items<u8>>>,
}

impl Model for Hosts {
    ghost use Rattle.hub_hosts.specs.Table.{Row};
    ghost use Rattle.std.specs.Prelude.{List};

    ghost Value = { List Row };

    ghost view = { λ a. a.rows };
}

impl Hosts {
    /// Reads a table of lines `HOST PATH`. Blank lines and lines that begin with `#` after blanks say nothing. HOST is `HOST` or
    /// `USER@HOST`, and with a `~` at its end it is for roots that are relative to a home. It has no `/`, and PATH is absolute. Blanks
    /// and one CR at the end of a line go, and slashes at the end of a PATH. Before HOST the word `folds-names` may stand.
    ///
    /// `BadLine` is reported for a line that isn't so, and `SecondLine` for one whose HOST stands above, in capitals or not. Of several
    /// faults the first is reported. Any call may instead report `OutOfMemory`. (All of this is this project's choice.)
    ///
    /// Each line is compared with all rows above it.
    pub fn read(alloc: Global, bytes: &[u8]) -> Result<Hosts, HostsFault>
        ensures ok { IfOk result (λ h. table.rows_of bytes.now ≡ Ok h) }
        ensures err { IfErr result
            (λ e. (e ≡ OutOfMemory) ⊎ (table.rows_of bytes.now ≡ Err e)) }
    {
        let mut rows = Items::new(alloc);
        let mut rest = Lines::new(bytes);
        let mut number = 1;
        while let Some(line) = rest.next() {
            add_line(alloc, &mut rows, number, said_by(line.text))?;
            number += 1;
        }
        Ok(Hosts { rows })
    }

    /// A table without rows. It doesn't allocate.
    pub fn none(alloc: Global) -> Hosts
        ensures { result ≡ [] }
    {
        Hosts {
            rows: Items::new(alloc),
        }
    }

    /// The rows, in the order of their lines.
    pub fn rows(&self) -> &[Host<Items<u8>>]
        ensures { result.now ≡ self.now }
    {
        self.rows.as_slice()
    }
}

/// What a line says.
fn said_by(line: &[u8]) -> &[u8]
    ensures { result.now ≡ table.said_by line.now }
{
    skip_end(BLANKS, skip(BLANKS, without_last_cr(line)))
}

/// Adds the row of a line that says this, if it says something.
fn add_line(
    alloc: Global,
    rows: &mut Items<Host<Items<u8>>>,
    number: usize,
    said: &[u8],
) -> Result<(), HostsFault>
    ensures ok { OnOk result (table.add_line number rows.old said.now ≡ Ok rows.new) }
    ensures err { IfErr result
        (λ e. (e ≡ OutOfMemory) ⊎ (table.add_line number rows.old said.now ≡ Err e)) }
{
    if says_nothing(said) {
        return Ok(());
    }
    match row_of(said) {
        Some(row) => add_row(alloc, rows, number, row),
        None => Err(HostsFault::BadLine(number)),
    }
}

/// Adds a row, unless there is one for its roots.
fn add_row(
    alloc: Global,
    rows: &mut Items<Host<Items<u8>>>,
    number: usize,
    row: Host<&[u8]>,
) -> Result<(), HostsFault>
    ensures ok { OnOk result
        (table.add_row number rows.old (Some (of_bytes row.entry)) ≡ Ok rows.new) }
    ensures err { IfErr result (λ e. (e ≡ OutOfMemory)
        ⊎ (table.add_row number rows.old (Some (of_bytes row.entry)) ≡ Err e)) }
{
    if has_row(rows.as_slice(), row.name, row.is_for_home) {
        return Err(HostsFault::SecondLine(number));
    }
    rows.push(copy_of(alloc, row)?)?;
    Ok(())
}

/// A copy of a row.
fn copy_of(alloc: Global, row: Host<&[u8]>) -> Result<Host<Items<u8>>, AllocError>
    ensures { IfOk result (λ copy. copy ≡ of_bytes row.entry) }
{
    Ok(Host {
        name: Items::from_vec(Vec::from_slice(alloc, row.name)?),
        is_for_home: row.is_for_home,
        path: Items::from_vec(Vec::from_slice(alloc, row.path)?),
        folds_names: row.folds_names,
    })
}

/// Returns whether there is a row for roots of this name.
fn has_row(rows: &[Host<Items<u8>>], name: &[u8], in_home: bool) -> bool
    ensures { result ≡ table.has_row rows.now name.now in_home }
{
    rows.iter().any(|row| is_for(row, name, in_home))
}

/// Returns whether a row is for roots of this name.
pub(crate) fn is_for(row: &Host<Items<u8>>, name: &[u8], in_home: bool) -> bool
    ensures { result ≡ table.is_for name.now in_home row.now }
{
    row.is_for_home == in_home && is_same_name(row.name.as_slice(), name)
}

/// Returns whether two names are the same but for the case of ASCII letters.
pub(crate) fn is_same_name(one: &[u8], other: &[u8]) -> bool
    ensures { result ≡ table.is_same_name one.now other.now }
{
    one.eq_ignore_ascii_case(other)
}

/// Returns whether a line says nothing: it is blank or begins with `#`.
fn says_nothing(said: &[u8]) -> bool
    ensures { result ≡ table.says_nothing said.now }
{
    said.is_empty() || said.starts_with(b"#")
}

/// The row that a line says, if it says one: `HOST PATH`, or that behind `folds-names`.
fn row_of(said: &[u8]) -> Option<Host<&[u8]>>
    ensures { option_map of_bytes result ≡ table.row_of said.now }
{
    match row_at(false, said) {
        Some(row) => Some(row),
        None => folding_row(said),
    }
}

/// The row behind the word for a host that folds names.
fn folding_row(said: &[u8]) -> Option<Host<&[u8]>>
    ensures { option_map of_bytes result ≡ table.folding_row said.now }
{
    let rest = from_first(BLANKS, said);
    if before(said, rest) == b"folds-names".as_slice() {
        row_at(true, skip(BLANKS, rest))
    } else {
        None
    }
}

/// The row that a text says, if it is `HOST PATH`.
fn row_at(folds_names: bool, said: &[u8]) -> Option<Host<&[u8]>>
    ensures { option_map of_bytes result ≡ table.row_at folds_names said.now }
{
    let rest = from_first(BLANKS, said);
    let row = row_with(folds_names, before(said, rest), skip(BLANKS, rest));
    if is_row(row.name, skip(BLANKS, rest)) {
        Some(row)
    } else {
        None
    }
}

/// Returns whether a row has this name and this path: a name isn't empty and has no `/`, and the path is absolute.
fn is_row(name: &[u8], path: &[u8]) -> bool
    ensures { result ≡ table.is_row name.now path.now }
{
    !name.is_empty() && !is_one_of(name, b'/') && path.starts_with(b"/")
}

/// The row of a word and a path.
fn row_with<'a>(folds_names: bool, word: &'a [u8], path: &'a [u8]) -> Host<&'a [u8]>
    ensures { of_bytes result ≡ table.row_with folds_names word.now path.now }
{
    Host {
        name: name_in(word),
        is_for_home: word.ends_with(b"~"),
        path: skip_end(b"/", path),
        folds_names,
    }
}

/// The name in a word, which may have `~` at its end.
fn name_in(word: &[u8]) -> &[u8]
    ensures { result.now ≡ table.name_in word.now }
{
    word.strip_suffix(b"~").unwrap_or(word)
}
