//! Why files aren't served: what is wrong with a file, a folder, a line that includes a file, or a table of hosts.
ghost use Rattle.std.specs.Prelude.{◌≡◌, ◌++◌, false, codes, IfOk};
ghost use Rattle.hub_folder.specs.Reading.{fault_word};
ghost use Rattle.hubsync.specs.Bundled.{hosts_word, why_word};
ghost use Rattle.hubsync.specs.Written.{ReportsFault, ReportsUntaken};

use crate::bundled::{write_fault, write_memory};
use crate::captured::Captured;
use hub_folder::{ReadFault, Untaken, machine_of};
use hub_hosts::{Hosts, HostsFault};
use hub_include::{LineFault, Why};
use hub_source::shown;
use hub_text::Watched;
use std::alloc::{AllocError, Global};
use std::io;
use std::io::{Eprint, Write};

/// Says what is wrong with a file, and with the system's words on standard error. If that fails too, there is nobody left to tell.
pub fn write_unread<T: AllocGlobal + Eprint, W: Write>(
    rt: &T,
    file: &str,
    fault: ReadFault,
    output: &mut Watched<Captured<'_, W>>,
) -> u8
    requires { output.old.failed ≡ false }
    ensures { ReportsFault output.old output.new W.contents file.now (fault_word fault) result }
{
    match fault {
        ReadFault::Missing(error) | ReadFault::ReadFailed(error) => {
            let status = write_fault(rt.alloc(), file.as_bytes(), "ReadFailed", output);
            say_unread(rt, file, error);
            status
        }
        ReadFault::TurnsSpent => {
            let status = write_fault(rt.alloc(), file.as_bytes(), "TurnsSpent", output);
            let _ = eprintln!(rt; "hubsync: {file} has no end, as far as it was read");
            status
        }
    }
}

/// Says why profiles can't be told.
pub fn write_untaken<T: AllocGlobal + Eprint, W: Write>(
    rt: &T,
    fault: Untaken,
    output: &mut Watched<Captured<'_, W>>,
) -> u8
    requires { output.old.failed ≡ false }
    ensures { ReportsUntaken output.old output.new W.contents fault result }
{
    match fault {
        Untaken::File(path, fault) | Untaken::Folder(path, fault) => {
            write_unread(rt, path.as_str(), fault, output)
        }
        Untaken::Gone(path) => write_gone(rt, path.as_str(), output),
        Untaken::TooManyFiles(path) => {
            write_fault(rt.alloc(), path.as_bytes(), "TooManyFiles", output)
        }
        Untaken::TooLong(path) => write_too_long(rt, path.as_str(), output),
        Untaken::Line(place, fault) => write_bad_line(rt, place, fault, output),
        Untaken::OutOfMemory => write_memory(output),
    }
}

/// Says that a file of a folder isn't there.
fn write_gone<T: AllocGlobal + Eprint, W: Write>(
    rt: &T,
    file: &str,
    output: &mut Watched<Captured<'_, W>>,
) -> u8
    requires { output.old.failed ≡ false }
    ensures { ReportsFault output.old output.new W.contents file.now (codes "ReadFailed") result }
{
    let status = write_fault(rt.alloc(), file.as_bytes(), "ReadFailed", output);
    let _ = eprintln!(rt;
        "hubsync: {file} is in the folder, but there is no such file: is it a link?"
    );
    status
}

/// Says that the texts of profiles are too long, with that of this file.
fn write_too_long<T: AllocGlobal + Eprint, W: Write>(
    rt: &T,
    file: &str,
    output: &mut Watched<Captured<'_, W>>,
) -> u8
    requires { output.old.failed ≡ false }
    ensures { ReportsFault output.old output.new W.contents file.now (codes "TooLong") result }
{
    let status = write_fault(rt.alloc(), file.as_bytes(), "TooLong", output);
    let _ = eprintln!(rt;
        "hubsync: with {file} the profiles have more than 16 MiB, included lines each time"
    );
    status
}

/// Says what is wrong with a table of hosts.
pub fn write_bad_hosts<T: AllocGlobal + Eprint, W: Write>(
    rt: &T,
    file: &str,
    fault: HostsFault,
    output: &mut Watched<Captured<'_, W>>,
) -> u8
    requires { output.old.failed ≡ false }
    ensures { ReportsFault output.old output.new W.contents file.now (hosts_word fault) result }
{
    match fault {
        HostsFault::BadLine(number) => {
            let status = write_fault(rt.alloc(), file.as_bytes(), "BadHost", output);
            let _ = eprintln!(rt;
                "hubsync: {file}, line {number} isn't HOST PATH, as: build /hosts/build"
            );
            status
        }
        HostsFault::SecondLine(number) => {
            let status = write_fault(rt.alloc(), file.as_bytes(), "SecondHost", output);
            let _ = eprintln!(rt; "hubsync: {file}, line {number} is a second one for its host");
            status
        }
        HostsFault::OutOfMemory => write_memory(output),
    }
}

/// Says that the machine of this operand is that of another one, too.
pub fn write_second_machine<T: AllocGlobal + Eprint, W: Write>(
    rt: &T,
    operand: &str,
    output: &mut Watched<Captured<'_, W>>,
) -> u8
    requires { output.old.failed ≡ false }
    ensures { ReportsFault output.old output.new W.contents operand.now (codes "SecondMachine") result }
{
    let status = write_fault(rt.alloc(), operand.as_bytes(), "SecondMachine", output);
    let _ = eprintln!(rt;
        "hubsync: another operand has this machine: name each machine once, with one folder or file"
    );
    status
}

/// Says that the table of hosts has no row for the machine of this operand, or that there is no table.
pub fn write_unknown_host<T: AllocGlobal + Eprint, W: Write>(
    rt: &T,
    operand: &str,
    has_table: bool,
    output: &mut Watched<Captured<'_, W>>,
) -> u8
    requires { output.old.failed ≡ false }
    ensures { ReportsFault output.old output.new W.contents operand.now (codes "UnknownHost") result }
{
    let status = write_fault(rt.alloc(), operand.as_bytes(), "UnknownHost", output);
    let _ = match machine_of(operand) {
        Some(machine) => say_unknown_host(rt, machine, has_table),
        None => say_own_row(rt, has_table),
    };
    status
}

/// Says on standard error how to tell which host this machine is. If that fails, there is nobody left to tell.
fn say_own_row<T: AllocGlobal + Eprint>(rt: &T, has_table: bool) -> Result<(), AllocError> {
    let file = if has_table {
        "the table of --hosts"
    } else {
        "a table of --hosts FILE"
    };
    let _ = eprintln!(rt;
        "hubsync: this operand has profiles of this machine, and others name theirs: write HOST= before it, too, where HOST is how roots of the others name this machine,"
    );
    let _ = eprintln!(rt;
        "hubsync: and give HOST the path / in {file}: by another name of this machine clashes would be missed"
    );
    Ok(())
}

/// Says on standard error which line the table of hosts wants. If that fails, there is nobody left to tell.
fn say_unknown_host<T: AllocGlobal + Eprint>(
    rt: &T,
    machine: &str,
    has_table: bool,
) -> Result<(), AllocError> {
    let row = format!(in rt.alloc(); "{machine} /hosts/{machine}")?;
    let row = row.as_str();
    if !is_row_for(rt.alloc(), row, machine) {
        let _ = eprintln!(rt;
            "hubsync: no line of a table of hosts names {machine}: write a host's name before the ="
        );
        return Ok(());
    }
    let _ = if has_table {
        eprintln!(rt;
            "hubsync: add this line to the table of --hosts, with the path of its / here:"
        )
    } else {
        eprintln!(rt;
            "hubsync: add --hosts FILE, where FILE has this line, with the path of its / here:"
        )
    };
    let _ = eprintln!(rt; "hubsync:     {row}");
    Ok(())
}

/// Returns whether a table of this line has the machine.
fn is_row_for(alloc: Global, row: &str, machine: &str) -> bool {
    match Hosts::read(alloc, row.as_bytes()) {
        Ok(hosts) => hosts.has_machine(machine),
        Err(_) => false,
    }
}

/// Says which line that includes a file can't be followed.
fn write_bad_line<T: AllocGlobal + Eprint, W: Write>(
    rt: &T,
    place: String,
    fault: LineFault,
    output: &mut Watched<Captured<'_, W>>,
) -> u8
    requires { output.old.failed ≡ false }
    ensures { ReportsUntaken output.old output.new W.contents (Untaken.Line place fault) result }
{
    match path_below(rt.alloc(), place.as_str(), fault.file.as_slice()) {
        Ok(path) => {
            let status = write_fault(rt.alloc(), path.as_slice(), word_of(fault.why), output);
            let _ = say_bad_line(rt, path.as_slice(), &fault);
            status
        }
        Err(_) => write_memory(output),
    }
}

/// The path of a file of a folder.
fn path_below(alloc: Global, place: &str, file: &[u8]) -> Result<Vec<u8>, AllocError>
    ensures { IfOk result (λ v. v.items ≡ place.now ++ file.now) }
{
    let mut path = Vec::from_slice(alloc, place.as_bytes())?;
    path.extend_from_slice(file)?;
    Ok(path)
}

/// Why a line that includes a file can't be followed, as a word of the answer.
fn word_of(why: Why) -> &'static str
    ensures { result.now ≡ why_word why }
{
    match why {
        Why::BadLine => "BadInclude",
        Why::NoFile => "NoFile",
        Why::Cycle => "Cycle",
        Why::TooDeep => "TooDeep",
        Why::TooLong => "TooLong",
    }
}

/// Says the same on standard error, and what to do. If that fails too, there is nobody left to tell.
fn say_bad_line<T: AllocGlobal + Eprint>(
    rt: &T,
    path: &[u8],
    fault: &LineFault,
) -> Result<(), AllocError> {
    let path = str::from_utf8(path).unwrap_or("");
    let number = fault.number;
    let what = match fault.why {
        Why::BadLine => "takes one file's name, with \\ before each blank in it",
        Why::NoFile => "names a file that isn't in the profile's folder: ",
        Why::Cycle => "includes a file that includes this one: Unison's stack overflows",
        Why::TooDeep => "stands in too many files that include each other: 100 may be open",
        Why::TooLong => "makes a profile of more than 100,000 lines",
    };
    let text = if fault.why == Why::NoFile {
        shown(rt.alloc(), fault.text.as_slice())?
    } else {
        String::new(rt.alloc())
    };
    let text = text.as_str();
    let _ = eprintln!(rt; "hubsync: {path}, line {number} {what}{text}");
    Ok(())
}

/// Says on standard error that a file can't be read.
fn say_unread<T: Eprint>(rt: &T, file: &str, error: Option<io::Error>) {
    let _ = match error {
        Some(error) => eprintln!(rt; "hubsync: {file} can't be read: {error}"),
        None => eprintln!(rt; "hubsync: {file} can't be read"),
    };
}
