//! The files that the words on the command line name, and what they have.
ghost use Rattle.std.specs.Prelude.{◌≡◌, ◌++◌, false, map, IfErr, IfOk, OnOk};
ghost use Rattle.std.specs.List.{All};
ghost use Rattle.hub_cli.specs.Words.{names_of};
ghost use Rattle.hub_bundle.specs.declared.part.Kind.TheVariants.{Profile};
ghost use Rattle.hub_folder.specs.Told.{owned_of};
ghost use Rattle.hubsync.specs.Bundled.{HasContents, IsTable, bytes_of, for_hosts, label_if, label_of, labels, option_labels, profile_label, profile_labels, disk_of};
ghost use Rattle.hubsync.specs.Named.{AddsLabels, HaveLabels, HaveTexts, HoldRead, HoldSections, HoldTaken};
ghost use Rattle.hubsync.specs.Named.{IsUnreadFile, IsUnreadOf, IsUnserved, OfHosts, bytes_for, bytes_held, label_held, label_named, sources_in, table_in, text_in};
ghost use Rattle.hubsync.specs.Written.{ServesFilesTo, WritesNothing};

use crate::bundled::{serve_parts, write_memory};
use crate::captured::Captured;
use crate::folders::folders_of;
use crate::hosts::{profile_for_hosts, rules_for_hosts, unknown_host};
use crate::left_out::say_left_out;
use crate::served::{Answered, Capture};
use crate::sources::{HeldRoot, roots_in, source_files, written_roots};
use crate::untaken::{
    write_bad_hosts, write_second_machine, write_unknown_host, write_unread, write_untaken,
};
use hub_bundle::{Kind, Part};
use hub_cli::{Files, Options};
use hub_folder::{
    FileReader, FolderProfile, NamedProfile, Origins, ReadFault, Unread, machine_of,
    profiles_named, second_machine,
};
use hub_hosts::{Hosts, HostsFault};
use hub_text::Watched;
use std::alloc::{AllocError, Global};
use std::io::{Eprint, Write};
use std::sync::Wait;
use std::thread::Threads;
use std::time::Clock;

/// A file, and the section that it is for.
#[derive(Clone, Copy)]
struct Named<'a> {
    kind: Kind,
    file: &'a str,
}

/// A file that was read, and the section that it is for.
#[derive(Drop)]
pub struct Held<'a> {
    /// The section.
    pub kind: Kind,
    /// Its path.
    pub file: String,
    /// The machine that has the profile, if its operand names one.
    pub machine: Option<&'a str>,
    /// Its bytes.
    pub bytes: Vec<u8>,
    /// Where its lines come from, if not all of them are the file's own.
    pub origins: Option<Origins>,
    /// The paths of the files that are no profiles since it includes them.
    pub left_out: Vec<String>,
    /// Its roots that have a path in their place.
    pub roots: Vec<HeldRoot>,
}

/// The files that were read.
#[derive(Drop)]
struct Sections<'a> {
    held: Vec<Held<'a>>,
    /// The paths of the files of folders that are no profiles since they set no root.
    rootless: Vec<String>,
}

/// Why nothing is answered over the files.
enum Unserved<'a> {
    /// This is wrong with this file.
    File(&'a str, ReadFault),
    /// The profiles can't be told.
    Untaken(hub_folder::Untaken),
    /// This is wrong with the file of the table of hosts.
    Hosts(&'a str, ReadFault),
    /// This is wrong with the table of hosts that the file has.
    BadHosts(&'a str, HostsFault),
    /// The machine of this operand is that of another one, too.
    SecondMachine(&'a str),
    /// The table of hosts has no row for the machine of this operand.
    UnknownHost(&'a str),
    /// Out of memory.
    OutOfMemory,
}

impl<'a> From<AllocError> for Unserved<'a> {
    ghost use Rattle.hubsync.specs.declared.files.Unserved.TheVariants.{OutOfMemory};
    ghost use Rattle.std.specs.Prelude.{◌≡◌};

    ghost from_gives = { λ _ u. u ≡ OutOfMemory };

    fn from(_: AllocError) -> Self {
        Unserved::OutOfMemory
    }
}

/// Answers over the files that the words name, each in the section that it is for. If one can't be read, a fault says so, and the
/// status is 2.
///
/// The answer is given over the bytes that the reader tells of these files, as `serve_parts` says. For Unison the profiles are those
/// that `profiles_named` gives for the operands.
pub fn serve_files<
    T: AllocGlobal + Clock + Eprint + Threads + Wait + Sync,
    F: FileReader,
    W: Write,
>(
    rt: &T,
    words: &[String],
    options: &Options<'_>,
    reader: &F,
    output: &mut Watched<Captured<'_, W>>,
    capture: &Capture,
) -> Answered
    requires { output.old.failed ≡ false }
    ensures { ServesFilesTo output.old output.new W.contents (disk_of F.reads F.lists F.folders reader.now)
        words.now (sources_in options.now) result.status }
{
    match serve_named(rt, words, options, reader, output, capture) {
        Ok(answered) => answered,
        Err(Unserved::File(file, fault)) => {
            Answered::plain(write_unread(rt, file, fault, output))
        }
        Err(Unserved::Untaken(fault)) => Answered::plain(write_untaken(rt, fault, output)),
        Err(Unserved::Hosts(file, fault)) => {
            Answered::plain(write_unread(rt, file, fault, output))
        }
        Err(Unserved::BadHosts(file, fault)) => {
            Answered::plain(write_bad_hosts(rt, file, fault, output))
        }
        Err(Unserved::SecondMachine(operand)) => {
            Answered::plain(write_second_machine(rt, operand, output))
        }
        Err(Unserved::UnknownHost(operand)) => {
            Answered::plain(write_unknown_host(rt, operand, options.files.hosts.is_some(), output))
        }
        Err(Unserved::OutOfMemory) => Answered::plain(write_memory(output)),
    }
}

/// Reads the files that the words name, and answers over them.
fn serve_named<
    'a,
    T: AllocGlobal + Clock + Eprint + Threads + Wait + Sync,
    F: FileReader,
    W: Write,
>(
    rt: &T,
    words: &[String],
    options: &Options<'a>,
    reader: &F,
    output: &mut Watched<Captured<'_, W>>,
    capture: &Capture,
) -> Result<Answered, Unserved<'a>>
    requires { output.old.failed ≡ false }
    ensures served { IfOk result (λ a. ServesFilesTo output.old output.new W.contents
        (disk_of F.reads F.lists F.folders reader.now) words.now (sources_in options.now) a.status) }
    ensures named { IfErr result
        (IsUnserved (disk_of F.reads F.lists F.folders reader.now) (names_of options.now.files)) }
    ensures unread { IfErr result (λ _. output.new.failed ≡ false) }
    ensures silent { IfErr result (λ _. WritesNothing output.old output.new W.contents) }
{
    let alloc = rt.alloc();
    let Sections { held, rootless } = read_sections(alloc, reader, options)?;
    let parts = parts_of(alloc, held.as_slice())?;
    let folders = folders_of(alloc, reader, options.is_for_unison, held.as_slice())?;
    let roots = written_roots(alloc, held.as_slice())?;
    let files = source_files(alloc, held.as_slice(), roots.as_slice())?;
    let answered = serve_parts(
        rt,
        words,
        options.is_for_unison,
        files.as_slice(),
        folders.as_slice(),
        parts.as_slice(),
        output,
        capture,
    );
    let misleads = say_left_out(rt, held.as_slice(), rootless.as_slice());
    Ok(Answered {
        status: answered.status,
        may_mislead: answered.may_mislead || misleads,
    })
}

/// Reads the files, as they are or for Unison.
fn read_sections<'a, F: FileReader>(
    alloc: Global,
    reader: &F,
    options: &Options<'a>,
) -> Result<Sections<'a>, Unserved<'a>>
    ensures ok { IfOk result (λ v. HoldSections F.reads F.lists F.folders reader.now
        (sources_in options.now) v.held.items) }
    ensures err { IfErr result (IsUnserved (disk_of F.reads F.lists F.folders reader.now)
        (names_of options.now.files)) }
{
    if options.is_for_unison {
        read_for_unison(alloc, reader, &options.files)
    } else {
        read_plainly(alloc, reader, &options.files)
    }
}

/// Reads the files as they are.
fn read_plainly<'a, F: FileReader>(
    alloc: Global,
    reader: &F,
    files: &Files<'a>,
) -> Result<Sections<'a>, Unserved<'a>>
    ensures ok { IfOk result (λ v. HoldRead (F.reads reader.now) (names_of files.now) v.held.items) }
    ensures err { IfErr result (IsUnserved (disk_of F.reads F.lists F.folders reader.now)
        (names_of files.now)) }
{
    let named = named_files(alloc, files)?;
    match read_all(alloc, reader, named.as_slice()) {
        Ok(held) => Ok(Sections {
            held,
            rootless: Vec::new(alloc),
        }),
        Err(fault) => Err(fault),
    }
}

/// Reads the files, and the profiles that the operands name for Unison. No machine may be named twice, and the table of hosts must
/// have a row for each. (This is this project's choice.)
#[tactic(auto, using(crate::proofs::FilesFacts::hold_taken))]
fn read_for_unison<'a, F: FileReader>(
    alloc: Global,
    reader: &F,
    files: &Files<'a>,
) -> Result<Sections<'a>, Unserved<'a>>
    ensures ok { IfOk result (λ v. HoldTaken F.reads F.lists F.folders reader.now (names_of files.now)
        v.held.items) }
    ensures err { IfErr result (IsUnserved (disk_of F.reads F.lists F.folders reader.now)
        (names_of files.now)) }
{
    if let Some(operand) = second_machine(files.profiles.as_slice()) {
        return Err(Unserved::SecondMachine(operand));
    }
    let taken = match profiles_named(alloc, reader, files.profiles.as_slice()) {
        Ok(taken) => taken,
        Err(fault) => return Err(Unserved::Untaken(fault)),
    };
    let hosts = match read_hosts(alloc, reader, files.hosts) {
        Ok(hosts) => hosts,
        Err(fault) => return Err(fault),
    };
    if let Some(operand) = unknown_host(hosts.as_ref(), files.profiles.as_slice()) {
        return Err(Unserved::UnknownHost(operand));
    }
    let named = option_files(alloc, files, Vec::new(alloc))?;
    match read_all(alloc, reader, named.as_slice()) {
        Ok(others) => Ok(Sections {
            held: with_profiles(alloc, taken.profiles, hosts.as_ref(), others)?,
            rootless: taken.rootless,
        }),
        Err(fault) => Err(fault),
    }
}

/// Reads the table of hosts, if a file of one is named.
fn read_hosts<'a, F: FileReader>(
    alloc: Global,
    reader: &F,
    file: Option<&'a str>,
) -> Result<Option<Hosts>, Unserved<'a>>
    ensures ok { IfOk result (λ h. IsTable (F.reads reader.now) (text_in file.entry) h) }
    ensures err { OfHosts file.entry
        (λ names. IfErr result (IsUnserved (disk_of F.reads F.lists F.folders reader.now) names)) }
{
    let Some(file) = file else {
        return Ok(None);
    };
    match reader.read_file(alloc, file) {
        Ok(bytes) => match Hosts::read(alloc, bytes.as_slice()) {
            Ok(hosts) => Ok(Some(hosts)),
            Err(HostsFault::OutOfMemory) => Err(Unserved::OutOfMemory),
            Err(fault) => Err(Unserved::BadHosts(file, fault)),
        },
        Err(Unread::File(fault)) => Err(Unserved::Hosts(file, fault)),
        Err(Unread::OutOfMemory) => Err(Unserved::OutOfMemory),
    }
}

/// These profiles, and then the other files.
fn with_profiles<'a>(
    alloc: Global,
    profiles: Vec<NamedProfile<'a>>,
    hosts: Option<&Hosts>,
    others: Vec<Held<'a>>,
) -> Result<Vec<Held<'a>>, AllocError>
    ensures labels { IfOk result (λ v. HaveLabels profiles.entry.items others.entry.items v.items) }
    ensures bytes { IfOk result (λ v. HaveTexts (table_in hosts.entry) profiles.entry.items
        others.entry.items v.items) }
{
    let mut held = Vec::new(alloc);
    for profile in profiles {
        held.push(held_profile(alloc, profile, hosts)?)?;
    }
    push_others(alloc, &mut held, others, hosts)?;
    Ok(held)
}

/// A profile that was told, with paths in place of the roots of hosts, and with a line that says so if names fold at a root.
fn held_profile<'a>(
    alloc: Global,
    named: NamedProfile<'a>,
    hosts: Option<&Hosts>,
) -> Result<Held<'a>, AllocError>
    ensures label { IfOk result (λ h. label_held h ≡ profile_label (owned_of named.entry)) }
    ensures bytes { IfOk result (λ h. bytes_held h
        ≡ for_hosts (table_in hosts.entry) (owned_of named.entry)) }
{
    let NamedProfile { machine, profile } = named;
    let FolderProfile {
        path,
        text,
        origins,
        left_out,
    } = profile;
    let roots = roots_in(alloc, text.as_slice(), machine, hosts)?;
    Ok(Held {
        kind: Kind::Profile,
        file: path,
        machine,
        bytes: profile_for_hosts(alloc, text, machine, hosts)?,
        origins: Some(origins),
        left_out,
        roots,
    })
}

/// Adds these files, with paths in place of the roots of hosts in rules.
fn push_others<'a>(
    alloc: Global,
    held: &mut Vec<Held<'a>>,
    others: Vec<Held<'a>>,
    hosts: Option<&Hosts>,
) -> Result<(), AllocError>
    ensures labels { OnOk result (map label_held held.new.items
        ≡ map label_held held.old.items ++ map label_held others.entry.items) }
    ensures bytes { OnOk result (map bytes_held held.new.items
        ≡ map bytes_held held.old.items ++ map (bytes_for (table_in hosts.entry)) others.entry.items) }
{
    for other in others {
        held.push(held_other(alloc, other, hosts)?)?;
    }
    Ok(())
}

/// A file of an option, with paths in place of the roots of hosts if it has rules.
fn held_other<'a>(
    alloc: Global,
    other: Held<'a>,
    hosts: Option<&Hosts>,
) -> Result<Held<'a>, AllocError>
    ensures label { IfOk result (λ h. label_held h ≡ label_held other.entry) }
    ensures bytes { IfOk result (λ h. bytes_held h ≡ bytes_for (table_in hosts.entry) other.entry) }
{
    let Held {
        kind,
        file,
        machine,
        bytes,
        origins,
        left_out,
        roots,
    } = other;
    let bytes = match kind {
        Kind::Profile => profile_for_hosts(alloc, bytes, None, hosts)?,
        Kind::Rules => rules_for_hosts(alloc, bytes, hosts)?,
        Kind::State | Kind::Certificates => bytes,
    };
    Ok(Held {
        kind,
        file,
        machine,
        bytes,
        origins,
        left_out,
        roots,
    })
}

/// The files in the order of their sections: the profiles, the rules, the state, the certificates.
fn named_files<'a>(alloc: Global, files: &Files<'a>) -> Result<Vec<Named<'a>>, AllocError>
    ensures { IfOk result (λ v. map label_named v.items ≡ labels (names_of files.now)) }
{
    let named = profile_files(alloc, files.profiles.as_slice())?;
    option_files(alloc, files, named)
}

/// These files, and then those of options in the order of their sections.
fn option_files<'a>(
    alloc: Global,
    files: &Files<'a>,
    profiles: Vec<Named<'a>>,
) -> Result<Vec<Named<'a>>, AllocError>
    ensures { IfOk result (λ v. AddsLabels profiles.entry.items v.items
        (option_labels (names_of files.now))) }
{
    let mut named = profiles;
    push_named(&mut named, Kind::Rules, files.rules)?;
    push_named(&mut named, Kind::State, files.state)?;
    push_named(&mut named, Kind::Certificates, files.certificates)?;
    Ok(named)
}

/// The files of profiles.
fn profile_files<'a>(alloc: Global, files: &[&'a str]) -> Result<Vec<Named<'a>>, AllocError>
    ensures { IfOk result (λ v. map label_named v.items
        ≡ profile_labels (map (λ f. f.now) files.now)) }
{
    let mut named = Vec::new(alloc);
    for file in files {
        let kind = Kind::Profile;
        named.push(Named { kind, file: *file })?;
    }
    Ok(named)
}

/// Adds a file, if there is one.
fn push_named<'a>(
    named: &mut Vec<Named<'a>>,
    kind: Kind,
    file: Option<&'a str>,
) -> Result<(), AllocError>
    ensures { OnOk result (AddsLabels named.old.items named.new.items
        (label_if kind (text_in file.entry))) }
{
    if let Some(file) = file {
        named.push(Named { kind, file })?;
    }
    Ok(())
}

/// Reads all of the files.
fn read_all<'a, F: FileReader>(
    alloc: Global,
    reader: &F,
    named: &[Named<'a>],
) -> Result<Vec<Held<'a>>, Unserved<'a>>
    ensures labels { IfOk result (λ v. map label_held v.items ≡ map label_named named.now) }
    ensures bytes { IfOk result
        (λ v. All (HasContents (F.reads reader.now)) (map bytes_held v.items)) }
    ensures err { IfErr result (IsUnreadOf (F.reads reader.now) (map label_named named.now)) }
{
    let mut held = Vec::new(alloc);
    for name in named {
        let one = read_one(alloc, reader, *name)?;
        if held.push(one).is_err() {
            return Err(Unserved::OutOfMemory);
        }
    }
    Ok(held)
}

/// Reads a file.
fn read_one<'a, F: FileReader>(
    alloc: Global,
    reader: &F,
    named: Named<'a>,
) -> Result<Held<'a>, Unserved<'a>>
    ensures label { IfOk result (λ h. label_held h ≡ label_named named.entry) }
    ensures bytes { IfOk result (λ h. HasContents (F.reads reader.now) (bytes_held h)) }
    ensures err { IfErr result (IsUnreadFile (F.reads reader.now) (label_named named.entry)) }
{
    let Named { kind, file } = named;
    let path = String::from_str(alloc, file)?;
    match reader.read_file(alloc, file) {
        Ok(bytes) => Ok(Held {
            kind,
            file: path,
            machine: None,
            bytes,
            origins: None,
            left_out: Vec::new(alloc),
            roots: Vec::new(alloc),
        }),
        Err(Unread::File(fault)) => Err(Unserved::File(file, fault)),
        Err(Unread::OutOfMemory) => Err(Unserved::OutOfMemory),
    }
}

/// The sections of the files.
fn parts_of<'a>(alloc: Global, held: &'a [Held<'a>]) -> Result<Vec<Part<'a>>, AllocError>
    ensures labels { IfOk result (λ v. map label_of v.items ≡ map label_held held.now) }
    ensures bytes { IfOk result (λ v. map bytes_of v.items ≡ map bytes_held held.now) }
{
    let mut parts = Vec::new(alloc);
    for one in held {
        parts.push(Part {
            kind: one.kind,
            file: one.file.as_str(),
            machine: one.machine,
            bytes: one.bytes.as_slice(),
        })?;
    }
    Ok(parts)
}
