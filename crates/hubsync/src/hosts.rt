//! A table of hosts, and the machines that operands name.
ghost use Rattle.std.specs.Prelude.{◌≡◌, IfOk, None};
ghost use Rattle.hub_folder.specs.Machines.{machine_in};
ghost use Rattle.std.specs.List.{list_all};
ghost use Rattle.hub_folder.specs.Told.{texts_in};
ghost use Rattle.hubsync.specs.Bundled as bundled;
ghost use Rattle.hubsync.specs.Bundled.{host_text, profile_text};
ghost use Rattle.hubsync.specs.Named.{table_in, text_in};

use hub_folder::machine_of;
use hub_hosts::{Host, Hosts};
use hub_text::Items;
use std::alloc::{AllocError, Global};

/// The first operand whose machine the table of hosts lacks. If there is no table, it lacks each machine. Beside operands that name
/// machines, one that names none is of this machine, and the table must tell which host that is: a row for it has the path `/`, and
/// each other host of the table is one of the machines that operands name. Else a folder of this machine may have two names, one in its
/// own profiles and one in those of others. (This is this project's choice.) Each row of the table is compared with each operand.
pub fn unknown_host<'a>(hosts: Option<&Hosts>, operands: &[&'a str]) -> Option<&'a str>
    ensures { text_in result ≡ bundled.unknown_host (table_in hosts.entry) (texts_in operands.now) }
{
    let others = name_machines(operands);
    for operand in operands {
        if lacks_row(others, hosts, operands, machine_of(*operand)) {
            return Some(*operand);
        }
    }
    None
}

/// Returns whether one of these operands names a machine.
fn name_machines(operands: &[&str]) -> bool
    ensures { result ≡ bundled.name_machines (texts_in operands.now) }
{
    for operand in operands {
        if machine_of(*operand).is_some() {
            return true;
        }
    }
    false
}

/// Returns whether the table of hosts has no row for the machine; or doesn't tell which host this one is, if there is none, but others
/// are named.
fn lacks_row(others: bool, hosts: Option<&Hosts>, operands: &[&str], machine: Option<&str>) -> bool
    ensures { result ≡ bundled.lacks_row others (table_in hosts.entry) (texts_in operands.now)
        (machine_in machine.entry) }
{
    match (machine, hosts) {
        (Some(machine), Some(hosts)) => !hosts.has_machine(machine),
        (Some(_), None) => true,
        (None, Some(hosts)) => others && !tells_own(hosts, operands),
        (None, None) => others,
    }
}

/// Returns whether a table tells which host this machine is, where each other one of it is to be a machine that an operand names.
fn tells_own(hosts: &Hosts, operands: &[&str]) -> bool
    ensures { result ≡ bundled.tells_own hosts.now (texts_in operands.now) }
{
    hosts.has_own_row() && are_known(hosts, operands, hosts.rows())
}

/// Returns whether the host of each of these rows is this machine, or one that an operand names.
fn are_known(hosts: &Hosts, operands: &[&str], rows: &[Host<Items<u8>>]) -> bool
    ensures { result ≡ list_all (bundled.is_known hosts.now (texts_in operands.now)) rows.now }
{
    rows.iter().all(|row| is_known(hosts, operands, row))
}

/// Returns whether the host of a row is this machine, or one that an operand names.
fn is_known(hosts: &Hosts, operands: &[&str], row: &Host<Items<u8>>) -> bool
    ensures { result ≡ bundled.is_known hosts.now (texts_in operands.now) row.now }
{
    hosts.is_here(row) || is_named(operands, row)
}

/// Returns whether an operand names the machine that is the host of a row.
fn is_named(operands: &[&str], row: &Host<Items<u8>>) -> bool
    ensures { result ≡ bundled.is_named (texts_in operands.now) row.now }
{
    for operand in operands {
        if names_host(*operand, row) {
            return true;
        }
    }
    false
}

/// Returns whether this operand does.
fn names_host(operand: &str, row: &Host<Items<u8>>) -> bool
    ensures { result ≡ bundled.names_host operand.now row.now }
{
    match machine_of(operand) {
        Some(machine) => row.is_of(machine),
        None => false,
    }
}

/// The text of a profile, maybe of a machine, with paths in place of the roots of hosts. If names fold at a root of it, a line says so.
pub fn profile_for_hosts(
    alloc: Global,
    text: Vec<u8>,
    machine: Option<&str>,
    hosts: Option<&Hosts>,
) -> Result<Vec<u8>, AllocError>
    ensures { IfOk result (λ v. v.items
        ≡ profile_text (table_in hosts.entry) (machine_in machine.entry) text.items) }
{
    match hosts {
        Some(hosts) => hosts.profile_for(alloc, machine, text.as_slice()),
        None => Ok(text),
    }
}

/// The text of rules with paths in place of the roots of hosts.
pub fn rules_for_hosts(
    alloc: Global,
    text: Vec<u8>,
    hosts: Option<&Hosts>,
) -> Result<Vec<u8>, AllocError>
    ensures { IfOk result (λ v. v.items ≡ host_text (table_in hosts.entry) None text.items) }
{
    match hosts {
        Some(hosts) => hosts.text_for(alloc, None, text.as_slice()),
        None => Ok(text),
    }
}
