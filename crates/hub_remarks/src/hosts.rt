//! The table of hosts that profiles with roots on other machines need.

use crate::unison::is_for_unison;
use hub_bundle::SectionFault;
use hub_path::PathFault;
use hub_profile::Fault;
use hub_report::{FaultyInput, Told};
use hub_source::{HostTable, Said, Source, say};

/// Says a table of hosts below a fault of a profile, if roots of the profiles are on other machines. It has all hosts of the files.
pub(crate) fn say_hosts(
    out: &mut String,
    source: &Source<'_>,
    words: &[String],
    told: &Told,
) -> Said {
    if !source.is_whole() || !is_asked(words, told) {
        return Ok(());
    }
    let table = HostTable::of(source)?;
    if table.rows.is_empty() {
        return Ok(());
    }
    say(out, head_of(words))?;
    for row in table.rows.iter() {
        writeln!(out, "hubsync:     {row}")?;
    }
    say_below(out, &table)
}

/// Returns whether a table belongs to an answer: to a fault of a root on another machine, and for Unison to all faults of profiles.
fn is_asked(words: &[String], told: &Told) -> bool {
    match told {
        Told::Faulty(FaultyInput::BadSection(SectionFault::OfProfile { fault, .. })) => {
            is_for_unison(words) || is_remote(&fault.fault)
        }
        Told::Faulty(FaultyInput::BadSection(SectionFault::OfRules(fault))) => {
            is_remote(&fault.fault)
        }
        _ => false,
    }
}

/// Returns whether a fault is that of a root on another machine.
fn is_remote(fault: &Fault) -> bool {
    matches!(fault, Fault::BadPath(PathFault::RemoteRoot))
}

/// What is done with the table.
fn head_of(words: &[String]) -> &'static str {
    if words
        .iter()
        .any(|word| word.as_str().starts_with("--hosts"))
    {
        "add these lines to the table of --hosts:"
    } else if is_for_unison(words) {
        "add --hosts FILE, where FILE has these lines:"
    } else {
        "add --unison and --hosts FILE, where FILE has these lines:"
    }
}

/// Says what to look at in a table.
fn say_below(out: &mut String, table: &HostTable) -> Said {
    if table.has_home {
        say(
            out,
            "behind HOST~ stands the home there: write where it is, if it is elsewhere",
        )?;
    }
    for machine in table.mixed.iter() {
        writeln!(
            out,
            "hubsync: {machine} has roots on a drive and in a home: if the home is on the drive, write it as /hosts/{machine}/C:/Users/NAME"
        )?;
    }
    Ok(())
}
