//! The lines of profiles that run alone, since hubsync can't read them.
ghost use Rattle.std.specs.Prelude.{◌≡◌, IfOk, OnOk, string_bytes};
ghost use Rattle.hub_report.specs.Alone as lines;
ghost use Rattle.hub_report.specs.Texts.{Gains};

use crate::faults::profile_fault_name;
use crate::parts::push_all;
use crate::plan::{Roster, Unread};
use hub_path::Name;
use hub_profile::Rule;
use std::alloc::{AllocError, Global};

/// The lines of the profiles of an input that aren't read: no other may run beside one of them, and why it isn't read. If there are
/// rules, a line more says that it may break any of them.
pub fn lines_of_alone(alloc: Global, roster: &Roster, rules: &[Rule]) -> Result<String, AllocError>
    ensures { IfOk result (λ t. string_bytes t ≡ lines.alone_lines roster.now rules.now) }
{
    let names = roster.names.as_slice();
    let unread = roster.unread.as_slice();
    let mut text = String::new(alloc);
    for own in unread {
        push_own(alloc, &mut text, names, rules, own)?;
    }
    Ok(text)
}

/// Adds the lines of a profile that isn't read.
fn push_own(
    alloc: Global,
    text: &mut String,
    names: &[Name],
    rules: &[Rule],
    own: &Unread,
) -> Result<(), AllocError>
    ensures { OnOk result (Gains text.old text.new
        (lines.lines_of_unread names.now rules.now own.now)) }
{
    let name = name_of(names, own.number);
    push_alone(alloc, text, name, own)?;
    push_unchecked(text, rules, name)
}

/// Adds that no other profile may run beside one of that name, and why it isn't read.
fn push_alone(alloc: Global, text: &mut String, name: &str, own: &Unread) -> Result<(), AllocError>
    ensures { OnOk result (Gains text.old text.new (lines.alone_line name.now own.now)) }
{
    let line = own.fault.line;
    let line = format!(in alloc; "{line}")?;
    let why = profile_fault_name(alloc, &own.fault.fault)?;
    push_all(
        text,
        &[
            "alone ",
            name,
            "\nwhy line ",
            line.as_str(),
            ": ",
            why.as_str(),
            "\n",
        ],
    )
}

/// Adds that a profile of that name may break any of these rules, if there are some.
fn push_unchecked(text: &mut String, rules: &[Rule], name: &str) -> Result<(), AllocError>
    ensures { OnOk result (Gains text.old text.new (lines.unchecked_line rules.now name.now)) }
{
    if rules.is_empty() {
        Ok(())
    } else {
        push_all(text, &["unchecked ", name, "\n"])
    }
}

/// The name of the profile of that number, from 1 on.
fn name_of<'a>(names: &'a [Name], number: usize) -> &'a str
    ensures { result.now ≡ lines.name_of names.now number }
{
    match names.get(number.saturating_sub(1)) {
        Some(name) => name.text(),
        None => "",
    }
}
