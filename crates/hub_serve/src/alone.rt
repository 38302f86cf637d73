//! Rounds of the profiles that can be read for Unison, beside which the others run alone.
ghost use Rattle.std.specs.Prelude.{◌≡◌, None, IfErr, IfOk, OnOk, option_map};
ghost use Rattle.std.specs.List.{list_any};
ghost use Rattle.hub_path.specs.Path.{name_eq};
ghost use Rattle.hub_report.specs.Alone as lines;
ghost use Rattle.hub_report.specs.Report.{unread_by};
ghost use Rattle.hub_serve.specs.Plans as plans;
ghost use Rattle.hub_serve.specs.forms.Alone as said;
ghost use Rattle.hub_serve.specs.forms.Planning as planning;
ghost use Rattle.hub_serve.specs.declared.plan_question.PlanQuestion.TheVariants.{Rounds};

use crate::plan::refused;
use crate::unison::searched_by_writer;
use crate::unison_clashes::cut_of;
use hub_apart::Apart;
use hub_cert::CheckFault;
use hub_path::Name;
use hub_profile::{Profile, Rule, Rules};
use hub_report::{Cut, PlanAnswer, Report, Roster, lines_of_alone};
use hub_text::Items;
use std::alloc::{AllocError, Global};

/// The answer with rounds of these profiles and rules, where these pairs share an archive. Below them stands who runs alone.
pub(crate) fn report_on_rounds_alone<'a>(
    alloc: Global,
    roster: &Roster,
    profiles: Items<Profile>,
    rules: Rules,
    archives: &[(usize, usize)],
) -> Report<'a>
    ensures planned { planning.OfMade Rounds roster.now profiles rules archives.now result }
    ensures read { unread_by result ≡ None }
{
    match found_beside(alloc, roster, profiles, rules) {
        Ok(found) => report_on_cut(alloc, roster, archives, found),
        Err(fault) => refused(alloc, &fault),
    }
}

/// The lines of these profiles and rules in Unison, by who writes. `SameName` comes first, if two of all have one name.
fn found_beside(
    alloc: Global,
    roster: &Roster,
    profiles: Items<Profile>,
    rules: Rules,
) -> Result<Apart, CheckFault>
    ensures found { IfOk result (said.AreFoundBeside roster.now profiles rules) }
    ensures refused { IfErr result (said.IsRefusedBeside roster.now profiles rules) }
{
    check_names(roster.names.as_slice())?;
    searched_by_writer(alloc, profiles, rules)
}

/// Returns `SameName` if two of these names are one.
fn check_names(names: &[Name]) -> Result<(), CheckFault>
    ensures different { OnOk result (plans.twice names.now ≡ None) }
    ensures same { IfErr result (said.IsTwice names.now) }
{
    match twice(names) {
        Some(name) => Err(CheckFault::SameName { name: name.copy()? }),
        None => Ok(()),
    }
}

/// Returns the first of these names that a later one is, too.
fn twice(names: &[Name]) -> Option<&Name>
    ensures { option_map (λ n. n.now) result ≡ plans.twice names.now }
{
    let mut rest = names;
    while let Some((name, later)) = rest.split_first() {
        if is_among(name, later) {
            return Some(name);
        }
        rest = later;
    }
    None
}

/// Returns whether a name is one of these.
fn is_among(name: &Name, others: &[Name]) -> bool
    ensures { result ≡ list_any (name_eq name.now) others.now }
{
    others.iter().any(|other| name == other)
}

/// The answer with the rounds by these lines, and with who runs alone.
fn report_on_cut<'a>(
    alloc: Global,
    roster: &Roster,
    archives: &[(usize, usize)],
    found: Apart,
) -> Report<'a>
    ensures told { said.TellsCut roster.now archives.now found result }
    ensures read { unread_by result ≡ None }
{
    match cut_beside(alloc, roster, archives, found) {
        Ok(cut) => Report::Planned(PlanAnswer::Cut(cut)),
        Err(AllocError) => Report::OutOfMemory,
    }
}

/// Cuts the profiles that are read into rounds, and says who runs alone.
fn cut_beside(
    alloc: Global,
    roster: &Roster,
    archives: &[(usize, usize)],
    found: Apart,
) -> Result<Cut, AllocError>
    ensures { IfOk result (said.IsCutBeside roster.now archives.now found) }
{
    let alone = lines_of_alone(alloc, roster, found.rules.as_slice())?;
    let known = are_known(roster, found.rules.as_slice());
    let Cut {
        text,
        decided,
        undecided,
        totals,
    } = cut_of(alloc, archives, found)?;
    let mut text = text;
    text.push_str(alone.as_str())?;
    Ok(Cut {
        text,
        decided: decided && known,
        undecided,
        totals,
    })
}

/// Returns whether of each profile it is known whether it may break a rule.
fn are_known(roster: &Roster, rules: &[Rule]) -> bool
    ensures { result ≡ lines.are_known roster.now rules.now }
{
    rules.is_empty() || roster.unread.as_slice().is_empty()
}
