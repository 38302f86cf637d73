//! Plans of Unison's runs, and what else is asked where a faulty profile keeps no other from being read.
ghost use Rattle.std.specs.Prelude.{◌≡◌, true, None, IfErr, IfOk};
ghost use Rattle.hub_apart.specs.UnisonLines as unison;
ghost use Rattle.hub_cert.specs.Set.{Members};
ghost use Rattle.hub_report.specs.Report.{has_no_numbers, unread_by};
ghost use Rattle.hub_serve.specs.Plans as plans;
ghost use Rattle.hub_serve.specs.Told as told;
ghost use Rattle.hub_serve.specs.forms.Planning as planning;
ghost use Rattle.hub_serve.specs.declared.plan_question.PlanQuestion.TheVariants as question;

use crate::alone::report_on_rounds_alone;
use crate::answer::bad_bundle;
use crate::plan_question::PlanQuestion;
use crate::reading::counted_as;
use crate::taken::{Taken, taken_of};
use hub_apart::laws::{
    profiles_without_lines_are_safe_in_unison, rounds_without_lines_are_safe_in_unison,
};
use hub_apart::{Apart, lines_in_unison};
use hub_bundle::{ReadError, read_bundle};
use hub_cert::CheckFault;
use hub_cli::Reading;
use hub_profile::{Profile, Rules};
use hub_report::{Plan, PlanAnswer, Report, Roster, plan_of};
use hub_text::Items;
use hub_unison::shared_archives;
use std::alloc::{AllocError, Global};

/// The answer with a plan of Unison's runs by the profiles of an input's bytes, or with rounds of those that can be read. One that
/// can't be read is in it: it runs alone. Beside rules a plan refuses it, since it may break one.
pub(crate) fn report_on_plan<'a>(alloc: Global, asked: PlanQuestion, bytes: Vec<u8>) -> Report<'a>
    ensures holds { told.Holds (plans.plan_request asked) bytes.items result }
    ensures read { unread_by result ≡ None }
{
    match counted_as(alloc, Reading::Unison, bytes) {
        Ok(counted) => report_on_counted(alloc, asked, counted),
        Err(AllocError) => Report::OutOfMemory,
    }
}

/// The answer to what is asked by these lines of an input, which count.
fn report_on_counted<'a>(alloc: Global, asked: PlanQuestion, counted: Vec<u8>) -> Report<'a>
    ensures planned { planning.OfCounted asked counted.items result }
    ensures read { unread_by result ≡ None }
{
    match taken_in(alloc, counted) {
        Ok(taken) => report_on_taken(alloc, asked, taken),
        Err(report) => report,
    }
}

/// The profiles and rules of a bundle of these bytes, or the answer if it can't be read. Its bytes are dropped.
fn taken_in<'a>(alloc: Global, counted: Vec<u8>) -> Result<Taken, Report<'a>>
    ensures takes { IfOk result (plans.Takes counted.items) }
    ensures untaken { IfErr result (planning.IsUntaken counted.items) }
    ensures read { IfErr result (λ r. unread_by r ≡ None) }
{
    let sections = match read_bundle(alloc, counted.as_slice()) {
        Ok(sections) => sections,
        Err(fault) => return Err(bad_bundle(fault)),
    };
    match taken_of(alloc, sections.as_slice()) {
        Ok(taken) => Ok(taken),
        Err(ReadError::Faulty(fault)) => Err(Report::Planned(PlanAnswer::BadRules(fault))),
        Err(ReadError::OutOfMemory) => Err(Report::OutOfMemory),
    }
}

/// The answer to what is asked of these profiles and rules.
fn report_on_taken<'a>(alloc: Global, asked: PlanQuestion, taken: Taken) -> Report<'a>
    ensures planned { planning.OfTaken asked taken result }
    ensures read { unread_by result ≡ None }
{
    let Taken {
        roster,
        profiles,
        rules,
    } = taken;
    match shared_archives(alloc, profiles.as_slice()) {
        Ok(archives) => {
            report_on_made(alloc, asked, &roster, profiles, rules, archives.as_slice())
        }
        Err(AllocError) => Report::OutOfMemory,
    }
}

/// The answer to what is asked of these profiles and rules, where these pairs share an archive.
fn report_on_made<'a>(
    alloc: Global,
    asked: PlanQuestion,
    roster: &Roster,
    profiles: Items<Profile>,
    rules: Rules,
    archives: &[(usize, usize)],
) -> Report<'a>
    ensures planned { planning.OfMade asked roster.now profiles rules archives.now result }
    ensures read { unread_by result ≡ None }
{
    match asked {
        PlanQuestion::Plan => report_on_planned(alloc, roster, profiles, rules, archives),
        PlanQuestion::Rounds => report_on_rounds_alone(alloc, roster, profiles, rules, archives),
    }
}

/// The answer with the plan of these profiles and rules, where these pairs share an archive.
fn report_on_planned<'a>(
    alloc: Global,
    roster: &Roster,
    profiles: Items<Profile>,
    rules: Rules,
    archives: &[(usize, usize)],
) -> Report<'a>
    ensures planned { planning.OfMade question.Plan roster.now profiles rules archives.now result }
    ensures read { unread_by result ≡ None }
{
    match lines_of(alloc, profiles, rules) {
        Ok(found) => report_on_found(alloc, roster, archives, &found),
        Err(fault) => refused(alloc, &fault),
    }
}

/// The lines of these profiles and rules in Unison.
fn lines_of(alloc: Global, profiles: Items<Profile>, rules: Rules) -> Result<Apart, CheckFault>
    ensures found { IfOk result (plans.AreFoundOf profiles rules) }
    ensures refused { IfErr result (unison.IsRefusedInUnison profiles rules) }
{
    profiles_without_lines_are_safe_in_unison();
    rounds_without_lines_are_safe_in_unison();
    lines_in_unison(alloc, profiles, rules)
}

/// The answer that these profiles can't be searched, because of that fault.
pub(crate) fn refused<'a>(alloc: Global, fault: &CheckFault) -> Report<'a>
    ensures told { (S : Members) → has_no_numbers fault.now ≡ true
        → planning.TellsUnplanned S fault.now result }
    ensures read { unread_by result ≡ None }
{
    match Report::refusal_without_set(alloc, fault) {
        Report::Refused(line, refusal) => Report::Planned(PlanAnswer::Refused(line, refusal)),
        _ => Report::OutOfMemory,
    }
}

/// The answer with the plan by these lines, and by the archives that are shared.
fn report_on_found<'a>(
    alloc: Global,
    roster: &Roster,
    archives: &[(usize, usize)],
    found: &Apart,
) -> Report<'a>
    ensures told { planning.TellsPlan roster.now archives.now found.now result }
    ensures read { unread_by result ≡ None }
{
    match plan_by(alloc, roster, archives, found) {
        Ok(plan) => Report::Planned(PlanAnswer::Made(plan)),
        Err(AllocError) => Report::OutOfMemory,
    }
}

/// The plan by these lines, and by the archives that are shared.
fn plan_by(
    alloc: Global,
    roster: &Roster,
    archives: &[(usize, usize)],
    found: &Apart,
) -> Result<Plan, AllocError>
    ensures { IfOk result (plans.IsWrittenOf roster.now archives.now found.now) }
{
    plan_of(
        alloc,
        roster,
        found.profiles.as_slice(),
        found.rules.as_slice(),
        found.lines.as_slice(),
        archives,
    )
}
