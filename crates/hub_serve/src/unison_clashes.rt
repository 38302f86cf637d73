//! What is answered of the lines of profiles in Unison.
ghost use Rattle.std.specs.Prelude.{◌≡◌, List, None, IfOk, string_bytes};
ghost use Rattle.hub_cert.specs.Set.{Members};
ghost use Rattle.hub_profile.specs.Parts.{Parts};
ghost use Rattle.hub_profile.specs.declared.rule.Rule.{Rule as FileRule};
ghost use Rattle.hub_report.specs.Graph.{graph_text};
ghost use Rattle.hub_report.specs.Report.{unread_by};
ghost use Rattle.hub_serve.specs.InUnison as spec;
ghost use Rattle.hub_serve.specs.forms.InUnison as said;
ghost use Rattle.hub_serve.specs.declared.unison_question.UnisonQuestion.TheVariants as unison;

use crate::rounds::has_too_large;
use crate::unison_question::UnisonQuestion;
use hub_apart::Apart;
use hub_cert::CheckFault;
use hub_profile::Rule;
use hub_report::{
    ClashesAnswer, Clashing, Cut, Graph, Refusal, Report, Totals, UnisonAnswer, archive_line,
    graph_of_clashes, line_in_unison, lines_in_unison, text_of_numbers, undecided_pairs,
};
use hub_rounds::{NumberedRounds, rounds_of_lines};
use std::alloc::{AllocError, Global};

/// The answer that one or two of the profiles can't be searched, because of that fault.
pub fn unsearched<'a>(alloc: Global, fault: &CheckFault) -> Report<'a>
    ensures told { (S : Members) (Ps : List Parts) (Rs : List FileRule)
        → spec.IsUnsearchable Ps Rs fault.now → said.TellsUnsearched S fault.now result }
    ensures read { unread_by result ≡ None }
{
    match Report::refusal_without_set(alloc, fault) {
        Report::Refused(line, refusal) => {
            Report::InUnison(UnisonAnswer::Unsearched(line, refusal))
        }
        _ => Report::OutOfMemory,
    }
}

/// The answer to a question about profiles and rules with these lines, where these pairs share an archive.
pub fn report_on_found<'a>(
    alloc: Global,
    question: UnisonQuestion,
    archives: &[(usize, usize)],
    found: Apart,
) -> Report<'a>
    ensures holds { said.HoldsOfFound question archives.now found result }
    ensures read { unread_by result ≡ None }
{
    match question {
        UnisonQuestion::Check => report_on_first(alloc, archives, &found),
        UnisonQuestion::Clashes => report_on_lines(alloc, archives, &found),
        UnisonQuestion::Graph => report_on_graph(alloc, archives, &found),
        UnisonQuestion::Rounds => report_on_cut(alloc, archives, found),
    }
}

/// The answer with the first line, or with the first archive that is shared, or that there is neither.
fn report_on_first<'a>(alloc: Global, archives: &[(usize, usize)], found: &Apart) -> Report<'a>
    ensures holds { said.HoldsOfFound unison.Check archives.now found.now result }
    ensures read { unread_by result ≡ None }
{
    match (found.lines.as_slice().first(), archives.first()) {
        (Some(line), _) => report_on_line(alloc, found, line),
        (None, Some(numbers)) => report_on_archive(alloc, found, *numbers),
        (None, None) => Report::InUnison(UnisonAnswer::Safe),
    }
}

/// The answer with that line.
fn report_on_line<'a>(alloc: Global, found: &Apart, line: &CheckFault) -> Report<'a>
    ensures told { said.TellsLine found.now line.now result }
    ensures read { unread_by result ≡ None }
{
    let rules = found.rules.as_slice();
    let Ok(refusal) = Refusal::in_unison(rules, line) else {
        return Report::OutOfMemory;
    };
    match line_in_unison(alloc, found.profiles.as_slice(), rules, line) {
        Ok(text) => Report::InUnison(UnisonAnswer::Refused(text, refusal)),
        Err(AllocError) => Report::OutOfMemory,
    }
}

/// The answer that two profiles of these numbers share an archive.
fn report_on_archive<'a>(alloc: Global, found: &Apart, numbers: (usize, usize)) -> Report<'a>
    ensures told { said.TellsArchive found.now numbers result }
    ensures read { unread_by result ≡ None }
{
    match archive_line(alloc, found.profiles.as_slice(), numbers) {
        Ok(line) => {
            Report::InUnison(UnisonAnswer::SameArchive(line, Refusal::of_archive(numbers)))
        }
        Err(AllocError) => Report::OutOfMemory,
    }
}

/// The answer with all lines, or that there is none.
fn report_on_lines<'a>(alloc: Global, archives: &[(usize, usize)], found: &Apart) -> Report<'a>
    ensures holds { said.HoldsOfFound unison.Clashes archives.now found.now result }
    ensures read { unread_by result ≡ None }
{
    let lines = found.lines.as_slice();
    let rules = found.rules.as_slice();
    if lines.is_empty() && archives.is_empty() {
        return Report::InUnison(UnisonAnswer::Safe);
    }
    let Ok(clashing) = clashing_of(alloc, archives, found) else {
        return Report::OutOfMemory;
    };
    match lines_in_unison(alloc, found.profiles.as_slice(), rules, lines, archives) {
        Ok(text) => Report::InUnison(UnisonAnswer::Clashes(ClashesAnswer::Lines(text, clashing))),
        Err(AllocError) => Report::OutOfMemory,
    }
}

/// What the first line says, or the first shared archive, and how much clashes.
fn clashing_of(
    alloc: Global,
    archives: &[(usize, usize)],
    found: &Apart,
) -> Result<Clashing, AllocError> {
    let lines = found.lines.as_slice();
    let first = first_refusal(found.rules.as_slice(), lines, archives)?;
    let totals = Totals::of(alloc, found.profiles.as_slice(), lines, archives, None)?;
    Ok(Clashing {
        first,
        totals: Some(totals),
    })
}

/// What the first of these lines says, or of these shared archives.
fn first_refusal(
    rules: &[Rule],
    lines: &[CheckFault],
    archives: &[(usize, usize)],
) -> Result<Refusal, AllocError> {
    match (lines.first(), archives.first()) {
        (Some(line), _) => Refusal::in_unison(rules, line),
        (None, Some(numbers)) => Ok(Refusal::of_archive(*numbers)),
        (None, None) => Ok(Refusal::BadCertificates),
    }
}

/// The answer with a graph of the profiles.
fn report_on_graph<'a>(alloc: Global, archives: &[(usize, usize)], found: &Apart) -> Report<'a>
    ensures holds { said.HoldsOfFound unison.Graph archives.now found.now result }
    ensures read { unread_by result ≡ None }
{
    let lines = found.lines.as_slice();
    let safe = lines.is_empty() && archives.is_empty();
    match graph_of_clashes(alloc, found.profiles.as_slice(), lines, archives) {
        Ok(text) => Report::InUnison(UnisonAnswer::Clashes(ClashesAnswer::Graph(Graph {
            text,
            safe,
        }))),
        Err(AllocError) => Report::OutOfMemory,
    }
}

/// The answer with the rounds of the profiles.
fn report_on_cut<'a>(alloc: Global, archives: &[(usize, usize)], found: Apart) -> Report<'a>
    ensures holds { said.HoldsOfFound unison.Rounds archives.now found result }
    ensures read { unread_by result ≡ None }
{
    match cut_of(alloc, archives, found) {
        Ok(cut) => Report::InUnison(UnisonAnswer::Clashes(ClashesAnswer::Cut(cut))),
        Err(AllocError) => Report::OutOfMemory,
    }
}

/// Cuts profiles into rounds by their lines, and by the archives that two of them share.
pub(crate) fn cut_of(
    alloc: Global,
    archives: &[(usize, usize)],
    found: Apart,
) -> Result<Cut, AllocError>
    ensures { IfOk result (said.IsCutOf archives.now found) }
{
    let found = found.with_pairs(archives)?;
    let profiles = found.profiles.as_slice();
    let lines = found.lines.as_slice();
    let undecided = undecided_pairs(alloc, profiles, lines)?;
    let rounds = rounds_of_lines(alloc, profiles.len(), lines)?;
    let text = text_of_numbers(alloc, profiles, &rounds)?;
    let totals = Totals::of(alloc, profiles, lines, &[], Some(rounds.rounds.len()))?;
    let decided = are_decided(lines, &rounds);
    Ok(Cut {
        text,
        decided,
        undecided,
        totals: Some(totals),
    })
}

/// Returns whether each profile is in a round, and no goal was too large.
fn are_decided(lines: &[CheckFault], rounds: &NumberedRounds) -> bool
    ensures { result ≡ spec.are_decided lines.now rounds.now }
{
    rounds.left.is_empty() && !has_too_large(lines)
}
