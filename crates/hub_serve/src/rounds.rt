//! What clashes in a set, and its rounds.
ghost use Rattle.std.specs.Prelude.{◌≡◌, None, IfErr, IfOk, string_bytes, true};
ghost use Rattle.std.specs.List.{list_any};
ghost use Rattle.hub_cert.specs.Set.{Members, OfMembers};
ghost use Rattle.hub_apart.specs.Apart.{are_put_apart};
ghost use Rattle.hub_rounds.specs.Rounds.{AreRounds};
ghost use Rattle.hub_report.specs.Report.{unread_by};
ghost use Rattle.hub_serve.specs.Told.{IsToldAnyway};
ghost use Rattle.hub_serve.specs.Rounds as rounds;
ghost use Rattle.hub_serve.specs.Rounds.{AreLinesAs, DrawsClashes, IsCut, IsUncut, OfApart, OfCut, OfLines};
ghost use Rattle.hub_cli.specs.declared.words.Reading.{Reading as ReadAs};
ghost use Rattle.hub_serve.specs.declared.task.Task.TheVariants as task;

use crate::reading::archives_as;
use hub_apart::{Apart, lines_apart};
use hub_cert::{CheckFault, ProfileSet};
use hub_cli::Reading;
use hub_profile::{Profile, Rules};
use hub_report::{
    ClashesAnswer, Clashing, Cut, Graph, Refusal, Report, Verdict, graph_of_clashes,
    lines_of_clashes, text_of_rounds, undecided_pairs,
};
use hub_rounds::{Rounds, RoundsFault, clashes_of, rounds_by_lines};
use hub_search::faults;
use hub_text::Items;
use std::alloc::{AllocError, Global};

/// The answer with all that clashes in a set, all that breaks a rule, and all archives that are shared if its profiles were read
/// so; or that it is safe if there is nothing of that.
pub fn report_on_clashes<'a>(alloc: Global, set: &ProfileSet, reading: Reading) -> Report<'a>
    ensures told { IsToldAnyway (task.Clashes reading) set.now result }
    ensures read { unread_by result ≡ None }
{
    let Ok(clashes) = clashes_of(alloc, set) else {
        return Report::OutOfMemory;
    };
    let Ok(archives) = archives_as(alloc, reading, set.profiles()) else {
        return Report::OutOfMemory;
    };
    if clashes.lines().is_empty() && archives.is_empty() {
        return Report::Verdict(Verdict::Safe);
    }
    let Ok(first) = first_refusal(set, clashes.lines(), archives.as_slice()) else {
        return Report::OutOfMemory;
    };
    let clashing = Clashing {
        first,
        totals: None,
    };
    match lines_of_clashes(alloc, set, &clashes, archives.as_slice()) {
        Ok(lines) => Report::Clashes(ClashesAnswer::Lines(lines, clashing)),
        Err(AllocError) => Report::OutOfMemory,
    }
}

/// What the first of these lines about a set says, or of these shared archives.
fn first_refusal(
    set: &ProfileSet,
    lines: &[CheckFault],
    archives: &[(usize, usize)],
) -> Result<Refusal, AllocError> {
    match (lines.first(), archives.first()) {
        (Some(line), _) => Refusal::of(set.rules(), line),
        (None, Some(numbers)) => Ok(Refusal::of_archive(*numbers)),
        (None, None) => Ok(Refusal::BadCertificates),
    }
}

/// The answer with a graph of a set and of all that clashes in it.
pub fn report_on_graph<'a>(alloc: Global, set: &ProfileSet, reading: Reading) -> Report<'a>
    ensures told { IsToldAnyway (task.Graph reading) set.now result }
    ensures read { unread_by result ≡ None }
{
    match graph_of(alloc, set, reading) {
        Ok(graph) => Report::Clashes(ClashesAnswer::Graph(graph)),
        Err(AllocError) => Report::OutOfMemory,
    }
}

/// Draws a set and all that clashes in it, and which archives are shared if its profiles were read so.
fn graph_of(alloc: Global, set: &ProfileSet, reading: Reading) -> Result<Graph, AllocError>
    ensures { IfOk result (λ g. DrawsClashes reading set.now (string_bytes g.text) g.safe) }
{
    let profiles = set.profiles();
    let clashes = clashes_of(alloc, set)?;
    let lines = clashes.lines();
    let archives = archives_as(alloc, reading, profiles)?;
    let text = graph_of_clashes(alloc, profiles, lines, archives.as_slice())?;
    let safe = lines.is_empty() && archives.is_empty();
    Ok(Graph { text, safe })
}

/// The answer with the rounds of a set.
pub fn report_on_rounds<'a>(alloc: Global, set: ProfileSet, reading: Reading) -> Report<'a>
    ensures told { IsToldAnyway (task.Rounds reading) set result }
    ensures read { unread_by result ≡ None }
{
    report_on_cut(cut(alloc, reading, set))
}

/// The answer with the rounds of profiles that are put apart, or why one or two of them are no set.
pub fn report_on_rounds_apart<'a>(
    alloc: Global,
    reading: Reading,
    profiles: Items<Profile>,
    rules: Rules,
) -> Report<'a>
    ensures told { OfMembers profiles rules (λ S. are_put_apart S ≡ true
        → IsToldAnyway (task.Rounds reading) S result) }
    ensures read { unread_by result ≡ None }
{
    match lines_apart(alloc, profiles, rules) {
        Ok(found) => report_on_cut(cut_apart(alloc, reading, found)),
        Err(fault) => Report::refusal_without_set(alloc, &fault),
    }
}

/// The answer with a cut, or that a round wasn't verified.
fn report_on_cut<'a>(made: Result<Cut, RoundsFault>) -> Report<'a>
    ensures told { OfCut made (λ reading S. IsToldAnyway (task.Rounds reading) S result) }
    ensures read { unread_by result ≡ None }
{
    match made {
        Ok(cut) => Report::Clashes(ClashesAnswer::Cut(cut)),
        Err(RoundsFault::NotVerified { .. }) => Report::NotVerified,
        Err(RoundsFault::OutOfMemory) => Report::OutOfMemory,
    }
}

/// Cuts a set into rounds.
fn cut(alloc: Global, reading: Reading, set: ProfileSet) -> Result<Cut, RoundsFault>
    ensures cut { IfOk result (IsCut reading set) }
    ensures uncut { IfErr result (IsUncut reading set) }
{
    let lines = faults(alloc, &set)?;
    let (profiles, rules) = set.into_members();
    let found = Apart {
        profiles,
        rules,
        lines,
    };
    cut_apart(alloc, reading, found)
}

/// Cuts profiles into rounds by their lines, and by the archives that two of them share if they were read so.
fn cut_apart(alloc: Global, reading: Reading, found: Apart) -> Result<Cut, RoundsFault>
    ensures cut { OfApart found (λ S. IfOk result (IsCut reading S)) }
    ensures uncut { OfApart found (λ S. IfErr result (IsUncut reading S)) }
{
    let archives = archives_as(alloc, reading, found.profiles.as_slice())?;
    cut_by_lines(alloc, found.with_pairs(archives.as_slice())?)
}

/// Cuts profiles into rounds by all their lines.
fn cut_by_lines(alloc: Global, found: Apart) -> Result<Cut, RoundsFault>
    ensures cut { OfLines found (λ reading S. IfOk result (IsCut reading S)) }
    ensures uncut { OfLines found (λ reading S. IfErr result (IsUncut reading S)) }
{
    let Apart {
        profiles,
        rules,
        lines,
    } = found;
    let undecided = undecided_pairs(alloc, profiles.as_slice(), lines.as_slice())?;
    let rounds = rounds_by_lines(alloc, profiles, rules, lines.as_slice())?;
    Ok(cut_of(alloc, lines.as_slice(), &rounds, undecided)?)
}

/// The text of rounds by these lines, and whether all was decided.
fn cut_of(
    alloc: Global,
    lines: &[CheckFault],
    found: &Rounds,
    undecided: String,
) -> Result<Cut, AllocError>
    ensures { (reading : ReadAs) (S : Members) → AreLinesAs reading S lines.now
        → AreRounds S lines.now found.now → IfOk result (IsCut reading S) }
{
    let decided = is_decided(lines, found);
    let text = text_of_rounds(alloc, found)?;
    Ok(Cut {
        text,
        decided,
        undecided,
        totals: None,
    })
}

/// Returns whether each profile is in a round, and no goal was too large.
fn is_decided(lines: &[CheckFault], found: &Rounds) -> bool
    ensures { result ≡ rounds.is_decided lines.now found.now }
{
    found.left.is_empty() && !has_too_large(lines)
}

/// Returns whether a line is that a goal was too large.
pub(crate) fn has_too_large(lines: &[CheckFault]) -> bool
    ensures { result ≡ list_any rounds.is_too_large lines.now }
{
    lines.iter().any(is_too_large)
}

fn is_too_large(line: &CheckFault) -> bool
    ensures { result ≡ rounds.is_too_large line.now }
{
    matches!(line, CheckFault::TooLarge { .. })
}
