//! Answers about the set of a bundle's profiles and rules.
ghost use Rattle.std.specs.Prelude.{◌≡◌, List, None, IfOk, IfErr};
ghost use Rattle.hub_cert.specs.declared.certificate.Certificate.{Certificate};
ghost use Rattle.hub_report.specs.Report.{unread_by};
ghost use Rattle.hub_cli.specs.Words.{about};
ghost use Rattle.hub_serve.specs.Told as told;
ghost use Rattle.hub_serve.specs.Told.{IsToldAnyway, OfAnswer};
ghost use Rattle.hub_cert.specs.Set.{IsSafeSet, OfMembers};
ghost use Rattle.hub_serve.specs.declared.task.Task.{Task};
ghost use Rattle.hub_serve.specs.declared.task.Task.TheVariants as task;

use crate::by_rounds::report_on_run_by_rounds;
use crate::in_order::report_on_run_in_order;
use crate::progress::{Goals, Progress};
use crate::reading::archives_as;
use crate::rounds::{report_on_clashes, report_on_graph, report_on_rounds, report_on_rounds_apart};
use crate::run::run_set;
use crate::task::Task;
use hub_apart::are_put_apart;
use hub_bundle::BundleContents;
use hub_cert::{Certificate, CheckFault, ProfileSet, verify, write_certificates};
use hub_cli::{Question, Reading};
use hub_profile::{Profile, Rule};
use hub_report::{Report, Verdict};
use hub_search::{certificates, check_with_progress};
use hub_state::State;
use std::alloc::Global;
use std::sync::Wait;
use std::thread::Threads;

/// The answer to a question about the set. A run without a state is a fault, whatever the profiles and rules are. If these
/// are no set, they are refused, whatever the question is, unless rounds may put them apart.
pub fn report_on_set<'a, T: Threads + Wait + Sync, P: Progress + Sync>(
    rt: &T,
    alloc: Global,
    question: Question,
    contents: BundleContents,
    progress: &P,
) -> Report<'a>
    ensures told { told.IsTold (about question) contents result }
    ensures read { unread_by result ≡ None }
{
    let BundleContents {
        profiles,
        rules,
        state,
        certificates,
    } = contents;
    let Some(task) = Task::for_question(question, state) else {
        return Report::NoState;
    };
    if puts_apart(&task, profiles.as_slice(), rules.as_slice()) {
        return report_on_rounds_apart(alloc, question.reading(), profiles, rules);
    }
    match ProfileSet::new(alloc, profiles, rules) {
        Ok(set) => report_on_made(rt, alloc, task, set, certificates.as_slice(), progress),
        Err(fault) => Report::refusal_without_set(alloc, &fault),
    }
}

/// Whether rounds are asked for, and nested roots of profiles are all that keeps these from being a set.
fn puts_apart(task: &Task, profiles: &[Profile], rules: &[Rule]) -> bool
    ensures { OfMembers profiles.now rules.now (λ S. result ≡ told.puts_apart task.now S) }
{
    match task {
        Task::Rounds(_) => are_put_apart(profiles, rules),
        _ => false,
    }
}

/// The answer about a set that was made.
fn report_on_made<'a, T: Threads + Wait + Sync, P: Progress + Sync>(
    rt: &T,
    alloc: Global,
    task: Task,
    set: ProfileSet,
    own: &[Certificate],
    progress: &P,
) -> Report<'a>
    ensures told { told.IsToldOfSet task set own.now result }
    ensures read { unread_by result ≡ None }
{
    match task {
        Task::Check(reading) => {
            or_refusal(
                alloc,
                &set,
                report_on_safety(alloc, &set, reading, progress),
            )
        }
        Task::RunJobs { workers, state } => {
            or_refusal(
                alloc,
                &set,
                report_on_jobs(rt, alloc, &set, &state, workers, progress),
            )
        }
        Task::RunByRounds { workers, state } => {
            report_on_run_by_rounds(rt, alloc, set, state, workers, progress)
        }
        Task::RunInOrder { workers, state } => {
            report_on_run_in_order(rt, alloc, &set, &state, workers, progress)
        }
        Task::Certify => or_refusal(alloc, &set, report_with_certificates(alloc, &set)),
        Task::Verify => or_refusal(alloc, &set, report_on_certificates(alloc, &set, own)),
        Task::Clashes(reading) => report_on_clashes(alloc, &set, reading),
        Task::Graph(reading) => report_on_graph(alloc, &set, reading),
        Task::Rounds(reading) => report_on_rounds(alloc, set, reading),
    }
}

/// The answer, or the refusal of the set by its fault.
fn or_refusal<'a>(
    alloc: Global,
    set: &ProfileSet,
    answer: Result<Report<'a>, CheckFault>,
) -> Report<'a>
    ensures told { OfAnswer answer.entry set.now (λ t cs. told.IsToldOfSet t set.now cs result) }
    ensures read { IfOk answer.entry (λ r. unread_by r ≡ None) → unread_by result ≡ None }
{
    match answer {
        Ok(report) => report,
        Err(fault) => Report::refusal(alloc, set, &fault),
    }
}

/// The answer whether the set is safe with its profiles read so, or the fault by which it is refused.
fn report_on_safety<'a, P: Progress>(
    alloc: Global,
    set: &ProfileSet,
    reading: Reading,
    progress: &P,
) -> Result<Report<'a>, CheckFault>
    ensures told { (cs : List Certificate) → IfOk result
        (told.IsToldOfSet (task.Check reading) set.now cs) }
    ensures refused { (cs : List Certificate) → IfErr result
        (told.FaultOf (task.Check reading) set.now cs) }
    ensures read { IfOk result (λ r. unread_by r ≡ None) }
{
    // The type of what the check returns says that the set is safe.
    let _ = check_with_progress(alloc, set, &Goals { progress })?.set();
    Ok(report_on_archives(alloc, set, reading))
}

/// The answer about a safe set: that it is safe, unless its profiles were read for Unison and two of them share an archive.
fn report_on_archives<'a>(alloc: Global, set: &ProfileSet, reading: Reading) -> Report<'a>
    ensures told { IsSafeSet set.now → IsToldAnyway (task.Check reading) set.now result }
    ensures read { unread_by result ≡ None }
{
    let Ok(archives) = archives_as(alloc, reading, set.profiles()) else {
        return Report::OutOfMemory;
    };
    match archives.first() {
        Some(numbers) => Report::same_archive(alloc, set.profiles(), *numbers),
        None => Report::Verdict(Verdict::Safe),
    }
}

/// The answer what its jobs did and left, if it is safe.
fn report_on_jobs<'a, T: Threads + Wait + Sync, P: Progress + Sync>(
    rt: &T,
    alloc: Global,
    set: &ProfileSet,
    state: &State,
    workers: u8,
    progress: &P,
) -> Result<Report<'a>, CheckFault>
    ensures told { (cs : List Certificate) → IfOk result
        (told.IsToldOfSet (task.RunJobs workers state.now) set.now cs) }
    ensures refused { (cs : List Certificate) → IfErr result
        (told.FaultOf (task.RunJobs workers state.now) set.now cs) }
    ensures read { IfOk result (λ r. unread_by r ≡ None) }
{
    let verified = check_with_progress(alloc, set, &Goals { progress })?;
    Ok(run_set(rt, alloc, &verified, state, workers, progress))
}

/// The answer with certificates for its goals.
fn report_with_certificates<'a>(alloc: Global, set: &ProfileSet) -> Result<Report<'a>, CheckFault>
    ensures told { (cs : List Certificate) → IfOk result
        (told.IsToldOfSet task.Certify set.now cs) }
    ensures refused { (cs : List Certificate) → IfErr result
        (told.FaultOf task.Certify set.now cs) }
    ensures read { IfOk result (λ r. unread_by r ≡ None) }
{
    let certificates = certificates(alloc, set)?;
    let text = write_certificates(alloc, certificates.as_slice())?;
    Ok(Report::Verdict(Verdict::Certified(text)))
}

/// The answer whether these certificates show that the set is safe.
fn report_on_certificates<'a>(
    alloc: Global,
    set: &ProfileSet,
    own: &[Certificate],
) -> Result<Report<'a>, CheckFault>
    ensures told { IfOk result (told.IsToldOfSet task.Verify set.now own.now) }
    ensures refused { IfErr result (told.FaultOf task.Verify set.now own.now) }
    ensures read { IfOk result (λ r. unread_by r ≡ None) }
{
    let _ = verify(alloc, set, own)?.set();
    Ok(Report::Verdict(Verdict::Verified))
}
