//! Jobs.
ghost use Rattle.std.specs.Prelude.{◌≡◌, true, false, ◌≢◌, ◌<◌, ◌↔◌, ℕ, [], IfOk, IfSome, IsOk, IsTrue, OnOk};
ghost use Rattle.std.specs.Vec.{vec_len, vec_capacity};
ghost use Rattle.hub_job.specs.Ends as ends;
ghost use Rattle.hub_job.specs.JobValue as value;
ghost use Rattle.hub_job.specs.Machine.{Fits};
ghost use Rattle.hub_job.specs.Phase.{Follows, IsNext, asked_by, is_stopped};
ghost use Rattle.hub_job.specs.Run.{Runs};
ghost use Rattle.hub_job.specs.Job as spec;

use crate::answer::Answer;
use crate::asked::Asked;
use crate::job_end::{JobEnd, ended_job};
use crate::known::Known;
use crate::log::{Entry, Logged};
use crate::looks::Looks;
use crate::op::Next;
use crate::phase::{Phase, next_of};
use hub_profile::Profile;
use hub_text::is_equal;
use hub_tree::Archive;
use std::alloc::{AllocError, Global};
use std::marker::Model;

/// A job: it synchronizes the two replicas of a profile by asking for one operation after the other.
///
/// Its log has all that it asked, and the answers. What it does next follows from its profile, its archive and the log
/// alone. It is stopped by a refusal, by [`Job::stop`], or when it finds no memory.
///
/// Contracts see it as a `JobValue`. Its type keeps that the log is a run: each operation is the one that came next, each
/// answer fits, and each entry has the job's number.
#[derive(Drop)]
pub struct Job<'a> {
    alloc: Global,
    number: usize,
    profile: &'a Profile,
    archive: &'a Archive,
    log: Vec<Logged>,
    asked: Option<Asked>,
    phase: Phase,
    known: Known<'a>,
}

impl<'a> Model for Job<'a> {
    ghost use Rattle.std.specs.Coded.{codes};
    ghost use Rattle.hub_job.specs.Coded.{coded_archive};
    ghost use Rattle.hub_job.specs.JobValue.{JobValue};

    ghost Value = { JobValue };

    ghost coded = { Prim.hlevel (codes, coded_archive) };

    ghost use Rattle.std.specs.Vec.{vec_len, vec_capacity};
    ghost use Rattle.hub_job.specs.JobValue.{IsRoomy, IsWhole, value_of};

    ghost view = { λ a. value_of a.number a.profile.now a.archive.now a.log.items a.asked a.phase };

    ghost invariant = { λ a.
        IsWhole (value_of a.number a.profile.now a.archive.now a.log.items a.asked a.phase) a.phase
        × IsRoomy a.asked (vec_len a.log) (vec_capacity a.log) };
}

impl<'a> Job<'a> {
    /// Makes the job of that number for a profile and the archive of its pair of roots. It hasn't asked anything.
    pub fn new(
        alloc: Global,
        number: usize,
        profile: &'a Profile,
        archive: &'a Archive,
    ) -> Result<Job<'a>, AllocError>
        ensures { IfOk result
            (λ j. j ≡ value.new_job number profile.now archive.now) }
    {
        let looks = Looks::new(alloc, profile)?;
        Ok(Job {
            alloc,
            number,
            profile,
            archive,
            log: Vec::new(alloc),
            asked: None,
            phase: Phase::Looking(looks),
            known: Known::new(archive),
        })
    }

    /// Returns what the job does next. Until it takes an answer, the next turn returns the same.
    ///
    /// It makes room for the answer. If it finds no memory, the job is stopped from then on, and the log stays. A stopped
    /// job returns `Stopped`.
    ///
    /// After a step of its plan a job needs memory only to ask, so a turn of a finished one doesn't stop it. Before its
    /// first step it may need memory to find out that there is none.
    pub fn turn(&mut self) -> Next
        ensures next { self.new.stopped ≡ false
            → result ≡ spec.next self.old.profile self.old.archive self.old.log }
        ensures stopped { self.new.stopped ≡ true → result ≡ Next.Stopped }
        ensures after { self.new ≡ value.after_turn self.old self.new.stopped result }
        ensures stays { self.old.stopped ≡ true → self.new.stopped ≡ true }
        ensures memory { value.EndsUnstopped self.old self.new.stopped }
    {
        match ask(
            self.alloc,
            self.profile,
            self.archive,
            &mut self.log,
            &mut self.phase,
            &mut self.known,
            &mut self.asked,
        ) {
            Ok(next) => next,
            Err(AllocError) => {
                stop(&mut self.phase, &mut self.asked);
                Next::Stopped
            }
        }
    }

    /// Takes the answer to what the job asked. It allocates nothing.
    pub fn take(&mut self, answer: Answer)
        requires asks { self.old.asked ≢ None }
        requires fits { IfSome self.old.asked (λ a. Fits a.op answer) }
        ensures { IfSome self.old.asked (λ a. self.new ≡ value.with_answer self.old a answer) }
    {
        let asked = self.asked.take();
        push_answer(&mut self.log, self.number, asked, answer);
    }

    /// Stops the job. It allocates nothing.
    pub fn stop(&mut self)
        ensures { self.new ≡ value.stopped_job self.old }
    {
        stop(&mut self.phase, &mut self.asked);
    }

    /// Borrows what the job asked, and the answers, in their order.
    pub fn log(&self) -> &[Logged]
        ensures value { result.now ≡ self.now.log }
        ensures run { Runs self.now.profile self.now.archive self.now.number [] self.now.log }
    {
        self.log.as_slice()
    }

    /// Ends the job: how, with its log, and for a finished one its items and the next archive of its pair.
    pub fn end(self) -> Result<(JobEnd, Option<Archive>), AllocError>
        ensures end { IfOk result (λ e. e.0.end ≡ ends.end_of self.entry) }
        ensures log { IfOk result (λ e. e.0.log ≡ self.entry.log) }
        ensures items { IfOk result (λ e. e.0.items ≡ ends.items_of self.entry) }
        ensures archive { IfOk result (λ e. e.1 ≡ ends.archive_left self.entry) }
    {
        let Job {
            alloc,
            profile,
            archive,
            log,
            mut phase,
            ..
        } = self;
        ended_job(alloc, profile, archive, log, &mut phase)
    }

    /// Borrows the profile that the job was made for.
    pub fn profile(&self) -> &'a Profile
        ensures { result.now ≡ self.now.profile }
    {
        self.profile
    }

    /// Borrows the archive that the job was made for: that of its pair of roots at the opening.
    pub fn archive(&self) -> &'a Archive
        ensures { result.now ≡ self.now.archive }
    {
        self.archive
    }

    /// Returns whether the job was made for this profile and this archive.
    pub fn made_for(&self, profile: &Profile, archive: &Archive) -> bool
        ensures { IsTrue result
            ↔ ((self.now.profile ≡ profile.now) × (self.now.archive ≡ archive.now)) }
    {
        is_equal(self.profile, profile) && self.archive.same(archive)
    }

    /// Returns the job's number, which each entry of its log has.
    pub fn number(&self) -> usize
        ensures value { result ≡ self.now.number }
        ensures run { Runs self.now.profile self.now.archive self.now.number [] self.now.log }
    {
        self.number
    }
}

/// Appends what a job asked, with its answer, to the log. It allocates nothing.
fn push_answer(log: &mut Vec<Logged>, job: usize, asked: Option<Asked>, answer: Answer)
    requires { value.IsRoomy asked (vec_len log.old) (vec_capacity log.old) }
    ensures { log.new.items ≡ value.log_with job log.old.items asked answer }
{
    if let Some(asked) = asked {
        let Asked { side, op } = asked;
        let step = Entry { job, op, answer };
        let _pushed = log.push(Logged { side, step });
    }
}

/// Stops a job: it has asked nothing.
fn stop(phase: &mut Phase, asked: &mut Option<Asked>)
    ensures phase { phase.new ≡ Phase.Stopped }
    ensures asked { asked.new ≡ None }
{
    *phase = Phase::Stopped;
    *asked = None;
}

/// Returns what a job does next, notes what it then has asked, and makes room in the log for the answer. Out of memory may
/// leave any phase.
fn ask(
    alloc: Global,
    profile: &Profile,
    archive: &Archive,
    log: &mut Vec<Logged>,
    phase: &mut Phase,
    known: &mut Known<'_>,
    asked: &mut Option<Asked>,
) -> Result<Next, AllocError>
    requires follows { Follows profile.now archive.now log.old.items phase.old }
    requires run { (j : ℕ) × Runs profile.now archive.now j [] log.old.items }
    ensures next { IfOk result (IsNext profile.now archive.now log.old.items phase.new) }
    ensures asked { IfOk result (λ n. asked.new ≡ asked_by n) }
    ensures stopped { OnOk result (is_stopped phase.new ≡ is_stopped phase.old) }
    ensures log { log.new.items ≡ log.old.items }
    ensures room { OnOk result
        (value.IsRoomy asked.new (vec_len log.new) (vec_capacity log.new)) }
    ensures memory { spec.IfAsksNoMore profile.now archive.now log.old.items (IsOk result) }
{
    let next = next_of(alloc, profile, archive, log.as_slice(), phase)?;
    let next = known.sharing(next);
    set_asked(log, asked, &next)?;
    Ok(next)
}

/// Sets what is asked, if a job does this next, and makes room in the log for the answer.
#[tactic(auto, using(crate::proofs::Phases::none_asked))]
fn set_asked(
    log: &mut Vec<Logged>,
    asked: &mut Option<Asked>,
    next: &Next,
) -> Result<(), AllocError>
    ensures asked { OnOk result (asked.new ≡ asked_by next.now) }
    ensures log { log.new.items ≡ log.old.items }
    ensures room { OnOk result
        (value.IsRoomy asked.new (vec_len log.new) (vec_capacity log.new)) }
    ensures memory { spec.is_ask next.now ≡ false → IsOk result }
{
    *asked = asked_of(next)?;
    make_room(log, asked)
}

/// Makes room in a log for the answer to what is asked, if something is.
fn make_room(log: &mut Vec<Logged>, asked: &Option<Asked>) -> Result<(), AllocError>
    ensures log { log.new.items ≡ log.old.items }
    ensures room { OnOk result
        (value.IsRoomy asked.now (vec_len log.new) (vec_capacity log.new)) }
    ensures memory { asked.now ≡ None → IsOk result }
{
    if asked.is_some() {
        log.reserve(1)?;
    }
    Ok(())
}

/// Copies what is asked, if a job does this next.
fn asked_of(next: &Next) -> Result<Option<Asked>, AllocError>
    ensures value { IfOk result (λ o. o ≡ asked_by next.now) }
    ensures memory { spec.is_ask next.now ≡ false → IsOk result }
{
    match next {
        Next::Ask(side, op) => Ok(Some(Asked {
            side: *side,
            op: op.copy()?,
        })),
        Next::Finished => Ok(None),
        Next::Stopped => Ok(None),
    }
}
