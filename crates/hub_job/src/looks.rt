//! The Looks that a job still needs.
ghost use Rattle.std.specs.Prelude.{◌≡◌, ◌<◌, length, slice_get, IfOk, OnOk};
ghost use Rattle.std.specs.BTreeSet.{insert_key};
ghost use Rattle.hub_path.specs.Path.{ascending, parent, path_cmp};
ghost use Rattle.hub_reconcile.specs.Picture as picture;
ghost use Rattle.hub_job.specs.Phase.{first_look, listed_by, look_at, told_more, told_to};
ghost use Rattle.hub_job.specs.forms.Waiting.{looks_for, put_all, put_kept};

use crate::answer::Answer;
use crate::log::{Entry, Logged};
use crate::op::{Next, Op};
use crate::waiting::Waiting;
use hub_path::{RelPath, Side};
use hub_profile::Profile;
use hub_reach::reaches;
use std::alloc::{AllocError, Global};

/// The Looks that a job needs and hasn't made, as the first entries of its log tell.
#[derive(Drop)]
pub(crate) struct Looks {
    /// At the left replica.
    pub(crate) left: Waiting,
    /// At the right replica.
    pub(crate) right: Waiting,
    /// How many entries of the log tell it.
    pub(crate) told: usize,
}

impl Looks {
    /// Returns the Looks that a profile needs at first.
    pub(crate) fn new(alloc: Global, profile: &Profile) -> Result<Looks, AllocError>
        ensures left { IfOk result (λ l. l.left ≡ ascending (picture.first_looks profile.now)) }
        ensures right { IfOk result (λ l. l.right ≡ ascending (picture.first_looks profile.now)) }
        ensures told { IfOk result (λ l. l.told ≡ 0) }
    {
        Ok(Looks {
            left: first_looks(alloc, profile)?,
            right: first_looks(alloc, profile)?,
            told: 0,
        })
    }

    /// Lets one more entry of the log tell, if there is one. Out of memory may leave anything.
    pub(crate) fn tell(&mut self, log: &[Logged]) -> Result<(), AllocError>
        ensures { OnOk result (self.new ≡ told_more self.old (slice_get log.now self.old.told)) }
    {
        let Some(entry) = log.get(self.told) else {
            return Ok(());
        };
        match entry.side {
            Side::Left => tell(&mut self.left, &entry.step)?,
            Side::Right => tell(&mut self.right, &entry.step)?,
        }
        self.told += 1;
        Ok(())
    }

    /// Returns the next Look, Left first, if one is needed.
    pub(crate) fn next(&self) -> Result<Option<Next>, AllocError>
        ensures { IfOk result (λ o. o ≡ first_look self.now) }
    {
        match self.left.first() {
            Some(path) => ask(Side::Left, path),
            None => self.next_right(),
        }
    }

    /// Returns the next Look at the right replica, if one is needed.
    fn next_right(&self) -> Result<Option<Next>, AllocError>
        ensures { IfOk result
            (λ o. o ≡ look_at Side.Right (slice_get self.now.right 0) None) }
    {
        match self.right.first() {
            Some(path) => ask(Side::Right, path),
            None => Ok(None),
        }
    }
}

/// Asks for a Look.
fn ask(side: Side, path: &RelPath) -> Result<Option<Next>, AllocError>
    ensures { IfOk result (λ o. o ≡ Some (Next.Ask side (Op.Look path.now))) }
{
    Ok(Some(Next::Ask(side, Op::Look(path.copy()?))))
}

/// Takes out the Look that was answered, and puts in those that the answer makes needed.
fn tell(waiting: &mut Waiting, step: &Entry) -> Result<(), AllocError>
    ensures { OnOk result (waiting.new ≡ told_to waiting.old step.now.op step.now.answer) }
{
    waiting.pop();
    match &step.op {
        Op::Look(path) => tell_names(waiting, path, &step.answer),
        Op::Fetch(_) => Ok(()),
        Op::Set(_, _) => Ok(()),
    }
}

/// Puts in the children of a path that an answer names.
fn tell_names(waiting: &mut Waiting, path: &RelPath, answer: &Answer) -> Result<(), AllocError>
    ensures { OnOk result
        (waiting.new ≡ put_all waiting.old (listed_by (Op.Look path.now) answer.now)) }
{
    match answer {
        Answer::Seen(sight) => waiting.add_children(path, sight.names()),
        Answer::Bytes(_) => Ok(()),
        Answer::Done => Ok(()),
        Answer::Refused(_) => Ok(()),
    }
}

/// Returns the paths of the Looks that a side needs at first: the kept values that count, and their parents.
fn first_looks(alloc: Global, profile: &Profile) -> Result<Waiting, AllocError>
    ensures { IfOk result (λ w. w ≡ ascending (picture.first_looks profile.now)) }
{
    let mut waiting = Waiting::new(alloc);
    for kept in profile.paths() {
        add_kept(&mut waiting, profile, kept)?;
    }
    Ok(waiting)
}

/// Puts in the Looks for a kept value, if it is reached or is the whole replica.
fn add_kept(waiting: &mut Waiting, profile: &Profile, kept: &RelPath) -> Result<(), AllocError>
    ensures { OnOk result (waiting.new ≡ put_kept profile.now waiting.old kept.now) }
{
    if kept.len() == 0 || reaches(profile, kept) {
        return add_looks(waiting, kept);
    }
    Ok(())
}

/// Puts in a kept value, and its parent if it has at least two names.
fn add_looks(waiting: &mut Waiting, kept: &RelPath) -> Result<(), AllocError>
    ensures { OnOk result (waiting.new ≡ put_all waiting.old (looks_for kept.now)) }
{
    if kept.len() > 1 {
        add_parent(waiting, kept)?;
    }
    waiting.add(kept.copy()?)
}

/// Puts in the parent of a path that has names.
fn add_parent(waiting: &mut Waiting, kept: &RelPath) -> Result<(), AllocError>
    requires { 1 < length kept.now }
    ensures { OnOk result (waiting.new ≡ insert_key path_cmp waiting.old (parent kept.now)) }
{
    match kept.parent()? {
        Some(parent) => waiting.add(parent),
        None => Ok(()),
    }
}
