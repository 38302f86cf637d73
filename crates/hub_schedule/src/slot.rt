ghost use Rattle.std.specs.Prelude.{◌≡◌};
ghost use Rattle.hub_schedule.specs.Table.{place_on};

use hub_job::Job;
use hub_path::{Root, Side};
use hub_tree::Tree;

/// A replica that jobs change.
#[derive(Drop)]
pub struct WorkingTree<'a> {
    /// Its root.
    pub root: &'a Root,
    /// The replica as it is now.
    pub tree: Tree,
}

/// A job among others.
#[derive(Drop)]
pub(crate) struct Slot<'a> {
    /// The job.
    pub(crate) job: Job<'a>,
    /// The number of its left replica in the list of replicas.
    pub(crate) left: usize,
    /// The number of its right replica there.
    pub(crate) right: usize,
}

impl<'a> Slot<'a> {
    /// Returns the number of the job's replica on that side.
    pub(crate) fn place(&self, side: Side) -> usize
        ensures { result ≡ place_on self.now side }
    {
        match side {
            Side::Left => self.left,
            Side::Right => self.right,
        }
    }
}
