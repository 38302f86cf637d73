//! The jobs of profiles, and the replicas that they change.
ghost use Rattle.std.specs.Prelude.{◌≡◌, ℕ, false, Some, MatchOption, IfOk, OnOk};
ghost use Rattle.hub_path.specs.declared.side.Side.TheVariants as of_side;
ghost use Rattle.hub_job.specs.Outcome.{archive_of, replicas_of};
ghost use Rattle.hub_job.specs.Run.{root_at};
ghost use Rattle.hub_schedule.specs.Table.{AreTrees, AddsTrees, HasNoTree, IsNew, IsTreeNumber, KeepNumbers, NewAreAt, ShowsOpening, stopped_at};

use crate::slot::{Slot, WorkingTree};
use hub_job::Job;
use hub_path::{Root, Side};
use hub_profile::Profile;
use hub_state::State;
use hub_tree::{Archive, Tree};
use std::alloc::{AllocError, Global};

/// Makes the jobs of the profiles, by number, and a working copy of each replica that they have. A replica that the state
/// lacks is empty, and so is an archive.
pub(crate) fn slots_for<'a>(
    alloc: Global,
    profiles: &'a [Profile],
    state: &'a State,
) -> Result<(Vec<Slot<'a>>, Vec<WorkingTree<'a>>), AllocError>
    ensures table { IfOk result (λ r. ShowsOpening state.now profiles.now r.0.items r.1.items) }
    ensures going { IfOk result (λ r. (j : ℕ) → stopped_at r.0.items j ≡ false) }
{
    let mut slots = Vec::new(alloc);
    let mut trees = Vec::new(alloc);
    for profile in profiles {
        let slot = slot_for(alloc, slots.len(), profile, state, &mut trees)?;
        slots.push(slot)?;
    }
    Ok((slots, trees))
}

/// Makes a job, and a working copy of each of its replicas, unless it is there.
fn slot_for<'a>(
    alloc: Global,
    number: usize,
    profile: &'a Profile,
    state: &'a State,
    trees: &mut Vec<WorkingTree<'a>>,
) -> Result<Slot<'a>, AllocError>
    requires { AreTrees (replicas_of state.now) trees.old.items }
    ensures slot { IfOk result (λ s.
        IsNew number profile.now (archive_of state.now (Some profile.now)) s) }
    ensures left { IfOk result
        (λ s. IsTreeNumber trees.new.items (root_at profile.now of_side.Left) s.left) }
    ensures right { IfOk result
        (λ s. IsTreeNumber trees.new.items (root_at profile.now of_side.Right) s.right) }
    ensures trees { OnOk result (AreTrees (replicas_of state.now) trees.new.items) }
    ensures more { OnOk result (AddsTrees profile.now trees.old.items trees.new.items) }
{
    let roots = profile.roots();
    let left = place_for(alloc, state, &roots[0], trees)?;
    let right = place_for(alloc, state, &roots[1], trees)?;
    let job = Job::new(alloc, number, profile, opening_of(profile, state))?;
    Ok(Slot { job, left, right })
}

/// Returns the number of a root's replica, and makes a working copy of it first, unless it is there.
fn place_for<'a>(
    alloc: Global,
    state: &'a State,
    root: &'a Root,
    trees: &mut Vec<WorkingTree<'a>>,
) -> Result<usize, AllocError>
    requires { AreTrees (replicas_of state.now) trees.old.items }
    ensures placed { IfOk result (IsTreeNumber trees.new.items root.now) }
    ensures trees { OnOk result (AreTrees (replicas_of state.now) trees.new.items) }
    ensures more { OnOk result (KeepNumbers trees.old.items trees.new.items) }
    ensures rest { OnOk result (NewAreAt root.now trees.old.items trees.new.items) }
{
    if let Some(place) = find_tree(trees.as_slice(), root) {
        return Ok(place);
    }
    let tree = copy_of(alloc, state, root)?;
    trees.push(WorkingTree { root, tree })?;
    Ok(trees.len() - 1)
}

/// Borrows the archive of a profile's two roots, or the empty one.
fn opening_of<'a>(profile: &Profile, state: &'a State) -> &'a Archive
    ensures { result.now ≡ archive_of state.now (Some profile.now) }
{
    state.archive_or_empty(profile.root(Side::Left), profile.root(Side::Right))
}

/// Copies the replica of a root. One that the state lacks is empty.
fn copy_of(alloc: Global, state: &State, root: &Root) -> Result<Tree, AllocError>
    ensures { IfOk result (λ t. t ≡ replicas_of state.now root.now) }
{
    match state.replica(root) {
        Some(tree) => tree.copy(),
        None => Ok(Tree::new(alloc)),
    }
}

/// Finds the replica of a root.
pub(crate) fn find_tree(trees: &[WorkingTree<'_>], root: &Root) -> Option<usize>
    ensures { MatchOption result (HasNoTree trees.now root.now) (IsTreeNumber trees.now root.now) }
{
    for (place, tree) in trees.iter().enumerate() {
        if tree.root == root {
            return Some(place);
        }
    }
    None
}
