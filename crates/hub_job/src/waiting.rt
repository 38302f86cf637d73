ghost use Rattle.std.specs.Prelude.{◌≡◌, ◌≤◌, [], drop, length, reverse, slice_get, IfNone, IfSome, OnOk};
ghost use Rattle.std.specs.Option.{option_map};
ghost use Rattle.std.specs.BTreeSet.{insert_key};
ghost use Rattle.hub_path.specs.Path.{path_cmp, children_named};
ghost use Rattle.hub_job.specs.forms.Waiting.{IsPlaceIn, put_all};

use hub_path::{Name, RelPath};
use std::alloc::{AllocError, Global};
use std::cmp::Ordering;
use std::marker::Model;

/// The paths of a side that a job has to look at and hasn't, each once. Contracts see them in ascending order.
///
/// They are a stack: the first is at the end. The children of the path that was taken out last come before all others, so
/// each is put in with one comparison.
#[derive(Drop)]
pub(crate) struct Waiting {
    stack: Vec<RelPath>,
}

impl Model for Waiting {
    ghost use Rattle.std.specs.Prelude.{List, reverse};
    ghost use Rattle.hub_path.specs.Path.{Path};

    ghost Value = { List Path };

    ghost view = { λ a. reverse a.stack.items };
}

impl Waiting {
    /// Returns no paths. It doesn't allocate.
    pub(crate) fn new(alloc: Global) -> Waiting
        ensures { result ≡ [] }
    {
        Waiting {
            stack: Vec::new(alloc),
        }
    }

    /// Borrows the first path.
    pub(crate) fn first(&self) -> Option<&RelPath>
        ensures { option_map (λ p. p.now) result ≡ slice_get self.now 0 }
    {
        self.stack.last()
    }

    /// Takes the first path out, if there is one.
    pub(crate) fn pop(&mut self)
        ensures { self.new ≡ drop 1 self.old }
    {
        let _first = self.stack.pop();
    }

    /// Puts a path in, unless it is there. Out of memory leaves the paths as they are.
    pub(crate) fn add(&mut self, path: RelPath) -> Result<(), AllocError>
        ensures { OnOk result (self.new ≡ insert_key path_cmp self.old path) }
    {
        if let Some(place) = index_of(self.stack.as_slice(), &path) {
            self.stack.insert(place, path)?;
        }
        Ok(())
    }

    /// Puts in the children of a path that have these names, the last one first: where the names ascend, each child comes
    /// before those that are there. Out of memory may leave some of them there.
    pub(crate) fn add_children(&mut self, path: &RelPath, names: &[Name]) -> Result<(), AllocError>
        ensures { OnOk result (self.new ≡ put_all self.old (children_named path.now names.now)) }
    {
        for i in 0..names.len() {
            let name = &names[names.len() - 1 - i];
            self.add(path.child(name.copy()?)?)?;
        }
        Ok(())
    }
}

/// Returns where a path goes in a stack, or `None` if it is there. It looks from the end on.
fn index_of(stack: &[RelPath], path: &RelPath) -> Option<usize>
    ensures within { IfSome result (λ at. at ≤ length stack.now) }
    ensures place { IfSome result (λ at. IsPlaceIn stack.now path.now at) }
    ensures there { IfNone result
        (insert_key path_cmp (reverse stack.now) path.now ≡ reverse stack.now) }
{
    for i in 0..stack.len() {
        let at = stack.len() - i;
        match path.cmp(&stack[at - 1]) {
            Ordering::Less => return Some(at),
            Ordering::Equal => return None,
            Ordering::Greater => {}
        }
    }
    Some(0)
}
