//! Operations on a replica.
ghost use Rattle.std.specs.Prelude.{◌≡◌, ◌&&◌, ◌||◌, ◌==◌, [], ◌∷◌, ◌++◌, not, length, filter, option_map, IfOk, IfSome, IsTrue, OnOk, OnErr};
ghost use Rattle.std.specs.List.{list_all, list_any};
ghost use Rattle.hub_path.specs.Path.{is_over, is_path, parent, path_eq};
ghost use Rattle.sha2.specs.Sha256.{sha256};
ghost use Rattle.hub_reach.specs.Reach as of_reach;
ghost use Rattle.hub_reach.specs.Reach.{reach};
ghost use Rattle.hub_tree.specs.Tree as of_tree;
ghost use Rattle.hub_reconcile.specs.Sight as of_sight;
ghost use Rattle.hub_job.specs.Machine as machine;

use crate::answer::{Answer, OpFault};
use crate::op::Op;
use crate::sight::Sight;
use hub_path::{Name, RelPath, Root};
use hub_profile::Profile;
use hub_reach::{reaches, writes_at};
use hub_text::Items;
use hub_tree::{Blob, Contents, Mark, SetFault, Tree};
use std::alloc::{AllocError, Global};

/// Makes an operation of a profile's job on the replica of a root, and returns its answer.
///
/// A `Look` at a path that the profile reaches returns its mark, the names of those children that the profile reaches, in
/// ascending order, and whether there are others; that is reported only where the profile writes the path. At the parent of a
/// kept value it returns whether that is a directory, and nothing else. At the whole replica, if that is kept, it tells the
/// reached names. Elsewhere it returns `Absent`. A `Fetch` and a `Set` may be refused, and a refusal changes nothing.
///
/// All memory is taken first: out of memory leaves the replica as it was.
#[tactic(auto, unfolding(crate::specs::Machine::answer, crate::specs::Machine::after))]
pub fn perform(
    alloc: Global,
    profile: &Profile,
    root: &Root,
    tree: &mut Tree,
    op: &Op,
) -> Result<Answer, AllocError>
    ensures answer { IfOk result
        (λ a. a ≡ machine.answer tree.old profile.now root.now op.now) }
    ensures fits { IfOk result (machine.Fits op.now) }
    ensures after { OnOk result (tree.new ≡ machine.after tree.old op.now) }
    ensures err { OnErr result (tree.new ≡ tree.old) }
{
    match op {
        Op::Look(path) => look(alloc, profile, root, tree, path),
        Op::Fetch(path) => fetch(tree, path),
        Op::Set(path, contents) => set(tree, path, contents.copy()?),
    }
}

/// Tells what the profile sees at the path.
fn look(
    alloc: Global,
    profile: &Profile,
    root: &Root,
    tree: &Tree,
    path: &RelPath,
) -> Result<Answer, AllocError>
    ensures value { IfOk result
        (λ a. a ≡ machine.seen_answer (of_sight.sight profile.now root.now tree.now path.now)) }
    ensures fits { IfOk result (machine.Fits (Op.Look path.now)) }
{
    Ok(Answer::Seen(sight_at(alloc, profile, root, tree, path)?))
}

/// Returns what the profile sees at the path.
fn sight_at(
    alloc: Global,
    profile: &Profile,
    root: &Root,
    tree: &Tree,
    path: &RelPath,
) -> Result<Sight, AllocError>
    ensures { IfOk result (λ s. s ≡ of_sight.sight profile.now root.now tree.now path.now) }
{
    if reaches(profile, path) {
        let (mark, names, others, file) = look_with(alloc, profile, tree, path)?;
        let others = are_told(profile, root, path, others);
        return sight_with(alloc, mark, names, others, file);
    }
    if is_kept_top(profile, path) {
        let (_, names, _, _) = look_with(alloc, profile, tree, path)?;
        return Sight::new(alloc, Mark::Directory, names, false);
    }
    let is_parent = is_kept_parent(profile, path)?;
    let mark = parent_mark(is_parent, tree, path);
    Sight::new(alloc, mark, Items::new(alloc), false)
}

/// Returns the sight of this mark, which is that of the file if there is one, of these names, and of others. A file alone is
/// shared.
fn sight_with(
    alloc: Global,
    mark: Mark,
    names: Items<Name>,
    others: bool,
    file: Option<&Blob>,
) -> Result<Sight, AllocError>
    requires { IfSome file (λ b. mark ≡ Mark.File (sha256 b.now)) }
    ensures { IfOk result (λ s. s ≡ record { mark = mark; names = names; others = others }) }
{
    match file {
        Some(file) if names.is_empty() && !others => Ok(Sight::of_file(file.copy()?)),
        _ => Sight::new(alloc, mark, names, others),
    }
}

/// Returns whether others are reported: where the profile writes at that path of the root.
fn are_told(profile: &Profile, root: &Root, path: &RelPath, others: bool) -> bool
    ensures { result ≡ (of_reach.writes_at profile.now root.now path.now && others) }
{
    writes_at(profile, root, path) && others
}

/// Returns whether the path is the whole replica, and that is kept.
fn is_kept_top(profile: &Profile, path: &RelPath) -> bool
    ensures { result ≡ (length path.now == 0 && list_any (path_eq path.now) profile.now.paths) }
{
    path.len() == 0 && is_kept_value(profile, path)
}

/// Returns the mark of a path at or below a kept value, the names of those children that the profile reaches, whether
/// there are others, and the file at the path.
fn look_with<'a>(
    alloc: Global,
    profile: &Profile,
    tree: &'a Tree,
    path: &RelPath,
) -> Result<(Mark, Items<Name>, bool, Option<&'a Blob>), AllocError>
    requires { IsTrue (list_any (λ s. is_over s path.now) profile.now.paths) }
    ensures mark { IfOk result (λ r. r.0 ≡ of_tree.mark_at tree.now path.now) }
    ensures names { IfOk result
        (λ r. r.1 ≡ of_sight.reached_names profile.now tree.now path.now) }
    ensures others { IfOk result (λ r. r.2 ≡ machine.has_others profile.now tree.now path.now) }
    ensures file { IfOk result (λ r. option_map (λ b. b.now) r.3
        ≡ of_tree.bytes_at tree.now path.now) }
{
    let (mark, all, file) = tree.look_at(path)?;
    let (names, others) = seen_names(alloc, profile, path, all)?;
    Ok((mark, names, others, file))
}

/// Splits the names of the children of a path at or below a kept value into those that the profile reaches, and whether there
/// are others. A profile that ignores nothing reaches them all: then no path is made.
fn seen_names(
    alloc: Global,
    profile: &Profile,
    path: &RelPath,
    names: Items<Name>,
) -> Result<(Items<Name>, bool), AllocError>
    requires kept { IsTrue (list_any (λ s. is_over s path.now) profile.now.paths) }
    requires paths { IsTrue (list_all (λ n. is_path (path.now ++ n ∷ [])) names) }
    ensures names { IfOk result
        (λ r. r.0 ≡ filter (λ n. reach profile.now (path.now ++ n ∷ [])) names) }
    ensures others { IfOk result
        (λ r. r.1 ≡ list_any (λ n. not (reach profile.now (path.now ++ n ∷ []))) names) }
{
    if profile.ignore().is_empty() {
        return Ok((names, false));
    }
    split_names(alloc, profile, path, names)
}

/// Splits the names of a path's children into those that the profile reaches, and whether there are others.
fn split_names(
    alloc: Global,
    profile: &Profile,
    path: &RelPath,
    names: Items<Name>,
) -> Result<(Items<Name>, bool), AllocError>
    ensures names { IfOk result
        (λ r. r.0 ≡ filter (λ n. reach profile.now (path.now ++ n ∷ [])) names) }
    ensures others { IfOk result
        (λ r. r.1 ≡ list_any (λ n. not (reach profile.now (path.now ++ n ∷ []))) names) }
{
    let mut reached = Vec::new(alloc);
    let mut others = false;
    for name in names.into_vec() {
        if is_reached(profile, path, &name)? {
            reached.push(name)?;
        } else {
            others = true;
        }
    }
    Ok((Items::from_vec(reached), others))
}

/// Returns whether the profile reaches the child of a path that has this name.
fn is_reached(profile: &Profile, path: &RelPath, name: &Name) -> Result<bool, AllocError>
    ensures { IfOk result (λ b. b ≡ reach profile.now (path.now ++ name.now ∷ [])) }
{
    let child = path.child(name.copy()?)?;
    Ok(reaches(profile, &child))
}

/// Returns whether the whole replica is a kept value.
fn is_kept_value(profile: &Profile, path: &RelPath) -> bool
    ensures { result ≡ list_any (path_eq path.now) profile.now.paths }
{
    profile.paths().iter().any(|kept| path == kept)
}

/// Returns whether the path is the parent of a kept value that is reached.
fn is_kept_parent(profile: &Profile, path: &RelPath) -> Result<bool, AllocError>
    ensures { IfOk result (λ b. b ≡ of_sight.is_kept_parent profile.now path.now) }
{
    for kept in profile.paths() {
        if is_reached_child(profile, kept, path)? {
            return Ok(true);
        }
    }
    Ok(false)
}

/// Returns whether a kept value is reached, or is the whole replica, and has this parent.
fn is_reached_child(profile: &Profile, kept: &RelPath, path: &RelPath) -> Result<bool, AllocError>
    ensures { IfOk result (λ b. b ≡ ((length kept.now == 0 || reach profile.now kept.now)
        && path_eq (parent kept.now) path.now)) }
{
    match kept.parent()? {
        None => Ok(path.len() == 0),
        Some(parent) => Ok(reaches(profile, kept) && parent == *path),
    }
}

/// Tells whether a parent of a kept value is a directory.
fn parent_mark(is_parent: bool, tree: &Tree, path: &RelPath) -> Mark
    ensures { result ≡ of_sight.directory_or_absent
        (is_parent && of_tree.is_directory (of_tree.contents_at tree.now path.now)) }
{
    match tree.mark_at(path) {
        Mark::Directory if is_parent => Mark::Directory,
        Mark::Directory | Mark::File(_) | Mark::Absent => Mark::Absent,
    }
}

/// Gives the bytes of a file.
fn fetch(tree: &Tree, path: &RelPath) -> Result<Answer, AllocError>
    ensures value { IfOk result
        (λ a. a ≡ machine.fetched (of_tree.contents_at tree.now path.now)) }
    ensures fits { IfOk result (machine.Fits (Op.Fetch path.now)) }
{
    match tree.blob_at(path) {
        Some(blob) => Ok(Answer::Bytes(blob.copy()?)),
        None => Ok(Answer::Refused(OpFault::NoFile)),
    }
}

/// Sets contents at the path, unless they are refused.
fn set(tree: &mut Tree, path: &RelPath, contents: Contents) -> Result<Answer, AllocError>
    ensures answer { IfOk result
        (λ a. a ≡ machine.done_unless (of_tree.set_fault tree.old path.now contents)) }
    ensures fits { IfOk result (machine.Fits (Op.Set path.now contents)) }
    ensures after { OnOk result (tree.new ≡ machine.with_set tree.old path.now contents) }
    ensures err { OnErr result (tree.new ≡ tree.old) }
{
    match tree.set(path, contents) {
        Ok(()) => Ok(Answer::Done),
        Err(SetFault::RootPath) => Ok(Answer::Refused(OpFault::RootPath)),
        Err(SetFault::NoParent) => Ok(Answer::Refused(OpFault::NoParent)),
        Err(SetFault::NotEmpty) => Ok(Answer::Refused(OpFault::NotEmpty)),
        Err(SetFault::NothingThere) => Ok(Answer::Refused(OpFault::NothingThere)),
        Err(SetFault::OutOfMemory) => Err(AllocError),
    }
}
