//! A replica that gets a directory below the last one, again and again.

use crate::shown::mark_text;
use anyhow::Result;
use hub_path::{Name, RelPath};
use hub_tree::{Contents, Tree};
use std::alloc::Global;
use test_kit::{cut, list_text, outcome_text};

/// The answer for each level, and in the end the number of the path's names, that of a copy's entries, and the path's mark.
pub(crate) fn answer(alloc: Global, fields: &str) -> Result<String> {
    let (count, name) = cut(fields);
    let count = count.parse::<u64>()?;
    let mut tree = Tree::new(alloc);
    answer_in(alloc, &mut tree, count, name)
}

fn answer_in(alloc: Global, tree: &mut Tree, count: u64, name: &str) -> Result<String> {
    let mut path = RelPath::top(alloc);
    let levels = levels_text(alloc, tree, &mut path, count, name)?;
    total_text(alloc, tree, &path, levels.as_str())
}

/// The answer for each level.
fn levels_text(
    alloc: Global,
    tree: &mut Tree,
    path: &mut RelPath,
    count: u64,
    name: &str,
) -> Result<String> {
    let mut answers = Vec::new(alloc);
    for _ in 0..count {
        answers.push(level_answer(alloc, tree, path, name)?)?;
    }
    list_text(alloc, answers.as_slice())
}

/// What stands for the levels, and then what there is in the end.
fn total_text(alloc: Global, tree: &Tree, path: &RelPath, levels: &str) -> Result<String> {
    let mark = mark_text(alloc, tree.mark_at(path))?;
    let count = count_of_copy(tree)?;
    Ok(format!(in alloc; "{levels}; {} {count} {mark}", path.len())?)
}

fn count_of_copy(tree: &Tree) -> Result<u64> {
    Ok(tree.copy()?.count())
}

/// How many entries there are, how many names are at the path, the mark of this name there, and what comes of making it a
/// directory.
fn level_answer(alloc: Global, tree: &mut Tree, path: &mut RelPath, name: &str) -> Result<String> {
    let child = path.child(Name::read(alloc, name)?)?;
    let names = tree.names_at(path)?.len();
    *path = child;
    child_text(alloc, tree, path, names)
}

fn child_text(alloc: Global, tree: &mut Tree, child: &RelPath, names: usize) -> Result<String> {
    let count = tree.count();
    let mark = mark_text(alloc, tree.mark_at(child))?;
    let outcome = outcome_text(alloc, tree.set(child, Contents::Directory))?;
    Ok(format!(in alloc; "{count} {names} {mark} {outcome}")?)
}
