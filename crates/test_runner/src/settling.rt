//! Books and jobs that are stepped one after the other, and then settled.

use crate::changes::Changes;
use anyhow::{Result, bail};
use hub_cert::{ProfileSet, Verified};
use hub_history::Book;
use hub_job::{Job, Next, Op};
use hub_path::{RelPath, Root, Side};
use hub_profile::Profile;
use hub_runner::settle;
use hub_state::State;
use hub_tree::{Archive, Blob, Contents, Mark, Tree};
use std::alloc::Global;
use test_cases::{Case, left_text, verified_of};
use test_kit::cut;

/// What books and tasks are made from.
#[derive(Clone, Copy)]
struct Source<'a> {
    alloc: Global,
    set: &'a ProfileSet,
    /// The set of the first profile alone.
    first: &'a ProfileSet,
    state: &'a State,
    archives: &'a Archives,
    changes: Changes<'a>,
}

/// Archives that jobs may have in place of the state's.
#[derive(Drop)]
struct Archives {
    /// Without marks.
    empty: Archive,
    /// With the empty file `a`.
    with_a: Archive,
}

impl Archives {
    fn new(alloc: Global) -> Result<Archives> {
        let with_a = archive_with_a(alloc)?;
        Ok(Archives {
            empty: Archive::new(alloc),
            with_a,
        })
    }
}

fn archive_with_a(alloc: Global) -> Result<Archive> {
    let path = RelPath::read(alloc, "a")?;
    let mark = mark_of_empty(alloc)?;
    let mut archive = Archive::new(alloc);
    archive.set(&path, mark)?;
    Ok(archive)
}

/// The mark of an empty file.
fn mark_of_empty(alloc: Global) -> Result<Mark> {
    Ok(Contents::File(Blob::new(Vec::new(alloc))?).mark())
}

/// What books and jobs leave after these changes, or why they aren't settled.
pub(crate) fn answer(case: &Case, changes: &str) -> Result<String> {
    let set = case.set()?;
    answer_of_set(case, &set, Changes::new(changes))
}

fn answer_of_set(case: &Case, set: &ProfileSet, changes: Changes<'_>) -> Result<String> {
    let first = case.first_alone()?;
    answer_of_sets(case, set, &first, changes)
}

fn answer_of_sets(
    case: &Case,
    set: &ProfileSet,
    first: &ProfileSet,
    changes: Changes<'_>,
) -> Result<String> {
    let state = case.state()?;
    answer_of_state(case.alloc(), set, first, &state, changes)
}

fn answer_of_state(
    alloc: Global,
    set: &ProfileSet,
    first: &ProfileSet,
    state: &State,
    changes: Changes<'_>,
) -> Result<String> {
    let archives = Archives::new(alloc)?;
    settled_text(Source {
        alloc,
        set,
        first,
        state,
        archives: &archives,
        changes,
    })
}

fn settled_text(source: Source<'_>) -> Result<String> {
    let verified = verified_of(source.alloc, source.set)?;
    stepped_text(source, &verified)
}

fn stepped_text<'a>(source: Source<'a>, verified: &Verified<'a>) -> Result<String> {
    let mut books = books_of(source)?;
    let tasks = stepped_tasks(source, &mut books)?;
    let books = kept(source, books)?;
    text_of(source, verified, books, tasks)
}

/// What books and tasks leave.
fn text_of<'a>(
    source: Source<'a>,
    verified: &Verified<'a>,
    books: Vec<Book<'a>>,
    tasks: Vec<Job<'a>>,
) -> Result<String> {
    let left = settle(source.alloc, verified, source.state, books, tasks);
    left_text(source.alloc, &left)
}

/// Tasks after their steps in these books.
fn stepped_tasks<'a>(source: Source<'a>, books: &mut Vec<Book<'_>>) -> Result<Vec<Job<'a>>> {
    let mut tasks = tasks_of(source)?;
    step_each(source, books, &mut tasks)?;
    look_all(source, books)?;
    Ok(tasks)
}

/// Steps each of the jobs.
fn step_each(
    source: Source<'_>,
    books: &mut Vec<Book<'_>>,
    tasks: &mut Vec<Job<'_>>,
) -> Result<()> {
    for task in tasks {
        step_all(source, books, task)?;
    }
    Ok(())
}

/// A book for each root of the profiles.
fn books_of(source: Source<'_>) -> Result<Vec<Book<'_>>> {
    let mut books = Vec::new(source.alloc);
    for profile in source.set.profiles() {
        let [left, right] = profile.roots();
        push_book(source, &mut books, left)?;
        push_book(source, &mut books, right)?;
    }
    Ok(books)
}

/// Adds the book of a root, if it isn't there.
fn push_book<'a>(source: Source<'a>, books: &mut Vec<Book<'a>>, root: &Root) -> Result<()> {
    if has_book(books.as_slice(), root) {
        return Ok(());
    }
    Ok(books.push(book_of(source, root)?)?)
}

fn has_book(books: &[Book<'_>], root: &Root) -> bool {
    books.iter().any(|book| book.root() == root)
}

/// The book of a root.
fn book_of<'a>(source: Source<'a>, root: &Root) -> Result<Book<'a>> {
    let set = if source.changes.has("other", root.as_str()) {
        source.first
    } else {
        source.set
    };
    let tree = tree_of(source, root)?;
    new_book(source.alloc, set, root, tree)
}

/// The replica of a root.
fn tree_of(source: Source<'_>, root: &Root) -> Result<Tree> {
    match source.state.replica(root) {
        Some(tree) if !source.changes.has("bare", root.as_str()) => Ok(tree.copy()?),
        _ => Ok(Tree::new(source.alloc)),
    }
}

/// The book of a root that opens with this replica.
pub(crate) fn new_book<'a>(
    alloc: Global,
    set: &'a ProfileSet,
    root: &Root,
    tree: Tree,
) -> Result<Book<'a>> {
    match Book::new(alloc, set, root.copy()?, tree) {
        Ok(book) => Ok(book),
        Err(_) => bail!("no book"),
    }
}

/// A task for each profile, and those that the changes double.
fn tasks_of(source: Source<'_>) -> Result<Vec<Job<'_>>> {
    let mut tasks = Vec::new(source.alloc);
    for (number, profile) in source.set.profiles().iter().enumerate() {
        push_tasks(source, &mut tasks, number, profile)?;
    }
    Ok(tasks)
}

/// Adds the tasks of the profile with this number.
fn push_tasks<'a>(
    source: Source<'a>,
    tasks: &mut Vec<Job<'a>>,
    number: usize,
    profile: &'a Profile,
) -> Result<()> {
    let name = format!(in source.alloc; "{number}")?;
    let archive = archive_of(source, profile, name.as_str());
    if !source.changes.has("drop", name.as_str()) {
        push_task(source.alloc, tasks, number, profile, archive)?;
    }
    if let Some(second) = source.changes.number("double", name.as_str())? {
        push_task(source.alloc, tasks, second, profile, archive)?;
    }
    Ok(())
}

fn push_task<'a>(
    alloc: Global,
    tasks: &mut Vec<Job<'a>>,
    number: usize,
    profile: &'a Profile,
    archive: &'a Archive,
) -> Result<()> {
    Ok(tasks.push(Job::new(alloc, number, profile, archive)?)?)
}

/// The archive of a profile's roots, or the other one.
fn archive_of<'a>(source: Source<'a>, profile: &Profile, name: &str) -> &'a Archive {
    if source.changes.has("archive", name) {
        return &source.archives.with_a;
    }
    let [left, right] = profile.roots();
    match source.state.archive(left, right) {
        Some(archive) => archive,
        None => &source.archives.empty,
    }
}

/// Steps a job until it ends, or as far as the changes say.
fn step_all(source: Source<'_>, books: &mut Vec<Book<'_>>, task: &mut Job<'_>) -> Result<()> {
    let name = format!(in source.alloc; "{}", task.number())?;
    let stop = source.changes.number("stop", name.as_str())?;
    let leave = source.changes.number("leave", name.as_str())?;
    let Some(profile) = source.set.profiles().get(task.number()) else {
        return Ok(());
    };
    step_all_of(profile, books, task, stop, leave)
}

/// Steps a job until it ends, or as many times as one of the numbers says.
fn step_all_of(
    profile: &Profile,
    books: &mut Vec<Book<'_>>,
    task: &mut Job<'_>,
    stop: Option<usize>,
    leave: Option<usize>,
) -> Result<()> {
    for step in 0..100 {
        if stop == Some(step) {
            task.stop();
        }
        if leave == Some(step) || !step_once(profile, books, task)? {
            return Ok(());
        }
    }
    bail!("the job doesn't end")
}

/// Steps a job, and returns whether it goes on.
fn step_once(profile: &Profile, books: &mut Vec<Book<'_>>, task: &mut Job<'_>) -> Result<bool> {
    let Next::Ask(side, op) = task.turn() else {
        return Ok(false);
    };
    let book = book_at(books, root_of(profile, side))?;
    let number = task.number();
    if !book.has(number) {
        task.stop();
        return Ok(false);
    }
    task.take(book.apply(number, op)?);
    Ok(true)
}

fn root_of(profile: &Profile, side: Side) -> &Root {
    let [left, right] = profile.roots();
    match side {
        Side::Left => left,
        Side::Right => right,
    }
}

/// The first book of a root.
fn book_at<'b, 'a>(books: &'b mut Vec<Book<'a>>, root: &Root) -> Result<&'b mut Book<'a>> {
    for book in books {
        if book.root() == root {
            return Ok(book);
        }
    }
    bail!("no book of the root")
}

/// Steps the Looks of jobs 0 and 1 that the changes say.
fn look_all(source: Source<'_>, books: &mut Vec<Book<'_>>) -> Result<()> {
    for (job, name) in ["0", "1"].iter().enumerate() {
        if let Some(fields) = source.changes.field("look", name) {
            look(source.alloc, books, job, fields)?;
        }
    }
    Ok(())
}

/// Steps a Look of a job. The fields are a root and a path.
fn look(alloc: Global, books: &mut Vec<Book<'_>>, job: usize, fields: &str) -> Result<()> {
    let (root, path) = cut(fields);
    let root = Root::read(alloc, root)?;
    let book = book_at(books, &root)?;
    if !book.has(job) {
        bail!("the job doesn't have the root");
    }
    book.apply(job, Op::Look(RelPath::read(alloc, path)?))?;
    Ok(())
}

/// The books that the changes leave.
fn kept<'a>(source: Source<'a>, books: Vec<Book<'a>>) -> Result<Vec<Book<'a>>> {
    let mut all = Vec::new(source.alloc);
    for book in books {
        push_kept(source, &mut all, book)?;
    }
    Ok(all)
}

/// Adds the book, or none, or a second one before it.
fn push_kept<'a>(source: Source<'a>, all: &mut Vec<Book<'a>>, book: Book<'a>) -> Result<()> {
    push_second(source, all, &book)?;
    if source.changes.has("no", book.root().as_str()) {
        return Ok(());
    }
    Ok(all.push(book)?)
}

/// Adds the second book of a root, if it has one.
fn push_second<'a>(source: Source<'a>, all: &mut Vec<Book<'a>>, book: &Book<'_>) -> Result<()> {
    if !source.changes.has("twice", book.root().as_str()) {
        return Ok(());
    }
    Ok(all.push(second_of(source, book)?)?)
}

/// A book that opens as this one did, with no entries.
fn second_of<'a>(source: Source<'a>, book: &Book<'_>) -> Result<Book<'a>> {
    let tree = book.opening().copy()?;
    new_book(source.alloc, source.set, book.root(), tree)
}
