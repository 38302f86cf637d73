//! Desks of roots, and seats at them.
ghost use Rattle.std.specs.Prelude.{◌<◌};

use crate::append::push;
use crate::borrowed::Borrowed;
use crate::worker::{DeskNumbers, QueuedJob};
use hub_cert::ProfileSet;
use hub_history::{Book, Desk, Seat};
use hub_job::Job;
use hub_path::{Root, Side};
use hub_profile::Profile;
use hub_state::State;
use hub_text::Items;
use hub_tree::Tree;
use std::alloc::{AllocError, Global};

/// The desks of roots, by number.
#[derive(Drop)]
pub(crate) struct Desks<'a> {
    /// The desks.
    pub(crate) desks: Vec<Desk<'a>>,
}

/// Opens a desk for each root, over a copy of the state's replica. Each of so many workers gets a seat at each desk: the list of
/// a worker's seats is in the order of the desks.
pub(crate) fn open_desks<'a>(
    alloc: Global,
    set: &'a ProfileSet,
    state: &State,
    roots: &[Borrowed<'_, Root>],
    workers: usize,
) -> Result<(Desks<'a>, Vec<Vec<Seat>>), AllocError>
    requires { 0 < workers }
{
    let mut desks = Vec::new(alloc);
    let mut seats = empty_lists(alloc, workers)?;
    for root in roots {
        let book = book_of(alloc, set, state, root.item())?;
        add_desk(alloc, book, workers, &mut desks, &mut seats)?;
    }
    Ok((Desks { desks }, seats))
}

/// Opens a desk over a book, with so many seats, and appends it. Each list gets one of the seats.
fn add_desk<'a>(
    alloc: Global,
    book: Book<'a>,
    workers: usize,
    desks: &mut Vec<Desk<'a>>,
    lists: &mut Vec<Vec<Seat>>,
) -> Result<(), AllocError>
    requires { 0 < workers }
{
    let Ok((desk, seats)) = Desk::new(alloc, book, workers) else {
        return Err(AllocError);
    };
    push(desks, desk)?;
    deal(lists, seats)
}

/// Makes so many lists of seats, each empty.
fn empty_lists(alloc: Global, count: usize) -> Result<Vec<Vec<Seat>>, AllocError> {
    let mut lists = Vec::with_capacity(alloc, count)?;
    for _ in 0..count {
        lists.push(Vec::new(alloc))?;
    }
    Ok(lists)
}

/// Appends one of the seats to each list.
fn deal(lists: &mut Vec<Vec<Seat>>, seats: Items<Seat>) -> Result<(), AllocError> {
    for (i, seat) in seats.into_vec().into_iter().enumerate() {
        if let Some(list) = lists.get_mut(i) {
            list.push(seat)?;
        }
    }
    Ok(())
}

/// Makes the book of a root, over a copy of the state's replica. A replica that the state lacks is empty.
fn book_of<'a>(
    alloc: Global,
    set: &'a ProfileSet,
    state: &State,
    root: &Root,
) -> Result<Book<'a>, AllocError> {
    let tree = match state.replica(root) {
        Some(tree) => tree.copy()?,
        None => Tree::new(alloc),
    };
    let root = root.copy()?;
    match Book::new(alloc, set, root, tree) {
        Ok(book) => Ok(book),
        Err(_) => Err(AllocError),
    }
}

/// Makes the jobs of the profiles, each with the numbers of the desks of its two roots. A job without desks isn't made.
pub(crate) fn jobs_for<'a>(
    alloc: Global,
    profiles: &'a [Profile],
    state: &'a State,
    roots: &[Borrowed<'_, Root>],
) -> Result<Vec<QueuedJob<'a>>, AllocError> {
    let mut jobs = Vec::new(alloc);
    for (number, profile) in profiles.iter().enumerate() {
        if let Some(desks) = desks_of(profile, roots) {
            let archive = state.archive_or_empty(
                profile.root(Side::Left),
                profile.root(Side::Right),
            );
            let job = Box::new(alloc, Job::new(alloc, number, profile, archive)?)?;
            push(&mut jobs, QueuedJob { job, desks })?;
        }
    }
    Ok(jobs)
}

/// Returns the numbers of the desks of a profile's two roots, if both are there.
fn desks_of(profile: &Profile, roots: &[Borrowed<'_, Root>]) -> Option<DeskNumbers> {
    Some(DeskNumbers {
        left: desk_of(profile.root(Side::Left), roots)?,
        right: desk_of(profile.root(Side::Right), roots)?,
    })
}

/// Returns the number of a root's desk, if it is there.
fn desk_of(root: &Root, roots: &[Borrowed<'_, Root>]) -> Option<usize> {
    roots.iter().position(|other| other.item() == root)
}

/// Closes the desks, with the seats of each worker. A desk that can't be closed gives no book.
pub(crate) fn close_desks<'a>(
    alloc: Global,
    desks: Desks<'a>,
    seats: Vec<Vec<Seat>>,
) -> Result<Vec<Book<'a>>, AllocError> {
    let Desks { desks } = desks;
    let by_desk = by_desk(alloc, desks.len(), seats)?;
    let mut books = Vec::new(alloc);
    for (desk, own) in desks.into_iter().zip(by_desk) {
        close_desk(desk, own, &mut books)?;
    }
    Ok(books)
}

/// Closes a desk with the seats that the workers had at it, and appends its book, unless it can't be closed.
fn close_desk<'a>(
    desk: Desk<'a>,
    seats: Vec<Seat>,
    books: &mut Vec<Book<'a>>,
) -> Result<(), AllocError> {
    if let Ok(book) = desk.close(Items::from_vec(seats)) {
        push(books, book)?;
    }
    Ok(())
}

/// Returns a list for each desk, with the seats that the workers had at it.
fn by_desk(
    alloc: Global,
    desks: usize,
    seats: Vec<Vec<Seat>>,
) -> Result<Vec<Vec<Seat>>, AllocError> {
    let mut lists = empty_lists(alloc, desks)?;
    for own in seats {
        deal(&mut lists, Items::from_vec(own))?;
    }
    Ok(lists)
}
