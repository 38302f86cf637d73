//! Books by their roots.
ghost use Rattle.std.specs.Prelude.{◌≡◌, ◌↔◌, [], find, length, IsTrue, MatchOption};
ghost use Rattle.std.specs.Option.{option_map};
ghost use Rattle.hub_path.specs.Path.{path_eq};
ghost use Rattle.hub_runner.specs.Settling as spec;
ghost use Rattle.hub_runner.specs.Settling.{HasNotOneBook, IsOnlyBook};

use hub_cert::ProfileSet;
use hub_history::Book;
use hub_job::Entry;
use hub_path::Root;
use hub_state::State;

/// Borrows the book of a root, if there is exactly one.
pub(crate) fn only_book<'b, 'a>(books: &'b [Book<'a>], root: &Root) -> Option<&'b Book<'a>>
    ensures { MatchOption result (HasNotOneBook books.now root.now)
        (λ b. IsOnlyBook books.now root.now b.now) }
{
    if !has_one_book(books, root) {
        return None;
    }
    first_book(books, root)
}

/// Returns whether a root has exactly one book.
fn has_one_book(books: &[Book<'_>], root: &Root) -> bool
    ensures { IsTrue result ↔ (length (spec.books_at books.now root.now) ≡ 1) }
{
    count_of_books(books, root) == 1
}

/// Returns how many books a root has.
fn count_of_books(books: &[Book<'_>], root: &Root) -> usize
    ensures { result ≡ length (spec.books_at books.now root.now) }
{
    books.iter().filter(|book| book.root() == root).count()
}

/// Returns whether the book was made for the profiles of the set, and opens with the state's replica of its root.
pub(crate) fn opens_as(book: &Book<'_>, set: &ProfileSet, state: &State) -> bool
    ensures { IsTrue result ↔ spec.OpensAs state.now set.now.profiles book.now }
{
    match state.replica(book.root()) {
        Some(tree) => book.made_for(set) && tree.same(book.opening()),
        None => false,
    }
}

/// Borrows the history of the first book of a root; there are no entries if there is no such book.
pub(crate) fn history_at<'b>(books: &'b [Book<'_>], root: &Root) -> &'b [Entry]
    ensures { result.now ≡ spec.history_at books.now root.now }
{
    match first_book(books, root) {
        Some(book) => book.history(),
        None => &[],
    }
}

/// Borrows the first book of a root.
fn first_book<'b, 'a>(books: &'b [Book<'a>], root: &Root) -> Option<&'b Book<'a>>
    ensures { option_map (λ b. b.now) result ≡ find (λ B. path_eq B.root root.now) books.now }
{
    books.iter().find(|book| book.root() == root)
}
