ghost use Rattle.std.specs.Prelude.{◌≡◌, ◌↔◌, ◌<◌, [], ◌∷◌, ◌++◌, IfOk, OnOk, OnErr, IfErr, IsTrue};
ghost use Rattle.std.specs.Vec.{vec_len, vec_capacity};
ghost use Rattle.hub_job.specs.Machine.{Fits, is_shared};
ghost use Rattle.hub_history.specs.Book.{BookAnswers, IsBook, entry_of, has_job, new_book, with_entry};

use hub_cert::ProfileSet;
use hub_job::{Answer, Entry, Op, perform};
use hub_path::Root;
use hub_profile::Profile;
use hub_text::are_equal;
use hub_tree::Tree;
use std::alloc::{AllocError, AllocFailed, Global};
use std::marker::Model;

/// The replica of a root, with all operations that jobs made on it since the opening, and their answers.
///
/// Contracts see it as a `BookValue`. Its type keeps that the history is legal (each entry is of a job that has the root, and
/// its answer is the replica's at that point) and that it leads from the opening to the replica.
#[derive(Drop)]
pub struct Book<'a> {
    alloc: Global,
    profiles: &'a [Profile],
    root: Root,
    opening: Tree,
    tree: Tree,
    history: Vec<Entry>,
}

impl<'a> Model for Book<'a> {
    ghost use Rattle.std.specs.Coded.{codes};
    ghost use Rattle.hub_history.specs.Book.{BookValue, IsBook};
    ghost use Rattle.hub_history.specs.Coded.{coded_replica};

    ghost Value = { BookValue };

    ghost coded = { Prim.hlevel (codes, coded_replica) };

    ghost view = { λ b. record {
      profiles = b.profiles.now;
      root = b.root;
      opening = b.opening;
      tree = b.tree;
      history = b.history.items;
    } };

    ghost invariant = { λ b. IsBook (record {
      profiles = b.profiles.now;
      root = b.root;
      opening = b.opening;
      tree = b.tree;
      history = b.history.items;
    }) };
}

impl<'a> Book<'a> {
    /// Makes the book of a root for the jobs of a set, with this replica and no entries. Out of memory gives the replica
    /// back.
    pub fn new(
        alloc: Global,
        set: &'a ProfileSet,
        root: Root,
        tree: Tree,
    ) -> Result<Book<'a>, AllocFailed<Tree>>
        ensures ok { IfOk result (λ b. b ≡ new_book set.now.profiles root tree) }
        ensures err { IfErr result (λ e. e.value ≡ tree) }
    {
        let Ok(opening) = tree.copy() else {
            return Err(AllocFailed { value: tree });
        };
        Ok(Book {
            alloc,
            profiles: set.profiles(),
            root,
            opening,
            tree,
            history: Vec::new(alloc),
        })
    }

    /// Makes an operation of a job on the replica, and appends it with its answer to the history. An operation that the
    /// replica refuses is an entry too. Out of memory leaves the book as it was.
    pub fn apply(&mut self, job: usize, op: Op) -> Result<Answer, AllocError>
        requires { IsTrue (has_job self.old.profiles self.old.root job) }
        ensures answer { IfOk result (λ a. BookAnswers self.old job op a) }
        ensures fits { IfOk result (Fits op) }
        ensures book { IfOk result (λ a. self.new ≡ with_entry self.old (entry_of job op a)) }
        ensures err { OnErr result (self.new ≡ self.old) }
    {
        self.history.reserve(1)?;
        let profile = &self.profiles[job];
        let answer = perform(self.alloc, profile, &self.root, &mut self.tree, &op)?;
        append_entry(&mut self.history, job, op, &answer)?;
        Ok(answer)
    }

    /// Returns whether there is a profile of that number in the set, and it has the root.
    pub fn has(&self, job: usize) -> bool
        ensures value { result ≡ has_job self.now.profiles self.now.root job }
        ensures book { IsBook self.now }
    {
        match self.profiles.get(job) {
            Some(profile) => profile.has_root(&self.root),
            None => false,
        }
    }

    /// Returns whether the book was made for the profiles of this set.
    pub fn made_for(&self, set: &ProfileSet) -> bool
        ensures { IsTrue result ↔ (self.now.profiles ≡ set.now.profiles) }
    {
        are_equal(self.profiles, set.profiles())
    }

    /// Borrows the root.
    pub fn root(&self) -> &Root
        ensures { result.now ≡ self.now.root }
    {
        &self.root
    }

    /// Borrows the replica as it was at the opening.
    pub fn opening(&self) -> &Tree
        ensures value { result.now ≡ self.now.opening }
        ensures book { IsBook self.now }
    {
        &self.opening
    }

    /// Borrows the replica.
    pub fn tree(&self) -> &Tree
        ensures value { result.now ≡ self.now.tree }
        ensures book { IsBook self.now }
    {
        &self.tree
    }

    /// Borrows the operations since the opening, with their answers, in order.
    pub fn history(&self) -> &[Entry]
        ensures value { result.now ≡ self.now.history }
        ensures book { IsBook self.now }
    {
        self.history.as_slice()
    }

    /// Returns the replica. The rest of the book is dropped.
    pub fn into_tree(self) -> Tree
        ensures value { result ≡ self.entry.tree }
        ensures book { IsBook self.entry }
    {
        let Book { tree, .. } = self;
        tree
    }
}

/// Appends an operation with a copy of its answer to a history that has room for it. An answer that can't be copied leaves
/// the history as it was.
fn append_entry(
    history: &mut Vec<Entry>,
    job: usize,
    op: Op,
    answer: &Answer,
) -> Result<(), AllocError>
    requires { vec_len history.old < vec_capacity history.old }
    ensures ok { OnOk result
        (history.new.items ≡ history.old.items ++ entry_of job op answer.now ∷ []) }
    ensures shared { OnErr result (IsTrue (is_shared answer.now)) }
    ensures err { OnErr result (history.new.items ≡ history.old.items) }
{
    let kept = answer.copy()?;
    let Ok(()) = history.push(Entry {
        job,
        op,
        answer: kept,
    }) else {
        unreachable!()
    };
    Ok(())
}
