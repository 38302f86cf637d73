ghost use Rattle.std.specs.Prelude.{◌≡◌, ◌≢◌, [], ◌∷◌, IfOk, OnOk, OnErr};
ghost use Rattle.std.specs.Option.{option_map, unwrap_or};
ghost use Rattle.std.specs.BTreeMap.{insert_entry};
ghost use Rattle.std.specs.FinMap as fin;
ghost use Rattle.std.specs.String.{string_cmp};
ghost use Rattle.hub_state.specs.State as spec;
ghost use Rattle.hub_state.specs.View.{by_text, by_two, map_in, pair_in, pairs_in, Puts, PutsPair};

use crate::unmarked::Unmarked;
use hub_path::{RelPath, Root};
use hub_tree::{Archive, Tree};
use std::alloc::{AllocError, Global};
use std::collections::BTreeMap;
use std::marker::Model;

/// Replicas by root, and archives by unordered pair of roots.
///
/// The maps have the texts of the roots as keys, in the order of their bytes. The archives of a pair are under the
/// smaller text, and there under the other one. Contracts don't see the archive that is borrowed in place of one that
/// isn't there.
#[derive(Drop)]
pub struct State {
    alloc: Global,
    replicas: BTreeMap<String, Tree>,
    archives: BTreeMap<String, BTreeMap<String, Archive>>,
    unmarked: Unmarked,
}

impl Model for State {
    ghost use Rattle.hub_state.specs.Coded.{coded_state};
    ghost use Rattle.hub_state.specs.State as spec;

    ghost Value = { spec.State };

    ghost coded = { coded_state };

    ghost use Rattle.hub_state.specs.View.{state_in};

    ghost view = { λ a. state_in a.replicas.entries a.archives.entries };

    ghost invariant = { λ a. spec.IsState (state_in a.replicas.entries a.archives.entries) };
}

impl State {
    /// A state without replicas and archives. It doesn't allocate.
    pub fn new(alloc: Global) -> State
        ensures { result ≡ spec.empty_state }
    {
        State {
            alloc,
            replicas: BTreeMap::new(alloc),
            archives: BTreeMap::new(alloc),
            unmarked: Unmarked::new(alloc),
        }
    }

    /// Copies the state, with the bytes of all files.
    pub fn copy(&self) -> Result<State, AllocError>
        ensures { IfOk result (λ s. s ≡ self.now) }
    {
        Ok(State {
            alloc: self.alloc,
            replicas: copies_of_replicas(self.alloc, &self.replicas)?,
            archives: copies_of_pairs(self.alloc, &self.archives)?,
            unmarked: Unmarked::new(self.alloc),
        })
    }

    /// Borrows the replica of the root, if there is one.
    pub fn replica(&self, root: &Root) -> Option<&Tree>
        ensures replica { option_map (λ t. t.now) result ≡ spec.replica_at self.now root.now }
        ensures valid { spec.IsState self.now }
    {
        self.replicas.get(root.as_str())
    }

    /// Borrows the archive of the two roots, in either order, if there is one.
    pub fn archive(&self, first: &Root, second: &Root) -> Option<&Archive>
        ensures { option_map (λ a. a.now) result ≡ spec.archive_at self.now first.now second.now }
    {
        let archives = &self.archives;
        let (smaller, larger) = in_order(first.as_str(), second.as_str());
        find_pair(archives, smaller, larger)
    }

    /// Borrows the archive of the two roots, in either order, or the empty one if there is none.
    pub fn archive_or_empty(&self, left: &Root, right: &Root) -> &Archive
        ensures { result.now ≡ unwrap_or (spec.archive_at self.now left.now right.now) fin.empty }
    {
        match self.archive(left, right) {
            Some(archive) => archive,
            None => self.unmarked.archive(),
        }
    }

    /// Borrows the replicas, under the texts of their roots.
    pub(crate) fn replicas(&self) -> &BTreeMap<String, Tree>
        ensures { fin.entries self.now.replicas ≡ by_text result.now.entries }
    {
        let _len = self.replicas.len();
        &self.replicas
    }

    /// Borrows the archives, under the texts of their roots.
    pub(crate) fn archives(&self) -> &BTreeMap<String, BTreeMap<String, Archive>>
        ensures { pairs_in result.now.entries ≡ self.now.archives }
    {
        &self.archives
    }

    /// Puts a replica in the place of the root's. Out of memory drops the replica and leaves the state unchanged.
    pub fn put_replica(&mut self, root: &Root, tree: Tree) -> Result<(), AllocError>
        ensures ok { OnOk result (self.new ≡ spec.with_replica self.old root.now tree) }
        ensures err { OnErr result (self.new ≡ self.old) }
    {
        let _names = root.path().len();
        let _top = tree.mark_at(&RelPath::top(self.alloc));
        put(&mut self.replicas, root.text()?, tree)
    }

    /// Puts an archive in the place of that of the two roots, in either order. Out of memory drops the archive and leaves
    /// the state unchanged.
    pub fn put_archive(
        &mut self,
        first: &Root,
        second: &Root,
        archive: Archive,
    ) -> Result<(), AllocError>
        requires { first.now ≢ second.now }
        ensures ok { OnOk result
            (self.new ≡ spec.with_archive self.old first.now second.now archive) }
        ensures err { OnErr result (self.new ≡ self.old) }
    {
        let _names = first.path().len();
        let _others = second.path().len();
        let _top = archive.mark_at(&RelPath::top(self.alloc));
        let (smaller, larger) = in_order(first.as_str(), second.as_str());
        put_pair(self.alloc, &mut self.archives, smaller, larger, archive)
    }
}

/// The two texts, the smaller one first.
fn in_order<'a>(first: &'a str, second: &'a str) -> (&'a str, &'a str)
    ensures { result.0.now ∷ result.1.now ∷ [] ≡ spec.in_order first.now second.now }
{
    if first < second {
        (first, second)
    } else {
        (second, first)
    }
}

/// Finds the archive under two texts.
fn find_pair<'a>(
    archives: &'a BTreeMap<String, BTreeMap<String, Archive>>,
    first: &str,
    second: &str,
) -> Option<&'a Archive>
    ensures { option_map (λ a. a.now) result ≡ pair_in archives.now.entries first.now second.now }
{
    let _len = archives.len();
    match archives.get(first) {
        Some(others) => others.get(second),
        None => None,
    }
}

/// Puts a value at a text.
fn put<T: Drop>(map: &mut BTreeMap<String, T>, text: String, value: T) -> Result<(), AllocError>
    ensures ok { OnOk result (Puts map.old.entries map.new.entries text value) }
    ensures err { OnErr result (map_in map.new.entries ≡ map_in map.old.entries) }
    ensures entries { OnOk result
        (map.new.entries ≡ insert_entry string_cmp map.old.entries text value) }
{
    let _old = map.insert(text, value)?;
    Ok(())
}

/// Puts an archive under two texts.
fn put_pair(
    alloc: Global,
    archives: &mut BTreeMap<String, BTreeMap<String, Archive>>,
    first: &str,
    second: &str,
    archive: Archive,
) -> Result<(), AllocError>
    ensures ok { OnOk result
        (PutsPair archives.old.entries archives.new.entries first.now second.now archive) }
    ensures err { OnErr result (pairs_in archives.new.entries ≡ pairs_in archives.old.entries) }
{
    let text = String::from_str(alloc, second)?;
    if let Some(others) = archives.get_mut(first) {
        return put(others, text, archive);
    }
    let mut others = BTreeMap::new(alloc);
    put(&mut others, text, archive)?;
    let _none = archives.insert(String::from_str(alloc, first)?, others)?;
    Ok(())
}

/// Copies replicas and their texts.
fn copies_of_replicas(
    alloc: Global,
    replicas: &BTreeMap<String, Tree>,
) -> Result<BTreeMap<String, Tree>, AllocError>
    ensures { IfOk result (λ m. by_text m.entries ≡ by_text replicas.now.entries) }
{
    let mut copies = BTreeMap::new(alloc);
    for (text, tree) in replicas.iter() {
        put(&mut copies, text.clone()?, tree.copy()?)?;
    }
    Ok(copies)
}

/// Copies archives and their second texts.
fn copies_of_archives(
    alloc: Global,
    archives: &BTreeMap<String, Archive>,
) -> Result<BTreeMap<String, Archive>, AllocError>
    ensures { IfOk result (λ m. by_text m.entries ≡ by_text archives.now.entries) }
{
    let mut copies = BTreeMap::new(alloc);
    for (text, archive) in archives.iter() {
        put(&mut copies, text.clone()?, archive.copy()?)?;
    }
    Ok(copies)
}

/// Copies archives and both of their texts.
fn copies_of_pairs(
    alloc: Global,
    pairs: &BTreeMap<String, BTreeMap<String, Archive>>,
) -> Result<BTreeMap<String, BTreeMap<String, Archive>>, AllocError>
    ensures { IfOk result (λ m. by_two m.entries ≡ by_two pairs.now.entries) }
{
    let mut copies = BTreeMap::new(alloc);
    for (text, archives) in pairs.iter() {
        let rows = copies_of_archives(alloc, archives)?;
        put(&mut copies, text.clone()?, rows)?;
    }
    Ok(copies)
}
