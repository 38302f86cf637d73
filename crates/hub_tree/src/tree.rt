ghost use Rattle.std.specs.Prelude.{◌≡◌, ◌<◌, ◌↔◌, length, min, None, is_some, IsTrue, IfOk, IfErr, OnOk, OnErr};
ghost use Rattle.std.specs.Option.{option_map};
ghost use Rattle.std.specs.FinMap as fin;
ghost use Rattle.hub_tree.specs.Nodes.{replica_of, is_left, put_fault, with_put, top_replica};
ghost use Rattle.hub_tree.specs.Shared.{shared_entries};
ghost use Rattle.hub_tree.specs.Tree as tree;

use crate::blob::Blob;
use crate::contents::{Contents, Mark};
use crate::entries::Entries;
use crate::fault::SetFault;
use crate::node::{Node, count_of, names_of, node_at, push_paths, put_at, put_shared};
use crate::same::are_same;
use hub_path::{Name, RelPath};
use hub_text::Items;
use std::alloc::{AllocError, Global};
use std::collections::BTreeMap;
use std::marker::Model;
use std::sync::Arc;

/// A replica: files and directories at finitely many paths. The parent of each is a directory. The empty path stands for
/// the whole replica, which is a directory too.
///
/// Each directory is an ordered map from names to what it holds. So a look-up compares as many names as a search in each
/// directory along the path does.
///
/// A replica and its copies share their memory. A write copies the directories on its path that are shared, each with what
/// it names but not with what those hold.
#[derive(Drop)]
pub struct Tree {
    alloc: Global,
    nothing: BTreeMap<Name, Node>,
    top: Option<Arc<BTreeMap<Name, Node>>>,
}

impl Model for Tree {
    ghost use Rattle.std.specs.FinMap as fin;
    ghost use Rattle.std.specs.Coded.{coded_ℕ, coded_list};
    ghost use Rattle.hub_path.specs.Path.{path_cmp};
    ghost use Rattle.hub_tree.specs.declared.contents.Contents.{Contents};
    ghost use Rattle.hub_tree.specs.laws.Coded.{coded_contents};

    ghost Value = { fin.FinMap path_cmp Contents };

    ghost coded = { fin.code (coded_list (coded_list coded_ℕ)) coded_contents };

    ghost use Rattle.hub_tree.specs.Tree.{HasPaths, HasBytes};
    ghost use Rattle.hub_tree.specs.Nodes.{replica_of};
    ghost use Rattle.hub_tree.specs.Shared.{shared_entries};
    ghost use Rattle.std.specs.Prelude.{◌≡◌, []};

    ghost view = { λ a. replica_of (shared_entries a.top) };

    ghost invariant = { λ a.
        HasPaths (replica_of (shared_entries a.top))
        × HasBytes (replica_of (shared_entries a.top))
        × (a.nothing.entries ≡ []) };
}

impl Tree {
    /// An empty replica.
    pub fn new(alloc: Global) -> Tree
        ensures { result ≡ fin.empty }
    {
        Tree {
            alloc,
            nothing: BTreeMap::new(alloc),
            top: None,
        }
    }

    /// Copies the replica, in constant time. It allocates nothing, and fails only where more copies share its memory than
    /// can be counted.
    pub fn copy(&self) -> Result<Tree, AllocError>
        ensures { IfOk result (λ t. t ≡ self.now) }
    {
        let top = match &self.top {
            Some(shared) => Some(Arc::try_clone(shared)?),
            None => None,
        };
        Ok(Tree {
            alloc: self.alloc,
            nothing: BTreeMap::new(self.alloc),
            top,
        })
    }

    /// What the whole replica holds.
    fn children(&self) -> &BTreeMap<Name, Node>
        ensures replica { replica_of result.now.entries ≡ self.now }
        ensures paths { tree.HasPaths self.now }
        ensures bytes { tree.HasBytes self.now }
    {
        match &self.top {
            Some(shared) => shared,
            None => &self.nothing,
        }
    }

    /// Returns whether both replicas have the same contents at each path.
    pub fn same(&self, other: &Tree) -> bool
        ensures { IsTrue result ↔ (self.now ≡ other.now) }
    {
        are_same(self.children(), other.children())
    }

    /// Goes through the files and directories in the order of their paths.
    ///
    /// The contents and the names are borrowed, and in memory are the texts of the paths of one entry and of each directory
    /// above it.
    pub fn entries(&self) -> Result<Entries<'_>, AllocError>
        ensures { IfOk result (λ e. e ≡ fin.entries self.now) }
    {
        Entries::new(self.alloc, self.children())
    }

    /// The paths that have contents, in ascending order.
    pub fn paths(&self) -> Result<Items<RelPath>, AllocError>
        ensures { IfOk result (λ ps. ps ≡ fin.keys self.now) }
    {
        let mut paths = Vec::new(self.alloc);
        push_paths(&RelPath::top(self.alloc), self.children(), &mut paths)?;
        Ok(Items::from_vec(paths))
    }

    /// The number of files and directories, or `u64::MAX` if there are more.
    pub fn count(&self) -> u64
        ensures { result ≡ min (fin.len self.now) u64.MAX }
    {
        count_of(self.children())
    }

    /// The mark of the contents at the path.
    pub fn mark_at(&self, path: &RelPath) -> Mark
        ensures tree { tree.IsTree self.now }
        ensures paths { tree.HasPaths self.now }
        ensures bytes { tree.HasBytes self.now }
        ensures mark { result ≡ tree.mark_at self.now path.now }
    {
        let children = self.children();
        if path.len() == 0 {
            return Mark::Directory;
        }
        match node_at(children, path, 0) {
            Some(Node::File(blob)) => Mark::File(blob.digest()),
            Some(Node::Directory(_)) => Mark::Directory,
            None => Mark::Absent,
        }
    }

    /// The bytes of the file at the path, with their digest, or `None` if there is no file.
    pub fn blob_at<'a>(&'a self, path: &RelPath) -> Option<&'a Blob>
        ensures { option_map (λ b. b.now) result ≡ tree.bytes_at self.now path.now }
    {
        if path.len() == 0 {
            return None;
        }
        match node_at(self.children(), path, 0) {
            Some(Node::File(blob)) => Some(blob),
            Some(Node::Directory(_)) => None,
            None => None,
        }
    }

    /// The bytes of the file at the path, or `None` if there is no file.
    pub fn bytes_at<'a>(&'a self, path: &RelPath) -> Option<&'a [u8]>
        ensures { option_map (λ b. b.now) result ≡ tree.bytes_at self.now path.now }
    {
        match self.blob_at(path) {
            Some(blob) => Some(blob.bytes()),
            None => None,
        }
    }

    /// The names in the directory at the path, in ascending order. There are none if the path is not a directory.
    pub fn names_at(&self, path: &RelPath) -> Result<Items<Name>, AllocError>
        ensures { IfOk result (λ ns. ns ≡ tree.names_at self.now path.now) }
    {
        if path.len() == 0 {
            return names_of(self.alloc, self.children());
        }
        match node_at(self.children(), path, 0) {
            Some(Node::Directory(children)) => names_of(self.alloc, children),
            Some(Node::File(_)) => Ok(Items::new(self.alloc)),
            None => Ok(Items::new(self.alloc)),
        }
    }

    /// What `mark_at`, `names_at` and `blob_at` return, in one walk: the mark of the contents at the path, the names in the
    /// directory there, and the file there.
    pub fn look_at<'a>(
        &'a self,
        path: &RelPath,
    ) -> Result<(Mark, Items<Name>, Option<&'a Blob>), AllocError>
        ensures paths { tree.HasPaths self.now }
        ensures mark { IfOk result (λ r. r.0 ≡ tree.mark_at self.now path.now) }
        ensures names { IfOk result (λ r. r.1 ≡ tree.names_at self.now path.now) }
        ensures file { IfOk result
            (λ r. option_map (λ b. b.now) r.2 ≡ tree.bytes_at self.now path.now) }
    {
        let children = self.children();
        if path.len() == 0 {
            return Ok((Mark::Directory, names_of(self.alloc, children)?, None));
        }
        match node_at(children, path, 0) {
            Some(Node::File(blob)) => Ok((
                Mark::File(blob.digest()),
                Items::new(self.alloc),
                Some(blob),
            )),
            Some(Node::Directory(inner)) => {
                Ok((Mark::Directory, names_of(self.alloc, inner)?, None))
            }
            None => Ok((Mark::Absent, Items::new(self.alloc), None)),
        }
    }

    /// Sets contents at the path; `Absent` removes what is there.
    ///
    /// To set `Directory` where a directory is changes nothing. The fault is the first of `RootPath`, `NoParent`,
    /// `NotEmpty` and `NothingThere` that applies. If none applies, `set` may still report `OutOfMemory`. A fault leaves the
    /// replica unchanged, and the contents are dropped.
    pub fn set(&mut self, path: &RelPath, contents: Contents) -> Result<(), SetFault>
        ensures allowed { OnOk result (tree.set_fault self.old path.now contents ≡ None) }
        ensures ok { OnOk result (self.new ≡ tree.with_contents self.old path.now contents) }
        ensures fault { IfErr result (tree.IsRefusal (tree.set_fault self.old path.now contents)) }
        ensures err { OnErr result (self.new ≡ self.old) }
    {
        match self.put(path, contents, false) {
            Ok(_left) => Ok(()),
            Err(fault) => Err(fault),
        }
    }

    /// Sets contents at a path that has none, and returns whether the path has some already.
    ///
    /// If it returns `true`, the replica is unchanged. If it returns `false`, it has set the contents, as [`Tree::set`] does.
    /// A fault is one that `set` reports at a path that has no contents, or `OutOfMemory`, and leaves the replica unchanged.
    /// Contents that are not set are dropped.
    ///
    /// It walks along the path once, unless the replica shares a directory on the path with a copy.
    pub fn put_new(&mut self, path: &RelPath, contents: Contents) -> Result<bool, SetFault>
        ensures there { IfOk result (λ b. b ≡ is_some (fin.get self.old path.now)) }
        ensures allowed { OnOk result (tree.new_fault self.old path.now contents ≡ None) }
        ensures ok { OnOk result (self.new ≡ tree.with_new_contents self.old path.now contents) }
        ensures fault { IfErr result (tree.IsRefusal (tree.new_fault self.old path.now contents)) }
        ensures err { OnErr result (self.new ≡ self.old) }
    {
        self.put(path, contents, true)
    }

    /// Puts contents at the path. If only new contents are put, those that are there are left, and it returns `true`.
    fn put(&mut self, path: &RelPath, contents: Contents, only_new: bool) -> Result<bool, SetFault>
        ensures left { IfOk result (λ b. b ≡ is_left only_new self.old path.now) }
        ensures allowed { OnOk result (put_fault only_new self.old path.now contents ≡ None) }
        ensures ok { OnOk result (self.new ≡ with_put only_new self.old path.now contents) }
        ensures fault { IfErr result
            (tree.IsRefusal (put_fault only_new self.old path.now contents)) }
        ensures err { OnErr result (self.new ≡ self.old) }
    {
        let alloc = self.alloc;
        if path.len() == 0 {
            return Err(SetFault::RootPath);
        }
        contents.has_bytes();
        put_top(alloc, &mut self.top, path, contents, only_new)
    }
}

/// Puts contents at the path, which is not the whole replica. See [`Tree::put`].
fn put_top(
    alloc: Global,
    top: &mut Option<Arc<BTreeMap<Name, Node>>>,
    path: &RelPath,
    contents: Contents,
    only_new: bool,
) -> Result<bool, SetFault>
    requires { 0 < length path.now }
    ensures left { IfOk result
        (λ b. b ≡ is_left only_new (top_replica top.old) path.now) }
    ensures allowed { OnOk result
        (put_fault only_new (top_replica top.old) path.now contents ≡ None) }
    ensures ok { OnOk result
        (top_replica top.new ≡ with_put only_new (top_replica top.old) path.now contents) }
    ensures fault { IfErr result
        (tree.IsRefusal (put_fault only_new (top_replica top.old) path.now contents)) }
    ensures err { OnErr result (top_replica top.new ≡ top_replica top.old) }
{
    if let Some(shared) = top {
        return put_shared(alloc, shared, path, 0, contents, only_new);
    }
    let mut children = BTreeMap::new(alloc);
    let left = put_at(alloc, &mut children, path, 0, contents, only_new)?;
    *top = Some(Arc::new(alloc, children)?);
    Ok(left)
}
