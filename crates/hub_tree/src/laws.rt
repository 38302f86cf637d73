//! Laws of replicas and archives: each is the contract of a function that does nothing.
ghost use Rattle.std.specs.Prelude.{◌≡◌, ◌<◌, ◌↔◌, ◌++◌, Bool, IsTrue, Some, None, false, List, [], length, if◌then◌else◌};
ghost use Rattle.std.specs.List.{list_any};
ghost use Rattle.std.specs.FinMap as fin;
ghost use Rattle.hub_path.specs.Path.{Path, path_eq};
ghost use Rattle.hub_tree.specs.Below.{is_below, under, AllAbsentBelow};
ghost use Rattle.hub_tree.specs.Sets.{IfInDirectory, IfNoDirectory, Leave, ParentsPass, SameChildren, copies, emptied, folder_copies, grafted, removals, sets, with_folder, CanReplace, IfEmptyDirectory, ListAlike, sets_in_turn};
ghost use Rattle.hub_tree.specs.Tree.{Replica, Archive, IsTree, IsArchive, contents_at, old_mark_at, is_absent, children, set_fault, with_contents, with_mark, SameContents, SameMarks, marks_with, is_present_child};
ghost use Rattle.hub_tree.specs.declared.contents.Contents.{Contents};
ghost use Rattle.hub_tree.specs.declared.contents.Mark.{Mark};
ghost use Rattle.hub_tree.specs.declared.contents.Contents.TheVariants as contents;

/// Replicas with the same contents at each path are equal.
pub fn trees_are_their_contents()
    ensures { (m k : Replica) → IsTree m → IsTree k
        → SameContents m k → m ≡ k }
{}

/// Archives with the same mark at each path are equal.
pub fn archives_are_their_marks()
    ensures { (a b : Archive) → IsArchive a → IsArchive b → SameMarks a b → a ≡ b }
{}

/// If a path has contents, then each path above it is a directory.
pub fn what_lies_above_is_a_directory()
    ensures { (m : Replica) (p q : Path) → IsTree m → IsTrue (is_below p q)
        → is_absent (contents_at m q) ≡ false → contents_at m p ≡ contents.Directory }
{}

/// A Set without a fault leaves a replica, with these contents at the path and as before elsewhere.
pub fn a_set_keeps_trees()
    ensures tree { (m : Replica) (p : Path) (c : Contents) → IsTree m → set_fault m p c ≡ None
        → IsTree (with_contents m p c) }
    ensures contents { (m : Replica) (p q : Path) (c : Contents) → 0 < length p
        → contents_at (with_contents m p c) q ≡ (if path_eq q p then c else contents_at m q) }
{}

/// To set a mark leaves an archive, with this mark at the path and as before elsewhere.
pub fn a_set_keeps_archives()
    ensures archive { (a : Archive) (p : Path) (m : Mark) → 0 < length p → IsArchive a
        → IsArchive (with_mark a p m) }
    ensures marks { (a : Archive) (p q : Path) (m : Mark)
        → old_mark_at (with_mark a p m) q ≡ marks_with a p m q }
{}

/// What lies below a path can be removed, in descending order. All else stays.
pub fn sets_down()
    ensures { (m : Replica) (p : Path) → IsTree m
        → Leave m (removals m p) (emptied m p) }
{}

/// Of what lies below a path in a replica `s`, all that passes a test `f` can be set in ascending order below the path
/// in another replica `m`, if the path is an empty directory there. Whatever passes `f` needs its parents to pass. All
/// else stays.
pub fn sets_up()
    ensures { (m s : Replica) (p : Path) (f : Path → Bool) → IsTree m → IsTree s
        → IfEmptyDirectory m p (ParentsPass s p f
        → Leave m (copies s p f) (grafted m s p f)) }
{}

/// Nothing is under a path exactly when each path below it is absent.
pub fn nothing_is_under_what_holds_nothing()
    ensures { (m : Replica) (p : Path) → (under m p ≡ []) ↔ AllAbsentBelow m p }
{}

/// A list of Sets continues from the replica that the Sets before it leave.
pub fn sets_go_on()
    ensures { (m : Replica) (cs ds : List (Path × Contents))
        → sets m (cs ++ ds) ≡ sets_in_turn m cs ds }
{}

/// What lies below a path can be removed, and then the path be set. The parent must be a directory, and the path or the
/// new contents not absent.
pub fn an_item_goes()
    ensures { (m : Replica) (p : Path) (c : Contents) → IsTree m
        → IfInDirectory m p (CanReplace m p c) }
{}

/// A path that is not a directory can become one, and then receive all that passes a test below it in another replica.
pub fn an_item_comes()
    ensures { (m s : Replica) (p : Path) (f : Path → Bool) → IsTree m → IsTree s
        → IfNoDirectory m p (ParentsPass s p f
        → Leave m (folder_copies s p f) (with_folder m s p f)) }
{}

/// Sets leave a replica, with the former contents at each path that none of them names.
pub fn sets_keep_the_rest()
    ensures trees { (m k : Replica) (cs : List (Path × Contents)) → IsTree m → sets m cs ≡ Some k
        → IsTree k }
    ensures rest { (m k : Replica) (cs : List (Path × Contents)) (q : Path) → sets m cs ≡ Some k
        → list_any (λ c. path_eq q c.0) cs ≡ false → contents_at k q ≡ contents_at m q }
    ensures first { (m k : Replica) (cs ds : List (Path × Contents)) → sets m (cs ++ ds) ≡ Some k
        → (j : Replica) × (sets m cs ≡ Some j) × (sets j ds ≡ Some k) }
{}

/// A directory lists exactly the paths one name below it that have contents. So equal contents give equal listings.
pub fn listings_are_by_contents()
    ensures members { (m : Replica) (d q : Path) → list_any (path_eq q) (children m d)
        ≡ is_present_child m d q }
    ensures alike { (m k : Replica) (d : Path) (f : Path → Bool)
        → SameChildren m k d f → ListAlike m k d f }
{}

/// All that a replica has is under its top, in the order of paths.
pub fn what_is_under_the_top_is_all()
    ensures { (m : Replica) → IsTree m → under m [] ≡ fin.keys m }
{}
