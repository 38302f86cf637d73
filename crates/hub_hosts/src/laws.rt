//! What holds of every text: each law is the contract of a function that does nothing.
ghost use Rattle.std.specs.Prelude.{◌≡◌, ◌++◌, ◌∷◌, ℕ, List, None, Ok, Option, Some, codes, false, is_some, true, length, map};
ghost use Rattle.std.specs.List.{list_any};
ghost use Rattle.hub_text.specs.Lines.{lines_of};
ghost use Rattle.std.specs.Char.{is_ascii_alphabetic, to_ascii_uppercase};
ghost use Rattle.hub_hosts.specs.Drives.{below_of, text_of};
ghost use Rattle.hub_hosts.specs.Profiles as profiles;
ghost use Rattle.hub_hosts.specs.Profiles.{from_root, line_for, root_in, sets_arrow, sets_root, text_for};
ghost use Rattle.hub_hosts.specs.Remotes.{folds_names, has_machine, is_local, is_local_drive, path_of, remote_for, remote_of, IfUnknown};
ghost use Rattle.hub_hosts.specs.Table.{Row, rows_of, slash};
ghost use Rattle.hub_hosts.specs.Words.{begins_with, is_one_of};
ghost use Rattle.hub_hosts.specs.declared.remote.Remote.{Remote};

/// A text that names no root on another machine, and none on a drive of Windows, stays as it is.
pub fn a_text_without_remote_roots_stays()
    ensures { (rows : List Row) (machine : Option (List ℕ)) (text : List ℕ)
        → list_any (λ l. profiles.names_remote machine l.text) (lines_of text) ≡ false
        → list_any (λ l. profiles.names_drive l.text) (lines_of text) ≡ false
        → text_for rows machine text ≡ text }
{}

/// A line of another name stays as it is.
pub fn a_line_of_another_name_stays()
    ensures { (rows : List Row) (machine : Option (List ℕ)) (line : List ℕ)
        → sets_root line ≡ false → sets_arrow line ≡ false → line_for rows machine line ≡ line }
{}

/// A line stays as it is if the table has neither the name in its root nor the host: its root never becomes a path.
pub fn a_root_of_an_unknown_host_stays()
    ensures { (rows : List Row) (machine : Option (List ℕ)) (line end : List ℕ)
        (r : Remote (List ℕ))
        → from_root line ≡ Some end → remote_for machine (root_in end) ≡ Some r
        → IfUnknown rows r (line_for rows machine line ≡ line) }
{}

/// What stands in place of a root by the rows of a table is an absolute path.
pub fn paths_are_absolute()
    ensures { (table root path : List ℕ) (machine : Option (List ℕ)) (rows : List Row)
        → rows_of table ≡ Ok rows → path_of rows machine root ≡ Some path
        → begins_with slash path ≡ true }
{}

/// By the rows of a table, the lines of the text are those of the profile, each with its path: as many, in the same order.
pub fn lines_keep_their_numbers()
    ensures lines { (table text : List ℕ) (machine : Option (List ℕ)) (rows : List Row)
        → rows_of table ≡ Ok rows → lines_of (text_for rows machine text)
        ≡ map (profiles.whole_line_for rows machine) (lines_of text) }
    ensures count { (table text : List ℕ) (machine : Option (List ℕ)) (rows : List Row)
        → rows_of table ≡ Ok rows
        → length (lines_of (text_for rows machine text)) ≡ length (lines_of text) }
{}

/// A root here of a profile of a machine is the root there that `ssh://`, the machine's name, a slash and it say together.
pub fn a_root_of_a_machine_is_as_by_ssh()
    ensures { (machine root : List ℕ) → is_one_of machine 47 ≡ false → is_local root ≡ true
        → remote_for (Some machine) root
        ≡ remote_of (codes "ssh://" ++ machine ++ slash ++ root) }
{}

/// No root here of a profile of a machine stays, if the table has the machine: a path stands in its place.
pub fn no_root_of_a_known_machine_stays()
    ensures { (rows : List Row) (machine root : List ℕ) → has_machine rows machine ≡ true
        → is_local root ≡ true → is_some (path_of rows (Some machine) root) ≡ true }
{}

/// A root here on a drive of Windows is the path of a folder right below the `/` of this machine, whatever the table.
pub fn a_root_here_on_a_drive_has_a_path()
    ensures { (rows : List Row) (root : List ℕ) → is_local_drive root ≡ true
        → path_of rows None root ≡ Some (slash ++ text_of (below_of root)) }
{}

/// Names fold at a root here on a drive of Windows, whatever the table and the machine.
pub fn names_fold_on_drives()
    ensures { (rows : List Row) (machine : Option (List ℕ)) (root : List ℕ)
        → is_local_drive root ≡ true → folds_names rows machine root ≡ true }
{}

/// A drive of Windows has a small letter or a capital, a slash or a backslash behind it, and another name below `/cygdrive`.
pub fn a_drive_has_several_names()
    ensures cygdrive { (letter : ℕ) (path : List ℕ) → is_ascii_alphabetic letter ≡ true
        → below_of (codes "/cygdrive/" ++ letter ∷ slash ++ path)
        ≡ below_of (letter ∷ codes ":/" ++ path) }
    ensures capital { (letter : ℕ) (path : List ℕ) → is_ascii_alphabetic letter ≡ true
        → below_of (letter ∷ codes ":/" ++ path)
        ≡ below_of (to_ascii_uppercase letter ∷ codes ":/" ++ path) }
    ensures backslash { (letter : ℕ) (path : List ℕ) → is_ascii_alphabetic letter ≡ true
        → below_of (letter ∷ codes ":\\" ++ path) ≡ below_of (letter ∷ codes ":/" ++ path) }
{}
