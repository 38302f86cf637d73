//! Laws of names, paths and their texts. Each is the contract of a function that does nothing.
ghost use Rattle.std.specs.Prelude.{◌≡◌, ◌↔◌, ℕ, List, ◌++◌, Ok, IsTrue};
ghost use Rattle.hub_path.specs.Path.{Name, Path, is_name, is_over, is_path, is_place, text_of, path_of};
ghost use Rattle.hub_path.specs.Reading.{is_short_name, is_short_path, name_reading, path_reading, root_reading, IsReadBackAsRoot, IsRootText};

/// What is read has the text that it was read from: a path all of it, and a root all but one `/` at its end.
///
/// The text of a root is a `/` and then the text of its names, as `Root::text` writes it.
pub fn texts_come_back()
    ensures path { (cs : List ℕ) (p : Path) → path_reading cs ≡ Ok p → text_of p ≡ cs }
    ensures root { (cs : List ℕ) (r : Path) → root_reading cs ≡ Ok r → IsRootText r cs }
{}

/// A path is determined by its text: the names of its text are the path.
pub fn names_come_back()
    ensures { (p : Path) → IsTrue (is_path p) → path_of (text_of p) ≡ p }
{}

/// A path is a prefix of another one exactly when the other one is the path followed by more names.
pub fn prefixes_are_fronts()
    ensures { (p q : Path) → IsTrue (is_over p q) ↔ ((r : Path) × (q ≡ p ++ r)) }
{}

/// Each name, path and root within the readers' limits is read from its text.
///
/// The limits are `NAME_BYTES` bytes of UTF-8 for a name, and `PATH_NAMES` names.
pub fn texts_within_the_limits_are_read()
    ensures name { (n : Name) → IsTrue (is_name n) → IsTrue (is_short_name n)
        → name_reading n ≡ Ok n }
    ensures path { (p : Path) → IsTrue (is_path p) → IsTrue (is_short_path p)
        → path_reading (text_of p) ≡ Ok p }
    ensures root { (r : Path) → IsTrue (is_place r) → IsTrue (is_short_path r)
        → IsReadBackAsRoot r }
{}
