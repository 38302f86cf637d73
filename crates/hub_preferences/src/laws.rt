//! What holds of every bundle that counts: each law is the contract of a function that does nothing.
ghost use Rattle.std.specs.Prelude.{◌≡◌, ℕ, List, true, false, length};
ghost use Rattle.hub_bundle.specs.Files.{is_heading};
ghost use Rattle.hub_text.specs.Lines.{lines_of};
ghost use Rattle.hub_path.specs.Reading.{is_short_path};
ghost use Rattle.hub_preferences.specs.Counted as counted;
ghost use Rattle.hub_preferences.specs.Counted.{LineStaysIf, counted_bundle};
ghost use Rattle.hub_preferences.specs.Spellings.{ReadsBack, is_respelled, names_of};

/// A line that is neither left out nor has another spelling stands as it was. Only a `path` line
/// has another one.
pub fn a_line_that_counts_stands()
    ensures { LineStaysIf
        (λ roots s l below. counted.changes roots s l.text below ≡ false) }
{}

/// No line of another section changes than that of a profile, and no heading does.
pub fn only_lines_of_profiles_change()
    ensures other { LineStaysIf (λ roots s l below. s.is_profile ≡ false) }
    ensures heading { LineStaysIf (λ roots s l below. is_heading l.text ≡ true) }
{}

/// A bundle without a line to leave out or to spell otherwise is as it was.
pub fn a_bundle_that_counts_stays()
    ensures { (bytes : List ℕ) → counted.is_changed bytes ≡ false → counted_bundle bytes ≡ bytes }
{}

/// The lines of what counts of a bundle are those of the bundle, with comments in place of those that are left out, and some in
/// another spelling: as many.
pub fn lines_keep_their_numbers()
    ensures lines { (bytes : List ℕ)
        → lines_of (counted_bundle bytes) ≡ counted.lines_that_count bytes }
    ensures count { (bytes : List ℕ)
        → length (lines_of (counted_bundle bytes)) ≡ length (lines_of bytes) }
{}

/// Of what counts of a bundle all counts.
pub fn what_counts_counts_again()
    ensures { (bytes : List ℕ) → counted_bundle (counted_bundle bytes) ≡ counted_bundle bytes }
{}

/// Of the other spelling of a `path` value the plain reader reads the names that count, if they are within its limits.
pub fn the_plain_reader_reads_the_other_spelling()
    ensures { (v : List ℕ) → is_respelled v ≡ true → is_short_path (names_of v) ≡ true
        → ReadsBack (names_of v) }
{}
