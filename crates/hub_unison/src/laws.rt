//! What follows from cautious readings: each law is the contract of an empty function.
ghost use Rattle.std.specs.Prelude.{◌≡◌, ◌≤◌, ℕ, List, [], ◌∷◌, ◌++◌, length, map, true, Ok};
ghost use Rattle.hub_path.specs.Path.{Name};
ghost use Rattle.hub_glob.specs.Readable.{IsReadable};
ghost use Rattle.hub_glob.specs.Specification.{Specification};
ghost use Rattle.hub_glob.specs.Writing.{pattern_text};
ghost use Rattle.hub_profile.specs.Parts.{Parts};
ghost use Rattle.hub_profile.specs.Reading.{profile_in};
ghost use Rattle.hub_profile.specs.declared.rule.Rule.{Rule};
ghost use Rattle.hub_reach.specs.Safe.{IsSafe};
ghost use Rattle.hub_unison.specs.Kept.{spare_lines};
ghost use Rattle.hub_unison.specs.Matching.{line_matches, IsMatching};
ghost use Rattle.hub_unison.specs.ReadingOf.{is_read_back, line_kept, reading_of, with_ignored, IsNoWider};
ghost use Rattle.hub_unison.specs.Rules.{AreReadForUnison, KeepsRulesInUnison, forbidden};
ghost use Rattle.hub_unison.specs.Shared.{ShareNoArchive, shared_pairs};
ghost use Rattle.hub_unison.specs.UnisonReach.{IsSafeInUnison};
ghost use Rattle.hub_unison.specs.Written.{IsWrittenAs, Written, written_of};

use hub_glob::PATTERN_CHARACTERS;
use hub_glob::laws::readable_specifications_are_read_back;

/// If the readings of some profiles beside rules are a safe set with these, by none of the profiles Unison breaks a rule. If no two
/// of the readings have the same two roots, either, no two of the profiles clash in Unison, however the run of each matches paths by
/// the texts of its lines, and no two different roots of them are nested.
pub fn safe_readings_are_safe_in_unison()
    ensures safe { (Ws : List Written) (Cs : List Parts) (Rs : List Rule)
        → AreReadForUnison Ws Rs Cs → IsSafe Cs (map forbidden Rs) → ShareNoArchive Cs
        → IsSafeInUnison Ws }
    ensures kept { (Ws : List Written) (Cs : List Parts) (Rs : List Rule)
        → AreReadForUnison Ws Rs Cs → IsSafe Cs (map forbidden Rs) → KeepsRulesInUnison Ws Rs }
{}

/// What Unison matches by a line for certain, hubsync matches, and what hubsync matches, Unison may match. So hubsync's reading of
/// lines is one of those that Unison may have.
#[tactic(auto, using(crate::specs::laws::Pattern::line_matches_is_matching))]
pub fn hubsync_matches_as_unison_may()
    ensures { IsMatching line_matches }
{}

/// A specification is read from its own text, if its written pattern has at most `PATTERN_CHARACTERS` characters. So a reading
/// keeps its line, if that is plain.
pub fn short_specifications_are_read_back()
    ensures { (s : Specification) → IsReadable s
        → length (pattern_text s.pattern) ≤ PATTERN_CHARACTERS → is_read_back s ≡ true }
{
    readable_specifications_are_read_back();
}

/// What hubsync reads of a profile's bytes is spelled by the lines in these that set `ignore`, `ignorenot`, `nodeletionpartial`,
/// `noupdatepartial` and `nocreationpartial`, one by one.
pub fn profiles_are_written_in_their_lines()
    ensures { (name : Name) (bytes : List ℕ) (P : Parts) → profile_in name bytes ≡ Ok P
        → IsWrittenAs (written_of P bytes) P }
{}

/// If no pair is shared, no two of the profiles have the same two roots.
pub fn no_shared_pair_shares_no_archive()
    ensures { (Ps : List Parts) → shared_pairs Ps ≡ [] → ShareNoArchive Ps }
{}

/// A line that only ignores more never makes a reading wider: with one more `ignore` line, wherever it stands among the
/// others, the reading of a profile reaches and writes only what it did without. That holds of each line for which no
/// `ignorenot` line is made: it is kept alone, or left out. A line with spares, as `Name *.tmp`, is outside this law, since
/// its `ignorenot` line for `.tmp` holds for all `ignore` lines.
pub fn ignoring_more_reaches_less()
    ensures { (Rs : List Rule) (P : Parts) (before after : List Specification) (s : Specification)
        → spare_lines (line_kept s) ≡ []
        → IsNoWider (reading_of Rs (with_ignored P (before ++ after)))
        (reading_of Rs (with_ignored P (before ++ s ∷ after))) }
{}
