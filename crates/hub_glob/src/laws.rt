//! Laws of patterns.
ghost use Rattle.std.specs.Prelude.{◌≡◌, ℕ, Bool, true, List, Ok};
ghost use Rattle.std.specs.Str.{all_scalars};
ghost use Rattle.hub_glob.specs.Glob.{glob, any_choice_matches};
ghost use Rattle.hub_glob.specs.Readable.{IsReadable, ReadsBack};
ghost use Rattle.hub_glob.specs.Reading.{spec_reading};
ghost use Rattle.hub_glob.specs.Specification.{Specification};
ghost use Rattle.hub_glob.specs.Writing.{spec_text};
ghost use Rattle.hub_glob.specs.declared.piece.Part.{Part};

use crate::path_spec::PathSpec;
use crate::piece::PATTERN_CHARACTERS;

/// A text matches a pattern exactly when it matches one of the pattern's choices.
#[tactic(auto, using(crate::specs::laws::Choice::glob_choices))]
pub fn choices_are_enough()
    ensures { (ps : List Part) (first : Bool) (t : List ℕ)
        → glob ps first t ≡ any_choice_matches ps first t }
{}

/// Every specification is read from its own text, if its written pattern has at most `PATTERN_CHARACTERS` characters.
///
/// A pattern may be written longer than it was read: the set `[a-c]` is written `[abc]`.
#[tactic(auto, using(crate::proofs::Roundtrip::reading_undoes_writing))]
pub fn reading_undoes_writing(spec: &PathSpec)
    ensures { ReadsBack spec.now (spec_text spec.now) }
{
    spec.is_readable();
}

/// The same for the values that contracts see.
#[tactic(auto, using(crate::proofs::Roundtrip::reading_undoes_writing))]
pub fn readable_specifications_are_read_back()
    ensures { (s : Specification) → IsReadable s → ReadsBack s (spec_text s) }
{}

/// Each specification that a text gives is readable.
pub fn read_specifications_are_readable()
    ensures { (t : List ℕ) (s : Specification) → all_scalars t ≡ true → spec_reading t
        ≡ Ok s → IsReadable s }
{}
