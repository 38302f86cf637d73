//! The characters that profiles mention.
ghost use Rattle.std.specs.Prelude.{◌≡◌, IfErr, OnOk, OnErr};
ghost use Rattle.hub_automaton.specs.Alphabet.{with_characters, RefusesCharacters};
ghost use Rattle.hub_reach.specs.Mention.{Mentions, mentioned_by, IsPartly, StillMentions};

use crate::mentioning::mention_each;
use hub_automaton::laws::what_is_added_is_mentioned;
use hub_automaton::{Alphabet, AutomatonFault};
use hub_profile::Profile;

/// Adds the characters of a profile's kept values and patterns to an alphabet, as its walker requires.
///
/// The fault is `TooManyCharacters` if more than `MENTIONED_CHARACTERS` would be mentioned then, or `OutOfMemory`. After
/// either some of the characters may have been added: those of the kept values first, then those of `ignore`, of `ignorenot`
/// and of the partial bars.
pub fn mention(alphabet: &mut Alphabet, profile: &Profile) -> Result<(), AutomatonFault>
    ensures ok { OnOk result (alphabet.new
        ≡ with_characters alphabet.old (mentioned_by profile.now)) }
    ensures mentioned { OnOk result (Mentions alphabet.new profile.now) }
    ensures kept { OnOk result (StillMentions alphabet.old alphabet.new) }
    ensures err { IfErr result (RefusesCharacters alphabet.old (mentioned_by profile.now)) }
    ensures partly { OnErr result (IsPartly alphabet.old (mentioned_by profile.now) alphabet.new) }
{
    what_is_added_is_mentioned();
    mention_each(alphabet, profile.paths())?;
    mention_each(alphabet, profile.ignore())?;
    mention_each(alphabet, profile.ignorenot())?;
    mention_each(alphabet, profile.partial())?;
    Ok(())
}
