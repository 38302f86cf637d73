//! The known word that is nearest to one that isn't known.
ghost use Rattle.std.specs.Prelude.{◌≡◌, ◌<◌, Ok, None, IfOk, IfSome, length};
ghost use Rattle.hub_source.specs.Saying as saying;

use std::alloc::{AllocError, Global};
use strsim::osa_distance;

/// How many edits lead to a word that was meant, at most.
const EDITS: usize = 2;

/// How long a word may be, in bytes, for which a nearer one is sought.
const WORD_BYTES: usize = 40;

/// The word that is nearest to this one, if a third of its letters or fewer are wrong.
pub fn nearest<'a>(
    alloc: Global,
    word: &str,
    known: &[&'a str],
) -> Result<Option<&'a str>, AllocError>
    ensures known { IfOk result (λ r. IfSome r (λ w. saying.IsAmong known.now w)) }
    ensures long { WORD_BYTES < length word.now → result ≡ Ok None }
{
    if word.len() > WORD_BYTES {
        return Ok(None);
    }
    let mut best = None;
    let mut least = (word.len() / 3).min(EDITS).saturating_add(1);
    for name in known {
        let edits = osa_distance(alloc, word, *name)?;
        if edits < least {
            least = edits;
            best = Some(*name);
        }
    }
    Ok(best)
}
