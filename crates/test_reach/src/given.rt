//! The fields of questions: profiles, and alphabets that mention them.
ghost use Rattle.std.specs.Prelude.{IfOk};
ghost use Rattle.hub_reach.specs.Mention.{Mentions};

use anyhow::Result;
use hub_automaton::{Alphabet, Class};
use hub_path::{Name, RelPath};
use hub_profile::{Profile, read_profile};
use hub_reach::mention;
use std::alloc::{AllocError, Global};

/// Reads the profile over the roots `/srv/hub` and `/srv/s1` of these lines, with `; ` between them.
pub(crate) fn profile_of(alloc: Global, lines: &str) -> Result<Box<Profile>> {
    read(alloc, profile_text(alloc, "", lines)?.as_str())
}

/// Reads the profile that ignores what these specifications match, with `; ` between them.
pub(crate) fn profile_ignoring(alloc: Global, specs: &str) -> Result<Box<Profile>> {
    read(alloc, profile_text(alloc, "ignore = ", specs)?.as_str())
}

/// The text of the profile with these lines, each with this before it.
fn profile_text(alloc: Global, before: &str, lines: &str) -> Result<String, AllocError> {
    let mut text = String::from_str(alloc, "root = /srv/hub\nroot = /srv/s1\n")?;
    for line in lines.split("; ") {
        if !line.is_empty() {
            write!(text, "{before}{line}\n")?;
        }
    }
    Ok(text)
}

/// Reads the profile of a text. A fault becomes an error here, once for all questions.
fn read(alloc: Global, text: &str) -> Result<Box<Profile>> {
    let name = Name::read(alloc, "p")?;
    let profile = read_profile(alloc, name, text.as_bytes())?;
    Ok(Box::new(alloc, profile)?)
}

/// Makes an alphabet that mentions the characters of a profile.
pub(crate) fn alphabet_of(alloc: Global, profile: &Profile) -> Result<Alphabet>
    ensures { IfOk result (λ a. Mentions a profile.now) }
{
    let mut alphabet = Alphabet::new(alloc)?;
    mention(&mut alphabet, profile)?;
    Ok(alphabet)
}

/// Makes an alphabet that mentions the characters of a path and a profile.
pub(crate) fn alphabet_with(alloc: Global, path: &str, profile: &Profile) -> Result<Alphabet>
    ensures { IfOk result (λ a. Mentions a profile.now) }
{
    let path = RelPath::read(alloc, path)?;
    let mut alphabet = Alphabet::new(alloc)?;
    alphabet.add_path(&path)?;
    mention(&mut alphabet, profile)?;
    Ok(alphabet)
}

/// The number of a class, or `none`.
pub(crate) fn class_text(alloc: Global, class: Option<Class>) -> Result<String, AllocError> {
    match class {
        Some(class) => format!(in alloc; "{}", class.number()),
        None => String::from_str(alloc, "none"),
    }
}
