//! The sets of questions.
use anyhow::Result;
use hub_folded::Member;
use hub_path::Name;
use hub_profile::{Profile, read_profile};
use hub_text::Items;
use std::alloc::{AllocError, Global};

/// The profile of these lines, with `; ` between them, and another one, and whether the names of their hosts fold.
pub(crate) fn members_of(
    alloc: Global,
    lines: &str,
    folds: bool,
    other_folds: bool,
) -> Result<Items<Member>> {
    let mut members = Items::new(alloc);
    members.push(Member {
        folds,
        parts: profile_of(alloc, "p", lines)?,
    })?;
    members.push(Member {
        folds: other_folds,
        parts: profile_of(alloc, "q", "path = Q")?,
    })?;
    Ok(members)
}

/// Reads the profile of that name, over the roots `/srv/hub` and `/srv/s1`, of these lines.
fn profile_of(alloc: Global, name: &str, lines: &str) -> Result<Profile> {
    let name = Name::read(alloc, name)?;
    let text = profile_text(alloc, lines)?;
    Ok(read_profile(alloc, name, text.as_bytes())?)
}

fn profile_text(alloc: Global, lines: &str) -> Result<String, AllocError> {
    let lines = lines.replace(alloc, "; ", "\n")?;
    format!(in alloc; "root = /srv/hub\nroot = /srv/s1\n{lines}\n")
}
