//! What becomes of two replicas and their archive: the items, the changes, and the new archive.
//!
//! The fields are the lines of the profile after its two roots, what is seen on the left and on the right, and what the
//! archive has; each may be `none`. What is seen is a list of paths with their marks: `d` is a directory, `o` one with
//! children that aren't reached, `-` nothing, and a number a file whose digest has that byte 32 times.

use anyhow::{Result, bail, ensure};
use hub_path::{Name, RelPath, Side};
use hub_profile::{Profile, read_profile};
use hub_reconcile::{Change, Fate, Item, Look, Picture, are_rising, items, next_archive, plan};
use hub_tree::{Archive, Mark};
use std::alloc::Global;
use test_kit::{cut, list_text};

/// What is seen at a path.
#[derive(Drop)]
struct Seen {
    path: RelPath,
    mark: Mark,
    others: bool,
}

/// The items, the changes and the new archive.
pub(crate) fn answer(alloc: Global, fields: &str) -> Result<String> {
    let parts: Vec<&str> = fields.split(" | ").collect(alloc)?;
    match *parts.as_slice() {
        [lines, left, right, old] => answer_by(alloc, lines, [left, right, old]),
        _ => bail!("not four fields"),
    }
}

fn answer_by(alloc: Global, lines: &str, fields: [&str; 3]) -> Result<String> {
    let profile = profile_of(alloc, lines)?;
    answer_with(alloc, &profile, fields)
}

fn answer_with(alloc: Global, profile: &Profile, [left, right, old]: [&str; 3]) -> Result<String> {
    let archive = archive_of(alloc, old)?;
    answer_from(alloc, profile, &archive, left, right)
}

fn answer_from(
    alloc: Global,
    profile: &Profile,
    archive: &Archive,
    left: &str,
    right: &str,
) -> Result<String> {
    let left = all_seen(alloc, left)?;
    let right = all_seen(alloc, right)?;
    answer_to_seen(alloc, profile, archive, left.as_slice(), right.as_slice())
}

fn answer_to_seen(
    alloc: Global,
    profile: &Profile,
    archive: &Archive,
    left: &[Seen],
    right: &[Seen],
) -> Result<String> {
    let left = looks_of(alloc, left)?;
    let right = looks_of(alloc, right)?;
    ensure!(
        are_rising(left.as_slice()),
        "the paths on the left are not in order"
    );
    ensure!(
        are_rising(right.as_slice()),
        "the paths on the right are not in order"
    );
    let picture = Picture::new(profile, left.as_slice(), right.as_slice(), archive);
    outcome(alloc, &picture)
}

/// The profile with these lines after its two roots.
fn profile_of(alloc: Global, field: &str) -> Result<Profile> {
    let lines = if field == "none" { "" } else { field };
    let text = format!(in alloc; "root = /srv/hub\nroot = /srv/s1\n{lines}")?;
    Ok(read_profile(alloc, Name::read(alloc, "p")?, text.as_bytes())?)
}

/// All that is seen, in its order.
fn all_seen(alloc: Global, field: &str) -> Result<Vec<Seen>> {
    let mut all = Vec::new(alloc);
    if field == "none" {
        return Ok(all);
    }
    for part in field.split(", ") {
        all.push(one_seen(alloc, part)?)?;
    }
    Ok(all)
}

/// A path with its mark.
fn one_seen(alloc: Global, part: &str) -> Result<Seen> {
    let (path, mark) = cut(part);
    Ok(Seen {
        path: RelPath::read(alloc, path)?,
        mark: mark_of(mark)?,
        others: mark == "o",
    })
}

fn mark_of(word: &str) -> Result<Mark> {
    match word {
        "d" | "o" => Ok(Mark::Directory),
        "-" => Ok(Mark::Absent),
        _ => Ok(Mark::File([word.parse::<u8>()?; 32])),
    }
}

fn mark_text(alloc: Global, mark: Mark) -> Result<String> {
    match mark {
        Mark::Directory => Ok(String::from_str(alloc, "d")?),
        Mark::Absent => Ok(String::from_str(alloc, "-")?),
        Mark::File(digest) => Ok(format!(in alloc; "{}", digest[0])?),
    }
}

/// The archive with the marks of this field.
fn archive_of(alloc: Global, field: &str) -> Result<Archive> {
    let all = all_seen(alloc, field)?;
    let mut archive = Archive::new(alloc);
    set_all(&mut archive, all.as_slice())?;
    Ok(archive)
}

fn set_all(archive: &mut Archive, all: &[Seen]) -> Result<()> {
    for seen in all {
        if seen.path.len() > 0 {
            archive.set(&seen.path, seen.mark)?;
        }
    }
    Ok(())
}

/// The Looks of what is seen.
fn looks_of<'a>(alloc: Global, all: &'a [Seen]) -> Result<Vec<Look<'a>>> {
    let mut looks = Vec::new(alloc);
    for seen in all {
        looks.push(Look {
            path: &seen.path,
            mark: seen.mark,
            names: &[],
            others: seen.others,
        })?;
    }
    Ok(looks)
}

/// What becomes of it.
fn outcome(alloc: Global, picture: &Picture<'_>) -> Result<String> {
    let items = items_text(alloc, picture)?;
    let changes = changes_text(alloc, picture)?;
    let archive = archive_text(alloc, picture)?;
    Ok(format!(in alloc; "{items} | {changes} | {archive}")?)
}

fn root_of(side: Side) -> &'static str {
    match side {
        Side::Left => "/srv/hub",
        Side::Right => "/srv/s1",
    }
}

fn items_text(alloc: Global, picture: &Picture<'_>) -> Result<String> {
    let mut parts = Vec::new(alloc);
    for item in items(alloc, picture)?.as_slice() {
        parts.push(item_text(alloc, item)?)?;
    }
    list_text(alloc, parts.as_slice())
}

fn item_text(alloc: Global, item: &Item) -> Result<String> {
    let path = item.path.text()?;
    match item.fate {
        Fate::To(side) => Ok(format!(in alloc; "to {} {path}", root_of(side))?),
        Fate::Skip(reason) => Ok(format!(in alloc; "skip {reason:?} {path}")?),
    }
}

fn changes_text(alloc: Global, picture: &Picture<'_>) -> Result<String> {
    let mut parts = Vec::new(alloc);
    for change in plan(alloc, picture)?.as_slice() {
        parts.push(change_text(alloc, change)?)?;
    }
    list_text(alloc, parts.as_slice())
}

fn change_text(alloc: Global, change: &Change) -> Result<String> {
    let path = change.path.text()?;
    let mark = mark_text(alloc, change.mark)?;
    Ok(format!(in alloc; "{} {path} {mark}", root_of(change.side))?)
}

fn archive_text(alloc: Global, picture: &Picture<'_>) -> Result<String> {
    let archive = next_archive(alloc, picture)?;
    marks_text(alloc, &archive)
}

fn marks_text(alloc: Global, archive: &Archive) -> Result<String> {
    let mut parts = Vec::new(alloc);
    for path in archive.paths()?.as_slice() {
        parts.push(entry_text(alloc, archive, path)?)?;
    }
    list_text(alloc, parts.as_slice())
}

fn entry_text(alloc: Global, archive: &Archive, path: &RelPath) -> Result<String> {
    let mark = mark_text(alloc, archive.mark_at(path))?;
    Ok(format!(in alloc; "{} {mark}", path.text()?)?)
}
