//! Notes on profiles of machines that take names for one that differ in case.

use hub_source::{Said, Source, is_letter};

/// How many profiles are named at most.
const LISTED: usize = 5;

/// Says of which profiles a root is on Windows by its text, unless the answer is about folded names.
pub(crate) fn say_folded(out: &mut String, source: &Source<'_>) -> Said {
    if source.is_folded() {
        return Ok(());
    }
    let mut count = 0usize;
    for heading in source.profiles()? {
        if is_on_windows(source, heading.section) {
            if count < LISTED {
                let name = heading.profile().unwrap_or("");
                writeln!(
                    out,
                    "hubsync: note: {name}: Unison on Windows takes names that differ in case for one: this answer doesn't know that"
                )?;
            }
            count = count.saturating_add(1);
        }
    }
    match count.saturating_sub(LISTED) {
        0 => Ok(()),
        more => writeln!(out, "hubsync: note: more such profiles: {more}"),
    }
}

/// Returns whether a root of a profile is on Windows by its text.
fn is_on_windows(source: &Source<'_>, section: usize) -> bool {
    for line in source.section_lines(section) {
        if let Some(root) = line.value_of("root") {
            let written = source.root_written(section, root).unwrap_or(root);
            if is_of_windows(root) || is_of_windows(written) {
                return true;
            }
        }
    }
    false
}

/// Returns whether a root has the letter of a drive as a name, as `C:` and `C$`, or lies below `cygdrive`.
fn is_of_windows(root: &str) -> bool {
    root.split(['/', '\\'])
        .any(|name| name == "cygdrive" || is_drive(name))
}

/// Returns whether a name is the letter of a drive, or that of one that is shared.
fn is_drive(name: &str) -> bool {
    match name.strip_suffix([':', '$']) {
        Some(letter) => is_letter(letter),
        None => false,
    }
}
