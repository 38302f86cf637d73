//! What of an input is known.

use hub_source::Source;

/// The first bytes of an input.
#[derive(Clone, Copy)]
pub struct FirstBytes<'a> {
    /// The bytes.
    pub bytes: &'a [u8],
    /// Whether these are all of its bytes.
    pub is_whole: bool,
}

/// The section of the first profile of that name.
pub(crate) fn profile_section(source: &Source<'_>, name: &str) -> Option<usize> {
    for line in source.lines() {
        if line.profile() == Some(name) {
            return Some(line.section);
        }
    }
    None
}
