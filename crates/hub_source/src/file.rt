//! The files that the sections of an input were made of.

/// Where a line of a section came from: the path of its file, and its number there, from 1 on.
#[derive(Clone, Copy)]
pub struct LineOrigin<'a> {
    /// The file's path.
    pub path: &'a str,
    /// The number.
    pub number: usize,
}

/// A root of a section, and how the profile has it that the section was made of.
#[derive(Clone, Copy)]
pub struct WrittenRoot<'a> {
    /// The root's text in the section.
    pub path: &'a [u8],
    /// The value of the profile's line for this root, by which Unison knows it. If it is empty, that is the text in the section.
    pub written: &'a [u8],
}

/// What a section of an input was made of.
#[derive(Drop)]
pub struct SourceFile<'a> {
    /// The path of the file, or none if the section has other lines than it: those that its lines fold to.
    pub path: Option<&'a str>,
    /// Where its lines came from, if not all of them are the file's own.
    pub origins: Vec<LineOrigin<'a>>,
    /// Its roots. If there are none, each root is written as the section has it.
    pub roots: &'a [WrittenRoot<'a>],
}

/// The path of the file that a line of a section came from, if the section was made of one, and the line's number there.
pub(crate) fn origin_of<'a>(
    files: &[SourceFile<'a>],
    section: usize,
    number: usize,
) -> (Option<&'a str>, usize) {
    let Some(file) = section.checked_sub(1).and_then(|at| files.get(at)) else {
        return (None, number);
    };
    match number.checked_sub(1).and_then(|at| file.origins.get(at)) {
        Some(origin) => (Some(origin.path), origin.number),
        None => (file.path, number),
    }
}
