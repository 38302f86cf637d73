//! Where the lines of a profile come from.

use hub_include::FileLine;
use std::alloc::{AllocError, Global};

/// The files that the lines of a profile come from, for remarks. No contract says of it what it gives.
#[derive(Debug, Drop)]
pub struct Origins {
    /// Their paths.
    paths: Vec<String>,
    lines: Vec<Origin>,
}

/// Where a line comes from.
#[derive(Clone, Copy, Debug)]
struct Origin {
    /// The number of its file's path, from 0 on.
    file: usize,
    /// Its number there, from 1 on.
    number: usize,
}

impl Origins {
    /// The origins of these lines, whose files are in the folder of this path.
    pub(crate) fn of(
        alloc: Global,
        place: &str,
        lines: &[FileLine<&str, &[u8]>],
    ) -> Result<Origins, AllocError> {
        let mut names: Vec<&str> = Vec::new(alloc);
        let mut origins = Vec::new(alloc);
        for line in lines {
            let file = number_of(&mut names, line.file)?;
            let number = line.number;
            origins.push(Origin { file, number })?;
        }
        Ok(Origins {
            paths: paths_of(alloc, place, names.as_slice())?,
            lines: origins,
        })
    }

    /// How many lines there are.
    pub fn len(&self) -> usize {
        self.lines.len()
    }

    /// The path of the file of a line, whose number is from 0 on, and the line's number there, from 1 on.
    pub fn line(&self, at: usize) -> Option<(&str, usize)> {
        let origin = self.lines.get(at)?;
        let path = self.paths.get(origin.file)?;
        Some((path.as_str(), origin.number))
    }
}

/// The number of a name among those that are known. It becomes one of them.
fn number_of<'a>(names: &mut Vec<&'a str>, name: &'a str) -> Result<usize, AllocError> {
    if let Some(at) = names.iter().rposition(|known| *known == name) {
        return Ok(at);
    }
    names.push(name)?;
    Ok(names.len().saturating_sub(1))
}

/// The paths of files of these names.
fn paths_of(alloc: Global, place: &str, names: &[&str]) -> Result<Vec<String>, AllocError> {
    let mut paths = Vec::new(alloc);
    for name in names {
        paths.push(format!(in alloc; "{place}{name}")?)?;
    }
    Ok(paths)
}
