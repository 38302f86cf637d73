//! What remarks say of files: where their lines come from, and how their profiles have the roots.

use crate::files::Held;
use hub_folder::Origins;
use hub_hosts::{Hosts, root_of};
use hub_source::{LineOrigin, SourceFile, WrittenRoot};
use hub_text::Lines;
use std::alloc::{AllocError, Global};

/// A root on another machine, in whose place a section has a path.
#[derive(Drop)]
pub struct HeldRoot {
    /// The path.
    path: Vec<u8>,
    /// The value of the profile's line for the root.
    written: Vec<u8>,
}

impl HeldRoot {
    /// The path.
    pub fn path(&self) -> &[u8] {
        self.path.as_slice()
    }
}

/// The roots of this text of a profile, maybe of a machine, that have paths in their place by a table of hosts.
pub fn roots_in(
    alloc: Global,
    text: &[u8],
    machine: Option<&str>,
    hosts: Option<&Hosts>,
) -> Result<Vec<HeldRoot>, AllocError> {
    let mut roots = Vec::new(alloc);
    let Some(hosts) = hosts else {
        return Ok(roots);
    };
    for line in Lines::new(text) {
        if let Some(root) = root_of(line.text) {
            push_root(alloc, &mut roots, root, machine, hosts)?;
        }
    }
    Ok(roots)
}

/// Adds a root, if a path stands in its place.
fn push_root(
    alloc: Global,
    roots: &mut Vec<HeldRoot>,
    root: &[u8],
    machine: Option<&str>,
    hosts: &Hosts,
) -> Result<(), AllocError> {
    if let Some(path) = hosts.path_of(alloc, machine, root)? {
        roots.push(HeldRoot {
            path,
            written: Vec::from_slice(alloc, root)?,
        })?;
    }
    Ok(())
}

/// The roots of each of these files.
pub fn written_roots<'a>(
    alloc: Global,
    held: &'a [Held<'a>],
) -> Result<Vec<Vec<WrittenRoot<'a>>>, AllocError> {
    let mut all = Vec::new(alloc);
    for one in held {
        all.push(written_in(alloc, one.roots.as_slice())?)?;
    }
    Ok(all)
}

/// These roots, as remarks take them.
fn written_in<'a>(
    alloc: Global,
    roots: &'a [HeldRoot],
) -> Result<Vec<WrittenRoot<'a>>, AllocError> {
    let mut written = Vec::new(alloc);
    for root in roots {
        written.push(WrittenRoot {
            path: root.path.as_slice(),
            written: root.written.as_slice(),
        })?;
    }
    Ok(written)
}

/// The files, as remarks name their lines and roots.
pub fn source_files<'a, 'h: 'a>(
    alloc: Global,
    held: &'h [Held<'h>],
    roots: &'a [Vec<WrittenRoot<'h>>],
) -> Result<Vec<SourceFile<'a>>, AllocError> {
    let mut files = Vec::new(alloc);
    for (one, roots) in held.iter().zip(roots.iter()) {
        let path = Some(one.file.as_str());
        let origins = match &one.origins {
            Some(origins) => line_origins(alloc, origins)?,
            None => Vec::new(alloc),
        };
        files.push(SourceFile {
            path,
            origins,
            roots: roots.as_slice(),
        })?;
    }
    Ok(files)
}

/// The same of sections that have folded lines in the place of those of these files: their roots alone.
pub fn roots_alone<'a>(
    alloc: Global,
    files: &[SourceFile<'a>],
) -> Result<Vec<SourceFile<'a>>, AllocError> {
    let mut sections = Vec::new(alloc);
    for file in files {
        sections.push(SourceFile {
            path: None,
            origins: Vec::new(alloc),
            roots: file.roots,
        })?;
    }
    Ok(sections)
}

/// Where each of these lines comes from.
fn line_origins<'a>(
    alloc: Global,
    origins: &'a Origins,
) -> Result<Vec<LineOrigin<'a>>, AllocError> {
    let mut lines = Vec::new(alloc);
    for at in 0..origins.len() {
        if let Some((path, number)) = origins.line(at) {
            lines.push(LineOrigin { path, number })?;
        }
    }
    Ok(lines)
}
