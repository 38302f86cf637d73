//! Two profiles that share an archive of Unison: the lines that say so, and the answer.
ghost use Rattle.std.specs.Prelude.{◌≡◌, IfOk, None, OnOk, string_bytes};
ghost use Rattle.hub_report.specs.Archive as lines;
ghost use Rattle.hub_report.specs.Refusal.{OfWriter};
ghost use Rattle.hub_report.specs.Report as report;
ghost use Rattle.hub_report.specs.Texts.{Gains};

use crate::parts::joined;
use crate::refusal::name_at;
use crate::report::Report;
use crate::told::Refusal;
use hub_profile::Profile;
use std::alloc::{AllocError, Global};

impl<'a> Report<'a> {
    /// The answer that two profiles of these numbers share an archive, so that two runs of Unison at once would spoil it (observed
    /// with Unison 2.52.1).
    pub fn same_archive(alloc: Global, profiles: &[Profile], numbers: (usize, usize)) -> Report<'a>
        ensures line { report.TellsArchive profiles.now numbers result }
        ensures read { report.unread_by result ≡ None }
    {
        match archive_line(alloc, profiles, numbers) {
            Ok(line) => Report::SameArchive(line, Refusal::of_archive(numbers)),
            Err(AllocError) => Report::OutOfMemory,
        }
    }
}

/// Adds the line of each two profiles of these numbers, which share an archive.
pub(crate) fn push_archives(
    alloc: Global,
    text: &mut String,
    profiles: &[Profile],
    archives: &[(usize, usize)],
) -> Result<(), AllocError>
    ensures { OnOk result (Gains text.old text.new
        (lines.archive_lines profiles.now archives.now)) }
{
    for archive in archives {
        push_line(alloc, text, profiles, *archive)?;
    }
    Ok(())
}

/// Adds the line of two profiles of these numbers.
fn push_line(
    alloc: Global,
    text: &mut String,
    profiles: &[Profile],
    numbers: (usize, usize),
) -> Result<(), AllocError>
    ensures { OnOk result (Gains text.old text.new (lines.archive_line profiles.now numbers)) }
{
    let line = archive_line(alloc, profiles, numbers)?;
    text.push_str(line.as_str())
}

/// The line of two profiles of these numbers, which share an archive. It ends with LF.
pub fn archive_line(
    alloc: Global,
    profiles: &[Profile],
    numbers: (usize, usize),
) -> Result<String, AllocError>
    ensures { IfOk result (λ t. string_bytes t ≡ lines.archive_line profiles.now numbers) }
{
    line_of_two(alloc, profiles, numbers.0, numbers.1)
}

/// The line of the first and the second of two profiles.
fn line_of_two(
    alloc: Global,
    profiles: &[Profile],
    first: usize,
    second: usize,
) -> Result<String, AllocError>
    ensures { IfOk result (λ t. string_bytes t ≡ lines.line_of_two profiles.now first second) }
{
    let roots = roots_text(alloc, profiles.get(first))?;
    let parts = [
        "same archive: ",
        name_at(profiles, first),
        " and ",
        name_at(profiles, second),
        roots.as_str(),
    ];
    joined(alloc, &parts)
}

/// The end of the line, with the two roots of a profile, or nothing if there is none.
fn roots_text(alloc: Global, profile: Option<&Profile>) -> Result<String, AllocError>
    ensures { OfWriter profile.entry
        (λ P. IfOk result (λ t. string_bytes t ≡ lines.roots_text_of P)) }
{
    let Some(profile) = profile else {
        return Ok(String::new(alloc));
    };
    let roots = profile.roots();
    joined_roots(alloc, roots[0].as_str(), roots[1].as_str())
}

/// The end of the line, with these roots.
fn joined_roots(alloc: Global, left: &str, right: &str) -> Result<String, AllocError>
    ensures { IfOk result (λ t. string_bytes t ≡ lines.joined_roots left.now right.now) }
{
    joined(alloc, &[" have the roots ", left, " and ", right, "\n"])
}
