//! The lines that say what jobs did.
ghost use Rattle.std.specs.Prelude.{◌≡◌, IfOk, OnOk, string_bytes};
ghost use Rattle.std.specs.List.{flat_map};
ghost use Rattle.hub_report.specs.Texts.{Gains};
ghost use Rattle.hub_report.specs.Jobs as lines;

use crate::parts::push_all;
use hub_job::{End, JobEnd};
use hub_path::{Root, Side};
use hub_profile::Profile;
use hub_reconcile::{Fate, Item, Reason};
use std::alloc::{AllocError, Global};

/// The lines of the jobs of these profiles, in their order: how each job ended, and below that what became of each of its
/// items.
pub fn lines_of_jobs(
    alloc: Global,
    profiles: &[Profile],
    jobs: &[JobEnd],
) -> Result<String, AllocError>
    ensures { IfOk result (λ t. string_bytes t ≡ lines.lines_of_jobs profiles.now jobs.now) }
{
    let mut text = String::new(alloc);
    for (profile, job) in profiles.iter().zip(jobs) {
        push_job(&mut text, profile, job)?;
    }
    Ok(text)
}

/// Adds the line of a job, and those of its items.
fn push_job(text: &mut String, profile: &Profile, job: &JobEnd) -> Result<(), AllocError>
    ensures { OnOk result (Gains text.old text.new (lines.job_lines profile.now job.now)) }
{
    let end = end_text(job.end);
    push_all(text, &["job ", profile.name().text(), " ", end, "\n"])?;
    push_items(text, profile.roots(), job.items.as_slice())
}

/// Adds the lines of items.
fn push_items(text: &mut String, roots: &[Root; 2], items: &[Item]) -> Result<(), AllocError>
    ensures { OnOk result (Gains text.old text.new
        (flat_map (lines.item_line roots.now) items.now)) }
{
    for item in items {
        push_item(text, roots, item)?;
    }
    Ok(())
}

/// Adds the line of an item.
fn push_item(text: &mut String, roots: &[Root; 2], item: &Item) -> Result<(), AllocError>
    ensures { OnOk result (Gains text.old text.new (lines.item_line roots.now item.now)) }
{
    let path = item.path.as_str();
    match item.fate {
        Fate::To(Side::Left) => push_all(text, &["to ", roots[0].as_str(), " ", path, "\n"]),
        Fate::To(Side::Right) => push_all(text, &["to ", roots[1].as_str(), " ", path, "\n"]),
        Fate::Skip(reason) => push_all(text, &["skip ", reason_text(reason), " ", path, "\n"]),
    }
}

/// How a job ended, in a word.
fn end_text<'a>(end: End) -> &'a str
    ensures { result.now ≡ lines.end_text end }
{
    match end {
        End::Finished => "finished",
        End::Stopped | End::Unfinished => "stopped",
    }
}

/// Why an item was skipped, in a word.
fn reason_text<'a>(reason: Reason) -> &'a str
    ensures { result.now ≡ lines.reason_text reason }
{
    match reason {
        Reason::Conflict => "Conflict",
        Reason::Barred => "Barred",
        Reason::Blocked => "Blocked",
        Reason::NoParent => "NoParent",
    }
}
