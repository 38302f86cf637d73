//! Changes to books and jobs before they are settled. They are separated by `; `:
//!
//! - `look JOB ROOT PATH`: a Look is stepped in the job's name that its log doesn't have.
//! - `no ROOT`: the root has no book. `twice ROOT`: it has a second book, with no entries.
//! - `bare ROOT`: its book opens with an empty replica.
//! - `other ROOT`: its book was made for the first profile alone.
//! - `drop JOB`: the job isn't there. `double JOB NUMBER`: there is a second job with the profile of the first number, and
//!   the second number.
//! - `archive JOB`: the job was made with an archive that has the file `a`.
//! - `stop JOB STEPS`: the job is stopped after so many steps. `leave JOB STEPS`: it isn't stepped any more.

use anyhow::{Context, Result};
use test_kit::cut;

/// A list of changes.
#[derive(Clone, Copy)]
pub(crate) struct Changes<'t> {
    text: &'t str,
}

impl<'t> Changes<'t> {
    pub(crate) fn new(text: &'t str) -> Changes<'t> {
        Changes { text }
    }

    /// Returns whether there is this change to the root or the job.
    pub(crate) fn has(&self, word: &str, to: &str) -> bool {
        self.field(word, to).is_some()
    }

    /// What follows a change to the root or the job, if there is one.
    pub(crate) fn field(&self, word: &str, to: &str) -> Option<&'t str> {
        for change in self.text.split("; ") {
            let (first, fields) = cut(change);
            let (second, rest) = cut(fields);
            if first == word && second == to {
                return Some(rest);
            }
        }
        None
    }

    /// The number behind a change to the job, if there is one.
    pub(crate) fn number(&self, word: &str, job: &str) -> Result<Option<usize>> {
        match self.field(word, job) {
            Some(field) => Ok(Some(field.parse::<usize>().context("no number")?)),
            None => Ok(None),
        }
    }
}
