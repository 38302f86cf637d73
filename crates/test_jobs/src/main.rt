//! Answers questions about replicas, archives, state texts, reconciliation, jobs and schedules. `stdin` has the questions with their
//! answers, which were worked out by hand from the rules; so the program is a test of `hub_tree`, `hub_state`, `hub_reconcile`,
//! `hub_job` and `hub_schedule`.
//!
//! The questions are written as `test_kit` says. A line of the input gives something to the questions below it, or it is a question.
//!
//! These lines give something (`given`):
//!
//! - `case` takes all away that was given.
//! - `profile NAME ROOT LINES` gives one more profile. Its roots are `/srv/hub` and this one. Its further lines are separated by
//!   `; `.
//! - `hubsync state 1` begins a state text, in place of the one before. Its other lines follow.
//! - `at ROOT` gives an empty replica of this root, in place of the one before. At first that is one of `/srv/hub`.
//!
//! These questions need nothing that is given. A LINE and a TEXT may have escapes. STEPS are separated by `; `.
//!
//! - `line LINE`: what is read of a state text with this line, at each of five places, from the top of the text down to below
//!   its `end` (`states::PLACES`).
//! - `text TEXT`: the text of the state that a state text says, or the text's fault. It is read whole and in pieces.
//! - `reads TEXT`: how many reads a text takes that is there at once, whether it is that of a state or not.
//! - `failing_reader TEXT`: the same if a reader fails behind the text, and whether that was seen.
//! - `failing_writer COUNT TEXT`: what comes of writing a state if the writer fails after so many writes.
//! - `state STEPS`: steps of a state (`sections`).
//! - `blob TEXT`: the digest of the bytes of a file, that of its copy, and the bytes.
//! - `tree STEPS`: steps of a replica and a second one (`trees`).
//! - `levels COUNT NAME`: what is seen as a replica gets a directory below the last one, again and again (`levels`).
//! - `marks STEPS`: steps of an archive and a second one (`archives`).
//! - `reconcile LINES | LEFT | RIGHT | OLD`: the items, the changes and the new archive (`reconciliation`).
//!
//! These are about what is given:
//!
//! - `look PATH`, `fetch PATH` and `set PATH CONTENTS`: what the replica answers to an operation of the first profile
//!   (`operations`).
//! - `job NUMBER STEPS`: what a job of the first profile does, and how it ends (`jobs`).
//! - `turns JOBS`, `cycles` and `sequence`: what the jobs of the profiles, a safe set, leave by a schedule (`schedules`).
//! - `schedules COUNT SEED`: whether they leave the same by random schedules (`random`).
//! - `overlapping JOBS`: what the jobs of profiles that overlap leave by a schedule.
#![tactic(auto)]

mod archives;
mod devices;
mod given;
mod jobs;
mod levels;
mod operations;
mod random;
mod reconciliation;
mod schedules;
mod sections;
mod shown;
mod states;
mod trees;

use anyhow::Result;
use given::Given;
use std::alloc::Global;
use test_kit::{Answers, answer_table};

fn main(rt: HostRuntime) -> Result<()> {
    let mut given = Given::new(rt.alloc())?;
    answer_table(&rt, &mut given)
}

impl Answers for Given {
    fn takes(&mut self, line: &str) -> Result<bool> {
        self.take_line(line)
    }

    fn answer(&mut self, alloc: Global, word: &str, fields: &str) -> Result<String> {
        match word {
            "line" => states::line_answer(alloc, fields),
            "text" => states::text_answer(alloc, fields),
            "reads" => states::reads_answer(alloc, fields),
            "failing_reader" => states::failing_reader_answer(alloc, fields),
            "failing_writer" => states::failing_writer_answer(alloc, fields),
            "state" => sections::answers(alloc, fields),
            "blob" => trees::blob_answer(alloc, fields),
            "tree" => trees::answers(alloc, fields),
            "levels" => levels::answer(alloc, fields),
            "marks" => archives::answers(alloc, fields),
            "reconcile" => reconciliation::answer(alloc, fields),
            "look" | "fetch" | "set" => operations::answer(self, word, fields),
            "job" => jobs::answer(&self.case, fields),
            _ => schedules::answer(&self.case, word, fields),
        }
    }
}
