//! Answers questions about alphabets, automata and profiles. `stdin` has the questions with their answers, which were worked out
//! by hand from the rules; so the program is a test of `hub_automaton` and `hub_reach`.
//!
//! Each line of standard input is a case, as `test_kit` says. `stdin` says what each word asks for. The answer is what
//! the crates say.
#![tactic(auto)]

mod allowed;
mod alphabets;
mod automata;
mod automaton;
mod given;
mod numbers;
mod paths;
mod reached;
mod stages;
mod verbs;
mod walkers;

use crate::walkers::Way;
use anyhow::{Result, bail};
use std::alloc::Global;
use test_kit::answer_questions;

fn main(rt: HostRuntime) -> Result<()> {
    answer_questions(&rt, answer)
}

/// Answers a question about alphabets or automata, or about a profile.
fn answer(alloc: Global, word: &str, fields: &str) -> Result<String> {
    match word {
        "samples" => alphabets::samples(alloc, fields),
        "class" => alphabets::class(alloc, fields),
        "mentioned" => alphabets::mentioned(alloc, fields),
        "walk" => automata::walk(alloc, fields),
        "walk-in-place" => automata::walk_in_place(alloc, fields),
        "kept" => automata::kept(alloc, fields),
        "start" => automata::start(alloc, fields),
        "range" => automata::range(alloc, fields),
        "path" => paths::path(alloc, fields),
        "paths" => paths::paths(alloc, fields),
        "specs" => paths::specs(alloc, fields),
        "states" => stages::states(alloc, fields),
        _ => answer_on_profile(alloc, word, fields),
    }
}

/// Answers a question about a profile.
fn answer_on_profile(alloc: Global, word: &str, fields: &str) -> Result<String> {
    match word {
        "reaches" => reached::reaches(alloc, fields),
        "reaches-top" => reached::reaches_top(alloc, fields),
        "may" => verbs::may_change(alloc, fields),
        "writes" => verbs::is_written(alloc, fields),
        "may-at" => verbs::may_change_at(alloc, fields),
        "writes-at" => verbs::is_written_at(alloc, fields),
        "allowed" => allowed::allowed(alloc, fields),
        "fronts" => walkers::fronts(alloc, fields, Way::Anew),
        "fronts-in-place" => walkers::fronts(alloc, fields, Way::InPlace),
        "walker" => walkers::walker(alloc, fields),
        "stages" => stages::stages(alloc, fields),
        "open" => stages::distinguishing_classes(alloc, fields),
        _ => bail!("no question has this word"),
    }
}
