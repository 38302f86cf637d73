//! Answers questions about texts, paths, patterns, profiles, sets of profiles, goals, certificates and searches. `stdin` has the
//! questions with their answers, which were worked out by hand from the rules; so the program is a test of `hub_text`, `hub_path`,
//! `hub_glob`, `hub_profile`, `hub_cert`, `hub_search`, `hub_rounds` and `hub_apart`. No proof depends on them.
//!
//! Each line of the input is a question, as `test_kit` says: a word and its fields.
//!
//! - `pattern`, `profile` and seven other words ask about one subject (`subjects`).
//! - `set SET`: what the set has, or why there is none (`sets` says how a set is written).
//! - `goals SET`: the goals of the set.
//! - `has GOAL | SET`: whether this is a goal of the set. A goal is written as in docs/CERTIFICATES.md.
//! - `walk GOAL | TEXT | SET`: where the goal's product is after a text (`products`). The text `-` is the empty one.
//! - `read TEXT`: what is written of the certificates that are read from the text, or its fault. The text has escapes.
//! - `write CERTIFICATES`: the text of certificates (`certificates` says how they are listed).
//! - `verify CERTIFICATES | SET`: what `verify` says of the set.
//! - `search GOAL | SET`: what a search for a goal finds (`searches`).
//! - `certificates SET`: the goals whose certificates are found, each with whether its own search finds the same texts.
//! - `check SET`: what `check` says of the set.
//! - `clashes SET`: what each goal of the set shows, if it isn't ruled out (`rounds`).
//! - `rounds SET`: the profiles of each round, then those that are in none, and how many rounds are needed.
//! - `numbers SET`: the numbers of the profiles of each round, by the lines of `clashes`, and the rest as of `rounds`.
//! - `pairs COUNT | PAIRS`: how many rounds so many numbers have, and how many are needed, if these pairs of them clash.
//! - `unison SET`: the lines of the profiles in Unison, by who writes; or why there are none.
//! - `apart SET`: the same as `rounds` where roots of profiles are nested; `not apart` if that isn't all that keeps these from being a set.
//!
//! A fault is shown as `faults` says. Tests in a table that is read cost no proof, as tests in code do.
#![tactic(auto)]

mod answers;
mod certificates;
mod devices;
mod faults;
mod goals;
mod lists;
mod names;
mod paths;
mod patterns;
mod products;
mod profiles;
mod roots;
mod rounds;
mod rules;
mod searches;
mod sets;
mod subjects;
mod texts;
mod verdicts;
mod words;

use anyhow::Result;
use std::alloc::Global;
use test_kit::answer_questions;

fn main(rt: HostRuntime) -> Result<()> {
    answer_questions(&rt, answer)
}

/// Answers a question.
fn answer(alloc: Global, word: &str, fields: &str) -> Result<String> {
    match word {
        "set" => sets::set_answer(alloc, fields),
        "goals" => goals::goals_answer(alloc, fields),
        "has" => goals::has_answer(alloc, fields),
        "walk" => products::walk_answer(alloc, fields),
        "read" => certificates::read_answer(alloc, fields),
        "write" => certificates::write_answer(alloc, fields),
        "verify" => verdicts::verify_answer(alloc, fields),
        "search" => searches::search_answer(alloc, fields),
        "certificates" => searches::certificates_answer(alloc, fields),
        "check" => searches::check_answer(alloc, fields),
        "clashes" => rounds::clashes_answer(alloc, fields),
        "rounds" => rounds::rounds_answer(alloc, fields),
        "numbers" => rounds::numbers_answer(alloc, fields),
        "pairs" => rounds::pairs_answer(alloc, fields),
        "unison" => rounds::unison_answer(alloc, fields),
        "apart" => rounds::apart_answer(alloc, fields),
        _ => subjects::answer(alloc, word, fields),
    }
}
