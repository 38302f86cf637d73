//! Answers questions about names, specifications, profiles and rules that are folded. `stdin` has the questions with their answers;
//! those about names and specifications come from a model of what Unison 2.52.1 was seen to do. So the program is a test of
//! `hub_folded`.
//!
//! Each line of standard input is a case, as `test_kit` says. `stdin` says what each word asks for. The answer is what the crate
//! says.
#![tactic(auto)]

mod given;
mod names;
mod profiles;
mod rules;

use anyhow::{Result, bail};
use std::alloc::Global;
use test_kit::answer_questions;

fn main(rt: HostRuntime) -> Result<()> {
    answer_questions(&rt, answer)
}

fn answer(alloc: Global, word: &str, fields: &str) -> Result<String> {
    match word {
        "name" => names::name(alloc, fields),
        "spec" => names::spec(alloc, fields),
        "folded" => profiles::lines(alloc, fields, true, false),
        "spread" => profiles::lines(alloc, fields, false, true),
        "plain" => profiles::lines(alloc, fields, false, false),
        "rules" => rules::rules(alloc, fields, true),
        "plain-rules" => rules::rules(alloc, fields, false),
        _ => bail!("no question has this word"),
    }
}
