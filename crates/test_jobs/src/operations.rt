//! Operations of the first profile on the replica that is given. An answer is shown as follows:
//!
//! - to `look`: `file`, `directory` or `absent`, the names of children, and `and others` if there are others;
//! - to `fetch`: how many bytes the file has;
//! - to `set`: `done`;
//! - the name of a refusal;
//! - `out of memory`. The replica should then be as it was.
//!
//! Contents are written as `test_kit::contents_of` says.

use crate::given::{Given, first_of};
use anyhow::{Result, bail, ensure};
use hub_cert::ProfileSet;
use hub_job::{Op, perform};
use std::alloc::Global;
use test_cases::answer_text;
use test_kit::{contents_of, cut, path_of};

/// What the replica answers to an operation.
pub(crate) fn answer(given: &mut Given, word: &str, fields: &str) -> Result<String> {
    let set = given.case.set()?;
    answer_in(given, &set, word, fields)
}

fn answer_in(given: &mut Given, set: &ProfileSet, word: &str, fields: &str) -> Result<String> {
    let op = op_of(given.case.alloc(), word, fields)?;
    answer_to(given, set, &op)
}

fn answer_to(given: &mut Given, set: &ProfileSet, op: &Op) -> Result<String> {
    let alloc = given.case.alloc();
    let profile = first_of(set)?;
    let answer = perform(alloc, profile, &given.root, &mut given.replica, op);
    match &answer {
        Ok(answer) => {
            ensure!(answer.fits(op), "an answer that doesn't fit");
            answer_text(alloc, answer)
        }
        Err(_) => Ok(String::from_str(alloc, "out of memory")?),
    }
}

/// The operation of a question.
fn op_of(alloc: Global, word: &str, fields: &str) -> Result<Op> {
    let (path, contents) = cut(fields);
    let path = path_of(alloc, path)?;
    match word {
        "look" => Ok(Op::Look(path)),
        "fetch" => Ok(Op::Fetch(path)),
        "set" => Ok(Op::Set(path, contents_of(alloc, contents)?)),
        _ => bail!("no operation: {word}"),
    }
}
