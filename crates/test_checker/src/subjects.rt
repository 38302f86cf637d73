//! Questions about values of `hub_text`, `hub_path`, `hub_glob` and `hub_profile`.
//!
//! Each has a subject, a question about it, and one or more fields:
//!
//! ```text
//! pattern matches Name *.tmp | x.tmp
//! ```
//!
//! It is answered by `pattern matches Name *.tmp | x.tmp => yes`. A text in an answer stands in quotes, as Rust prints it
//! for debugging. A fault is shown by its name. The escapes of `test_kit` may stand in all fields.
use crate::{devices, lists, names, paths, patterns, profiles, roots, rules, texts};
use anyhow::{Result, bail};
use std::alloc::Global;
use test_kit::{cut, text_of};

/// Answers a question about a subject.
pub(crate) fn answer(alloc: Global, subject: &str, fields: &str) -> Result<String> {
    let (question, fields) = cut(fields);
    match subject {
        "profile" => profiles::answer(alloc, "", question, fields),
        "lines" => profiles::answer(alloc, profiles::ROOTS, question, fields),
        "rules" => rules::answer(alloc, question, fields),
        _ => {
            let texts = texts_of(alloc, fields)?;
            answer_on_texts(alloc, subject, question, texts.as_slice())
        }
    }
}

/// The fields, of which each is a text.
fn texts_of(alloc: Global, fields: &str) -> Result<Vec<String>> {
    let mut texts = Vec::new(alloc);
    for field in fields.split(" | ") {
        texts.push(text_of(alloc, field)?)?;
    }
    Ok(texts)
}

/// Answers a question about a subject that texts say.
fn answer_on_texts(
    alloc: Global,
    subject: &str,
    question: &str,
    texts: &[String],
) -> Result<String> {
    match subject {
        "list" => lists::answer(alloc, question, texts),
        "text" => texts::answer(alloc, question, texts),
        "device" => devices::answer(alloc, question, texts),
        "name" => names::answer(alloc, question, texts),
        "path" => paths::answer(alloc, question, texts),
        "root" => roots::answer(alloc, question, texts),
        "side" => roots::answer_on_side(alloc, question, texts),
        "pattern" => patterns::answer(alloc, question, texts),
        _ => bail!("an unknown subject"),
    }
}
