//! Questions about lists, which are given as numbers between spaces.
use crate::answers::{both, hash_alike};
use anyhow::{Result, bail};
use hub_text::Items;
use std::alloc::Global;
use test_kit::{shown, word_of, yes_or_no};

/// Answers a question about a list:
///
/// - `items`, `length`, `is-empty`: what it has.
/// - `vector`: what it has after a way through a vector.
/// - `clone`: whether it is equal to its clone, and hashed alike.
/// - `compare`: how it compares with that of the second field, whether it is less, and whether it is equal.
pub(crate) fn answer(alloc: Global, question: &str, texts: &[String]) -> Result<String> {
    match (question, texts) {
        ("compare", [list, other]) => {
            compare(&read(alloc, list.as_str())?, &read(alloc, other.as_str())?)
        }
        (_, [list]) => answer_on(question, &read(alloc, list.as_str())?),
        _ => bail!("an unknown question"),
    }
}

/// Reads a list: each of its numbers is pushed.
fn read(alloc: Global, text: &str) -> Result<Items<u8>> {
    let mut list = Items::new(alloc);
    for word in text.split_whitespace() {
        list.push(word.parse::<u8>()?)?;
    }
    Ok(list)
}

fn answer_on(question: &str, list: &Items<u8>) -> Result<String> {
    match question {
        "items" => items(list),
        "length" => shown(list.alloc(), &list.len()),
        "is-empty" => yes_or_no(list.alloc(), list.is_empty()),
        "vector" => items(&Items::from_vec(list.clone()?.into_vec())),
        "clone" => compare_with_clone(list),
        _ => bail!("an unknown question"),
    }
}

fn items(list: &Items<u8>) -> Result<String> {
    Ok(format!(in list.alloc(); "{:?}", list.as_slice())?)
}

fn compare_with_clone(list: &Items<u8>) -> Result<String> {
    let clone = list.clone()?;
    both(list.alloc(), clone == *list, hash_alike(&clone, list))
}

fn compare(list: &Items<u8>, other: &Items<u8>) -> Result<String> {
    let order = list.cmp(other);
    let is_less = word_of(list < other);
    let is_equal = word_of(list == other);
    Ok(format!(in list.alloc(); "{order:?}, {is_less}, {is_equal}")?)
}
