//! Questions about rules.
use anyhow::{Result, bail};
use hub_profile::{ProfileFault, Rule, Rules, Verb, read_rules};
use std::alloc::{AllocError, Global};
use test_kit::{bytes_of, quoted, shown};

/// Answers a question about the rules of a text, or reports the text's fault:
///
/// - `count`: how many there are.
/// - `list`: each of them.
pub(crate) fn answer(alloc: Global, question: &str, text: &str) -> Result<String> {
    let text = bytes_of(alloc, text)?;
    answer_on_reading(alloc, question, &read_rules(alloc, text.as_slice()))
}

fn answer_on_reading(
    alloc: Global,
    question: &str,
    reading: &Result<Rules, ProfileFault>,
) -> Result<String> {
    match reading {
        Ok(rules) => answer_on_rules(alloc, question, rules.as_slice()),
        Err(fault) => quoted(alloc, shown(alloc, fault)?.as_str()),
    }
}

fn answer_on_rules(alloc: Global, question: &str, rules: &[Rule]) -> Result<String> {
    match question {
        "count" => shown(alloc, &rules.len()),
        "list" => list(alloc, rules),
        _ => bail!("an unknown question"),
    }
}

/// The rules in their order, each followed by `; `.
fn list(alloc: Global, rules: &[Rule]) -> Result<String> {
    let mut text = String::new(alloc);
    for rule in rules {
        push_rule(&mut text, rule)?;
    }
    quoted(alloc, text.as_str())
}

fn push_rule(text: &mut String, rule: &Rule) -> Result<(), AllocError> {
    let verb = verb_word(rule.verb);
    let spec = rule.spec.text()?;
    let root = rule.root.as_str();
    write!(text, "{verb} {spec} at {root}; ")
}

fn verb_word(verb: Verb) -> &'static str {
    match verb {
        Verb::Create => "create",
        Verb::Update => "update",
        Verb::Delete => "delete",
    }
}
