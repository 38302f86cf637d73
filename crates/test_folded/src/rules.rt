//! Questions about rules.
use crate::given::members_of;
use anyhow::Result;
use hub_folded::folded_rules;
use hub_profile::{Rule, Rules, Verb, read_rules};
use std::alloc::{AllocError, Global};
use test_kit::{answer_or_fault, list_of, text_of};

/// The rules of these lines, with `; ` between them, in a set in which some names fold, or none; or their fault.
pub(crate) fn rules(alloc: Global, field: &str, fold: bool) -> Result<String> {
    let lines = text_of(alloc, field)?.replace(alloc, "; ", "\n")?;
    let rules = read_rules(alloc, lines.as_bytes())?;
    let members = members_of(alloc, "path = a", fold, false)?;
    let folded = folded_rules(alloc, members.as_slice(), rules);
    answer_or_fault(alloc, &folded, |rules| rules_text(alloc, rules))
}

fn rules_text(alloc: Global, rules: &Rules) -> Result<String> {
    list_of(alloc, rules.as_slice(), |rule| Ok(rule_text(alloc, rule)?))
}

fn rule_text(alloc: Global, rule: &Rule) -> Result<String, AllocError> {
    let verb = verb_word(rule.verb);
    let spec = rule.spec.text()?;
    let root = rule.root.as_str();
    format!(in alloc; "{verb} {spec} at {root}")
}

fn verb_word(verb: Verb) -> &'static str {
    match verb {
        Verb::Create => "create",
        Verb::Update => "update",
        Verb::Delete => "delete",
    }
}
