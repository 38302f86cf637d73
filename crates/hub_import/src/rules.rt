//! Equality of rules.
ghost use Rattle.std.specs.Prelude.{◌≡◌, ◌↔◌, IsTrue};

use hub_profile::{Rule, Verb};
use hub_text::is_equal;

/// Returns whether both lists have the same rules in the same order. It takes time linear in them.
pub fn are_same_rules(rules: &[Rule], others: &[Rule]) -> bool
    ensures { IsTrue result ↔ (rules.now ≡ others.now) }
{
    if rules.len() != others.len() {
        return false;
    }
    for i in 0..rules.len() {
        if !is_same_rule(&rules[i], &others[i]) {
            return false;
        }
    }
    true
}

/// Returns whether both rules are the same.
fn is_same_rule(rule: &Rule, other: &Rule) -> bool
    ensures { IsTrue result ↔ (rule.now ≡ other.now) }
{
    is_equal(&rule.root, &other.root)
        && is_same_verb(rule.verb, other.verb)
        && is_equal(&rule.spec, &other.spec)
}

/// Returns whether both kinds of change are the same.
fn is_same_verb(verb: Verb, other: Verb) -> bool
    ensures { IsTrue result ↔ (verb ≡ other) }
{
    match verb {
        Verb::Create => matches!(other, Verb::Create),
        Verb::Update => matches!(other, Verb::Update),
        Verb::Delete => matches!(other, Verb::Delete),
    }
}
