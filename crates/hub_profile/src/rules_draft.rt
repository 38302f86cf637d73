//! What the lines of a rules text say.
ghost use Rattle.std.specs.Prelude.{◌≡◌, Ok, IfErr, OnOk, chars};
ghost use Rattle.hub_profile.specs.Faults.{FailsAs};
ghost use Rattle.hub_profile.specs.Rules as text;

use crate::fault::Fault;
use crate::line_by_line::{FromLines, unknown};
use crate::rule::Rule;
use crate::rule_key::{RuleKey, rule_key_named};
use crate::rules::Rules;
use crate::verb::Verb;
use hub_glob::PathSpec;
use hub_path::Root;
use std::alloc::Global;
use std::marker::Model;

/// What the lines of a rules text say so far: the root that the next rules are for, and the rules.
#[derive(Drop)]
pub(crate) struct RulesDraft {
    root: Option<Root>,
    rules: Rules,
}

impl Model for RulesDraft {
    ghost use Rattle.hub_profile.specs.Rules.{RulesSaid};

    ghost Value = { RulesSaid };

    ghost view = { λ a. record {
      root = a.root;
      rules = a.rules;
    } };
}

impl FromLines for RulesDraft {
    ghost use Rattle.hub_profile.specs.Rules.{with_rule};

    ghost table = { with_rule };

    fn take(&mut self, _number: usize, name: &str, value: &str) -> Result<(), Fault> {
        match rule_key_named(name) {
            Some(RuleKey::Root) => self.set_root(value),
            Some(RuleKey::Forbid(verb)) => self.add_rule(verb, value),
            None => Err(unknown(self.rules.alloc(), name)),
        }
    }
}

impl RulesDraft {
    /// Nothing has been said.
    pub(crate) fn new(alloc: Global) -> RulesDraft
        ensures { result ≡ text.no_rules_said }
    {
        RulesDraft {
            root: None,
            rules: Rules::new(alloc),
        }
    }

    /// The rules.
    pub(crate) fn into_rules(self) -> Rules
        ensures { result ≡ self.rules }
    {
        let RulesDraft { root: _, rules } = self;
        rules
    }

    fn set_root(&mut self, value: &str) -> Result<(), Fault>
        ensures ok { OnOk result (text.root_set self.old (chars value.now) ≡ Ok self.new) }
        ensures err { IfErr result (FailsAs (text.root_set self.old (chars value.now))) }
    {
        self.root = Some(Root::read(self.rules.alloc(), value)?);
        Ok(())
    }

    /// Takes a rule for the last root above it.
    fn add_rule(&mut self, verb: Verb, value: &str) -> Result<(), Fault>
        ensures ok { OnOk result (text.rule_added verb self.old (chars value.now) ≡ Ok self.new) }
        ensures err { IfErr result (FailsAs (text.rule_added verb self.old (chars value.now))) }
    {
        let Some(root) = &self.root else {
            return Err(Fault::RuleBeforeRoot);
        };
        if self.rules.is_full() {
            return Err(Fault::TooMany);
        }
        let spec = PathSpec::read(self.rules.alloc(), value)?;
        let root = root.copy()?;
        self.rules.push(Rule { root, verb, spec })?;
        Ok(())
    }
}
