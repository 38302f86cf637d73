//! A text of rules.
ghost use Rattle.std.specs.Prelude.{◌≡◌, ◌<◌, ◌≤◌, [], ◌∷◌, ◌++◌, nat_le, Ok, IfOk, IfErr, OnOk, length};
ghost use Rattle.hub_profile.specs.Faults.{FailsAt};
ghost use Rattle.hub_profile.specs.Rules as rules;

use crate::fault::ProfileFault;
use crate::line_by_line::{read_lines, text_of};
use crate::rule::Rule;
use crate::rules_draft::RulesDraft;
use hub_text::Items;
use std::alloc::{AllocFailed, Global};
use std::marker::Model;

/// How many rules a text may have (this project's choice).
pub const RULES: usize = 64;

/// Rules in the order of their lines, at most `RULES`. A rule's number is its place, from 0 on.
#[derive(Debug, Drop)]
pub struct Rules {
    rules: Items<Rule>,
}

impl Model for Rules {
    ghost use Rattle.std.specs.Prelude.{List, ◌≤◌, length};
    ghost use Rattle.hub_profile.specs.declared.rule.Rule.{Rule};
    ghost use Rattle.hub_profile.specs.declared.rules.TheConstants.{RULES};

    ghost Value = { List Rule };

    ghost view = { λ a. a.rules };

    ghost invariant = { λ a. length a.rules ≤ RULES };
}

impl Rules {
    /// No rules.
    pub fn new(alloc: Global) -> Rules
        ensures { result ≡ [] }
    {
        Rules {
            rules: Items::new(alloc),
        }
    }

    /// The rules in the order of their numbers.
    pub fn as_slice(&self) -> &[Rule]
        ensures value { result.now ≡ self.now }
        ensures few { length self.now ≤ RULES }
    {
        self.rules.as_slice()
    }

    /// The allocator of the list.
    pub(crate) fn alloc(&self) -> Global {
        self.rules.alloc()
    }

    /// Returns whether there are as many rules as there may be.
    pub fn is_full(&self) -> bool
        ensures { result ≡ nat_le RULES (length self.now) }
    {
        self.rules.len() >= RULES
    }

    /// Appends a rule. If it is out of memory, the error gives the rule back.
    pub fn push(&mut self, rule: Rule) -> Result<(), AllocFailed<Rule>>
        requires { length self.now < RULES }
        ensures { OnOk result (self.new ≡ self.old ++ rule ∷ []) }
    {
        self.rules.push(rule)
    }
}

/// Reads rules from the bytes of their text.
///
/// The text is read line by line as that of a profile (`read_profile`). Its names are (this project's choice):
///
/// - `root`: the root of the rules below, up to the next such line.
/// - `nolose`, `nochange`, `nonew`: a path specification (`hub_glob::PathSpec::read`). Each such line is one rule: no
///   deletion, no update, or no creation may be made at the root, on a path that the specification matches.
///
/// The fault is `NotUtf8` at line 0. Otherwise it is that of the lowest line that has one. Of one line it is the first
/// of `IncludeLeftOut`, `NoEquals`, `UnknownPreference` (`read_profile` says when these come), `RuleBeforeRoot` (a rule
/// without a `root` line above it), `TooMany` (a rule after `RULES` of them), and `BadPath` or `BadPattern`. Any call
/// may instead report `OutOfMemory`, at any line.
pub fn read_rules(alloc: Global, bytes: &[u8]) -> Result<Rules, ProfileFault>
    ensures ok { IfOk result (λ R. rules.rules_in bytes.now ≡ Ok R) }
    ensures err { IfErr result (FailsAt (rules.rules_in bytes.now)) }
{
    let text = text_of(bytes)?;
    let draft = read_lines(RulesDraft::new(alloc), text)?;
    Ok(draft.into_rules())
}
