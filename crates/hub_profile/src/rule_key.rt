//! The names that a text of rules may set.
ghost use Rattle.std.specs.Prelude.{◌≡◌, chars};
ghost use Rattle.hub_profile.specs.LineByLine.{look_up};
ghost use Rattle.hub_profile.specs.Rules.{rule_keys};

use crate::line_by_line::named;
use crate::verb::Verb;

/// What a line of a rules text is for.
#[derive(Clone, Copy, Debug, PartialEq, Eq)]
pub(crate) enum RuleKey {
    /// The root of the rules below.
    Root,
    /// A rule, which forbids changes of that kind.
    Forbid(Verb),
}

/// Each of them by its name (this project's choice).
const RULE_KEYS: [(&str, RuleKey); 4] = [
    ("root", RuleKey::Root),
    ("nolose", RuleKey::Forbid(Verb::Delete)),
    ("nochange", RuleKey::Forbid(Verb::Update)),
    ("nonew", RuleKey::Forbid(Verb::Create)),
];

/// What a line with that name is for, if there is such a name.
pub(crate) fn rule_key_named(name: &str) -> Option<RuleKey>
    ensures { result ≡ look_up (chars name.now) rule_keys }
{
    named(&RULE_KEYS, name)
}
