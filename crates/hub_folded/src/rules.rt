//! The rules of a set, with folded patterns.
ghost use Rattle.std.specs.Prelude.{◌≡◌, true, map, Some, None, IfErr, IfOk, if◌then◌else◌};
ghost use Rattle.std.specs.List.{list_all};
ghost use Rattle.hub_folded.specs.Lines as lines;
ghost use Rattle.hub_folded.specs.Rules.{IsRefused};
ghost use Rattle.hub_folded.specs.Table.{unicode};

use crate::fault::FoldFault;
use crate::foldable::first_unknown;
use crate::lines::fold_spec;
use crate::member::{Member, some_fold};
use hub_profile::{Rule, Rules};
use std::alloc::{AllocError, Global};

/// Returns the rules of a set with folded patterns, in their order, if some names fold. If none do, the rules stay as they are.
///
/// A fault comes only if some names fold: `UnknownRule` with the number of the first rule that isn't known, or that wouldn't hold for
/// each spelling; or `UnwrittenRules` if there is none, but no line can say one of the folded rules. Any call may instead report
/// `OutOfMemory`.
pub fn folded_rules(alloc: Global, members: &[Member], rules: Rules) -> Result<Rules, FoldFault>
    ensures ok { IfOk result (λ rs. rs ≡ lines.folded_rules unicode members.now rules) }
    ensures known { IfOk result (λ _. lines.some_fold members.now ≡ true
        → lines.know_rules unicode rules ≡ true) }
    ensures err { IfErr result (IsRefused unicode members.now rules) }
{
    if !some_fold(members) {
        return Ok(rules);
    }
    if let Some(number) = first_unknown(rules.as_slice())? {
        return Err(FoldFault::UnknownRule(number));
    }
    match all_folded(alloc, &rules)? {
        Some(folded) => Ok(folded),
        None => Err(FoldFault::UnwrittenRules),
    }
}

/// Returns what rules fold to, if a line can say it of each.
fn all_folded(alloc: Global, rules: &Rules) -> Result<Option<Rules>, AllocError>
    ensures { IfOk result (λ o. o ≡ (if list_all (λ R. lines.knows_line unicode R.spec) rules.now
        then Some (map (lines.fold_rule unicode) rules.now) else None)) }
{
    let mut all = Rules::new(alloc);
    for rule in rules.as_slice() {
        let Some(folded) = fold_rule(alloc, rule)? else {
            return Ok(None);
        };
        all.push(folded)?;
    }
    Ok(Some(all))
}

fn fold_rule(alloc: Global, rule: &Rule) -> Result<Option<Rule>, AllocError>
    ensures { IfOk result (λ o. o ≡ (if lines.knows_line unicode rule.now.spec
        then Some (lines.fold_rule unicode rule.now) else None)) }
{
    match fold_spec(alloc, &rule.spec)? {
        Some(spec) => {
            Ok(Some(Rule {
                root: rule.root.copy()?,
                verb: rule.verb,
                spec,
            }))
        }
        None => Ok(None),
    }
}
