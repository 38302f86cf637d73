//! Profiles that are searched as Unison may run them.
ghost use Rattle.std.specs.Prelude.{◌≡◌, IfErr, IfOk, OnOk};
ghost use Rattle.hub_apart.specs.UnisonLines as said;

use crate::beside::{check_valid, search_beside};
use crate::pairs::search_pairs;
use crate::searched::Apart;
use hub_cert::CheckFault;
use hub_parts::pairs_of_profiles;
use hub_profile::{Profile, Rules};
use hub_text::Items;
use hub_unison::read_set;
use std::alloc::Global;

/// Searches profiles, as hubsync reads them, and rules for what may clash or break a rule in Unison. Each two near profiles are
/// searched together by their cautious readings (`hub_unison::cautious`) and without the rules. Then the reading of each profile
/// beside the rules is searched with them. Where roots are nested, each two roots that meet are searched by themselves, and each rule
/// is, counted from the upper root (`hub_nested`). The readings beside the rules (`hub_unison::read_set`) and the rules are given
/// back, in their order.
///
/// Two profiles that aren't near have no line: they can't clash ([`hub_parts::pairs_of_profiles`]). The reading beside rules has no
/// part in pairs. So a rule makes no two profiles clash, and each part has an alphabet and limits of its own. How many profiles
/// there are isn't limited. See [`crate::laws`] for what lines say that aren't there.
///
/// The profiles are lost if there is a fault, by which a part is no set: `AlphabetFault` if its characters or spots are too many,
/// `SameName` if two near profiles have one name; or `OutOfMemory`.
pub fn lines_in_unison(
    alloc: Global,
    profiles: Items<Profile>,
    rules: Rules,
) -> Result<Apart, CheckFault>
    ensures valid { said.AreValid profiles }
    ensures readings { IfOk result (λ a. a.profiles ≡ said.beside rules profiles) }
    ensures rules { IfOk result (λ a. a.rules ≡ rules) }
    ensures lines { IfOk result (λ a. said.AreLinesInUnison profiles rules a.lines) }
    ensures refused { IfErr result (said.IsRefusedInUnison profiles rules) }
{
    check_valid(profiles.as_slice());
    let mut lines = Vec::new(alloc);
    let none = Rules::new(alloc);
    let readings = read_set(alloc, profiles, &none)?;
    let readings = search_near(alloc, readings, &mut lines)?;
    let (readings, rules) = search_beside(alloc, readings, rules, &mut lines)?;
    Ok(Apart {
        profiles: Items::from_vec(readings),
        rules,
        lines: Items::from_vec(lines),
    })
}

/// Searches each two near profiles together, and appends their lines. Returns the profiles.
fn search_near(
    alloc: Global,
    profiles: Items<Profile>,
    lines: &mut Vec<CheckFault>,
) -> Result<Vec<Profile>, CheckFault>
    ensures profiles { IfOk result (λ r. r.items ≡ profiles) }
    ensures lines { OnOk result
        (said.AddsLinesNear profiles lines.old.items lines.new.items) }
    ensures refused { IfErr result (said.IsRefusedPair profiles) }
{
    let pairs = pairs_of_profiles(alloc, profiles.as_slice())?;
    search_pairs(alloc, profiles.into_vec(), pairs.as_slice(), lines)
}
