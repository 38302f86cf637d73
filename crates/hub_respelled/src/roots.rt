//! Roots that are spelled in two ways.
ghost use Rattle.std.specs.Prelude.{IfErr, OnOk};
ghost use Rattle.hub_folded.specs.Roots.{AreToldApart};
ghost use Rattle.hub_folded.specs.Table.{unicode};
ghost use Rattle.hub_respelled.specs.Respelled.{IsOfRoots, said_roots};

use crate::fault::RespellFault;
use hub_bundle::BundleContents;
use hub_cert::roots_of;
use hub_folded::find_spelled_twice;
use std::alloc::Global;

/// Returns the fault of two roots of profiles or rules that are spelled in two ways where names fold.
pub(crate) fn check_roots(alloc: Global, own: &BundleContents) -> Result<(), RespellFault>
    ensures ok { OnOk result (AreToldApart unicode (said_roots own.now)) }
    ensures err { IfErr result (IsOfRoots own.now) }
{
    let roots = roots_of(alloc, own.profiles.as_slice(), own.rules.as_slice())?;
    let all = roots.as_slice();
    if let Some((first, second)) = find_spelled_twice(alloc, all)? {
        return Err(RespellFault::SpelledTwice {
            first: all[first].copy()?,
            second: all[second].copy()?,
        });
    }
    Ok(())
}
