//! Bundles of what was read for Unison.
ghost use Rattle.std.specs.Prelude.{◌≡◌, None};
ghost use Rattle.hub_cli.specs.Words.{imported};
ghost use Rattle.hub_report.specs.Report.{unread_by};
ghost use Rattle.hub_serve.specs.Told as told;

use hub_bundle::BundleContents;
use hub_import::{BundleUnwritten, write_bundle};
use hub_report::Report;
use std::alloc::Global;

/// The answer with the text of a bundle that says the same profiles and rules.
pub fn report_on_import<'a>(alloc: Global, contents: &BundleContents) -> Report<'a>
    ensures told { told.IsTold imported contents.now result }
    ensures read { unread_by result ≡ None }
{
    match write_bundle(
        alloc,
        contents.profiles.as_slice(),
        contents.rules.as_slice(),
    ) {
        Ok(text) => Report::Imported(text),
        Err(BundleUnwritten::NotReadBack) => Report::NotImported,
        Err(BundleUnwritten::OutOfMemory) => Report::OutOfMemory,
    }
}
