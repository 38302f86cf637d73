//! Whether a bundle says what was to be written.
ghost use Rattle.std.specs.Prelude.{◌≡◌, ◌↔◌, IsTrue};
ghost use Rattle.hub_import.specs.Imported.{contents_of};

use crate::rules::are_same_rules;
use hub_bundle::BundleContents;
use hub_profile::{Profile, Rule};
use hub_text::are_equal;

/// Returns whether a bundle says these profiles and rules, and nothing else.
pub(crate) fn says(contents: &BundleContents, profiles: &[Profile], rules: &[Rule]) -> bool
    ensures { IsTrue result ↔ (contents.now ≡ contents_of profiles.now rules.now) }
{
    are_equal(contents.profiles.as_slice(), profiles)
        && are_same_rules(contents.rules.as_slice(), rules)
        && contents.state.is_none()
        && contents.certificates.is_empty()
}
