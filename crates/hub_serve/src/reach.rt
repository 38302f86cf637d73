//! Whether a profile of a bundle reaches a path.
ghost use Rattle.std.specs.Prelude.{◌≡◌, ◌⊎◌, Some, None, MatchOption};
ghost use Rattle.hub_cli.specs.Words as words;
ghost use Rattle.hub_report.specs.Report.{unread_by};
ghost use Rattle.hub_serve.specs.Told as told;
ghost use Rattle.hub_serve.specs.Reached.{first_named};

use hub_bundle::BundleContents;
use hub_cli::Reading;
use hub_path::{PathFault, RelPath};
use hub_profile::Profile;
use hub_reach::reaches;
use hub_report::{ReachAnswer, Report};
use std::alloc::Global;

/// The answer to whether the bundle's first profile with that name reaches the path of that text.
///
/// If there is no such profile, the answer says that, whatever the path is. The profiles aren't checked: two of them may
/// have the same name or overlap.
pub fn report_on_reach<'a>(
    alloc: Global,
    contents: &BundleContents,
    reading: Reading,
    profile: &'a str,
    path: &str,
) -> Report<'a>
    ensures told { told.IsTold (words.reach reading profile.now path.now) contents.now result }
    ensures read { unread_by result ≡ None }
{
    // the contents were read so already: it is here for the contract
    let _ = reading;
    let Some(found) = profile_named(contents.profiles.as_slice(), profile) else {
        return Report::Reach(ReachAnswer::NoProfile(profile));
    };
    match RelPath::read(alloc, path) {
        Ok(path) if reaches(found, &path) => Report::Reach(ReachAnswer::Reached),
        Ok(_) => Report::Reach(ReachAnswer::NotReached),
        Err(fault) => bad_path(fault),
    }
}

/// The answer if the text of a path is read with that fault.
fn bad_path<'a>(fault: PathFault) -> Report<'a>
    ensures memory { fault ≡ PathFault.OutOfMemory → result ≡ Report.OutOfMemory }
    ensures fault { (result ≡ Report.OutOfMemory)
        ⊎ (result ≡ Report.Reach (ReachAnswer.BadPath fault)) }
    ensures read { unread_by result ≡ None }
{
    match fault {
        PathFault::OutOfMemory => Report::OutOfMemory,
        _ => Report::Reach(ReachAnswer::BadPath(fault)),
    }
}

/// The first of these profiles with that name.
fn profile_named<'a>(profiles: &'a [Profile], name: &str) -> Option<&'a Profile>
    ensures { MatchOption result (first_named name.now profiles.now ≡ None)
        (λ P. first_named name.now profiles.now ≡ Some P.now) }
{
    for profile in profiles {
        if profile.name().text() == name {
            return Some(profile);
        }
    }
    None
}
