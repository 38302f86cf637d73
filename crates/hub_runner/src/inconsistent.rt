//! Numbers that no job has, or several have, or one that wasn't made for the set and the state.
ghost use Rattle.std.specs.Prelude.{◌≡◌, ◌==◌, ◌↔◌, Some, count_by, IsTrue, MatchBool, MatchOption};
ghost use Rattle.hub_job.specs.Outcome as of_outcome;
ghost use Rattle.hub_runner.specs.forms.Inconsistent as spec;
ghost use Rattle.hub_runner.specs.forms.Inconsistent.{AllAreBelow, AllAreOf, IsLeastFrom, OneIsNotOf};
ghost use Rattle.hub_runner.specs.Settling.{AreConsistent, IsLowestInconsistent};

use hub_job::Job;
use hub_path::Side;
use hub_profile::Profile;
use hub_state::State;
use hub_tree::Archive;

/// Returns the lowest number that is inconsistent: it is that of a profile, and not exactly one job has it; or a job has it that
/// wasn't made for the profile of that number and the archive of that profile's roots.
pub(crate) fn find_inconsistent(
    jobs: &[Job<'_>],
    profiles: &[Profile],
    state: &State,
) -> Option<usize>
    ensures { MatchOption result
        (AreConsistent state.now profiles.now jobs.now)
        (IsLowestInconsistent state.now profiles.now jobs.now) }
{
    for (number, profile) in profiles.iter().enumerate() {
        let archive = archive_of(profile, state);
        if !are_of(jobs, number, profile, archive) {
            return Some(number);
        }
        if !has_one(jobs, number) {
            return Some(number);
        }
    }
    find_least(jobs, profiles.len())
}

/// Borrows the archive of a profile's two roots, or the empty one.
fn archive_of<'a>(profile: &Profile, state: &'a State) -> &'a Archive
    ensures { result.now ≡ of_outcome.archive_of state.now (Some profile.now) }
{
    state.archive_or_empty(profile.root(Side::Left), profile.root(Side::Right))
}

/// Returns whether exactly one job has that number.
fn has_one(jobs: &[Job<'_>], number: usize) -> bool
    ensures { IsTrue result ↔ (count_by (λ J. J.number == number) jobs.now ≡ 1) }
{
    let own = jobs.iter().filter(|job| job.number() == number);
    own.count() == 1
}

/// Returns whether all jobs of that number were made for this profile and this archive.
fn are_of(jobs: &[Job<'_>], number: usize, profile: &Profile, archive: &Archive) -> bool
    ensures { MatchBool result
        (AllAreOf profile.now archive.now jobs.now number)
        (OneIsNotOf profile.now archive.now jobs.now number) }
{
    for job in jobs {
        if job.number() == number && !job.made_for(profile, archive) {
            return false;
        }
    }
    true
}

/// Returns the lowest number of a job that isn't below this one.
fn find_least(jobs: &[Job<'_>], from: usize) -> Option<usize>
    ensures { MatchOption result
        (AllAreBelow jobs.now from) (IsLeastFrom jobs.now from) }
{
    let mut least = None;
    for job in jobs {
        least = lower(least, from, job.number());
    }
    least
}

/// Returns the lower of a number that may be there and another one, unless that is below `from`.
fn lower(least: Option<usize>, from: usize, number: usize) -> Option<usize>
    ensures { result ≡ spec.lower_at from least number }
{
    if number < from {
        return least;
    }
    match least {
        Some(least) => Some(least.min(number)),
        None => Some(number),
    }
}
