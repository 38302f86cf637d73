//! Which paths a profile reaches.
ghost use Rattle.std.specs.Prelude.{◌≡◌, ◌≤◌, ◌&&◌, false, length, take, IsTrue};
ghost use Rattle.std.specs.List.{list_any};
ghost use Rattle.hub_path.specs.Path.{is_over};
ghost use Rattle.hub_glob.specs.Glob.{matches};
ghost use Rattle.hub_automaton.specs.Spots.{is_below_kind};
ghost use Rattle.hub_reach.specs.Reach.{reach, is_open, is_ignored};
ghost use Rattle.hub_reach.specs.forms.Tried.{any_matches_below, is_tried};

use hub_glob::{Kind, PathSpec};
use hub_path::RelPath;
use hub_profile::Profile;

/// Returns whether a profile reaches a path: the path is a kept value or lies below one, and nothing from the kept value
/// down to the path is ignored.
///
/// A path is ignored that `ignore` matches and `ignorenot` doesn't; what lies under an ignored path is not reached, even
/// where `ignorenot` matches it. The parents of a kept value aren't tested; the kept value itself is (this project's
/// choice). The whole replica is not reached. (Unison manual, "Ignoring Paths".)
pub fn reaches(profile: &Profile, path: &RelPath) -> bool
    ensures { result ≡ reach profile.now path.now }
{
    path.len() > 0 && is_kept(profile, path)
}

/// Returns whether a path lies at or below a kept value, and nothing between them is ignored.
fn is_kept(profile: &Profile, path: &RelPath) -> bool
    ensures { result ≡ list_any (λ s. is_over s path.now
        && is_open profile.now s path.now) profile.now.paths }
{
    profile
        .paths()
        .iter()
        .any(|kept| is_kept_by(profile, kept, path))
}

fn is_kept_by(profile: &Profile, kept: &RelPath, path: &RelPath) -> bool
    ensures { result ≡ (is_over kept.now path.now && is_open profile.now kept.now path.now) }
{
    path.starts_with(kept) && is_open(profile, kept, path)
}

/// Returns whether nothing from a kept value down to the path is ignored.
fn is_open(profile: &Profile, kept: &RelPath, path: &RelPath) -> bool
    requires { IsTrue (is_over kept.now path.now) }
    ensures { result ≡ is_open profile.now kept.now path.now }
{
    let below = is_below(profile.ignore(), path);
    for i in 0..path.len() {
        if kept.len() <= i + 1 && is_ignored(profile, path, i + 1, below) {
            return false;
        }
    }
    true
}

/// Returns whether the path of the first `len` names is ignored. A `BelowPath` that matches it matches the whole path too: so
/// `below` may be false where none in `ignore` matches the path, and then none is tried.
fn is_ignored(profile: &Profile, path: &RelPath, len: usize, below: bool) -> bool
    requires within { len ≤ length path.now }
    requires below { below ≡ false → any_matches_below profile.now.ignore path.now ≡ false }
    ensures { result ≡ is_ignored profile.now (take len path.now) }
{
    is_matched(profile.ignore(), path, len, below)
        && !is_matched(profile.ignorenot(), path, len, true)
}

/// Returns whether one of these is a `BelowPath` that matches the path.
fn is_below(specs: &[PathSpec], path: &RelPath) -> bool
    ensures { result ≡ any_matches_below specs.now path.now }
{
    specs.iter().any(|spec| is_matched_below(spec, path))
}

fn is_matched_below(spec: &PathSpec, path: &RelPath) -> bool
    ensures { result ≡ (is_below_kind spec.now.kind && matches spec.now path.now) }
{
    match spec.kind() {
        Kind::BelowPath => spec.matches(path),
        Kind::Name | Kind::Path => false,
    }
}

/// Returns whether one of these matches the path of the first `len` names. Each `BelowPath` is tried only if `below` says so.
fn is_matched(specs: &[PathSpec], path: &RelPath, len: usize, below: bool) -> bool
    requires within { len ≤ length path.now }
    requires below { below ≡ false → any_matches_below specs.now path.now ≡ false }
    ensures { result ≡ list_any (λ s. matches s (take len path.now)) specs.now }
{
    any_matched(specs, path, len, below)
}

fn any_matched(specs: &[PathSpec], path: &RelPath, len: usize, below: bool) -> bool
    requires { len ≤ length path.now }
    ensures { result ≡ list_any (λ s. is_tried below s && matches s (take len path.now)) specs.now }
{
    specs
        .iter()
        .any(|spec| is_matched_front(spec, path, len, below))
}

fn is_matched_front(spec: &PathSpec, path: &RelPath, len: usize, below: bool) -> bool
    requires { len ≤ length path.now }
    ensures { result ≡ (is_tried below spec.now && matches spec.now (take len path.now)) }
{
    match spec.kind() {
        Kind::BelowPath if !below => false,
        Kind::BelowPath | Kind::Name | Kind::Path => spec.matches_front(path, len),
    }
}
