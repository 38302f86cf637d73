//! Answers about profiles as Unison may run them: each two near ones are judged by themselves, and each with the rules.
ghost use Rattle.std.specs.Prelude.{◌≡◌, None, IfErr, IfOk, OnOk, option_map};
ghost use Rattle.std.specs.List.{list_any};
ghost use Rattle.hub_apart.specs.Apart.{are_namesakes};
ghost use Rattle.hub_apart.specs.UnisonLines as unison;
ghost use Rattle.hub_cert.specs.Set.{Members};
ghost use Rattle.hub_profile.specs.Parts.{Parts};
ghost use Rattle.hub_profile.specs.declared.rule.Rule.{Rule as FileRule};
ghost use Rattle.hub_report.specs.Report.{unread_by};
ghost use Rattle.hub_serve.specs.InUnison as spec;
ghost use Rattle.hub_serve.specs.forms.InUnison as said;

use crate::answer::own_contents;
use crate::reading::counted_as;
use crate::unison_clashes::{report_on_found, unsearched};
use crate::unison_question::UnisonQuestion;
use hub_apart::laws::{lines_show_unsafe_parts, rounds_without_lines_are_safe_in_unison};
use hub_apart::{Apart, lines_in_unison};
use hub_bundle::BundleContents;
use hub_cert::CheckFault;
use hub_cli::Reading;
use hub_path::Name;
use hub_profile::{Profile, Rules};
use hub_report::Report;
use hub_text::Items;
use hub_unison::shared_archives;
use std::alloc::{AllocError, Global};

/// The answer to a question about the profiles of an input's bytes, as Unison may run them. The bytes are dropped as soon as they are
/// read.
pub fn report_on_unison<'a>(alloc: Global, question: UnisonQuestion, bytes: Vec<u8>) -> Report<'a>
    ensures holds { said.HoldsOfBytes question bytes.items result }
    ensures read { unread_by result ≡ None }
{
    match counted_as(alloc, Reading::Unison, bytes) {
        Ok(counted) => report_on_counted(alloc, question, counted),
        Err(AllocError) => Report::OutOfMemory,
    }
}

/// The answer by these lines of an input, which count.
fn report_on_counted<'a>(alloc: Global, question: UnisonQuestion, counted: Vec<u8>) -> Report<'a>
    ensures holds { said.HoldsOfCounted question counted.items result }
    ensures read { unread_by result ≡ None }
{
    match own_contents(alloc, counted) {
        Ok(own) => report_on_own(alloc, question, own),
        Err(report) => report,
    }
}

/// The answer about the own profiles and rules of a bundle.
fn report_on_own<'a>(alloc: Global, question: UnisonQuestion, own: BundleContents) -> Report<'a>
    ensures holds { said.HoldsOfOwn question own result }
    ensures read { unread_by result ≡ None }
{
    let BundleContents {
        profiles,
        rules,
        ..
    } = own;
    match shared_archives(alloc, profiles.as_slice()) {
        Ok(archives) => report_on_profiles(alloc, question, profiles, rules, archives.as_slice()),
        Err(AllocError) => Report::OutOfMemory,
    }
}

/// The answer about these profiles and rules, where these pairs share an archive.
fn report_on_profiles<'a>(
    alloc: Global,
    question: UnisonQuestion,
    profiles: Items<Profile>,
    rules: Rules,
    archives: &[(usize, usize)],
) -> Report<'a>
    ensures holds { said.HoldsOfProfiles question profiles rules archives.now result }
    ensures read { unread_by result ≡ None }
{
    match found_of(alloc, profiles, rules) {
        Ok(found) => report_on_found(alloc, question, archives, found),
        Err(fault) => unsearched(alloc, &fault),
    }
}

/// The lines of these profiles and rules in Unison, by who writes. `SameName` comes first.
fn found_of(alloc: Global, profiles: Items<Profile>, rules: Rules) -> Result<Apart, CheckFault>
    ensures found { IfOk result (said.IsFoundOf profiles rules) }
    ensures refused { IfErr result (spec.IsUnsearchable profiles rules) }
{
    check_names(profiles.as_slice())?;
    searched_by_writer(alloc, profiles, rules)
}

/// The lines of these profiles and rules in Unison, by who writes.
pub(crate) fn searched_by_writer(
    alloc: Global,
    profiles: Items<Profile>,
    rules: Rules,
) -> Result<Apart, CheckFault>
    ensures found { IfOk result (said.IsSearchedOf profiles rules) }
    ensures refused { IfErr result (unison.IsRefusedInUnison profiles rules) }
{
    lines_show_unsafe_parts();
    rounds_without_lines_are_safe_in_unison();
    Ok(lines_in_unison(alloc, profiles, rules)?.by_writer()?)
}

/// Returns `SameName` if two of the profiles have one name.
fn check_names(profiles: &[Profile]) -> Result<(), CheckFault>
    ensures different { OnOk result (spec.namesake profiles.now ≡ None) }
    ensures same { IfErr result (said.IsSameName profiles.now) }
{
    match namesake(profiles) {
        Some(name) => Err(CheckFault::SameName { name: name.copy()? }),
        None => Ok(()),
    }
}

/// Returns the name of the first profile that a later one has, too.
fn namesake(profiles: &[Profile]) -> Option<&Name>
    ensures { option_map (λ n. n.now) result ≡ spec.namesake profiles.now }
{
    let mut rest = profiles;
    while let Some((profile, later)) = rest.split_first() {
        if is_name_of_one(profile, later) {
            return Some(profile.name());
        }
        rest = later;
    }
    None
}

/// Returns whether one of these has the profile's name.
fn is_name_of_one(profile: &Profile, others: &[Profile]) -> bool
    ensures { result ≡ list_any (λ Q. are_namesakes profile.now Q) others.now }
{
    others.iter().any(|other| profile.name() == other.name())
}
