//! What the texts of bundles say, and what is unsafe of it.
use hub_apart::{Apart, has_namesakes, lines_in_unison};
use hub_bundle::{read_bundle, read_sections};
use hub_cert::{CheckFault, ProfileSet};
use hub_preferences::counted;
use hub_profile::{Profile, Rules};
use hub_search::faults;
use hub_text::Items;
use hub_unison::read_set;
use std::alloc::{AllocError, Global};

/// What is unsafe of a bundle's profiles and rules, if all of it can be searched. For Unison each two near profiles are searched by
/// themselves, without the rules, and each profile with them; else all are one set.
pub(crate) fn faults_in(
    alloc: Global,
    text: &[u8],
    for_unison: bool,
) -> Result<Option<Items<CheckFault>>, AllocError> {
    if for_unison {
        return faults_in_unison(alloc, text);
    }
    match set_in(alloc, text)? {
        Some(set) => Ok(Some(faults(alloc, &set)?)),
        None => Ok(None),
    }
}

/// Returns whether a bundle's profiles and rules can be searched.
pub(crate) fn is_searchable(
    alloc: Global,
    text: &[u8],
    for_unison: bool,
) -> Result<bool, AllocError> {
    if for_unison {
        Ok(faults_in_unison(alloc, text)?.is_some())
    } else {
        Ok(set_in(alloc, text)?.is_some())
    }
}

/// What is unsafe of profiles as Unison may run them, if no two have one name, and each part makes a set.
fn faults_in_unison(alloc: Global, text: &[u8]) -> Result<Option<Items<CheckFault>>, AllocError> {
    match own_in(alloc, text, true)? {
        Some((profiles, rules)) if !has_namesakes(profiles.as_slice()) => {
            let Ok(found) = lines_in_unison(alloc, profiles, rules) else {
                return Ok(None);
            };
            let Apart { lines, .. } = found.by_writer()?;
            Ok(Some(lines))
        }
        _ => Ok(None),
    }
}

/// The set of a bundle's profiles and rules, if they are one.
fn set_in(alloc: Global, text: &[u8]) -> Result<Option<ProfileSet>, AllocError> {
    match own_in(alloc, text, false)? {
        Some((profiles, rules)) => Ok(ProfileSet::new(alloc, profiles, rules).ok()),
        None => Ok(None),
    }
}

/// The profiles of a bundle as they are read beside its rules, and these, if it says some.
pub(crate) fn read_in(
    alloc: Global,
    text: &[u8],
    for_unison: bool,
) -> Result<Option<(Items<Profile>, Rules)>, AllocError> {
    let Some((profiles, rules)) = own_in(alloc, text, for_unison)? else {
        return Ok(None);
    };
    if for_unison {
        let profiles = read_set(alloc, profiles, &rules)?;
        return Ok(Some((profiles, rules)));
    }
    Ok(Some((profiles, rules)))
}

/// The profiles of a bundle as they are read for Unison where there are no rules, if it says some.
pub(crate) fn read_without_rules(
    alloc: Global,
    text: &[u8],
) -> Result<Option<Items<Profile>>, AllocError> {
    let Some((profiles, _)) = own_in(alloc, text, true)? else {
        return Ok(None);
    };
    let none = Rules::new(alloc);
    Ok(Some(read_set(alloc, profiles, &none)?))
}

/// The profiles and the rules that the lines of a bundle say that count, if they say some.
pub(crate) fn own_in(
    alloc: Global,
    text: &[u8],
    for_unison: bool,
) -> Result<Option<(Items<Profile>, Rules)>, AllocError> {
    if for_unison {
        let text = counted(alloc, text)?;
        Ok(members_in(alloc, text.as_slice()))
    } else {
        Ok(members_in(alloc, text))
    }
}

/// The profiles and the rules that a bundle says, if it is one.
fn members_in(alloc: Global, text: &[u8]) -> Option<(Items<Profile>, Rules)> {
    let sections = read_bundle(alloc, text).ok()?;
    let contents = read_sections(alloc, sections.as_slice()).ok()?;
    Some((contents.profiles, contents.rules))
}
