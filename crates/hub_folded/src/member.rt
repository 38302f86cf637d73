//! The profiles of a set, with folded lines.
ghost use Rattle.std.specs.Prelude.{◌≡◌, IfOk, map};
ghost use Rattle.hub_folded.specs.Lines as lines;
ghost use Rattle.hub_folded.specs.Table.{unicode};

use crate::profile::{folded, spread};
use hub_profile::Profile;
use hub_text::Items;
use std::alloc::{AllocError, Global};

/// A profile, and whether its host's names fold.
#[derive(Drop)]
pub struct Member {
    /// Whether the names of its host fold.
    pub folds: bool,
    /// The profile.
    pub parts: Profile,
}

/// Returns the profiles of a set in their order. If the names of some member fold, their lines are folded: a member whose names fold keeps
/// all known ones, as `specs/Lines` says, and each other one its kept values alone. If no names fold, the profiles stay as they are.
pub fn folded_set(alloc: Global, members: Items<Member>) -> Result<Items<Profile>, AllocError>
    ensures { IfOk result (λ ps. ps ≡ lines.folded_set unicode members) }
{
    if some_fold(members.as_slice()) {
        return folded_members(alloc, members);
    }
    parts_of(alloc, members)
}

/// Returns whether the names of some member fold.
pub fn some_fold(members: &[Member]) -> bool
    ensures { result ≡ lines.some_fold members.now }
{
    members.iter().any(|member| member.folds)
}

fn folded_members(alloc: Global, members: Items<Member>) -> Result<Items<Profile>, AllocError>
    ensures { IfOk result (λ ps. ps ≡ map (lines.folded_member unicode) members) }
{
    let mut profiles = Items::new(alloc);
    for member in members.into_vec() {
        profiles.push(folded_member(alloc, member)?)?;
    }
    Ok(profiles)
}

fn folded_member(alloc: Global, member: Member) -> Result<Profile, AllocError>
    ensures { IfOk result (λ p. p ≡ lines.folded_member unicode member) }
{
    if member.folds {
        folded(alloc, member.parts)
    } else {
        spread(alloc, member.parts)
    }
}

/// The profiles as they are.
fn parts_of(alloc: Global, members: Items<Member>) -> Result<Items<Profile>, AllocError>
    ensures { IfOk result (λ ps. ps ≡ map (λ M. M.parts) members) }
{
    let mut profiles = Items::new(alloc);
    for member in members.into_vec() {
        profiles.push(member.parts)?;
    }
    Ok(profiles)
}
