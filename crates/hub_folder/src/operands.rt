//! The profiles that operands name.
ghost use Rattle.std.specs.Prelude.{◌≡◌, ◌≤◌, ◌+◌, ◌++◌, map, IfErr, IfOk, OnOk};
ghost use Rattle.hub_folder.specs.Operands as operands_as;
ghost use Rattle.hub_folder.specs.Machines as machines;
ghost use Rattle.hub_folder.specs.Operands.{IsUnnamed};
ghost use Rattle.hub_folder.specs.Told.{HoldNamed, HoldNoted, HoldNotedPath, HoldPath, folder_profiles, named, profile_bytes, texts_in};
ghost use Rattle.hub_folder.specs.declared.shelf.TheConstants.{INCLUDED_BYTES};

use crate::fault::Untaken;
use crate::folder::{FolderProfile, TakenProfiles, profiles_in};
use crate::machine::{machine_of, source_of};
use crate::profile::profile_in;
use crate::reader::FileReader;
use crate::shelf::INCLUDED_BYTES;
use std::alloc::{AllocError, Global};

/// A profile that an operand names.
#[derive(Debug, Drop)]
pub struct NamedProfile<'a> {
    /// The machine that has it, if the operand names one.
    pub machine: Option<&'a str>,
    /// The profile.
    pub profile: FolderProfile,
}

/// The profiles that operands name.
#[derive(Debug, Drop)]
pub struct NamedProfiles<'a> {
    /// The profiles.
    pub profiles: Vec<NamedProfile<'a>>,
    /// The paths of the files of folders that have the ending of a profile, and are none since they set no root, though they say
    /// something else and no other one includes them.
    pub rootless: Vec<String>,
}

/// The profiles that these operands name, in their order: that of a file whose path ends with `.prf`, or those of a folder. An operand
/// `NAME=OPERAND` has those of the machine NAME in the file or folder OPERAND.
///
/// Each has the paths of the files of its folder that it leaves out: those with a root that it includes. The rootless files are those
/// of folders that set no root and say something else, if no other one includes them. Beside the profile of a file none is left out.
///
/// Their texts have at most `INCLUDED_BYTES` bytes together. The fault is that of the first operand with one.
pub fn profiles_named<'a, F: FileReader>(
    alloc: Global,
    reader: &F,
    operands: &[&'a str],
) -> Result<NamedProfiles<'a>, Untaken>
    ensures ok { IfOk result (λ v. HoldNamed (F.reads reader.now) (F.lists reader.now)
        operands.now v.profiles.items) }
    ensures noted { IfOk result
        (HoldNoted (F.reads reader.now) (F.lists reader.now) operands.now) }
    ensures fits { IfOk result
        (λ v. profile_bytes (folder_profiles v.profiles.items) ≤ INCLUDED_BYTES) }
    ensures err { IfErr result (IsUnnamed (F.reads reader.now) (F.lists reader.now)
        (texts_in operands.now)) }
{
    let mut profiles = Vec::new(alloc);
    let mut rootless = Vec::new(alloc);
    let mut taken = 0;
    for operand in operands {
        match profiles_of(alloc, reader, *operand, taken) {
            Ok(own) => {
                taken = bytes_with(taken, own.profiles.as_slice());
                push_all(&mut profiles, machine_of(*operand), own.profiles)?;
                push_paths(&mut rootless, own.rootless)?;
            }
            Err(fault) => return Err(fault),
        }
    }
    Ok(NamedProfiles { profiles, rootless })
}

/// The bytes of these texts and of those that were taken before.
#[tactic(auto, using(crate::proofs::OperandFacts::profile_bytes_cons))]
fn bytes_with(taken: usize, own: &[FolderProfile]) -> usize
    requires { taken + profile_bytes own.now ≤ INCLUDED_BYTES }
    ensures { result ≡ taken + profile_bytes own.now }
{
    let mut bytes = taken;
    let mut rest = own;
    while let Some((first, others)) = rest.split_first() {
        bytes += first.text.len();
        rest = others;
    }
    bytes
}

/// Adds these paths.
fn push_paths(paths: &mut Vec<String>, others: Vec<String>) -> Result<(), AllocError>
    ensures { OnOk result (paths.new.items ≡ paths.old.items ++ others.items) }
{
    for path in others {
        paths.push(path)?;
    }
    Ok(())
}

/// Adds these profiles of this machine.
fn push_all<'a>(
    all: &mut Vec<NamedProfile<'a>>,
    machine: Option<&'a str>,
    own: Vec<FolderProfile>,
) -> Result<(), AllocError>
    ensures { OnOk result (all.new.items ≡ all.old.items ++ map (named machine.entry) own.items) }
{
    for profile in own {
        all.push(NamedProfile { machine, profile })?;
    }
    Ok(())
}

/// The profiles that an operand names. So many bytes of texts were taken before.
fn profiles_of<F: FileReader>(
    alloc: Global,
    reader: &F,
    operand: &str,
    taken: usize,
) -> Result<TakenProfiles, Untaken>
    requires { taken ≤ INCLUDED_BYTES }
    ensures ok { IfOk result (λ v. HoldPath (F.reads reader.now) (F.lists reader.now)
        (machines.source_of operand.now) v.profiles.items) }
    ensures noted { IfOk result (HoldNotedPath (F.reads reader.now) (F.lists reader.now)
        (machines.source_of operand.now)) }
    ensures fits { IfOk result (λ v. taken + profile_bytes v.profiles.items ≤ INCLUDED_BYTES) }
    ensures err { IfErr result (operands_as.IsFault (F.reads reader.now) (F.lists reader.now) taken
        (machines.source_of operand.now)) }
{
    profiles_at(alloc, reader, source_of(operand), taken)
}

/// The profiles at a path. So many bytes of texts were taken before.
fn profiles_at<F: FileReader>(
    alloc: Global,
    reader: &F,
    path: &str,
    taken: usize,
) -> Result<TakenProfiles, Untaken>
    requires { taken ≤ INCLUDED_BYTES }
    ensures ok { IfOk result (λ v. HoldPath (F.reads reader.now) (F.lists reader.now)
        path.now v.profiles.items) }
    ensures noted { IfOk result
        (HoldNotedPath (F.reads reader.now) (F.lists reader.now) path.now) }
    ensures fits { IfOk result (λ v. taken + profile_bytes v.profiles.items ≤ INCLUDED_BYTES) }
    ensures err { IfErr result
        (operands_as.IsFault (F.reads reader.now) (F.lists reader.now) taken path.now) }
{
    if !path.as_bytes().ends_with(b".prf") {
        return profiles_in(alloc, reader, path, taken);
    }
    let profile = profile_in(alloc, reader, path, taken)?;
    let mut profiles = Vec::new(alloc);
    profiles.push(profile)?;
    Ok(TakenProfiles {
        profiles,
        rootless: Vec::new(alloc),
    })
}
