//! Waves of jobs.
ghost use Rattle.std.specs.Prelude.{◌≡◌, ◌<◌, ℕ, length, max, IfOk, IfErr, MatchOption};
ghost use Rattle.hub_reach.specs.Safe as safe;
ghost use Rattle.hub_rounds.specs.Lines as said;
ghost use Rattle.hub_starter.specs.Waves as spec;
ghost use Rattle.hub_starter.specs.Waves.{AreLow, AreWaves, IsNextWave, IsWavesFault, MayFollow, NoOwnLines, RiseBy};

use crate::fault::WavesFault;
use crate::laws::jobs_without_a_line_do_not_clash;
use hub_cert::{CheckFault, ProfileSet};
use hub_profile::Profile;
use hub_rounds::{Obstacle, Subject, clashes_of, subject_of};
use hub_runner::JobPair;
use hub_text::Items;
use std::alloc::{AllocError, Global};
use std::marker::Model;

/// The jobs of a set in waves, by number from 0 on. Of two jobs that clash the later one is in no earlier wave. If both have the
/// same two roots, it is in a later wave: its archive must be the one that the earlier job leaves. If no two jobs that clash have
/// the same two roots, there is one wave.
///
/// It also has each pair of jobs that clash: within a wave the later one waits for the earlier one. Two jobs also count as
/// clashing if whether they do has too many stages to be searched.
///
/// No profile of the set breaks a rule.
#[derive(Drop)]
pub struct Waves<'a> {
    set: &'a ProfileSet,
    numbers: Items<usize>,
    pairs: Items<JobPair>,
    count: usize,
}

impl<'a> Model for Waves<'a> {
    ghost use Rattle.hub_starter.specs.Waves.{AreWaves, WavesValue, waves_value};

    ghost Value = { WavesValue };

    ghost view = { λ w. waves_value w.set.now w.numbers w.pairs w.count };

    ghost invariant = { λ w. AreWaves (waves_value w.set.now w.numbers w.pairs w.count) };
}

impl<'a> Waves<'a> {
    /// Borrows the set.
    pub fn set(&self) -> &'a ProfileSet
        ensures value { result.now ≡ self.now.set }
        ensures are { AreWaves self.now }
    {
        self.set
    }

    /// Returns how many waves there are: at least one, also if there is no job.
    pub fn count(&self) -> usize
        ensures { result ≡ self.now.count }
    {
        self.count
    }

    /// Borrows the wave of each job.
    pub fn numbers(&self) -> &[usize]
        ensures { result.now ≡ self.now.numbers }
    {
        self.numbers.as_slice()
    }

    /// Borrows the pairs of jobs that may clash.
    pub fn pairs(&self) -> &[JobPair]
        ensures { result.now ≡ self.now.pairs }
    {
        self.pairs.as_slice()
    }
}

/// Puts the jobs of a set into waves. It searches for each goal of the set, as `clashes_of` does. A job's wave is the first one
/// that it may be in: not before that of an earlier job that it may clash with, and after it if both have the same two roots.
///
/// `MayBreak` says that a profile may break a rule of the set, or that this has too many stages to be searched: the first such line
/// of `clashes_of`.
pub fn waves_of(alloc: Global, set: &ProfileSet) -> Result<Waves<'_>, WavesFault>
    ensures set { IfOk result (λ w. w.set ≡ set.now) }
    ensures refused { IfErr result (IsWavesFault set.now) }
{
    jobs_without_a_line_do_not_clash();
    let clashes = clashes_of(alloc, set)?;
    let lines = clashes.lines();
    if let Some((profile, reason)) = find_obstacle(lines) {
        return Err(WavesFault::MayBreak { profile, reason });
    }
    let pairs = pairs_of(alloc, lines)?;
    let numbers = numbers_of(alloc, set.profiles(), pairs.as_slice())?;
    let count = count_of(numbers.as_slice());
    Ok(Waves {
        set,
        numbers: Items::from_vec(numbers),
        pairs: Items::from_vec(pairs),
        count,
    })
}

/// Finds the first line that is about a profile alone.
fn find_obstacle(lines: &[CheckFault]) -> Option<(usize, Obstacle)>
    ensures { MatchOption result (NoOwnLines lines.now)
        (λ found. said.HasOwnLine lines.now found.0 found.1) }
{
    for line in lines {
        if let Subject::Alone { profile, reason } = subject_of(line) {
            return Some((profile, reason));
        }
    }
    None
}

/// Returns the pair of each line that is about two profiles.
fn pairs_of(alloc: Global, lines: &[CheckFault]) -> Result<Vec<JobPair>, AllocError>
    ensures { IfOk result (λ v. v.items ≡ spec.pairs_in lines.now) }
{
    let mut pairs = Vec::new(alloc);
    for line in lines {
        if let Some(pair) = pair_of(line) {
            pairs.push(pair)?;
        }
    }
    Ok(pairs)
}

/// Returns the two profiles that a line is about, the lower number first.
fn pair_of(line: &CheckFault) -> Option<JobPair>
    ensures { result ≡ spec.pair_said (said.subject_of line.now) }
{
    match subject_of(line) {
        Subject::Pair { writer, other } => Some(JobPair {
            earlier: writer.min(other),
            later: writer.max(other),
        }),
        Subject::Alone { .. } => None,
        Subject::Nothing => None,
    }
}

/// Returns the wave of the job of each profile.
fn numbers_of(
    alloc: Global,
    profiles: &[Profile],
    pairs: &[JobPair],
) -> Result<Vec<usize>, AllocError>
    ensures count { IfOk result (λ v. length v.items ≡ length profiles.now) }
    ensures rise { IfOk result (λ v. RiseBy profiles.now pairs.now v.items) }
    ensures low { IfOk result (λ v. AreLow v.items) }
{
    let mut numbers = Vec::new(alloc);
    for _ in 0..profiles.len() {
        let next = next_wave(profiles, pairs, numbers.as_slice());
        numbers.push(next)?;
    }
    Ok(numbers)
}

/// Returns the wave of the job that comes after these.
fn next_wave(profiles: &[Profile], pairs: &[JobPair], numbers: &[usize]) -> usize
    requires low { AreLow numbers.now }
    ensures { IsNextWave profiles.now pairs.now numbers.now result }
{
    let mut next = 0;
    for pair in pairs {
        next = later_of(next, wave_after(profiles, numbers, *pair));
    }
    next
}

/// Returns the later of two waves.
fn later_of(one: usize, other: usize) -> usize
    ensures { result ≡ max one other }
{
    if one < other { other } else { one }
}

/// Returns the first wave that the job that comes after these may be in, by this pair: 0 if the pair isn't about it.
fn wave_after(profiles: &[Profile], numbers: &[usize], pair: JobPair) -> usize
    requires low { AreLow numbers.now }
    ensures { MayFollow profiles.now numbers.now pair result }
{
    if pair.later != numbers.len() {
        return 0;
    }
    match numbers.get(pair.earlier) {
        Some(wave) => *wave + gap(profiles, pair),
        None => 0,
    }
}

/// Returns how many waves later the later job of a pair must be: one if both have the same two roots, and so one archive.
fn gap(profiles: &[Profile], pair: JobPair) -> usize
    ensures { result ≡ spec.gap profiles.now pair.earlier pair.later }
{
    match (profiles.get(pair.earlier), profiles.get(pair.later)) {
        (Some(own), Some(other)) => usize::from(share_archive(own, other)),
        _ => 0,
    }
}

/// Returns whether the roots of the first are roots of the second.
fn share_archive(own: &Profile, other: &Profile) -> bool
    ensures { result ≡ safe.share_archive own.now other.now }
{
    own.roots().iter().all(|root| other.has_root(root))
}

/// Returns how many waves there are, at least one.
fn count_of(numbers: &[usize]) -> usize
    requires { (j : ℕ) → j < length numbers.now → spec.wave_of numbers.now j < length numbers.now }
    ensures below { spec.AreBelow result numbers.now }
    ensures some { 0 < result }
{
    let mut count = 1;
    for wave in numbers {
        if *wave >= count {
            count = *wave + 1;
        }
    }
    count
}
