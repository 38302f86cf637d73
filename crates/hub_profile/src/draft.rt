//! What the lines of a profile say.
ghost use Rattle.std.specs.Prelude.{◌≡◌, ◌⊎◌, [], ◌∷◌, Some, None, Ok, Err, IfOk, IfErr, OnOk, IsTrue, chars};
ghost use Rattle.std.specs.List.{list_all};
ghost use Rattle.hub_path.specs.Path.{is_place};
ghost use Rattle.hub_path.specs.Reading as path;
ghost use Rattle.hub_glob.specs.Reading.{spec_reading};
ghost use Rattle.hub_profile.specs.Faults.{FailsAs, FailsAt, FailsWith};
ghost use Rattle.hub_profile.specs.Reading as reading;
ghost use Rattle.hub_profile.specs.Said as said;

use crate::bars::Bars;
use crate::fault::{Fault, ProfileFault};
use crate::kept::kept_or_whole;
use crate::key::{Key, key_named};
use crate::line_by_line::{FromLines, unknown};
use crate::partial_line::PartialLine;
use crate::profile::Profile;
use crate::protection::{Protected, Protection, ProtectionLine, is_left_out, repeats};
use hub_glob::PathSpec;
use hub_path::{Name, PathFault, RelPath, Root, without_last_slash};
use hub_text::{Items, begins_with, is_empty};
use std::alloc::Global;
use std::marker::Model;

/// How many `path` lines a profile may have.
pub const PATH_LINES: usize = 64;

/// How many `ignore` and `ignorenot` lines a profile may have together.
pub const PATTERN_LINES: usize = 64;

/// How many `nodeletionpartial`, `noupdatepartial` and `nocreationpartial` lines a profile may have together.
pub const PARTIAL_LINES: usize = 64;

/// What the lines of a profile say so far: each root, each value of a `path` line, each specification, each line that
/// protects a root, and each line that bars changes on some paths of a root.
#[derive(Drop)]
pub(crate) struct Draft {
    roots: Vec<Root>,
    paths: Vec<RelPath>,
    ignore: Vec<PathSpec>,
    ignorenot: Vec<PathSpec>,
    protections: Vec<ProtectionLine>,
    partials: Vec<PartialLine>,
}

impl Model for Draft {
    ghost use Rattle.hub_profile.specs.Said.{Said};

    ghost Value = { Said };

    ghost view = { λ a. record {
      roots = a.roots.items;
      paths = a.paths.items;
      ignore = a.ignore.items;
      ignorenot = a.ignorenot.items;
      protections = a.protections.items;
      partials = a.partials.items;
    } };
}

impl FromLines for Draft {
    ghost use Rattle.hub_profile.specs.Reading.{with_preference};

    ghost table = { with_preference };

    fn take(&mut self, number: usize, name: &str, value: &str) -> Result<(), Fault> {
        match key_named(name) {
            Some(key) => self.set(key, number, value),
            None => Err(unknown(*self.roots.allocator(), name)),
        }
    }
}

impl Draft {
    /// Nothing has been said.
    pub(crate) fn new(alloc: Global) -> Draft
        ensures { result ≡ said.nothing_said }
    {
        Draft {
            roots: Vec::new(alloc),
            paths: Vec::new(alloc),
            ignore: Vec::new(alloc),
            ignorenot: Vec::new(alloc),
            protections: Vec::new(alloc),
            partials: Vec::new(alloc),
        }
    }

    /// Takes a value of that preference, on the line of that number.
    fn set(&mut self, key: Key, number: usize, value: &str) -> Result<(), Fault>
        ensures ok { OnOk result (reading.AddsValue key self.old number (chars value.now) self.new) }
        ensures err { IfErr result (reading.RefusesValue key self.old number (chars value.now)) }
    {
        match key {
            Key::Root => self.add_root(value),
            Key::Path => self.add_path(value),
            Key::Ignore => self.add_ignore(value),
            Key::IgnoreNot => self.add_ignorenot(value),
            Key::Protect(kind) => self.add_protection(kind, number, value),
            Key::Partial(bars) => self.add_partial(bars, number, value),
            Key::NoEffect => Ok(()),
        }
    }

    fn add_root(&mut self, value: &str) -> Result<(), Fault>
        ensures ok { OnOk result (reading.root_added self.old (chars value.now) ≡ Ok self.new) }
        ensures err { IfErr result (FailsAs (reading.root_added self.old (chars value.now))) }
    {
        let root = Root::read(*self.roots.allocator(), value)?;
        self.roots.push(root)?;
        Ok(())
    }

    fn add_path(&mut self, value: &str) -> Result<(), Fault>
        ensures ok { OnOk result (reading.path_added self.old (chars value.now) ≡ Ok self.new) }
        ensures err { IfErr result (FailsAs (reading.path_added self.old (chars value.now))) }
    {
        if self.paths.len() >= PATH_LINES {
            return Err(Fault::TooMany);
        }
        let path = read_value(*self.paths.allocator(), value)?;
        self.paths.push(path)?;
        Ok(())
    }

    fn add_ignore(&mut self, value: &str) -> Result<(), Fault>
        ensures ok { OnOk result (reading.ignore_added self.old (chars value.now) ≡ Ok self.new) }
        ensures err { IfErr result (FailsAs (reading.ignore_added self.old (chars value.now))) }
    {
        if self.has_all_patterns() {
            return Err(Fault::TooMany);
        }
        let spec = PathSpec::read(*self.ignore.allocator(), value)?;
        self.ignore.push(spec)?;
        Ok(())
    }

    fn add_ignorenot(&mut self, value: &str) -> Result<(), Fault>
        ensures ok { OnOk result (
            reading.ignorenot_added self.old (chars value.now) ≡ Ok self.new) }
        ensures err { IfErr result (FailsAs (reading.ignorenot_added self.old (chars value.now))) }
    {
        if self.has_all_patterns() {
            return Err(Fault::TooMany);
        }
        let spec = PathSpec::read(*self.ignorenot.allocator(), value)?;
        self.ignorenot.push(spec)?;
        Ok(())
    }

    fn add_protection(&mut self, kind: Protection, number: usize, value: &str) -> Result<(), Fault>
        ensures ok { OnOk result (
            reading.protection_added kind self.old number (chars value.now) ≡ Ok self.new) }
        ensures err { IfErr result (
            FailsAs (reading.protection_added kind self.old number (chars value.now))) }
    {
        if repeats(kind, self.protections.as_slice()) {
            return Err(Fault::Repeated);
        }
        if is_left_out(kind, value) {
            return Err(Fault::LeftOutValue);
        }
        let root = Root::read(*self.roots.allocator(), value)?;
        self.protections.push(ProtectionLine {
            line: number,
            protection: kind,
            root,
        })?;
        Ok(())
    }

    fn add_partial(&mut self, bars: Bars, number: usize, value: &str) -> Result<(), Fault>
        ensures ok { OnOk result (
            reading.partial_added bars self.old number (chars value.now) ≡ Ok self.new) }
        ensures err { IfErr result (
            FailsAs (reading.partial_added bars self.old number (chars value.now))) }
    {
        if self.partials.len() >= PARTIAL_LINES {
            return Err(Fault::TooMany);
        }
        let line = PartialLine::read(*self.partials.allocator(), bars, number, value)?;
        self.partials.push(line)?;
        Ok(())
    }

    /// Returns whether there are as many `ignore` and `ignorenot` lines as there may be.
    fn has_all_patterns(&self) -> bool
        ensures { result ≡ reading.has_all_patterns self.now }
    {
        self.ignore.len() + self.ignorenot.len() >= PATTERN_LINES
    }

    /// The profile of that name, if the roots are two and apart, and no line names another one.
    pub(crate) fn finish(self, name: Name) -> Result<Profile, ProfileFault>
        requires roots { IsTrue (list_all is_place self.roots) }
        requires paths { IsTrue (list_all is_place self.paths) }
        ensures ok { IfOk result (λ P. reading.finished name self ≡ Ok P) }
        ensures err { IfErr result (FailsAt (reading.finished name self)) }
    {
        self.into_profile(name)
    }

    fn into_profile(self, name: Name) -> Result<Profile, ProfileFault>
        requires roots { IsTrue (list_all is_place self.roots) }
        requires paths { IsTrue (list_all is_place self.paths) }
        ensures fine { OnOk result (reading.whole_fault self ≡ None) }
        ensures ok { IfOk result (λ P. P ≡ reading.profile name self) }
        ensures err { IfErr result (FailsWith (reading.whole_fault self)) }
    {
        let Draft {
            roots,
            paths,
            ignore,
            ignorenot,
            protections,
            partials,
        } = self;
        let alloc = *roots.allocator();
        let (left, right) = apart_roots(roots)?;
        let protected = Protected::of_lines(protections.as_slice(), partials, &left, &right)?;
        let paths = kept_or_whole(alloc, paths)?;
        Ok(Profile {
            name,
            roots: [left, right],
            paths,
            ignore: Items::from_vec(ignore),
            ignorenot: Items::from_vec(ignorenot),
            protected,
        })
    }
}

/// The two roots, if they are two and apart, or their fault at line 0.
fn apart_roots(roots: Vec<Root>) -> Result<(Root, Root), ProfileFault>
    ensures fine { OnOk result (reading.roots_fault roots.items ≡ None) }
    ensures ok { IfOk result (λ two. two.0 ∷ two.1 ∷ [] ≡ roots.items) }
    ensures line { IfErr result (λ e. e.line ≡ 0) }
    ensures err { IfErr result (λ e. reading.roots_fault roots.items ≡ Some e.fault) }
{
    match two_roots(roots) {
        Ok(two) => Ok(two),
        Err(fault) => Err(ProfileFault { line: 0, fault }),
    }
}

/// The two roots, if they are two and apart.
fn two_roots(mut roots: Vec<Root>) -> Result<(Root, Root), Fault>
    ensures fine { OnOk result (reading.roots_fault roots.items ≡ None) }
    ensures ok { IfOk result (λ two. two.0 ∷ two.1 ∷ [] ≡ roots.items) }
    ensures err { IfErr result (λ e. reading.roots_fault roots.items ≡ Some e) }
{
    if roots.len() != 2 {
        return Err(Fault::RootCount);
    }
    let (Some(right), Some(left)) = (roots.pop(), roots.pop()) else {
        return Err(Fault::RootCount);
    };
    match fault_of_two(&left, &right) {
        Some(fault) => Err(fault),
        None => Ok((left, right)),
    }
}

/// What is wrong with two roots.
fn fault_of_two(left: &Root, right: &Root) -> Option<Fault>
    ensures { result ≡ reading.roots_fault (left.now ∷ right.now ∷ []) }
{
    if left == right {
        return Some(Fault::SameRoots);
    }
    if left.is_within(right) || right.is_within(left) {
        return Some(Fault::RootsNested);
    }
    None
}

/// Reads the value of a `path` line.
fn read_value(alloc: Global, value: &str) -> Result<RelPath, PathFault>
    ensures ok { IfOk result (λ p. reading.kept_reading (chars value.now) ≡ Ok p) }
    ensures err { IfErr result (path.FailsAs (reading.kept_reading (chars value.now))) }
{
    if is_empty(value) {
        return Ok(RelPath::top(alloc));
    }
    if begins_with(value, '/') {
        return Err(PathFault::LeadingSlash);
    }
    RelPath::read(alloc, without_last_slash(value))
}
