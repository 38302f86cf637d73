ghost use Rattle.std.specs.Prelude.{◌≡◌, [], ◌∷◌, Some, IfOk, IsTrue};

use crate::bars::Bars;
use crate::partial::Partial;
use crate::protection::Protected;
use hub_glob::PathSpec;
use hub_path::{Name, RelPath, Root, Side};
use hub_text::{Exact, Items};
use std::alloc::{AllocError, Global};
use std::marker::Model;

/// A profile: which roots it synchronizes, and what of them (Unison manual, "Preferences").
///
/// The two roots are different and neither lies within the other. The paths are the kept values in the order of
/// their lines, or the empty path alone if there is no line; none is over another.
#[derive(Debug, Drop)]
pub struct Profile {
    pub(crate) name: Name,
    pub(crate) roots: [Root; 2],
    pub(crate) paths: Items<RelPath>,
    pub(crate) ignore: Items<PathSpec>,
    pub(crate) ignorenot: Items<PathSpec>,
    pub(crate) protected: Protected,
}

impl Model for Profile {
    ghost use Rattle.hub_profile.specs.Parts.{Parts, IsProfile, parts_of};

    ghost Value = { Parts };

    ghost view = { λ a. parts_of a.name a.roots a.paths a.ignore a.ignorenot a.protected };

    ghost invariant = { λ a.
        IsProfile (parts_of a.name a.roots a.paths a.ignore a.ignorenot a.protected) };
}

impl Profile {
    ghost use Rattle.hub_profile.specs.Facts.{are_kept, are_roots};
    ghost use Rattle.hub_profile.specs.Parts.{IsProfile, at_side, has_root};

    /// The profile's name.
    pub fn name(&self) -> &Name
        ensures { result.now ≡ self.now.name }
    {
        &self.name
    }

    /// The left and the right root.
    pub fn roots(&self) -> &[Root; 2]
        ensures value { result.now ≡ self.now.roots }
        ensures valid { IsProfile self.now }
    {
        &self.roots
    }

    /// The root of that side.
    pub fn root(&self, side: Side) -> &Root
        ensures value { at_side self.now.roots side ≡ Some result.now }
        ensures valid { IsProfile self.now }
    {
        match side {
            Side::Left => &self.roots[0],
            Side::Right => &self.roots[1],
        }
    }

    /// Returns whether this is the left or the right root.
    pub fn has_root(&self, root: &Root) -> bool
        ensures { result ≡ has_root self.now root.now }
    {
        self.roots.iter().any(|own| own == root)
    }

    /// The kept values in the order of their lines: only these paths, and what is below them, are synchronized.
    pub fn paths(&self) -> &[RelPath]
        ensures value { result.now ≡ self.now.paths }
        ensures valid { IsProfile self.now }
    {
        self.paths.as_slice()
    }

    /// The specifications of the `ignore` lines, in their order. A path that one matches is not synchronized, nor is
    /// what is below it.
    pub fn ignore(&self) -> &[PathSpec]
        ensures { result.now ≡ self.now.ignore }
    {
        self.ignore.as_slice()
    }

    /// The specifications of the `ignorenot` lines, in their order. A path that one matches is not ignored itself.
    pub fn ignorenot(&self) -> &[PathSpec]
        ensures { result.now ≡ self.now.ignorenot }
    {
        self.ignorenot.as_slice()
    }

    /// The side whose root all differences are resolved in favour of, if a `force` line names it (Unison manual,
    /// "Preferences").
    pub fn force(&self) -> Option<Side>
        ensures { result ≡ self.now.force }
    {
        self.protected.force
    }

    /// The side whose root conflicts are resolved in favour of, if a `prefer` line names it (Unison manual,
    /// "Preferences"). Where there is a forced side too, that one decides (this project's choice).
    pub fn prefer(&self) -> Option<Side>
        ensures { result ≡ self.now.prefer }
    {
        self.protected.prefer
    }

    /// The changes that are not made at the left and at the right root, by `nocreation`, `noupdate` and `nodeletion`
    /// lines. `force` and `prefer` lines add none.
    pub fn bars(&self) -> &[Bars; 2]
        ensures { result.now ≡ self.now.bars }
    {
        &self.protected.bars
    }

    /// The changes that are not made at a root on the paths that a specification matches, by `nocreationpartial`,
    /// `noupdatepartial` and `nodeletionpartial` lines in their order.
    pub fn partial(&self) -> &[Partial]
        ensures { result.now ≡ self.now.partial }
    {
        self.protected.partial.as_slice()
    }

    /// The profile with these patterns and partial bars in place of its own.
    pub fn with_patterns(
        mut self,
        ignore: Items<PathSpec>,
        ignorenot: Items<PathSpec>,
        partial: Items<Partial>,
    ) -> Profile
        ensures { result ≡ record self { ignore = ignore; ignorenot = ignorenot; partial = partial } }
    {
        self.ignore = ignore;
        self.ignorenot = ignorenot;
        self.protected.partial = partial;
        self
    }

    /// The profile with these kept values in place of its own.
    pub fn with_paths(mut self, paths: Items<RelPath>) -> Profile
        requires { IsTrue (are_kept paths) }
        ensures { result ≡ record self { paths = paths } }
    {
        self.paths = paths;
        self
    }

    /// The profile with these roots in place of its own.
    pub fn with_roots(mut self, roots: [Root; 2]) -> Profile
        requires { IsTrue (are_roots roots) }
        ensures { result ≡ record self { roots = roots } }
    {
        self.roots = roots;
        self
    }

    /// A copy of the profile that keeps the whole replica, ignores nothing, and has no bars on paths.
    pub fn bare_copy(&self, alloc: Global) -> Result<Profile, AllocError>
        ensures { IfOk result (λ p. p ≡ record self.now {
          paths = [] ∷ [];
          ignore = [];
          ignorenot = [];
          partial = [];
        }) }
    {
        let mut paths = Items::new(alloc);
        paths.push(RelPath::top(alloc))?;
        Ok(Profile {
            name: self.name.copy()?,
            roots: [self.roots[0].copy()?, self.roots[1].copy()?],
            paths,
            ignore: Items::new(alloc),
            ignorenot: Items::new(alloc),
            protected: Protected {
                force: self.protected.force,
                prefer: self.protected.prefer,
                bars: self.protected.bars,
                partial: Items::new(alloc),
            },
        })
    }

    /// The profile with these bars on its whole roots in place of its own.
    pub fn with_bars(mut self, bars: [Bars; 2]) -> Profile
        ensures { result ≡ record self { bars = bars } }
    {
        self.protected.bars = bars;
        self
    }
}

/// Profiles are equal if all that they say is.
impl PartialEq for Profile {
    ghost use Rattle.std.specs.Cmp.{decided, partial_equiv_from_equiv};
    ghost use Rattle.hub_path.specs.contracts.side.SideExact.TheImpl.Laws as side;
    ghost use Rattle.hub_glob.specs.contracts.path_spec.PathSpecExact.TheImpl.Laws as spec;
    ghost use Rattle.hub_profile.specs.Exact.{parts_eq};
    ghost use Rattle.hub_profile.specs.laws.Exact.{parts_exact, partial_exact, bars_exact};

    ghost eq = { parts_eq ⟦<PathSpec as PartialEq>⟧.eq ⟦<Side as PartialEq>⟧.eq
        ⟦<Bars as PartialEq>⟧.eq ⟦<Partial as PartialEq>⟧.eq };

    ghost laws = { partial_equiv_from_equiv
        (decided _ (parts_exact spec.exact-law side.exact-law bars_exact
        (partial_exact side.exact-law bars_exact spec.exact-law))) };

    fn eq(&self, other: &Profile) -> bool {
        self.name == other.name
            && self.roots.as_slice() == other.roots.as_slice()
            && self.paths == other.paths
            && self.ignore == other.ignore
            && self.ignorenot == other.ignorenot
            && self.protected.force == other.protected.force
            && self.protected.prefer == other.protected.prefer
            && self.protected.bars.as_slice() == other.protected.bars.as_slice()
            && self.protected.partial == other.protected.partial
    }
}

impl Eq for Profile {
    ghost use Rattle.std.specs.Cmp.{decided};
    ghost use Rattle.hub_path.specs.contracts.side.SideExact.TheImpl.Laws as side;
    ghost use Rattle.hub_glob.specs.contracts.path_spec.PathSpecExact.TheImpl.Laws as spec;
    ghost use Rattle.hub_profile.specs.laws.Exact.{parts_exact, partial_exact, bars_exact};

    ghost laws = { decided _ (parts_exact spec.exact-law side.exact-law bars_exact
        (partial_exact side.exact-law bars_exact spec.exact-law)) };
}

impl Exact for Profile {
    ghost use Rattle.hub_path.specs.contracts.side.SideExact.TheImpl.Laws as side;
    ghost use Rattle.hub_glob.specs.contracts.path_spec.PathSpecExact.TheImpl.Laws as spec;
    ghost use Rattle.hub_profile.specs.laws.Exact.{parts_exact, partial_exact, bars_exact};

    ghost exact = { parts_exact spec.exact-law side.exact-law bars_exact
        (partial_exact side.exact-law bars_exact spec.exact-law) };
}
