ghost use Rattle.std.specs.Prelude.{◌≡◌, ◌≤◌, ◌++◌, [], ◌∷◌, length, map, chars, IfOk, IfErr, OnOk, OnErr, IsTrue};
ghost use Rattle.std.specs.List.{list_all};
ghost use Rattle.hub_path.specs.Path.{text_of};
ghost use Rattle.hub_glob.specs.declared.piece.Piece.TheVariants.{Lit};
ghost use Rattle.hub_automaton.specs.Spots as seeing;
ghost use Rattle.hub_automaton.specs.Spots.{RefusesSpots};

use crate::alphabet::Alphabet;
use crate::alternatives::{Alternatives, SPOTS, with_spots};
use crate::fault::AutomatonFault;
use crate::spec_set::SpecSet;
use hub_glob::{Kind, PathSpec, Piece};
use hub_path::RelPath;
use hub_text::Items;
use std::alloc::{AllocError, Global};
use std::marker::Model;

/// Collects the choices of specifications and paths for a [`SpecSet`], which has at most `SPOTS` positions.
///
/// A path matches its own text alone. Its choice has a position more than its text has characters.
#[derive(Debug, Drop)]
pub struct SpecSetBuilder {
    alternatives: Vec<Alternatives>,
    spots: usize,
}

impl Model for SpecSetBuilder {
    ghost use Rattle.std.specs.Prelude.{List, ◌≡◌, ◌≤◌};
    ghost use Rattle.hub_automaton.specs.declared.alternatives.Alternatives.{Alternatives};
    ghost use Rattle.hub_automaton.specs.declared.alternatives.TheConstants.{SPOTS};
    ghost use Rattle.hub_automaton.specs.Spots.{spots_count};

    ghost Value = { List Alternatives };

    ghost view = { λ b. b.alternatives.items };

    ghost invariant = { λ b. (b.spots ≡ spots_count b.alternatives.items) × (b.spots ≤ SPOTS) };
}

impl SpecSetBuilder {
    /// Returns a builder that has collected nothing. It doesn't allocate.
    pub fn new(alloc: Global) -> SpecSetBuilder
        ensures { result ≡ [] }
    {
        SpecSetBuilder {
            alternatives: Vec::new(alloc),
            spots: 0,
        }
    }

    /// Returns how many specifications and paths are collected. The next one gets this number.
    pub fn len(&self) -> usize
        ensures { result ≡ length self.now }
    {
        self.alternatives.len()
    }

    /// Returns how many positions all that is collected has. They are at most `SPOTS`.
    pub fn spot_count(&self) -> usize
        ensures value { result ≡ seeing.spots_count self.now }
        ensures few { result ≤ SPOTS }
    {
        self.spots
    }

    /// Adds specifications, in their order.
    ///
    /// The fault is `TooManySpots` when all that is collected would have more than `SPOTS` positions, or `OutOfMemory`.
    /// After either, the first ones of them may have been added.
    pub fn add_specs(&mut self, specs: &[PathSpec]) -> Result<(), AutomatonFault>
        ensures ok { OnOk result (self.new ≡ self.old ++ map seeing.alternatives_of specs.now) }
        ensures err { IfErr result (RefusesSpots
            (self.old ++ map seeing.alternatives_of specs.now)) }
    {
        for spec in specs {
            self.add(spec.kind(), spec.choices()?)?;
        }
        Ok(())
    }

    /// Adds a path, which matches its own text alone.
    ///
    /// The fault is `TooManySpots` when all that is collected would have more than `SPOTS` positions, or `OutOfMemory`.
    /// After either, nothing has been added.
    pub fn add_path(&mut self, path: &RelPath) -> Result<(), AutomatonFault>
        ensures ok { OnOk result (self.new ≡ self.old
            ++ seeing.path_alternatives (text_of path.now) ∷ []) }
        ensures err { IfErr result (RefusesSpots
            (self.old ++ seeing.path_alternatives (text_of path.now) ∷ [])) }
        ensures kept { OnErr result (self.new ≡ self.old) }
    {
        let choices = path_choices(*self.alternatives.allocator(), path)?;
        self.add(Kind::Path, choices)
    }

    /// Adds choices.
    fn add(&mut self, kind: Kind, choices: Items<Items<Piece>>) -> Result<(), AutomatonFault>
        ensures ok { OnOk result (self.new ≡ self.old
            ++ (record { kind = kind; choices = choices }) ∷ []) }
        ensures err { IfErr result (RefusesSpots
            (self.old ++ (record { kind = kind; choices = choices }) ∷ [])) }
        ensures kept { OnErr result (self.new ≡ self.old) }
    {
        let spots = with_spots(self.spots, choices.as_slice())?;
        self.alternatives.push(Alternatives { kind, choices })?;
        self.spots = spots;
        Ok(())
    }

    /// Returns the automaton of what is collected, over an alphabet that mentions its characters.
    pub fn build(self, alphabet: &Alphabet) -> Result<SpecSet, AllocError>
        requires { IsTrue (list_all (seeing.is_covered alphabet.now) self) }
        ensures mentioned { IfOk result (λ s. s.mentioned ≡ alphabet.now) }
        ensures alternatives { IfOk result (λ s. s.alternatives ≡ self) }
        ensures few { IfOk result (λ s. seeing.spots_count s.alternatives ≤ SPOTS) }
    {
        let SpecSetBuilder {
            alternatives,
            spots,
        } = self;
        SpecSet::of_alternatives(alphabet, alternatives, spots)
    }
}

/// The choice of a path: the characters of its text.
fn path_choices(alloc: Global, path: &RelPath) -> Result<Items<Items<Piece>>, AllocError>
    ensures { IfOk result (λ cs. cs ≡ map Lit (text_of path.now) ∷ []) }
{
    let _valid = path.len();
    let text = path.text()?;
    let mut choices = Items::new(alloc);
    choices.push(literals(alloc, text.as_str())?)?;
    Ok(choices)
}

/// The characters of a text as pieces.
fn literals(alloc: Global, text: &str) -> Result<Items<Piece>, AllocError>
    ensures { IfOk result (λ ps. ps ≡ map Lit (chars text.now)) }
{
    let mut pieces = Items::new(alloc);
    for character in text.chars() {
        pieces.push(Piece::Lit(character))?;
    }
    Ok(pieces)
}
