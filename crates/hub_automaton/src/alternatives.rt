ghost use Rattle.std.specs.Prelude.{◌≡◌, ◌<◌, ◌≤◌, ◌+◌, IfOk, IfErr};
ghost use Rattle.hub_automaton.specs.Spots.{spot_count};
ghost use Rattle.hub_automaton.specs.declared.fault.AutomatonFault.TheVariants.{TooManySpots};

use crate::fault::AutomatonFault;
use hub_glob::{Kind, Piece};
use hub_text::Items;

/// How many positions the choices of some specifications may have together (this project's choice).
pub const SPOTS: usize = 4096;

/// The choices of a specification, as lists of pieces, and which part of a text they are matched with.
#[derive(Debug, Drop)]
pub struct Alternatives {
    /// Which part of a text they are matched with.
    pub kind: Kind,
    /// The choices, each a list of pieces.
    pub choices: Items<Items<Piece>>,
}

/// Counts the positions of some choices: for each one more than it has pieces.
pub(crate) fn with_spots(before: usize, choices: &[Items<Piece>]) -> Result<usize, AutomatonFault>
    requires { before ≤ SPOTS }
    ensures ok { IfOk result (λ n. n ≡ before + spot_count choices.now) }
    ensures few { IfOk result (λ n. n ≤ SPOTS) }
    ensures err { IfErr result (λ e. (e ≡ TooManySpots)
        × (SPOTS < before + spot_count choices.now)) }
{
    let mut spots = before;
    for choice in choices {
        if choice.len() >= SPOTS - spots {
            return Err(AutomatonFault::TooManySpots);
        }
        spots += choice.len() + 1;
    }
    Ok(spots)
}
