//! Lines that bar changes on some paths of a root: `nodeletionpartial`, `noupdatepartial` and `nocreationpartial`.
ghost use Rattle.std.specs.Prelude.{◌≡◌, Ok, IfOk, IfErr, chars, map};
ghost use Rattle.hub_profile.specs.Faults.{FailsAs};
ghost use Rattle.hub_profile.specs.PartialLines as lines;

use crate::arrow::spec_and_root;
use crate::bars::Bars;
use crate::fault::Fault;
use crate::partial::Partial;
use hub_glob::PathSpec;
use hub_path::{Root, Side};
use hub_text::Items;
use std::alloc::{AllocError, Global};

/// A line that bars changes on the paths of a root that a specification matches.
#[derive(Debug, Drop)]
pub(crate) struct PartialLine {
    pub(crate) line: usize,
    pub(crate) bars: Bars,
    pub(crate) spec: PathSpec,
    pub(crate) root: Root,
}

impl PartialLine {
    /// Reads the value of the line of that number.
    #[tactic(auto, using(crate::proofs::PartialReadings::read_line, crate::proofs::PartialReadings::spec_refused, crate::proofs::PartialReadings::root_refused))]
    pub(crate) fn read(
        alloc: Global,
        bars: Bars,
        number: usize,
        value: &str,
    ) -> Result<PartialLine, Fault>
        ensures ok { IfOk result
            (λ l. lines.partial_line_reading bars number (chars value.now) ≡ Ok l) }
        ensures err { IfErr result (FailsAs (lines.partial_line_reading bars number (chars value.now))) }
    {
        let Some((spec, root)) = spec_and_root(value) else {
            return Err(Fault::NoArrow);
        };
        let spec = PathSpec::read(alloc, spec)?;
        let root = Root::read(alloc, root)?;
        Ok(PartialLine {
            line: number,
            bars,
            spec,
            root,
        })
    }
}

/// The bars of the lines in their order, where each line names one of the two roots.
pub(crate) fn partials_of(
    alloc: Global,
    partials: Vec<PartialLine>,
    left: &Root,
) -> Result<Items<Partial>, AllocError>
    ensures { IfOk result (λ ps. ps ≡ map (lines.partial_at left.now) partials.items) }
{
    let bars = partials
        .into_iter()
        .map(|line| partial_at(line, left))
        .collect(alloc)?;
    Ok(Items::from_vec(bars))
}

fn partial_at(line: PartialLine, left: &Root) -> Partial
    ensures { result ≡ lines.partial_at left.now line }
{
    let PartialLine {
        line: _,
        bars,
        spec,
        root,
    } = line;
    let side = side_of(&root, left);
    Partial { side, bars, spec }
}

fn side_of(root: &Root, left: &Root) -> Side
    ensures { result ≡ lines.side_of left.now root.now }
{
    if root == left {
        Side::Left
    } else {
        Side::Right
    }
}
