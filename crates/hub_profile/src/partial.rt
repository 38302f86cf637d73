use crate::bars::Bars;
use hub_glob::PathSpec;
use hub_path::Side;
use hub_text::Exact;

/// The changes that a profile doesn't make at one of its roots, on the paths that a specification matches (this
/// project's choice).
#[derive(Debug, Drop, PartialEq, Eq)]
pub struct Partial {
    /// The side of the root.
    pub side: Side,
    /// The changes.
    pub bars: Bars,
    /// The specification of the paths.
    pub spec: PathSpec,
}

impl Exact for Partial {
    ghost use Rattle.hub_path.specs.contracts.side.SideExact.TheImpl.Laws as side;
    ghost use Rattle.hub_glob.specs.contracts.path_spec.PathSpecExact.TheImpl.Laws as spec;
    ghost use Rattle.hub_profile.specs.laws.Exact.{partial_exact, bars_exact};

    ghost exact = { partial_exact side.exact-law bars_exact spec.exact-law };
}
