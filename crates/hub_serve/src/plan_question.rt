//! What may be asked where a faulty profile keeps no other from being read.

/// What is asked, where a faulty profile keeps no other from being read.
#[derive(Clone, Copy, Debug, PartialEq, Eq)]
pub(crate) enum PlanQuestion {
    /// A plan of Unison's runs.
    Plan,
    /// Rounds of the profiles that are read. The others run alone.
    Rounds,
}
