//! What a safe set rules out.
use hub_path::Side;

/// A place that two profiles share.
#[derive(Clone, Copy, Debug, PartialEq, Eq, PartialOrd, Ord)]
pub enum Place {
    /// The replica at the writer's root of that side.
    Replica(Side),
    /// The archive of their two roots, which they name in either order.
    Archive,
}

/// What has to be ruled out of a set, by the numbers of its profiles and rules.
#[derive(Clone, Copy, Debug, PartialEq, Eq, PartialOrd, Ord)]
pub enum Goal {
    /// The writer writes a path (reaches one, for an archive), and the other profile reaches it or one below it.
    Clash {
        /// The number of the profile that writes.
        writer: usize,
        /// The number of the profile that reaches.
        other: usize,
        /// Where both meet.
        place: Place,
    },
    /// The profile reaches a path that the rule's specification matches, and may do there what the rule forbids.
    Breach {
        /// The profile's number.
        profile: usize,
        /// The rule's number.
        rule: usize,
    },
}
