//! Pairs of jobs, one before the other.

/// Two jobs of which the later one starts when the earlier one has ended. It counts only if the later one's number is greater: so no
/// job waits for itself, nor do two wait for each other.
#[derive(Clone, Copy, Debug)]
pub struct JobPair {
    /// The number of the job that comes first.
    pub earlier: usize,
    /// The number of the job that waits for it.
    pub later: usize,
}
