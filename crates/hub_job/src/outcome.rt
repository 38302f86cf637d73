use crate::job_end::JobEnd;
use hub_state::State;
use hub_text::Items;

/// What jobs leave.
#[derive(Drop)]
pub struct Outcome {
    /// The state.
    pub state: State,
    /// How each job ended, by its number.
    pub jobs: Items<JobEnd>,
}
