use crate::op::Op;
use hub_path::Side;

/// What a job asks.
#[derive(Debug, Drop)]
pub struct Asked {
    /// The side of the replica that is asked.
    pub side: Side,
    /// The operation.
    pub op: Op,
}
