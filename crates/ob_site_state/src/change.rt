//! What a step changed.
use ob_ground::Told;
use ob_object::{Slot, Status};
use ob_tree::NodeId;

/// What a step changed, as it was before.
#[derive(Drop)]
pub enum Change {
    /// The slot of an own object.
    Slot { node: NodeId, slot: Slot },
    /// How many records the history of this place kept.
    Records { place: usize, len: u64 },
    /// The alarms have one more event: of the alarms of this rule, whose source had this status.
    Event { rule: u64, status: Status },
    /// The library, with the words that it tells.
    Contracts { told: Told },
}
