//! Whether two states are the same.
ghost use Rattle.std.specs.Prelude.{◌≡◌, ◌↔◌, ◌<◌, length, IsTrue, IfOk};
ghost use Rattle.ob_step_laws.specs.Given.{IsMade};
ghost use Rattle.ob_site_same.specs.Logs.{SameLogAt};

use crate::alarms::same_board;
use crate::records::same_records;
use ob_site_state::State;
use ob_tree::{NodeId, Tree};
use std::alloc::{AllocError, Global};

/// The root, whose number is 0.
const ROOT: NodeId = NodeId { number: 0 };

/// Whether the own objects are the same.
fn same_tree(alloc: Global, tree: &Tree, other: &Tree) -> Result<bool, AllocError>
    ensures { IfOk result (λ yes. IsTrue yes ↔ (tree.now.root ≡ other.now.root)) }
{
    let root = tree.copy(alloc, ROOT)?;
    let other = other.copy(alloc, ROOT)?;
    Ok(root.same(&other))
}

/// Whether the logs of a place are the same.
fn same_log(state: &State, other: &State, place: usize) -> bool
    requires there { place < length state.now.now.logs }
    requires there_too { place < length other.now.now.logs }
    ensures { IsTrue result ↔ SameLogAt state.now.now.logs other.now.now.logs place }
{
    let log = state.log(place);
    let beside = other.log(place);
    state.capacity(place) == other.capacity(place)
        && log.gone() == beside.gone()
        && same_records(log, beside)
}

/// Whether all logs are the same, in two states of one plan.
fn same_logs(state: &State, other: &State) -> bool
    ensures { state.now.plan ≡ other.now.plan → IsTrue result ↔ (state.now.now.logs ≡ other.now.now.logs) }
{
    state.sound_law();
    other.sound_law();
    if state.histories() != other.histories() {
        return false;
    }
    for place in 0..state.histories() {
        if !same_log(state, other, place) {
            return false;
        }
    }
    true
}

/// Whether two states of one plan are the same: their own objects, libraries, logs, alarms and events. An error only for want of
/// memory, since the own objects are copied to be compared.
pub fn same_state(alloc: Global, state: &State, other: &State) -> Result<bool, AllocError>
    requires made { IsMade state.now.now }
    requires made_too { IsMade other.now.now }
    ensures { IfOk result (λ yes. state.now.plan ≡ other.now.plan → IsTrue yes ↔ (state.now.now ≡ other.now.now)) }
{
    if !same_tree(alloc, state.tree(), other.tree())? {
        return Ok(false);
    }
    Ok(same_logs(state, other) && same_board(state.alarms(), other.alarms()))
}
