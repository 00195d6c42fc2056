//! A write to the state.
ghost use Rattle.std.specs.Prelude.{◌≡◌, false, Some, OnOk, OnErr};
ghost use Rattle.ob_object.specs.Object.{Object};
ghost use Rattle.ob_tree.specs.Laid.{paths};
ghost use Rattle.ob_tree.specs.Paths.{place_of};
ghost use Rattle.ob_site_rules.specs.Writes.{write, written, overfills};
ghost use Rattle.ob_site_actions.specs.Fitting.{CanBeWritten};
ghost use Rattle.ob_site_actions.specs.Limits.{any_counted_out};

use ob_contracts::Steps;
use ob_object::{Attributes, Kind, Slot};
use ob_site_state::{State, same_slot};
use ob_tree::NodeId;
use ob_values::Text;
use std::alloc::AllocError;
use std::sync::ledger::Ledger;

/// An own node, and the path at which it stands.
#[derive(Drop)]
pub struct OwnNode<'a> {
    pub node: NodeId,
    pub path: &'a Text,
}

/// Writes a value to a node: the slot is set; a write to a part of a contract makes the library anew; each history of
/// the node has one more record; and the node's rule acts. Want of memory leaves all but the state now as it was, so
/// that `undo` gives that back. Each part of a contract that is made anew is counted.
///
/// Source: oBIX 1.1, chapter 10 (Networking: Write).
pub fn write<L: Ledger>(
    state: &mut State,
    at: OwnNode<'_>,
    kind: Kind,
    slot: &Slot,
    steps: &mut Steps<L>,
) -> Result<(), AllocError>
    requires node { place_of at.path.now (paths state.old.now.tree) ≡ Some at.node.number }
    requires can { CanBeWritten state.old.plan state.old.now at.path.now kind slot.now }
    requires counts { any_counted_out state.old.plan at.path.now state.old.now.logs ≡ false }
    ensures ok { OnOk result (state.new ≡ record state.old { now = write state.old.plan state.old.time at.entry.path.now kind slot.now state.old.now }) }
    ensures err { OnErr result (state.new ≡ record state.old { now = state.new.now }) }
{
    state.sound_law();
    let copy = slot.copy()?;
    state.set_slot(at.node, copy, steps)?;
    state.record_all(at.path, kind, slot)?;
    state.act(at.path, slot)
}

/// Writes a value to the object of a head that is shown at a node, unless it is equal to the one that is shown.
pub fn write_if_changed<L: Ledger>(
    state: &mut State,
    at: OwnNode<'_>,
    head: &Attributes,
    slot: &Slot,
    steps: &mut Steps<L>,
) -> Result<(), AllocError>
    requires node { place_of at.path.now (paths state.old.now.tree) ≡ Some at.node.number }
    requires can { CanBeWritten state.old.plan state.old.now at.path.now head.now.kind slot.now }
    requires room { overfills state.old.plan state.old.now state.old.time at.path.now head.now slot.now ≡ false }
    ensures ok { OnOk result ((object : Object) → object.head ≡ head.now
        → state.new ≡ record state.old { now = written state.old.plan state.old.time at.entry.path.now object slot.now state.old.now }) }
    ensures err { OnErr result (state.new ≡ record state.old { now = state.new.now }) }
{
    if same_slot(slot, head.slot()) {
        return Ok(());
    }
    state.sound_law();
    write(state, at, head.kind(), slot, steps)
}
