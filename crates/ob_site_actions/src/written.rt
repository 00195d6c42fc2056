//! A write at a path, whether an own node is there or not.
ghost use Rattle.std.specs.Prelude.{◌≡◌, false, None, OnOk, OnErr};
ghost use Rattle.ob_object.specs.Object.{Object};
ghost use Rattle.ob_tree.specs.Laid.{paths};
ghost use Rattle.ob_tree.specs.Paths.{place_of};
ghost use Rattle.ob_site_rules.specs.Writes.{written, overfills};
ghost use Rattle.ob_site_actions.specs.Fitting.{CanBeWritten};

use crate::{OwnNode, write_if_changed};
use ob_contracts::Steps;
use ob_object::{Attributes, Slot};
use ob_site_state::{State, same_slot};
use ob_values::Text;
use std::alloc::AllocError;
use std::sync::ledger::Ledger;

/// Writes a value to what a role derives at a path, where there is no own node: no slot is set.
fn written_derived(
    state: &mut State,
    path: &Text,
    head: &Attributes,
    slot: &Slot,
) -> Result<(), AllocError>
    requires off { place_of path.now (paths state.old.now.tree) ≡ None }
    requires can { CanBeWritten state.old.plan state.old.now path.now head.now.kind slot.now }
    requires room { overfills state.old.plan state.old.now state.old.time path.now head.now slot.now ≡ false }
    ensures ok { OnOk result ((object : Object) → object.head ≡ head.now
        → state.new ≡ record state.old { now = written state.old.plan state.old.time path.now object slot.now state.old.now }) }
    ensures err { OnErr result (state.new ≡ record state.old { now = state.new.now }) }
{
    if same_slot(slot, head.slot()) {
        return Ok(());
    }
    state.sound_law();
    state.record_all(path, head.kind(), slot)?;
    state.act(path, slot)
}

/// Writes a value to the object of a head that is shown at a path, unless it is equal to the one that is shown. Want of
/// memory leaves all but the state now as it was.
pub(crate) fn written_at<L: Ledger>(
    state: &mut State,
    path: &Text,
    head: &Attributes,
    slot: &Slot,
    steps: &mut Steps<L>,
) -> Result<(), AllocError>
    requires can { CanBeWritten state.old.plan state.old.now path.now head.now.kind slot.now }
    requires room { overfills state.old.plan state.old.now state.old.time path.now head.now slot.now ≡ false }
    ensures ok { OnOk result ((object : Object) → object.head ≡ head.now
        → state.new ≡ record state.old { now = written state.old.plan state.old.time path.now object slot.now state.old.now }) }
    ensures err { OnErr result (state.new ≡ record state.old { now = state.new.now }) }
{
    match state.tree().get(path) {
        Some(node) => write_if_changed(state, OwnNode { node, path }, head, slot, steps),
        None => written_derived(state, path, head, slot),
    }
}
