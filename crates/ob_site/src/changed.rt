//! Whether a step has changed the site, told by its notes.
ghost use Rattle.std.specs.Prelude.{◌≡◌, ◌≢◌, MatchBool};
ghost use Rattle.std.specs.List.{find, list_any};
ghost use Rattle.std.specs.Option.{option_copied};
ghost use Rattle.ob_step_laws.specs.Given.{IsMade};
ghost use Rattle.ob_site_rules.specs.State.{roll};
ghost use Rattle.ob_site.specs.Noted as noted;

use ob_object::Slot;
use ob_site_state::{Change, State, same_slot};
use ob_tree::{NodeId, Tree};

/// Whether a note has the slot of a node.
fn is_slot_of(change: &Change, node: NodeId) -> bool
    ensures { result ≡ noted.is_slot_of node.number change.now }
{
    match change {
        Change::Slot {
            node: other,
            slot: _,
        } => other.number == node.number,
        Change::Records { place: _, len: _ }
        | Change::Event { rule: _, status: _ }
        | Change::Contracts { told: _ } => false,
    }
}

/// The slot that a note has, if there is one that has a slot; or else this one.
fn slot_or<'a>(note: Option<&'a Change>, now: &'a Slot) -> &'a Slot
    ensures { result.now ≡ noted.slot_or now.now (option_copied note.entry) }
{
    let Some(change) = note else {
        return now;
    };
    match change {
        Change::Slot { node: _, slot } => slot,
        Change::Records { place: _, len: _ }
        | Change::Event { rule: _, status: _ }
        | Change::Contracts { told: _ } => now,
    }
}

/// The first note that has the slot of a node.
fn first_note(changes: &[Change], node: NodeId) -> Option<&Change>
    ensures { option_copied result ≡ find (noted.is_slot_of node.number) changes.now }
{
    changes.iter().find(|change| is_slot_of(change, node))
}

/// The slot that a node had before the step: that of its first note, or else the one that it has now.
fn slot_before<'a>(changes: &'a [Change], node: NodeId, now: &'a Slot) -> &'a Slot
    ensures { result.now ≡ noted.slot_before node.number changes.now now.now }
{
    slot_or(first_note(changes, node), now)
}

/// Whether a node has another slot than before the step.
fn has_other_slot(changes: &[Change], tree: &Tree, node: NodeId) -> bool
    ensures { result ≡ noted.has_other_slot node.number changes.now tree.now.root }
{
    if node.number >= tree.len() {
        return false;
    }
    let now = tree.own(node).slot();
    !same_slot(slot_before(changes, node, now), now)
}

/// Whether a note tells that something is otherwise than before the step.
fn is_otherwise(changes: &[Change], tree: &Tree, change: &Change) -> bool
    ensures { result ≡ noted.is_otherwise changes.now tree.now.root change.now }
{
    match change {
        Change::Slot { node, slot: _ } => has_other_slot(changes, tree, *node),
        Change::Records { place: _, len: _ } | Change::Event { rule: _, status: _ } => true,
        Change::Contracts { told: _ } => false,
    }
}

/// Whether one of the notes tells that something is otherwise than before the step.
fn is_any_otherwise(changes: &[Change], tree: &Tree) -> bool
    ensures { result ≡ list_any (noted.is_otherwise changes.now tree.now.root) changes.now }
{
    changes
        .iter()
        .any(|change| is_otherwise(changes, tree, change))
}

/// Whether the step has changed the site. What was set and set back is as it was.
pub(crate) fn has_changed(state: &State) -> bool
    requires made_before { IsMade state.now.before }
    requires made { IsMade state.now.now }
    ensures { MatchBool result (roll state.now.now ≢ state.now.before) (state.now.now ≡ state.now.before) }
{
    is_any_otherwise(state.changes(), state.tree())
}
