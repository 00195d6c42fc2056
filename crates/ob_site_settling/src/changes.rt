//! Which own nodes a step has changed, told by its notes.
ghost use Rattle.std.specs.Prelude.{◌≡◌, ◌<◌, All, List, [], ◌∷◌, ◌++◌, map, length, option_map, option_to_list, Option, Some, IfOk, OnOk};
ghost use Rattle.std.specs.Option.{option_copied};
ghost use Rattle.ob_object.specs.Object.{parts};
ghost use Rattle.ob_contracts.specs.Inherit.{only_if};
ghost use Rattle.ob_tree.specs.Laid.{head_at};
ghost use Rattle.ob_tree.specs.Shown.{standing_at};
ghost use Rattle.ob_tree.specs.Standings.{context};
ghost use Rattle.ob_site_rules.specs.State.{roll};
ghost use Rattle.ob_shown_laws.specs.Alike.{DifferInValues};
ghost use Rattle.ob_site_state.specs.declared.change.Change.{Change as Note};
ghost use Rattle.ob_site_state.specs.declared.change.Change.TheVariants as note;
ghost use Rattle.ob_site_settling.specs.Ending.{AreChanged};
ghost use Rattle.ob_site_settling.specs.Seen.{HasSeen};
ghost use Rattle.ob_site_settling.specs.Telling.{replaced_or, TellsOf, is_first, is_rule, other_slot_in, other_slot, other_records, node_with};
ghost use Rattle.ob_site_settling.specs.Telling.{other_status, told_by, all_told, subject_told, ended_in_values, IsComparable};

use crate::noted::{alarms_before, library_replaced};
use crate::seen::Seen;
use crate::spans::shows_other_span;
use crate::values::{same_status, shows_other_values};
use ob_contracts::Steps;
use ob_ground::Told;
use ob_object::{Slot, Status};
use ob_site_state::{Change, State};
use ob_tree::{NodeId, Standing};
use std::alloc::AllocError;
use std::sync::ledger::Ledger;

/// Where an object stands with the library before the step: the words that objects name and give are found by those that this
/// library tells, and not looked up for each note.
fn standing_before<'a, L: Ledger>(
    state: &'a State,
    replaced: Option<&'a Told>,
    node: NodeId,
    steps: &mut Steps<L>,
) -> Standing<'a>
    requires within { node.number < parts state.now.now.tree }
    requires told { TellsOf (option_copied replaced) state.now.now }
    ensures { Some (context result) ≡ standing_at (replaced_or (option_copied replaced.entry) state.now.now) node.number state.now.now.tree }
{
    match replaced {
        Some(told) => told.standing(state.tree(), node, steps),
        None => state.standing(node, steps),
    }
}

/// Whether an object, where it stands, shows another slot than it would with this one.
fn shows_other_slot<L: Ledger>(
    state: &State,
    replaced: Option<&Told>,
    node: NodeId,
    slot: &Slot,
    steps: &mut Steps<L>,
) -> Result<bool, AllocError>
    requires comparable { IsComparable state.now.now (note.Slot node slot.now) }
    requires told { TellsOf (option_copied replaced) state.now.now }
    ensures { IfOk result (λ other. other ≡ other_slot_in
        (standing_at (replaced_or (option_copied replaced.entry) state.now.now) node.number state.now.now.tree) (head_at node.number state.now.now.tree) slot.now) }
{
    let tree = state.tree();
    let slot = slot.copy()?;
    let mut before = tree.own(node).copy()?;
    let _now = before.replace_slot(slot);
    let standing = standing_before(state, replaced, node, steps);
    Ok(shows_other_values(&standing, &before, tree.own(node), steps))
}

/// A node of which a note has the slot, if it shows another one.
fn changed_slot<L: Ledger>(
    state: &State,
    replaced: Option<&Told>,
    node: NodeId,
    slot: &Slot,
    steps: &mut Steps<L>,
) -> Result<Option<NodeId>, AllocError>
    requires comparable { IsComparable state.now.now (note.Slot node slot.now) }
    requires told { TellsOf (option_copied replaced) state.now.now }
    ensures { IfOk result (λ found. option_map (λ node. node.number) found
        ≡ other_slot (replaced_or (option_copied replaced.entry) state.now.now) state.now.now node.number slot.now) }
{
    if shows_other_slot(state, replaced, node, slot, steps)? {
        Ok(Some(node))
    } else {
        Ok(None)
    }
}

/// The node of a history that kept so many records, if it shows another count, start or end.
fn changed_records(state: &State, place: usize, len: u64) -> Option<NodeId>
    requires { IsComparable state.now.now (note.Records place len) }
    ensures { option_map (λ node. node.number) result ≡ other_records state.now.now place len }
{
    let capacity = state.capacity(place);
    if shows_other_span(state.log(place), len, capacity) {
        state.tree().get(&state.history(place).0)
    } else {
        None
    }
}

/// Whether a rule is the one that a node has.
fn is_rule(rule: u64, first: Option<u64>) -> bool
    ensures { result ≡ is_rule rule first }
{
    match first {
        Some(first) => first == rule,
        None => false,
    }
}

/// The node that has a rule; where two rules have one source, it has the first.
fn node_with(state: &State, rule: u64) -> Option<NodeId>
    ensures { option_map (λ node. node.number) result ≡ node_with state.now.plan state.now.now rule }
{
    let rules = state.plan().rules.as_slice();
    if rule as usize >= rules.len() {
        return None;
    }
    let source = &rules[rule as usize].source;
    if is_rule(rule, state.rule_of(source)) {
        state.tree().get(source)
    } else {
        None
    }
}

/// The node of a rule whose alarms had this status, if they have another one.
fn changed_status(state: &State, rule: u64, status: Status) -> Option<NodeId>
    ensures { option_map (λ node. node.number) result ≡ other_status state.now.plan state.now.now rule status }
{
    let now = state.alarms().status_of(rule);
    if same_status(Some(status), Some(now)) {
        None
    } else {
        node_with(state, rule)
    }
}

/// The own node that a note tells of as the first one of its kind, if it shows itself otherwise than before.
fn told_by<L: Ledger>(
    state: &State,
    replaced: Option<&Told>,
    change: &Change,
    steps: &mut Steps<L>,
) -> Result<Option<NodeId>, AllocError>
    requires comparable { IsComparable state.now.now change.now }
    requires told { TellsOf (option_copied replaced) state.now.now }
    ensures { IfOk result (λ found. option_map (λ node. node.number) found
        ≡ told_by (replaced_or (option_copied replaced.entry) state.now.now) state.now.plan state.now.now change.now) }
{
    match change {
        Change::Slot { node, slot } => changed_slot(state, replaced, *node, slot, steps),
        Change::Records { place, len } => Ok(changed_records(state, *place, *len)),
        Change::Event { rule, status } => Ok(changed_status(state, *rule, *status)),
        Change::Contracts { told: _ } => Ok(None),
    }
}

/// Puts a node last, if there is one.
fn push_some(found: &mut Vec<NodeId>, node: Option<NodeId>) -> Result<(), AllocError>
    ensures { OnOk result (map (λ node. node.number) found.new.items
        ≡ map (λ node. node.number) found.old.items ++ option_to_list (option_map (λ node. node.number) node)) }
{
    match node {
        Some(node) => {
            found.push(node)?;
            Ok(())
        }
        None => Ok(()),
    }
}

/// The own node that a note tells of, if the note is the first one of its kind and the node shows itself otherwise than before.
fn first_told<L: Ledger>(
    state: &State,
    replaced: Option<&Told>,
    seen: &mut Seen,
    change: &Change,
    steps: &mut Steps<L>,
) -> Result<Option<NodeId>, AllocError>
    requires comparable { IsComparable state.now.now change.now }
    requires told { TellsOf (option_copied replaced) state.now.now }
    ensures seen { OnOk result ((earlier : List Note) → HasSeen earlier seen.old
        → HasSeen (earlier ++ change.now ∷ []) seen.new) }
    ensures found { IfOk result (λ found. (earlier : List Note) → HasSeen earlier seen.old
        → option_map (λ node. node.number) found
        ≡ only_if (is_first earlier change.now) (told_by (replaced_or (option_copied replaced.entry) state.now.now) state.now.plan state.now.now change.now)) }
{
    if seen.is_first(change)? {
        told_by(state, replaced, change, steps)
    } else {
        Ok(None)
    }
}

/// Puts last the own nodes that notes tell of.
fn push_all<L: Ledger>(
    state: &State,
    replaced: Option<&Told>,
    changes: &[Change],
    found: &mut Vec<NodeId>,
    steps: &mut Steps<L>,
) -> Result<(), AllocError>
    requires comparable { All (IsComparable state.now.now) changes.now }
    requires told { TellsOf (option_copied replaced) state.now.now }
    ensures { OnOk result (map (λ node. node.number) found.new.items
        ≡ map (λ node. node.number) found.old.items ++ all_told (replaced_or (option_copied replaced.entry) state.now.now) state.now.plan state.now.now [] changes.now) }
{
    let mut seen = Seen::new(state.allocator());
    for change in changes {
        let node = first_told(state, replaced, &mut seen, change, steps)?;
        push_some(found, node)?;
    }
    Ok(())
}

/// The subject of alarms, if there are not as many as before.
fn changed_subject(state: &State) -> Option<NodeId>
    ensures { option_map (λ node. node.number) result
        ≡ subject_told state.now.plan state.now.now (length state.now.before.alarms) }
{
    if alarms_before(state) == state.alarms().len() {
        return None;
    }
    match &state.plan().subject {
        Some(subject) => state.tree().get(subject),
        None => None,
    }
}

/// The own nodes that show themselves otherwise at the end of this step than before it, with the library of before. A node
/// may be there twice. An error only for want of memory.
///
/// Source: oBIX 1.1, chapter 12 (Watch.pollChanges).
pub fn changed_nodes<L: Ledger>(
    state: &State,
    steps: &mut Steps<L>,
) -> Result<Vec<NodeId>, AllocError>
    ensures changed { IfOk result (λ nodes. AreChanged state.now.plan state.now.before (ended_in_values state.now)
        (map (λ node. node.number) nodes.items)) }
    ensures values { IfOk result (λ nodes. DifferInValues state.now.before (roll state.now.now)
        → AreChanged state.now.plan state.now.before (roll state.now.now) (map (λ node. node.number) nodes.items)) }
    ensures within { IfOk result (λ nodes. All (λ node. node.number < parts state.now.now.tree) nodes.items) }
{
    state.sound_law();
    let replaced = library_replaced(state);
    let mut found = Vec::new(state.allocator());
    push_all(state, replaced, state.changes(), &mut found, steps)?;
    push_some(&mut found, changed_subject(state))?;
    Ok(found)
}
