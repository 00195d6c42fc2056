//! What the end of a step has to stamp, whatever it changed.
ghost use Rattle.std.specs.Prelude.{◌≡◌, ◌<◌, ◌++◌, All, length, map, IfOk};
ghost use Rattle.ob_object.specs.Object.{parts};
ghost use Rattle.ob_site_rules.specs.State.{roll};
ghost use Rattle.ob_site_rules.specs.Shown.{dressed};
ghost use Rattle.ob_shown_laws.specs.Alike.{row, DifferInValues};
ghost use Rattle.ob_shown_laws.specs.Changed.{PathsDiffer};
ghost use Rattle.ob_step_laws.specs.Given.{TakesNoneAway};
ghost use Rattle.ob_site_settling.specs.Telling.{ended_in_values};
ghost use Rattle.ob_site_settling.specs.Ended.{EndsAll};

use crate::otherwise::shown_otherwise;
use crate::{changed_nodes, changes_values};
use ob_contracts::Steps;
use ob_site_state::State;
use ob_tree::NodeId;
use std::alloc::AllocError;
use std::sync::ledger::Ledger;

/// Nodes behind others.
fn joined(mut first: Vec<NodeId>, mut others: Vec<NodeId>) -> Result<Vec<NodeId>, AllocError>
    ensures { IfOk result (λ all. all.items ≡ first.items ++ others.items) }
{
    first.append(&mut others)?;
    Ok(first)
}

/// What the notes of this step tell: but for another library it has changed values alone.
fn is_told(state: &State)
    ensures values { DifferInValues state.now.before (ended_in_values state.now) }
    ensures differ { PathsDiffer (row (dressed state.now.plan state.now.before)) }
{
    let changes = state.changes();
    let _ = changes.len();
}

/// The nodes that a step has to stamp which left another library: those that it changed otherwise, and those of which a
/// watch shows something else with the library.
fn nodes_with_defaults<L: Ledger>(
    state: &State,
    steps: &mut Steps<L>,
) -> Result<Vec<NodeId>, AllocError>
    requires given { TakesNoneAway state.now.plan state.now.before state.now.now }
    requires long { length state.now.stamps ≡ parts state.now.now.tree }
    ensures ends { IfOk result (λ nodes. EndsAll state.now (map (λ node. node.number) nodes.items)) }
    ensures within { IfOk result (λ nodes. All (λ node. node.number < parts state.now.now.tree) nodes.items) }
{
    is_told(state);
    let nodes = changed_nodes(state, steps)?;
    let others = shown_otherwise(state, steps)?;
    joined(nodes, others)
}

/// The nodes that a step has to stamp which left the library.
fn nodes_with_values<L: Ledger>(
    state: &State,
    steps: &mut Steps<L>,
) -> Result<Vec<NodeId>, AllocError>
    requires values { DifferInValues state.now.before (roll state.now.now) }
    requires long { length state.now.stamps ≡ parts state.now.now.tree }
    ensures ends { IfOk result (λ nodes. EndsAll state.now (map (λ node. node.number) nodes.items)) }
    ensures within { IfOk result (λ nodes. All (λ node. node.number < parts state.now.now.tree) nodes.items) }
{
    is_told(state);
    changed_nodes(state, steps)
}

/// The own nodes that the end of this step has to stamp, so that all watches are as the rules of watches have it; a node
/// may be there twice. All own nodes are compared only where the step left another library. An error only for want of
/// memory.
///
/// Source: oBIX 1.1, chapters 7 (Contracts) and 12 (Watch.pollChanges).
pub fn stamped_nodes<L: Ledger>(
    state: &State,
    steps: &mut Steps<L>,
) -> Result<Vec<NodeId>, AllocError>
    requires given { TakesNoneAway state.now.plan state.now.before state.now.now }
    requires long { length state.now.stamps ≡ parts state.now.now.tree }
    ensures ends { IfOk result (λ nodes. EndsAll state.now (map (λ node. node.number) nodes.items)) }
    ensures within { IfOk result (λ nodes. All (λ node. node.number < parts state.now.now.tree) nodes.items) }
{
    if changes_values(state) {
        return nodes_with_values(state, steps);
    }
    nodes_with_defaults(state, steps)
}
