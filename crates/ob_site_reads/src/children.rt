//! Whether a node is shown with a child of a name, without showing it.
ghost use Rattle.std.specs.Prelude.{◌≡◌, ◌<◌, Some, is_some, option_map, IfOk};
ghost use Rattle.ob_object.specs.Object.{parts};
ghost use Rattle.ob_object.specs.WellFormed.{named};
ghost use Rattle.ob_site_rules.specs.Build.{child};
ghost use Rattle.ob_shown_laws.specs.OwnTree.{own_shown_at};

use crate::roles::derived;
use ob_contracts::Steps;
use ob_object::find_named;
use ob_site_state::State;
use ob_tree::NodeId;
use ob_values::Text;
use std::alloc::AllocError;
use std::sync::ledger::Ledger;

/// Whether an own node is shown with a child of a name: an own one, one that it inherits, or one that its roles derive. No
/// child is shown for it. An error only for want of memory.
pub fn shows_child<L: Ledger>(
    state: &State,
    node: NodeId,
    name: &Text,
    steps: &mut Steps<L>,
) -> Result<bool, AllocError>
    requires { node.number < parts state.now.now.tree }
    ensures { IfOk result (λ has. option_map (λ o. is_some (child name.now o)) (own_shown_at state.now.plan state.now.now node.number) ≡ Some has) }
{
    let tree = state.tree();
    let own = tree.own(node);
    if state.child(node, name.as_str()).is_some() {
        return Ok(true);
    }
    let view = state.view(node, steps);
    if view.child(name.as_str()).is_some() {
        return Ok(true);
    }
    let derived = derived(state, own.head().node_path())?;
    Ok(find_named(&derived, name.as_str()).is_some())
}
