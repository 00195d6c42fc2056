//! What is shown of an own object where it stands.
ghost use Rattle.std.specs.Prelude.{◌≡◌, ◌<◌, ◌+◌, ◌-◌, ◌^◌, min, Some, option_map, IfOk};
ghost use Rattle.ob_object.specs.Object.{parts};
ghost use Rattle.ob_tree.specs.Depths.{depth_at};
ghost use Rattle.ob_tree.specs.Shown.{part_at};
ghost use Rattle.ob_tree.specs.Laid.{paths};
ghost use Rattle.ob_tree.specs.Paths.{place_of};
ghost use Rattle.ob_site_rules.specs.Build.{Path};
ghost use Rattle.ob_site_rules.specs.Shown.{shown};
ghost use Rattle.ob_shown_laws.specs.Own.{derived_own};
ghost use Rattle.ob_shown_laws.specs.OwnTree.{own_shown_at};

use crate::dressing::dress;
use crate::owners::shown_derived;
use ob_contracts::Steps;
use ob_object::Obj;
use ob_site_state::State;
use ob_tree::NodeId;
use ob_values::Text;
use std::alloc::AllocError;
use std::sync::ledger::Ledger;

/// The own object of a number with all that is in it, with the status of each source and the children that roles
/// derive. An error only for want of memory.
pub fn derived_part(state: &State, node: NodeId) -> Result<Obj, AllocError>
    requires { node.number < parts state.now.now.tree }
    ensures { IfOk result (λ o. Some o ≡ option_map (derived_own state.now.plan state.now.now) (part_at node.number state.now.now.tree)) }
{
    state.sound_law();
    let mut own = state.tree().copy(state.allocator(), node)?;
    dress(state, &mut own)?;
    Ok(own)
}

/// What is shown of the own object of a number where it stands: it and all in it, with statuses, derived children
/// and all that they inherit. Where it succeeds it counts one step for each object round it, and one for each object
/// of the answer (`Obj::parts`). An error only for want of memory.
///
/// Source: oBIX 1.1, chapters 6 (Naming) and 7 (Contracts). That roles derive children is this profile's own.
pub fn shown_own<L: Ledger>(
    state: &State,
    node: NodeId,
    steps: &mut Steps<L>,
) -> Result<Obj, AllocError>
    requires { node.number < parts state.now.now.tree }
    ensures stands { IfOk result (λ o. Some o ≡ own_shown_at state.now.plan state.now.now node.number) }
    ensures shows { IfOk result (λ o. (p : Path) → place_of p (paths state.now.now.tree) ≡ Some node.number → shown state.now.plan state.now.now p ≡ Some o) }
    ensures steps { IfOk result (λ o. steps.new ≡ steps.old + depth_at node.number state.now.now.tree + min (parts o) (2 ^ 64 - 1)) }
{
    state.sound_law();
    let dressed = derived_part(state, node)?;
    let standing = state.standing(node, steps);
    standing.whole(state.allocator(), dressed, steps)
}

/// What is shown at a path: of the own node there, or of the node that a role derives there, and `None` where neither
/// is. An error only for want of memory.
///
/// Source: oBIX 1.1, chapters 6 (Naming) and 7 (Contracts). That roles derive children is this profile's own.
pub fn shown_at<L: Ledger>(
    state: &State,
    path: &Text,
    steps: &mut Steps<L>,
) -> Result<Option<Obj>, AllocError>
    ensures { IfOk result (λ o. o ≡ shown state.now.plan state.now.now path.now) }
{
    match state.tree().get(path) {
        Some(node) => {
            let shown = shown_own(state, node, steps)?;
            Ok(Some(shown))
        }
        None => shown_derived(state, path, steps),
    }
}
