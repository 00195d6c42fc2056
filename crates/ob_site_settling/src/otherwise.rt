//! The own nodes of which a watch shows something else with another library.
ghost use Rattle.std.specs.Prelude.{◌≡◌, ◌<◌, ◌+◌, ◌^◌, All, map, Some, IfOk, OnOk};
ghost use Rattle.ob_object.specs.Object.{parts};
ghost use Rattle.ob_contracts.specs.Inherit.{Contracts};
ghost use Rattle.ob_shown_laws.specs.OwnTree.{own_shown_at};
ghost use Rattle.ob_site_rules.specs.declared.plan.Plan.{Plan};
ghost use Rattle.ob_site_rules.specs.State.{State as SiteState};
ghost use Rattle.ob_step_laws.specs.Defaults.{with_library};
ghost use Rattle.ob_site_settling.specs.Otherwise.{AreOtherwise, AreOtherwiseBelow, AreShown};
ghost use Rattle.ob_site_settling.specs.Watched.{can_be_watched};

use crate::library_before;
use ob_contracts::{Library, Steps};
use ob_object::{Kind, Obj};
use ob_site_reads::derived_part;
use ob_site_state::State;
use ob_tree::{NodeId, Tree};
use std::alloc::AllocError;
use std::sync::ledger::Ledger;

/// Whether an own object is a node that can be watched: any but a feed.
fn can_be_watched(own: &Obj) -> bool
    ensures { result ≡ can_be_watched (Some own.now.head) }
{
    own.head().node_path().is_some() && !own.kind().same(Kind::Feed)
}

/// Puts the numbers of the nodes in an own object, itself counted, of which a watch shows something else where the one object
/// is shown of it than where the other one is. What is in a node that is shown as before isn't looked at.
fn put_otherwise(
    own: &Obj,
    number: u64,
    before: &Obj,
    after: &Obj,
    nodes: &mut Vec<NodeId>,
) -> Result<(), AllocError>
    requires few { number + parts own.now < 2 ^ 64 }
    requires shown { (plan : Plan) × (s : SiteState) × (old : Contracts) × AreShown plan s old number own.now before.now after.now }
    ensures { OnOk result ((plan : Plan) (s : SiteState) (old : Contracts) → AreShown plan s old number own.now before.now after.now
        → AreOtherwiseBelow plan (with_library old s) s.library number (map (λ node. node.number) nodes.old.items)
        → AreOtherwiseBelow plan (with_library old s) s.library (number + parts own.now) (map (λ node. node.number) nodes.new.items)) }
{
    if can_be_watched(own) {
        if before.same(after) {
            return Ok(());
        }
        nodes.push(NodeId { number })?;
    }
    let mut next = number + 1;
    for (place, child) in own.children().iter().enumerate() {
        let (before, after) = (&before.children()[place], &after.children()[place]);
        put_otherwise(child, next, before, after, nodes)?;
        next += child.parts();
    }
    Ok(())
}

/// What is shown of the root by the library of a state and by another one: before and after. An error only for want of
/// memory.
fn both_shown<L: Ledger>(
    state: &State,
    old: &Library,
    root: NodeId,
    steps: &mut Steps<L>,
) -> Result<(Obj, Obj), AllocError>
    requires { root.number < parts state.now.now.tree }
    ensures before { IfOk result (λ both. Some both.0 ≡ own_shown_at state.now.plan (with_library old.now state.now.now) root.number) }
    ensures after { IfOk result (λ both. Some both.1 ≡ own_shown_at state.now.plan state.now.now root.number) }
{
    let dressed = derived_part(state, root)?;
    let before = state.tree().standing(old, root, steps);
    let after = state.standing(root, steps);
    let copy = dressed.copy()?;
    let old_root = before.whole(state.allocator(), copy, steps)?;
    let new_root = after.whole(state.allocator(), dressed, steps)?;
    Ok((old_root, new_root))
}

/// The own objects of a tree can be counted.
fn is_counted(tree: &Tree)
    ensures { parts tree.now.root < 2 ^ 64 }
{
    let _ = tree.len();
}

/// The own nodes of which a watch shows something else with the library of a state than with another one, each
/// once, in document order. The root is shown once by each of the two.
fn nodes_otherwise<L: Ledger>(
    state: &State,
    old: &Library,
    steps: &mut Steps<L>,
) -> Result<Vec<NodeId>, AllocError>
    ensures others { IfOk result (λ nodes. AreOtherwise state.now.plan (with_library old.now state.now.now) state.now.now.library (map (λ node. node.number) nodes.items)) }
    ensures within { IfOk result (λ nodes. All (λ node. node.number < parts state.now.now.tree) nodes.items) }
{
    state.sound_law();
    let tree = state.tree();
    is_counted(tree);
    let root = NodeId { number: 0 };
    let own = tree.copy(state.allocator(), root)?;
    let (before, after) = both_shown(state, old, root, steps)?;
    let mut nodes = Vec::new(state.allocator());
    put_otherwise(&own, 0, &before, &after, &mut nodes)?;
    Ok(nodes)
}

/// The own nodes of which a watch shows something else with the library now than with the one before the step, each
/// once, in document order. An error only for want of memory.
///
/// Source: oBIX 1.1, chapters 7 (Contracts) and 12 (Watch.pollChanges).
pub fn shown_otherwise<L: Ledger>(
    state: &State,
    steps: &mut Steps<L>,
) -> Result<Vec<NodeId>, AllocError>
    ensures others { IfOk result (λ nodes. AreOtherwise state.now.plan (with_library state.now.before.library state.now.now) state.now.now.library (map (λ node. node.number) nodes.items)) }
    ensures within { IfOk result (λ nodes. All (λ node. node.number < parts state.now.now.tree) nodes.items) }
{
    nodes_otherwise(state, library_before(state), steps)
}
