//! Objects as watches report them.
ghost use Rattle.std.specs.Prelude.{◌≡◌, ◌<◌, ◌+◌, ◌-◌, ◌^◌, min, Some, None, IfOk};
ghost use Rattle.ob_object.specs.Object.{parts};
ghost use Rattle.ob_tree.specs.Depths.{depth_at};
ghost use Rattle.ob_tree.specs.Laid.{paths};
ghost use Rattle.ob_tree.specs.Paths.{place_of};
ghost use Rattle.ob_site_rules.specs.Build.{Path, nameless, under_href};
ghost use Rattle.ob_site_rules.specs.Sites.{plain_or_empty, watched_object};
ghost use Rattle.ob_site_reads.specs.Watchable.{IsWatchableAt};

use crate::shown_own;
use ob_contracts::Steps;
use ob_object::{Kind, Obj};
use ob_site_state::State;
use ob_tree::NodeId;
use std::alloc::{AllocError, Global};
use std::sync::ledger::Ledger;

/// An object without its name and its href; an empty obj where it is a feed or an err.
fn unnamed(alloc: Global, mut object: Obj) -> Obj
    ensures { result ≡ plain_or_empty (under_href None (nameless object)) }
{
    match object.kind() {
        Kind::Feed | Kind::Err => Obj::new(alloc, Kind::Obj),
        _ => match object.put_name(None) {
            Ok(()) => {
                object.put_href(None);
                object
            }
            Err(_name) => unreachable!(),
        },
    }
}

/// The own node of a number as a watch reports it: without its name and its href, and the empty obj where nothing that is
/// watched is there. Where it succeeds at a node that can be watched, it counts one step for each object round the node,
/// and one for each object of the answer (`Obj::parts`). An error only for want of memory.
///
/// Source: oBIX 1.1, chapter 12 (Watches).
pub fn watched_node<L: Ledger>(
    state: &State,
    node: NodeId,
    steps: &mut Steps<L>,
) -> Result<Obj, AllocError>
    requires { node.number < parts state.now.now.tree }
    ensures object { IfOk result (λ o. (p : Path) → place_of p (paths state.now.now.tree) ≡ Some node.number → o ≡ watched_object state.now.plan state.now.now p) }
    ensures steps { IfOk result (λ o. IsWatchableAt node.number state.now.now.tree
        → steps.new ≡ steps.old + depth_at node.number state.now.now.tree + min (parts o) (2 ^ 64 - 1)) }
{
    let object = shown_own(state, node, steps)?;
    Ok(unnamed(state.allocator(), object))
}
