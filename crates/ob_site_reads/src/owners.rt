//! What is shown at a path that a role derives.
ghost use Rattle.std.specs.Prelude.{◌≡◌, ◌<◌, ◌++◌, [], ◌∷◌, Some, nat_eq, option_map, option_and_then, IfOk};
ghost use Rattle.std.specs.Option.{option_copied};
ghost use Rattle.std.specs.List.{starts_with};
ghost use Rattle.ob_object.specs.Object.{parts};
ghost use Rattle.ob_tree.specs.Contexts.{comes_to, handed_down, under};
ghost use Rattle.ob_tree.specs.Shown.{standing_at};
ghost use Rattle.ob_tree.specs.Laid.{AreLeaves, head_at};
ghost use Rattle.ob_shown_laws.specs.Alike.{row};
ghost use Rattle.ob_shown_laws.specs.OwnShown.{IsNotDerived};
ghost use Rattle.ob_site_reads.specs.Deriving.{IsOff, IsOffBelow, IsAmong, ShownOr};

use crate::parents::parent_path;
use crate::roles::derived;
use ob_contracts::Steps;
use ob_object::Obj;
use ob_plain_state::is_path;
use ob_site_state::State;
use ob_tree::NodeId;
use ob_values::Text;
use std::alloc::AllocError;
use std::sync::ledger::Ledger;

/// Whether a path begins with another.
pub fn begins_with(path: &Text, front: &Text) -> bool
    ensures { result ≡ starts_with nat_eq path.now front.now }
{
    let front = front.as_str().as_bytes();
    path.as_str().as_bytes().starts_with(front)
}

/// The node of a path among objects that have none in them.
fn among<'a>(objects: &'a [Obj], path: &Text) -> Option<&'a Obj>
    requires { AreLeaves objects.now }
    ensures { IsAmong path.now objects.now (option_copied result) }
{
    for object in objects {
        if is_path(path, object.head().node_path()) {
            return Some(object);
        }
    }
    None
}

/// What is shown of a child that the own object of a number has, where it stands.
fn shown_inside<L: Ledger>(
    state: &State,
    node: NodeId,
    child: &Obj,
    steps: &mut Steps<L>,
) -> Result<Obj, AllocError>
    requires { node.number < parts state.now.now.tree }
    ensures { IfOk result (λ o. Some o ≡ option_and_then (λ h. option_map (λ c. comes_to (under (handed_down c h) child.now.head.name) child.now) (standing_at state.now.now.library node.number state.now.now.tree)) (head_at node.number state.now.now.tree)) }
{
    let inside = state.inside(node, child.head().name(), steps);
    let copy = child.copy()?;
    inside.whole(state.allocator(), copy, steps)
}

/// What is shown at a path that the roles of the own node at another derive.
fn shown_by<L: Ledger>(
    state: &State,
    owner: &Text,
    path: &Text,
    steps: &mut Steps<L>,
) -> Result<Option<Obj>, AllocError>
    ensures { IfOk result (ShownOr state.now.plan state.now.now path.now (IsOff state.now.plan state.now.now path.now owner.now)) }
{
    if !begins_with(path, owner) {
        return Ok(None);
    }
    state.sound_law();
    let tree = state.tree();
    let Some(node) = tree.get(owner) else {
        return Ok(None);
    };
    let children = derived(state, Some(owner))?;
    match among(&children, path) {
        Some(child) => {
            let shown = shown_inside(state, node, child, steps)?;
            Ok(Some(shown))
        }
        None => Ok(None),
    }
}

/// What is shown at a path that the roles of a node of this path derive, or of this path with a slash behind it.
fn shown_by_parent<L: Ledger>(
    state: &State,
    parent: &Text,
    path: &Text,
    steps: &mut Steps<L>,
) -> Result<Option<Obj>, AllocError>
    ensures { IfOk result (ShownOr state.now.plan state.now.now path.now (IsOff state.now.plan state.now.now path.now parent.now × IsOff state.now.plan state.now.now path.now (parent.now ++ 47 ∷ []))) }
{
    let shown = shown_by(state, parent, path, steps)?;
    if shown.is_some() {
        return Ok(shown);
    }
    let parent = parent.followed_by(state.allocator(), "/")?;
    shown_by(state, &parent, path, steps)
}

/// What is shown at a path that the roles of the node in front of it derive.
fn shown_below<L: Ledger>(
    state: &State,
    path: &Text,
    steps: &mut Steps<L>,
) -> Result<Option<Obj>, AllocError>
    ensures { IfOk result (ShownOr state.now.plan state.now.now path.now (IsOffBelow state.now.plan state.now.now path.now)) }
{
    match parent_path(state.allocator(), path)? {
        Some(parent) => shown_by_parent(state, &parent, path, steps),
        None => Ok(None),
    }
}

/// What is shown at a path that a role derives, and `None` where none does. Two nodes alone are looked at: the root, and the
/// one in front of the path's last slash. An error only for want of memory.
///
/// Source: that roles derive children is this profile's own.
pub fn shown_derived<L: Ledger>(
    state: &State,
    path: &Text,
    steps: &mut Steps<L>,
) -> Result<Option<Obj>, AllocError>
    ensures { IfOk result (ShownOr state.now.plan state.now.now path.now (IsNotDerived state.now.plan state.now.now path.now (row state.now.now.tree))) }
{
    let shown = shown_by(state, &state.plan().root, path, steps)?;
    if shown.is_some() {
        return Ok(shown);
    }
    shown_below(state, path, steps)
}
