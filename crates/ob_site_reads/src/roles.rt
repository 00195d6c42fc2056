//! What the roles of a node derive.
ghost use Rattle.std.specs.Prelude.{◌≡◌, cond, ◌&&◌, [], ◌∷◌, length, option_map, IfOk};
ghost use Rattle.std.specs.Str.{bytes_eq};
ghost use Rattle.std.specs.Option.{option_copied};
ghost use Rattle.ob_object.specs.Paths.{is_path};
ghost use Rattle.ob_site_rules.specs.Shown.{lobby_children, write_point_op, subject_children, history_part, derived_at, derived};
ghost use Rattle.ob_site_state.specs.Kept.{log_of};

use crate::logs::history_children;
use ob_history::Log;
use ob_object::Obj;
use ob_plain_state::is_path;
use ob_replies::{lobby_children, subject_children, write_point_op};
use ob_site_rules::Plan;
use ob_site_state::State;
use ob_values::Text;
use std::alloc::{AllocError, Global};

/// What the root has as a lobby.
fn lobby_part(alloc: Global, plan: &Plan, path: &Text) -> Result<Vec<Obj>, AllocError>
    ensures { IfOk result (λ os. os.items ≡ cond (plan.now.lobby && bytes_eq path.now plan.now.root) (lobby_children plan.now) []) }
{
    if plan.lobby && path.as_str() == plan.root.as_str() {
        return lobby_children(alloc, plan);
    }
    Ok(Vec::new(alloc))
}

/// What a writable point has.
fn point_part(alloc: Global, is_point: bool, path: &Text) -> Result<Vec<Obj>, AllocError>
    ensures { IfOk result (λ os. os.items ≡ cond is_point (write_point_op path.now ∷ []) []) }
{
    if is_point {
        let op = write_point_op(alloc, path)?;
        return Ok(vec![in alloc; op]?);
    }
    Ok(Vec::new(alloc))
}

/// What a history has.
fn history_part(alloc: Global, path: &Text, log: Option<&Log>) -> Result<Vec<Obj>, AllocError>
    ensures { IfOk result (λ os. os.items ≡ history_part path.now (option_map log_of (option_copied log.entry))) }
{
    match log {
        Some(log) => history_children(alloc, path, log),
        None => Ok(Vec::new(alloc)),
    }
}

/// What the alarm subject has.
fn subject_part(state: &State, path: &Text) -> Result<Vec<Obj>, AllocError>
    ensures { IfOk result (λ os. os.items ≡ cond (is_path path.now state.now.plan.subject) (subject_children path.now (length state.now.now.alarms)) []) }
{
    if !is_path(path, state.plan().subject.as_ref()) {
        return Ok(Vec::new(state.allocator()));
    }
    subject_children(state.allocator(), path, state.alarms().len())
}

/// What the roles of the node at a path derive.
fn derived_at(state: &State, path: &Text) -> Result<Vec<Obj>, AllocError>
    ensures { IfOk result (λ os. os.items ≡ derived_at state.now.plan state.now.now path.now) }
{
    let mut children = lobby_part(state.allocator(), state.plan(), path)?;
    let mut point = point_part(state.allocator(), state.is_point(path), path)?;
    let mut history = history_part(state.allocator(), path, state.log_at(path))?;
    let mut subject = subject_part(state, path)?;
    history.append(&mut subject)?;
    point.append(&mut history)?;
    children.append(&mut point)?;
    Ok(children)
}

/// The children that the roles of a node derive, in the order of the roles; without a path none. The roles of the node are
/// looked up. An error only for want of memory.
pub fn derived(state: &State, path: Option<&Text>) -> Result<Vec<Obj>, AllocError>
    ensures { IfOk result (λ os. os.items ≡ derived state.now.plan state.now.now (option_copied path.entry)) }
{
    match path {
        Some(path) => derived_at(state, path),
        None => Ok(Vec::new(state.allocator())),
    }
}
