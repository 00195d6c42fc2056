//! Children of an object by their names, and those that are nodes.
ghost use Rattle.std.specs.Prelude.{◌≡◌, ◌<◌, ◌∷◌, ◌++◌, [], cond, length, is_some, IfOk, OnOk};
ghost use Rattle.ob_object.specs.Paths.{node_path};
ghost use Rattle.ob_object.specs.WellFormed.{has_name};
ghost use Rattle.ob_tree.specs.Laid.{object_of, said};
ghost use Rattle.ob_tree.specs.Shown.{AreLaid};
ghost use Rattle.ob_tree.specs.Children.{child_at, AreChildNodes};

use crate::NodeId;
use crate::shown::{head_in, spot_in};
use crate::spot::Spot;
use ob_object::{Attributes, Obj};
use std::alloc::{AllocError, Global};

/// Whether an object has that name.
fn is_named(head: &Attributes, name: &str) -> bool
    ensures { result ≡ has_name name.now head.now.name }
{
    match head.name() {
        Some(text) => text.as_str() == name,
        None => false,
    }
}

/// The number of the child of a name, looked for among the children one by one.
pub(crate) fn child_of(leaves: &[Obj], spots: &[Spot], at: usize, name: &str) -> Option<usize>
    requires laid { AreLaid (said leaves.now) spots.now }
    requires within { at < length leaves.now }
    ensures { result ≡ child_at at name.now (object_of (said leaves.now) spots.now) }
{
    let spot = spot_in(spots, at);
    let mut next = at + 1;
    for place in 0..spot.len {
        let head = head_in(leaves, next);
        if is_named(head, name) {
            return Some(next);
        }
        let behind = spot_in(spots, next);
        next = behind.end;
    }
    None
}

/// Puts a child, if it is a node.
fn put_node(made: &mut Vec<NodeId>, head: &Attributes, number: usize) -> Result<(), AllocError>
    ensures { OnOk result (made.new.items ≡ cond (is_some (node_path head.now)) (made.old.items ++ record { number = number } ∷ []) made.old.items) }
{
    if head.node_path().is_some() {
        made.push(NodeId {
            number: number as u64,
        })?;
    }
    Ok(())
}

/// The children of an object that are nodes, one after another.
pub(crate) fn child_nodes(
    alloc: Global,
    leaves: &[Obj],
    spots: &[Spot],
    at: usize,
) -> Result<Vec<NodeId>, AllocError>
    requires laid { AreLaid (said leaves.now) spots.now }
    requires within { at < length leaves.now }
    ensures { IfOk result (λ made. AreChildNodes at (object_of (said leaves.now) spots.now) made.items) }
{
    let spot = spot_in(spots, at);
    let mut made = Vec::new(alloc);
    let mut next = at + 1;
    for place in 0..spot.len {
        let head = head_in(leaves, next);
        put_node(&mut made, head, next)?;
        let after = spot_in(spots, next);
        next = after.end;
    }
    Ok(made)
}
