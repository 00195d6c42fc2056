//! The end of a step on a ground.
ghost use Rattle.std.specs.Prelude.{◌≡◌, ◌<◌, ◌-◌, ◌^◌, All, map};
ghost use Rattle.ob_object.specs.Object.{parts};
ghost use Rattle.ob_site_state.specs.Stamping.{after_step};

use ob_ground::Ground;
use ob_tree::NodeId;

/// Counts one more step, and stamps each of these nodes and all that is round it with its number. It takes no memory.
///
/// Source: oBIX 1.1, chapter 12 (Watch.pollChanges); that a number stands for a flag is this profile's own.
pub fn end_step(ground: &mut Ground, changed: &[NodeId])
    requires few { ground.old.tree.steps < 2 ^ 64 - 1 }
    requires within { All (λ node. node.number < parts ground.old.tree.root) changed.now }
    ensures { ground.new ≡ record ground.old { tree = after_step (map (λ node. node.number) changed.now) ground.old.tree } }
{
    ground.begin();
    for node in changed {
        ground.touch(*node);
    }
}
