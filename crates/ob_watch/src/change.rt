//! What happens to what is kept of the items of watches.
ghost use Rattle.std.specs.Prelude.{◌≡◌};

use crate::feeds::Feeds;
use crate::item::{Tracked, stamp_of};
use ob_tree::Tree;

/// What happens to what is kept of an item.
pub(crate) trait Change {
    ghost use Rattle.std.specs.Prelude.{IfSome};
    ghost use Rattle.ob_watch.specs.declared.item.Tracked.{Tracked};
    ghost use Rattle.ob_watch.specs.Marked.{GivesMark, KeepsKinds};

    ghost made: { Self → Tracked → Tracked };

    /// Makes the change. None makes an object of a feed, or a feed of an object.
    fn make(&self, tracked: &mut Tracked)
        ensures made { tracked.new ≡ made self.now tracked.old }
        ensures kinds { KeepsKinds (made self.now) };

    /// The mark that it gives each object, if it gives one and the same to all.
    fn mark(&self) -> Option<u64>
        ensures mark { IfSome result (λ m. GivesMark m (made self.now)) }
        ensures kinds { KeepsKinds (made self.now) };
}

/// All is reported after a step.
#[derive(Drop)]
pub(crate) struct Report<'a, F: Feeds> {
    pub(crate) steps: u64,
    pub(crate) feeds: &'a F,
}

impl<F: Feeds> Change for Report<'_, F> {
    ghost use Rattle.ob_watch.specs.Items.{reported_by};

    ghost made = { λ c k. reported_by c.steps (F.logs c.feeds.now) k };

    fn make(&self, tracked: &mut Tracked) {
        match tracked {
            Tracked::Object { node: _, mark } => *mark = self.steps,
            Tracked::Feed {
                feed,
                filter: _,
                given,
            } => *given = self.feeds.ever(*feed),
        }
    }

    fn mark(&self) -> Option<u64> {
        Some(self.steps)
    }
}

/// Steps are counted from 1 again.
#[derive(Drop)]
pub(crate) struct Renumber<'a> {
    pub(crate) tree: &'a Tree,
}

impl Change for Renumber<'_> {
    ghost use Rattle.ob_watch.specs.Items.{anew_by};

    ghost made = { λ c k. anew_by c.tree.now k };

    fn make(&self, tracked: &mut Tracked) {
        if let Tracked::Object { node, mark } = tracked {
            *mark = if *mark < stamp_of(self.tree, *node) {
                0
            } else {
                1
            };
        }
    }

    fn mark(&self) -> Option<u64> {
        None
    }
}
