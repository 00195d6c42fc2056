//! Objects that are shown otherwise with another library.
ghost use Rattle.std.specs.Prelude.{◌≡◌, ◌↔◌, ◌<◌, map, IsTrue, IfOk};
ghost use Rattle.ob_object.specs.Object.{parts};
ghost use Rattle.ob_tree.specs.Shown.{shown_at};
ghost use Rattle.ob_tree.specs.Differing.{AreDiffering};

use crate::node::NodeId;
use crate::tree::Tree;
use ob_contracts::{Library, Steps};
use std::alloc::{AllocError, Global};
use std::sync::ledger::Ledger;

/// A library, and the one that takes its place.
#[derive(Clone, Copy)]
struct Change<'a, 'b> {
    before: &'a Library,
    after: &'b Library,
}

impl Tree {
    /// Whether an object is shown alike with both libraries. An error only for want of memory.
    fn is_alike<L: Ledger>(
        &self,
        alloc: Global,
        change: Change<'_, '_>,
        id: NodeId,
        steps: &mut Steps<L>,
    ) -> Result<bool, AllocError>
        requires { id.number < parts self.now.root }
        ensures { IfOk result (λ alike. IsTrue alike
            ↔ (shown_at change.entry.before.now id.number self.now.root ≡ shown_at change.entry.after.now id.number self.now.root)) }
    {
        let before = self.whole(alloc, change.before, id, steps)?;
        let after = self.whole(alloc, change.after, id, steps)?;
        Ok(before.same(&after))
    }

    /// The objects that are shown otherwise with the second library, each once, in document order. It builds each object with
    /// both, and counts that as `whole` does. An error only for want of memory.
    pub fn differing<L: Ledger>(
        &self,
        alloc: Global,
        old: &Library,
        new: &Library,
        steps: &mut Steps<L>,
    ) -> Result<Vec<NodeId>, AllocError>
        ensures { IfOk result (λ ids. AreDiffering old.now new.now self.now.root (map (λ id. id.number) ids.items)) }
    {
        let change = Change {
            before: old,
            after: new,
        };
        let mut ids = Vec::new(alloc);
        for number in 0..self.len() {
            let id = NodeId { number };
            if !self.is_alike(alloc, change, id, steps)? {
                ids.push(id)?;
            }
        }
        Ok(ids)
    }
}
