//! Which objects, histories and rules have been noted.
ghost use Rattle.std.specs.Prelude.{◌≡◌, ◌++◌, ◌∷◌, [], List, true, not, IfOk, OnOk};
ghost use Rattle.std.specs.BTreeSet.{contains, Updates};
ghost use Rattle.std.specs.Ordering.{nat_cmp};
ghost use Rattle.ob_site_state.specs.declared.change.Change.{Change as Note};
ghost use Rattle.ob_site_settling.specs.Telling.{is_first};
ghost use Rattle.ob_site_settling.specs.Seen.{HasSeen};

use ob_site_state::Change;
use std::alloc::{AllocError, Global};
use std::collections::BTreeSet;

/// The numbers of the objects, the places of the histories and those of the rules that some notes are of.
pub(crate) struct Seen {
    pub nodes: BTreeSet<u64>,
    pub places: BTreeSet<u64>,
    pub rules: BTreeSet<u64>,
}

impl Drop for Seen {
    // By one call for each part, so that to drop it is one call to whoever may have to.
    fn drop(self) {
        let Seen {
            nodes,
            places,
            rules,
        } = self;
        drop(nodes);
        drop(places);
        drop(rules);
    }
}

/// Puts a number to others, and tells whether it is a new one.
fn is_new(seen: &mut BTreeSet<u64>, number: u64) -> Result<bool, AllocError>
    ensures new { IfOk result (λ new. new ≡ not (contains nat_cmp seen.old number)) }
    ensures seen { OnOk result (Updates nat_cmp seen.old seen.new number true) }
{
    Ok(seen.insert(number)?)
}

impl Seen {
    /// No notes yet.
    pub(crate) fn new(alloc: Global) -> Seen
        ensures { HasSeen [] result }
    {
        Seen {
            nodes: BTreeSet::new(alloc),
            places: BTreeSet::new(alloc),
            rules: BTreeSet::new(alloc),
        }
    }

    /// Sees one more note, and tells whether it is the first of its object, history or rule.
    pub(crate) fn is_first(&mut self, change: &Change) -> Result<bool, AllocError>
        ensures first { IfOk result (λ first. (earlier : List Note) → HasSeen earlier self.old
            → first ≡ is_first earlier change.now) }
        ensures seen { OnOk result ((earlier : List Note) → HasSeen earlier self.old
            → HasSeen (earlier ++ change.now ∷ []) self.new) }
    {
        match change {
            Change::Slot { node, slot: _ } => is_new(&mut self.nodes, node.number),
            Change::Records { place, len: _ } => is_new(&mut self.places, *place as u64),
            Change::Event { rule, status: _ } => is_new(&mut self.rules, *rule),
            Change::Contracts { told: _ } => Ok(false),
        }
    }
}
