//! The tree.
ghost use Rattle.std.specs.Prelude.{◌≡◌, ℕ, ◌<◌, ◌+◌, ◌^◌, ◌-◌, min, [], map, length, replicate, IsTrue, Some, None, IfSome, IfOk, MatchResult, option_map, option_and_then, slice_get};
ghost use Rattle.std.specs.Option.{option_copied};
ghost use Rattle.std.specs.Ordering.{nat_cmp};
ghost use Rattle.std.specs.BTreeMap.{get};
ghost use Rattle.ob_object.specs.declared.head.Head.{Head};
ghost use Rattle.ob_object.specs.Fits.{fits_slot};
ghost use Rattle.ob_object.specs.Object.{parts};
ghost use Rattle.ob_object.specs.Paths.{node_path};
ghost use Rattle.ob_tree.specs.Paths.{place_of, first_twice};
ghost use Rattle.ob_tree.specs.Laid.{head_at, leaf, parent_at, paths, changed};
ghost use Rattle.ob_tree.specs.Stamps.{touched};
ghost use Rattle.ob_tree.specs.Children.{AreNumbered, child_at, place_at, AreChildNodes};
ghost use Rattle.ob_tree.specs.Depths.{depth_at};
ghost use Rattle.ob_tree.specs.Shown.{part_at, shown_at, standing_at};
ghost use Rattle.ob_tree.specs.Standings.{context};
ghost use Rattle.ob_tree.specs.Told.{words_for, AreToldBy};
ghost use Rattle.ob_tree.specs.Trees.{Stamped, IsUnbuilt};

use crate::children::{child_nodes, child_of};
use crate::fault::TreeFault;
use crate::laying::{lay_leaves, lay_spots, places_of};
use crate::node::NodeId;
use crate::numbering::all_numbers;
use crate::shown::{Lore, grown, standing_of};
use crate::spot::Spot;
use crate::telling::{Arena, put_told, put_words, told_again};
use crate::touching::{renumber, stamp_up};
use crate::{Instead, Standing};
use ob_contracts::{Library, Steps};
use ob_object::{Obj, Slot, Status};
use ob_values::Text;
use std::alloc::{AllocError, Global};
use std::collections::BTreeMap;
use std::marker::Model;
use std::sync::ledger::Ledger;

/// The tree of a site.
pub struct Tree {
    // Each object without its children, in document order.
    leaves: Vec<Obj>,
    // Where each stands.
    spots: Vec<Spot>,
    stamps: Vec<u64>,
    // Where the node of each path stands.
    places: BTreeMap<String, usize>,
    steps: u64,
}

impl Drop for Tree {
    // By one call for each part, so that to drop a tree is one call to whoever may have to.
    fn drop(self) {
        let Tree {
            leaves,
            spots,
            stamps,
            places,
            steps: _,
        } = self;
        drop(leaves);
        drop(spots);
        drop(stamps);
        drop(places);
    }
}

impl Model for Tree {
    ghost use Rattle.ob_object.specs.contracts.object.Obj.{the_row};
    ghost use Rattle.ob_tree.specs.Laid.{object_of, said};
    ghost use Rattle.ob_tree.specs.Trees.{Stamped, stamped_code, IsArena};

    ghost Value = { Stamped };

    ghost coded = { stamped_code the_row.coded };

    ghost view = { λ a. record { root = object_of (said a.leaves.items) a.spots.items; stamps = a.stamps.items; steps = a.steps } };

    ghost invariant = { λ a. IsArena a.leaves.items a.spots.items a.stamps.items a.places };
}

/// So many stamps that were never set.
fn unstamped(alloc: Global, count: usize) -> Result<Vec<u64>, AllocError>
    ensures { IfOk result (λ stamps. stamps.items ≡ replicate count 0) }
{
    vec![in alloc; 0; count]
}

/// An object laid out: its parts, where they stand, their stamps and the nodes by their paths, or the first
/// path that a node before has.
fn laid(alloc: Global, root: &Obj) -> Result<Result<Tree, Text>, AllocError>
    ensures { IfOk result (λ made. MatchResult made
        (λ tree. (first_twice [] (paths root.now) ≡ None) × (tree ≡ record { root = root.now; stamps = replicate (parts root.now) 0; steps = 0 }))
        (λ path. first_twice [] (paths root.now) ≡ Some path)) }
{
    let _head = root.head();
    let mut leaves = Vec::with_capacity(alloc, root.parts() as usize)?;
    lay_leaves(alloc, &mut leaves, root)?;
    let mut spots = Vec::with_capacity(alloc, leaves.len())?;
    lay_spots(&mut spots, None, root)?;
    let stamps = unstamped(alloc, leaves.len())?;
    match places_of(alloc, &leaves)? {
        Ok(places) => Ok(Ok(Tree {
            leaves,
            spots,
            stamps,
            places,
            steps: 0,
        })),
        Err(path) => Ok(Err(path)),
    }
}

impl Tree {
    /// The tree of an object, in which nothing was touched. PathTwice exactly where two nodes have one path,
    /// with the first path in document order that a node before has; Memory only for want of memory.
    pub fn build(alloc: Global, root: Obj) -> Result<Tree, TreeFault>
        ensures { MatchResult result
            (λ tree. (first_twice [] (paths root) ≡ None) × (tree ≡ record { root = root; stamps = replicate (parts root) 0; steps = 0 }))
            (λ fault. IsUnbuilt root fault) }
    {
        match laid(alloc, &root) {
            Ok(Ok(tree)) => Ok(tree),
            Ok(Err(path)) => Err(TreeFault::PathTwice { path }),
            Err(_) => Err(TreeFault::Memory),
        }
    }

    /// The node of a path.
    pub fn get(&self, path: &Text) -> Option<NodeId>
        ensures place { option_map (λ id. id.number) result ≡ place_of path.now (paths self.now.root) }
        ensures within { IfSome result (λ id. id.number < parts self.now.root) }
    {
        match self.places.get(path.as_str()) {
            Some(place) => Some(NodeId {
                number: *place as u64,
            }),
            None => None,
        }
    }

    /// The number of objects: each number below it is that of one.
    pub fn len(&self) -> u64
        ensures { result ≡ parts self.now.root }
    {
        self.leaves.as_slice().len() as u64
    }

    /// The object without its children.
    pub fn own(&self, id: NodeId) -> &Obj
        requires { id.number < parts self.now.root }
        ensures { Some result.now ≡ option_map leaf (head_at id.number self.now.root) }
    {
        &self.leaves[id.number as usize]
    }

    /// The path, if it is a node.
    pub fn path(&self, id: NodeId) -> Option<&Text>
        requires { id.number < parts self.now.root }
        ensures { option_copied result ≡ option_and_then node_path (head_at id.number self.now.root) }
    {
        self.own(id).head().node_path()
    }

    /// The object that it is in.
    pub fn parent(&self, id: NodeId) -> Option<NodeId>
        requires { id.number < parts self.now.root }
        ensures parent { option_map (λ id. id.number) result ≡ parent_at id.number self.now.root }
        ensures within { IfSome result (λ parent. parent.number < id.number) }
    {
        match self.spots[id.number as usize].parent {
            Some(place) => Some(NodeId {
                number: place as u64,
            }),
            None => None,
        }
    }

    /// The child of a name, looked for among the children one by one.
    pub fn child(&self, id: NodeId, name: &str) -> Option<NodeId>
        requires { id.number < parts self.now.root }
        ensures child { option_map (λ id. id.number) result ≡ child_at id.number name.now self.now.root }
        ensures within { IfSome result (λ child. child.number < parts self.now.root) }
    {
        let leaves = self.leaves.as_slice();
        let spots = self.spots.as_slice();
        match child_of(leaves, spots, id.number as usize, name) {
            Some(place) => Some(NodeId {
                number: place as u64,
            }),
            None => None,
        }
    }

    /// The children that are nodes, in document order. An error only for want of memory.
    pub fn child_nodes(&self, alloc: Global, id: NodeId) -> Result<Vec<NodeId>, AllocError>
        requires { id.number < parts self.now.root }
        ensures { IfOk result (λ made. AreChildNodes id.number self.now.root made.items) }
    {
        let leaves = self.leaves.as_slice();
        let spots = self.spots.as_slice();
        child_nodes(alloc, leaves, spots, id.number as usize)
    }

    /// The numbers of the children of each object that has more than eight, by their names, and by its own number. An error only
    /// for want of memory.
    pub fn numbers(
        &self,
        alloc: Global,
    ) -> Result<BTreeMap<u64, BTreeMap<String, usize>>, AllocError>
        ensures { IfOk result (AreNumbered self.now.root) }
    {
        let leaves = self.leaves.as_slice();
        let spots = self.spots.as_slice();
        all_numbers(alloc, leaves, spots)
    }

    /// The number of an object among those of another, in document order, that one being 0. None where it is
    /// not one of them, or where the number is no u32.
    pub fn place(&self, id: NodeId, inside: NodeId) -> Option<u32>
        requires { inside.number < parts self.now.root }
        ensures { result ≡ place_at id.number inside.number self.now.root }
    {
        let spot = self.spots[inside.number as usize];
        if id.number < inside.number {
            return None;
        }
        if spot.end as u64 <= id.number {
            return None;
        }
        let place = id.number - inside.number;
        if place < 4_294_967_296 {
            Some(place as u32)
        } else {
            None
        }
    }

    /// Sets the slot, whose value is of the kind, and gives the old one.
    pub fn set(&mut self, id: NodeId, slot: Slot) -> Slot
        requires within { id.number < parts self.old.root }
        requires fits { (h : Head) → head_at id.number self.old.root ≡ Some h → IsTrue (fits_slot h.kind slot) }
        ensures old { Some result ≡ option_map (λ h. h.slot) (head_at id.number self.old.root) }
        ensures new { self.new ≡ record self.old { root = changed (λ h. record h { slot = slot }) id.number self.old.root } }
        ensures len { parts self.new.root ≡ parts self.old.root }
        ensures others { (k : ℕ) → (k ≡ id.number → ⊥) → head_at k self.new.root ≡ head_at k self.old.root }
    {
        self.leaves[id.number as usize].replace_slot(slot)
    }

    /// Sets the status, and gives the old one.
    pub fn set_status(&mut self, id: NodeId, status: Status) -> Option<Status>
        requires { id.number < parts self.old.root }
        ensures old { Some result ≡ option_map (λ h. h.facets.status) (head_at id.number self.old.root) }
        ensures new { self.new ≡ record self.old { root = changed (λ h. record h { facets = record h.facets { status = Some status } }) id.number self.old.root } }
        ensures len { parts self.new.root ≡ parts self.old.root }
        ensures others { (k : ℕ) → (k ≡ id.number → ⊥) → head_at k self.new.root ≡ head_at k self.old.root }
    {
        self.leaves[id.number as usize].replace_status(Some(status))
    }

    /// The number of steps.
    pub fn steps(&self) -> u64
        ensures { result ≡ self.now.steps }
    {
        self.steps
    }

    /// Begins a step.
    pub fn begin(&mut self)
        requires { self.old.steps < 2 ^ 64 - 1 }
        ensures { self.new ≡ record self.old { steps = self.old.steps + 1 } }
    {
        self.steps += 1;
    }

    /// Stamps an object and all round it with the number of steps.
    pub fn touch(&mut self, id: NodeId)
        requires { id.number < parts self.old.root }
        ensures { self.new ≡ record self.old { stamps = touched id.number self.old.steps self.old.root self.old.stamps } }
    {
        let stamps = self.stamps.as_mut_slice();
        stamp_up(
            stamps,
            self.spots.as_slice(),
            id.number as usize,
            self.steps,
        );
    }

    /// The number of steps at the last touch of the object or of one in it.
    pub fn stamp(&self, id: NodeId) -> u64
        requires { id.number < parts self.now.root }
        ensures { Some result ≡ slice_get self.now.stamps id.number }
    {
        self.stamps[id.number as usize]
    }

    /// Sets all stamps and the number of steps to 1.
    pub fn renumber(&mut self)
        ensures { self.new ≡ record self.old { stamps = replicate (parts self.old.root) 1; steps = 1 } }
    {
        renumber(self.stamps.as_mut_slice());
        self.steps = 1;
    }

    /// Where an object stands. It takes a view of each object round it, which counts one step each.
    pub fn standing<'a, L: Ledger>(
        &'a self,
        library: &'a Library,
        id: NodeId,
        steps: &mut Steps<L>,
    ) -> Standing<'a>
        requires { id.number < parts self.now.root }
        ensures stands { Some (context result) ≡ standing_at library.now id.number self.now.root }
        ensures steps { steps.new ≡ steps.old + depth_at id.number self.now.root }
    {
        self.standing_told(library, None, id, steps)
    }

    /// The same, where words may be told that stand for those which objects name and give, by the numbers of these.
    pub fn standing_told<'a, L: Ledger>(
        &'a self,
        library: &'a Library,
        told: Option<&'a BTreeMap<u64, Instead>>,
        id: NodeId,
        steps: &mut Steps<L>,
    ) -> Standing<'a>
        requires within { id.number < parts self.now.root }
        requires told { AreToldBy library.now self.now.root (words_for told) }
        ensures stands { Some (context result) ≡ standing_at library.now id.number self.now.root }
        ensures steps { steps.new ≡ steps.old + depth_at id.number self.now.root }
    {
        let leaves = self.leaves.as_slice();
        let spots = self.spots.as_slice();
        let at = id.number as usize;
        standing_of(Lore { library, told }, leaves, spots, at, steps)
    }

    /// Words that stand for those of the objects, by the numbers of these: for an own `is` of many, and for several that a list or
    /// feed with children gives, its own or inherited: those of them alone that tell something. An error only for want of memory.
    pub fn telling(
        &self,
        alloc: Global,
        library: &Library,
    ) -> Result<BTreeMap<u64, Instead>, AllocError>
        ensures { IfOk result (λ words. AreToldBy library.now self.now.root (get nat_cmp words)) }
    {
        let leaves = self.leaves.as_slice();
        let spots = self.spots.as_slice();
        let mut words = BTreeMap::new(alloc);
        let root = Standing::at_root(library);
        put_told(alloc, &mut words, Arena { leaves, spots }, 0, root)?;
        Ok(words)
    }

    /// Words that stand for those of the objects for which another library told some, as this one tells them. It takes a view of
    /// each object round each of these, which counts one step each. An error only for want of memory.
    pub fn telling_again<L: Ledger>(
        &self,
        alloc: Global,
        library: &Library,
        before: &BTreeMap<u64, Instead>,
        steps: &mut Steps<L>,
    ) -> Result<BTreeMap<u64, Instead>, AllocError>
        ensures { IfOk result (λ words. AreToldBy library.now self.now.root (get nat_cmp words)) }
    {
        let mut words = BTreeMap::new(alloc);
        for (number, told) in before.iter() {
            if *number < self.len() {
                let id = NodeId { number: *number };
                let standing = self.standing_told(library, Some(&words), id, steps);
                let again = told_again(alloc, standing, self.own(id), told.items.is_some())?;
                put_words(&mut words, *number as usize, again)?;
            }
        }
        Ok(words)
    }

    /// A copy of an object with all that is in it, its own objects alone. An error only for want of memory.
    pub fn copy(&self, alloc: Global, id: NodeId) -> Result<Obj, AllocError>
        requires { id.number < parts self.now.root }
        ensures { IfOk result (λ made. Some made ≡ part_at id.number self.now.root) }
    {
        let leaves = self.leaves.as_slice();
        let spots = self.spots.as_slice();
        grown(alloc, leaves, spots, id.number as usize)
    }

    /// What is shown at an object: it and all that is in it, with all that they inherit where they stand. Where it succeeds
    /// it counts one step for each object round the one that is shown, and one for each object of the answer (`Obj::parts`).
    /// An error only for want of memory.
    ///
    /// Source: oBIX 1.1, chapter 7 (Contracts).
    pub fn whole<L: Ledger>(
        &self,
        alloc: Global,
        library: &Library,
        id: NodeId,
        steps: &mut Steps<L>,
    ) -> Result<Obj, AllocError>
        requires { id.number < parts self.now.root }
        ensures whole { IfOk result (λ made. Some made ≡ shown_at library.now id.number self.now.root) }
        ensures steps { IfOk result (λ made. steps.new
            ≡ steps.old + depth_at id.number self.now.root + min (parts made) (2 ^ 64 - 1)) }
    {
        let object = self.copy(alloc, id)?;
        let standing = self.standing(library, id, steps);
        standing.whole(alloc, object, steps)
    }
}
