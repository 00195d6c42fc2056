//! The library and the tree of a site.
ghost use Rattle.std.specs.Prelude.{◌≡◌, ◌<◌, ◌+◌, ◌-◌, ◌^◌, replicate, Some, IsTrue, IfOk, IfSome, option_map};
ghost use Rattle.std.specs.Option.{option_copied};
ghost use Rattle.std.specs.BTreeMap.{get_by_text};
ghost use Rattle.ob_object.specs.declared.head.Head.{Head};
ghost use Rattle.ob_object.specs.Fits.{fits_slot};
ghost use Rattle.ob_object.specs.Object.{parts};
ghost use Rattle.ob_tree.specs.Children.{child_at};
ghost use Rattle.ob_tree.specs.Depths.{depth_at};
ghost use Rattle.ob_tree.specs.Laid.{head_at, changed};
ghost use Rattle.ob_tree.specs.Shown.{standing_at};
ghost use Rattle.ob_tree.specs.Stamps.{touched};
ghost use Rattle.ob_contracts.specs.Shown.{shown};
ghost use Rattle.ob_tree.specs.Standings.{context};
ghost use Rattle.ob_ground.specs.Grounds.{WordsStand, alone_at, inside_at};

use crate::told::Told;
use ob_contracts::{Library, Steps, View};
use ob_object::Slot;
use ob_tree::{Instead, NodeId, Standing, Tree};
use ob_values::Text;
use std::alloc::{AllocError, Global};
use std::collections::BTreeMap;
use std::marker::Model;
use std::sync::ledger::Ledger;

/// The object whose number is told for a name.
fn number_of(numbers: &BTreeMap<String, usize>, name: &str) -> Option<NodeId>
    ensures { option_map (λ id. id.number) result ≡ get_by_text numbers.now name.now }
{
    match numbers.get(name) {
        Some(number) => Some(NodeId {
            number: *number as u64,
        }),
        None => None,
    }
}

/// The library and the tree of a site.
pub struct Ground {
    told: Told,
    tree: Tree,
    // Those of the children of objects that have many, by their names.
    numbers: BTreeMap<u64, BTreeMap<String, usize>>,
}

impl Drop for Ground {
    // By one call for each part, so that to drop it is one call to whoever may have to.
    fn drop(self) {
        let Ground {
            told,
            tree,
            numbers,
        } = self;
        drop(told);
        drop(tree);
        drop(numbers);
    }
}

impl Model for Ground {
    ghost use Rattle.ob_contracts.specs.contracts.library.Library.{the_row as library_row};
    ghost use Rattle.ob_tree.specs.contracts.tree.Tree.{the_row as tree_row};
    ghost use Rattle.ob_tree.specs.Children.{AreNumbered};
    ghost use Rattle.ob_ground.specs.Grounds.{Grounded, grounded_code, WordsStand};

    ghost Value = { Grounded };

    ghost coded = { grounded_code library_row.coded tree_row.coded };

    ghost view = { λ a. record { library = a.told.library; tree = a.tree } };

    ghost invariant = { λ a. WordsStand a.tree.root a.told × AreNumbered a.tree.root a.numbers };
}

impl Ground {
    /// A library and a tree, with the words that the library tells the objects of the tree. An error only for want of memory.
    pub fn new(alloc: Global, library: Library, tree: Tree) -> Result<Ground, AllocError>
        ensures { IfOk result (λ made. made ≡ record { library = library; tree = tree }) }
    {
        let told = Told::of(alloc, library, &tree)?;
        let numbers = tree.numbers(alloc)?;
        Ok(Ground {
            told,
            tree,
            numbers,
        })
    }

    /// The library.
    pub fn library(&self) -> &Library
        ensures { result.now ≡ self.now.library }
    {
        self.told.library()
    }

    /// The tree.
    pub fn tree(&self) -> &Tree
        ensures { result.now ≡ self.now.tree }
    {
        &self.tree
    }

    /// A library, with the words that it tells the objects of this tree. An error only for want of memory.
    pub fn told_by(&self, alloc: Global, library: Library) -> Result<Told, AllocError>
        ensures library { IfOk result (λ told. told.library ≡ library) }
        ensures told { IfOk result (WordsStand self.now.tree.root) }
    {
        Told::of(alloc, library, &self.tree)
    }

    /// A library, with the words that it tells those objects of this tree for which another told some. It takes a view of each
    /// object round each of these, which counts one step each. An error only for want of memory.
    pub fn told_again<L: Ledger>(
        &self,
        alloc: Global,
        library: Library,
        before: &BTreeMap<u64, Instead>,
        steps: &mut Steps<L>,
    ) -> Result<Told, AllocError>
        ensures library { IfOk result (λ told. told.library ≡ library) }
        ensures told { IfOk result (WordsStand self.now.tree.root) }
    {
        Told::again(alloc, library, &self.tree, before, steps)
    }

    /// Takes another library, and gives the old one. It takes no memory.
    pub fn replace(&mut self, told: Told) -> Told
        requires { WordsStand self.old.tree.root told }
        ensures new { self.new ≡ record self.old { library = told.library } }
        ensures old { result.library ≡ self.old.library }
        ensures told { WordsStand self.old.tree.root result }
    {
        std::mem::replace(&mut self.told, told)
    }

    /// Sets the slot of an object, whose value is of the kind, and gives the old one.
    pub fn set(&mut self, id: NodeId, slot: Slot) -> Slot
        requires within { id.number < parts self.old.tree.root }
        requires fits { (h : Head) → head_at id.number self.old.tree.root ≡ Some h → IsTrue (fits_slot h.kind slot) }
        ensures old { Some result ≡ option_map (λ h. h.slot) (head_at id.number self.old.tree.root) }
        ensures new { self.new ≡ record self.old { tree = record self.old.tree { root = changed (λ h. record h { slot = slot }) id.number self.old.tree.root } } }
        ensures len { parts self.new.tree.root ≡ parts self.old.tree.root }
    {
        self.tree.set(id, slot)
    }

    /// Begins a step of the tree.
    pub fn begin(&mut self)
        requires { self.old.tree.steps < 2 ^ 64 - 1 }
        ensures { self.new ≡ record self.old { tree = record self.old.tree { steps = self.old.tree.steps + 1 } } }
    {
        self.tree.begin();
    }

    /// Stamps an object and all round it with the number of steps.
    pub fn touch(&mut self, id: NodeId)
        requires { id.number < parts self.old.tree.root }
        ensures { self.new ≡ record self.old { tree = record self.old.tree { stamps = touched id.number self.old.tree.steps self.old.tree.root self.old.tree.stamps } } }
    {
        self.tree.touch(id);
    }

    /// Sets all stamps and the number of steps to 1.
    pub fn renumber(&mut self)
        ensures { self.new ≡ record self.old { tree = record self.old.tree { stamps = replicate (parts self.old.tree.root) 1; steps = 1 } } }
    {
        self.tree.renumber();
    }

    /// Where an object stands. It takes a view of each object round it, which counts one step each.
    pub fn standing<L: Ledger>(&self, id: NodeId, steps: &mut Steps<L>) -> Standing<'_>
        requires { id.number < parts self.now.tree.root }
        ensures stands { Some (context result) ≡ standing_at self.now.library id.number self.now.tree.root }
        ensures steps { steps.new ≡ steps.old + depth_at id.number self.now.tree.root }
    {
        self.told.standing(&self.tree, id, steps)
    }

    /// The child of a name that an object has itself: looked up where it has more than eight, else looked for one by one.
    pub fn child(&self, id: NodeId, name: &str) -> Option<NodeId>
        requires { id.number < parts self.now.tree.root }
        ensures child { option_map (λ id. id.number) result ≡ child_at id.number name.now self.now.tree.root }
        ensures within { IfSome result (λ child. child.number < parts self.now.tree.root) }
    {
        match self.numbers.get(&id.number) {
            Some(numbers) => number_of(numbers, name),
            None => self.tree.child(id, name),
        }
    }

    /// What an object shows where it stands, but for its own children, lent: its contracts are looked up by the words that are
    /// told for it. It counts one step, and one for each object round it.
    pub fn view<L: Ledger>(&self, id: NodeId, steps: &mut Steps<L>) -> View<'_>
        requires { id.number < parts self.now.tree.root }
        ensures view { Some (shown result) ≡ alone_at self.now.library id.number self.now.tree.root }
        ensures steps { steps.new ≡ steps.old + depth_at id.number self.now.tree.root + 1 }
    {
        let standing = self.standing(id, steps);
        standing.view_told(self.tree.own(id), self.told.words_for(id), steps)
    }

    /// Where a child of a name stands, or would stand, in an object. It counts one step, and one for each object round it.
    pub fn inside<'a, L: Ledger>(
        &'a self,
        id: NodeId,
        name: Option<&Text>,
        steps: &mut Steps<L>,
    ) -> Standing<'a>
        requires { id.number < parts self.now.tree.root }
        ensures inside { Some (context result) ≡ inside_at self.now.library id.number (option_copied name.entry) self.now.tree.root }
        ensures steps { steps.new ≡ steps.old + depth_at id.number self.now.tree.root + 1 }
    {
        let standing = self.standing(id, steps);
        standing.inside(self.tree.own(id), name, self.told.words_for(id), steps)
    }
}
