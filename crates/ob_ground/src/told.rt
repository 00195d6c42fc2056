//! A library, with the words that are told by it.
ghost use Rattle.std.specs.Prelude.{◌≡◌, ◌<◌, ◌+◌, Some, IfOk};
ghost use Rattle.std.specs.Option.{option_copied};
ghost use Rattle.ob_object.specs.Object.{Object, parts};
ghost use Rattle.ob_tree.specs.Standings.{context};
ghost use Rattle.ob_tree.specs.Depths.{depth_at};
ghost use Rattle.ob_tree.specs.Shown.{standing_at};
ghost use Rattle.ob_ground.specs.Grounds.{WordsStand, words_at};

use ob_contracts::{Library, Steps};
use ob_tree::{Instead, NodeId, Standing, Tree};
use std::alloc::{AllocError, Global};
use std::collections::BTreeMap;
use std::marker::Model;
use std::sync::ledger::Ledger;

/// A library, with the words that are looked up in place of those which objects name, and of those which lists and feeds give,
/// by the numbers of these.
pub struct Told {
    library: Library,
    words: BTreeMap<u64, Instead>,
}

impl Drop for Told {
    // By one call for each part, so that to drop it is one call to whoever may have to.
    fn drop(self) {
        let Told { library, words } = self;
        drop(library);
        drop(words);
    }
}

impl Model for Told {
    ghost use Rattle.ob_contracts.specs.contracts.library.Library.{the_row};
    ghost use Rattle.ob_ground.specs.Grounds.{Taught, taught_code};

    ghost Value = { Taught };

    ghost coded = { taught_code the_row.coded };

    ghost view = { λ a. record { library = a.library; words = a.words.entries } };
}

impl Told {
    /// A library, with the words for the objects of a tree. An error only for want of memory.
    #[tactic(auto, unfolding(crate::specs::Grounds::WordsStand))]
    pub fn of(alloc: Global, library: Library, tree: &Tree) -> Result<Told, AllocError>
        ensures library { IfOk result (λ told. told.library ≡ library) }
        ensures told { IfOk result (WordsStand tree.now.root) }
    {
        let words = tree.telling(alloc, &library)?;
        Ok(Told { library, words })
    }

    /// A library of which no words are told.
    #[tactic(auto, unfolding(crate::specs::Grounds::WordsStand))]
    pub fn bare(alloc: Global, library: Library) -> Told
        ensures library { result.library ≡ library }
        ensures told { (root : Object) → WordsStand root result }
    {
        Told {
            library,
            words: BTreeMap::new(alloc),
        }
    }

    /// A library, with the words for those objects of a tree for which another told some. It takes a view of each object round
    /// each of these, which counts one step each. An error only for want of memory.
    #[tactic(auto, unfolding(crate::specs::Grounds::WordsStand))]
    pub fn again<L: Ledger>(
        alloc: Global,
        library: Library,
        tree: &Tree,
        before: &BTreeMap<u64, Instead>,
        steps: &mut Steps<L>,
    ) -> Result<Told, AllocError>
        ensures library { IfOk result (λ told. told.library ≡ library) }
        ensures told { IfOk result (WordsStand tree.now.root) }
    {
        let words = tree.telling_again(alloc, &library, before, steps)?;
        Ok(Told { library, words })
    }

    /// The library, and the words that it tells.
    pub fn into_parts(self) -> (Library, BTreeMap<u64, Instead>)
        ensures { result.0 ≡ self.library }
    {
        let Told { library, words } = self;
        (library, words)
    }

    /// The library.
    pub fn library(&self) -> &Library
        ensures { result.now ≡ self.now.library }
    {
        &self.library
    }

    /// Where an object of a tree for which the words are told stands with the library. It takes a view of each object round it,
    /// which counts one step each.
    pub fn standing<'a, L: Ledger>(
        &'a self,
        tree: &'a Tree,
        id: NodeId,
        steps: &mut Steps<L>,
    ) -> Standing<'a>
        requires within { id.number < parts tree.now.root }
        requires told { WordsStand tree.now.root self.now }
        ensures stands { Some (context result) ≡ standing_at self.now.library id.number tree.now.root }
        ensures steps { steps.new ≡ steps.old + depth_at id.number tree.now.root }
    {
        tree.standing_told(self.library(), Some(self.words()), id, steps)
    }

    /// The words for the object of a number, where some are told.
    pub(crate) fn words_for(&self, id: NodeId) -> Option<&Instead>
        ensures { option_copied result ≡ words_at self.now id.number }
    {
        self.words.get(&id.number)
    }

    /// The words by the numbers of objects.
    fn words(&self) -> &BTreeMap<u64, Instead>
        ensures { result.now.entries ≡ self.now.words }
    {
        &self.words
    }
}
