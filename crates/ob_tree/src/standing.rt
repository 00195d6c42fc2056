//! Where an object stands.
ghost use Rattle.std.specs.Prelude.{◌≡◌};
ghost use Rattle.std.specs.Option.{option_copied};
ghost use Rattle.ob_contracts.specs.Inherit.{overridden};
ghost use Rattle.ob_contracts.specs.Shown.{view_sources};
ghost use Rattle.ob_contracts.specs.Tellers.{TellsIn};

use crate::handed::Handed;
use crate::instead::{Instead, is_of, items_of};
use ob_contracts::{Library, Setting, Sources, Steps, Tellers, View, effective, tell};
use ob_object::{Obj, Words};
use ob_values::Text;
use std::alloc::{AllocError, Global};
use std::sync::ledger::Ledger;

/// The child that an own child of a name would override.
fn overridden<'a>(view: &View<'a>, name: Option<&Text>) -> Option<&'a Obj>
    ensures { option_copied result ≡ overridden (option_copied name.entry) (view_sources view.now) }
{
    match name {
        Some(name) => view.over(name.as_str()),
        None => None,
    }
}

/// Where an object stands: the library, the words that its list or feed gives to it, and the child that it
/// overrides. Where something is told in place of the words of the list, it is looked up in their place.
#[derive(Clone, Copy)]
pub struct Standing<'a> {
    pub library: &'a Library,
    pub implied: Option<&'a Words>,
    pub(crate) told: Option<&'a Tellers>,
    pub over: Option<&'a Obj>,
    ghost stand: { TellsIn library.now (option_copied told) (option_copied implied) },
}

impl<'a> Standing<'a> {
    ghost use Rattle.std.specs.Prelude.{◌≡◌, ◌+◌, ◌-◌, ◌^◌, cond, is_some, min, IfOk, OnErr};
    ghost use Rattle.std.specs.Option.{option_copied};
    ghost use Rattle.ob_object.specs.Object.{parts};
    ghost use Rattle.ob_contracts.specs.Inherit.{implied_by, or_else, words_in};
    ghost use Rattle.ob_contracts.specs.Places.{sources_of};
    ghost use Rattle.ob_contracts.specs.Shown.{shown, shown_result, view_sources};
    ghost use Rattle.ob_contracts.specs.Telling.{Same, StandFor};
    ghost use Rattle.ob_tree.specs.Contexts.{at_root, sources_in, handed_down, under, comes_to};
    ghost use Rattle.ob_tree.specs.Standings.{context, Hands, MayStand};

    /// Where the root stands.
    pub fn at_root(library: &'a Library) -> Standing<'a>
        ensures { context result ≡ at_root library.now }
    {
        Standing {
            library,
            implied: None,
            told: None,
            over: None,
        }
    }

    /// The words that are looked up for those of its list or feed, where all that they tell is asked.
    fn words(&self) -> Option<&'a Words>
        ensures { StandFor self.now.library.now (words_in (option_copied result)) (words_in (option_copied self.now.implied)) }
    {
        match self.told {
            Some(told) => Some(told.all()),
            None => self.implied,
        }
    }

    /// The words that name the contracts of an object that stands there.
    fn words_of(&self, own: &'a Obj) -> Option<&'a Words>
        ensures { option_copied result ≡ or_else own.now.head.is (option_copied self.now.implied) }
    {
        match own.is() {
            Some(words) => Some(words),
            None => self.implied,
        }
    }

    /// What is told in place of these, where something may be told in place of the object's own.
    fn told_of(&self, own: &Obj, is: Option<&'a Tellers>) -> Option<&'a Tellers>
        ensures { option_copied result ≡ cond (is_some own.now.head.is) (option_copied is.entry) (option_copied self.now.told) }
    {
        if own.is().is_some() { is } else { self.told }
    }

    /// The words that are looked up for these, where all that they tell is asked.
    fn all_words(&self, own: &'a Obj, is: Option<&'a Tellers>) -> Option<&'a Words>
        requires { TellsIn self.now.library.now (option_copied is) own.now.head.is }
        ensures { StandFor self.now.library.now (words_in (option_copied result)) (words_in (or_else own.now.head.is (option_copied self.now.implied))) }
    {
        match self.told_of(own, is) {
            Some(told) => Some(told.all()),
            None => self.words_of(own),
        }
    }

    /// What an object that stands there may inherit from, told by its own attributes.
    fn sources(&self, own: &'a Obj, is: Option<&'a Tellers>) -> Sources<'a>
        requires { TellsIn self.now.library.now (option_copied is) own.now.head.is }
        ensures own { result.own.now ≡ own.now }
        ensures same { Same (sources_of result) (sources_in (context self.now) own.now.head) }
    {
        Sources::new(self.library, own, self.all_words(own, is), self.over)
    }

    /// Where an own child of a name stands, of an object that stands there, told by its own attributes. Something may be
    /// told in place of the object's own words, and of those that it gives to its children. It takes a view of the own object,
    /// which counts one step.
    pub fn inside<L: Ledger>(
        &self,
        own: &'a Obj,
        name: Option<&Text>,
        told: Option<&'a Instead>,
        steps: &mut Steps<L>,
    ) -> Standing<'a>
        requires { MayStand (context self.now) own.now.head (option_copied told) }
        ensures inside { context result ≡ under (handed_down (context self.now) own.now.head) (option_copied name.entry) }
        ensures steps { steps.new ≡ steps.old + 1 }
    {
        let view = self.view_told(own, told, steps);
        Standing {
            library: self.library,
            implied: view.implied_by(),
            told: items_of(told),
            over: overridden(&view, name),
        }
    }

    /// What an object that stands there, told by its own attributes, hands down to its own children: its sources are
    /// looked up once for all of these, by what is told in place of its own words where something is. An error only for want of
    /// memory.
    pub fn hand_down(
        &self,
        alloc: Global,
        own: &'a Obj,
        is: Option<&'a Tellers>,
    ) -> Result<Handed<'a>, AllocError>
        requires { TellsIn self.now.library.now (option_copied is) own.now.head.is }
        ensures { IfOk result (Hands (handed_down (context self.now) own.now.head)) }
    {
        let sources = self.sources(own, is);
        let implied = sources.implied_by();
        let over = sources.children(alloc)?;
        let told = tell(alloc, self.library, implied)?;
        Ok(Handed {
            library: self.library,
            implied,
            told,
            over,
        })
    }

    /// What an object that stands there shows, lent. It counts one step.
    pub fn view<L: Ledger>(&self, object: &'a Obj, steps: &mut Steps<L>) -> View<'a>
        ensures view { shown result ≡ comes_to (context self.now) object.now }
        ensures steps { steps.new ≡ steps.old + 1 }
    {
        self.view_told(object, None, steps)
    }

    /// The same, where something may be told in place of the object's own words, and of those that it gives to its children.
    pub fn view_told<L: Ledger>(
        &self,
        object: &'a Obj,
        told: Option<&'a Instead>,
        steps: &mut Steps<L>,
    ) -> View<'a>
        requires { MayStand (context self.now) object.now.head (option_copied told) }
        ensures view { shown result ≡ comes_to (context self.now) object.now }
        ensures words { implied_by (shown_result result).head ≡ (handed_down (context self.now) object.now.head).implied }
        ensures sources { view_sources result ≡ sources_in (context self.now) object.now.head }
        ensures steps { steps.new ≡ steps.old + 1 }
    {
        let told = self.told_of(object, is_of(told));
        let setting = Setting {
            implied: self.implied,
            told,
            over: self.over,
        };
        View::with_told(self.library, object, setting, steps)
    }

    /// What an object that stands there comes to. It is made of the object itself, which takes what it lacks. Where it succeeds
    /// it counts one step for each object of the answer (`Obj::parts`). An error, which is only for want of memory, counts none,
    /// and the object is gone.
    ///
    /// Source: oBIX 1.1, chapter 7 (Contracts).
    pub fn whole<L: Ledger>(
        &self,
        alloc: Global,
        object: Obj,
        steps: &mut Steps<L>,
    ) -> Result<Obj, AllocError>
        ensures whole { IfOk result (λ made. made ≡ comes_to (context self.now) object) }
        ensures steps { IfOk result (λ made. steps.new ≡ steps.old + min (parts made) (2 ^ 64 - 1)) }
        ensures none { OnErr result (steps.new ≡ steps.old) }
    {
        effective(alloc, self.library, object, self.words(), self.over, steps)
    }
}
