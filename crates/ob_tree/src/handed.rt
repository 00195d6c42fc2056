//! What an object hands down to its own children.
ghost use Rattle.std.specs.Prelude.{◌≡◌, List, ℕ, Some};
ghost use Rattle.std.specs.Option.{option_copied};
ghost use Rattle.ob_object.specs.Object.{Object};
ghost use Rattle.ob_contracts.specs.Found.{found};
ghost use Rattle.ob_contracts.specs.Inherit.{overridden};
ghost use Rattle.ob_contracts.specs.Tellers.{TellsIn};

use crate::standing::Standing;
use ob_contracts::{Library, Tellers};
use ob_object::{Obj, Words};
use ob_values::Text;
use std::collections::BTreeMap;

/// What an object hands down to its own children: the words for those that have none, where these are several what is
/// told in their place, and the children of its sources, which its own may override.
pub struct Handed<'a> {
    pub(crate) library: &'a Library,
    pub(crate) implied: Option<&'a Words>,
    pub(crate) told: Option<Tellers>,
    pub(crate) over: BTreeMap<&'a str, &'a Obj>,
    ghost stand: { TellsIn library.now told (option_copied implied) },
}

impl<'a> Drop for Handed<'a> {
    // By one call for each part, so that to drop it is one call to whoever may have to.
    fn drop(self) {
        let Handed {
            library: _,
            implied: _,
            told,
            over,
        } = self;
        drop(told);
        drop(over);
    }
}

/// The object of a name.
fn find<'a>(objects: &BTreeMap<&'a str, &'a Obj>, name: &'a str) -> Option<&'a Obj>
    ensures { option_copied result ≡ found objects.now name.now }
{
    objects.get(&name).copied()
}

impl<'a> Handed<'a> {
    ghost use Rattle.ob_tree.specs.Contexts.{HandedDown, under};
    ghost use Rattle.ob_tree.specs.Standings.{context, Hands};

    /// The child that an own child of a name overrides.
    fn overridden(&self, name: Option<&'a Text>) -> Option<&'a Obj>
        ensures { (ss : List Object) → ((n : List ℕ) → found self.now.over n ≡ overridden (Some n) ss) → option_copied result ≡ overridden (option_copied name.entry) ss }
    {
        match name {
            Some(name) => find(&self.over, name.as_str()),
            None => None,
        }
    }

    /// Where an own child of a name stands.
    pub fn inside(&self, name: Option<&'a Text>) -> Standing<'_>
        ensures { (r : HandedDown) → Hands r self.now → context result ≡ under r (option_copied name.entry) }
    {
        Standing {
            library: self.library,
            implied: self.implied,
            told: self.told.as_ref(),
            over: self.overridden(name),
        }
    }

    /// What is told in place of the words that it gives, where these are several.
    pub fn into_told(self) -> Option<Tellers>
        ensures { (r : HandedDown) → Hands r self.entry → TellsIn r.library result r.implied }
    {
        let Handed {
            library: _,
            implied: _,
            told,
            over,
        } = self;
        drop(over);
        told
    }
}
