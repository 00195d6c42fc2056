//! What an object may inherit from: the contracts of some words, and then the child that it overrides.
ghost use Rattle.std.specs.Prelude.{◌≡◌, ◌<◌, List, Option, ℕ, length, find, cond, [], ◌∷◌, IfOk, Some, None};
ghost use Rattle.std.specs.Option.{option_copied};
ghost use Rattle.ob_object.specs.declared.head.Head.{Head};
ghost use Rattle.ob_object.specs.Kinds.{is_ref};
ghost use Rattle.ob_contracts.specs.Found.{found};
ghost use Rattle.ob_contracts.specs.Inherit.{words_in, or_else, overridden, implied_by, inherited_head, present};
ghost use Rattle.ob_contracts.specs.Parts.{gives};
ghost use Rattle.ob_contracts.specs.Shown.{holder_in, source_in, IsLooked};
ghost use Rattle.ob_contracts.specs.Places.{places_by, places_of, sources_by, sources_of, child_in, named_in, overridden_in};
ghost use Rattle.ob_contracts.specs.Tellers.{TellsIn, heads_in, told_child};

use crate::inherited::put_first;
use crate::library::Library;
use crate::reading::{Part, gives, has_part};
use crate::tellers::Tellers;
use ob_object::{Obj, Words};
use ob_values::Text;
use std::alloc::{AllocError, Global};
use std::collections::BTreeMap;

/// What an object may inherit from, lent: the contracts of some words, and then the child that it overrides. Where words are
/// told in place of these, it has those for heads, and finds a child by its name.
#[derive(Clone, Copy)]
pub struct Sources<'a> {
    pub(crate) library: &'a Library,
    pub(crate) own: &'a Obj,
    pub(crate) words: &'a [Text],
    pub(crate) told: Option<&'a Tellers>,
    pub(crate) over: Option<&'a Obj>,
    // A ref has none, nor has a child that was inherited.
    pub(crate) any: bool,
}

/// Sources with the one at the first place looked up already, so that parts are taken from them at one look-up.
#[derive(Clone, Copy)]
pub(crate) struct Looked<'a> {
    pub(crate) sources: Sources<'a>,
    pub(crate) first: Option<&'a Obj>,
}

/// Words as a slice.
fn slice_of<'a>(words: Option<&'a Words>) -> &'a [Text]
    ensures { result.now ≡ words_in (option_copied words.entry) }
{
    match words {
        Some(words) => words.as_slice(),
        None => &[],
    }
}

impl<'a> Sources<'a> {
    /// The sources by words, and by what is told for the names of children. A ref has none.
    fn of(
        library: &'a Library,
        own: &'a Obj,
        words: &'a [Text],
        told: Option<&'a Tellers>,
        over: Option<&'a Obj>,
    ) -> Sources<'a>
        ensures own { result.own.now ≡ own.now }
        ensures places { places_of result ≡ places_by library.now own.now.head.kind words.now (option_copied over.entry) }
        ensures told { result.told ≡ cond (is_ref own.now.head.kind) None told.entry }
        ensures child { (n : List ℕ) → child_in result n ≡ cond (is_ref own.now.head.kind) None
            (named_in library.now (option_copied told.entry) (sources_by library.now own.now.head.kind words.now (option_copied over.entry)) (option_copied over.entry) n) }
    {
        if own.kind().is_ref() {
            return Sources::none(library, own);
        }
        Sources {
            library,
            own,
            words,
            told,
            over,
            any: true,
        }
    }

    /// The sources of an object whose contracts these words name, and which overrides that child. A ref has none.
    ///
    /// Source: oBIX 1.1, chapter 7 (Contracts).
    pub fn new(
        library: &'a Library,
        own: &'a Obj,
        words: Option<&'a Words>,
        over: Option<&'a Obj>,
    ) -> Sources<'a>
        ensures own { result.own.now ≡ own.now }
        ensures places { places_of result ≡ places_by library.now own.now.head.kind (words_in (option_copied words.entry)) (option_copied over.entry) }
        ensures untold { result.told ≡ None }
    {
        Sources::of(library, own, slice_of(words), None, over)
    }

    /// The same by what is told in place of the words.
    fn told_by(
        library: &'a Library,
        own: &'a Obj,
        told: &'a Tellers,
        over: Option<&'a Obj>,
    ) -> Sources<'a>
        ensures own { result.own.now ≡ own.now }
        ensures places { places_of result ≡ places_by library.now own.now.head.kind told.now.heads (option_copied over.entry) }
        ensures child { (n : List ℕ) → child_in result n ≡ cond (is_ref own.now.head.kind) None
            (or_else (told_child library.now told.now n) (overridden (Some n) (present (option_copied over.entry ∷ [])))) }
    {
        Sources::of(library, own, told.heads().as_slice(), Some(told), over)
    }

    /// The same, where words may be told in place of those that name the contracts: what a head inherits, and the child that one
    /// of a name overrides, are those by all of the words.
    pub(crate) fn by(
        library: &'a Library,
        own: &'a Obj,
        told: Option<&'a Tellers>,
        words: Option<&'a Words>,
        over: Option<&'a Obj>,
    ) -> Sources<'a>
        requires { TellsIn library.now (option_copied told) (option_copied words) }
        ensures own { result.own.now ≡ own.now }
        ensures places { places_of result ≡ places_by library.now own.now.head.kind (heads_in (option_copied told.entry) (option_copied words.entry)) (option_copied over.entry) }
        ensures head { (h : Head) → inherited_head h (sources_of result)
            ≡ inherited_head h (sources_by library.now own.now.head.kind (words_in (option_copied words.entry)) (option_copied over.entry)) }
        ensures over { (n : Option (List ℕ)) → overridden_in result n
            ≡ overridden n (sources_by library.now own.now.head.kind (words_in (option_copied words.entry)) (option_copied over.entry)) }
    {
        match told {
            Some(told) => Sources::told_by(library, own, told, over),
            None => Sources::new(library, own, words, over),
        }
    }

    /// None for an object.
    pub(crate) fn none(library: &'a Library, own: &'a Obj) -> Sources<'a>
        ensures own { result.own.now ≡ own.now }
        ensures places { places_of result ≡ [] }
        ensures untold { result.told ≡ None }
    {
        Sources {
            library,
            own,
            words: &[],
            told: None,
            over: None,
            any: false,
        }
    }

    /// How many places for sources there are: one for each word, and one for the overridden child.
    pub(crate) fn len(&self) -> usize
        ensures { result ≡ length (places_of self.now) }
    {
        if self.any { self.words.len() + 1 } else { 0 }
    }

    /// The source at a place, if one is there.
    pub(crate) fn at(&self, place: usize) -> Option<&'a Obj>
        requires { place < length (places_of self.now) }
        ensures { option_copied result ≡ source_in (places_of self.now) place }
    {
        if place < self.words.len() {
            self.library.get(self.words[place].as_str())
        } else {
            self.over
        }
    }

    /// The source at the first place, if one is there.
    #[tactic(auto, using(crate::proofs::Giving::none_first))]
    fn first_source(&self) -> Option<&'a Obj>
        ensures { option_copied result ≡ source_in (places_of self.now) 0 }
    {
        if self.len() == 0 {
            return None;
        }
        self.at(0)
    }

    /// These with the source at the first place looked up.
    pub(crate) fn looked(&self) -> Looked<'a>
        ensures own { result.sources.own.now ≡ self.now.own.now }
        ensures places { places_of result.sources ≡ places_of self.now }
        ensures first { IsLooked result }
    {
        Looked {
            sources: *self,
            first: self.first_source(),
        }
    }

    /// The first that gives a part.
    fn first(&self, part: &Part) -> Option<&'a Obj>
        ensures { option_copied result ≡ find (gives self.now.own.now.head.kind part.now) (sources_of self.now) }
    {
        self.looked().first_giver(part)
    }

    /// The object that a part comes from: the object itself, where it has the part or no source gives it.
    pub(crate) fn holder(&self, part: &Part) -> &'a Obj
        ensures { result.now ≡ holder_in part.now self.now.own.now (sources_of self.now) }
    {
        if has_part(self.own, part) {
            self.own
        } else {
            match self.first(part) {
                Some(source) => source,
                None => self.own,
            }
        }
    }

    /// The words that the object gives to its own children that have none.
    pub fn implied_by(&self) -> Option<&'a Words>
        ensures { option_copied result ≡ implied_by (inherited_head self.now.own.now.head (sources_of self.now)) }
    {
        if self.own.kind().has_of() {
            self.holder(&Part::Of).head().of()
        } else {
            None
        }
    }

    /// The child of a name in the first that has one, looked for one by one.
    fn first_child(&self, name: &str) -> Option<&'a Obj>
        ensures { option_copied result ≡ overridden (Some name.now) (sources_of self.now) }
    {
        match self.first(&Part::Child(name)) {
            Some(source) => source.child(name),
            None => None,
        }
    }

    /// The child of a name in the child that the object overrides.
    fn over_child(&self, name: &str) -> Option<&'a Obj>
        ensures { option_copied result ≡ overridden (Some name.now) (present (option_copied self.now.over ∷ [])) }
    {
        match self.over {
            Some(over) => over.child(name),
            None => None,
        }
    }

    /// The child of a name by what is told.
    fn told_child(&self, told: &Tellers, name: &str) -> Option<&'a Obj>
        ensures { option_copied result ≡ or_else (told_child self.now.library.now told.now name.now) (overridden (Some name.now) (present (option_copied self.now.over ∷ []))) }
    {
        match told.child(self.library, name) {
            Some(child) => Some(child),
            None => self.over_child(name),
        }
    }

    /// The child of a name in the first that has one.
    pub(crate) fn child(&self, name: &str) -> Option<&'a Obj>
        ensures { option_copied result ≡ child_in self.now name.now }
    {
        match self.told {
            Some(told) => self.told_child(told, name),
            None => self.first_child(name),
        }
    }

    /// The child that an own child of a name overrides.
    pub(crate) fn overridden(&self, name: Option<&Text>) -> Option<&'a Obj>
        ensures { option_copied result ≡ overridden_in self.now (option_copied name.entry) }
    {
        match name {
            Some(name) => self.child(name.as_str()),
            None => None,
        }
    }

    /// Their children, the first of each name: those that the object's own children may override. Of sources by what is told
    /// (`by`) it gives those of the contracts that tell heads alone. An error only for want of memory.
    pub fn children(&self, alloc: Global) -> Result<BTreeMap<&'a str, &'a Obj>, AllocError>
        ensures { IfOk result (λ names. (n : List ℕ) → found names n ≡ overridden (Some n) (sources_of self.now)) }
    {
        let mut names = BTreeMap::new(alloc);
        for place in 0..self.len() {
            if let Some(source) = self.at(place) {
                put_first(&mut names, source.children())?;
            }
        }
        Ok(names)
    }
}

impl<'a> Looked<'a> {
    /// The source at a place, if one is there.
    fn at(&self, place: usize) -> Option<&'a Obj>
        requires looked { IsLooked self.now }
        requires within { place < length (places_of self.now.sources) }
        ensures { option_copied result ≡ source_in (places_of self.now.sources) place }
    {
        if place == 0 {
            self.first
        } else {
            self.sources.at(place)
        }
    }

    /// The first that gives a part.
    pub(crate) fn first_giver(&self, part: &Part) -> Option<&'a Obj>
        requires { IsLooked self.now }
        ensures { option_copied result ≡ find (gives self.now.sources.own.now.head.kind part.now) (sources_of self.now.sources) }
    {
        let kind = self.sources.own.kind();
        for place in 0..self.sources.len() {
            if let Some(source) = self.at(place) {
                if gives(kind, part, source) {
                    return Some(source);
                }
            }
        }
        None
    }

    /// The object that a part comes from: the object itself, where it has the part or no source gives it.
    pub(crate) fn holder(&self, part: &Part) -> &'a Obj
        requires { IsLooked self.now }
        ensures { result.now ≡ holder_in part.now self.now.sources.own.now (sources_of self.now.sources) }
    {
        if has_part(self.sources.own, part) {
            self.sources.own
        } else {
            match self.first_giver(part) {
                Some(source) => source,
                None => self.sources.own,
            }
        }
    }
}
