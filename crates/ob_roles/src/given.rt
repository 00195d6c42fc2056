//! What words give to the objects that have them, found once for all of these.
ghost use Rattle.std.specs.Prelude.{◌≡◌, ◌∷◌, [], List, ℕ, Option, Some, None, IfOk, cond, option_and_then};
ghost use Rattle.std.specs.Option.{option_copied};
ghost use Rattle.ob_object.specs.declared.head.Head.{Head};
ghost use Rattle.ob_object.specs.Object.{Object};
ghost use Rattle.ob_object.specs.Kinds.{is_ref};
ghost use Rattle.ob_contracts.specs.Found.{found};
ghost use Rattle.ob_contracts.specs.Inherit.{Contracts, Words, or_else, implied_by, inherited_head, overridden, present, sources};
ghost use Rattle.ob_roles.specs.Given.{IsGiven, IsBase, IsAbove, based};
ghost use Rattle.ob_roles.specs.Kinds.{Tells};
ghost use Rattle.ob_roles.specs.Tables.{Holds};

use crate::ancestors::{Ancestors, none};
use crate::kinds::{Known, words_are};
use crate::naming::{Names, find_by, names_in};
use crate::taking::{Table, contracts_of, first_of};
use ob_object::{Attributes, Obj, Words};
use std::alloc::{AllocError, Global};
use std::collections::BTreeMap;

/// What words give: what an object is that has them, the words that the first of their contracts with an `of` gives to
/// its children, and the children of the contracts, the first of each name.
#[derive(Drop)]
pub(crate) struct Given<'a> {
    pub(crate) words: Option<&'a Words>,
    pub(crate) is: Ancestors,
    pub(crate) of: Option<&'a Words>,
    pub(crate) names: Names<'a>,
}

/// What no words give.
pub(crate) fn nothing<'a>(alloc: Global) -> Given<'a>
    ensures words { option_copied result.words ≡ None }
    ensures given { (lib : Contracts) → IsGiven result lib }
{
    let names = BTreeMap::new(alloc);
    Given {
        words: None,
        is: none(),
        of: None,
        names,
    }
}

/// What these words give.
fn given_of<'a>(
    alloc: Global,
    table: &'a Table,
    known: &Known,
    words: &'a Words,
) -> Result<Given<'a>, AllocError>
    ensures words { IfOk result (λ given. option_copied given.words ≡ Some words.now) }
    ensures given { IfOk result (λ given. (lib : Contracts) → Holds table.now lib → Tells known.now lib → IsGiven given lib) }
{
    let from = contracts_of(alloc, table, words.as_slice())?;
    let names = names_in(alloc, from.as_slice())?;
    let of = first_of(from.as_slice());
    let is = words_are(known, words.as_slice());
    Ok(Given {
        words: Some(words),
        is,
        of,
        names,
    })
}

/// What words give, if there are any.
pub(crate) fn given_by<'a>(
    alloc: Global,
    table: &'a Table,
    known: &Known,
    words: Option<&'a Words>,
) -> Result<Given<'a>, AllocError>
    ensures words { IfOk result (λ given. option_copied given.words ≡ option_copied words.entry) }
    ensures given { IfOk result (λ given. (lib : Contracts) → Holds table.now lib → Tells known.now lib → IsGiven given lib) }
{
    match words {
        Some(words) => given_of(alloc, table, known, words),
        None => Ok(nothing(alloc)),
    }
}

/// What is given to an object: by its own words, or else by those of its list or feed.
pub(crate) fn base_of<'a, 'b>(own: &'b Given<'a>, list: &'b Given<'a>) -> &'b Given<'a>
    ensures { (lib : Contracts) (h : Head) → option_copied own.now.words ≡ h.is → IsGiven own.now lib → IsGiven list.now lib → IsBase result.now lib h (option_copied list.now.words) }
{
    if own.words.is_some() { own } else { list }
}

// The words of an object, or else those that are given to it, or else those of the child that it overrides.
fn first_words<'a>(
    head: &'a Attributes,
    base: &Given<'a>,
    over: Option<&'a Obj>,
) -> Option<&'a Words>
    ensures { option_copied result ≡ or_else head.now.of (or_else (option_copied base.now.of) (option_and_then (λ o. o.head.of) (option_copied over.entry))) }
{
    match head.of() {
        Some(words) => Some(words),
        None => match base.of {
            Some(words) => Some(words),
            None => match over {
                Some(over) => over.of(),
                None => None,
            },
        },
    }
}

/// The words that an object gives to its children, where it is a list or a feed.
pub(crate) fn gives_of<'a>(
    head: &'a Attributes,
    base: &Given<'a>,
    over: Option<&'a Obj>,
) -> Option<&'a Words>
    ensures { (lib : Contracts) (implied : Option Words) → IsBase base.now lib head.now implied → option_copied result ≡ implied_by (inherited_head head.now (sources lib head.now implied (option_copied over.entry))) }
{
    if head.kind().has_of() {
        return first_words(head, base, over);
    }
    None
}

/// The children that those of an object may override: those of its contracts, if it takes from any, and behind them
/// those of the object that it overrides.
#[derive(Clone, Copy)]
pub(crate) struct Above<'a, 'b> {
    pub(crate) base: Option<&'b Names<'a>>,
    pub(crate) over: &'b Names<'a>,
}

// The child of the contracts that has the name of this head, where there are any.
fn based<'a, 'b>(base: Option<&'b Names<'a>>, head: &'a Attributes) -> Option<&'a Obj>
    ensures { option_copied result ≡ based base.entry head.now.name }
{
    match base {
        Some(base) => find_by(base, head),
        None => None,
    }
}

impl<'a, 'b> Above<'a, 'b> {
    /// The child that an object of this head overrides.
    pub(crate) fn over(&self, head: &'a Attributes) -> Option<&'a Obj>
        ensures { (ss : List Object) → IsAbove self.now ss → option_copied result ≡ overridden head.now.name ss }
    {
        let first = based(self.base, head);
        if first.is_some() {
            return first;
        }
        find_by(self.over, head)
    }
}

/// The children of the object that an object overrides, the first of each name; a ref takes none.
pub(crate) fn over_names<'a>(
    alloc: Global,
    head: &Attributes,
    over: Option<&'a Obj>,
) -> Result<Names<'a>, AllocError>
    ensures { IfOk result (λ names. (n : List ℕ) → found names n ≡ overridden (Some n) (cond (is_ref head.now.kind) [] (present (option_copied over.entry ∷ [])))) }
{
    if head.kind().is_ref() {
        return Ok(BTreeMap::new(alloc));
    }
    match over {
        Some(over) => {
            let from = [over];
            names_in(alloc, &from)
        }
        None => Ok(BTreeMap::new(alloc)),
    }
}

/// The children that those of an object may override, by what is given to it and by those of the object that it
/// overrides. A ref takes none.
pub(crate) fn above_of<'a, 'b>(
    head: &Attributes,
    base: &'b Given<'a>,
    over: &'b Names<'a>,
) -> Above<'a, 'b>
    ensures { (lib : Contracts) (implied : Option Words) (o : Option Object) → IsBase base.now lib head.now implied → ((n : List ℕ) → found over.now n ≡ overridden (Some n) (cond (is_ref head.now.kind) [] (present (o ∷ [])))) → IsAbove result (sources lib head.now implied o) }
{
    if head.kind().is_ref() {
        return Above { base: None, over };
    }
    Above {
        base: Some(&base.names),
        over,
    }
}
