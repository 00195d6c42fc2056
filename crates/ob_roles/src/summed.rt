//! What the words of a list in a contract give to its items, found once for all of them.
ghost use Rattle.std.specs.Prelude.{◌≡◌, ℕ, [], cond, filter, Option, Some, IfOk, slice_get};
ghost use Rattle.std.specs.List.{list_any};
ghost use Rattle.std.specs.Option.{option_copied};
ghost use Rattle.ob_object.specs.Object.{Object, children};
ghost use Rattle.ob_object.specs.WellFormed.{is_taken, with_child};
ghost use Rattle.ob_contracts.specs.Inherit.{Contracts, is_new};
ghost use Rattle.ob_roles.specs.Given.{contracts_in};
ghost use Rattle.ob_roles.specs.Summed.{HasNames, IsPutIfNew, IsSum, IsGivenBy, takes_given};
ghost use Rattle.ob_roles.specs.Tables.{Holds};
ghost use Rattle.ob_roles.specs.Worded.{with_more};

use crate::few::copied;
use crate::naming::{Names, put_first};
use crate::taking::{Table, contracts_of, first_of};
use ob_object::{Attributes, Kind, Obj, PushFault, Words};
use std::alloc::{AllocError, Global};
use std::collections::BTreeMap;

/// Puts a child last, unless its name is there.
pub(crate) fn put_if_new(object: &mut Obj, child: Obj) -> Result<(), AllocError>
    ensures { IfOk result (λ _. object.new ≡ cond (is_taken child.head.name (children object.old)) object.old (with_child object.old child)) }
{
    match object.push(child) {
        Ok(()) | Err(PushFault::SameName { child: _ }) => Ok(()),
        Err(PushFault::Memory { child: _ }) => Err(AllocError),
    }
}

// Puts a copy of a child last under its name, if it has one that isn't there.
fn put_named<'a>(object: &mut Obj, there: &mut Names<'a>, child: &'a Obj) -> Result<(), AllocError>
    ensures { IfOk result (λ _. HasNames there.old object.old → IsPutIfNew object.old object.new child.now × HasNames there.new object.new) }
{
    let Some(name) = child.name() else {
        return Ok(());
    };
    if there.contains_key(&name.as_str()) {
        return Ok(());
    }
    put_first(there, std::slice::from_ref(child))?;
    let copy = child.copy()?;
    put_if_new(object, copy)?;
    Ok(())
}

/// Puts last the named children of a source whose names aren't there; the names that are there are known, and are known
/// then too.
pub(crate) fn put_missing<'a>(
    object: &mut Obj,
    there: &mut Names<'a>,
    source: &'a Obj,
) -> Result<(), AllocError>
    ensures { IfOk result (λ _. HasNames there.old object.old → (object.new ≡ with_more object.old (filter (is_new (children object.old)) (children source.now))) × HasNames there.new object.new) }
{
    for child in source.children() {
        put_named(object, there, child)?;
    }
    Ok(())
}

// A list with nothing but the words that it gives.
fn list_of(alloc: Global, of: Option<&Words>) -> Result<Obj, AllocError>
    ensures of { IfOk result (λ made. made.head.of ≡ option_copied of.entry) }
    ensures empty { IfOk result (λ made. children made ≡ []) }
{
    let mut made = Obj::new(alloc, Kind::List);
    let of = copied(of)?;
    match made.put_of(of) {
        Ok(()) => Ok(made),
        Err(_fault) => Err(AllocError),
    }
}

/// One object in place of the contracts that words name: it has the first `of` among them, and their children, the first of
/// each name.
fn sum_of(alloc: Global, table: &Table, words: &Words) -> Result<Obj, AllocError>
    ensures { IfOk result (λ sum. (lib : Contracts) → Holds table.now lib → IsSum sum (contracts_in lib (Some words.now))) }
{
    let from = contracts_of(alloc, table, words.as_slice())?;
    let mut sum = list_of(alloc, first_of(from.as_slice()))?;
    let mut there = BTreeMap::new(alloc);
    for source in &from {
        put_missing(&mut sum, &mut there, source)?;
    }
    Ok(sum)
}

// Whether an object takes from the contracts of the words that its list or feed gives it: it has none of its own, and is no
// ref.
fn takes_given(head: &Attributes) -> bool
    ensures { result ≡ takes_given head.now }
{
    head.is().is_none() && !head.kind().is_ref()
}

// Whether one of some objects does.
fn any_takes(objects: &[Obj]) -> bool
    ensures { result ≡ list_any (λ o. takes_given o.head) objects.now }
{
    for object in objects {
        if takes_given(object.head()) {
            return true;
        }
    }
    false
}

/// One object in place of the contracts of the words that an object gives to its children, if one of them takes from these.
pub(crate) fn sum_given(
    alloc: Global,
    table: &Table,
    object: &Obj,
    gives: Option<&Words>,
) -> Result<Option<Obj>, AllocError>
    ensures { IfOk result (λ sum. (lib : Contracts) (place : ℕ) (child : Object) → Holds table.now lib → Some child ≡ slice_get (children object.now) place
        → IsGivenBy sum lib child.head (option_copied gives.entry)) }
{
    let Some(words) = gives else {
        return Ok(None);
    };
    if !any_takes(object.children()) {
        return Ok(None);
    }
    let sum = sum_of(alloc, table, words)?;
    Ok(Some(sum))
}
