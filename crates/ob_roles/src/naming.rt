//! The children of sources, found by name.
ghost use Rattle.std.specs.Prelude.{◌≡◌, ◌∷◌, [], List, ℕ, Some, IfOk, OnOk};
ghost use Rattle.std.specs.Option.{option_copied};
ghost use Rattle.ob_object.specs.Object.{Object};
ghost use Rattle.ob_object.specs.WellFormed.{named};
ghost use Rattle.ob_contracts.specs.Found.{found, lent};
ghost use Rattle.ob_contracts.specs.Inherit.{or_else, overridden};
ghost use Rattle.ob_roles.specs.Given.{found_by};

use ob_object::{Attributes, Obj};
use std::alloc::{AllocError, Global};
use std::collections::BTreeMap;

/// The first object of each name.
pub type Names<'a> = BTreeMap<&'a str, &'a Obj>;

/// Puts each object whose name isn't there yet.
pub(crate) fn put_first<'a>(names: &mut Names<'a>, objects: &'a [Obj]) -> Result<(), AllocError>
    ensures { OnOk result ((n : List ℕ) → found names.new n ≡ or_else (found names.old n) (named n objects.now)) }
{
    for object in objects {
        if let Some(name) = object.name() {
            let key = name.as_str();
            if !names.contains_key(&key) {
                names.insert(key, object)?;
            }
        }
    }
    Ok(())
}

/// The children of sources, the first of each name.
pub fn names_in<'a>(alloc: Global, from: &[&'a Obj]) -> Result<Names<'a>, AllocError>
    ensures { IfOk result (λ names. (n : List ℕ) → found names n ≡ overridden (Some n) (lent from.now)) }
{
    let mut names = BTreeMap::new(alloc);
    for source in from {
        put_first(&mut names, source.children())?;
    }
    Ok(names)
}

/// The children of an object by their names.
pub(crate) fn names_of<'a>(alloc: Global, object: &'a Obj) -> Result<Names<'a>, AllocError>
    ensures { IfOk result (λ names. (n : List ℕ) → found names n ≡ overridden (Some n) (object.now ∷ [])) }
{
    let own = [object];
    let names = names_in(alloc, &own)?;
    Ok(names)
}

/// The object that has the name of this head.
pub(crate) fn find_by<'a>(names: &Names<'a>, head: &'a Attributes) -> Option<&'a Obj>
    ensures { option_copied result ≡ found_by names.now head.now.name }
{
    match head.name() {
        Some(name) => names.get(&name.as_str()).copied(),
        None => None,
    }
}

/// The child that an object of this head overrides.
pub fn find_over<'a>(names: &Names<'a>, head: &'a Attributes) -> Option<&'a Obj>
    ensures { (ss : List Object) → ((n : List ℕ) → found names.now n ≡ overridden (Some n) ss) → option_copied result ≡ overridden head.now.name ss }
{
    find_by(names, head)
}
