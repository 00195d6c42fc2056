//! Objects put together from their parts.
ghost use Rattle.std.specs.Prelude.{◌≡◌, ◌++◌, ◌∷◌, [], Some, None, false, IsTrue, IfOk};
ghost use Rattle.ob_object.specs.Object.{children, empty_head};
ghost use Rattle.ob_object.specs.Fits.{fits_head, fits_slot};
ghost use Rattle.ob_object.specs.WellFormed.{is_taken, with_child};
ghost use Rattle.ob_object.specs.declared.kind.Kind.TheVariants as kind;
ghost use Rattle.ob_site_rules.specs.Build.{whole, word, valued, time_slot, ref_to, op_at, feed_at, under_name};
ghost use Rattle.ob_replies.specs.Names.{is_name, are_new};
ghost use Rattle.ob_replies.specs.ContractWords as contract_words;

use crate::contract::Contract;
use ob_object::{Attributes, Kind, Obj, Slot};
use ob_times::Abstime;
use ob_values::{Text, Value};
use std::alloc::{AllocError, Global};

/// An obj's head with one contract, and its path if one is given.
pub fn obj_head(alloc: Global, href: Option<Text>, is: Contract) -> Result<Attributes, AllocError>
    ensures { IfOk result (λ h. h ≡ record (empty_head kind.Obj) { href = href; is = word (contract_words.contract is) }) }
{
    let words = is.words(alloc)?;
    let mut head = Attributes::empty(alloc, Kind::Obj);
    head.put_href(href);
    head.put_is(Some(words));
    Ok(head)
}

/// Puts an object last.
pub fn put(objects: &mut Vec<Obj>, object: Obj) -> Result<(), AllocError>
    ensures { IfOk result (λ _. objects.new.items ≡ objects.old.items ++ object ∷ []) }
{
    match objects.push(object) {
        Ok(()) => Ok(()),
        Err(_object) => Err(AllocError),
    }
}

/// An object of a head and children, none of which has the name of one before it.
#[tactic(auto, using(crate::proofs::New::new_differ))]
pub fn whole(head: Attributes, children: Vec<Obj>) -> Obj
    requires fits { IsTrue (fits_head head) }
    requires differ { IsTrue (are_new [] children.items) }
    ensures { result ≡ whole head children.items }
{
    Obj::with_children(head, children)
}

/// An object of a head and one child.
#[tactic(auto, using(crate::proofs::New::one_new))]
pub fn one_child(alloc: Global, head: Attributes, child: Obj) -> Result<Obj, AllocError>
    requires { IsTrue (fits_head head) }
    ensures { IfOk result (λ o. o ≡ whole head (child ∷ [])) }
{
    let mut children = Vec::new(alloc);
    put(&mut children, child)?;
    Ok(whole(head, children))
}

/// A child of a value kind.
#[tactic(auto, using(crate::proofs::Fits::valued_fits, crate::proofs::Fits::name_printable))]
pub fn valued(alloc: Global, kind: Kind, name: &str, slot: Slot) -> Result<Obj, AllocError>
    requires name { IsTrue (is_name name.now) }
    requires slot { IsTrue (fits_slot kind slot) }
    ensures { IfOk result (λ o. o ≡ valued kind name.now slot) }
{
    let name = Text::from_ascii(alloc, name)?;
    let mut head = Attributes::empty(alloc, kind);
    head.put_name(Some(name));
    head.put_slot(slot);
    Ok(Obj::from_attributes(alloc, head))
}

/// A time as a slot, or null.
fn time_slot(time: Option<Abstime>) -> Slot
    ensures { result ≡ time_slot time }
{
    match time {
        Some(time) => Slot::Is(Value::Abstime(time)),
        None => Slot::Null,
    }
}

/// A child that is a time, or null.
#[tactic(auto, using(crate::proofs::Fits::time_fits))]
pub fn timed(alloc: Global, name: &str, time: Option<Abstime>) -> Result<Obj, AllocError>
    requires { IsTrue (is_name name.now) }
    ensures { IfOk result (λ o. o ≡ valued kind.Abstime name.now (time_slot time)) }
{
    valued(alloc, Kind::Abstime, name, time_slot(time))
}

/// A ref to a path, with one contract.
#[tactic(auto, using(crate::proofs::Fits::ref_fits, crate::proofs::Fits::name_printable))]
pub fn ref_to(alloc: Global, name: &str, path: Text, is: Contract) -> Result<Obj, AllocError>
    requires { IsTrue (is_name name.now) }
    ensures { IfOk result (λ o. o ≡ ref_to name.now path (word (contract_words.contract is))) }
{
    let name = Text::from_ascii(alloc, name)?;
    let words = is.words(alloc)?;
    let mut head = Attributes::empty(alloc, Kind::Ref);
    head.put_name(Some(name));
    head.put_href(Some(path));
    head.put_is(Some(words));
    Ok(Obj::from_attributes(alloc, head))
}

/// An op at a path, with what it takes and what it gives.
#[tactic(auto, using(crate::proofs::Fits::op_fits, crate::proofs::Fits::name_printable))]
pub fn op_at(
    alloc: Global,
    name: &str,
    path: Text,
    takes: Contract,
    gives: Contract,
) -> Result<Obj, AllocError>
    requires { IsTrue (is_name name.now) }
    ensures { IfOk result (λ o. o ≡ op_at name.now path (contract_words.contract takes) (contract_words.contract gives)) }
{
    let name = Text::from_ascii(alloc, name)?;
    let input = takes.words(alloc)?;
    let output = gives.words(alloc)?;
    let mut head = Attributes::empty(alloc, Kind::Op);
    head.put_name(Some(name));
    head.put_href(Some(path));
    if head.put_input(Some(input)).is_err() {
        return Err(AllocError);
    }
    if head.put_output(Some(output)).is_err() {
        return Err(AllocError);
    }
    Ok(Obj::from_attributes(alloc, head))
}

/// A feed at a path, with the contract of its events and what it takes.
#[tactic(auto, using(crate::proofs::Fits::feed_fits, crate::proofs::Fits::name_printable))]
pub fn feed_at(
    alloc: Global,
    name: &str,
    path: Text,
    of: Contract,
    takes: Contract,
) -> Result<Obj, AllocError>
    requires { IsTrue (is_name name.now) }
    ensures { IfOk result (λ o. o ≡ feed_at name.now path (contract_words.contract of) (contract_words.contract takes)) }
{
    let name = Text::from_ascii(alloc, name)?;
    let of = of.words(alloc)?;
    let input = takes.words(alloc)?;
    let mut head = Attributes::empty(alloc, Kind::Feed);
    head.put_name(Some(name));
    head.put_href(Some(path));
    if head.put_of(Some(of)).is_err() {
        return Err(AllocError);
    }
    if head.put_input(Some(input)).is_err() {
        return Err(AllocError);
    }
    Ok(Obj::from_attributes(alloc, head))
}

/// The object under a name.
#[tactic(auto, using(crate::proofs::Fits::name_printable, crate::proofs::Fits::name_fits))]
pub fn named(alloc: Global, mut object: Obj, name: &str) -> Result<Obj, AllocError>
    requires { IsTrue (is_name name.now) }
    ensures { IfOk result (λ o. o ≡ under_name name.now object) }
{
    let name = Text::from_ascii(alloc, name)?;
    match object.put_name(Some(name)) {
        Ok(()) => Ok(object),
        Err(_name) => unreachable!(),
    }
}
