//! The hrefs that a WatchIn asks for.
ghost use Rattle.std.specs.Prelude.{◌≡◌, map, IfOk, option_map};
ghost use Rattle.std.specs.Option.{option_copied};
ghost use Rattle.ob_site_rules.specs.Actions.{uri_of};
ghost use Rattle.ob_site_rules.specs.Build.{child};
ghost use Rattle.ob_site_rules.specs.Watched.{asked_by, asked_in, asked_items};
ghost use Rattle.ob_requests.specs.Calls.{asked_of, firsts, HaveSeen, ArePut};

use ob_object::{Kind, Obj, Slot};
use ob_values::{Text, Value};
use std::alloc::{AllocError, Global};
use std::collections::BTreeSet;

/// An href as it is asked, and the input that stands beside it.
pub type WatchInItem = (Text, Option<Obj>);

/// The text of a uri that has one.
pub fn uri_of(object: &Obj) -> Option<&Text>
    ensures { option_copied result ≡ uri_of object.now }
{
    match (object.kind(), object.slot()) {
        (Kind::Uri, Slot::Is(Value::Uri(text))) => Some(text),
        _ => None,
    }
}

// A copy of the child of a name.
fn copy_child(object: &Obj, name: &str) -> Result<Option<Obj>, AllocError>
    ensures { IfOk result (λ copy. copy ≡ child name.now object.now) }
{
    match object.child(name) {
        Some(child) => {
            let copy = child.copy()?;
            Ok(Some(copy))
        }
        None => Ok(None),
    }
}

// What a uri asks for.
fn asked_of(object: &Obj) -> Result<Option<WatchInItem>, AllocError>
    ensures { IfOk result (λ asked. asked ≡ asked_of object.now) }
{
    let Some(text) = uri_of(object) else {
        return Ok(None);
    };
    let text = text.copy()?;
    let input = copy_child(object, "in")?;
    Ok(Some((text, input)))
}

// The uris of a list, each with its child `in`, if all are uris with a value.
fn asked_items(alloc: Global, objects: &[Obj]) -> Result<Option<Vec<WatchInItem>>, AllocError>
    ensures { IfOk result (λ asked. option_map (λ v. v.items) asked ≡ asked_items objects.now) }
{
    let mut all = Vec::new(alloc);
    for object in objects {
        match asked_of(object)? {
            Some(asked) => all.push(asked)?,
            None => return Ok(None),
        }
    }
    Ok(Some(all))
}

// What a list of uris asks for.
fn asked_in(alloc: Global, hrefs: Option<&Obj>) -> Result<Option<Vec<WatchInItem>>, AllocError>
    ensures { IfOk result (λ asked. option_map (λ v. v.items) asked ≡ asked_in (option_copied hrefs.entry)) }
{
    let Some(hrefs) = hrefs else {
        return Ok(Some(Vec::new(alloc)));
    };
    if !hrefs.kind().same(Kind::List) {
        return Ok(None);
    }
    asked_items(alloc, hrefs.children())
}

/// What a WatchIn asks for, or None where it has another shape; no input, or a null obj, asks for
/// nothing. An error only for want of memory.
///
/// Source: oBIX 1.1, chapter 12 (WatchIn).
pub fn asked_by(alloc: Global, input: &Option<Obj>) -> Result<Option<Vec<WatchInItem>>, AllocError>
    ensures { IfOk result (λ asked. option_map (λ v. v.items) asked ≡ asked_by input.now) }
{
    let Some(input) = input else {
        return Ok(Some(Vec::new(alloc)));
    };
    if !input.kind().same(Kind::Obj) {
        return Ok(None);
    }
    match input.slot() {
        Slot::Null => Ok(Some(Vec::new(alloc))),
        _ => asked_in(alloc, input.child("hrefs")),
    }
}

// A copy of what is asked for.
fn copy_asked(asked: &WatchInItem) -> Result<WatchInItem, AllocError>
    ensures { IfOk result (λ copy. copy ≡ asked.now) }
{
    let text = asked.0.copy()?;
    match &asked.1 {
        Some(input) => {
            let input = input.copy()?;
            Ok((text, Some(input)))
        }
        None => Ok((text, None)),
    }
}

// Puts a copy of what is asked for last, unless its href is among those that were seen.
fn put_first<'a>(
    seen: &mut BTreeSet<&'a str>,
    kept: &mut Vec<WatchInItem>,
    asked: &'a WatchInItem,
) -> Result<(), AllocError>
    ensures { IfOk result (λ _. HaveSeen seen.old kept.old.items → ArePut seen.new kept.old.items kept.new.items asked.now) }
{
    let fresh = seen.insert(asked.0.as_str())?;
    if !fresh {
        return Ok(());
    }
    let copy = copy_asked(asked)?;
    kept.push(copy)?;
    Ok(())
}

/// What is asked for without what asks for an href again: of equal hrefs only the first counts.
pub fn firsts(alloc: Global, asked: &[WatchInItem]) -> Result<Vec<WatchInItem>, AllocError>
    ensures { IfOk result (λ kept. kept.items ≡ firsts asked.now) }
{
    let mut seen = BTreeSet::new(alloc);
    let mut kept = Vec::new(alloc);
    for a in asked {
        put_first(&mut seen, &mut kept, a)?;
    }
    Ok(kept)
}

/// The hrefs that are asked for.
pub fn texts_of(alloc: Global, asked: &[WatchInItem]) -> Result<Vec<Text>, AllocError>
    ensures { IfOk result (λ texts. texts.items ≡ map (λ a. a.0) asked.now) }
{
    let mut texts = Vec::new(alloc);
    for a in asked {
        texts.push(a.0.copy()?)?;
    }
    Ok(texts)
}
