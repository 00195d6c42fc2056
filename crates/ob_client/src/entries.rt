//! The entries of a WatchOut.
ghost use Rattle.std.specs.Prelude.{◌≡◌, IfOk, map, is_some, option_map};
ghost use Rattle.std.specs.List.{list_all};
ghost use Rattle.ob_watching.specs.WatchOuts.{is_of_kind, items_of, entries_of};
ghost use Rattle.ob_client.specs.Entries.{is_feed, is_err, text_of, each_once, entries_once};

use ob_object::{Kind, Obj};
use std::alloc::{AllocError, Global};
use std::collections::BTreeSet;

/// Whether an object is of a kind.
pub(crate) fn is_of_kind(kind: Kind, object: &Obj) -> bool
    ensures { result ≡ is_of_kind kind object.now }
{
    object.kind().same(kind)
}

/// Whether an object is a feed.
pub(crate) fn is_feed(object: &Obj) -> bool
    ensures { result ≡ is_feed object.now }
{
    is_of_kind(Kind::Feed, object)
}

/// Whether an object is an err.
pub(crate) fn is_err(object: &Obj) -> bool
    ensures { result ≡ is_err object.now }
{
    is_of_kind(Kind::Err, object)
}

/// The text under which an entry stands.
pub(crate) fn text_of(entry: &Obj) -> &str
    ensures { result.now ≡ text_of entry.now }
{
    match entry.href() {
        Some(href) => href.as_str(),
        None => "",
    }
}

// Whether each of these has an href.
fn have_hrefs(items: &[Obj]) -> bool
    ensures { result ≡ list_all (λ item. is_some item.head.href) items.now }
{
    items.iter().all(|item| item.href().is_some())
}

// The items of a list that have an href each.
fn items_of(object: &Obj) -> Option<&[Obj]>
    ensures { option_map (λ items. items.now) result ≡ items_of object.now }
{
    if is_of_kind(Kind::List, object) && have_hrefs(object.children()) {
        Some(object.children())
    } else {
        None
    }
}

// The entries of a WatchOut.
fn entries_of(reply: &Obj) -> Option<&[Obj]>
    ensures { option_map (λ items. items.now) result ≡ entries_of reply.now }
{
    if !is_of_kind(Kind::Obj, reply) {
        return None;
    }
    match reply.child("values") {
        Some(values) => items_of(values),
        None => None,
    }
}

// Whether no two have one href.
fn each_once(alloc: Global, entries: &[Obj]) -> Result<bool, AllocError>
    ensures { IfOk result (λ once. once ≡ each_once (map text_of entries.now)) }
{
    let mut seen = BTreeSet::new(alloc);
    for entry in entries {
        let is_new = seen.insert(text_of(entry))?;
        if !is_new {
            return Ok(false);
        }
    }
    Ok(true)
}

/// The entries of a WatchOut whose hrefs differ; None where it is none, or they don't.
pub(crate) fn entries_once(alloc: Global, reply: &Obj) -> Result<Option<&[Obj]>, AllocError>
    ensures { IfOk result (λ entries. option_map (λ items. items.now) entries ≡ entries_once reply.now) }
{
    let Some(entries) = entries_of(reply) else {
        return Ok(None);
    };
    if each_once(alloc, entries)? {
        Ok(Some(entries))
    } else {
        Ok(None)
    }
}
