//! The items of a watch by their hrefs, in the order in which these were first added.
ghost use Rattle.std.specs.Prelude.{◌≡◌, ◌-◌, ◌^◌, [], min, List, map, take, not, IfOk, OnErr, string_bytes, false, true};
ghost use Rattle.std.specs.List.{filter, list_any};
ghost use Rattle.ob_watch.specs.Held.{StandUnderOwn, items_of};
ghost use Rattle.ob_watch.specs.Items.{Differ, among, bytes_of, changed_by, found_item, has_text, is_due, put_item, put_over};
ghost use Rattle.ob_watch.specs.Marked.{IsReached};
ghost use Rattle.ob_watch.specs.Marks.{AreStampsPast};

use crate::change::Change;
use crate::feeds::Feeds;
use crate::item::Item;
use crate::marks::{self, Mark};
use indexmap::IndexMap;
use ob_tree::Tree;
use ob_values::Text;
use std::alloc::{AllocError, Global};
use std::marker::Model;

// Items under the texts of their hrefs.
type Map = IndexMap<String, Item>;

/// The items of a watch by their hrefs, in the order in which these were first added. No two have one href.
///
/// Source: oBIX 1.1, chapter 12 (Watches).
pub(crate) struct Items {
    map: Map,
    // The mark that each item on an object has, where it is known; and whether some items may be on feeds.
    mark: Mark,
    may_be_feeds: bool,
    // The bytes of the hrefs, counted to 2^64 - 1.
    bytes: u64,
}

impl Drop for Items {
    // By one call for each part, so that to drop items is one call to whoever may have to.
    fn drop(self) {
        let Items {
            map,
            mark: _,
            may_be_feeds: _,
            bytes: _,
        } = self;
        drop(map);
    }
}

impl Model for Items {
    ghost use Rattle.std.specs.Prelude.{List};
    ghost use Rattle.ob_watch.specs.declared.item.Item.{Item};
    ghost use Rattle.ob_watch.specs.Held.{items_of};
    ghost use Rattle.ob_watch.specs.Marked.{AreKnown};

    ghost Value = { List Item };

    ghost view = { λ m. items_of m.map.entries };

    ghost invariant = { λ m. AreKnown m.map.entries m.mark m.may_be_feeds m.bytes };
}

// Whether a text is one of these.
fn is_among(texts: &[Text], text: &str) -> bool
    ensures { result ≡ among texts.now text.now }
{
    texts.iter().any(|other| text == other.as_str())
}

// The items of a map in their order.
fn as_items(held: &Map) -> &[Item]
    ensures { result.now ≡ items_of held.now.entries }
{
    held.as_slice().values().as_slice()
}

// Makes a change of each item.
fn change_each<C: Change>(held: &mut Map, change: &C)
    ensures { held.new.entries ≡ map (λ e. (e.0, changed_by (C.made change.now) e.1)) held.old.entries }
{
    for place in 0..held.len() {
        let item = &mut held[place];
        item.change(change);
    }
}

// The bytes of the hrefs of items, counted to 2^64 - 1.
fn count_bytes(items: &[Item]) -> u64
    ensures { result ≡ min (bytes_of items.now) (2 ^ 64 - 1) }
{
    let mut bytes = 0u64;
    for item in items {
        bytes = bytes.saturating_add(item.text().as_str().len() as u64);
    }
    bytes
}

// Whether one of these items is to be reported.
fn any_due<F: Feeds>(items: &[Item], tree: &Tree, feeds: &F) -> bool
    ensures { result ≡ list_any (is_due tree.now (F.logs feeds.now)) items.now }
{
    items.iter().any(|item| item.is_due(tree, feeds))
}

// Whether items on objects are known to be reported after the last of so many steps.
fn is_reported(mark: Mark, steps: u64) -> bool
    ensures { result ≡ true → IsReached steps mark }
{
    match mark {
        Some(mark) => mark >= steps,
        None => false,
    }
}

// Puts an item in the place of the one of its href, if there is one.
fn put_over(held: &mut Map, item: Item)
    requires { StandUnderOwn held.old.entries }
    ensures put { items_of held.new.entries ≡ put_over item (items_of held.old.entries) }
    ensures own { StandUnderOwn held.new.entries }
{
    match held.get_mut(item.text().as_str()) {
        Some(old) => *old = item,
        None => return,
    }
}

impl Items {
    /// No items.
    pub(crate) fn new(alloc: Global) -> Items
        ensures { result ≡ [] }
    {
        Items {
            map: IndexMap::new(alloc),
            mark: None,
            may_be_feeds: false,
            bytes: 0,
        }
    }

    /// The items in their order. No two have one href.
    pub fn as_slice(&self) -> &[Item]
        ensures items { result.now ≡ self.now }
        ensures differ { Differ self.now }
    {
        self.map.as_slice().values().as_slice()
    }

    /// Whether an item is of this href.
    pub fn has(&self, text: &Text) -> bool
        ensures { result ≡ has_text self.now text.now }
    {
        self.map.contains_key(text.as_str())
    }

    /// The bytes of the hrefs, counted to 2^64 - 1.
    pub(crate) fn bytes(&self) -> u64
        ensures { result ≡ min (bytes_of self.now) (2 ^ 64 - 1) }
    {
        self.bytes
    }

    /// Whether an item is to be reported, where no stamp of the tree is of a step to come.
    pub(crate) fn has_due<F: Feeds>(&self, tree: &Tree, feeds: &F) -> bool
        requires { AreStampsPast tree.now }
        ensures { result ≡ list_any (is_due tree.now (F.logs feeds.now)) self.now }
    {
        if !self.may_be_feeds && is_reported(self.mark, tree.steps()) {
            return false;
        }
        any_due(as_items(&self.map), tree, feeds)
    }

    /// Puts an item in the place of the one of its href, which comes back, or last. Out of memory leaves all as it was.
    pub(crate) fn put(&mut self, alloc: Global, item: Item) -> Result<Option<Item>, AllocError>
        ensures put { IfOk result (λ old. self.new ≡ put_item item self.old) }
        ensures old { IfOk result (λ old. old ≡ found_item item.text self.old) }
        ensures err { OnErr result (self.new ≡ self.old) }
    {
        let text = String::from_str(alloc, item.text().as_str())?;
        let size = item.text().as_str().len() as u64;
        let on_feed = item.is_on_feed();
        let mark = marks::after_put(self.mark, &item);
        let old = self.map.insert(text, item)?;
        self.mark = mark;
        self.may_be_feeds = self.may_be_feeds || on_feed;
        if old.is_none() {
            self.bytes = self.bytes.saturating_add(size);
        }
        Ok(old)
    }

    /// Puts an item in the place of the one of its href, if there is one.
    pub(crate) fn put_over(&mut self, item: Item)
        ensures { self.new ≡ put_over item self.old }
    {
        let on_feed = item.is_on_feed();
        self.may_be_feeds = self.may_be_feeds || on_feed;
        self.mark = marks::after_put(self.mark, &item);
        put_over(&mut self.map, item);
    }

    /// Keeps the first so many items.
    pub(crate) fn truncate(&mut self, count: usize)
        ensures { self.new ≡ take count self.old }
    {
        self.map.truncate(count);
        self.bytes = count_bytes(as_items(&self.map));
    }

    /// Drops the items of these hrefs.
    pub(crate) fn remove(&mut self, texts: &[Text])
        ensures { self.new ≡ filter (λ i. not (among texts.now i.text)) self.old }
    {
        self.map.retain(
            |text: &String, _item: &mut Item| -> bool
                ensures { (result ≡ not (among texts.entry.now (string_bytes text.now))) × (_item.new ≡ _item.old) }
            { !is_among(texts, text.as_str()) },
        );
        self.bytes = count_bytes(as_items(&self.map));
    }

    /// Makes a change of each item. It has nothing to do where no item is on a feed and each has the mark that it gives.
    pub(crate) fn change<C: Change>(&mut self, change: &C)
        ensures { self.new ≡ map (changed_by (C.made change.now)) self.old }
    {
        if !self.may_be_feeds && marks::is_given_again(self.mark, change) {
            return;
        }
        let mark = change.mark();
        change_each(&mut self.map, change);
        self.mark = mark;
    }
}
