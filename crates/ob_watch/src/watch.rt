//! One watch.
ghost use Rattle.std.specs.Prelude.{◌≡◌, ◌-◌, List, map, length, IfSome, option_map, position, slice_get};
ghost use Rattle.std.specs.List.{list_any};
ghost use Rattle.ob_watch.specs.declared.item.Item.{Item as KeptItem};
ghost use Rattle.ob_watch.specs.Adding.{Adds, refusal};
ghost use Rattle.ob_watch.specs.Items.{Differ, bytes_of, changed_by, has_text, is_due};
ghost use Rattle.ob_watch.specs.Marks.{AreStampsPast};
ghost use Rattle.ob_watch.specs.Tables.{IsLease, StandsUntil, is_idle, is_over, leased_for, new_watch, next_due, touched_at, watching, without};
ghost use Rattle.ob_watch.specs.Undo.{StillUndoes, Undoes};

use crate::additions::Additions;
use crate::change::Change;
use crate::fault::WatchFault;
use crate::feeds::Feeds;
use crate::item::Item;
use crate::items::Items;
use crate::room::Room;
use ob_times::Moment;
use ob_tree::Tree;
use ob_values::Text;
use std::alloc::Global;
use std::marker::Model;

/// The lease of a new watch, a minute, in nanoseconds.
pub const FIRST_LEASE: u64 = 60_000_000_000;

/// The shortest lease that can be asked for, a second, in nanoseconds.
pub const SHORTEST_LEASE: u64 = 1_000_000_000;

/// The longest lease that can be asked for, a day, in nanoseconds.
pub const LONGEST_LEASE: u64 = 86_400_000_000_000;

/// A watch: its lease in nanoseconds, of a second to a day; the moment of the last request to it in milliseconds
/// since 1970; and its items in the order in which their hrefs were first added.
///
/// Source: oBIX 1.1, chapter 12 (Watches).
pub struct Watch {
    lease: u64,
    touched: u64,
    items: Items,
}

/// An item of a watch that is to be reported, and its place among them, from 0.
pub struct Due<'a> {
    pub place: usize,
    pub item: &'a Item,
}

impl Drop for Watch {
    // By one call for each part, so that to drop a watch is one call to whoever may have to.
    fn drop(self) {
        let Watch {
            lease: _,
            touched: _,
            items,
        } = self;
        drop(items);
    }
}

impl Model for Watch {
    ghost use Rattle.ob_watch.specs.Tables.{IsLease, Leased};

    ghost Value = { Leased };

    ghost view = { λ w. record { lease = w.lease; touched = w.touched; items = w.items } };

    ghost invariant = { λ w. IsLease w.lease };
}

// The first place whose item is to be reported.
fn first_due<F: Feeds>(items: &[Item], tree: &Tree, feeds: &F) -> Option<usize>
    ensures { result ≡ position (is_due tree.now (F.logs feeds.now)) items.now }
{
    items.iter().position(|item| item.is_due(tree, feeds))
}

// The first place from one on whose item is to be reported.
fn next_due<F: Feeds>(items: &[Item], tree: &Tree, feeds: &F, place: usize) -> Option<usize>
    ensures { result ≡ next_due tree.now (F.logs feeds.now) place items.now }
{
    let from = place.min(items.len());
    let further = first_due(&items[from..], tree, feeds)?;
    Some(from + further)
}

impl Watch {
    /// A new watch, made at this moment, with a lease of a minute.
    pub(crate) fn new(alloc: Global, now: Moment) -> Watch
        ensures { result ≡ new_watch now }
    {
        Watch {
            lease: FIRST_LEASE,
            touched: now.ms(),
            items: Items::new(alloc),
        }
    }

    /// The lease in nanoseconds.
    pub fn lease(&self) -> u64
        ensures value { result ≡ self.now.lease }
        ensures bounded { IsLease result }
    {
        self.lease
    }

    /// The items in their order. No two have one href.
    pub fn items(&self) -> &[Item]
        ensures items { result.now ≡ self.now.items }
        ensures differ { Differ self.now.items }
    {
        self.items.as_slice()
    }

    /// Whether the lease has run out at this moment.
    pub fn has_lapsed(&self, now: Moment) -> bool
        ensures { result ≡ is_over now self.now }
    {
        let (touched, lease) = (self.touched, self.lease);
        let end = touched as u128 * 1_000_000 + lease as u128;
        end <= now.ms() as u128 * 1_000_000
    }

    /// A moment in milliseconds since 1970 before which the lease does not run out: its end, to the whole millisecond
    /// below.
    pub(crate) fn stands_until(&self) -> u64
        ensures { StandsUntil result self.now }
    {
        self.touched.saturating_add(self.lease / 1_000_000)
    }

    /// Why an href can't be added where the other watches leave so much room, if it can't: it is new, and this watch has
    /// 2,048 items, or all have theirs, or its bytes are too many in all.
    ///
    /// Source: limits of this server.
    pub fn refusal(&self, room: Room, text: &Text) -> Option<WatchFault>
        ensures { result ≡ refusal room self.now text.now }
    {
        if self.has(text) {
            return None;
        }
        let count = self.items.as_slice().len();
        if count >= 2048 {
            return Some(WatchFault::ItemsFull);
        }
        if room.lacks_item(count) {
            return Some(WatchFault::AllItemsFull);
        }
        if room.lacks_bytes(self.items.bytes(), text.as_str().len()) {
            return Some(WatchFault::AllBytesFull);
        }
        None
    }

    /// What is left beside the items of this watch.
    pub(crate) fn leaves(&self, room: Room) -> Room
        ensures { result ≡ record { items = room.items - length self.now.items; bytes = room.bytes - bytes_of self.now.items } }
    {
        room.beside(self.items.as_slice().len(), self.items.bytes())
    }

    /// Whether the last request to the watch lies more than a minute back.
    pub(crate) fn is_idle(&self, now: Moment) -> bool
        ensures { result ≡ is_idle now self.now }
    {
        now.ms().saturating_sub(self.touched) > 60_000
    }

    /// The moment of the last request to the watch, in milliseconds since 1970.
    pub(crate) fn touched(&self) -> u64
        ensures { result ≡ self.now.touched }
    {
        self.touched
    }

    /// Whether an item is of this href.
    pub fn has(&self, text: &Text) -> bool
        ensures { result ≡ has_text self.now.items text.now }
    {
        self.items.has(text)
    }

    /// Whether an item is to be reported. Quick where nothing has changed since all were reported: no stamp of the
    /// tree may be of a step to come.
    ///
    /// Source: oBIX 1.1, chapter 12 (Watch.pollChanges).
    pub fn has_due<F: Feeds>(&self, tree: &Tree, feeds: &F) -> bool
        requires { AreStampsPast tree.now }
        ensures { result ≡ list_any (is_due tree.now (F.logs feeds.now)) self.now.items }
    {
        self.items.has_due(tree, feeds)
    }

    /// The first item from a place on that is to be reported.
    ///
    /// Source: oBIX 1.1, chapter 12 (Watch.pollChanges).
    pub fn next_due<F: Feeds>(&self, tree: &Tree, feeds: &F, place: usize) -> Option<Due<'_>>
        ensures place { option_map (λ d. d.place) result ≡ next_due tree.now (F.logs feeds.now) place self.now.items }
        ensures item { IfSome result (λ d. slice_get self.now.items d.place ≡ Some d.item.now) }
    {
        let items = self.items.as_slice();
        let place = next_due(items, tree, feeds, place)?;
        let item = items.get(place)?;
        Some(Due { place, item })
    }

    /// A request to the watch renews its lease.
    pub(crate) fn touch(&mut self, now: Moment)
        ensures { self.new ≡ touched_at now self.old }
    {
        self.touched = now.ms();
    }

    /// Another lease, in nanoseconds.
    pub(crate) fn renew(&mut self, lease: u64)
        requires { IsLease lease }
        ensures { self.new ≡ leased_for lease self.old }
    {
        self.lease = lease;
    }

    /// Puts an item in the place of the one of its href, or last, where the other watches leave so much room; an error where it is
    /// refused. An error leaves the watch as it was.
    pub(crate) fn add(
        &mut self,
        alloc: Global,
        item: Item,
        room: Room,
        undo: &mut Additions,
    ) -> Result<(), WatchFault>
        ensures adds { Adds room self.old self.new item result }
        ensures back { StillUndoes undo.old undo.new self.old.items self.new.items }
    {
        if let Some(fault) = self.refusal(room, item.text()) {
            return Err(fault);
        }
        match undo.put(alloc, &mut self.items, item) {
            Ok(()) => Ok(()),
            Err(_) => Err(WatchFault::Memory),
        }
    }

    /// Leaves the items as they were before those were added.
    pub(crate) fn take_back(&mut self, undo: Additions)
        ensures kept { self.new ≡ watching self.new.items self.old }
        ensures taken { (original : List KeptItem) → Undoes undo self.old.items original → self.new ≡ watching original self.old }
    {
        undo.take_back(&mut self.items);
    }

    /// Drops the items of these hrefs.
    pub(crate) fn remove(&mut self, texts: &[Text])
        ensures { self.new ≡ without texts.now self.old }
    {
        self.items.remove(texts);
    }

    /// Makes a change of each item.
    pub(crate) fn change<C: Change>(&mut self, change: &C)
        ensures { self.new ≡ watching (map (changed_by (C.made change.now)) self.old.items) self.old }
    {
        self.items.change(change);
    }
}
