//! The watches of a site.
ghost use Rattle.std.specs.Prelude.{◌≡◌, ℕ, ◌-◌, ◌||◌, ◌++◌, List, [], ◌∷◌, cond, count_by, OnOk, is_some, map, not, None, IfOk, nat_eq, nat_le, length, max};
ghost use Rattle.std.specs.List.{AllByRecursion, IsDistinct, filter};
ghost use Rattle.std.specs.Option.{option_copied};
ghost use Rattle.indexmap.specs.IndexMap.{IsUnique};
ghost use Rattle.ob_watching.specs.Tables.{lookup, numbers_of, replace};
ghost use Rattle.ob_watching.specs.Watches.{max_watches};
ghost use Rattle.ob_watch.specs.Adding.{AddsAt, GivesWay, Makes, TakesBack, is_full_at};
ghost use Rattle.ob_watch.specs.Giving.{IsPart, is_busy, least_idle};
ghost use Rattle.ob_watch.specs.Items.{bytes_of, changed_by, marked_anew};
ghost use Rattle.ob_watch.specs.Tables.{AllStandUntil, IsLease, StandsUntil, at_number, holding, idlest, is_idle, is_over, lacks_room, lapsed_at, leased_for, live, new_watch, no_watches, room_beside, room_left, touched_at, with_all_items, with_new, without, yielding, Leased, Table};
ghost use Rattle.ob_watch.specs.Reported.{IsDue, all_reported};

use crate::additions::Additions;
use crate::change::{Change, Renumber, Report};
use crate::fault::WatchFault;
use crate::feeds::Feeds;
use crate::item::Item;
use crate::room::Room;
use crate::watch::{Due, Watch};
use indexmap::IndexMap;
use ob_times::Moment;
use ob_tree::Tree;
use ob_values::Text;
use std::alloc::{AllocError, Global};
use std::marker::Model;

// Watches under their numbers.
type Map = IndexMap<u64, Watch>;

/// The watches that are held, by their numbers, the oldest first.
///
/// A watch whose lease has run out is held until `sweep`; no call that is told the moment knows it.
#[derive(Drop)]
pub struct Watches {
    alloc: Global,
    map: Map,
    next: u64,
    // A moment in milliseconds since 1970 before which no lease that is held runs out.
    soonest: u64,
}

impl Model for Watches {
    ghost use Rattle.ob_watch.specs.Held.{AreNumbered};
    ghost use Rattle.ob_watch.specs.Tables.{AllStandUntil, Table};

    ghost Value = { Table };

    ghost view = { λ w. record { watches = w.map.entries; next = w.next } };

    ghost invariant = { λ w. AreNumbered w.next w.map.entries × AllStandUntil w.soonest w.map.entries };
}

// The watch of a number whose lease has not run out.
fn live_watch(held: &Map, number: u64, now: Moment) -> Option<&Watch>
    requires { IsUnique nat_eq held.now }
    ensures { option_copied result ≡ lookup number (live now held.now.entries) }
{
    let watch = held.get(&number)?;
    if watch.has_lapsed(now) {
        return None;
    }
    Some(watch)
}

// A moment before which no lease of these runs out; the greatest number where there are none.
fn soonest_of(watches: &[Watch]) -> u64
    ensures { AllByRecursion (StandsUntil result) watches.now }
{
    let mut soonest = u64::MAX;
    for watch in watches {
        soonest = soonest.min(watch.stands_until());
    }
    soonest
}

// The same of the watches under their numbers.
fn soonest_held(held: &Map) -> u64
    ensures { AllStandUntil result held.now.entries }
{
    let watches = held.values().as_slice();
    soonest_of(watches)
}

// How many there are whose lease has not run out and that give way to none.
fn count_busy(watches: &[Watch], now: Moment) -> usize
    ensures { result ≡ count_by (is_busy now) watches.now }
{
    watches
        .iter()
        .filter(|watch| !watch.has_lapsed(now) && !watch.is_idle(now))
        .count()
}

// Whether a thousand or more are live and give way to none; they are counted only where as many are held.
fn are_thousand(held: &Map, now: Moment) -> bool
    ensures { result ≡ nat_le max_watches (length (filter (λ e. is_busy now e.1) held.now.entries)) }
{
    held.len() >= 1000 && count_busy(held.values().as_slice(), now) >= 1000
}

// Makes a change of each item of each watch.
fn change_each<C: Change>(held: &mut Map, change: &C)
    ensures { held.new.entries ≡ with_all_items (changed_by (C.made change.now)) held.old.entries }
{
    for place in 0..held.len() {
        let watch = &mut held[place];
        watch.change(change);
    }
}

// Drops the watches whose lease has run out.
fn drop_lapsed(held: &mut Map, now: Moment)
    ensures { held.new.entries ≡ live now held.old.entries }
{
    held.retain(
        |_number: &u64, watch: &mut Watch| -> bool
            ensures { (result ≡ not (is_over now watch.old)) × (watch.new ≡ watch.old) }
        { !watch.has_lapsed(now) },
    );
}

// Puts a number last where the lease of its watch has not run out.
fn push_live(
    numbers: &mut Vec<u64>,
    number: u64,
    watch: &Watch,
    now: Moment,
) -> Result<(), AllocError>
    ensures { OnOk result (numbers.new.items ≡ numbers.old.items ++ cond (not (is_over now watch.now)) (number ∷ []) []) }
{
    if !watch.has_lapsed(now) {
        numbers.push(number)?;
    }
    Ok(())
}

// The numbers of the watches whose lease has not run out.
fn live_numbers(alloc: Global, held: &Map, now: Moment) -> Result<Vec<u64>, AllocError>
    ensures { IfOk result (λ numbers. numbers.items ≡ numbers_of (live now held.now.entries)) }
{
    let all = held.keys().as_slice();
    let watches = held.values().as_slice();
    let mut numbers = Vec::new(alloc);
    for place in 0..watches.len() {
        push_live(&mut numbers, all[place], &watches[place], now)?;
    }
    Ok(numbers)
}

// What watches leave of what all may have.
fn room_left(watches: &[Watch]) -> Room
    ensures { (es : List (ℕ × Leased)) → map (λ e. e.1) es ≡ watches.now → result ≡ room_left es }
{
    let mut room = Room::new();
    for watch in watches {
        room = watch.leaves(room);
    }
    room
}

// What is left beside a watch, unless it is the one of this number or its lease has run out.
fn beside_other(room: Room, watch: &Watch, is_own: bool, now: Moment) -> Room
    ensures { result ≡ cond (is_own || is_over now watch.now) room (record { items = room.items - length watch.now.items; bytes = room.bytes - bytes_of watch.now.items }) }
{
    if is_own || watch.has_lapsed(now) {
        return room;
    }
    watch.leaves(room)
}

// What the others leave for the watch of a number.
fn room_beside(held: &Map, number: u64, now: Moment) -> Room
    ensures { result ≡ room_beside number (live now held.now.entries) }
{
    let all = held.keys().as_slice();
    let watches = held.values().as_slice();
    let mut room = Room::new();
    for place in 0..watches.len() {
        room = beside_other(room, &watches[place], all[place] == number, now);
    }
    room
}

// There is no room for one more watch with its most items, beside all but the last.
fn lacks_room(held: &Map) -> bool
    ensures { (ws : List (ℕ × Leased)) (number now : ℕ) → held.now.entries ≡ ws ++ (number, new_watch now) ∷ [] → result ≡ lacks_room ws }
{
    held.len() > 1000 || room_left(held.values().as_slice()).lacks_watch()
}

// Of an idle watch and another, by number and moment of the last request, the one whose request lies farther back.
fn idler(other: Option<(u64, u64)>, number: u64, watch: &Watch, now: Moment) -> Option<(u64, u64)>
    ensures { result ≡ least_idle now other (number, watch.now) }
{
    if !watch.is_idle(now) {
        return other;
    }
    match other {
        Some((first, touched)) if touched <= watch.touched() => Some((first, touched)),
        _ => Some((number, watch.touched())),
    }
}

// The number of the idle watch whose last request lies farthest back, of several the first.
fn idlest(held: &Map, now: Moment) -> Option<u64>
    ensures { result ≡ idlest now held.now.entries }
{
    let all = held.keys().as_slice();
    let watches = held.values().as_slice();
    let mut found = None;
    for place in 0..watches.len() {
        found = idler(found, all[place], &watches[place], now);
    }
    let (number, _touched) = found?;
    Some(number)
}

// Idle watches give way to the last, one after the other, while the others leave no room for one more.
fn give_way(held: &mut Map, now: Moment)
    requires { IsUnique nat_eq held.old }
    ensures gone { (ws : List (ℕ × Leased)) (number : ℕ) → held.old.entries ≡ ws ++ (number, new_watch now) ∷ []
        → held.new.entries ≡ yielding (length ws) now ws ++ (number, new_watch now) ∷ [] }
    ensures part { IsPart held.old.entries held.new.entries }
{
    for _round in 1..held.len() {
        if !lacks_room(held) {
            return;
        }
        let Some(number) = idlest(held, now) else {
            return;
        };
        held.shift_remove(&number);
    }
}

impl Watches {
    /// No watch; the first will have number 1.
    pub fn new(alloc: Global) -> Watches
        ensures { result ≡ no_watches }
    {
        Watches {
            alloc,
            map: IndexMap::new(alloc),
            next: 1,
            soonest: u64::MAX,
        }
    }

    /// The number that the next make gives.
    pub fn next_number(&self) -> u64
        ensures { result ≡ self.now.next }
    {
        self.next
    }

    /// The watch of this number, if it is held and its lease hasn't run out at this moment.
    pub fn get(&self, number: u64, now: Moment) -> Option<&Watch>
        ensures { option_copied result ≡ lookup number (lapsed_at now self.now).watches }
    {
        live_watch(&self.map, number, now)
    }

    /// Whether the watch of this number is held, and its lease hasn't run out at this moment.
    pub fn live(&self, number: u64, now: Moment) -> bool
        ensures { result ≡ is_some (lookup number (lapsed_at now self.now).watches) }
    {
        self.get(number, now).is_some()
    }

    /// Whether no more can be made at this moment: 1,000 are live of which the last request lies at most a minute back, or the
    /// last number was given.
    pub fn is_full(&self, now: Moment) -> bool
        ensures { result ≡ is_full_at now self.now }
    {
        are_thousand(&self.map, now) || self.next > 9_223_372_036_854_775_807
    }

    /// The numbers of the watches that are held. They differ.
    pub fn numbers(&self) -> &[u64]
        ensures numbers { result.now ≡ numbers_of self.now.watches }
        ensures differ { IsDistinct nat_eq (numbers_of self.now.watches) }
    {
        self.map.keys().as_slice()
    }

    /// The numbers of the watches whose lease hasn't run out at this moment. An error only for want of memory.
    pub fn live_numbers(&self, now: Moment) -> Result<Vec<u64>, AllocError>
        ensures { IfOk result (λ numbers. numbers.items ≡ numbers_of (lapsed_at now self.now).watches) }
    {
        live_numbers(self.alloc, &self.map, now)
    }

    /// What the other watches, as far as their lease hasn't run out at this moment, leave for the one of a number of the 200,000
    /// items and 16,777,216 bytes of hrefs that all may have.
    pub fn room_beside(&self, number: u64, now: Moment) -> Room
        ensures { result ≡ room_beside number (lapsed_at now self.now).watches }
    {
        room_beside(&self.map, number, now)
    }

    /// Makes a watch at this moment and gives its number. Full where no more can be made; an error leaves all
    /// as it was. Those that are to give way to it are held until `give_way`.
    ///
    /// Source: oBIX 1.1, chapter 12 (WatchService.make).
    pub fn make(&mut self, now: Moment) -> Result<u64, WatchFault>
        ensures { Makes now self.old self.new result }
    {
        if self.is_full(now) {
            return Err(WatchFault::Full);
        }
        let number = self.next;
        let watch = Watch::new(self.alloc, now);
        let until = watch.stands_until();
        match self.map.insert(number, watch) {
            Ok(_) => {
                self.next = number + 1;
                self.soonest = self.soonest.min(until);
                Ok(number)
            }
            Err(_) => Err(WatchFault::Memory),
        }
    }

    /// Drops the watches whose lease has run out, and then idle ones, whose last request lies more than a minute back: while there
    /// is no room for one more watch with its most items, beside the last that was made at this moment, the one goes whose request
    /// lies farthest back, of several the one with the least number. It takes no memory.
    pub fn give_way(&mut self, now: Moment)
        ensures { GivesWay now self.old self.new }
    {
        self.sweep(now);
        give_way(&mut self.map, now);
    }

    /// Takes back the last make, where nothing was asked of the watches since: its watch is gone, and the next make gives its
    /// number again. It takes no memory.
    pub fn unmake(&mut self)
        ensures { (now : ℕ) (before : Table) → self.old ≡ with_new now before → self.new ≡ before }
    {
        let number = self.next.saturating_sub(1);
        if self.map.shift_remove(&number).is_some() {
            self.next = number;
        }
    }

    /// A request to a watch renews its lease; false where no watch of that number is held.
    pub fn touch(&mut self, number: u64, now: Moment) -> bool
        ensures held { result ≡ is_some (lookup number self.old.watches) }
        ensures touched { self.new ≡ holding (at_number number (touched_at now) self.old.watches) self.old }
    {
        match self.map.get_mut(&number) {
            Some(watch) => {
                watch.touch(now);
                self.soonest = self.soonest.min(watch.stands_until());
            }
            None => return false,
        }
        true
    }

    /// Gives a watch another lease, in nanoseconds; false where no watch of that number is held.
    pub fn set_lease(&mut self, number: u64, lease: u64) -> bool
        requires { IsLease lease }
        ensures held { result ≡ is_some (lookup number self.old.watches) }
        ensures leased { self.new ≡ holding (at_number number (leased_for lease) self.old.watches) self.old }
    {
        match self.map.get_mut(&number) {
            Some(watch) => {
                watch.renew(lease);
                self.soonest = self.soonest.min(watch.stands_until());
            }
            None => return false,
        }
        true
    }

    /// Drops the watch of this number; false where none is held.
    pub fn delete(&mut self, number: u64) -> bool
        ensures held { result ≡ is_some (lookup number self.old.watches) }
        ensures deleted { self.new ≡ holding (replace number None self.old.watches) self.old }
    {
        self.map.shift_remove(&number).is_some()
    }

    /// Drops all watches, as a restart does; numbers below this one count as given.
    pub fn restart(&mut self, below: u64)
        ensures { self.new ≡ record { watches = []; next = max self.old.next below } }
    {
        self.map = IndexMap::new(self.alloc);
        self.next = self.next.max(below);
        self.soonest = u64::MAX;
    }

    /// Drops the watches whose lease has run out at this moment.
    pub fn sweep(&mut self, now: Moment)
        ensures { self.new ≡ lapsed_at now self.old }
    {
        if now.ms() < self.soonest {
            return;
        }
        drop_lapsed(&mut self.map, now);
        self.soonest = soonest_held(&self.map);
    }

    /// Puts an item in the place of the one of its href, or last, where the other watches leave so much room. NoWatch where no
    /// watch of that number is held; the three others where the href is new and there is no room for it. An error leaves all as it
    /// was, and `undo` takes back what was added with it before.
    ///
    /// Source: oBIX 1.1, chapter 12 (Watch.add).
    pub fn add(
        &mut self,
        number: u64,
        item: Item,
        room: Room,
        undo: &mut Additions,
    ) -> Result<(), WatchFault>
        ensures { AddsAt number item room self.old self.new undo.old undo.new result }
    {
        let alloc = self.alloc;
        match self.map.get_mut(&number) {
            Some(watch) => watch.add(alloc, item, room, undo),
            None => return Err(WatchFault::NoWatch),
        }
    }

    /// Leaves the items of a watch as they were before those were added that `undo` tells of; false where no
    /// watch of that number is held.
    pub fn take_back(&mut self, number: u64, undo: Additions) -> bool
        ensures held { result ≡ is_some (lookup number self.old.watches) }
        ensures taken { TakesBack number undo self.old self.new }
    {
        match self.map.get_mut(&number) {
            Some(watch) => watch.take_back(undo),
            None => return false,
        }
        true
    }

    /// Drops the items of these hrefs from a watch; false where no watch of that number is held.
    ///
    /// Source: oBIX 1.1, chapter 12 (Watch.remove).
    pub fn remove(&mut self, number: u64, texts: &[Text]) -> bool
        ensures held { result ≡ is_some (lookup number self.old.watches) }
        ensures removed { self.new ≡ holding (at_number number (without texts.now) self.old.watches) self.old }
    {
        match self.map.get_mut(&number) {
            Some(watch) => watch.remove(texts),
            None => return false,
        }
        true
    }

    /// The first item of a watch from a place on that is to be reported; None also where no watch of that number
    /// is held.
    ///
    /// Source: oBIX 1.1, chapter 12 (Watch.pollChanges).
    pub fn due<F: Feeds>(
        &self,
        tree: &Tree,
        feeds: &F,
        number: u64,
        place: usize,
    ) -> Option<Due<'_>>
        ensures { IsDue tree.now (F.logs feeds.now) place (lookup number self.now.watches) result }
    {
        match self.map.get(&number) {
            Some(watch) => watch.next_due(tree, feeds, place),
            None => None,
        }
    }

    /// Takes all items of a watch as reported after the last step of the tree; false where no watch of that
    /// number is held.
    ///
    /// Source: oBIX 1.1, chapter 12 (Watch.pollChanges, Watch.pollRefresh).
    pub fn reported<F: Feeds>(&mut self, tree: &Tree, feeds: &F, number: u64) -> bool
        ensures held { result ≡ is_some (lookup number self.old.watches) }
        ensures reported { self.new ≡ holding (at_number number (all_reported tree.now.steps (F.logs feeds.now)) self.old.watches) self.old }
    {
        let steps = tree.steps();
        match self.map.get_mut(&number) {
            Some(watch) => watch.change(&Report { steps, feeds }),
            None => return false,
        }
        true
    }

    /// Marks the objects anew, as the steps of the tree are to be counted from 1 again: to be called before
    /// `Tree::renumber`, which leaves the same items to be reported.
    pub fn renumber(&mut self, tree: &Tree)
        ensures { self.new ≡ holding (with_all_items (marked_anew tree.now) self.old.watches) self.old }
    {
        change_each(&mut self.map, &Renumber { tree });
    }
}

/// Watches may go to another thread with the site that has them.
pub fn crosses_threads() {
    is_send::<Watches>();
}

fn is_send<T: Send>() {}
