//! What is held under one href.
ghost use Rattle.std.specs.Prelude.{◌≡◌, ◌++◌, ◌+◌, ◌≤◌, IfOk, OnOk, IsTrue, Some, true, false, map, drop, length, codes, is_some, option_copied};
ghost use Rattle.ob_object.specs.Object.{none, in_row, children};
ghost use Rattle.ob_object.specs.WellFormed.{with_child, named};
ghost use Rattle.ob_watching.specs.Replay.{continued};
ghost use Rattle.ob_watching.specs.WatchOuts.{without_name, dropped_in, number_in, entry_read};
ghost use Rattle.ob_client.specs.Entries.{is_feed};
ghost use Rattle.ob_client.specs.Shown.{dropped_object, dropped_child, shown};
ghost use Rattle.ob_client.specs.Feeds.{news_in, feed_of};
ghost use Rattle.ob_client.specs.Mirrors.{most_missed, counts, has_count, follows, events_in, missed_in};

use crate::entries::{is_feed, is_of_kind, text_of};
use ob_object::{Facets, Head, Kind, Obj, Slot};
use ob_values::{Text, Value};
use std::alloc::{AllocError, Global};
use std::marker::Model;

/// What is held under an href, as it is shown: an object or an err as it came, or a feed with the number of events missed,
/// if it isn't 0, and its events.
pub(crate) struct Kept {
    entry: Obj,
}

impl Drop for Kept {
    // By one call, so that to drop it is one call to whoever may have to.
    fn drop(self) {
        let Kept { entry } = self;
        drop(entry);
    }
}

impl Model for Kept {
    ghost use Rattle.std.specs.Prelude.{◌≡◌, true};
    ghost use Rattle.ob_object.specs.contracts.object.Obj.{the_row};
    ghost use Rattle.ob_watching.specs.WatchOuts.{Held, entry_read};
    ghost use Rattle.ob_client.specs.Shown.{shown, held_code};

    ghost Value = { Held };

    ghost coded = { held_code the_row.coded };

    ghost view = { λ k. entry_read true k.entry };

    ghost invariant = { λ k. shown (entry_read true k.entry) ≡ k.entry };
}

/// The most events that are counted as missed.
const MOST_MISSED: u64 = 9_223_372_036_854_775_807;

// The object without its name, which each object may do without.
fn without_name(mut object: Obj) -> Obj
    ensures { result ≡ without_name object }
{
    match object.put_name(None) {
        Ok(()) => object,
        Err(_name) => unreachable!(),
    }
}

// Puts a copy of an event last, without its name.
fn push_event(feed: &mut Obj, event: &Obj) -> Result<(), AllocError>
    ensures { OnOk result (feed.new ≡ with_child feed.old (without_name event.now)) }
{
    let copy = event.copy()?;
    match feed.push_new(without_name(copy)) {
        Ok(()) => Ok(()),
        Err(_copy) => Err(AllocError),
    }
}

// Puts copies of events last, without their names.
fn push_events(feed: &mut Obj, events: &[Obj]) -> Result<(), AllocError>
    ensures { OnOk result (feed.new ≡ record { head = feed.old.head; inner = in_row (children feed.old ++ map without_name events.now) }) }
{
    for event in events {
        push_event(feed, event)?;
    }
    Ok(())
}

// The same, but passes over the child that tells how many dropped out.
fn push_news(feed: &mut Obj, events: &[Obj]) -> Result<(), AllocError>
    ensures { OnOk result (feed.new ≡ record { head = feed.old.head; inner = in_row (children feed.old ++ map without_name (news_in events.now)) }) }
{
    for event in events {
        if !event.is_named("dropped") {
            push_event(feed, event)?;
        }
    }
    Ok(())
}

// The child that tells how many events were missed.
fn dropped_object(alloc: Global, missed: u64) -> Result<Obj, AllocError>
    requires { missed ≤ most_missed }
    ensures { IfOk result (λ o. o ≡ dropped_object missed) }
{
    let name = Text::from_ascii(alloc, "dropped")?;
    let head = Head {
        kind: Kind::Int,
        name: Some(name),
        href: None,
        is: None,
        of: None,
        input: None,
        output: None,
        slot: Slot::Is(Value::Int(missed as i64)),
        facets: Facets::none(),
    };
    Obj::from_head(alloc, head)
}

// Puts that child into an object without children, where it isn't 0.
fn push_dropped(alloc: Global, feed: &mut Obj, missed: u64) -> Result<(), AllocError>
    requires none { feed.old.inner ≡ none }
    requires some { missed ≤ most_missed }
    ensures { OnOk result (feed.new ≡ record { head = feed.old.head; inner = in_row (dropped_child missed) }) }
{
    if missed == 0 {
        return Ok(());
    }
    let child = dropped_object(alloc, missed)?;
    match feed.push_new(child) {
        Ok(()) => Ok(()),
        Err(_child) => Err(AllocError),
    }
}

// A feed without events, of which so many were missed.
fn feed_without(alloc: Global, feed: &Obj, missed: u64) -> Result<Obj, AllocError>
    requires { missed ≤ most_missed }
    ensures { IfOk result (λ bare. bare ≡ record { head = feed.now.head; inner = in_row (dropped_child missed) }) }
{
    let head = feed.head();
    let copy = head.copy()?;
    let mut bare = Obj::from_attributes(alloc, copy);
    push_dropped(alloc, &mut bare, missed)?;
    Ok(bare)
}

fn number_in(slot: &Slot) -> u64
    ensures value { result ≡ number_in slot.now }
    ensures small { result ≤ most_missed }
{
    match slot {
        Slot::Is(Value::Int(number)) => (*number).max(0) as u64,
        _ => 0,
    }
}

// How many events an entry tells as dropped out.
fn dropped_in(entry: &Obj) -> u64
    ensures value { result ≡ dropped_in (children entry.now) }
    ensures small { result ≤ most_missed }
{
    match entry.child("dropped") {
        Some(child) => number_in(child.slot()),
        None => 0,
    }
}

// Whether the slot has a number from 1 on that can be added.
fn counts(missed: u64, slot: &Slot) -> bool
    requires { missed ≤ most_missed }
    ensures { result ≡ counts missed slot.now }
{
    match slot {
        Slot::Is(Value::Int(number)) => {
            *number >= 1 && (*number).max(0) as u64 <= MOST_MISSED - missed
        }
        _ => false,
    }
}

// Whether the child that tells how many dropped out, if there is one, can be counted.
fn has_count(missed: u64, child: Option<&Obj>) -> bool
    requires { missed ≤ most_missed }
    ensures { result ≡ has_count missed (option_copied child.entry) }
{
    match child {
        Some(child) => is_of_kind(Kind::Int, child) && counts(missed, child.slot()),
        None => true,
    }
}

// The feed of an entry with all its children as events.
fn whole_feed(alloc: Global, entry: &Obj) -> Result<Obj, AllocError>
    ensures { IfOk result (λ feed. feed ≡ feed_of entry.now.head 0 (children entry.now)) }
{
    let mut feed = feed_without(alloc, entry, 0)?;
    push_events(&mut feed, entry.children())?;
    Ok(feed)
}

// The feed of an entry with the events that it tells of.
fn changed_feed(alloc: Global, entry: &Obj) -> Result<Obj, AllocError>
    ensures { IfOk result (λ feed. feed ≡ feed_of entry.now.head (dropped_in (children entry.now)) (news_in (children entry.now))) }
{
    let mut feed = feed_without(alloc, entry, dropped_in(entry))?;
    push_news(&mut feed, entry.children())?;
    Ok(feed)
}

// A feed with its events and those of an entry behind them.
fn longer_feed(alloc: Global, feed: &Obj, entry: &Obj) -> Result<Obj, AllocError>
    requires { IsTrue (has_count (dropped_in (children feed.now)) (named (codes "dropped") (children entry.now))) }
    ensures { IfOk result (λ longer. longer ≡ feed_of feed.now.head (dropped_in (children feed.now) + dropped_in (children entry.now)) (news_in (children feed.now) ++ news_in (children entry.now))) }
{
    let missed = dropped_in(feed) + dropped_in(entry);
    let mut longer = feed_without(alloc, feed, missed)?;
    push_news(&mut longer, feed.children())?;
    push_news(&mut longer, entry.children())?;
    Ok(longer)
}

impl Kept {
    // An object that is no feed, as it came.
    fn object(entry: &Obj) -> Result<Kept, AllocError>
        requires href { IsTrue (is_some entry.now.head.href) }
        requires plain { is_feed entry.now ≡ false }
        ensures { IfOk result (λ kept. kept ≡ entry_read true entry.now) }
    {
        let copy = entry.copy()?;
        Ok(Kept { entry: copy })
    }

    /// What an entry of the reply to an add or a pollRefresh gives.
    pub(crate) fn whole(alloc: Global, entry: &Obj) -> Result<Kept, AllocError>
        requires { IsTrue (is_some entry.now.head.href) }
        ensures { IfOk result (λ kept. kept ≡ entry_read false entry.now) }
    {
        if !is_feed(entry) {
            return Kept::object(entry);
        }
        let feed = whole_feed(alloc, entry)?;
        Ok(Kept { entry: feed })
    }

    /// What an entry of the reply to a pollChanges gives by itself.
    pub(crate) fn changed(alloc: Global, entry: &Obj) -> Result<Kept, AllocError>
        requires { IsTrue (is_some entry.now.head.href) }
        ensures { IfOk result (λ kept. kept ≡ entry_read true entry.now) }
    {
        if !is_feed(entry) {
            return Kept::object(entry);
        }
        let feed = changed_feed(alloc, entry)?;
        Ok(Kept { entry: feed })
    }

    /// What is held once an entry of the reply to a pollChanges has come for it.
    pub(crate) fn continued(&self, alloc: Global, entry: &Obj) -> Result<Kept, AllocError>
        requires href { entry.now.head.href ≡ Some self.now.text }
        requires counted { IsTrue (follows self.now.content entry.now) }
        ensures { IfOk result (λ kept. kept ≡ record { text = self.now.text; content = continued self.now.content (entry_read true entry.now).content }) }
    {
        if !is_feed(&self.entry) {
            return Kept::changed(alloc, entry);
        }
        if !is_feed(entry) {
            return Kept::changed(alloc, entry);
        }
        let feed = longer_feed(alloc, &self.entry, entry)?;
        Ok(Kept { entry: feed })
    }

    /// Whether an entry of the reply to a pollChanges for it can be counted.
    pub(crate) fn follows(&self, entry: &Obj) -> bool
        ensures { result ≡ follows self.now.content entry.now }
    {
        if !is_feed(&self.entry) {
            return true;
        }
        if !is_feed(entry) {
            return true;
        }
        has_count(dropped_in(&self.entry), entry.child("dropped"))
    }

    /// The text as it was asked.
    pub(crate) fn text(&self) -> &str
        ensures { result.now ≡ self.now.text }
    {
        text_of(&self.entry)
    }

    /// The object as it is shown.
    pub(crate) fn shown(&self) -> &Obj
        ensures { result.now ≡ shown self.now }
    {
        &self.entry
    }

    /// How many events of it were missed, if it is a feed.
    pub(crate) fn missed(&self) -> u64
        ensures { result ≡ missed_in self.now.content }
    {
        if !is_feed(&self.entry) {
            return 0;
        }
        dropped_in(&self.entry)
    }

    /// Its events, if it is a feed.
    pub(crate) fn events(&self) -> &[Obj]
        ensures { result.now ≡ events_in self.now.content }
    {
        if !is_feed(&self.entry) {
            return &[];
        }
        events_behind(dropped_in(&self.entry), self.entry.children())
    }
}

// The children of a feed without the one that tells how many events were missed.
fn events_behind(missed: u64, children: &[Obj]) -> &[Obj]
    ensures { result.now ≡ drop (length (dropped_child missed)) children.now }
{
    if missed > 0 && !children.is_empty() {
        &children[1..]
    } else {
        children
    }
}
